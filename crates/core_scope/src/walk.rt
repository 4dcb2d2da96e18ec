//! One pass over an expression: what it refuses, which declared functions it calls, and to which variables
//! of the prolog it refers.
ghost use Rattle.std.specs.Prelude.{◌≡◌, OnOk, Some};
ghost use Rattle.core_scope.specs.Held.{names_in};
ghost use Rattle.core_scope.specs.Names.{no_names, with_name};
ghost use Rattle.core_scope.specs.Open as opens;
ghost use Rattle.core_scope.specs.Open.{open_in};
ghost use Rattle.core_scope.specs.Telling as spec;
ghost use Rattle.core_scope.specs.Telling.{told};

use crate::bindings::Bindings;
use crate::checks::{cast_amiss, integer_amiss, position_amiss, type_amiss, types_amiss};
use crate::found::Found;
use crate::names::{Names, Visible};
use crate::signatures::Functions;
use sqlite_items::{Boxed, Items};
use xq_ast::leaf::{ContentRun, Name, ReadType, ValueRun};
use xq_ast::node::{
    AsRead, Attribute, Behind, BuildName, Clause, ForBind, Key, LetBind, Node, Part, QuantBind,
    Right, Step, StepKind, ValuePart,
};
use xq_base::{Code, Want};

/// What is told of an expression. The visible variables are as before.
#[cycle(walk)]
#[tactic(auto, using(crate::proofs::Told::forms))]
pub fn walk<'a>(
    node: &'a Node<AsRead>,
    functions: &Functions<'a>,
    names: &mut Bindings<'a>,
    found: &mut Found,
) -> Result<(), Want>
    ensures found { OnOk result (found.new ≡ told functions.now node.now (open_in names.old) found.old) }
    ensures names { OnOk result (open_in names.new ≡ open_in names.old) }
{
    match node {
        Node::Comma(_, first, more) => {
            walk(first.get(), functions, names, found)?;
            walk_all(more.as_slice(), functions, names, found)
        }
        Node::Flwor(_, clauses, condition, keys, body) => {
            let mark = names.depth();
            walk_clauses(clauses.as_slice(), functions, names, found)?;
            walk_maybe(condition, functions, names, found)?;
            walk_keys(keys.as_slice(), functions, names, found)?;
            walk(body.get(), functions, names, found)?;
            names.leave_to(mark)
        }
        Node::Quantified(_, _, binds, body) => {
            let mark = names.depth();
            walk_quants(binds.as_slice(), functions, names, found)?;
            walk(body.get(), functions, names, found)?;
            names.leave_to(mark)
        }
        Node::If(_, condition, first, second) => {
            walk(condition.get(), functions, names, found)?;
            walk(first.get(), functions, names, found)?;
            walk(second.get(), functions, names, found)
        }
        Node::Chain(_, first, rights) => {
            walk(first.get(), functions, names, found)?;
            walk_rights(rights.as_slice(), functions, names, found)
        }
        Node::Signed(_, _, operand) => walk(operand.get(), functions, names, found),
        Node::Instance(_, operand, ty) => {
            walk(operand.get(), functions, names, found)?;
            type_amiss(ty, found);
            Ok(())
        }
        Node::Treat(_, operand, ty) => {
            walk(operand.get(), functions, names, found)?;
            type_amiss(ty, found);
            Ok(())
        }
        Node::Castable(_, operand, name, _) => {
            walk(operand.get(), functions, names, found)?;
            cast_amiss(name, found);
            Ok(())
        }
        Node::Cast(_, operand, name, _) => {
            walk(operand.get(), functions, names, found)?;
            cast_amiss(name, found);
            Ok(())
        }
        Node::Path(_, first, more) => {
            walk_step(first, functions, names, found)?;
            walk_behinds(more.as_slice(), functions, names, found)
        }
        Node::Integer(offset, digits) => {
            integer_amiss(*offset, digits.as_slice(), found);
            Ok(())
        }
        Node::Var(offset, name) => found.reference(names.get(name.text.as_slice()), *offset),
        Node::Paren(_, inner) => walk_maybe(inner, functions, names, found),
        Node::Call(offset, name, arguments) => {
            let callee = functions.get(name.text.as_slice(), arguments.len());
            found.call(callee, *offset)?;
            walk_all(arguments.as_slice(), functions, names, found)
        }
        Node::Build(_, _, name, content) => {
            walk_name(name, functions, names, found)?;
            walk_maybe(content, functions, names, found)
        }
        Node::Element(_, _, attributes, parts) => {
            walk_attributes(attributes.as_slice(), functions, names, found)?;
            walk_parts(parts.as_slice(), functions, names, found)
        }
        Node::Root(_) => Ok(()),
        Node::Text(_, _) => Ok(()),
        Node::Dot(_) => Ok(()),
        Node::Comment(_, _) => Ok(()),
        Node::Instruction(_, _, _) => Ok(()),
    }
}

/// What is told of some expressions in turn.
#[cycle(walk)]
fn walk_all<'a>(
    nodes: &'a [Node<AsRead>],
    functions: &Functions<'a>,
    names: &mut Bindings<'a>,
    found: &mut Found,
) -> Result<(), Want>
    ensures found { OnOk result (found.new ≡ spec.told_all functions.now nodes.now (open_in names.old) found.old) }
    ensures names { OnOk result (open_in names.new ≡ open_in names.old) }
{
    for node in nodes {
        walk(node, functions, names, found)?;
    }
    Ok(())
}

/// What is told of an expression, if it is there.
#[cycle(walk)]
fn walk_maybe<'a>(
    node: &'a Option<Boxed<Node<AsRead>>>,
    functions: &Functions<'a>,
    names: &mut Bindings<'a>,
    found: &mut Found,
) -> Result<(), Want>
    ensures found { OnOk result (found.new ≡ spec.told_maybe functions.now node.now (open_in names.old) found.old) }
    ensures names { OnOk result (open_in names.new ≡ open_in names.old) }
{
    match node {
        None => Ok(()),
        Some(node) => walk(node.get(), functions, names, found),
    }
}

/// What is told of operands behind operators.
#[cycle(walk)]
fn walk_rights<'a>(
    rights: &'a [Right<Node<AsRead>>],
    functions: &Functions<'a>,
    names: &mut Bindings<'a>,
    found: &mut Found,
) -> Result<(), Want>
    ensures found { OnOk result (found.new ≡ spec.told_rights functions.now rights.now (open_in names.old) found.old) }
    ensures names { OnOk result (open_in names.new ≡ open_in names.old) }
{
    for right in rights {
        walk(&right.operand, functions, names, found)?;
    }
    Ok(())
}

/// What is told of a step.
#[cycle(walk)]
fn walk_step<'a>(
    step: &'a Step<Items<u8>, Node<AsRead>>,
    functions: &Functions<'a>,
    names: &mut Bindings<'a>,
    found: &mut Found,
) -> Result<(), Want>
    ensures found { OnOk result (found.new ≡ spec.told_step functions.now step.now (open_in names.old) found.old) }
    ensures names { OnOk result (open_in names.new ≡ open_in names.old) }
{
    match &step.kind {
        StepKind::Walk(_, _) => walk_all(step.predicates.as_slice(), functions, names, found),
        StepKind::Primary(primary) => {
            walk(primary.get(), functions, names, found)?;
            walk_all(step.predicates.as_slice(), functions, names, found)
        }
    }
}

/// What is told of steps behind slashes.
#[cycle(walk)]
fn walk_behinds<'a>(
    behinds: &'a [Behind<Items<u8>, Node<AsRead>>],
    functions: &Functions<'a>,
    names: &mut Bindings<'a>,
    found: &mut Found,
) -> Result<(), Want>
    ensures found { OnOk result (found.new ≡ spec.told_behinds functions.now behinds.now (open_in names.old) found.old) }
    ensures names { OnOk result (open_in names.new ≡ open_in names.old) }
{
    for behind in behinds {
        walk_step(&behind.step, functions, names, found)?;
    }
    Ok(())
}

/// What is told of a `for` bind, which is entered.
#[cycle(walk)]
fn walk_for<'a>(
    bind: &'a ForBind<Name<Items<u8>>, ReadType, Node<AsRead>>,
    functions: &Functions<'a>,
    names: &mut Bindings<'a>,
    found: &mut Found,
) -> Result<(), Want>
    ensures found { OnOk result (found.new ≡ spec.told_for functions.now bind.now (open_in names.old) found.old) }
    ensures names { OnOk result (open_in names.new ≡ spec.entered_for bind.now (open_in names.old)) }
{
    types_amiss(&bind.ty, found);
    position_amiss(bind.var.name.text.as_slice(), &bind.at, found);
    walk(bind.source.get(), functions, names, found)?;
    names.enter_maybe(&bind.at)?;
    names.enter_variable(&bind.var)
}

/// What is told of `for` binds, which are entered.
#[cycle(walk)]
fn walk_fors<'a>(
    binds: &'a [ForBind<Name<Items<u8>>, ReadType, Node<AsRead>>],
    functions: &Functions<'a>,
    names: &mut Bindings<'a>,
    found: &mut Found,
) -> Result<(), Want>
    ensures found { OnOk result (found.new ≡ spec.told_fors functions.now binds.now (open_in names.old) found.old) }
    ensures names { OnOk result (open_in names.new ≡ spec.entered_fors binds.now (open_in names.old)) }
{
    for bind in binds {
        walk_for(bind, functions, names, found)?;
    }
    Ok(())
}

/// What is told of a `let` bind, which is entered.
#[cycle(walk)]
fn walk_let<'a>(
    bind: &'a LetBind<Name<Items<u8>>, ReadType, Node<AsRead>>,
    functions: &Functions<'a>,
    names: &mut Bindings<'a>,
    found: &mut Found,
) -> Result<(), Want>
    ensures found { OnOk result (found.new ≡ spec.told_let functions.now bind.now (open_in names.old) found.old) }
    ensures names { OnOk result (open_in names.new ≡ opens.entered_variable bind.now.var (open_in names.old)) }
{
    types_amiss(&bind.ty, found);
    walk(bind.value.get(), functions, names, found)?;
    names.enter_variable(&bind.var)
}

/// What is told of `let` binds, which are entered.
#[cycle(walk)]
fn walk_lets<'a>(
    binds: &'a [LetBind<Name<Items<u8>>, ReadType, Node<AsRead>>],
    functions: &Functions<'a>,
    names: &mut Bindings<'a>,
    found: &mut Found,
) -> Result<(), Want>
    ensures found { OnOk result (found.new ≡ spec.told_lets functions.now binds.now (open_in names.old) found.old) }
    ensures names { OnOk result (open_in names.new ≡ spec.entered_lets binds.now (open_in names.old)) }
{
    for bind in binds {
        walk_let(bind, functions, names, found)?;
    }
    Ok(())
}

/// What is told of a quantifier's bind, which is entered.
#[cycle(walk)]
fn walk_quant<'a>(
    bind: &'a QuantBind<Name<Items<u8>>, ReadType, Node<AsRead>>,
    functions: &Functions<'a>,
    names: &mut Bindings<'a>,
    found: &mut Found,
) -> Result<(), Want>
    ensures found { OnOk result (found.new ≡ spec.told_quant functions.now bind.now (open_in names.old) found.old) }
    ensures names { OnOk result (open_in names.new ≡ opens.entered_variable bind.now.var (open_in names.old)) }
{
    types_amiss(&bind.ty, found);
    walk(bind.source.get(), functions, names, found)?;
    names.enter_variable(&bind.var)
}

/// What is told of a quantifier's binds, which are entered.
#[cycle(walk)]
fn walk_quants<'a>(
    binds: &'a [QuantBind<Name<Items<u8>>, ReadType, Node<AsRead>>],
    functions: &Functions<'a>,
    names: &mut Bindings<'a>,
    found: &mut Found,
) -> Result<(), Want>
    ensures found { OnOk result (found.new ≡ spec.told_quants functions.now binds.now (open_in names.old) found.old) }
    ensures names { OnOk result (open_in names.new ≡ spec.entered_quants binds.now (open_in names.old)) }
{
    for bind in binds {
        walk_quant(bind, functions, names, found)?;
    }
    Ok(())
}

/// What is told of a clause, whose binds are entered.
#[cycle(walk)]
fn walk_clause<'a>(
    clause: &'a Clause<Name<Items<u8>>, ReadType, Node<AsRead>>,
    functions: &Functions<'a>,
    names: &mut Bindings<'a>,
    found: &mut Found,
) -> Result<(), Want>
    ensures found { OnOk result (found.new ≡ spec.told_clause functions.now clause.now (open_in names.old) found.old) }
    ensures names { OnOk result (open_in names.new ≡ spec.entered_clause clause.now (open_in names.old)) }
{
    match clause {
        Clause::For(binds) => walk_fors(binds.as_slice(), functions, names, found),
        Clause::Let(binds) => walk_lets(binds.as_slice(), functions, names, found),
    }
}

/// What is told of clauses, whose binds are entered.
#[cycle(walk)]
fn walk_clauses<'a>(
    clauses: &'a [Clause<Name<Items<u8>>, ReadType, Node<AsRead>>],
    functions: &Functions<'a>,
    names: &mut Bindings<'a>,
    found: &mut Found,
) -> Result<(), Want>
    ensures found { OnOk result (found.new ≡ spec.told_clauses functions.now clauses.now (open_in names.old) found.old) }
    ensures names { OnOk result (open_in names.new ≡ spec.entered_clauses clauses.now (open_in names.old)) }
{
    for clause in clauses {
        walk_clause(clause, functions, names, found)?;
    }
    Ok(())
}

/// What is told of keys.
#[cycle(walk)]
fn walk_keys<'a>(
    keys: &'a [Key<Node<AsRead>>],
    functions: &Functions<'a>,
    names: &mut Bindings<'a>,
    found: &mut Found,
) -> Result<(), Want>
    ensures found { OnOk result (found.new ≡ spec.told_keys functions.now keys.now (open_in names.old) found.old) }
    ensures names { OnOk result (open_in names.new ≡ open_in names.old) }
{
    for key in keys {
        walk(key.key.get(), functions, names, found)?;
    }
    Ok(())
}

/// What is told of a constructor's name.
#[cycle(walk)]
fn walk_name<'a>(
    name: &'a BuildName<Items<u8>, Node<AsRead>>,
    functions: &Functions<'a>,
    names: &mut Bindings<'a>,
    found: &mut Found,
) -> Result<(), Want>
    ensures found { OnOk result (found.new ≡ spec.told_name functions.now name.now (open_in names.old) found.old) }
    ensures names { OnOk result (open_in names.new ≡ open_in names.old) }
{
    match name {
        BuildName::Absent => Ok(()),
        BuildName::Named(_) => Ok(()),
        BuildName::Computed(e) => walk(e.get(), functions, names, found),
    }
}

/// What is told of a part of a value.
#[cycle(walk)]
fn walk_value<'a>(
    part: &'a ValuePart<ValueRun, Node<AsRead>>,
    functions: &Functions<'a>,
    names: &mut Bindings<'a>,
    found: &mut Found,
) -> Result<(), Want>
    ensures found { OnOk result (found.new ≡ spec.told_value functions.now part.now (open_in names.old) found.old) }
    ensures names { OnOk result (open_in names.new ≡ open_in names.old) }
{
    match part {
        ValuePart::Run(_, _) => Ok(()),
        ValuePart::Brace(_, e) => walk(e.get(), functions, names, found),
    }
}

/// What is told of an attribute's value.
#[cycle(walk)]
fn walk_values<'a>(
    parts: &'a [ValuePart<ValueRun, Node<AsRead>>],
    functions: &Functions<'a>,
    names: &mut Bindings<'a>,
    found: &mut Found,
) -> Result<(), Want>
    ensures found { OnOk result (found.new ≡ spec.told_values functions.now parts.now (open_in names.old) found.old) }
    ensures names { OnOk result (open_in names.new ≡ open_in names.old) }
{
    for part in parts {
        walk_value(part, functions, names, found)?;
    }
    Ok(())
}

/// What is told of an attribute behind others.
#[cycle(walk)]
fn walk_attribute<'a>(
    attribute: &'a Attribute<Items<u8>, ValueRun, Node<AsRead>>,
    seen: &mut Names<'a>,
    functions: &Functions<'a>,
    names: &mut Bindings<'a>,
    found: &mut Found,
) -> Result<(), Want>
    ensures found { OnOk result (found.new ≡ spec.told_attribute functions.now attribute.now (names_in seen.old) (open_in names.old) found.old) }
    ensures seen { OnOk result (names_in seen.new ≡ with_name attribute.now.name.text (Some (opens.local_at attribute.now.name.offset)) (names_in seen.old)) }
    ensures names { OnOk result (open_in names.new ≡ open_in names.old) }
{
    let repeats = seen.has(attribute.name.text.as_slice());
    found.amiss_where(repeats, Code::XQST0040, attribute.name.offset);
    walk_values(attribute.value.as_slice(), functions, names, found)?;
    seen.set(
        attribute.name.text.as_slice(),
        Some(Visible {
            place: attribute.name.offset,
            number: None,
        }),
    )
}

/// What is told of attributes.
#[cycle(walk)]
fn walk_attributes<'a>(
    attributes: &'a [Attribute<Items<u8>, ValueRun, Node<AsRead>>],
    functions: &Functions<'a>,
    names: &mut Bindings<'a>,
    found: &mut Found,
) -> Result<(), Want>
    ensures found { OnOk result (found.new ≡ spec.told_attributes functions.now attributes.now no_names (open_in names.old) found.old) }
    ensures names { OnOk result (open_in names.new ≡ open_in names.old) }
{
    let mut seen = Names::new(names.alloc());
    for attribute in attributes {
        walk_attribute(attribute, &mut seen, functions, names, found)?;
    }
    Ok(())
}

/// What is told of a part of content.
#[cycle(walk)]
fn walk_part<'a>(
    part: &'a Part<ContentRun, Node<AsRead>>,
    functions: &Functions<'a>,
    names: &mut Bindings<'a>,
    found: &mut Found,
) -> Result<(), Want>
    ensures found { OnOk result (found.new ≡ spec.told_part functions.now part.now (open_in names.old) found.old) }
    ensures names { OnOk result (open_in names.new ≡ open_in names.old) }
{
    match part {
        Part::Run(_, _) => Ok(()),
        Part::Brace(_, e) => walk(e.get(), functions, names, found),
        Part::Inner(e) => walk(e.get(), functions, names, found),
    }
}

/// What is told of content.
#[cycle(walk)]
fn walk_parts<'a>(
    parts: &'a [Part<ContentRun, Node<AsRead>>],
    functions: &Functions<'a>,
    names: &mut Bindings<'a>,
    found: &mut Found,
) -> Result<(), Want>
    ensures found { OnOk result (found.new ≡ spec.told_parts functions.now parts.now (open_in names.old) found.old) }
    ensures names { OnOk result (open_in names.new ≡ open_in names.old) }
{
    for part in parts {
        walk_part(part, functions, names, found)?;
    }
    Ok(())
}
