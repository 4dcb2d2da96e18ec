//! Which declared functions an expression calls, by their numbers, each as often as it is called.
ghost use Rattle.std.specs.Prelude.{◌≡◌, IfOk, OnOk};
ghost use Rattle.core_meaning.specs.Erasure.{Texts};
ghost use Rattle.core_scope.specs.Leaves.{syn_resolved};
ghost use Rattle.core_normal.specs.Calls.{calls_in};
ghost use Rattle.core_normal.specs.Finding as spec;
ghost use Rattle.core_normal.specs.Finding.{with_calls};

use sqlite_items::Boxed;
use std::alloc::Global;
use xq_ast::leaf::{Callee, SeqType, TextRun};
use xq_ast::node::{
    AsResolved, Attribute, Behind, BuildName, Clause, ForBind, Key, LetBind, Node, Part, QuantBind,
    Right, Step, StepKind, ValuePart,
};
use xq_base::{TextId, Want};

/// The function of a call itself.
fn called(callee: Callee, found: &mut Vec<u32>) -> Result<(), Want>
    ensures { OnOk result (found.new.items ≡ spec.called callee found.old.items) }
{
    match callee {
        Callee::Known(_) => {}
        Callee::Declared(k) => found.push(k)?,
    }
    Ok(())
}

/// The functions that an expression calls, behind those of `found`.
///
/// Errors: `Want`, where memory is wanting.
#[cycle(calls)]
#[tactic(auto, using(crate::proofs::FindingForms::forms))]
pub fn calls(e: &Node<AsResolved>, found: &mut Vec<u32>) -> Result<(), Want>
    ensures { OnOk result (found.new.items ≡ with_calls e.now found.old.items) }
{
    match e {
        Node::Comma(_, first, rest) => {
            calls(first.get(), found)?;
            all(rest.as_slice(), found)
        }
        Node::Flwor(_, clauses, condition, keys, body) => {
            all_clauses(clauses.as_slice(), found)?;
            maybe(condition, found)?;
            all_keys(keys.as_slice(), found)?;
            calls(body.get(), found)
        }
        Node::Quantified(_, _, binds, body) => {
            quant_binds(binds.as_slice(), found)?;
            calls(body.get(), found)
        }
        Node::If(_, condition, first, second) => {
            calls(condition.get(), found)?;
            calls(first.get(), found)?;
            calls(second.get(), found)
        }
        Node::Chain(_, first, behind) => {
            calls(first.get(), found)?;
            operands(behind.as_slice(), found)
        }
        Node::Signed(_, _, operand) => calls(operand.get(), found),
        Node::Instance(_, operand, _) => calls(operand.get(), found),
        Node::Treat(_, operand, _) => calls(operand.get(), found),
        Node::Castable(_, operand, _, _) => calls(operand.get(), found),
        Node::Cast(_, operand, _, _) => calls(operand.get(), found),
        Node::Root(_) => Ok(()),
        Node::Path(_, first, behind) => {
            step(first, found)?;
            steps(behind.as_slice(), found)
        }
        Node::Integer(_, _) => Ok(()),
        Node::Text(_, _) => Ok(()),
        Node::Var(_, _) => Ok(()),
        Node::Paren(_, inner) => maybe(inner, found),
        Node::Dot(_) => Ok(()),
        Node::Call(_, callee, arguments) => {
            called(*callee, found)?;
            all(arguments.as_slice(), found)
        }
        Node::Build(_, _, name, content) => {
            build_name(name, found)?;
            maybe(content, found)
        }
        Node::Element(_, _, attributes, parts) => {
            all_attributes(attributes.as_slice(), found)?;
            all_parts(parts.as_slice(), found)
        }
        Node::Comment(_, _) => Ok(()),
        Node::Instruction(_, _, _) => Ok(()),
    }
}

#[cycle(calls)]
fn maybe(e: &Option<Boxed<Node<AsResolved>>>, found: &mut Vec<u32>) -> Result<(), Want>
    ensures { OnOk result (found.new.items ≡ spec.maybe with_calls e.now found.old.items) }
{
    match e {
        None => Ok(()),
        Some(e) => calls(e.get(), found),
    }
}

#[cycle(calls)]
fn all(es: &[Node<AsResolved>], found: &mut Vec<u32>) -> Result<(), Want>
    ensures { OnOk result (found.new.items ≡ spec.every with_calls es.now found.old.items) }
{
    for e in es {
        calls(e, found)?;
    }
    Ok(())
}

#[cycle(calls)]
fn operands(behind: &[Right<Node<AsResolved>>], found: &mut Vec<u32>) -> Result<(), Want>
    ensures { OnOk result (found.new.items ≡ spec.operands with_calls behind.now found.old.items) }
{
    for right in behind {
        calls(&right.operand, found)?;
    }
    Ok(())
}

#[cycle(calls)]
fn step(step: &Step<TextId, Node<AsResolved>>, found: &mut Vec<u32>) -> Result<(), Want>
    ensures { OnOk result (found.new.items ≡ spec.step with_calls step.now found.old.items) }
{
    match &step.kind {
        StepKind::Walk(_, _) => {}
        StepKind::Primary(inner) => calls(inner.get(), found)?,
    }
    all(step.predicates.as_slice(), found)
}

#[cycle(calls)]
fn steps(behind: &[Behind<TextId, Node<AsResolved>>], found: &mut Vec<u32>) -> Result<(), Want>
    ensures { OnOk result (found.new.items ≡ spec.steps with_calls behind.now found.old.items) }
{
    for next in behind {
        step(&next.step, found)?;
    }
    Ok(())
}

#[cycle(calls)]
fn for_binds(
    binds: &[ForBind<u32, SeqType, Node<AsResolved>>],
    found: &mut Vec<u32>,
) -> Result<(), Want>
    ensures { OnOk result (found.new.items ≡ spec.for_binds with_calls binds.now found.old.items) }
{
    for one in binds {
        calls(one.source.get(), found)?;
    }
    Ok(())
}

#[cycle(calls)]
fn let_binds(
    binds: &[LetBind<u32, SeqType, Node<AsResolved>>],
    found: &mut Vec<u32>,
) -> Result<(), Want>
    ensures { OnOk result (found.new.items ≡ spec.let_binds with_calls binds.now found.old.items) }
{
    for one in binds {
        calls(one.value.get(), found)?;
    }
    Ok(())
}

#[cycle(calls)]
fn all_clauses(
    clauses: &[Clause<u32, SeqType, Node<AsResolved>>],
    found: &mut Vec<u32>,
) -> Result<(), Want>
    ensures { OnOk result (found.new.items ≡ spec.clauses with_calls clauses.now found.old.items) }
{
    for clause in clauses {
        match clause {
            Clause::For(binds) => for_binds(binds.as_slice(), found)?,
            Clause::Let(binds) => let_binds(binds.as_slice(), found)?,
        }
    }
    Ok(())
}

#[cycle(calls)]
fn quant_binds(
    binds: &[QuantBind<u32, SeqType, Node<AsResolved>>],
    found: &mut Vec<u32>,
) -> Result<(), Want>
    ensures { OnOk result (found.new.items ≡ spec.quant_binds with_calls binds.now found.old.items) }
{
    for one in binds {
        calls(one.source.get(), found)?;
    }
    Ok(())
}

#[cycle(calls)]
fn all_keys(keys: &[Key<Node<AsResolved>>], found: &mut Vec<u32>) -> Result<(), Want>
    ensures { OnOk result (found.new.items ≡ spec.keys with_calls keys.now found.old.items) }
{
    for key in keys {
        calls(key.key.get(), found)?;
    }
    Ok(())
}

#[cycle(calls)]
fn build_name(name: &BuildName<TextId, Node<AsResolved>>, found: &mut Vec<u32>) -> Result<(), Want>
    ensures { OnOk result (found.new.items ≡ spec.name with_calls name.now found.old.items) }
{
    match name {
        BuildName::Absent => Ok(()),
        BuildName::Named(_) => Ok(()),
        BuildName::Computed(inner) => calls(inner.get(), found),
    }
}

#[cycle(calls)]
fn values(values: &[ValuePart<TextId, Node<AsResolved>>], found: &mut Vec<u32>) -> Result<(), Want>
    ensures { OnOk result (found.new.items ≡ spec.values with_calls values.now found.old.items) }
{
    for value in values {
        match value {
            ValuePart::Run(_, _) => {}
            ValuePart::Brace(_, inner) => calls(inner.get(), found)?,
        }
    }
    Ok(())
}

#[cycle(calls)]
fn all_attributes(
    attributes: &[Attribute<TextId, TextId, Node<AsResolved>>],
    found: &mut Vec<u32>,
) -> Result<(), Want>
    ensures { OnOk result (found.new.items ≡ spec.attributes with_calls attributes.now found.old.items) }
{
    for one in attributes {
        values(one.value.as_slice(), found)?;
    }
    Ok(())
}

#[cycle(calls)]
fn all_parts(parts: &[Part<TextRun, Node<AsResolved>>], found: &mut Vec<u32>) -> Result<(), Want>
    ensures { OnOk result (found.new.items ≡ spec.parts with_calls parts.now found.old.items) }
{
    for part in parts {
        match part {
            Part::Run(_, _) => {}
            Part::Brace(_, inner) => calls(inner.get(), found)?,
            Part::Inner(inner) => calls(inner.get(), found)?,
        }
    }
    Ok(())
}

/// The functions that an expression calls.
///
/// Errors: `Want`, where memory is wanting.
#[tactic(auto, using(crate::proofs::Finding::calls_found))]
pub fn calls_of(alloc: Global, e: &Node<AsResolved>) -> Result<Vec<u32>, Want>
    ensures { IfOk result (λ v. (t : Texts) → v.items ≡ calls_in (syn_resolved t e.now)) }
{
    let mut found = Vec::new(alloc);
    calls(e, &mut found)?;
    Ok(found)
}
