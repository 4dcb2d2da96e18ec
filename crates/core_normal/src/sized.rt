//! How large the Core of a resolved expression is, found without the Core. Nothing here takes memory.
ghost use Rattle.std.specs.Prelude.{◌≡◌, None, false, map, slice_get};
ghost use Rattle.core_normal.specs.Counting as spec;
ghost use Rattle.core_normal.specs.Counting.{size_of};

use crate::sizes;
use crate::sizes::{
    Round, Size, appended, attribute, bare, beside, bind, conditional, counted, filled, leaf, node,
    nothing, over, over_one, pair, parameter, root, selected, signed_all, value,
};
use sqlite_items::Boxed;
use xq_ast::leaf::{Callee, SeqType, TextRun};
use xq_ast::node::{
    AsResolved, Attribute, Behind, BuildName, Clause, Key, Node, Part, QuantBind, Right, Step,
    StepKind, ValuePart,
};
use xq_base::TextId;

/// A declared function: which of its parameters have a type, and the size of its converted body.
#[derive(Debug, Drop)]
pub struct FunSize {
    pub typed: Vec<bool>,
    pub body: Size,
}

/// Which parameters of the function of this number have a type.
fn typed_at(funs: &[FunSize], k: u32) -> &[bool]
    ensures { result.now ≡ spec.typed_in (slice_get funs.now k) }
{
    match funs.get(k as usize) {
        None => &[],
        Some(fun) => fun.typed.as_slice(),
    }
}

/// The size of the body of the function of this number.
fn body_at(funs: &[FunSize], k: u32) -> Size
    ensures { result ≡ spec.body_in (slice_get funs.now k) }
{
    match funs.get(k as usize) {
        None => leaf(),
        Some(fun) => fun.body,
    }
}

/// A step of so many predicates, over what they select.
fn stepped(
    kind: &StepKind<TextId, Node<AsResolved>>,
    count: usize,
    before: Option<Size>,
    chosen: Size,
) -> Size
    ensures { result ≡ spec.stepped kind.now count before chosen }
{
    match kind {
        StepKind::Walk(_, _) => sizes::walked(count, before, chosen),
        StepKind::Primary(_) => sizes::primary(before, chosen),
    }
}

/// The size of an expression's Core, where calls of declared functions have these sizes.
#[cycle(sized)]
pub fn sized(e: &Node<AsResolved>, funs: &[FunSize]) -> Size
    ensures { result ≡ size_of funs.now e.now }
{
    match e {
        Node::Comma(_, first, rest) => {
            let first = sized(first.get(), funs);
            chain(rest.as_slice(), first, funs)
        }
        Node::Flwor(_, clauses, condition, keys, body) => {
            let count = keys.len();
            let is_sorted = sizes::is_sorted(count);
            let round = all_clauses(clauses.as_slice(), is_sorted, funs);
            let condition = maybe(condition, funs);
            let key_size = all_keys(keys.as_slice(), funs);
            let body = sized(body.get(), funs);
            sizes::loop_size(count, round, condition, key_size, body)
        }
        Node::Quantified(_, _, binds, body) => {
            let body = sized(body.get(), funs);
            let round = quant_binds(binds.as_slice(), funs);
            over_one(filled(round, conditional(body, leaf(), leaf())))
        }
        Node::If(_, condition, first, second) => {
            let condition = sized(condition.get(), funs);
            let first = sized(first.get(), funs);
            let second = sized(second.get(), funs);
            conditional(condition, first, second)
        }
        Node::Chain(_, first, behind) => {
            let first = sized(first.get(), funs);
            operators(behind.as_slice(), first, funs)
        }
        Node::Signed(_, signs, operand) => {
            let operand = sized(operand.get(), funs);
            signed_all(signs.as_slice(), operand)
        }
        Node::Instance(_, operand, _) => over(sized(operand.get(), funs)),
        Node::Treat(_, operand, _) => over(sized(operand.get(), funs)),
        Node::Castable(_, operand, _, _) => over(sized(operand.get(), funs)),
        Node::Cast(_, operand, _, _) => over(sized(operand.get(), funs)),
        Node::Root(_) => root(),
        Node::Path(start, first, behind) => {
            let first = step(first, sizes::start(*start), funs);
            steps(behind.as_slice(), first, funs)
        }
        Node::Integer(_, _) => leaf(),
        Node::Text(_, _) => leaf(),
        Node::Var(_, _) => leaf(),
        Node::Paren(_, None) => leaf(),
        Node::Paren(_, Some(inner)) => sized(inner.get(), funs),
        Node::Dot(_) => leaf(),
        Node::Call(_, callee, arguments) => match callee {
            Callee::Known(fun) => {
                let all = all(arguments.as_slice(), funs);
                sizes::built_in(*fun, arguments.len(), all)
            }
            Callee::Declared(k) => {
                let round = parameters(arguments.as_slice(), typed_at(funs, *k), funs);
                filled(round, body_at(funs, *k))
            }
        },
        Node::Build(_, _, name, None) => {
            let name = build_name(name, funs);
            node(name, leaf())
        }
        Node::Build(_, _, name, Some(content)) => {
            let content = sized(content.get(), funs);
            let name = build_name(name, funs);
            node(name, content)
        }
        Node::Element(_, _, attributes, parts) => {
            let first = all_attributes(attributes.as_slice(), funs);
            let all = all_parts(parts.as_slice(), first, funs);
            sizes::element(all)
        }
        Node::Comment(_, _) => pair(),
        Node::Instruction(_, _, _) => sizes::instruction(),
    }
}

#[cycle(sized)]
fn maybe(e: &Option<Boxed<Node<AsResolved>>>, funs: &[FunSize]) -> Option<Size>
    ensures { result ≡ spec.maybe (size_of funs.now) e.now }
{
    match e {
        None => None,
        Some(e) => Some(sized(e.get(), funs)),
    }
}

/// One after the other, behind a first.
#[cycle(sized)]
fn chain(es: &[Node<AsResolved>], first: Size, funs: &[FunSize]) -> Size
    ensures { result ≡ spec.chain first (map (size_of funs.now) es.now) }
{
    let mut found = first;
    for e in es {
        found = node(found, sized(e, funs));
    }
    found
}

/// Parts beside each other.
#[cycle(sized)]
fn all(es: &[Node<AsResolved>], funs: &[FunSize]) -> Size
    ensures { result ≡ spec.all_from spec.nothing (map (size_of funs.now) es.now) }
{
    let mut found = nothing();
    for e in es {
        found = beside(found, sized(e, funs));
    }
    found
}

/// Parameters over their arguments.
#[cycle(sized)]
fn parameters(es: &[Node<AsResolved>], typed: &[bool], funs: &[FunSize]) -> Round
    ensures { result ≡ spec.params typed.now (map (size_of funs.now) es.now) spec.bare }
{
    let mut found = bare();
    let count = es.len().min(typed.len());
    for i in 0..count {
        let argument = sized(&es[i], funs);
        found = parameter(typed[i], found, argument);
    }
    found
}

/// Operators of one level, behind a first operand.
#[cycle(sized)]
fn operators(behind: &[Right<Node<AsResolved>>], first: Size, funs: &[FunSize]) -> Size
    ensures { result ≡ spec.operators (size_of funs.now) first behind.now }
{
    let mut found = first;
    for right in behind {
        found = sizes::binary(right.operator, found, sized(&right.operand, funs));
    }
    found
}

/// A step, behind what stands before it.
#[cycle(sized)]
fn step(step: &Step<TextId, Node<AsResolved>>, before: Option<Size>, funs: &[FunSize]) -> Size
    ensures { result ≡ spec.step (size_of funs.now) step.now before }
{
    let mut chosen = match &step.kind {
        StepKind::Walk(axis, _) => counted(*axis, pair()),
        StepKind::Primary(inner) => sized(inner.get(), funs),
    };
    let predicates = step.predicates.as_slice();
    for q in predicates {
        chosen = selected(chosen, sized(q, funs));
    }
    stepped(&step.kind, step.predicates.len(), before, chosen)
}

/// The further steps of a path. What `step` does stands here again, since a call of it would be no smaller.
#[cycle(sized)]
fn steps(behind: &[Behind<TextId, Node<AsResolved>>], first: Size, funs: &[FunSize]) -> Size
    ensures { result ≡ spec.steps (size_of funs.now) first behind.now }
{
    let mut found = first;
    for next in behind {
        let before = sizes::slashes(next.slashes, found);
        let mut chosen = match &next.step.kind {
            StepKind::Walk(axis, _) => counted(*axis, pair()),
            StepKind::Primary(inner) => sized(inner.get(), funs),
        };
        let predicates = next.step.predicates.as_slice();
        for q in predicates {
            chosen = selected(chosen, sized(q, funs));
        }
        found = stepped(
            &next.step.kind,
            next.step.predicates.len(),
            Some(before),
            chosen,
        );
    }
    found
}

/// What the binds of some clauses put round what follows them, or beside it.
#[cycle(sized)]
fn all_clauses(
    clauses: &[Clause<u32, SeqType, Node<AsResolved>>],
    is_sorted: bool,
    funs: &[FunSize],
) -> Round
    ensures { result ≡ spec.clauses (size_of funs.now) is_sorted spec.bare clauses.now }
{
    let mut found = bare();
    for clause in clauses {
        match clause {
            Clause::For(binds) => {
                let loops = binds.as_slice();
                for one in loops {
                    let source = sized(one.source.get(), funs);
                    found = bind(is_sorted, one.ty.is_some(), found, source);
                }
            }
            Clause::Let(binds) => {
                let lets = binds.as_slice();
                for each in lets {
                    let value = sized(each.value.get(), funs);
                    found = bind(is_sorted, each.ty.is_some(), found, value);
                }
            }
        }
    }
    found
}

/// What the binds of a quantifier put round what follows them.
#[cycle(sized)]
fn quant_binds(binds: &[QuantBind<u32, SeqType, Node<AsResolved>>], funs: &[FunSize]) -> Round
    ensures { result ≡ spec.quant_binds (size_of funs.now) spec.bare binds.now }
{
    let mut found = bare();
    for one in binds {
        let source = sized(one.source.get(), funs);
        found = bind(false, one.ty.is_some(), found, source);
    }
    found
}

/// The keys of a sorted loop.
#[cycle(sized)]
fn all_keys(keys: &[Key<Node<AsResolved>>], funs: &[FunSize]) -> Size
    ensures { result ≡ spec.keys (size_of funs.now) spec.nothing keys.now }
{
    let mut found = nothing();
    for key in keys {
        found = beside(found, sized(key.key.get(), funs));
    }
    found
}

/// The name of a constructor with a word.
#[cycle(sized)]
fn build_name(name: &BuildName<TextId, Node<AsResolved>>, funs: &[FunSize]) -> Size
    ensures { result ≡ spec.name (size_of funs.now) name.now }
{
    match name {
        BuildName::Absent => nothing(),
        BuildName::Named(_) => beside(leaf(), nothing()),
        BuildName::Computed(inner) => beside(sized(inner.get(), funs), nothing()),
    }
}

/// The attributes of a direct element, in a sequence.
#[cycle(sized)]
fn all_attributes(
    attributes: &[Attribute<TextId, TextId, Node<AsResolved>>],
    funs: &[FunSize],
) -> Option<Size>
    ensures { result ≡ spec.attributes (size_of funs.now) None attributes.now }
{
    let mut found = None;
    for one in attributes {
        let mut all = nothing();
        let parts = one.value.as_slice();
        for part in parts {
            all = match part {
                ValuePart::Run(_, _) => beside(all, leaf()),
                ValuePart::Brace(_, inner) => beside(all, over_one(sized(inner.get(), funs))),
            };
        }
        let value = value(one.value.len(), all);
        found = Some(appended(found, attribute(value)));
    }
    found
}

/// The parts of content, in a sequence behind what it has so far.
#[cycle(sized)]
fn all_parts(
    parts: &[Part<TextRun, Node<AsResolved>>],
    first: Option<Size>,
    funs: &[FunSize],
) -> Option<Size>
    ensures { result ≡ spec.parts (size_of funs.now) false first parts.now }
{
    let mut found = first;
    let mut behind = false;
    for part in parts {
        found = match part {
            Part::Run(_, run) => sizes::after_run(run.is_boundary, found),
            Part::Brace(_, inner) => { sizes::after_brace(behind, found, sized(inner.get(), funs)) }
            Part::Inner(inner) => Some(appended(found, sized(inner.get(), funs))),
        };
        behind = is_behind(part, behind);
    }
    found
}

/// Whether what follows a part of content stands directly behind a brace.
fn is_behind(part: &Part<TextRun, Node<AsResolved>>, behind: bool) -> bool
    ensures { result ≡ spec.behind_part part.now behind }
{
    match part {
        Part::Run(_, run) => run.is_boundary && behind,
        Part::Brace(_, _) => true,
        Part::Inner(_) => false,
    }
}
