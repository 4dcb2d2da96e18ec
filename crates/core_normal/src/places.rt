//! The place of an expression in the query. It takes no memory.
ghost use Rattle.std.specs.Prelude.{◌≡◌};
ghost use Rattle.core_meaning.specs.Erasure.{Texts};
ghost use Rattle.core_scope.specs.Leaves.{syn_resolved};
ghost use Rattle.core_scope.specs.Syn.{place_of};
ghost use Rattle.core_normal.specs.LastPlace.{last_place};
ghost use Rattle.core_normal.specs.LastPlace as spec;

use xq_ast::node::{AsResolved, Behind, Node, Right, Signed, Start, StepKind};
use xq_base::TextId;

/// The place of the last step, or of what stands before all steps.
fn last_step(first: u64, behind: &[Behind<TextId, Node<AsResolved>>]) -> u64
    ensures { result ≡ last_place first behind.now }
{
    let mut place = first;
    for step in behind {
        place = step.step.offset;
    }
    place
}

/// The place of a level of operators, by that of its first operand.
fn level_place(offset: u64, behind: &[Right<Node<AsResolved>>], first: u64) -> u64
    ensures { result ≡ spec.level_place offset behind.now first }
{
    match behind {
        [] => first,
        [_, ..] => offset,
    }
}

/// The place of an operand behind signs, by that of the operand.
fn signed_place(signs: &[Signed], operand: u64) -> u64
    ensures { result ≡ spec.signed_place signs.now operand }
{
    match signs {
        [] => operand,
        [outer, ..] => outer.offset,
    }
}

/// The place of a primary with its predicates, by that of the primary.
fn filtered_place(offset: u64, predicates: &[Node<AsResolved>], primary: u64) -> u64
    ensures { result ≡ spec.filtered_place offset predicates.now primary }
{
    match predicates {
        [] => primary,
        [_, ..] => offset,
    }
}

/// The place of an expression, as an offset in bytes. A level of operators has that of its first
/// operand's first byte, and a path that of its last step.
pub fn place(e: &Node<AsResolved>) -> u64
    ensures { (t : Texts) → result ≡ place_of (syn_resolved t e.now) }
{
    match e {
        Node::Comma(offset, _, _) => *offset,
        Node::Flwor(offset, _, _, _, _) => *offset,
        Node::Quantified(offset, _, _, _) => *offset,
        Node::If(offset, _, _, _) => *offset,
        Node::Chain(offset, first, behind) => {
            let operand = first.get();
            let rights = behind.as_slice();
            let inner = place(operand);
            level_place(*offset, rights, inner)
        }
        Node::Signed(_, signs, operand) => {
            let plain = operand.get();
            let outer = signs.as_slice();
            let inside = place(plain);
            signed_place(outer, inside)
        }
        Node::Instance(offset, _, _) => *offset,
        Node::Treat(offset, _, _) => *offset,
        Node::Castable(offset, _, _, _) => *offset,
        Node::Cast(offset, _, _, _) => *offset,
        Node::Root(offset) => *offset,
        Node::Path(start, step, behind) => {
            let later = behind.as_slice();
            match start {
                Start::Here => match &step.kind {
                    StepKind::Walk(_, _) => last_step(step.offset, later),
                    StepKind::Primary(primary) => {
                        let held = primary.get();
                        let filters = step.predicates.as_slice();
                        let held_place = place(held);
                        let first = filtered_place(step.offset, filters, held_place);
                        last_step(first, later)
                    }
                },
                Start::Root(_) => last_step(step.offset, later),
                Start::Deep(_) => last_step(step.offset, later),
            }
        }
        Node::Integer(offset, _) => *offset,
        Node::Text(offset, _) => *offset,
        Node::Var(offset, _) => *offset,
        Node::Paren(offset, _) => *offset,
        Node::Dot(offset) => *offset,
        Node::Call(offset, _, _) => *offset,
        Node::Build(offset, _, _, _) => *offset,
        Node::Element(offset, _, _, _) => *offset,
        Node::Comment(offset, _) => *offset,
        Node::Instruction(offset, _, _) => *offset,
    }
}
