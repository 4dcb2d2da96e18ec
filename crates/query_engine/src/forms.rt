//! Which forms of the Core are evaluated.
ghost use Rattle.std.specs.Prelude.{◌≡◌, map};
ghost use Rattle.core_meaning.specs.Erasure.{core_of, cores_of};
ghost use Rattle.query_engine.specs.Evaluated as spec;

use core_meaning::{Core, CoreKind};
use xq_base::{Atom, Fun, Pool};

/// A literal text.
fn is_text(core: &Core, texts: &Pool) -> bool
    ensures { result ≡ spec.is_text (core_of texts.now core.now) }
{
    match &core.kind {
        CoreKind::Lit(Atom::Str(_)) => true,
        _ => false,
    }
}

/// One literal text.
fn is_name(arguments: &[Core], texts: &Pool) -> bool
    ensures { result ≡ spec.is_name (cores_of (map (core_of texts.now) arguments.now)) }
{
    match arguments {
        [] => false,
        [name] => is_text(name, texts),
        [_, _, ..] => false,
    }
}

/// Integers, sequences and bindings, with sums and without documents, or the other way round.
#[cycle(forms)]
pub fn has_forms(sums: bool, core: &Core, texts: &Pool) -> bool
    ensures { result ≡ spec.has_forms sums (core_of texts.now core.now) }
{
    match &core.kind {
        CoreKind::Lit(Atom::Int(_)) => true,
        CoreKind::Empty => true,
        CoreKind::Seq(first, second) => {
            has_forms(sums, first.get(), texts) && has_forms(sums, second.get(), texts)
        }
        CoreKind::Var(_) => true,
        CoreKind::Let(_, bound, body) => {
            has_forms(sums, bound.get(), texts) && has_forms(sums, body.get(), texts)
        }
        CoreKind::For { seq, body, .. } => {
            has_forms(sums, seq.get(), texts) && has_forms(sums, body.get(), texts)
        }
        CoreKind::Call(Fun::Add, operands) => sums && two_forms(sums, operands.as_slice(), texts),
        CoreKind::Call(Fun::Doc, arguments) => !sums && is_name(arguments.as_slice(), texts),
        _ => false,
    }
}

/// The same of two operands.
#[cycle(forms)]
fn two_forms(sums: bool, operands: &[Core], texts: &Pool) -> bool
    ensures { result ≡ spec.two_forms sums (cores_of (map (core_of texts.now) operands.now)) }
{
    match operands {
        [first, second] => has_forms(sums, first, texts) && has_forms(sums, second, texts),
        [] => false,
        [_] => false,
        [_, _, _, ..] => false,
    }
}

/// Whether a Core is evaluated. The pool gives its texts.
pub fn is_evaluated(core: &Core, texts: &Pool) -> bool
    ensures { result ≡ spec.is_evaluated (core_of texts.now core.now) }
{
    has_forms(true, core, texts) || has_forms(false, core, texts)
}
