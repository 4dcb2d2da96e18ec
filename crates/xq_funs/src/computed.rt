//! Values that rules compute.
use xq_base::Atom;

/// What a rule on atomic values computes: an integer, a boolean, a new text, as string or untyped,
/// or an atomic value whose text the pool has.
#[derive(Drop)]
pub(crate) enum Computed {
    Number(i64),
    Truth(bool),
    Text(String),
    Untyped(String),
    Same(Atom),
}
