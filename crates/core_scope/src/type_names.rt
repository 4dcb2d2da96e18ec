//! The names of types.
ghost use Rattle.std.specs.Prelude.{◌≡◌};
ghost use Rattle.core_scope.specs.TypeNames as spec;

use crate::built_ins::same;
use xq_base::{AtomKind, Code};

/// The atomic type of this name, of those that have values (XQuery 1.0, section 2.5.1). It takes no memory.
pub fn atom_kind(name: &[u8]) -> Option<AtomKind>
    ensures { result ≡ spec.atom_kind name.now }
{
    if same(name, b"xs:integer") {
        Some(AtomKind::Integer)
    } else if same(name, b"xs:string") {
        Some(AtomKind::Text)
    } else if same(name, b"xs:boolean") {
        Some(AtomKind::Boolean)
    } else if same(name, b"xs:untypedAtomic") {
        Some(AtomKind::Untyped)
    } else {
        None
    }
}

/// Whether a name is that of the type of all atomic values. It takes no memory.
pub fn is_any_atomic(name: &[u8]) -> bool
    ensures { result ≡ spec.is_any_atomic name.now }
{
    same(name, b"xs:anyAtomicType")
}

fn is_abstract(name: &[u8]) -> bool
    ensures { result ≡ spec.is_abstract name.now }
{
    is_any_atomic(name) || same(name, b"xs:NOTATION")
}

/// The code of a cast to a type of this name, which has no values of its own or is no type (XQuery 1.0,
/// section 3.12.2). It takes no memory.
pub fn cast_code(name: &[u8]) -> Code
    ensures { result ≡ spec.cast_code name.now }
{
    if is_abstract(name) {
        Code::XPST0080
    } else {
        Code::XPST0051
    }
}
