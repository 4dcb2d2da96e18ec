//! Refusals, and the first of them.
ghost use Rattle.std.specs.Prelude.{◌≡◌, ◌&&◌, ◌||◌, nat_lt, nat_eq, Some};
ghost use Rattle.core_scope.specs.Leasts as leasts;
ghost use Rattle.core_scope.specs.Refusals as spec;

use xq_base::Code;

/// A code and the place where it stands.
#[derive(Clone, Copy, Debug, PartialEq, Eq)]
pub struct Refusal {
    pub code: Code,
    pub offset: u64,
}

/// The place of a code in the order of the codes.
fn rank(code: Code) -> u8
    ensures { result ≡ spec.rank code }
{
    match code {
        Code::XPST0003 => 0,
        Code::PFRC0003 => 1,
        Code::PFRC0004 => 2,
        Code::XQST0031 => 3,
        Code::FOAR0002 => 4,
        Code::XPST0008 => 5,
        Code::XPST0017 => 6,
        Code::XPST0051 => 7,
        Code::XPST0080 => 8,
        Code::XQST0034 => 9,
        Code::XQST0039 => 10,
        Code::XQST0040 => 11,
        Code::XQST0049 => 12,
        Code::XQST0068 => 13,
        Code::XQST0089 => 14,
        Code::PFRC0001 => 15,
        Code::PFRC0002 => 16,
        Code::XPTY0004 => 17,
        Code::XPTY0018 => 18,
        Code::XPTY0019 => 19,
        Code::XPTY0020 => 20,
        Code::XPDY0002 => 21,
        Code::XPDY0050 => 22,
        Code::XQTY0024 => 23,
        Code::XQDY0025 => 24,
        Code::XQDY0026 => 25,
        Code::XQDY0041 => 26,
        Code::XQDY0064 => 27,
        Code::XQDY0072 => 28,
        Code::XQDY0074 => 29,
        Code::FOAR0001 => 30,
        Code::FORG0001 => 31,
        Code::FORG0003 => 32,
        Code::FORG0004 => 33,
        Code::FORG0005 => 34,
        Code::FORG0006 => 35,
        Code::FODC0002 => 36,
        Code::FOER0000 => 37,
        Code::SENR0001 => 38,
    }
}

/// Whether a refusal stands before another one. It takes no memory.
pub fn is_before(a: Refusal, b: Refusal) -> bool
    ensures { result ≡ spec.is_before a b }
{
    a.offset < b.offset || (a.offset == b.offset && rank(a.code) < rank(b.code))
}

/// The first of a refusal and of those before it. It takes no memory.
pub fn earlier(a: Refusal, others: Option<Refusal>) -> Refusal
    ensures { result ≡ spec.earlier a others }
{
    match others {
        None => a,
        Some(b) => { if is_before(b, a) { b } else { a } }
    }
}

/// Whether a refusal stands before the first so far, if there is one. It takes no memory.
pub fn is_first(a: Refusal, first: Option<Refusal>) -> bool
    ensures { result ≡ leasts.is_first a first }
{
    match first {
        None => true,
        Some(b) => is_before(a, b),
    }
}

/// The first of two refusals, if there is one. It takes no memory.
pub fn first_of_two(a: Option<Refusal>, b: Option<Refusal>) -> Option<Refusal>
    ensures { result ≡ leasts.first_of_two a b }
{
    match a {
        None => b,
        Some(a) => Some(earlier(a, b)),
    }
}
