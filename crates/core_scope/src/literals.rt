//! Integers.
ghost use Rattle.std.specs.Prelude.{◌≡◌};
ghost use Rattle.core_scope.specs.Literals as spec;

/// The integer that digits write; none where it is beyond 64 bits with a sign. It takes no memory.
pub fn integer_in(digits: &[u8]) -> Option<i64>
    ensures { result ≡ spec.integer_in digits.now }
{
    let mut n: u128 = 0;
    for d in digits {
        n = n * 10 + d.saturating_sub(48) as u128;
        if n > 9_223_372_036_854_775_807 {
            return None;
        }
    }
    Some(n as i64)
}
