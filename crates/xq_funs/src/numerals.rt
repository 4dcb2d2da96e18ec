//! Numbers and booleans as texts spell them.
ghost use Rattle.std.specs.Prelude.{◌≡◌, ◌^◌, ◌≤◌};
ghost use Rattle.std.specs.Option.{ForSome};
ghost use Rattle.xq_base.specs.Texts.{text_eq, integer_in, boolean_in, signed_digits, if_fits, with_sign, digits_in};
ghost use Rattle.xq_funs.specs.Numerals.{with_digit, whole_from, minus_then};

use crate::spaces::trim_spaces;

/// The integer within 64 bits that a text spells (XML Schema Part 2, section 3.3.13).
pub(crate) fn integer_in(text: &str) -> Option<i64>
    ensures { result ≡ integer_in text.now }
{
    signed(trim_spaces(text.as_bytes()))
}

/// The boolean that a text spells (XML Schema Part 2, section 3.2.2).
pub(crate) fn boolean_in(text: &str) -> Option<bool>
    ensures { result ≡ boolean_in text.now }
{
    let word = trim_spaces(text.as_bytes());
    if is_word(word, b"true") || is_word(word, b"1") {
        return Some(true);
    }
    if is_word(word, b"false") || is_word(word, b"0") {
        return Some(false);
    }
    None
}

/// Whether two texts are equal.
#[tactic(auto, using(crate::proofs::Ordered::texts_same))]
fn is_word(text: &[u8], word: &[u8]) -> bool
    ensures { result ≡ text_eq text.now word.now }
{
    text == word
}

/// The integer that one sign at most and digits spell.
fn signed(bytes: &[u8]) -> Option<i64>
    ensures { result ≡ if_fits (signed_digits bytes.now) }
{
    match bytes {
        [b'+', digits @ ..] => number(false, digits),
        [b'-', digits @ ..] => number(true, digits),
        _ => number(false, bytes),
    }
}

/// The integer that digits spell, with a sign.
fn number(negative: bool, digits: &[u8]) -> Option<i64>
    ensures { result ≡ if_fits (with_sign negative (digits_in digits.now)) }
{
    if digits.is_empty() {
        return None;
    }
    with_minus(negative, whole(digits))
}

/// The number up to 2 ^ 63 that digits spell.
fn whole(digits: &[u8]) -> Option<u64>
    ensures value { result ≡ whole_from 0 digits.now }
    ensures small { ForSome result (λ n. n ≤ 2 ^ 63) }
{
    let mut number = 0;
    for digit in digits {
        number = with_digit(number, *digit)?;
    }
    Some(number)
}

/// The number up to 2 ^ 63 that one digit more spells.
fn with_digit(number: u64, digit: u8) -> Option<u64>
    requires { number ≤ 2 ^ 63 }
    ensures { result ≡ with_digit number digit }
{
    if !digit.is_ascii_digit() || number > (1 << 63) / 10 {
        return None;
    }
    let more = 10 * number + u64::from(digit - b'0');
    if more > 1 << 63 {
        return None;
    }
    Some(more)
}

/// A number with a sign, within 64 bits.
fn with_minus(negative: bool, number: Option<u64>) -> Option<i64>
    requires { ForSome number (λ n. n ≤ 2 ^ 63) }
    ensures { result ≡ minus_then negative number }
{
    let number = number?;
    if number == 1 << 63 {
        return if negative { Some(i64::MIN) } else { None };
    }
    let plain = number as i64;
    Some(if negative { -plain } else { plain })
}
