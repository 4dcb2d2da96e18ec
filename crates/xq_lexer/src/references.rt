//! References, and the strings that hold them.
ghost use Rattle.std.specs.Prelude.{◌≡◌, ◌≤◌, ◌<◌, ◌+◌, ◌*◌, length, min, Some, None, IfSome, if◌then◌else◌};
ghost use Rattle.std.specs.Char.{digit_value};
ghost use Rattle.xq_base.specs.Chars.{is_char};
ghost use Rattle.xq_ast.specs.Bytes as bytes;
ghost use Rattle.xq_ast.specs.Values as spec;
ghost use Rattle.xq_lexer.specs.Radix.{radix_of};

use crate::bytes::{Class, byte, follows, run_end};
use xq_base::is_char;

/// A number that no character has; a greater one counts as this.
const NO_CHAR: u32 = 0x11_0000;

/// The value of a digit, or 36.
fn digit(byte: u8) -> u32
    ensures { result ≡ digit_value byte }
{
    match byte {
        b'0'..=b'9' => byte as u32 - 48,
        b'A'..=b'Z' => byte as u32 - 55,
        b'a'..=b'z' => byte as u32 - 87,
        _ => 36,
    }
}

/// A number with one more digit.
fn shifted(hexadecimal: bool, number: u32, digit: u32) -> u32
    requires number { number ≤ 0x11_0000 }
    requires digit { digit ≤ 36 }
    ensures { result ≡ min (number * radix_of hexadecimal + digit) 0x11_0000 }
{
    if hexadecimal {
        (number * 16 + digit).min(NO_CHAR)
    } else {
        (number * 10 + digit).min(NO_CHAR)
    }
}

/// The number that digits write.
fn number(hexadecimal: bool, digits: &[u8]) -> u32
    ensures { result ≡ min (spec.number (radix_of hexadecimal) 0 digits.now) 0x11_0000 }
{
    let mut value = 0;
    for byte in digits {
        value = shifted(hexadecimal, value, digit(*byte));
    }
    value
}

/// The character with a number, where it is one of XML.
#[tactic(auto, unfolding(xq_base::specs::Chars::is_char))]
fn char_of(number: u32) -> Option<char>
    ensures { result ≡ (if is_char number then Some number else None) }
{
    let c = char::from_u32(number)?;
    if is_char(c) { Some(c) } else { None }
}

/// A character by its number, whose digits stand between these places, and the place after it.
#[tactic(auto, using(crate::proofs::Numbers::capped))]
fn numbered(hexadecimal: bool, text: &[u8], at: usize, to: usize) -> Option<(char, usize)>
    ensures char { result ≡ spec.numbered (radix_of hexadecimal) text.now at to }
    ensures within { IfSome result (λ r. r.1 ≤ length text.now) }
{
    if at >= to || byte(text, to) != b';' {
        return None;
    }
    match char_of(number(hexadecimal, &text[at..to])) {
        Some(c) => Some((c, to + 1)),
        None => None,
    }
}

/// One of the five entities, and the place after it (XQuery 1.0, section 3.1.1).
fn entity(text: &[u8], at: usize) -> Option<(char, usize)>
    requires { at ≤ length text.now }
    ensures char { result ≡ spec.entity text.now at }
    ensures within { IfSome result (λ r. r.1 ≤ length text.now) }
{
    if follows(b"&amp;", text, at) {
        Some(('&', at + 5))
    } else if follows(b"&lt;", text, at) {
        Some(('<', at + 4))
    } else if follows(b"&gt;", text, at) {
        Some(('>', at + 4))
    } else if follows(b"&quot;", text, at) {
        Some(('"', at + 6))
    } else if follows(b"&apos;", text, at) {
        Some(('\'', at + 6))
    } else {
        None
    }
}

/// The character of the reference at a place, and the place after it (XQuery 1.0, section 3.1.1).
#[tactic(auto, unfolding(xq_ast::specs::Values::reference))]
pub fn reference(text: &[u8], at: usize) -> Option<(char, usize)>
    requires { at ≤ length text.now }
    ensures char { result ≡ spec.reference text.now at }
    ensures within { IfSome result (λ r. r.1 ≤ length text.now) }
{
    if follows(b"&#x", text, at) {
        numbered(true, text, at + 3, run_end(Class::HexDigit, text, at + 3))
    } else if follows(b"&#", text, at) {
        numbered(false, text, at + 2, run_end(Class::Digit, text, at + 2))
    } else {
        entity(text, at)
    }
}

/// One step in a string: the place that it comes to, and whether the string ends there.
fn string_step(quote: u8, text: &[u8], at: usize) -> Option<(bool, usize)>
    requires { 0 < quote }
    ensures step { result ≡ spec.string_step quote text.now at }
    ensures within { IfSome result (λ s. s.1 ≤ length text.now) }
{
    if at >= text.len() {
        return None;
    }
    let b = byte(text, at);
    if b == quote {
        if byte(text, at + 1) == quote {
            return Some((false, at + 2));
        }
        return Some((true, at + 1));
    }
    if b == 38 {
        return match reference(text, at) {
            Some((_, end)) => Some((false, end)),
            None => None,
        };
    }
    Some((false, at + 1))
}

/// Where the string that begins with the quote at a place ends (XQuery 1.0, section 3.1.1).
#[tactic(auto, using(crate::proofs::Turns::one_more, crate::proofs::Turns::no_more), unfolding(xq_ast::specs::Values::string_from))]
pub fn string_end(text: &[u8], at: usize) -> Option<usize>
    requires { 0 < bytes.byte text.now at }
    ensures end { result ≡ spec.string_end text.now at }
    ensures within { IfSome result (λ e. e ≤ length text.now) }
{
    let quote = byte(text, at);
    let mut place = at + 1;
    for _turn in 0..text.len() {
        match string_step(quote, text, place) {
            Some((true, end)) => return Some(end),
            Some((false, next)) => place = next,
            None => return None,
        }
    }
    None
}
