//! References to characters and to the entities that need no declaration.
ghost use Rattle.std.specs.Prelude.{◌≡◌, ◌≤◌, ◌+◌, ◌*◌, min, Some, None, if◌then◌else◌};
ghost use Rattle.std.specs.Char.{digit_value};
ghost use Rattle.xq_base.specs.Chars.{is_char};
ghost use Rattle.doc_shred.specs.Classes.{number};
ghost use Rattle.doc_shred.specs.Reading as r;
ghost use Rattle.doc_shred.specs.Views.{char_of, radix_of};

use crate::bytes::{Class, comes_word, some_run, strip};
use xq_base::is_char;

/// A number that no character has; a greater one counts as this.
const NO_CHAR: u32 = 0x11_0000;

/// The value of a digit, or 36.
fn digit(byte: u8) -> u32
    ensures { result ≡ digit_value byte }
{
    match byte {
        b'0'..=b'9' => byte as u32 - 48,
        b'A'..=b'Z' => byte as u32 - 55,
        b'a'..=b'z' => byte as u32 - 87,
        _ => 36,
    }
}

/// A number with one more digit.
fn shifted(hexadecimal: bool, number: u32, digit: u32) -> u32
    requires number { number ≤ 0x11_0000 }
    requires digit { digit ≤ 36 }
    ensures { result ≡ min (number * radix_of hexadecimal + digit) 0x11_0000 }
{
    if hexadecimal {
        (number * 16 + digit).min(NO_CHAR)
    } else {
        (number * 10 + digit).min(NO_CHAR)
    }
}

/// The number that digits write.
fn number(hexadecimal: bool, digits: &[u8]) -> u32
    ensures { result ≡ min (number (radix_of hexadecimal) 0 digits.now) 0x11_0000 }
{
    let mut value = 0;
    for byte in digits {
        value = shifted(hexadecimal, value, digit(*byte));
    }
    value
}

/// The character with a number, where it is one of XML.
#[tactic(auto, unfolding(xq_base::specs::Chars::is_char))]
fn char_at(number: u32) -> Option<char>
    ensures { result ≡ (if is_char number then Some number else None) }
{
    let c = char::from_u32(number)?;
    if is_char(c) { Some(c) } else { None }
}

/// A character by its number, and `;`.
#[tactic(auto, unfolding(crate::specs::Reading::numbered))]
fn numbered(number: u32, bytes: &[u8]) -> Option<(char, &[u8])>
    ensures { char_of result ≡ r.numbered number bytes.now }
{
    let c = char_at(number)?;
    let rest = strip(b";", bytes)?;
    Some((c, rest))
}

/// A reference to a character, after the `&` (XML 1.0, section 4.1, production 66).
#[tactic(auto, unfolding(crate::specs::Reading::character), using(crate::proofs::Numbers::capped))]
fn character(bytes: &[u8]) -> Option<(char, &[u8])>
    ensures { char_of result ≡ r.character bytes.now }
{
    if comes_word(b"#x", bytes) {
        let rest = strip(b"#x", bytes)?;
        let (digits, rest) = some_run(Class::Hexadecimal, rest)?;
        return numbered(number(true, digits), rest);
    }
    let rest = strip(b"#", bytes)?;
    let (digits, rest) = some_run(Class::Digit, rest)?;
    numbered(number(false, digits), rest)
}

/// A reference to one of the five entities, after the `&` (XML 1.0, section 4.6).
#[tactic(auto, unfolding(crate::specs::Reading::entity), using(std::proofs::lemmas::Str::encode_ascii))]
fn entity(bytes: &[u8]) -> Option<(char, &[u8])>
    ensures { char_of result ≡ r.entity bytes.now }
{
    if comes_word(b"amp;", bytes) {
        let rest = strip(b"amp;", bytes)?;
        return Some(('&', rest));
    }
    if comes_word(b"lt;", bytes) {
        let rest = strip(b"lt;", bytes)?;
        return Some(('<', rest));
    }
    if comes_word(b"gt;", bytes) {
        let rest = strip(b"gt;", bytes)?;
        return Some(('>', rest));
    }
    if comes_word(b"quot;", bytes) {
        let rest = strip(b"quot;", bytes)?;
        return Some(('"', rest));
    }
    let rest = strip(b"apos;", bytes)?;
    Some(('\'', rest))
}

/// A reference (XML 1.0, section 4.1, productions 66 to 68).
#[tactic(auto, unfolding(crate::specs::Reading::reference))]
pub fn reference(bytes: &[u8]) -> Option<(char, &[u8])>
    ensures { char_of result ≡ r.reference bytes.now }
{
    let rest = strip(b"&", bytes)?;
    if comes_word(b"#", rest) {
        character(rest)
    } else {
        entity(rest)
    }
}
