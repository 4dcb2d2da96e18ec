//! Bytes, characters, and runs of them.
ghost use Rattle.std.specs.Prelude.{◌≡◌, ◌≤◌, ◌<◌, ◌+◌, ◌*◌, ℕ, length, Some, IfSome, true};
ghost use Rattle.xq_ast.specs.Bytes as spec;
ghost use Rattle.xq_ast.specs.Pieces;
ghost use Rattle.xq_base.specs.Chars;
ghost use Rattle.xq_lexer.specs.Classes.{class_test, name_test, has_no_zero, IsSkip};

use xq_ast::token::Skip;
use xq_base::{is_name_char, is_name_start};

/// The classes of bytes whose runs are read.
#[derive(Clone, Copy, Debug, PartialEq, Eq)]
pub enum Class {
    White,
    Digit,
    HexDigit,
    /// Content that stands for itself.
    Content,
    /// A value in `"` that stands for itself.
    DoubleQuoted,
    /// A value in `'` that stands for itself.
    SingleQuoted,
}

/// The byte at a place, or 0 behind the end.
pub fn byte(text: &[u8], at: usize) -> u8
    ensures byte { result ≡ spec.byte text.now at }
    ensures inside { 0 < result → at < length text.now }
{
    if at < text.len() { text[at] } else { 0 }
}

/// Whether a byte is of a class.
pub fn is_in(class: Class, b: u8) -> bool
    ensures { result ≡ class_test class b }
{
    match class {
        Class::White => b == 32 || b == 9 || b == 10 || b == 13,
        Class::Digit => is_digit(b),
        Class::HexDigit => is_digit(b) || b >= 65 && b <= 70 || b >= 97 && b <= 102,
        Class::Content => is_content(b),
        Class::DoubleQuoted => is_content(b) && b != 34,
        Class::SingleQuoted => is_content(b) && b != 39,
    }
}

fn is_digit(b: u8) -> bool
    ensures { result ≡ spec.is_digit b }
{
    b >= 48 && b <= 57
}

fn is_content(b: u8) -> bool
    ensures { result ≡ Pieces.is_content b }
{
    b != 0 && b != 60 && b != 38 && b != 123 && b != 125
}

/// Where the run of bytes of a class ends.
#[tactic(auto, using(crate::proofs::Turns::one_more, crate::proofs::Turns::no_more), unfolding(xq_ast::specs::Bytes::ends))]
pub fn run_end(class: Class, text: &[u8], at: usize) -> usize
    ensures end { result ≡ spec.run_end (class_test class) text.now at }
    ensures within { at ≤ length text.now → result ≤ length text.now }
{
    if at >= text.len() {
        return at;
    }
    for i in at..text.len() {
        if !is_in(class, byte(text, i)) {
            return i;
        }
    }
    text.len()
}

/// The number of bytes of a character, by the first.
pub fn width(b: u8) -> usize
    ensures width { result ≡ spec.width b }
    ensures some { 0 < result }
    ensures most { result ≤ 4 }
{
    if b < 192 {
        1
    } else if b < 224 {
        2
    } else if b < 240 {
        3
    } else {
        4
    }
}

fn more_bits(text: &[u8], at: usize, high: u32) -> u32
    requires { high < 65536 }
    ensures bits { result ≡ spec.more_bits text.now at high }
    ensures most { result < high * 64 + 64 }
{
    high * 64 + u32::from(byte(text, at) % 64)
}

/// The code point of the character at a place, or 0 where none ends within the text.
pub fn char_at(text: &[u8], at: usize) -> u32
    ensures code { result ≡ spec.char_at text.now at }
    ensures inside { 0 < result → at + spec.width (spec.byte text.now at) ≤ length text.now }
{
    if at >= text.len() {
        return 0;
    }
    let b = byte(text, at);
    if at + width(b) > text.len() {
        0
    } else if b < 192 {
        u32::from(b)
    } else if b < 224 {
        more_bits(text, at + 1, u32::from(b % 32))
    } else if b < 240 {
        more_bits(text, at + 2, more_bits(text, at + 1, u32::from(b % 16)))
    } else {
        let high = more_bits(text, at + 1, u32::from(b % 8));
        more_bits(text, at + 3, more_bits(text, at + 2, high))
    }
}

/// Whether a character begins a Name.
#[tactic(auto, using(crate::proofs::Scalars::no_start, crate::proofs::Scalars::start_char))]
pub fn starts_name(code: u32) -> bool
    ensures test { result ≡ Chars.is_name_start code }
    ensures some { result ≡ true → 0 < code }
{
    match char::from_u32(code) {
        Some(c) => is_name_start(c),
        None => false,
    }
}

#[tactic(auto, using(crate::proofs::Scalars::no_char))]
fn goes_on_name(code: u32) -> bool
    ensures { result ≡ Chars.is_name_char code }
{
    match char::from_u32(code) {
        Some(c) => is_name_char(c),
        None => false,
    }
}

/// Whether a character begins an NCName.
pub fn starts_ncname(code: u32) -> bool
    ensures test { result ≡ spec.begins_ncname code }
    ensures some { result ≡ true → 0 < code }
{
    starts_name(code) && code != 58
}

fn goes_on(with_colon: bool, code: u32) -> bool
    ensures test { result ≡ name_test with_colon code }
{
    goes_on_name(code) && (with_colon || code != 58)
}

/// The place after white space and comments.
#[tactic(auto, using(crate::proofs::Turns::one_more, crate::proofs::Turns::no_more), unfolding(xq_ast::specs::Bytes::skip_from))]
pub fn start(text: &[u8], at: usize) -> usize
    requires { at ≤ length text.now }
    ensures start { result ≡ spec.start text.now at }
    ensures within { result ≤ length text.now }
{
    let mut skip = Skip {
        depth: 0,
        back: at,
        at,
    };
    for _turn in 0..text.len() {
        match skip_step(text, skip) {
            Some(s) => skip = s,
            None => break,
        }
    }
    if skip.depth == 0 { skip.at } else { skip.back }
}

fn skip_step(text: &[u8], skip: Skip) -> Option<Skip>
    requires { IsSkip text.now skip }
    ensures step { result ≡ spec.skip_step text.now skip }
    ensures kept { (s : Skip) → result ≡ Some s → IsSkip text.now s }
{
    if skip.at >= text.len() {
        return None;
    }
    let b = byte(text, skip.at);
    let next = byte(text, skip.at + 1);
    let Skip { depth, back, at } = skip;
    if b == 40 && next == 58 {
        let back = if depth == 0 { at } else { back };
        return Some(Skip {
            depth: depth + 1,
            back,
            at: at + 2,
        });
    }
    if depth == 0 {
        if !is_in(Class::White, b) {
            return None;
        }
        return Some(Skip {
            depth,
            back,
            at: at + 1,
        });
    }
    if b == 58 && next == 41 {
        return Some(Skip {
            depth: depth - 1,
            back,
            at: at + 2,
        });
    }
    Some(Skip {
        depth,
        back,
        at: at + 1,
    })
}

/// Where the run of characters of a Name ends, or of an NCName, which have no colon.
#[tactic(auto, using(crate::proofs::Turns::one_more, crate::proofs::Turns::no_more, crate::proofs::Scalars::some_char), unfolding(xq_ast::specs::Bytes::char_ends))]
pub fn name_run_end(with_colon: bool, text: &[u8], at: usize) -> usize
    ensures end { result ≡ spec.chars_end (name_test with_colon) text.now at }
    ensures grows { at ≤ result }
    ensures within { at ≤ length text.now → result ≤ length text.now }
{
    if at >= text.len() {
        return at;
    }
    let mut place = at;
    for _turn in at..text.len() {
        if !goes_on(with_colon, char_at(text, place)) {
            return place;
        }
        place += width(byte(text, place));
    }
    place
}

/// Whether these bytes stand at a place.
#[tactic(auto, using(crate::proofs::Runs::follows_inside))]
pub fn follows(word: &[u8], text: &[u8], at: usize) -> bool
    requires { at ≤ length text.now }
    ensures follows { result ≡ spec.follows word.now text.now at }
    ensures inside { has_no_zero word.now ≡ true → result ≡ true → at + length word.now ≤ length text.now }
{
    for i in 0..word.len() {
        if byte(text, at + i) != word[i] {
            return false;
        }
    }
    true
}

/// The first place from here on where these bytes stand.
#[tactic(auto, using(crate::proofs::Turns::one_more, crate::proofs::Turns::no_more), unfolding(xq_ast::specs::Bytes::found))]
pub fn find(word: &[u8], text: &[u8], at: usize) -> Option<usize>
    ensures place { result ≡ spec.find word.now text.now at }
    ensures within { IfSome result (λ e. e ≤ length text.now) }
    ensures inside { has_no_zero word.now ≡ true → IfSome result (λ e. e + length word.now ≤ length text.now) }
{
    for i in at..text.len() {
        if follows(word, text, i) {
            return Some(i);
        }
    }
    None
}
