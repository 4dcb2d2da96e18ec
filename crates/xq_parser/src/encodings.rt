//! The encoding that a query names.
ghost use Rattle.std.specs.Prelude.{◌≡◌, ◌≤◌, ◌<◌, ◌+◌, length, Some, None, IfSome, MatchOption};
ghost use Rattle.std.specs.Str.{str_to_ascii_lowercase};
ghost use Rattle.xq_ast.specs.Bytes as bytes;
ghost use Rattle.xq_ast.specs.Values.{string_value};
ghost use Rattle.xq_ast.specs.Look as spec;
ghost use Rattle.xq_parser.specs.Strings.{reference_step, value_step};
ghost use Rattle.xq_parser.specs.Encodings.{behind, behind_step};

use xq_ast::token::{Token, TokenKind};
use xq_lexer::bytes::byte;
use xq_lexer::references::reference;

/// What is left of a word behind these bytes in lower case, where it begins with them.
fn behind<'a>(word: &'a [u8], bytes: &[u8]) -> Option<&'a [u8]>
    ensures { MatchOption result (behind bytes.now word.now ≡ None) (λ rest. behind bytes.now word.now ≡ Some rest.now) }
{
    if bytes.len() > word.len() {
        return None;
    }
    for i in 0..bytes.len() {
        if bytes[i].to_ascii_lowercase() != word[i] {
            return None;
        }
    }
    Some(&word[bytes.len()..])
}

/// The same behind bytes that a place follows.
fn behind_to<'a>(word: &'a [u8], bytes: &[u8], next: usize) -> Option<(&'a [u8], usize)>
    ensures { MatchOption result (behind bytes.now word.now ≡ None) (λ r. (behind bytes.now word.now ≡ Some r.0.now) × (r.1 ≡ next)) }
{
    match behind(word, bytes) {
        None => None,
        Some(rest) => Some((rest, next)),
    }
}

/// The same behind the reference at a place, or nothing more where none stands there.
fn behind_reference<'a>(
    word: &'a [u8],
    text: &[u8],
    at: usize,
    last: usize,
) -> Option<(&'a [u8], usize)>
    requires { at ≤ length text.now }
    ensures { MatchOption result (behind_step word.now last (reference_step text.now at) ≡ None) (λ r. behind_step word.now last (reference_step text.now at) ≡ Some (r.0.now, r.1)) }
{
    match reference(text, at) {
        None => Some((word, last)),
        Some((c, next)) => {
            let mut bytes = [0; 4];
            behind_to(word, c.encode_utf8(&mut bytes).as_bytes(), next)
        }
    }
}

/// The same behind what stands at a place between the quotes of a string.
fn behind_step<'a>(
    word: &'a [u8],
    quote: u8,
    text: &[u8],
    at: usize,
    last: usize,
) -> Option<(&'a [u8], usize)>
    requires { at + 2 ≤ length text.now }
    ensures { MatchOption result (behind_step word.now last (value_step quote text.now at) ≡ None) (λ r. behind_step word.now last (value_step quote text.now at) ≡ Some (r.0.now, r.1)) }
{
    let b = byte(text, at);
    if b == quote {
        behind_to(word, &[quote], at + 2)
    } else if b == b'&' {
        behind_reference(word, text, at, last)
    } else if b == b'\r' {
        let next = if byte(text, at + 1) == b'\n' {
            at + 2
        } else {
            at + 1
        };
        behind_to(word, b"\n", next)
    } else {
        behind_to(word, &[b], at + 1)
    }
}

/// Whether the string between two places, its quotes included, stands for a word, in any case.
fn is_word(text: &[u8], from: usize, to: usize, word: &[u8]) -> bool
    requires { to ≤ length text.now }
    ensures { result ≡ bytes.same (str_to_ascii_lowercase (string_value text.now from to)) word.now }
{
    if from >= to {
        return word.is_empty();
    }
    let quote = byte(text, from);
    let last = to - 1;
    let mut rest = word;
    let mut at = from + 1;
    for _turn in from..to {
        if at >= last {
            return rest.is_empty();
        }
        match behind_step(rest, quote, text, at, last) {
            None => return false,
            Some((more, next)) => {
                rest = more;
                at = next;
            }
        }
    }
    rest.is_empty()
}

/// Whether a string names another encoding than UTF-8 or US-ASCII, in any case.
pub fn is_other_encoding(text: &[u8], token: Option<Token>) -> bool
    requires { IfSome token (λ t. t.end ≤ length text.now) }
    ensures { result ≡ spec.is_other_encoding text.now token }
{
    match token {
        None => false,
        Some(t) => match t.kind {
            TokenKind::Quoted => {
                !is_word(text, t.start, t.end, b"utf-8")
                    && !is_word(text, t.start, t.end, b"us-ascii")
            }
            _ => false,
        },
    }
}
