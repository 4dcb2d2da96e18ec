//! The token at a place, after white space and comments.
ghost use Rattle.std.specs.Prelude.{◌≡◌, ◌≤◌, ◌<◌, ◌+◌, ℕ, length, IfSome, Some, true};
ghost use Rattle.xq_ast.specs.Bytes as bytes;
ghost use Rattle.xq_ast.specs.Values as values;
ghost use Rattle.xq_ast.specs.Tokens as spec;

use crate::bytes::{
    Class, byte, char_at, is_in, name_run_end, run_end, start, starts_name, starts_ncname, width,
};
use crate::references::string_end;
use xq_ast::token::{Mode, Token, TokenKind};

/// Where the NCName that begins at a place ends.
pub fn ncname_end(text: &[u8], at: usize) -> usize
    requires { at + bytes.width (bytes.byte text.now at) ≤ length text.now }
    ensures end { result ≡ spec.ncname_end text.now at }
    ensures within { result ≤ length text.now }
{
    name_run_end(false, text, at + width(byte(text, at)))
}

/// Where the longest QName that begins at a place ends.
pub fn name_end(text: &[u8], at: usize) -> usize
    requires { at + bytes.width (bytes.byte text.now at) ≤ length text.now }
    ensures end { result ≡ spec.name_end text.now at }
    ensures within { result ≤ length text.now }
{
    let end = ncname_end(text, at);
    if byte(text, end) == 58 && starts_ncname(char_at(text, end + 1)) {
        ncname_end(text, end + 1)
    } else {
        end
    }
}

fn token_to(kind: TokenKind, start: usize, end: usize) -> Token
    ensures { result ≡ spec.token_to kind start end }
{
    Token { kind, start, end }
}

fn name(text: &[u8], at: usize) -> Token
    requires { at + bytes.width (bytes.byte text.now at) ≤ length text.now }
    ensures token { result ≡ spec.name text.now at }
    ensures within { result.end ≤ length text.now }
{
    let end = ncname_end(text, at);
    if byte(text, end) == 58 && byte(text, end + 1) == 42 {
        token_to(TokenKind::PrefixStar, at, end + 2)
    } else {
        token_to(TokenKind::Name, at, name_end(text, at))
    }
}

fn integer(text: &[u8], at: usize) -> Option<Token>
    requires { at < length text.now }
    ensures token { result ≡ spec.integer text.now at }
    ensures within { IfSome result (λ t. t.end ≤ length text.now) }
{
    let end = run_end(Class::Digit, text, at + 1);
    let next = byte(text, end);
    if next == 46 || next == 69 || next == 101 {
        Some(token_to(TokenKind::Decimal, at, end))
    } else if starts_name(char_at(text, end)) {
        None
    } else {
        Some(token_to(TokenKind::Integer, at, end))
    }
}

fn star(text: &[u8], at: usize, mode: Mode) -> Token
    requires { at < length text.now }
    ensures token { result ≡ spec.star text.now at mode }
    ensures within { result.end ≤ length text.now }
{
    match mode {
        Mode::Operator => token_to(TokenKind::Star, at, at + 1),
        Mode::Operand => {
            if byte(text, at + 1) == 58 && starts_ncname(char_at(text, at + 2)) {
                token_to(TokenKind::StarName, at, ncname_end(text, at + 2))
            } else {
                token_to(TokenKind::Star, at, at + 1)
            }
        }
    }
}

fn less(next: u8, mode: Mode) -> (TokenKind, usize)
    ensures sign { result ≡ spec.less next mode }
    ensures len { result.1 ≤ 2 }
    ensures next { 1 < result.1 → 0 < next }
{
    match mode {
        Mode::Operand => (TokenKind::Less, 1),
        Mode::Operator => {
            if next == 61 {
                (TokenKind::AtMost, 2)
            } else if next == 60 {
                (TokenKind::Precedes, 2)
            } else {
                (TokenKind::Less, 1)
            }
        }
    }
}

fn plain_sign(b: u8) -> Option<(TokenKind, usize)>
    ensures sign { result ≡ spec.plain_sign b }
    ensures len { IfSome result (λ x. x.1 ≤ 1) }
{
    match b {
        44 => Some((TokenKind::Comma, 1)),
        59 => Some((TokenKind::Semicolon, 1)),
        36 => Some((TokenKind::Dollar, 1)),
        41 => Some((TokenKind::Close, 1)),
        91 => Some((TokenKind::OpenBracket, 1)),
        93 => Some((TokenKind::CloseBracket, 1)),
        123 => Some((TokenKind::OpenBrace, 1)),
        125 => Some((TokenKind::CloseBrace, 1)),
        64 => Some((TokenKind::AtSign, 1)),
        61 => Some((TokenKind::Equal, 1)),
        43 => Some((TokenKind::Plus, 1)),
        45 => Some((TokenKind::Minus, 1)),
        124 => Some((TokenKind::Bar, 1)),
        63 => Some((TokenKind::Question, 1)),
        _ => None,
    }
}

/// A colon, a dot or a slash, by the next byte.
fn doubled(b: u8, next: u8) -> Option<(TokenKind, usize)>
    ensures sign { result ≡ spec.doubled b next }
    ensures len { IfSome result (λ x. x.1 ≤ 2) }
    ensures next { IfSome result (λ x. 1 < x.1 → 0 < next) }
{
    if b == 58 {
        match next {
            61 => Some((TokenKind::Assign, 2)),
            58 => Some((TokenKind::Colons, 2)),
            _ => None,
        }
    } else if b == 46 {
        if next == 46 {
            Some((TokenKind::Dots, 2))
        } else if is_in(Class::Digit, next) {
            Some((TokenKind::Fraction, 1))
        } else {
            Some((TokenKind::Dot, 1))
        }
    } else if b == 47 {
        if next == 47 {
            Some((TokenKind::Slashes, 2))
        } else {
            Some((TokenKind::Slash, 1))
        }
    } else {
        plain_sign(b)
    }
}

fn sign(b: u8, next: u8, mode: Mode) -> Option<(TokenKind, usize)>
    ensures sign { result ≡ spec.sign b next mode }
    ensures len { IfSome result (λ x. x.1 ≤ 2) }
    ensures next { IfSome result (λ x. 1 < x.1 → 0 < next) }
{
    match b {
        40 => match next {
            35 => Some((TokenKind::Pragma, 2)),
            58 => None,
            _ => Some((TokenKind::Open, 1)),
        },
        33 => {
            if next == 61 {
                Some((TokenKind::Unequal, 2))
            } else {
                None
            }
        }
        60 => Some(less(next, mode)),
        62 => match next {
            61 => Some((TokenKind::AtLeast, 2)),
            62 => Some((TokenKind::Follows, 2)),
            _ => Some((TokenKind::Greater, 1)),
        },
        _ => doubled(b, next),
    }
}

fn signed(text: &[u8], at: usize, mode: Mode) -> Option<Token>
    requires { at < length text.now }
    ensures token { result ≡ spec.signed text.now at mode }
    ensures within { IfSome result (λ t. t.end ≤ length text.now) }
{
    match sign(byte(text, at), byte(text, at + 1), mode) {
        Some((kind, len)) => Some(token_to(kind, at, at + len)),
        None => None,
    }
}

fn quoted(text: &[u8], at: usize) -> Option<Token>
    requires { 0 < bytes.byte text.now at }
    ensures token { result ≡ spec.quoted text.now at }
    ensures within { IfSome result (λ t. t.end ≤ length text.now) }
{
    match string_end(text, at) {
        Some(end) => Some(token_to(TokenKind::Quoted, at, end)),
        None => None,
    }
}

fn token_here(text: &[u8], at: usize, mode: Mode) -> Option<Token>
    ensures token { result ≡ spec.token_here text.now at mode }
    ensures within { IfSome result (λ t. t.end ≤ length text.now) }
{
    if at >= text.len() {
        return None;
    }
    let b = byte(text, at);
    if starts_ncname(char_at(text, at)) {
        Some(name(text, at))
    } else if is_in(Class::Digit, b) {
        integer(text, at)
    } else if b == 34 || b == 39 {
        quoted(text, at)
    } else if b == 42 {
        Some(star(text, at, mode))
    } else {
        signed(text, at, mode)
    }
}

/// The token after white space and comments, or None where none stands there (XQuery 1.0, appendix A.2).
///
/// `text` is the query, `offset` a place in it, and `mode` what is due there.
#[tactic(auto, unfolding(xq_ast::specs::Tokens::token))]
pub fn token_at(text: &[u8], offset: usize, mode: Mode) -> Option<Token>
    requires { offset ≤ length text.now }
    ensures token { result ≡ spec.token text.now mode offset }
    ensures within { IfSome result (λ t. t.end ≤ length text.now) }
{
    token_here(text, start(text, offset), mode)
}
