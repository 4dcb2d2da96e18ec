//! The piece of a direct constructor at a place.
ghost use Rattle.std.specs.Prelude.{◌≡◌, ◌≤◌, ◌<◌, ◌+◌, ℕ, length, IfSome, true};
ghost use Rattle.xq_ast.specs.Bytes as bytes;
ghost use Rattle.xq_ast.specs.Pieces as spec;
ghost use Rattle.xq_lexer.specs.Classes.{class_test};

use xq_ast::token::{DirPlace, Piece, PieceKind};
use xq_lexer::bytes::{
    Class, byte, char_at, find, follows, is_in, name_run_end, run_end, starts_name, starts_ncname,
};
use xq_lexer::name_end;
use xq_lexer::references::reference;

fn piece_to(kind: PieceKind, start: usize, end: usize) -> Piece
    ensures { result ≡ spec.piece_to kind start end }
{
    Piece { kind, start, end }
}

/// A piece up to a place, where there is one.
fn up_to(kind: PieceKind, start: usize, end: Option<usize>) -> Option<Piece>
    ensures { result ≡ spec.up_to kind start end }
{
    match end {
        Some(end) => Some(piece_to(kind, start, end)),
        None => None,
    }
}

/// Where the comment that begins at a place ends (XML 1.0, section 2.5).
fn comment_end(text: &[u8], at: usize) -> Option<usize>
    requires { at ≤ length text.now }
    ensures end { result ≡ spec.comment_end text.now at }
    ensures within { IfSome result (λ e. e ≤ length text.now) }
{
    match find(b"--", text, at + 4) {
        Some(dashes) => {
            if byte(text, dashes + 2) == 62 {
                Some(dashes + 3)
            } else {
                None
            }
        }
        None => None,
    }
}

/// Where the CDATA section that begins at a place ends (XML 1.0, section 2.7).
fn cdata_end(text: &[u8], at: usize) -> Option<usize>
    requires { at ≤ length text.now }
    ensures end { result ≡ spec.cdata_end text.now at }
    ensures within { IfSome result (λ e. e ≤ length text.now) }
{
    match find(b"]]>", text, at + 9) {
        Some(end) => Some(end + 3),
        None => None,
    }
}

/// Whether a name is "xml" in any case, which names no instruction.
#[tactic(auto, unfolding(xq_ast::specs::Pieces::is_xml))]
fn is_xml(name: &[u8]) -> bool
    ensures { result ≡ spec.is_xml name.now }
{
    name.eq_ignore_ascii_case(b"xml")
}

/// Where the instruction that begins at a place ends (XML 1.0, section 2.6).
fn instruction_end(text: &[u8], at: usize) -> Option<usize>
    requires { at + 2 ≤ length text.now }
    ensures end { result ≡ spec.instruction_end text.now at }
    ensures within { IfSome result (λ e. e ≤ length text.now) }
{
    let end = name_run_end(true, text, at + 2);
    if !starts_name(char_at(text, at + 2)) || is_xml(&text[at + 2..end]) {
        return None;
    }
    if follows(b"?>", text, end) {
        return Some(end + 2);
    }
    if !is_in(Class::White, byte(text, end)) {
        return None;
    }
    match find(b"?>", text, run_end(Class::White, text, end)) {
        Some(last) => Some(last + 2),
        None => None,
    }
}

/// A brace, or a doubled one.
fn brace(text: &[u8], at: usize) -> Option<Piece>
    requires { at < length text.now }
    ensures piece { result ≡ spec.brace text.now at }
    ensures within { IfSome result (λ p. p.end ≤ length text.now) }
{
    let next = byte(text, at + 1);
    if byte(text, at) == 123 {
        if next == 123 {
            Some(piece_to(PieceKind::DoubledOpen, at, at + 2))
        } else {
            Some(piece_to(PieceKind::Brace, at, at + 1))
        }
    } else if next == 125 {
        Some(piece_to(PieceKind::DoubledClose, at, at + 2))
    } else {
        None
    }
}

fn in_tag(text: &[u8], at: usize) -> Option<Piece>
    requires { at < length text.now }
    ensures piece { result ≡ spec.in_tag text.now at }
    ensures within { IfSome result (λ p. p.end ≤ length text.now) }
{
    let b = byte(text, at);
    if is_in(Class::White, b) {
        let end = run_end(Class::White, text, at + 1);
        Some(piece_to(PieceKind::White, at, end))
    } else if starts_ncname(char_at(text, at)) {
        Some(piece_to(PieceKind::Name, at, name_end(text, at)))
    } else if b == 61 {
        Some(piece_to(PieceKind::Equals, at, at + 1))
    } else if b == 34 {
        Some(piece_to(PieceKind::DoubleQuote, at, at + 1))
    } else if b == 39 {
        Some(piece_to(PieceKind::SingleQuote, at, at + 1))
    } else if b == 62 {
        Some(piece_to(PieceKind::TagEnd, at, at + 1))
    } else if b == 47 && byte(text, at + 1) == 62 {
        Some(piece_to(PieceKind::EmptyTagEnd, at, at + 2))
    } else {
        None
    }
}

/// A reference as a piece.
fn referred(text: &[u8], at: usize) -> Option<Piece>
    requires { at < length text.now }
    ensures piece { result ≡ spec.referred text.now at }
    ensures within { IfSome result (λ p. p.end ≤ length text.now) }
{
    match reference(text, at) {
        Some((_, end)) => Some(piece_to(PieceKind::Reference, at, end)),
        None => None,
    }
}

/// A run of characters, where one begins.
fn run(class: Class, text: &[u8], at: usize) -> Option<Piece>
    requires { at < length text.now }
    ensures piece { result ≡ spec.run (class_test class) text.now at }
    ensures within { IfSome result (λ p. p.end ≤ length text.now) }
{
    if is_in(class, byte(text, at)) {
        let end = run_end(class, text, at + 1);
        Some(piece_to(PieceKind::Chars, at, end))
    } else {
        None
    }
}

/// A reference, a brace or a run.
fn plain(class: Class, text: &[u8], at: usize) -> Option<Piece>
    requires { at < length text.now }
    ensures piece { result ≡ spec.plain (class_test class) text.now at }
    ensures within { IfSome result (λ p. p.end ≤ length text.now) }
{
    let b = byte(text, at);
    if b == 123 || b == 125 {
        brace(text, at)
    } else if b == 38 {
        referred(text, at)
    } else {
        run(class, text, at)
    }
}

/// The quote of a value, or its end.
fn quote(closing: PieceKind, text: &[u8], at: usize) -> Piece
    requires { 0 < bytes.byte text.now at }
    ensures piece { result ≡ spec.quote closing text.now at }
    ensures within { result.end ≤ length text.now }
{
    if byte(text, at + 1) == byte(text, at) {
        piece_to(PieceKind::DoubledQuote, at, at + 2)
    } else {
        piece_to(closing, at, at + 1)
    }
}

/// What `<` begins in content.
fn in_markup(text: &[u8], at: usize) -> Option<Piece>
    requires { at < length text.now }
    ensures piece { result ≡ spec.in_markup text.now at }
    ensures within { IfSome result (λ p. p.end ≤ length text.now) }
{
    let next = byte(text, at + 1);
    if next == 47 {
        Some(piece_to(PieceKind::EndTagStart, at, at + 2))
    } else if follows(b"<!--", text, at) {
        up_to(PieceKind::Comment, at, comment_end(text, at))
    } else if follows(b"<![CDATA[", text, at) {
        up_to(PieceKind::Cdata, at, cdata_end(text, at))
    } else if next == 63 {
        up_to(PieceKind::Instruction, at, instruction_end(text, at))
    } else if starts_ncname(char_at(text, at + 1)) {
        Some(piece_to(PieceKind::TagStart, at, at + 1))
    } else {
        None
    }
}

fn in_place(text: &[u8], place: DirPlace, at: usize) -> Option<Piece>
    requires { at < length text.now }
    ensures piece { result ≡ spec.in_place text.now place at }
    ensures within { IfSome result (λ p. p.end ≤ length text.now) }
{
    let b = byte(text, at);
    match place {
        DirPlace::Tag => in_tag(text, at),
        DirPlace::DoubleQuoted => {
            if b == 34 {
                Some(quote(PieceKind::DoubleQuote, text, at))
            } else {
                plain(Class::DoubleQuoted, text, at)
            }
        }
        DirPlace::SingleQuoted => {
            if b == 39 {
                Some(quote(PieceKind::SingleQuote, text, at))
            } else {
                plain(Class::SingleQuoted, text, at)
            }
        }
        DirPlace::Content => {
            if b == 60 {
                in_markup(text, at)
            } else {
                plain(Class::Content, text, at)
            }
        }
    }
}

/// The next piece inside a tag, a quoted value or content, or None where none stands there
/// (XQuery 1.0, section 3.7.1).
///
/// `text` is the query, `offset` a place in it, and `place` says what is due there.
#[tactic(auto, unfolding(xq_ast::specs::Pieces::piece))]
pub fn piece_at(text: &[u8], offset: usize, place: DirPlace) -> Option<Piece>
    requires { offset ≤ length text.now }
    ensures piece { result ≡ spec.piece text.now place offset }
    ensures within { IfSome result (λ p. p.end ≤ length text.now) }
{
    if offset >= text.len() {
        return None;
    }
    in_place(text, place, offset)
}
