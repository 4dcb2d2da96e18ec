//! What stands at a place, as one class.
ghost use Rattle.std.specs.Prelude.{◌≡◌, ◌≤◌, ◌==◌, ℕ, List, length, slice_range, IfSome};
ghost use Rattle.xq_ast.specs.Bytes.{start};
ghost use Rattle.xq_ast.specs.Tokens.{token};
ghost use Rattle.xq_ast.specs.Pieces.{piece};
ghost use Rattle.xq_ast.specs.Look as spec;

use crate::encodings::is_other_encoding;
use crate::words;
use crate::words::same;
use xq_ast::look::{Due, Look};
use xq_ast::token::{DirPlace, Mode, Piece, PieceKind, Token, TokenKind};
use xq_direct::piece_at;
use xq_lexer::bytes::start;
use xq_lexer::token_at;

/// The token that comes next, none behind the end of the text.
#[tactic(auto, using(crate::proofs::Past::no_token))]
fn token(text: &[u8], at: usize, mode: Mode) -> Option<Token>
    ensures token { result ≡ token text.now mode at }
    ensures within { IfSome result (λ t. t.end ≤ length text.now) }
{
    if at > text.len() {
        return None;
    }
    token_at(text, at, mode)
}

#[tactic(auto, using(crate::proofs::Past::no_piece))]
fn piece(text: &[u8], at: usize, place: DirPlace) -> Option<Piece>
    ensures piece { result ≡ piece text.now place at }
    ensures within { IfSome result (λ p. p.end ≤ length text.now) }
{
    if at > text.len() {
        return None;
    }
    piece_at(text, at, place)
}

/// The bytes between two places of a text.
#[tactic(auto, using(crate::proofs::Past::nothing_between))]
pub fn between(text: &[u8], from: usize, to: usize) -> &[u8]
    requires { to ≤ length text.now }
    ensures { result.now ≡ slice_range text.now from to }
{
    if from <= to { &text[from..to] } else { &[] }
}

/// The place of the token that comes next.
#[tactic(auto, using(crate::proofs::Past::start_past))]
pub fn place(text: &[u8], at: usize) -> usize
    ensures { result ≡ start text.now at }
{
    if at > text.len() { at } else { start(text, at) }
}

/// The class of a token by itself.
fn of_kind(kind: TokenKind) -> Look
    ensures { result ≡ spec.of_kind kind }
{
    match kind {
        TokenKind::Name => Look::Name,
        TokenKind::Integer => Look::Integer,
        TokenKind::Quoted => Look::Quoted,
        TokenKind::Comma => Look::Comma,
        TokenKind::Semicolon => Look::Semicolon,
        TokenKind::Dollar => Look::Dollar,
        TokenKind::Open => Look::Open,
        TokenKind::Close => Look::Close,
        TokenKind::OpenBracket => Look::OpenBracket,
        TokenKind::CloseBracket => Look::CloseBracket,
        TokenKind::OpenBrace => Look::OpenBrace,
        TokenKind::CloseBrace => Look::CloseBrace,
        TokenKind::Assign => Look::Assign,
        TokenKind::Colons => Look::Colons,
        TokenKind::AtSign => Look::AtSign,
        TokenKind::Dot => Look::Dot,
        TokenKind::Dots => Look::Dots,
        TokenKind::Slash => Look::Slash,
        TokenKind::Slashes => Look::Slashes,
        TokenKind::Equal => Look::Equal,
        TokenKind::Unequal => Look::Unequal,
        TokenKind::Less => Look::Less,
        TokenKind::AtMost => Look::AtMost,
        TokenKind::Greater => Look::Greater,
        TokenKind::AtLeast => Look::AtLeast,
        TokenKind::Precedes => Look::Precedes,
        TokenKind::Follows => Look::Follows,
        TokenKind::Plus => Look::Plus,
        TokenKind::Minus => Look::Minus,
        TokenKind::Star => Look::Star,
        TokenKind::Bar => Look::Bar,
        TokenKind::Question => Look::Question,
        TokenKind::Pragma => Look::Pragma,
        TokenKind::PrefixStar => Look::PrefixStar,
        TokenKind::StarName => Look::StarName,
        TokenKind::Decimal => Look::Decimal,
        TokenKind::Fraction => Look::Fraction,
    }
}

/// The class of a piece by itself.
fn of_piece(kind: PieceKind) -> Look
    ensures { result ≡ spec.of_piece kind }
{
    match kind {
        PieceKind::White => Look::White,
        PieceKind::Name => Look::Name,
        PieceKind::Equals => Look::Equals,
        PieceKind::DoubleQuote => Look::DoubleQuote,
        PieceKind::SingleQuote => Look::SingleQuote,
        PieceKind::TagEnd => Look::TagEnd,
        PieceKind::EmptyTagEnd => Look::EmptyTagEnd,
        PieceKind::Chars => Look::Chars,
        PieceKind::Reference => Look::Reference,
        PieceKind::Cdata => Look::Cdata,
        PieceKind::DoubledOpen => Look::DoubledOpen,
        PieceKind::DoubledClose => Look::DoubledClose,
        PieceKind::DoubledQuote => Look::DoubledQuote,
        PieceKind::Brace => Look::Brace,
        PieceKind::TagStart => Look::TagStart,
        PieceKind::EndTagStart => Look::EndTagStart,
        PieceKind::Comment => Look::Comment,
        PieceKind::Instruction => Look::Instruction,
    }
}

/// The token that comes next, whatever is due.
fn next(text: &[u8], at: usize) -> Option<Token>
    ensures token { result ≡ spec.next text.now at }
    ensures within { IfSome result (λ t. t.end ≤ length text.now) }
{
    token(text, at, Mode::Operand)
}

fn is_kind(kind: TokenKind, token: Option<Token>) -> bool
    ensures { result ≡ spec.is_kind kind token }
{
    match token {
        Some(t) => of_kind(t.kind).is(of_kind(kind)),
        None => false,
    }
}

fn is_next(text: &[u8], kind: TokenKind, at: usize) -> bool
    ensures { result ≡ spec.is_next text.now kind at }
{
    is_kind(kind, next(text, at))
}

fn end_of(token: Option<Token>) -> usize
    ensures { result ≡ spec.end_of token }
{
    match token {
        Some(t) => t.end,
        None => 0,
    }
}

fn word_of(text: &[u8], token: Token) -> &[u8]
    requires { token.end ≤ length text.now }
    ensures { result.now ≡ spec.word_of text.now token }
{
    between(text, token.start, token.end)
}

/// The name that comes next, or nothing.
fn next_word(text: &[u8], at: usize) -> &[u8]
    ensures { result.now ≡ spec.next_word text.now (spec.next text.now at) }
{
    match next(text, at) {
        Some(t) => {
            if of_kind(t.kind).is(Look::Name) {
                word_of(text, t)
            } else {
                &[]
            }
        }
        None => &[],
    }
}

/// A test by kind, or else another class.
fn kind_look(text: &[u8], other: Look, word: &[u8], to: usize) -> Look
    ensures { result ≡ spec.kind_look text.now other word.now to }
{
    if same(word, b"document-node") && is_next(text, TokenKind::Name, end_of(next(text, to))) {
        Look::LeftOut
    } else {
        words::kind_words(word, other)
    }
}

/// A name before `(` where an operand is due.
fn called(text: &[u8], word: &[u8], to: usize) -> Look
    ensures { result ≡ spec.called text.now word.now to }
{
    let call = words::call_look(words::without_fn(word));
    kind_look(text, words::reserved_words(word, call), word, to)
}

/// A name before a name where an operand is due.
fn before_name(text: &[u8], word: &[u8], token: Token) -> Look
    requires { token.end ≤ length text.now }
    ensures { result ≡ spec.before_name text.now word.now token }
{
    let second = word_of(text, token);
    if same(word, b"validate") && (same(second, b"lax") || same(second, b"strict")) {
        Look::LeftOut
    } else if is_next(text, TokenKind::OpenBrace, token.end) {
        words::builder_words(word, Look::Name)
    } else {
        Look::Name
    }
}

fn name_before(text: &[u8], word: &[u8], to: usize, token: Token) -> Look
    requires { token.end ≤ length text.now }
    ensures { result ≡ spec.name_before text.now word.now to token }
{
    let kind = of_kind(token.kind);
    if kind.is(Look::Open) {
        called(text, word, to)
    } else if kind.is(Look::Dollar) {
        words::binding_words(word, Look::Name)
    } else if kind.is(Look::OpenBrace) {
        words::builder_words(word, words::block_words(word, Look::Name))
    } else if kind.is(Look::Colons) {
        words::forward_axes(word, words::reverse_axes(word, Look::Name))
    } else if kind.is(Look::Name) {
        before_name(text, word, token)
    } else {
        Look::Name
    }
}

/// A name where an operand is due, by the token after it.
fn operand_name(text: &[u8], word: &[u8], to: usize) -> Look
    ensures { result ≡ spec.operand_name text.now word.now to (spec.next text.now to) }
{
    match next(text, to) {
        Some(t) => name_before(text, word, to, t),
        None => Look::Name,
    }
}

/// A name where the test of a step is due, or a type.
fn tested_name(text: &[u8], other: Look, word: &[u8], to: usize) -> Look
    ensures { result ≡ spec.tested_name text.now other word.now to }
{
    if is_next(text, TokenKind::Open, to) {
        kind_look(text, other, word, to)
    } else {
        Look::Name
    }
}

/// What `declare` begins, by the next name.
fn declared(word: &[u8]) -> Look
    ensures { result ≡ spec.declared word.now }
{
    if word.is_empty() {
        Look::Body
    } else {
        words::declared_words(word, Look::LeftOut)
    }
}

/// A name where a declaration may stand.
fn prologue_name(text: &[u8], word: &[u8], to: usize) -> Look
    ensures { result ≡ spec.prologue_name text.now word.now to }
{
    if same(word, b"declare") {
        declared(next_word(text, to))
    } else if same(word, b"import") {
        Look::LeftOut
    } else if same(word, b"module") {
        Look::Module
    } else if same(word, b"xquery") && same(next_word(text, to), b"version") {
        Look::Xquery
    } else {
        Look::Body
    }
}

/// A name where an operator is due: a word, or `encoding` before one that is left out.
fn operator_name(text: &[u8], word: &[u8], to: usize) -> Look
    ensures { result ≡ spec.operator_name text.now word.now to }
{
    if same(word, b"encoding") && is_other_encoding(text, next(text, to)) {
        Look::OtherEncoding
    } else {
        words::operator_look(word)
    }
}

/// A name by what is due.
fn name_look(text: &[u8], due: Due, word: &[u8], to: usize) -> Look
    ensures { result ≡ spec.name_look text.now due word.now to }
{
    match due {
        Due::Operand => operand_name(text, word, to),
        Due::Operator => operator_name(text, word, to),
        Due::Tested => tested_name(text, Look::Name, word, to),
        Due::Typed => tested_name(text, words::type_words(word, Look::Name), word, to),
        Due::Prologue => prologue_name(text, word, to),
        _ => Look::Name,
    }
}

/// Where no token stands: the end of the text, or nothing that may stand there.
fn no_token(text: &[u8], at: usize) -> Look
    ensures { result ≡ spec.no_token text.now at }
{
    if place(text, at) == text.len() {
        Look::End
    } else {
        Look::Nothing
    }
}

fn token_look(text: &[u8], due: Due, at: usize, token: Option<Token>) -> Look
    requires { IfSome token (λ t. t.end ≤ length text.now) }
    ensures { result ≡ spec.token_look text.now due at token }
{
    match token {
        None => no_token(text, at),
        Some(t) => {
            let look = of_kind(t.kind);
            if look.is(Look::Name) {
                name_look(text, due, word_of(text, t), t.end)
            } else {
                look
            }
        }
    }
}

/// What isn't a name begins no declaration.
fn prologue_look(text: &[u8], token: Option<Token>) -> Look
    requires { IfSome token (λ t. t.end ≤ length text.now) }
    ensures { result ≡ spec.prologue_look text.now token }
{
    match token {
        None => Look::Body,
        Some(t) => {
            if of_kind(t.kind).is(Look::Name) {
                name_look(text, Due::Prologue, word_of(text, t), t.end)
            } else {
                Look::Body
            }
        }
    }
}

fn piece_look(piece: Option<Piece>) -> Look
    ensures { result ≡ spec.piece_look piece }
{
    match piece {
        None => Look::Nothing,
        Some(p) => of_piece(p.kind),
    }
}

/// White space in a tag, by what stands behind it.
fn gap(behind: Look) -> Look
    ensures { result ≡ spec.gap behind }
{
    match behind {
        Look::Name => Look::Gap,
        _ => Look::White,
    }
}

fn tag_look(text: &[u8], first: Option<Piece>) -> Look
    ensures { result ≡ spec.tag_look text.now first }
{
    match first {
        None => Look::Nothing,
        Some(p) => {
            let look = of_piece(p.kind);
            if look.is(Look::White) {
                gap(piece_look(piece(text, p.end, DirPlace::Tag)))
            } else {
                look
            }
        }
    }
}

/// What stands at a place, by what is due there.
pub fn look_at(text: &[u8], at: usize, due: Due) -> Look
    ensures { result ≡ spec.look text.now due at }
{
    match due {
        Due::Operand => token_look(text, Due::Operand, at, token(text, at, Mode::Operand)),
        Due::Operator => token_look(text, Due::Operator, at, token(text, at, Mode::Operator)),
        Due::Named => token_look(text, Due::Named, at, token(text, at, Mode::Operand)),
        Due::Tested => token_look(text, Due::Tested, at, token(text, at, Mode::Operand)),
        Due::Typed => token_look(text, Due::Typed, at, token(text, at, Mode::Operand)),
        Due::Prologue => prologue_look(text, token(text, at, Mode::Operand)),
        Due::Tag => tag_look(text, piece(text, at, DirPlace::Tag)),
        Due::DoubleQuoted => piece_look(piece(text, at, DirPlace::DoubleQuoted)),
        Due::SingleQuoted => piece_look(piece(text, at, DirPlace::SingleQuoted)),
        Due::Content => piece_look(piece(text, at, DirPlace::Content)),
    }
}

fn token_end(text: &[u8], at: usize, mode: Mode) -> usize
    ensures end { result ≡ spec.end_of (token text.now mode at) }
    ensures within { result ≤ length text.now }
{
    match token(text, at, mode) {
        Some(t) => t.end,
        None => 0,
    }
}

fn piece_end(text: &[u8], at: usize, place: DirPlace) -> usize
    ensures end { result ≡ spec.piece_end_of (piece text.now place at) }
    ensures within { result ≤ length text.now }
{
    match piece(text, at, place) {
        Some(p) => p.end,
        None => 0,
    }
}

/// Where what stands at a place ends.
pub fn end_at(text: &[u8], at: usize, due: Due) -> usize
    ensures end { result ≡ spec.end_at text.now due at }
    ensures within { result ≤ length text.now }
{
    match due {
        Due::Operator => token_end(text, at, Mode::Operator),
        Due::Tag => piece_end(text, at, DirPlace::Tag),
        Due::DoubleQuoted => piece_end(text, at, DirPlace::DoubleQuoted),
        Due::SingleQuoted => piece_end(text, at, DirPlace::SingleQuoted),
        Due::Content => piece_end(text, at, DirPlace::Content),
        _ => token_end(text, at, Mode::Operand),
    }
}

/// Whether this stands at a place.
pub fn looks(text: &[u8], at: usize, due: Due, kind: Look) -> bool
    ensures { result ≡ spec.looks text.now due kind at }
{
    look_at(text, at, due).is(kind)
}

/// Whether one of these stands at a place.
pub fn stands_one(text: &[u8], at: usize, due: Due, kinds: &[Look]) -> bool
    ensures { result ≡ spec.stands_one text.now (spec.syms due kinds.now) at }
{
    let here = look_at(text, at, due);
    for kind in kinds {
        if here.is(*kind) {
            return true;
        }
    }
    false
}
