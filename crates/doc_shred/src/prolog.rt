//! The XML declaration and the document type declaration.
ghost use Rattle.std.specs.Prelude.{◌≡◌};
ghost use Rattle.doc_shred.specs.Classes.{is_known_encoding};
ghost use Rattle.doc_shred.specs.Reading as r;
ghost use Rattle.doc_shred.specs.Views.{pair_of, silent, encoding_of, closing_of};

use crate::bytes::{Class, comes, comes_word, some_run, split_run, strip};
use crate::markup::{equals, name, space};
use crate::texts::characters;
use crate::values::after_quote;

/// A version number (XML 1.0, section 2.8, production 26).
#[tactic(auto, unfolding(crate::specs::Reading::version_number))]
fn version_number(bytes: &[u8]) -> Option<(&[u8], &[u8])>
    ensures { pair_of result ≡ r.version_number bytes.now }
{
    let rest = strip(b"1.", bytes)?;
    some_run(Class::Digit, rest)
}

/// A version number between these quotes.
fn version_in(quote: u8, bytes: &[u8]) -> Option<(&[u8], &[u8])>
    ensures { pair_of result ≡ r.in_quotes r.version_number quote bytes.now }
{
    let rest = after_quote(quote, bytes)?;
    let (number, rest) = version_number(rest)?;
    let rest = after_quote(quote, rest)?;
    Some((number, rest))
}

/// The version of a declaration (XML 1.0, section 2.8, production 24).
#[tactic(auto, unfolding(crate::specs::Reading::version))]
fn version(bytes: &[u8]) -> Option<(&[u8], &[u8])>
    ensures { pair_of result ≡ r.version bytes.now }
{
    let (_, rest) = space(bytes)?;
    let rest = strip(b"version", rest)?;
    let (_, rest) = equals(rest)?;
    if comes_word(b"\"", rest) {
        version_in(b'"', rest)
    } else {
        version_in(b'\'', rest)
    }
}

/// The name of an encoding (XML 1.0, section 4.3.3, production 81).
#[tactic(auto, unfolding(crate::specs::Reading::encoding_name))]
fn encoding_name(bytes: &[u8]) -> Option<(&[u8], &[u8])>
    ensures { pair_of result ≡ r.encoding_name bytes.now }
{
    let (name, rest) = split_run(Class::Encoding, bytes);
    if !comes(Class::Letter, name) {
        return None;
    }
    Some((name, rest))
}

/// The name of an encoding between these quotes.
fn encoding_in(quote: u8, bytes: &[u8]) -> Option<(&[u8], &[u8])>
    ensures { pair_of result ≡ r.in_quotes r.encoding_name quote bytes.now }
{
    let rest = after_quote(quote, bytes)?;
    let (name, rest) = encoding_name(rest)?;
    let rest = after_quote(quote, rest)?;
    Some((name, rest))
}

/// The encoding of a declaration (XML 1.0, section 4.3.3, production 80).
#[tactic(auto, unfolding(crate::specs::Reading::encoding))]
fn encoding(bytes: &[u8]) -> Option<(&[u8], &[u8])>
    ensures { pair_of result ≡ r.encoding bytes.now }
{
    let (_, rest) = space(bytes)?;
    let rest = strip(b"encoding", rest)?;
    let (_, rest) = equals(rest)?;
    if comes_word(b"\"", rest) {
        encoding_in(b'"', rest)
    } else {
        encoding_in(b'\'', rest)
    }
}

/// "yes" or "no".
fn yes_or_no(bytes: &[u8]) -> Option<&[u8]>
    ensures { silent result ≡ r.yes_or_no bytes.now }
{
    if comes_word(b"yes", bytes) {
        strip(b"yes", bytes)
    } else {
        strip(b"no", bytes)
    }
}

/// "yes" or "no" between these quotes.
fn yes_or_no_in(quote: u8, bytes: &[u8]) -> Option<&[u8]>
    ensures { silent result ≡ r.in_quotes r.yes_or_no quote bytes.now }
{
    let rest = after_quote(quote, bytes)?;
    let rest = yes_or_no(rest)?;
    let rest = after_quote(quote, rest)?;
    Some(rest)
}

/// Whether a document stands alone (XML 1.0, section 2.9, production 32).
#[tactic(auto, unfolding(crate::specs::Reading::standalone))]
fn standalone(bytes: &[u8]) -> Option<&[u8]>
    ensures { silent result ≡ r.standalone bytes.now }
{
    let (_, rest) = space(bytes)?;
    let rest = strip(b"standalone", rest)?;
    let (_, rest) = equals(rest)?;
    if comes_word(b"\"", rest) {
        yes_or_no_in(b'"', rest)
    } else {
        yes_or_no_in(b'\'', rest)
    }
}

/// The last bytes of a declaration.
#[tactic(auto, unfolding(crate::specs::Reading::declaration_close))]
fn declaration_close(bytes: &[u8]) -> Option<&[u8]>
    ensures { silent result ≡ r.declaration_close bytes.now }
{
    let (_, rest) = split_run(Class::Blank, bytes);
    strip(b"?>", rest)
}

/// Whether a word comes next, after white space or at once.
fn comes_after(word: &[u8], bytes: &[u8]) -> bool
    ensures { result ≡ r.begins_after word.now bytes.now }
{
    let (_, rest) = split_run(Class::Blank, bytes);
    comes_word(word, rest)
}

/// What follows the encoding of a declaration.
#[tactic(auto, unfolding(crate::specs::Reading::declaration_end))]
fn declaration_end(bytes: &[u8]) -> Option<&[u8]>
    ensures { silent result ≡ r.declaration_end bytes.now }
{
    if comes_after(b"standalone", bytes) {
        let rest = standalone(bytes)?;
        return declaration_close(rest);
    }
    declaration_close(bytes)
}

/// An XML declaration, with the encoding that it names (XML 1.0, section 2.8, production 23).
#[tactic(auto, unfolding(crate::specs::Reading::declaration))]
pub fn declaration(bytes: &[u8]) -> Option<(Option<&[u8]>, &[u8])>
    ensures { encoding_of result ≡ r.declaration bytes.now }
{
    let rest = strip(b"<?xml", bytes)?;
    let (_, rest) = version(rest)?;
    if comes_after(b"encoding", rest) {
        let (name, rest) = encoding(rest)?;
        let rest = declaration_end(rest)?;
        return Some((Some(name), rest));
    }
    let rest = declaration_end(rest)?;
    Some((None, rest))
}

/// Whether an encoding is one that is read: UTF-8 or US-ASCII, in any case.
#[tactic(auto, unfolding(crate::specs::Classes::is_known_encoding))]
pub fn is_known_encoding(name: &[u8]) -> bool
    ensures { result ≡ is_known_encoding name.now }
{
    name.eq_ignore_ascii_case(b"utf-8") || name.eq_ignore_ascii_case(b"us-ascii")
}

/// Characters between these quotes.
#[tactic(auto, unfolding(crate::specs::Reading::literal_in))]
fn literal_in(quote: u8, bytes: &[u8]) -> Option<(&str, &[u8])>
    ensures { pair_of result ≡ r.literal_in quote bytes.now }
{
    let rest = after_quote(quote, bytes)?;
    let (inner, rest) = split_run(Class::Quoted(quote), rest);
    let value = characters(inner)?;
    let rest = after_quote(quote, rest)?;
    Some((value, rest))
}

/// A system identifier (XML 1.0, section 2.3, production 11).
#[tactic(auto, unfolding(crate::specs::Reading::literal))]
fn literal(bytes: &[u8]) -> Option<(&str, &[u8])>
    ensures { pair_of result ≡ r.literal bytes.now }
{
    if comes_word(b"\"", bytes) {
        literal_in(b'"', bytes)
    } else {
        literal_in(b'\'', bytes)
    }
}

/// The characters of a public identifier between these quotes.
#[tactic(auto, unfolding(crate::specs::Reading::public_in))]
fn public_in(quote: u8, bytes: &[u8]) -> Option<(&[u8], &[u8])>
    ensures { pair_of result ≡ r.public_in quote bytes.now }
{
    let rest = after_quote(quote, bytes)?;
    let (value, rest) = split_run(Class::Public(quote), rest);
    let rest = after_quote(quote, rest)?;
    Some((value, rest))
}

/// A public identifier (XML 1.0, section 2.3, production 12).
#[tactic(auto, unfolding(crate::specs::Reading::public_literal))]
fn public_literal(bytes: &[u8]) -> Option<(&[u8], &[u8])>
    ensures { pair_of result ≡ r.public_literal bytes.now }
{
    if comes_word(b"\"", bytes) {
        public_in(b'"', bytes)
    } else {
        public_in(b'\'', bytes)
    }
}

/// An external identifier (XML 1.0, section 4.2.2, production 75).
#[tactic(auto, unfolding(crate::specs::Reading::external))]
fn external(bytes: &[u8]) -> Option<(&str, &[u8])>
    ensures { pair_of result ≡ r.external bytes.now }
{
    if comes_word(b"SYSTEM", bytes) {
        let rest = strip(b"SYSTEM", bytes)?;
        let (_, rest) = space(rest)?;
        return literal(rest);
    }
    let rest = strip(b"PUBLIC", bytes)?;
    let (_, rest) = space(rest)?;
    let (_, rest) = public_literal(rest)?;
    let (_, rest) = space(rest)?;
    literal(rest)
}

/// The byte that ends a document type declaration, or that begins its internal subset.
#[tactic(auto, unfolding(crate::specs::Reading::closing))]
fn closing(bytes: &[u8]) -> Option<(u8, &[u8])>
    ensures { closing_of result ≡ r.closing bytes.now }
{
    if comes_word(b">", bytes) {
        let rest = strip(b">", bytes)?;
        return Some((b'>', rest));
    }
    let rest = strip(b"[", bytes)?;
    Some((b'[', rest))
}

/// What follows the name of a document type declaration.
#[tactic(auto, unfolding(crate::specs::Reading::doctype_end))]
fn doctype_end(bytes: &[u8]) -> Option<(u8, &[u8])>
    ensures { closing_of result ≡ r.doctype_end bytes.now }
{
    let (_, after) = split_run(Class::Blank, bytes);
    if comes(Class::Letter, after) {
        let (_, rest) = space(bytes)?;
        let (_, rest) = external(rest)?;
        let (_, rest) = split_run(Class::Blank, rest);
        return closing(rest);
    }
    closing(after)
}

/// A document type declaration, with the byte that ends it: `>`, or `[` where an internal subset
/// begins (XML 1.0, section 2.8, production 28).
#[tactic(auto, unfolding(crate::specs::Reading::doctype))]
pub fn doctype(bytes: &[u8]) -> Option<(u8, &[u8])>
    ensures { closing_of result ≡ r.doctype bytes.now }
{
    let rest = strip(b"<!DOCTYPE", bytes)?;
    let (_, rest) = space(rest)?;
    let (_, rest) = name(rest)?;
    doctype_end(rest)
}
