//! Values of attributes.
ghost use Rattle.std.specs.Prelude.{◌≡◌, ◌+◌, ◌++◌, ◌∷◌, [], length, map, OnOk, string_bytes};
ghost use Rattle.std.specs.Cow.{cow_str_bytes};
ghost use Rattle.doc_shred.specs.Classes.{to_blank};
ghost use Rattle.doc_shred.specs.Outcomes.{IsRead};
ghost use Rattle.doc_shred.specs.Parsers.{strip, fronted};
ghost use Rattle.doc_shred.specs.Reading as r;
ghost use Rattle.doc_shred.specs.Views.{silent};

use crate::bytes::{Class, comes, comes_word, some_run};
use crate::fault::Fault;
use crate::plain::plain_value;
use crate::references::reference;
use crate::texts::characters;
use std::alloc::{AllocError, Global};
use std::borrow::CowStr;

/// What follows a quote.
pub fn after_quote(quote: u8, bytes: &[u8]) -> Option<&[u8]>
    ensures { silent result ≡ strip (quote ∷ []) bytes.now }
{
    match bytes {
        [] => None,
        [first, rest @ ..] => { if *first == quote { Some(rest) } else { None } }
    }
}

/// What a character of a value becomes: white space becomes a blank (XML 1.0, section 3.3.3).
fn blanked(c: char) -> char
    ensures { result ≡ to_blank c }
{
    if c == '\t' || c == '\n' || c == '\r' {
        ' '
    } else {
        c
    }
}

/// Adds a text with a blank for each white space character.
fn push_blanked(value: &mut String, text: &str) -> Result<(), AllocError>
    ensures ok { OnOk result (string_bytes value.new ≡ string_bytes value.old ++ map to_blank text.now) }
{
    for c in text.chars() {
        value.push(blanked(c))?;
    }
    Ok(())
}

/// Adds a part of a value: characters, or a reference.
#[tactic(auto, unfolding(crate::specs::Reading::value_part))]
fn value_part<'a>(quote: u8, value: &mut String, bytes: &'a [u8]) -> Result<&'a [u8], Fault>
    ensures { IsRead (λ rest. (string_bytes value.new, rest.now)) (fronted (string_bytes value.old) (r.value_part quote bytes.now)) result }
{
    if comes(Class::Value(quote), bytes) {
        let Some((run, rest)) = some_run(Class::Value(quote), bytes) else {
            return Err(Fault::Malformed);
        };
        let Some(text) = characters(run) else {
            return Err(Fault::Malformed);
        };
        push_blanked(value, text)?;
        return Ok(rest);
    }
    let Some((c, rest)) = reference(bytes) else {
        return Err(Fault::Malformed);
    };
    value.push(c)?;
    Ok(rest)
}

/// The parts of a value between quotes, and what follows the closing quote.
fn value_parts(alloc: Global, quote: u8, bytes: &[u8]) -> Result<(String, &[u8]), Fault>
    ensures { IsRead (λ x. (string_bytes x.0, x.1.now)) (r.value_from quote [] (length bytes.now + 1) bytes.now) result }
{
    let mut value = String::new(alloc);
    let mut rest = bytes;
    for _turn in 0..bytes.len() + 1 {
        if !comes(Class::Quoted(quote), rest) {
            let Some(after) = after_quote(quote, rest) else {
                return Err(Fault::Malformed);
            };
            return Ok((value, after));
        }
        match value_part(quote, &mut value, rest) {
            Err(error) => return Err(error),
            Ok(after) => rest = after,
        }
    }
    Err(Fault::Malformed)
}

/// A value between these quotes.
#[tactic(auto, unfolding(crate::specs::Reading::value_in))]
fn value_in(alloc: Global, quote: u8, bytes: &[u8]) -> Result<(CowStr<'_>, &[u8]), Fault>
    ensures { IsRead (λ x. (cow_str_bytes x.0, x.1.now)) (r.value_in quote bytes.now) result }
{
    let Some(rest) = after_quote(quote, bytes) else {
        return Err(Fault::Malformed);
    };
    match plain_value(quote, rest) {
        Some((value, rest)) => Ok((CowStr::Borrowed(value), rest)),
        None => match value_parts(alloc, quote, rest) {
            Err(error) => Err(error),
            Ok((value, rest)) => Ok((CowStr::Owned(value), rest)),
        },
    }
}

/// A value in double or in single quotes (XML 1.0, section 2.3, production 10).
#[tactic(auto, unfolding(crate::specs::Reading::value))]
pub fn value(alloc: Global, bytes: &[u8]) -> Result<(CowStr<'_>, &[u8]), Fault>
    ensures { IsRead (λ x. (cow_str_bytes x.0, x.1.now)) (r.value bytes.now) result }
{
    if comes_word(b"\"", bytes) {
        value_in(alloc, b'"', bytes)
    } else {
        value_in(alloc, b'\'', bytes)
    }
}
