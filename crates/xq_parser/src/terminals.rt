//! Signs, words, names and strings.
ghost use Rattle.std.specs.Prelude.{◌≡◌};
ghost use Rattle.xq_ast.specs.Terminals as spec;
ghost use Rattle.xq_ast.specs.Direct as direct;
ghost use Rattle.xq_parser.specs.Outcomes.{Gives, Passes, reads_sign, reads_class, reads_text, reads_name, reads_ncname, reads_string, reads_tag_name, reads_left};

use crate::fault::ParseFault;
use crate::look::{between, end_at, look_at, looks, place, stands_one};
use crate::strings::string_value;
use sqlite_items::Items;
use std::alloc::Global;
use xq_ast::leaf::Name;
use xq_ast::look::{Due, Look};

/// A name or a string as it is read.
pub type ReadName = Name<Items<u8>>;

/// A sign, a word or a piece: the place after it.
pub fn sign(text: &[u8], at: usize, due: Due, kind: Look) -> Result<usize, ParseFault>
    ensures { Passes (reads_sign text.now due kind at) result }
{
    if looks(text, at, due, kind) {
        Ok(end_at(text, at, due))
    } else {
        Err(ParseFault::Syntax)
    }
}

/// One of these: its class, and the place after it.
pub fn class_at(
    text: &[u8],
    at: usize,
    due: Due,
    kinds: &[Look],
) -> Result<(Look, usize), ParseFault>
    ensures { Gives (reads_class text.now due kinds.now at) result }
{
    if stands_one(text, at, due, kinds) {
        Ok((look_at(text, at, due), end_at(text, at, due)))
    } else {
        Err(ParseFault::Syntax)
    }
}

/// No part: where one of these stands the text is cut as left out, elsewhere it is no query.
pub fn left<T: Drop>(
    text: &[u8],
    at: usize,
    due: Due,
    kinds: &[Look],
) -> Result<(T, usize), ParseFault>
    ensures { Gives (reads_left text.now due kinds.now at) result }
{
    if stands_one(text, at, due, kinds) {
        Err(ParseFault::LeftOut(place(text, at)))
    } else {
        Err(ParseFault::Syntax)
    }
}

/// The bytes of the token of this kind, without what stands before it.
pub fn text_at(
    alloc: Global,
    text: &[u8],
    at: usize,
    due: Due,
    kind: Look,
) -> Result<(Items<u8>, usize), ParseFault>
    ensures { Gives (reads_text text.now due kind at) result }
{
    if !looks(text, at, due, kind) {
        return Err(ParseFault::Syntax);
    }
    let end = end_at(text, at, due);
    let found = Items::from_slice(alloc, between(text, place(text, at), end))?;
    Ok((found, end))
}

/// The token of this kind with its offset.
pub fn name(
    alloc: Global,
    text: &[u8],
    at: usize,
    due: Due,
    kind: Look,
) -> Result<(ReadName, usize), ParseFault>
    ensures { Gives (reads_name text.now due kind at) result }
{
    let (found, end) = text_at(alloc, text, at, due, kind)?;
    let name = Name {
        offset: place(text, at) as u64,
        text: found,
    };
    Ok((name, end))
}

/// Whether there is no colon in a name.
fn has_no_colon(name: &[u8]) -> bool
    ensures { result ≡ spec.has_no_colon name.now }
{
    for b in name {
        if *b == 58 {
            return false;
        }
    }
    true
}

/// NCName, whichever it is (Namespaces in XML 1.0, section 3, production 4).
pub fn ncname(alloc: Global, text: &[u8], at: usize) -> Result<(ReadName, usize), ParseFault>
    ensures { Gives (reads_ncname text.now at) result }
{
    let (found, end) = name(alloc, text, at, Due::Named, Look::Name)?;
    if !has_no_colon(found.text.as_slice()) {
        return Err(ParseFault::Syntax);
    }
    Ok((found, end))
}

/// StringLiteral: its value, with its offset (XQuery 1.0, section 3.1.1, production 144).
pub fn string(
    alloc: Global,
    text: &[u8],
    at: usize,
    due: Due,
) -> Result<(ReadName, usize), ParseFault>
    ensures { Gives (reads_string text.now due at) result }
{
    if !looks(text, at, due, Look::Quoted) {
        return Err(ParseFault::Syntax);
    }
    let end = end_at(text, at, due);
    let offset = place(text, at);
    let found = string_value(alloc, text, offset, end)?;
    Ok((
        Name {
            offset: offset as u64,
            text: found,
        },
        end,
    ))
}

/// A name in a tag, with its offset (XQuery 1.0, section 3.7.1, production 96).
pub fn tag_name(alloc: Global, text: &[u8], at: usize) -> Result<(ReadName, usize), ParseFault>
    ensures { Gives (reads_tag_name text.now at) result }
{
    if !looks(text, at, Due::Tag, Look::Name) {
        return Err(ParseFault::Syntax);
    }
    let end = end_at(text, at, Due::Tag);
    let found = Items::from_slice(alloc, between(text, at, end))?;
    Ok((
        Name {
            offset: at as u64,
            text: found,
        },
        end,
    ))
}
