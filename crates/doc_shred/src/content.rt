//! Texts between pieces of markup.
ghost use Rattle.std.specs.Prelude.{◌≡◌, ◌+◌, [], length, string_bytes, IfSome, Some};
ghost use Rattle.std.specs.Cow.{cow_str_bytes};
ghost use Rattle.doc_shred.specs.Outcomes.{IsRead};
ghost use Rattle.doc_shred.specs.Parsers.{fronted};
ghost use Rattle.doc_shred.specs.Reading as r;

use crate::bytes::{Class, comes, comes_word};
use crate::fault::Fault;
use crate::markup::{cdata, data_run};
use crate::plain::plain_data;
use crate::references::reference;
use std::alloc::Global;
use std::borrow::CowStr;

/// Whether characters, a reference or a section of characters comes next.
fn has_text(bytes: &[u8]) -> bool
    ensures { result ≡ r.has_text bytes.now }
{
    comes(Class::Quoted(b'<'), bytes) || comes_word(b"<![CDATA[", bytes)
}

/// Adds the characters, the reference or the section of characters that comes next.
#[tactic(auto, unfolding(crate::specs::Reading::text_part))]
fn text_part<'a>(text: &mut String, bytes: &'a [u8]) -> Result<&'a [u8], Fault>
    ensures { IsRead (λ rest. (string_bytes text.new, rest.now)) (fronted (string_bytes text.old) (r.text_part bytes.now)) result }
{
    if comes(Class::Data, bytes) {
        let Some((run, rest)) = data_run(bytes) else {
            return Err(Fault::Malformed);
        };
        text.push_str(run)?;
        return Ok(rest);
    }
    if comes_word(b"&", bytes) {
        let Some((c, rest)) = reference(bytes) else {
            return Err(Fault::Malformed);
        };
        text.push(c)?;
        return Ok(rest);
    }
    let Some((section, rest)) = cdata(bytes) else {
        return Err(Fault::Malformed);
    };
    text.push_str(section)?;
    Ok(rest)
}

/// The text before the next piece of other markup, put together from its parts, and what follows it.
#[tactic(auto, unfolding(crate::specs::Reading::text_run))]
fn text_parts(alloc: Global, bytes: &[u8]) -> Result<(String, &[u8]), Fault>
    ensures { IsRead (λ x. (string_bytes x.0, x.1.now)) (r.text_run bytes.now) result }
{
    let mut text = String::new(alloc);
    let mut rest = bytes;
    for _turn in 0..bytes.len() + 1 {
        if !has_text(rest) {
            return Ok((text, rest));
        }
        match text_part(&mut text, rest) {
            Err(error) => return Err(error),
            Ok(after) => rest = after,
        }
    }
    Err(Fault::Malformed)
}

/// A text of one part, where that needs no closer look, and what follows it.
#[tactic(auto, using(crate::proofs::PlainTexts::plain_text_read))]
fn plain_text(bytes: &[u8]) -> Option<(&str, &[u8])>
    ensures { IfSome result (λ x. Some (x.0.now, x.1.now) ≡ r.text_run bytes.now) }
{
    let (text, rest) = plain_data(bytes)?;
    if has_text(rest) {
        return None;
    }
    Some((text, rest))
}

/// The text before the next piece of other markup, and what follows it.
pub fn text_run(alloc: Global, bytes: &[u8]) -> Result<(CowStr<'_>, &[u8]), Fault>
    ensures { IsRead (λ x. (cow_str_bytes x.0, x.1.now)) (r.text_run bytes.now) result }
{
    match plain_text(bytes) {
        Some((text, rest)) => Ok((CowStr::Borrowed(text), rest)),
        None => match text_parts(alloc, bytes) {
            Err(error) => Err(error),
            Ok((text, rest)) => Ok((CowStr::Owned(text), rest)),
        },
    }
}
