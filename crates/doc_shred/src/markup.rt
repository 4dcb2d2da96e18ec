//! Names, references, comments, instructions and tags.
ghost use Rattle.std.specs.Prelude.{◌≡◌, ◌<◌, length, Some, None, if◌then◌else◌};
ghost use Rattle.doc_shred.specs.Parsers.{before_first};
ghost use Rattle.doc_shred.specs.Classes.{is_xml};
ghost use Rattle.doc_shred.specs.Rules.{holds};
ghost use Rattle.doc_shred.specs.Reading as r;
ghost use Rattle.doc_shred.specs.Views.{pair_of, silent, target_of, flag_of};

use crate::bytes::{Class, comes, comes_word, some_run, split_run, strip};
use crate::plain::{plain_data, plain_name};
use crate::texts::{characters, name_text};

/// The bytes before the first place where a word stands, and what follows the word.
fn before_first<'a>(word: &[u8], bytes: &'a [u8]) -> Option<(&'a [u8], &'a [u8])>
    requires { 0 < length word.now }
    ensures { pair_of result ≡ before_first word.now bytes.now }
{
    for at in 0..bytes.len() {
        if let Some(rest) = strip(word, &bytes[at..]) {
            return Some((&bytes[..at], rest));
        }
    }
    None
}

/// White space, of which there is some.
pub fn space(bytes: &[u8]) -> Option<(&[u8], &[u8])>
    ensures { pair_of result ≡ r.space bytes.now }
{
    some_run(Class::Blank, bytes)
}

/// A Name of any characters (XML 1.0, section 2.3, production 5).
#[tactic(auto, unfolding(crate::specs::Reading::name))]
fn any_name(bytes: &[u8]) -> Option<(&str, &[u8])>
    ensures { pair_of result ≡ r.name bytes.now }
{
    let (run, rest) = split_run(Class::Name, bytes);
    let name = name_text(run)?;
    Some((name, rest))
}

/// A Name (XML 1.0, section 2.3, production 5).
pub fn name(bytes: &[u8]) -> Option<(&str, &[u8])>
    ensures { pair_of result ≡ r.name bytes.now }
{
    match plain_name(bytes) {
        Some(read) => Some(read),
        None => any_name(bytes),
    }
}

/// '=' with white space round it (XML 1.0, section 2.8, production 25).
#[tactic(auto, unfolding(crate::specs::Reading::equals))]
pub fn equals(bytes: &[u8]) -> Option<(&[u8], &[u8])>
    ensures { pair_of result ≡ r.equals bytes.now }
{
    let (_, rest) = split_run(Class::Blank, bytes);
    let rest = strip(b"=", rest)?;
    Some(split_run(Class::Blank, rest))
}

/// A comment, with its characters (XML 1.0, section 2.5, production 15).
#[tactic(auto, unfolding(crate::specs::Reading::comment))]
pub fn comment(bytes: &[u8]) -> Option<(&str, &[u8])>
    ensures { pair_of result ≡ r.comment bytes.now }
{
    let rest = strip(b"<!--", bytes)?;
    let (inner, rest) = before_first(b"--", rest)?;
    let value = characters(inner)?;
    let rest = strip(b">", rest)?;
    Some((value, rest))
}

/// What follows the name of an instruction (XML 1.0, section 2.6, production 16).
#[tactic(auto, unfolding(crate::specs::Reading::instruction_value))]
fn instruction_value(bytes: &[u8]) -> Option<(&str, &[u8])>
    ensures { pair_of result ≡ r.instruction_value bytes.now }
{
    if comes_word(b"?>", bytes) {
        let rest = strip(b"?>", bytes)?;
        return Some(("", rest));
    }
    let (_, rest) = space(bytes)?;
    let (inner, rest) = before_first(b"?>", rest)?;
    let value = characters(inner)?;
    Some((value, rest))
}

/// Whether a name is "xml" in any case.
#[tactic(auto, unfolding(crate::specs::Classes::is_xml))]
fn is_xml(name: &str) -> bool
    ensures { result ≡ is_xml name.now }
{
    name.eq_ignore_ascii_case("xml")
}

/// An instruction, with its name and value (XML 1.0, section 2.6, productions 16 and 17).
#[tactic(auto, unfolding(crate::specs::Reading::instruction))]
pub fn instruction(bytes: &[u8]) -> Option<((&str, &str), &[u8])>
    ensures { target_of result ≡ r.instruction bytes.now }
{
    let rest = strip(b"<?", bytes)?;
    let (target, rest) = name(rest)?;
    if is_xml(target) {
        return None;
    }
    let (value, rest) = instruction_value(rest)?;
    Some(((target, value), rest))
}

/// A section of characters that are no markup (XML 1.0, section 2.7, productions 18 to 21).
#[tactic(auto, unfolding(crate::specs::Reading::cdata))]
pub fn cdata(bytes: &[u8]) -> Option<(&str, &[u8])>
    ensures { pair_of result ≡ r.cdata bytes.now }
{
    let rest = strip(b"<![CDATA[", bytes)?;
    let (inner, rest) = before_first(b"]]>", rest)?;
    let value = characters(inner)?;
    Some((value, rest))
}

/// Any characters among which neither markup nor a reference begins (XML 1.0, section 2.4, production
/// 14).
#[tactic(auto, unfolding(crate::specs::Reading::data_run, crate::specs::Classes::are_data))]
fn any_data(bytes: &[u8]) -> Option<(&str, &[u8])>
    ensures { pair_of result ≡ r.data_run bytes.now }
{
    let (run, rest) = some_run(Class::Data, bytes)?;
    let value = characters(run)?;
    if has_word(b"]]>", run) {
        return None;
    }
    Some((value, rest))
}

/// Characters among which neither markup nor a reference begins (XML 1.0, section 2.4, production 14).
pub fn data_run(bytes: &[u8]) -> Option<(&str, &[u8])>
    ensures { pair_of result ≡ r.data_run bytes.now }
{
    match plain_data(bytes) {
        Some(read) => Some(read),
        None => any_data(bytes),
    }
}

/// Whether a word stands somewhere in the bytes.
fn has_word(word: &[u8], bytes: &[u8]) -> bool
    requires { 0 < length word.now }
    ensures { result ≡ holds word.now bytes.now }
{
    for at in 0..bytes.len() {
        if comes_word(word, &bytes[at..]) {
            return true;
        }
    }
    false
}

/// The end of a start tag, and whether it is that of an element without content (XML 1.0, section
/// 3.1, productions 40 and 44).
#[tactic(auto, unfolding(crate::specs::Reading::tag_end))]
pub fn tag_end(bytes: &[u8]) -> Option<(bool, &[u8])>
    ensures { flag_of result ≡ r.tag_end bytes.now }
{
    let (_, rest) = split_run(Class::Blank, bytes);
    if comes_word(b">", rest) {
        let rest = strip(b">", rest)?;
        return Some((false, rest));
    }
    let rest = strip(b"/>", rest)?;
    Some((true, rest))
}

/// An end tag, with its name (XML 1.0, section 3.1, production 42).
#[tactic(auto, unfolding(crate::specs::Reading::end_tag))]
pub fn end_tag(bytes: &[u8]) -> Option<(&str, &[u8])>
    ensures { pair_of result ≡ r.end_tag bytes.now }
{
    let rest = strip(b"</", bytes)?;
    let (name, rest) = name(rest)?;
    let (_, rest) = split_run(Class::Blank, rest);
    let rest = strip(b">", rest)?;
    Some((name, rest))
}

/// Whether white space and a name come next, as an attribute begins.
pub fn has_attribute(bytes: &[u8]) -> bool
    ensures { result ≡ r.has_attribute bytes.now }
{
    let (_, rest) = split_run(Class::Blank, bytes);
    comes(Class::Name, rest)
}
