//! Bytes that spell characters or names.
ghost use Rattle.std.specs.Prelude.{◌≡◌, Some, None, if◌then◌else◌};
ghost use Rattle.std.specs.List.{list_all};
ghost use Rattle.std.specs.Str.{chars};
ghost use Rattle.xq_base.specs.Chars.{is_char};
ghost use Rattle.doc_shred.specs.Classes.{are_chars, is_name_text};
ghost use Rattle.doc_shred.specs.Views.{lent_of};

use xq_base::{is_char, is_name};

/// Whether all characters of a text are characters of XML.
fn all_chars(text: &str) -> bool
    ensures { result ≡ list_all is_char (chars text.now) }
{
    for c in text.chars() {
        if !is_char(c) {
            return false;
        }
    }
    true
}

/// The text that bytes spell, where they are UTF-8 of characters of XML.
#[tactic(auto, unfolding(crate::specs::Classes::are_chars), using(crate::proofs::Spelled::spelled, crate::proofs::Spelled::not_spelled))]
pub fn characters(bytes: &[u8]) -> Option<&str>
    ensures { lent_of result ≡ (if are_chars bytes.now then Some bytes.now else None) }
{
    match str::from_utf8(bytes) {
        Ok(text) => { if all_chars(text) { Some(text) } else { None } }
        Err(_) => None,
    }
}

/// The Name that bytes spell, where they spell one.
#[tactic(auto, unfolding(crate::specs::Classes::is_name_text), using(crate::proofs::Spelled::spelled, crate::proofs::Spelled::not_spelled))]
pub fn name_text(bytes: &[u8]) -> Option<&str>
    ensures { lent_of result ≡ (if is_name_text bytes.now then Some bytes.now else None) }
{
    match str::from_utf8(bytes) {
        Ok(text) => { if is_name(text) { Some(text) } else { None } }
        Err(_) => None,
    }
}
