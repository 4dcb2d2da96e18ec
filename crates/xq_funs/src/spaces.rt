//! White space.
ghost use Rattle.std.specs.Prelude.{◌≡◌, ◌++◌, [], reverse, string_bytes, IfOk, IfErr, OnOk};
ghost use Rattle.xq_base.specs.Texts.{is_space, trimmed, trimmed_start};
ghost use Rattle.xq_base.specs.Words.{space_normalized};
ghost use Rattle.xq_funs.specs.declared.fault.FunFault.TheVariants.{NoMemory};
ghost use Rattle.xq_funs.specs.Gaps.{behind_space, before_char, spaced};

use crate::fault::FunFault;
use std::alloc::{AllocError, Global};

/// Whether a byte is white space (XML 1.0, section 2.3).
pub(crate) fn is_space(byte: u8) -> bool
    ensures { result ≡ is_space byte }
{
    matches!(byte, b' ' | b'\t' | b'\n' | b'\r')
}

/// A text without white space at its start.
fn after_spaces(bytes: &[u8]) -> &[u8]
    ensures { result.now ≡ trimmed_start bytes.now }
{
    let mut rest = bytes;
    while let [byte, after @ ..] = rest {
        if !is_space(*byte) {
            return rest;
        }
        rest = after;
    }
    rest
}

/// A text without white space at its end.
fn before_spaces(bytes: &[u8]) -> &[u8]
    ensures { result.now ≡ reverse (trimmed_start (reverse bytes.now)) }
{
    let mut rest = bytes;
    while let [before @ .., byte] = rest {
        if !is_space(*byte) {
            return rest;
        }
        rest = before;
    }
    rest
}

/// A text without white space at its ends.
pub(crate) fn trim_spaces(bytes: &[u8]) -> &[u8]
    ensures { result.now ≡ trimmed bytes.now }
{
    before_spaces(after_spaces(bytes))
}

/// Where the text that is written stands: before its first word, in a word, or behind one, so that a
/// blank is due before the next.
#[derive(Clone, Copy)]
pub(crate) enum Gap {
    Start,
    Inside,
    Due,
}

/// A text without white space at its ends and with one blank for each run of it inside (Functions and
/// Operators, section 7.4.5).
pub(crate) fn normalized(alloc: Global, text: &str) -> Result<String, FunFault>
    ensures ok { IfOk result (λ t. string_bytes t ≡ space_normalized text.now) }
    ensures err { IfErr result (λ e. e ≡ NoMemory) }
{
    let mut out = String::new(alloc);
    match push_words(&mut out, text) {
        Ok(()) => Ok(out),
        Err(_) => Err(FunFault::NoMemory),
    }
}

/// Writes the words of a text.
fn push_words(out: &mut String, text: &str) -> Result<(), AllocError>
    requires { string_bytes out.old ≡ [] }
    ensures { OnOk result (string_bytes out.new ≡ space_normalized text.now) }
{
    let mut gap = Gap::Start;
    for c in text.chars() {
        gap = push_spaced(out, gap, c)?;
    }
    Ok(())
}

/// Writes a character, or nothing for white space.
fn push_spaced(out: &mut String, gap: Gap, c: char) -> Result<Gap, AllocError>
    ensures { IfOk result (λ g. (string_bytes out.new, g) ≡ spaced (string_bytes out.old, gap) c) }
{
    if is_space_char(c) {
        return Ok(behind_space(gap));
    }
    push_gap(out, gap)?;
    out.push(c)?;
    Ok(Gap::Inside)
}

/// Writes the blank that is due.
fn push_gap(out: &mut String, gap: Gap) -> Result<(), AllocError>
    ensures { OnOk result (string_bytes out.new ≡ string_bytes out.old ++ before_char gap) }
{
    match gap {
        Gap::Start | Gap::Inside => Ok(()),
        Gap::Due => out.push_str(" "),
    }
}

fn behind_space(gap: Gap) -> Gap
    ensures { result ≡ behind_space gap }
{
    match gap {
        Gap::Start => Gap::Start,
        Gap::Inside | Gap::Due => Gap::Due,
    }
}

/// Whether a character is white space.
fn is_space_char(c: char) -> bool
    ensures { result ≡ is_space c }
{
    matches!(c, ' ' | '\t' | '\n' | '\r')
}
