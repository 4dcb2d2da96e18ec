//! Parts of texts (Functions and Operators, sections 7.4 and 7.5).
ghost use Rattle.std.specs.Prelude.{◌≡◌, ◌^◌, ◌<◌, Some, None, MatchOption, IfOk, IfErr, string_bytes, ◌+ℤ◌, take, drop};
ghost use Rattle.std.specs.Str.{chars, encode_utf8_all};
ghost use Rattle.xq_base.specs.Words.{parted, contains, starts_with, ends_with, text_before, text_after, local_part, char_count, text_part};
ghost use Rattle.xq_funs.specs.declared.fault.FunFault.TheVariants.{NoMemory};
ghost use Rattle.xq_funs.specs.Windows.{natural, skipped, selected};

use crate::fault::FunFault;
use std::alloc::{AllocError, Global};

/// What stands before and behind the first occurrence of a text, where it occurs. The time is linear
/// in both texts, whatever they are.
pub(crate) fn part_at<'a>(text: &'a str, part: &str) -> Option<(&'a str, &'a str)>
    ensures { MatchOption result (parted text.now part.now ≡ None) (λ p. parted text.now part.now ≡ Some (p.0.now, p.1.now)) }
{
    text.split_once(part)
}

/// Whether a text occurs in another.
pub(crate) fn contains(text: &str, part: &str) -> bool
    ensures { result ≡ contains text.now part.now }
{
    match part_at(text, part) {
        Some(_) => true,
        None => false,
    }
}

/// Whether a text begins with another.
#[tactic(auto, using(crate::proofs::Parted::starts_same))]
pub(crate) fn starts_with(text: &str, part: &str) -> bool
    ensures { result ≡ starts_with text.now part.now }
{
    text.as_bytes().starts_with(part.as_bytes())
}

/// Whether a text ends with another.
#[tactic(auto, using(crate::proofs::Parted::ends_same))]
pub(crate) fn ends_with(text: &str, part: &str) -> bool
    ensures { result ≡ ends_with text.now part.now }
{
    text.as_bytes().ends_with(part.as_bytes())
}

/// What stands before the first occurrence of a text, or nothing.
pub(crate) fn text_before<'a>(text: &'a str, part: &str) -> &'a str
    ensures { result.now ≡ text_before text.now part.now }
{
    match part_at(text, part) {
        Some((before, _)) => before,
        None => "",
    }
}

/// What stands behind the first occurrence of a text, or nothing.
pub(crate) fn text_after<'a>(text: &'a str, part: &str) -> &'a str
    ensures { result.now ≡ text_after text.now part.now }
{
    match part_at(text, part) {
        Some((_, after)) => after,
        None => "",
    }
}

/// The part of a name behind its first `:`, or all of it (section 14.2).
pub(crate) fn local_part(name: &str) -> &str
    ensures { result.now ≡ local_part name.now }
{
    match part_at(name, ":") {
        Some((_, after)) => after,
        None => name,
    }
}

/// The number of characters.
pub(crate) fn char_count(text: &str) -> usize
    ensures value { result ≡ char_count text.now }
    ensures small { result < 2 ^ 63 }
{
    text.chars().count()
}

/// The characters from a place on, the first of a text having place 1.
#[tactic(auto, using(crate::proofs::Windows::part_from))]
pub(crate) fn text_from(alloc: Global, text: &str, start: i64) -> Result<String, FunFault>
    ensures ok { IfOk result (λ t. string_bytes t ≡ text_part text.now start None) }
    ensures err { IfErr result (λ e. e ≡ NoMemory) }
{
    match characters_from(alloc, text, skipped(start)) {
        Ok(part) => Ok(part),
        Err(_) => Err(FunFault::NoMemory),
    }
}

fn characters_from(alloc: Global, text: &str, skip: usize) -> Result<String, AllocError>
    ensures { IfOk result (λ t. string_bytes t ≡ encode_utf8_all (drop skip (chars text.now))) }
{
    text.chars().skip(skip).collect(alloc)
}

/// The characters from a place on and before the sum of that place and a length.
#[tactic(auto, using(crate::proofs::Windows::part_between))]
pub(crate) fn text_between(
    alloc: Global,
    text: &str,
    start: i64,
    length: i64,
) -> Result<String, FunFault>
    ensures ok { IfOk result (λ t. string_bytes t ≡ text_part text.now start (Some length)) }
    ensures err { IfErr result (λ e. e ≡ NoMemory) }
{
    match characters_between(alloc, text, skipped(start), selected(start, length)) {
        Ok(part) => Ok(part),
        Err(_) => Err(FunFault::NoMemory),
    }
}

fn characters_between(
    alloc: Global,
    text: &str,
    skip: usize,
    count: usize,
) -> Result<String, AllocError>
    ensures { IfOk result (λ t. string_bytes t ≡ encode_utf8_all (take count (drop skip (chars text.now)))) }
{
    text.chars().skip(skip).take(count).collect(alloc)
}

/// How many characters stand before the first place that a start selects.
fn skipped(start: i64) -> usize
    ensures { result ≡ skipped start }
{
    if start > 0 { start as usize - 1 } else { 0 }
}

/// How many characters are selected from there on.
fn selected(start: i64, length: i64) -> usize
    ensures { result ≡ selected start length }
{
    end_of(start, length).saturating_sub(skipped(start) + 1)
}

/// The place behind the last one that is selected, which may be beyond 64 bits with a sign.
fn end_of(start: i64, length: i64) -> usize
    ensures { result ≡ natural (start +ℤ length) }
{
    let end = i128::from(start) + i128::from(length);
    if end > 0 { end as usize } else { 0 }
}
