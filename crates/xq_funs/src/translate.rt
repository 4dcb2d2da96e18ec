//! Characters in the place of others (Functions and Operators, section 7.4.9).
ghost use Rattle.std.specs.Prelude.{◌≡◌, ◌++◌, [], IfOk, IfErr, OnOk, string_bytes, drop, flat_map};
ghost use Rattle.std.specs.Str.{chars};
ghost use Rattle.xq_base.specs.Words.{text_mapped};
ghost use Rattle.xq_funs.specs.declared.fault.FunFault.TheVariants.{NoMemory};
ghost use Rattle.xq_funs.specs.Replacements.{with_entry, first_or_none, entries_from, in_place};

use crate::fault::FunFault;
use indexmap::IndexMap;
use std::alloc::{AllocError, Global};
use xq_base::HashKeys;

/// A text with the characters of a third text in the place of those at the same places of a second,
/// and without those whose place the third doesn't have. The time is linear in the three texts.
#[tactic(auto, using(crate::proofs::Replacing::mapped_law))]
pub(crate) fn translated(
    alloc: Global,
    text: &str,
    from: &str,
    to: &str,
    keys: HashKeys,
) -> Result<String, FunFault>
    ensures ok { IfOk result (λ t. string_bytes t ≡ text_mapped text.now from.now to.now) }
    ensures err { IfErr result (λ e. e ≡ NoMemory) }
{
    let table = replacements(alloc, from, to, keys)?;
    let mut out = String::new(alloc);
    match push_translated(&mut out, text, &table) {
        Ok(()) => Ok(out),
        Err(_) => Err(FunFault::NoMemory),
    }
}

/// What each character of a text becomes; none is dropped.
fn replacements(
    alloc: Global,
    from: &str,
    to: &str,
    keys: HashKeys,
) -> Result<IndexMap<char, Option<char>, HashKeys>, FunFault>
    ensures ok { IfOk result (λ m. m.entries ≡ entries_from [] (chars from.now) (chars to.now)) }
    ensures err { IfErr result (λ e. e ≡ NoMemory) }
{
    let from = characters(alloc, from)?;
    let to = characters(alloc, to)?;
    let mut table = IndexMap::with_hasher(alloc, keys);
    match fill(&mut table, &from, &to) {
        Ok(()) => Ok(table),
        Err(_) => Err(FunFault::NoMemory),
    }
}

fn characters(alloc: Global, text: &str) -> Result<Vec<char>, FunFault>
    ensures ok { IfOk result (λ v. v.items ≡ chars text.now) }
    ensures err { IfErr result (λ e. e ≡ NoMemory) }
{
    match collect_characters(alloc, text) {
        Ok(characters) => Ok(characters),
        Err(_) => Err(FunFault::NoMemory),
    }
}

fn collect_characters(alloc: Global, text: &str) -> Result<Vec<char>, AllocError>
    ensures { IfOk result (λ v. v.items ≡ chars text.now) }
{
    text.chars().collect(alloc)
}

fn fill(
    table: &mut IndexMap<char, Option<char>, HashKeys>,
    from: &[char],
    to: &[char],
) -> Result<(), FunFault>
    ensures ok { OnOk result (table.new.entries ≡ entries_from table.old.entries from.now to.now) }
    ensures err { IfErr result (λ e. e ≡ NoMemory) }
{
    for place in 0..from.len() {
        if note(table, from[place], at(to, place)).is_err() {
            return Err(FunFault::NoMemory);
        }
    }
    Ok(())
}

/// The character at a place, where there is one.
fn at(characters: &[char], place: usize) -> Option<char>
    ensures { result ≡ first_or_none (drop place characters.now) }
{
    if place < characters.len() {
        Some(characters[place])
    } else {
        None
    }
}

/// Notes what a character becomes, unless that stands.
fn note(
    table: &mut IndexMap<char, Option<char>, HashKeys>,
    c: char,
    other: Option<char>,
) -> Result<(), FunFault>
    ensures ok { OnOk result (table.new.entries ≡ with_entry table.old.entries c other) }
    ensures err { IfErr result (λ e. e ≡ NoMemory) }
{
    if table.contains_key(&c) {
        return Ok(());
    }
    match table.insert(c, other) {
        Ok(_) => Ok(()),
        Err(_) => Err(FunFault::NoMemory),
    }
}

fn push_translated(
    out: &mut String,
    text: &str,
    table: &IndexMap<char, Option<char>, HashKeys>,
) -> Result<(), AllocError>
    ensures { OnOk result (string_bytes out.new ≡ string_bytes out.old ++ flat_map (in_place table.now.entries) (chars text.now)) }
{
    for c in text.chars() {
        push_replaced(out, c, table)?;
    }
    Ok(())
}

fn push_replaced(
    out: &mut String,
    c: char,
    table: &IndexMap<char, Option<char>, HashKeys>,
) -> Result<(), AllocError>
    ensures { OnOk result (string_bytes out.new ≡ string_bytes out.old ++ in_place table.now.entries c) }
{
    match table.get(&c) {
        None => out.push(c),
        Some(None) => Ok(()),
        Some(Some(other)) => out.push(*other),
    }
}
