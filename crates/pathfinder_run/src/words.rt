//! The words of the command line.
ghost use Rattle.std.specs.Prelude.{◌≡◌, ◌↔◌, IfOk, IsTrue, MatchOption, drop, map, string_bytes};
ghost use Rattle.xq_base.specs.Distinct.{AllDiffer, Holds};
ghost use Rattle.pathfinder_run.specs.Words.{AreWords, InForm};

use std::alloc::Global;
use std::env::Args;
use xq_base::Want;

/// Whether a word is among these.
fn holds(words: &[String], word: &str) -> bool
    ensures { IsTrue result ↔ Holds (map string_bytes words.now) word.now }
{
    for other in words {
        if other.as_str() == word {
            return true;
        }
    }
    false
}

/// Whether no word equals a later one.
fn are_different(words: &[String]) -> bool
    ensures { IsTrue result ↔ AllDiffer (map string_bytes words.now) }
{
    let mut rest = words;
    while let Some((first, more)) = rest.split_first() {
        if holds(more, first.as_str()) {
            return false;
        }
        rest = more;
    }
    true
}

/// The query's word and the documents' words, where the words are in form: `run`, one more, and others of
/// which no two are the same.
pub fn split_words(words: &[String]) -> Option<(&str, &[String])>
    ensures { MatchOption result (InForm (map string_bytes words.now) → ⊥) (λ found. AreWords (map string_bytes words.now) found.0.now (map string_bytes found.1.now)) }
{
    let (mode, rest) = words.split_first()?;
    let (query, names) = rest.split_first()?;
    if mode.as_str() == "run" && are_different(names) {
        return Some((query.as_str(), names));
    }
    None
}

/// All words of the outside.
fn all_of(alloc: Global, all: Args) -> Result<Vec<String>, Want>
    ensures { IfOk result (λ words. words.items ≡ all.rest.items) }
{
    let mut words = Vec::new(alloc);
    for word in all {
        words.push(word)?;
    }
    Ok(words)
}

/// The words behind the program's name.
pub fn all_but_first(alloc: Global, all: Args) -> Result<Vec<String>, Want>
    ensures { IfOk result (λ words. words.items ≡ drop 1 all.rest.items) }
{
    let mut words = all_of(alloc, all)?;
    if !words.is_empty() {
        let _program = words.remove(0);
    }
    Ok(words)
}
