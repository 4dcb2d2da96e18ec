//! Runs of ASCII, which most of a document is: a run that needs no closer look is read in one pass.
ghost use Rattle.std.specs.Prelude.{◌≡◌, ◌+◌, [], length, true, IfSome, Some};
ghost use Rattle.xq_base.specs.Chars.{is_name_start};
ghost use Rattle.doc_shred.specs.Classes.{is_data_byte};
ghost use Rattle.doc_shred.specs.Rules.{starts};
ghost use Rattle.doc_shred.specs.Reading as r;

use crate::bytes::{Class, comes, some_run, split_run};
use crate::values::after_quote;
use xq_base::is_name_start;

/// Characters of data up to markup or a reference, where all are ASCII and none is `]`.
#[tactic(auto, using(crate::proofs::PlainRuns::plain_data_run, crate::proofs::PlainRuns::plain_starts))]
pub fn plain_data(bytes: &[u8]) -> Option<(&str, &[u8])>
    ensures read { IfSome result (λ x. Some (x.0.now, x.1.now) ≡ r.data_run bytes.now) }
    ensures begun { IfSome result (λ _. starts is_data_byte bytes.now ≡ true) }
{
    let (run, rest) = some_run(Class::Plain, bytes)?;
    if comes(Class::Data, rest) {
        return None;
    }
    match str::from_utf8(run) {
        Ok(text) => Some((text, rest)),
        Err(_) => None,
    }
}

/// Whether a byte that may begin a Name comes first.
fn starts_name(bytes: &[u8]) -> bool
    ensures { result ≡ starts is_name_start bytes.now }
{
    match bytes {
        [] => false,
        [first, ..] => is_name_start(*first as char),
    }
}

/// A Name of ASCII characters, where no other character follows it at once.
#[tactic(auto, using(crate::proofs::PlainRuns::plain_name_read))]
pub fn plain_name(bytes: &[u8]) -> Option<(&str, &[u8])>
    ensures { IfSome result (λ x. Some (x.0.now, x.1.now) ≡ r.name bytes.now) }
{
    let (run, rest) = split_run(Class::PlainName, bytes);
    if comes(Class::Name, rest) || !starts_name(run) {
        return None;
    }
    match str::from_utf8(run) {
        Ok(text) => Some((text, rest)),
        Err(_) => None,
    }
}

/// A value up to the closing quote, where all its characters are ASCII that stand for themselves.
#[tactic(auto, using(crate::proofs::PlainTexts::plain_value_read))]
pub fn plain_value(quote: u8, bytes: &[u8]) -> Option<(&str, &[u8])>
    ensures { IfSome result (λ x. Some (x.0.now, x.1.now) ≡ r.value_from quote [] (length bytes.now + 1) bytes.now) }
{
    let (run, rest) = some_run(Class::PlainValue(quote), bytes)?;
    let rest = after_quote(quote, rest)?;
    match str::from_utf8(run) {
        Ok(text) => Some((text, rest)),
        Err(_) => None,
    }
}
