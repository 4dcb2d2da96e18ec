//! Names that texts give.
ghost use Rattle.std.specs.Prelude.{◌≡◌, ◌<◌, ◌∷◌, [], true, List, codes, length, reverse};
ghost use Rattle.xq_base.specs.Answers.{with_value};
ghost use Rattle.xq_base.specs.Atoms.{TextAtom};
ghost use Rattle.xq_base.specs.Texts.{Text, text_eq, trimmed, trimmed_start};
ghost use Rattle.doc_table.specs.Content.{as_qname, as_target, lowered};
ghost use Rattle.doc_table.specs.Values.{item_of_atom};
ghost use Rattle.xq_funs.specs.Calls.{RuleGives};
ghost use Rattle.xq_funs.specs.Trims.{begins_blank, ends_blank};

use crate::casts::copied;
use crate::computed::Computed;
use crate::fault::FunFault;
use crate::spaces::is_space;
use std::alloc::Global;
use xq_base::{Code, is_ncname, is_qname};

/// The name of an element or attribute (XQuery 1.0, sections 3.7.3.1 and 3.7.3.2).
pub(crate) fn element_name(alloc: Global, text: &str) -> Result<Computed, FunFault>
    ensures { (texts : List Text) → RuleGives true texts (with_value (λ b. item_of_atom b ∷ []) (with_value TextAtom (as_qname (trimmed text.now)))) result }
{
    let name = trim(text);
    if !is_qname(name) {
        return Err(FunFault::Code(Code::XQDY0074));
    }
    Ok(Computed::Text(copied(alloc, name)?))
}

/// The target of an instruction (XQuery 1.0, section 3.7.3.5).
pub(crate) fn target_name(alloc: Global, text: &str) -> Result<Computed, FunFault>
    ensures { (texts : List Text) → RuleGives true texts (with_value (λ b. item_of_atom b ∷ []) (with_value TextAtom (as_target (trimmed text.now)))) result }
{
    let name = trim(text);
    if !is_ncname(name) {
        return Err(FunFault::Code(Code::XQDY0041));
    }
    if is_xml(name) {
        return Err(FunFault::Code(Code::XQDY0064));
    }
    Ok(Computed::Text(copied(alloc, name)?))
}

/// Whether a name is `xml` in any letter case.
fn is_xml(name: &str) -> bool
    ensures { result ≡ text_eq (lowered name.now) (codes "xml") }
{
    name.eq_ignore_ascii_case("xml")
}

/// A text without white space at its ends.
fn trim(text: &str) -> &str
    ensures { result.now ≡ trimmed text.now }
{
    before_blanks(after_blanks(text))
}

#[tactic(auto, using(crate::proofs::TrimLemmas::trimmed_done))]
fn after_blanks(text: &str) -> &str
    ensures { result.now ≡ trimmed_start text.now }
{
    let mut rest = text;
    while begins_blank(rest) {
        rest = without_first(rest);
    }
    rest
}

#[tactic(auto, using(crate::proofs::TrimLemmas::untrimmed_back))]
fn before_blanks(text: &str) -> &str
    ensures { result.now ≡ reverse (trimmed_start (reverse text.now)) }
{
    let mut rest = text;
    while ends_blank(rest) {
        rest = without_last(rest);
    }
    rest
}

#[tactic(auto, using(crate::proofs::TrimLemmas::blank_first, crate::proofs::TrimLemmas::cut_first, crate::proofs::TrimLemmas::trimmed_more))]
fn without_first(text: &str) -> &str
    requires { begins_blank text.now ≡ true }
    ensures trimmed { trimmed_start result.now ≡ trimmed_start text.now }
    ensures shorter { length result.now < length text.now }
{
    &text[1..]
}

#[tactic(auto, using(crate::proofs::TrimLemmas::blank_last, crate::proofs::TrimLemmas::cut_last, crate::proofs::TrimLemmas::trimmed_back))]
fn without_last(text: &str) -> &str
    requires { ends_blank text.now ≡ true }
    ensures trimmed { trimmed_start (reverse result.now) ≡ trimmed_start (reverse text.now) }
    ensures shorter { length result.now < length text.now }
{
    &text[..text.len() - 1]
}

/// Whether a text begins with white space.
fn begins_blank(text: &str) -> bool
    ensures { result ≡ begins_blank text.now }
{
    match text.as_bytes() {
        [byte, ..] => is_space(*byte),
        [] => false,
    }
}

/// Whether a text ends with white space.
fn ends_blank(text: &str) -> bool
    ensures { result ≡ ends_blank text.now }
{
    match text.as_bytes() {
        [.., byte] => is_space(*byte),
        [] => false,
    }
}
