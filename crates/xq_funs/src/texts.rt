//! Functions of texts.
ghost use Rattle.std.specs.Prelude.{◌≡◌, ◌∷◌, [], true, List, ℕ, length, Some, None};
ghost use Rattle.std.specs.Result.{ForOk};
ghost use Rattle.xq_base.specs.Answers.{Value, with_value};
ghost use Rattle.xq_base.specs.Texts.{Text};
ghost use Rattle.xq_base.specs.Words.{text_part, text_mapped};
ghost use Rattle.xq_base.specs.Atoms.{TextAtom};
ghost use Rattle.xq_base.specs.TextRules.{string_of, order_number};
ghost use Rattle.doc_table.specs.Tree.{text_in};
ghost use Rattle.doc_table.specs.Given.{is_given};
ghost use Rattle.doc_table.specs.NodeRules.{Docs};
ghost use Rattle.doc_table.specs.Functions.{fun_answer};
ghost use Rattle.doc_table.specs.Values.{item_of_atom};
ghost use Rattle.xq_base.specs.declared.fun.Fun.{Fun};
ghost use Rattle.xq_funs.specs.Answering.{answer_of, atom_in, atom_given};
ghost use Rattle.xq_funs.specs.Calls.{RuleGives, singles, gives_text};
ghost use Rattle.xq_funs.specs.Orderings.{number_of};
ghost use Rattle.xq_funs.specs.TextCalls.{is_of_text, of_text, is_of_texts, of_texts};

use crate::casts::copied;
use crate::codes::both;
use crate::computed::Computed;
use crate::fault::FunFault;
use crate::names::{element_name, target_name};
use crate::numbers::number;
use crate::search::{
    char_count, contains, ends_with, starts_with, text_after, text_before, text_between, text_from,
};
use crate::spaces::normalized;
use crate::translate::translated;
use std::alloc::Global;
use std::cmp::Ordering;
use xq_base::{Atom, Code, Fun, HashKeys, Pool, TextId};

/// The text of a string or an untyped value.
pub(crate) fn string_id(atom: Atom) -> Result<TextId, Code>
    ensures value { (texts : List Text) → with_value (text_in texts) (answer_of result) ≡ string_of (atom_in texts atom) }
    ensures given { (n : ℕ) → atom_given n atom ≡ true → ForOk result (λ id. is_given n id ≡ true) }
{
    match atom {
        Atom::Str(text) | Atom::Untyped(text) => Ok(text),
        _ => Err(Code::XPTY0004),
    }
}

/// A function of one text.
pub(crate) fn call_text(alloc: Global, fun: Fun, a: Atom, pool: &Pool) -> Result<Computed, FunFault>
    requires fun { is_of_text fun ≡ true }
    requires given { atom_given (length pool.now) a ≡ true }
    ensures { (docs : Docs) → RuleGives (gives_text fun) pool.now (fun_answer docs fun (singles pool.now (a ∷ []))) result }
{
    match string_id(a) {
        Ok(text) => text_value(alloc, fun, pool.text(text)),
        Err(code) => Err(FunFault::Code(code)),
    }
}

fn text_value(alloc: Global, fun: Fun, text: &str) -> Result<Computed, FunFault>
    requires { is_of_text fun ≡ true }
    ensures { (texts : List Text) → RuleGives (gives_text fun) texts (with_value (λ b. item_of_atom b ∷ []) (of_text fun text.now)) result }
{
    match fun {
        Fun::StringLength => Ok(Computed::Number(char_count(text) as i64)),
        Fun::NormalizeSpace => Ok(Computed::Text(normalized(alloc, text)?)),
        Fun::QName => element_name(alloc, text),
        Fun::PiTarget => target_name(alloc, text),
        _ => unreachable!(),
    }
}

/// A function of two texts.
pub(crate) fn call_texts(
    alloc: Global,
    fun: Fun,
    a: Atom,
    b: Atom,
    pool: &Pool,
) -> Result<Computed, FunFault>
    requires fun { is_of_texts fun ≡ true }
    requires given_a { atom_given (length pool.now) a ≡ true }
    requires given_b { atom_given (length pool.now) b ≡ true }
    ensures { (docs : Docs) → RuleGives (gives_text fun) pool.now (fun_answer docs fun (singles pool.now (a ∷ b ∷ []))) result }
{
    match both(string_id(a), string_id(b)) {
        Ok((t, u)) => texts_value(alloc, fun, pool.text(t), pool.text(u)),
        Err(code) => Err(FunFault::Code(code)),
    }
}

fn texts_value(alloc: Global, fun: Fun, t: &str, u: &str) -> Result<Computed, FunFault>
    requires { is_of_texts fun ≡ true }
    ensures { (texts : List Text) → RuleGives (gives_text fun) texts (Value (item_of_atom (of_texts fun t.now u.now) ∷ [])) result }
{
    match fun {
        Fun::Contains => Ok(Computed::Truth(contains(t, u))),
        Fun::StartsWith => Ok(Computed::Truth(starts_with(t, u))),
        Fun::EndsWith => Ok(Computed::Truth(ends_with(t, u))),
        Fun::SubstringBefore => Ok(Computed::Text(copied(alloc, text_before(t, u))?)),
        Fun::SubstringAfter => Ok(Computed::Text(copied(alloc, text_after(t, u))?)),
        Fun::Compare => Ok(Computed::Number(order_number(t, u))),
        _ => unreachable!(),
    }
}

/// How two texts stand, as a number (Functions and Operators, section 7.3.2).
#[tactic(auto, using(crate::proofs::Ordered::order_law))]
fn order_number(t: &str, u: &str) -> i64
    ensures { result ≡ order_number t.now u.now }
{
    number_of(t.cmp(u))
}

fn number_of(order: Ordering) -> i64
    ensures { result ≡ number_of order }
{
    match order {
        Ordering::Less => -1,
        Ordering::Equal => 0,
        Ordering::Greater => 1,
    }
}

/// `substring` without a length.
pub(crate) fn call_substring_from(
    alloc: Global,
    a: Atom,
    b: Atom,
    pool: &Pool,
) -> Result<Computed, FunFault>
    requires given_a { atom_given (length pool.now) a ≡ true }
    requires given_b { atom_given (length pool.now) b ≡ true }
    ensures { (docs : Docs) → RuleGives true pool.now (fun_answer docs Fun.Substring (singles pool.now (a ∷ b ∷ []))) result }
{
    match both(string_id(a), number(b, pool)) {
        Ok((text, start)) => from_value(alloc, pool.text(text), start),
        Err(code) => Err(FunFault::Code(code)),
    }
}

fn from_value(alloc: Global, text: &str, start: i64) -> Result<Computed, FunFault>
    ensures { (texts : List Text) → RuleGives true texts (Value (item_of_atom (TextAtom (text_part text.now start None)) ∷ [])) result }
{
    Ok(Computed::Text(text_from(alloc, text, start)?))
}

/// `substring` with a length.
pub(crate) fn call_substring(
    alloc: Global,
    a: Atom,
    b: Atom,
    c: Atom,
    pool: &Pool,
) -> Result<Computed, FunFault>
    requires given_a { atom_given (length pool.now) a ≡ true }
    requires given_b { atom_given (length pool.now) b ≡ true }
    requires given_c { atom_given (length pool.now) c ≡ true }
    ensures { (docs : Docs) → RuleGives true pool.now (fun_answer docs Fun.Substring (singles pool.now (a ∷ b ∷ c ∷ []))) result }
{
    match both(both(string_id(a), number(b, pool)), number(c, pool)) {
        Ok(((text, start), length)) => between_value(alloc, pool.text(text), start, length),
        Err(code) => Err(FunFault::Code(code)),
    }
}

fn between_value(alloc: Global, text: &str, start: i64, length: i64) -> Result<Computed, FunFault>
    ensures { (texts : List Text) → RuleGives true texts (Value (item_of_atom (TextAtom (text_part text.now start (Some length))) ∷ [])) result }
{
    Ok(Computed::Text(text_between(alloc, text, start, length)?))
}

/// `translate`.
pub(crate) fn call_translate(
    alloc: Global,
    a: Atom,
    b: Atom,
    c: Atom,
    pool: &Pool,
) -> Result<Computed, FunFault>
    requires given_a { atom_given (length pool.now) a ≡ true }
    requires given_b { atom_given (length pool.now) b ≡ true }
    requires given_c { atom_given (length pool.now) c ≡ true }
    ensures { (docs : Docs) → RuleGives true pool.now (fun_answer docs Fun.Translate (singles pool.now (a ∷ b ∷ c ∷ []))) result }
{
    match both(both(string_id(a), string_id(b)), string_id(c)) {
        Ok(((text, from), to)) => {
            let keys = pool.keys();
            translated_value(alloc, pool.text(text), pool.text(from), pool.text(to), keys)
        }
        Err(code) => Err(FunFault::Code(code)),
    }
}

fn translated_value(
    alloc: Global,
    text: &str,
    from: &str,
    to: &str,
    keys: HashKeys,
) -> Result<Computed, FunFault>
    ensures { (texts : List Text) → RuleGives true texts (Value (item_of_atom (TextAtom (text_mapped text.now from.now to.now)) ∷ [])) result }
{
    Ok(Computed::Text(translated(alloc, text, from, to, keys)?))
}
