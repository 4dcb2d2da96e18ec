//! Casts of atomic values.
ghost use Rattle.std.specs.Prelude.{◌≡◌, ◌∷◌, [], true, false, length, List, string_bytes, IfOk, IfErr};
ghost use Rattle.std.specs.Fmt.{signed_decimal};
ghost use Rattle.xq_base.specs.declared.fun.AtomKind.{AtomKind};
ghost use Rattle.xq_base.specs.Texts.{Text, integer_in, boolean_in};
ghost use Rattle.doc_table.specs.Tree.{text_in};
ghost use Rattle.doc_table.specs.Given.{is_given};
ghost use Rattle.xq_funs.specs.declared.fault.FunFault.TheVariants.{NoMemory};
ghost use Rattle.xq_base.specs.Answers.{with_value};
ghost use Rattle.xq_base.specs.Atoms.{IntAtom, BoolAtom, spelled, cast_atom, bool_text};
ghost use Rattle.doc_table.specs.Values.{item_of_atom};
ghost use Rattle.xq_funs.specs.Answering.{atom_in, atom_given};
ghost use Rattle.xq_funs.specs.Calls.{RuleGives, makes_text};

use crate::computed::Computed;
use crate::fault::FunFault;
use crate::numerals::{boolean_in, integer_in};
use itoa::Buffer;
use std::alloc::Global;
use xq_base::{Atom, AtomKind, Code, Pool, TextId};

/// The cast of an atomic value to a kind (Functions and Operators, section 17.1).
pub(crate) fn cast(
    alloc: Global,
    kind: AtomKind,
    atom: Atom,
    pool: &Pool,
) -> Result<Computed, FunFault>
    requires { atom_given (length pool.now) atom ≡ true }
    ensures { RuleGives (makes_text kind) pool.now (with_value (λ b. item_of_atom b ∷ []) (cast_atom kind (atom_in pool.now atom))) result }
{
    match kind {
        AtomKind::Integer => cast_to_integer(atom, pool),
        AtomKind::Boolean => cast_to_boolean(atom, pool),
        AtomKind::Text => cast_to_text(alloc, atom),
        AtomKind::Untyped => cast_to_untyped(alloc, atom),
    }
}

fn cast_to_integer(atom: Atom, pool: &Pool) -> Result<Computed, FunFault>
    requires { atom_given (length pool.now) atom ≡ true }
    ensures { RuleGives false pool.now (with_value (λ b. item_of_atom b ∷ []) (cast_atom AtomKind.Integer (atom_in pool.now atom))) result }
{
    match atom {
        Atom::Int(_) => Ok(Computed::Same(atom)),
        Atom::Bool(truth) => Ok(Computed::Number(if truth { 1 } else { 0 })),
        Atom::Str(text) | Atom::Untyped(text) => spelled_integer(text, pool),
    }
}

fn cast_to_boolean(atom: Atom, pool: &Pool) -> Result<Computed, FunFault>
    requires { atom_given (length pool.now) atom ≡ true }
    ensures { RuleGives false pool.now (with_value (λ b. item_of_atom b ∷ []) (cast_atom AtomKind.Boolean (atom_in pool.now atom))) result }
{
    match atom {
        Atom::Int(number) => Ok(Computed::Truth(number != 0)),
        Atom::Bool(_) => Ok(Computed::Same(atom)),
        Atom::Str(text) | Atom::Untyped(text) => spelled_boolean(text, pool),
    }
}

/// The integer that a text spells.
#[tactic(auto, using(crate::proofs::Ordered::text_is))]
fn spelled_integer(text: TextId, pool: &Pool) -> Result<Computed, FunFault>
    requires { is_given (length pool.now) text ≡ true }
    ensures { RuleGives false pool.now (with_value (λ b. item_of_atom b ∷ []) (spelled IntAtom (integer_in (text_in pool.now text)))) result }
{
    match integer_in(pool.text(text)) {
        Some(number) => Ok(Computed::Number(number)),
        None => Err(FunFault::Code(Code::FORG0001)),
    }
}

/// The boolean that a text spells.
#[tactic(auto, using(crate::proofs::Ordered::text_is))]
fn spelled_boolean(text: TextId, pool: &Pool) -> Result<Computed, FunFault>
    requires { is_given (length pool.now) text ≡ true }
    ensures { RuleGives false pool.now (with_value (λ b. item_of_atom b ∷ []) (spelled BoolAtom (boolean_in (text_in pool.now text)))) result }
{
    match boolean_in(pool.text(text)) {
        Some(truth) => Ok(Computed::Truth(truth)),
        None => Err(FunFault::Code(Code::FORG0001)),
    }
}

fn cast_to_text(alloc: Global, atom: Atom) -> Result<Computed, FunFault>
    ensures { (texts : List Text) → atom_given (length texts) atom ≡ true → RuleGives true texts (with_value (λ b. item_of_atom b ∷ []) (cast_atom AtomKind.Text (atom_in texts atom))) result }
{
    match atom {
        Atom::Str(text) | Atom::Untyped(text) => Ok(Computed::Same(Atom::Str(text))),
        Atom::Int(number) => Ok(Computed::Text(number_text(alloc, number)?)),
        Atom::Bool(truth) => Ok(Computed::Text(truth_text(alloc, truth)?)),
    }
}

fn cast_to_untyped(alloc: Global, atom: Atom) -> Result<Computed, FunFault>
    ensures { (texts : List Text) → atom_given (length texts) atom ≡ true → RuleGives true texts (with_value (λ b. item_of_atom b ∷ []) (cast_atom AtomKind.Untyped (atom_in texts atom))) result }
{
    match atom {
        Atom::Str(text) | Atom::Untyped(text) => Ok(Computed::Same(Atom::Untyped(text))),
        Atom::Int(number) => Ok(Computed::Untyped(number_text(alloc, number)?)),
        Atom::Bool(truth) => Ok(Computed::Untyped(truth_text(alloc, truth)?)),
    }
}

/// The decimal digits of an integer.
fn number_text(alloc: Global, number: i64) -> Result<String, FunFault>
    ensures ok { IfOk result (λ t. string_bytes t ≡ signed_decimal number) }
    ensures err { IfErr result (λ e. e ≡ NoMemory) }
{
    copied(alloc, Buffer::new().format(number))
}

fn truth_text(alloc: Global, truth: bool) -> Result<String, FunFault>
    ensures ok { IfOk result (λ t. string_bytes t ≡ bool_text truth) }
    ensures err { IfErr result (λ e. e ≡ NoMemory) }
{
    copied(alloc, if truth { "true" } else { "false" })
}

/// A text of its own.
pub(crate) fn copied(alloc: Global, text: &str) -> Result<String, FunFault>
    ensures ok { IfOk result (λ t. string_bytes t ≡ text.now) }
    ensures err { IfErr result (λ e. e ≡ NoMemory) }
{
    match String::from_str(alloc, text) {
        Ok(copy) => Ok(copy),
        Err(_) => Err(FunFault::NoMemory),
    }
}
