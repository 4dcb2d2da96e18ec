//! Functions of atomic values.
ghost use Rattle.std.specs.Prelude.{◌≡◌, ◌∷◌, [], true, false, length};
ghost use Rattle.xq_base.specs.Answers.{with_value};
ghost use Rattle.xq_base.specs.Comparisons.{value_pair, truth};
ghost use Rattle.doc_table.specs.Values.{items_of};
ghost use Rattle.doc_table.specs.NodeRules.{Docs};
ghost use Rattle.doc_table.specs.Functions.{fun_answer};
ghost use Rattle.xq_funs.specs.Answering.{atom_in, atom_given};
ghost use Rattle.xq_funs.specs.Calls.{RuleGives, singles, gives_text, is_unary, is_binary, is_ternary};

use crate::casts::cast;
use crate::comparisons::compare_values;
use crate::computed::Computed;
use crate::fault::FunFault;
use crate::numbers::{arithmetic, signed};
use crate::texts::{call_substring, call_substring_from, call_text, call_texts, call_translate};
use std::alloc::Global;
use xq_base::{Atom, AtomKind, CompOp, Fun, Pool};

/// The value of a function of one atomic value.
pub(crate) fn apply_one(alloc: Global, fun: Fun, a: Atom, pool: &Pool) -> Result<Computed, FunFault>
    requires fun { is_unary fun ≡ true }
    requires given { atom_given (length pool.now) a ≡ true }
    ensures { (docs : Docs) → RuleGives (gives_text fun) pool.now (fun_answer docs fun (singles pool.now (a ∷ []))) result }
{
    match fun {
        Fun::Negate => signed(fun, a, pool),
        Fun::Abs => signed(fun, a, pool),
        Fun::XsInteger => cast(alloc, AtomKind::Integer, a, pool),
        Fun::XsString => cast(alloc, AtomKind::Text, a, pool),
        Fun::XsBoolean => cast(alloc, AtomKind::Boolean, a, pool),
        Fun::XsUntypedAtomic => cast(alloc, AtomKind::Untyped, a, pool),
        Fun::CastTo(kind) => cast(alloc, kind, a, pool),
        Fun::StringOf => cast(alloc, AtomKind::Text, a, pool),
        Fun::Atomize => Ok(Computed::Same(a)),
        Fun::StringLength => call_text(alloc, fun, a, pool),
        Fun::NormalizeSpace => call_text(alloc, fun, a, pool),
        Fun::QName => call_text(alloc, fun, a, pool),
        Fun::PiTarget => call_text(alloc, fun, a, pool),
        _ => unreachable!(),
    }
}

/// The value of a function of two atomic values.
pub(crate) fn apply_two(
    alloc: Global,
    fun: Fun,
    a: Atom,
    b: Atom,
    pool: &Pool,
) -> Result<Computed, FunFault>
    requires fun { is_binary fun ≡ true }
    requires given_a { atom_given (length pool.now) a ≡ true }
    requires given_b { atom_given (length pool.now) b ≡ true }
    ensures { (docs : Docs) → RuleGives (gives_text fun) pool.now (fun_answer docs fun (singles pool.now (a ∷ b ∷ []))) result }
{
    match fun {
        Fun::Add => arithmetic(fun, a, b, pool),
        Fun::Subtract => arithmetic(fun, a, b, pool),
        Fun::Multiply => arithmetic(fun, a, b, pool),
        Fun::IntegerDivide => arithmetic(fun, a, b, pool),
        Fun::Modulo => arithmetic(fun, a, b, pool),
        Fun::Eq => compare_two(CompOp::Eq, a, b, pool),
        Fun::Ne => compare_two(CompOp::Ne, a, b, pool),
        Fun::Lt => compare_two(CompOp::Lt, a, b, pool),
        Fun::Le => compare_two(CompOp::Le, a, b, pool),
        Fun::Gt => compare_two(CompOp::Gt, a, b, pool),
        Fun::Ge => compare_two(CompOp::Ge, a, b, pool),
        Fun::Contains => call_texts(alloc, fun, a, b, pool),
        Fun::StartsWith => call_texts(alloc, fun, a, b, pool),
        Fun::EndsWith => call_texts(alloc, fun, a, b, pool),
        Fun::SubstringBefore => call_texts(alloc, fun, a, b, pool),
        Fun::SubstringAfter => call_texts(alloc, fun, a, b, pool),
        Fun::Substring => call_substring_from(alloc, a, b, pool),
        Fun::Compare => call_texts(alloc, fun, a, b, pool),
        _ => unreachable!(),
    }
}

/// The value of a function of three atomic values.
pub(crate) fn apply_three(
    alloc: Global,
    fun: Fun,
    a: Atom,
    b: Atom,
    c: Atom,
    pool: &Pool,
) -> Result<Computed, FunFault>
    requires fun { is_ternary fun ≡ true }
    requires given_a { atom_given (length pool.now) a ≡ true }
    requires given_b { atom_given (length pool.now) b ≡ true }
    requires given_c { atom_given (length pool.now) c ≡ true }
    ensures { (docs : Docs) → RuleGives (gives_text fun) pool.now (fun_answer docs fun (singles pool.now (a ∷ b ∷ c ∷ []))) result }
{
    match fun {
        Fun::Substring => call_substring(alloc, a, b, c, pool),
        Fun::Translate => call_translate(alloc, a, b, c, pool),
        _ => unreachable!(),
    }
}

/// A value comparison.
fn compare_two(op: CompOp, a: Atom, b: Atom, pool: &Pool) -> Result<Computed, FunFault>
    requires given_a { atom_given (length pool.now) a ≡ true }
    requires given_b { atom_given (length pool.now) b ≡ true }
    ensures { RuleGives false pool.now (with_value items_of (with_value truth (value_pair op (atom_in pool.now a) (atom_in pool.now b)))) result }
{
    match compare_values(op, a, b, pool) {
        Ok(truth) => Ok(Computed::Truth(truth)),
        Err(code) => Err(FunFault::Code(code)),
    }
}
