//! Comparisons of atomic values.
ghost use Rattle.std.specs.Prelude.{◌≡◌, true, length, List, ℕ, int_lt};
ghost use Rattle.std.specs.Result.{ForOk};
ghost use Rattle.xq_base.specs.declared.item.FragKey.{FragKey};
ghost use Rattle.xq_base.specs.declared.item.TextId.{TextId};
ghost use Rattle.xq_base.specs.Comparisons.{decided, compared, value_pair, general_pair, int_eq};
ghost use Rattle.xq_base.specs.Answers.{then_rule};
ghost use Rattle.xq_base.specs.Atoms.{IntAtom, BoolAtom, as_string, spelled};
ghost use Rattle.xq_base.specs.Texts.{integer_in, boolean_in, text_eq, text_less};
ghost use Rattle.doc_table.specs.Tree.{Tree, text_in};
ghost use Rattle.doc_table.specs.Items.{item_of};
ghost use Rattle.doc_table.specs.Given.{is_given};
ghost use Rattle.doc_table.specs.Values.{atomized};
ghost use Rattle.xq_funs.specs.Answering.{answer_of, atom_answer, atom_in, atom_given, text_given, is_atom};
ghost use Rattle.xq_funs.specs.Orderings.{tells_equal, tells_less};

use crate::atoms::atom_of;
use crate::numerals::{boolean_in, integer_in};
use std::cmp::Ordering;
use xq_base::{Atom, Code, CompOp, Item, Pool, TextId};

/// One pair of a general comparison (XQuery 1.0, section 3.5.2): an untyped value is cast to the
/// other's kind where that is integer or boolean, and else read as a string. It takes no memory.
///
/// Errors: `FORG0001`, where such a cast fails; `XPTY0004`, where the kinds differ.
pub fn compare(op: CompOp, a: Item, b: Item, pool: &Pool) -> Result<bool, Code>
    requires atom_a { is_atom a ≡ true }
    requires atom_b { is_atom b ≡ true }
    requires given_a { text_given (length pool.now) a ≡ true }
    requires given_b { text_given (length pool.now) b ≡ true }
    ensures { (trees : FragKey → Tree TextId) → answer_of result ≡ general_pair op (atomized (item_of pool.now trees a)) (atomized (item_of pool.now trees b)) }
{
    compare_atoms(op, atom_of(a), atom_of(b), pool)
}

/// One pair of a general comparison.
fn compare_atoms(op: CompOp, a: Atom, b: Atom, pool: &Pool) -> Result<bool, Code>
    requires given_a { atom_given (length pool.now) a ≡ true }
    requires given_b { atom_given (length pool.now) b ≡ true }
    ensures { answer_of result ≡ general_pair op (atom_in pool.now a) (atom_in pool.now b) }
{
    match (a, b) {
        (Atom::Untyped(t), Atom::Int(_)) => compare_cast(op, integer_of(t, pool), Ok(b), pool),
        (Atom::Int(_), Atom::Untyped(t)) => compare_cast(op, Ok(a), integer_of(t, pool), pool),
        (Atom::Untyped(t), Atom::Bool(_)) => compare_cast(op, boolean_of(t, pool), Ok(b), pool),
        (Atom::Bool(_), Atom::Untyped(t)) => compare_cast(op, Ok(a), boolean_of(t, pool), pool),
        _ => compare_values(op, a, b, pool),
    }
}

/// A pair of which one may be cast.
fn compare_cast(
    op: CompOp,
    a: Result<Atom, Code>,
    b: Result<Atom, Code>,
    pool: &Pool,
) -> Result<bool, Code>
    requires given_a { ForOk a (λ x. atom_given (length pool.now) x ≡ true) }
    requires given_b { ForOk b (λ x. atom_given (length pool.now) x ≡ true) }
    ensures { answer_of result ≡ then_rule (atom_answer pool.now a) (λ x. then_rule (atom_answer pool.now b) (λ y. compared op x y)) }
{
    match (a, b) {
        (Ok(a), Ok(b)) => compare_same(op, a, b, pool),
        (Err(code), _) => Err(code),
        (_, Err(code)) => Err(code),
    }
}

/// One pair of a value comparison: an untyped value is read as a string.
pub(crate) fn compare_values(op: CompOp, a: Atom, b: Atom, pool: &Pool) -> Result<bool, Code>
    requires given_a { atom_given (length pool.now) a ≡ true }
    requires given_b { atom_given (length pool.now) b ≡ true }
    ensures { answer_of result ≡ value_pair op (atom_in pool.now a) (atom_in pool.now b) }
{
    compare_same(op, as_string(a), as_string(b), pool)
}

/// Two values of one kind.
fn compare_same(op: CompOp, a: Atom, b: Atom, pool: &Pool) -> Result<bool, Code>
    requires given_a { atom_given (length pool.now) a ≡ true }
    requires given_b { atom_given (length pool.now) b ≡ true }
    ensures { answer_of result ≡ compared op (atom_in pool.now a) (atom_in pool.now b) }
{
    match (a, b) {
        (Atom::Int(y), Atom::Int(z)) => Ok(decide(op, int_order(y, z))),
        (Atom::Bool(a), Atom::Bool(b)) => Ok(decide(op, a.cmp(&b))),
        (Atom::Str(t), Atom::Str(u)) => Ok(decide(op, text_order(t, u, pool))),
        _ => Err(Code::XPTY0004),
    }
}

/// An untyped value read as a string.
fn as_string(atom: Atom) -> Atom
    ensures value { (texts : List (List ℕ)) → atom_in texts result ≡ as_string (atom_in texts atom) }
    ensures given { (n : ℕ) → atom_given n atom ≡ true → atom_given n result ≡ true }
{
    match atom {
        Atom::Untyped(text) => Atom::Str(text),
        _ => atom,
    }
}

/// How two texts stand, by their characters (Functions and Operators, section 7.3.1).
#[tactic(auto, using(crate::proofs::Ordered::texts_less, crate::proofs::Ordered::texts_equal, crate::proofs::Ordered::text_is))]
pub(crate) fn text_order(t: TextId, u: TextId, pool: &Pool) -> Ordering
    requires given_t { is_given (length pool.now) t ≡ true }
    requires given_u { is_given (length pool.now) u ≡ true }
    ensures less { tells_less result ≡ text_less (text_in pool.now t) (text_in pool.now u) }
    ensures equal { tells_equal result ≡ text_eq (text_in pool.now t) (text_in pool.now u) }
{
    pool.text(t).cmp(pool.text(u))
}

/// How two integers stand.
fn int_order(y: i64, z: i64) -> Ordering
    ensures less { tells_less result ≡ int_lt y z }
    ensures equal { tells_equal result ≡ int_eq y z }
{
    y.cmp(&z)
}

/// What a comparison says of two values that stand so.
fn decide(op: CompOp, order: Ordering) -> bool
    ensures { result ≡ decided op (tells_equal order) (tells_less order) }
{
    match op {
        CompOp::Eq => order == Ordering::Equal,
        CompOp::Ne => order != Ordering::Equal,
        CompOp::Lt => order == Ordering::Less,
        CompOp::Le => order != Ordering::Greater,
        CompOp::Gt => order == Ordering::Greater,
        CompOp::Ge => order != Ordering::Less,
    }
}

/// The integer that an untyped value spells.
#[tactic(auto, using(crate::proofs::Ordered::text_is))]
fn integer_of(text: TextId, pool: &Pool) -> Result<Atom, Code>
    requires { is_given (length pool.now) text ≡ true }
    ensures cast { atom_answer pool.now result ≡ spelled IntAtom (integer_in (text_in pool.now text)) }
    ensures given { ForOk result (λ x. atom_given (length pool.now) x ≡ true) }
{
    match integer_in(pool.text(text)) {
        Some(number) => Ok(Atom::Int(number)),
        None => Err(Code::FORG0001),
    }
}

/// The boolean that an untyped value spells.
#[tactic(auto, using(crate::proofs::Ordered::text_is))]
fn boolean_of(text: TextId, pool: &Pool) -> Result<Atom, Code>
    requires { is_given (length pool.now) text ≡ true }
    ensures cast { atom_answer pool.now result ≡ spelled BoolAtom (boolean_in (text_in pool.now text)) }
    ensures given { ForOk result (λ x. atom_given (length pool.now) x ≡ true) }
{
    match boolean_in(pool.text(text)) {
        Some(truth) => Ok(Atom::Bool(truth)),
        None => Err(Code::FORG0001),
    }
}
