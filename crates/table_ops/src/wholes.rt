//! Aggregates over the cells of a group.
ghost use Rattle.std.specs.Prelude.{List, ◌≡◌, ◌<◌, ◌^◌, ◌∷◌, [], true, cond, length, map, take, IfOk, pos, neg_ℤ, ◌≤ℤ◌, ◌+ℤ◌};
ghost use Rattle.std.specs.List.{list_all};
ghost use Rattle.xq_base.specs.declared.item.Item.TheVariants as i;
ghost use Rattle.xq_base.specs.Texts.{Text, joined, text_less};
ghost use Rattle.xq_base.specs.Answers.{then_rule, with_value};
ghost use Rattle.xq_base.specs.Arithmetic.{checked, integer_list};
ghost use Rattle.xq_base.specs.Atoms.{text_of, atom_kind_eq, kind_of_atom};
ghost use Rattle.xq_base.specs.Aggregates.{best_from, have_kind_of, is_less_atom};
ghost use Rattle.doc_table.specs.Documents.{documents_in};
ghost use Rattle.doc_table.specs.Given.{trees_given, is_given};
ghost use Rattle.doc_table.specs.Items.{TextItem};
ghost use Rattle.doc_table.specs.Stores.{AreGiven, Holdings};
ghost use Rattle.doc_table.specs.StoredItems.{ItemsGiven, meanings};
ghost use Rattle.doc_table.specs.Tree.{text_in};
ghost use Rattle.doc_table.specs.Values.{data_of, items_of, boolean_value};
ghost use Rattle.xq_funs.specs.Answering.{answer_of, atom_in, atom_given, text_given};
ghost use Rattle.plan_dag.specs.Cells.{Gives};
ghost use Rattle.plan_dag.specs.ItemRules.{group_outcome, outcome_of, bool_outcome, bool_cell};
ghost use Rattle.table_ops.specs.Attempts.{outcome_in, AttemptGiven};
ghost use Rattle.table_ops.specs.Wholes.{atoms_in, atoms_given, integer_of, total_of, beats, sum_outcome, best_outcome, number_outcome, is_of_numbers};

use crate::attempts::Attempt;
use crate::reading::{item_of, read_all};
use doc_table::Store;
use plan_dag::Agg;
use std::alloc::Global;
use xq_base::{Atom, Code, CompOp, Fun, Item, Pool, TextId, Want};
use xq_funs::{FunFault, call, compare, ebv};

/// What an aggregate makes of cells: its value, the code that it has for them, or neither.
///
/// Errors: `Want`, where memory is wanting; the pool may then have more texts.
pub fn whole(
    alloc: Global,
    agg: Agg,
    cells: &[Item],
    store: &Store,
    pool: &mut Pool,
) -> Result<Attempt, Want>
    requires few { length cells.now < 2 ^ 32 }
    requires items { ItemsGiven pool.old store.now cells.now }
    requires trees { trees_given (length pool.old) store.now ≡ true }
    requires names { AreGiven pool.old store.now.docs }
    ensures outcome { IfOk result (λ a. outcome_in pool.new store.now a ≡ group_outcome (documents_in pool.old store.now) agg (meanings pool.old store.now cells.now)) }
    ensures given { IfOk result (λ a. AttemptGiven pool.new store.now a) }
    ensures keeps { take (length pool.old) pool.new ≡ pool.old }
{
    match agg {
        Agg::Concat => concat(alloc, cells, store, pool),
        Agg::Ebv => Ok(truth(cells, pool)),
        Agg::Sum | Agg::Min | Agg::Max => of_numbers(alloc, agg, cells, store, pool),
    }
}

/// The effective boolean value of cells.
fn truth(cells: &[Item], pool: &Pool) -> Attempt
    requires { list_all (text_given (length pool.now)) cells.now ≡ true }
    ensures outcome { (h : Holdings) → outcome_in pool.now h result ≡ bool_cell (bool_outcome (boolean_value (meanings pool.now h cells.now))) }
    ensures given { (h : Holdings) → AttemptGiven pool.now h result }
{
    match ebv(cells, pool) {
        Ok(truth) => Attempt::Value(Item::Bool(truth)),
        Err(code) => Attempt::Fails(code),
    }
}

/// The texts of the atomised cells, joined with nothing between.
fn concat(alloc: Global, cells: &[Item], store: &Store, pool: &mut Pool) -> Result<Attempt, Want>
    requires items { ItemsGiven pool.old store.now cells.now }
    requires trees { trees_given (length pool.old) store.now ≡ true }
    requires names { AreGiven pool.old store.now.docs }
    ensures outcome { IfOk result (λ a. outcome_in pool.new store.now a ≡ Gives (TextItem (joined [] (map text_of (data_of (meanings pool.old store.now cells.now)))))) }
    ensures given { IfOk result (λ a. AttemptGiven pool.new store.now a) }
    ensures keeps { take (length pool.old) pool.new ≡ pool.old }
{
    let empty = pool.intern("")?;
    let texts = padded(alloc, empty, cells)?;
    match call(alloc, Fun::Concat, &texts, store, pool) {
        Ok(item) => Ok(Attempt::Value(item)),
        Err(FunFault::Code(_)) => unreachable!(),
        Err(FunFault::NoMemory) => Err(Want),
    }
}

/// Cells behind two texts, since the function takes two or more.
fn padded(alloc: Global, text: TextId, cells: &[Item]) -> Result<Vec<Item>, Want>
    ensures { IfOk result (λ out. out.items ≡ i.Str text ∷ i.Str text ∷ cells.now) }
{
    let mut out = Vec::new(alloc);
    out.extend_from_slice(&[Item::Str(text), Item::Str(text)])?;
    out.extend_from_slice(cells)?;
    Ok(out)
}

/// The sum, the least or the greatest of cells.
fn of_numbers(
    alloc: Global,
    agg: Agg,
    cells: &[Item],
    store: &Store,
    pool: &mut Pool,
) -> Result<Attempt, Want>
    requires few { length cells.now < 2 ^ 32 }
    requires agg { is_of_numbers agg ≡ true }
    requires items { ItemsGiven pool.old store.now cells.now }
    requires trees { trees_given (length pool.old) store.now ≡ true }
    requires names { AreGiven pool.old store.now.docs }
    ensures outcome { IfOk result (λ a. outcome_in pool.new store.now a ≡ group_outcome (documents_in pool.old store.now) agg (meanings pool.old store.now cells.now)) }
    ensures given { IfOk result (λ a. AttemptGiven pool.new store.now a) }
    ensures keeps { take (length pool.old) pool.new ≡ pool.old }
{
    match read_all(alloc, cells, store, pool)? {
        None => Ok(Attempt::Fails(Code::FORG0001)),
        Some(atoms) => Ok(of_atoms(agg, &atoms, pool)),
    }
}

/// The sum, the least or the greatest of read values.
fn of_atoms(agg: Agg, atoms: &[Atom], pool: &Pool) -> Attempt
    requires few { length atoms.now < 2 ^ 32 }
    requires agg { is_of_numbers agg ≡ true }
    requires atoms { atoms_given (length pool.now) atoms.now ≡ true }
    ensures outcome { (h : Holdings) → outcome_in pool.now h result ≡ number_outcome agg (atoms_in pool.now atoms.now) }
    ensures given { (h : Holdings) → AttemptGiven pool.now h result }
{
    match agg {
        Agg::Sum => sum(atoms),
        Agg::Min => best(atoms, false, pool),
        Agg::Max => best(atoms, true, pool),
        _ => unreachable!(),
    }
}

/// The sum of read values, which must be integers, where it is within 64 bits.
fn sum(atoms: &[Atom]) -> Attempt
    requires { length atoms.now < 2 ^ 32 }
    ensures outcome { (texts : List Text) (h : Holdings) → outcome_in texts h result ≡ sum_outcome (atoms_in texts atoms.now) }
    ensures given { (texts : List Text) (h : Holdings) → AttemptGiven texts h result }
{
    within(total(atoms))
}

/// The sum of read values, whatever its size.
fn total(atoms: &[Atom]) -> Result<i128, Code>
    requires { length atoms.now < 2 ^ 32 }
    ensures { (texts : List Text) → answer_of result ≡ total_of (atoms_in texts atoms.now) }
{
    let mut total: i128 = 0;
    for place in 0..atoms.len() {
        match add(total, atoms[place]) {
            Ok(sum) => total = sum,
            Err(code) => return Err(code),
        }
    }
    Ok(total)
}

/// A sum with one more value.
fn add(total: i128, atom: Atom) -> Result<i128, Code>
    requires low { neg_ℤ (pos 1267650600228229401496703205376) ≤ℤ total }
    requires high { total ≤ℤ pos 1267650600228229401496703205376 }
    ensures sum { (texts : List Text) → answer_of result ≡ with_value (λ z. total +ℤ z) (integer_of (atom_in texts atom)) }
    ensures low { IfOk result (λ s. total ≤ℤ (s +ℤ pos 9223372036854775808)) }
    ensures high { IfOk result (λ s. s ≤ℤ (total +ℤ pos 9223372036854775808)) }
{
    match atom {
        Atom::Int(number) => Ok(total + number as i128),
        Atom::Str(_) | Atom::Untyped(_) | Atom::Bool(_) => Err(Code::FORG0006),
    }
}

/// A sum as an integer, where it is one of 64 bits.
fn within(total: Result<i128, Code>) -> Attempt
    ensures outcome { (texts : List Text) (h : Holdings) → outcome_in texts h result ≡ outcome_of (with_value items_of (with_value integer_list (then_rule (answer_of total) checked))) }
    ensures given { (texts : List Text) (h : Holdings) → AttemptGiven texts h result }
{
    match total {
        Err(code) => Attempt::Fails(code),
        Ok(total) => bounded(total),
    }
}

fn bounded(total: i128) -> Attempt
    ensures outcome { (texts : List Text) (h : Holdings) → outcome_in texts h result ≡ outcome_of (with_value items_of (with_value integer_list (checked total))) }
    ensures given { (texts : List Text) (h : Holdings) → AttemptGiven texts h result }
{
    if total < -9_223_372_036_854_775_808 || total > 9_223_372_036_854_775_807 {
        return Attempt::Fails(Code::FOAR0002);
    }
    Attempt::Value(Item::Int(total as i64))
}

/// The first of the least values, or of the greatest, where all are of one kind; neither of none.
fn best(atoms: &[Atom], greatest: bool, pool: &Pool) -> Attempt
    requires { atoms_given (length pool.now) atoms.now ≡ true }
    ensures outcome { (h : Holdings) → outcome_in pool.now h result ≡ best_outcome greatest (atoms_in pool.now atoms.now) }
    ensures given { (h : Holdings) → AttemptGiven pool.now h result }
{
    let Some((first, rest)) = atoms.split_first() else {
        return Attempt::Silent;
    };
    if !have_kind(*first, rest) {
        return Attempt::Fails(Code::FORG0006);
    }
    let mut best = *first;
    find_best(&mut best, rest, greatest, pool);
    Attempt::Value(item_of(best))
}

/// Whether all are of the first one's kind.
fn have_kind(first: Atom, rest: &[Atom]) -> bool
    ensures { (texts : List Text) → result ≡ have_kind_of (atom_in texts first) (atoms_in texts rest.now) }
{
    for place in 0..rest.len() {
        if !is_alike(first, rest[place]) {
            return false;
        }
    }
    true
}

fn is_alike(a: Atom, b: Atom) -> bool
    ensures { (texts : List Text) → result ≡ atom_kind_eq (kind_of_atom (atom_in texts a)) (kind_of_atom (atom_in texts b)) }
{
    match (a, b) {
        (Atom::Int(_), Atom::Int(_)) => true,
        (Atom::Str(_), Atom::Str(_)) => true,
        (Atom::Untyped(_), Atom::Untyped(_)) => true,
        (Atom::Bool(_), Atom::Bool(_)) => true,
        _ => false,
    }
}

/// The first that no other one beats.
fn find_best(best: &mut Atom, rest: &[Atom], greatest: bool, pool: &Pool)
    requires best { atom_given (length pool.now) best.old ≡ true }
    requires rest { atoms_given (length pool.now) rest.now ≡ true }
    ensures value { atom_in pool.now best.new ≡ best_from (beats greatest) (atom_in pool.now best.old) (atoms_in pool.now rest.now) }
    ensures given { atom_given (length pool.now) best.new ≡ true }
{
    for place in 0..rest.len() {
        *best = better(*best, rest[place], greatest, pool);
    }
}

/// The second, where it beats the first.
fn better(best: Atom, other: Atom, greatest: bool, pool: &Pool) -> Atom
    requires best { atom_given (length pool.now) best ≡ true }
    requires other { atom_given (length pool.now) other ≡ true }
    ensures value { atom_in pool.now result ≡ cond (beats greatest (atom_in pool.now other) (atom_in pool.now best)) (atom_in pool.now other) (atom_in pool.now best) }
    ensures given { atom_given (length pool.now) result ≡ true }
{
    let beaten = if greatest {
        is_less(best, other, pool)
    } else {
        is_less(other, best, pool)
    };
    if beaten { other } else { best }
}

fn is_less(a: Atom, b: Atom, pool: &Pool) -> bool
    requires a { atom_given (length pool.now) a ≡ true }
    requires b { atom_given (length pool.now) b ≡ true }
    ensures { result ≡ is_less_atom (atom_in pool.now a) (atom_in pool.now b) }
{
    match (a, b) {
        (Atom::Int(y), Atom::Int(z)) => y < z,
        (Atom::Bool(y), Atom::Bool(z)) => !y && z,
        (Atom::Str(t), Atom::Str(u)) => comes_first(t, u, pool),
        _ => false,
    }
}

/// Whether a text stands before another.
fn comes_first(t: TextId, u: TextId, pool: &Pool) -> bool
    requires t { is_given (length pool.now) t ≡ true }
    requires u { is_given (length pool.now) u ≡ true }
    ensures { result ≡ text_less (text_in pool.now t) (text_in pool.now u) }
{
    match compare(CompOp::Lt, Item::Str(t), Item::Str(u), pool) {
        Ok(truth) => truth,
        Err(_) => unreachable!(),
    }
}
