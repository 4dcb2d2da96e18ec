//! Cells as atomic values, untyped ones as integers.
ghost use Rattle.std.specs.Prelude.{ℕ, List, ◌≡◌, true, length, take, IfOk, IfSome};
ghost use Rattle.xq_base.specs.declared.item.TextId.{TextId};
ghost use Rattle.xq_base.specs.declared.item.FragKey.{FragKey};
ghost use Rattle.xq_base.specs.Texts.{Text};
ghost use Rattle.xq_base.specs.Aggregates.{all_of, as_integer};
ghost use Rattle.xq_base.specs.Atoms.{UntypedAtom};
ghost use Rattle.doc_table.specs.Given.{trees_given, is_given};
ghost use Rattle.doc_table.specs.Items.{item_of};
ghost use Rattle.doc_table.specs.Stores.{AreGiven, Holdings};
ghost use Rattle.doc_table.specs.StoredItems.{ItemGiven, ItemsGiven, trees_of, meanings};
ghost use Rattle.doc_table.specs.Tree.{Tree, text_in};
ghost use Rattle.doc_table.specs.Values.{atomized, data_of, item_of_atom};
ghost use Rattle.xq_funs.specs.Answering.{atom_in, atom_given, is_atom, text_given};
ghost use Rattle.table_ops.specs.Wholes.{atoms_in, atoms_given, read_answer, read_answers, ReadsOn};

use doc_table::Store;
use std::alloc::Global;
use xq_base::{Atom, Fun, Item, Pool, TextId, Want};
use xq_funs::{FunFault, call};

/// The atomic values of cells, untyped ones as integers; none where one of these spells no integer.
///
/// Errors: `Want`, where memory is wanting.
pub fn read_all(
    alloc: Global,
    cells: &[Item],
    store: &Store,
    pool: &mut Pool,
) -> Result<Option<Vec<Atom>>, Want>
    requires items { ItemsGiven pool.old store.now cells.now }
    requires trees { trees_given (length pool.old) store.now ≡ true }
    requires names { AreGiven pool.old store.now.docs }
    ensures read { IfOk result (λ r. all_of as_integer (data_of (meanings pool.old store.now cells.now)) ≡ read_answers pool.new r) }
    ensures given { IfOk result (λ r. IfSome r (λ as'. atoms_given (length pool.new) as'.items ≡ true)) }
    ensures keeps { take (length pool.old) pool.new ≡ pool.old }
{
    let mut out = Vec::with_capacity(alloc, cells.len())?;
    for place in 0..cells.len() {
        if !put_read(alloc, cells[place], store, pool, &mut out)? {
            return Ok(None);
        }
    }
    Ok(Some(out))
}

/// Adds the atomic value of a cell, an untyped one as an integer, where it spells one.
fn put_read(
    alloc: Global,
    cell: Item,
    store: &Store,
    pool: &mut Pool,
    out: &mut Vec<Atom>,
) -> Result<bool, Want>
    requires item { ItemGiven pool.old store.now cell }
    requires out { atoms_given (length pool.old) out.old.items ≡ true }
    requires trees { trees_given (length pool.old) store.now ≡ true }
    requires names { AreGiven pool.old store.now.docs }
    ensures read { IfOk result (λ b. ReadsOn (as_integer (atomized (item_of pool.old (trees_of store.now) cell))) (atoms_in pool.old out.old.items) b (atoms_in pool.new out.new.items)) }
    ensures given { IfOk result (λ b. atoms_given (length pool.new) out.new.items ≡ true) }
    ensures keeps { take (length pool.old) pool.new ≡ pool.old }
{
    let Some(atom) = read(alloc, cell, store, pool)? else {
        return Ok(false);
    };
    if out.push(atom).is_err() {
        return Err(Want);
    }
    Ok(true)
}

/// The atomic value of a cell, an untyped one as an integer, where it spells one.
fn read(alloc: Global, cell: Item, store: &Store, pool: &mut Pool) -> Result<Option<Atom>, Want>
    requires item { ItemGiven pool.old store.now cell }
    requires trees { trees_given (length pool.old) store.now ≡ true }
    requires names { AreGiven pool.old store.now.docs }
    ensures read { IfOk result (λ r. as_integer (atomized (item_of pool.old (trees_of store.now) cell)) ≡ read_answer pool.new r) }
    ensures given { IfOk result (λ r. IfSome r (λ a. atom_given (length pool.new) a ≡ true)) }
    ensures keeps { take (length pool.old) pool.new ≡ pool.old }
{
    let atom = atomize(alloc, cell, store, pool)?;
    match atom {
        Atom::Untyped(text) => spelled(alloc, text, store, pool),
        _ => Ok(Some(atom)),
    }
}

/// The integer that a text spells.
fn spelled(
    alloc: Global,
    text: TextId,
    store: &Store,
    pool: &mut Pool,
) -> Result<Option<Atom>, Want>
    requires text { is_given (length pool.old) text ≡ true }
    requires trees { trees_given (length pool.old) store.now ≡ true }
    requires names { AreGiven pool.old store.now.docs }
    ensures read { IfOk result (λ r. as_integer (UntypedAtom (text_in pool.old text)) ≡ read_answer pool.new r) }
    ensures given { IfOk result (λ r. IfSome r (λ a. atom_given (length pool.new) a ≡ true)) }
    ensures keeps { take (length pool.old) pool.new ≡ pool.old }
{
    match call(alloc, Fun::XsInteger, &[Item::Untyped(text)], store, pool) {
        Ok(item) => Ok(Some(atom_of(item))),
        Err(FunFault::Code(_)) => Ok(None),
        Err(FunFault::NoMemory) => Err(Want),
    }
}

/// The atomic value of a cell.
pub fn atomize(alloc: Global, cell: Item, store: &Store, pool: &mut Pool) -> Result<Atom, Want>
    requires item { ItemGiven pool.old store.now cell }
    requires trees { trees_given (length pool.old) store.now ≡ true }
    requires names { AreGiven pool.old store.now.docs }
    ensures value { IfOk result (λ a. atom_in pool.new a ≡ atomized (item_of pool.old (trees_of store.now) cell)) }
    ensures given { IfOk result (λ a. atom_given (length pool.new) a ≡ true) }
    ensures keeps { take (length pool.old) pool.new ≡ pool.old }
{
    match call(alloc, Fun::Atomize, &[cell], store, pool) {
        Ok(item) => Ok(atom_of(item)),
        Err(FunFault::Code(_)) => unreachable!(),
        Err(FunFault::NoMemory) => Err(Want),
    }
}

/// An item that is no node as an atomic value.
fn atom_of(item: Item) -> Atom
    requires { is_atom item ≡ true }
    ensures value { (texts : List Text) (trees : FragKey → Tree TextId) → atom_in texts result ≡ atomized (item_of texts trees item) }
    ensures given { (n : ℕ) → text_given n item ≡ true → atom_given n result ≡ true }
{
    match item {
        Item::Int(number) => Atom::Int(number),
        Item::Str(text) => Atom::Str(text),
        Item::Untyped(text) => Atom::Untyped(text),
        Item::Bool(truth) => Atom::Bool(truth),
        Item::Node(_) => unreachable!(),
    }
}

/// An atomic value as an item.
pub fn item_of(atom: Atom) -> Item
    ensures value { (texts : List Text) (trees : FragKey → Tree TextId) → item_of texts trees result ≡ item_of_atom (atom_in texts atom) }
    ensures given { (texts : List Text) (h : Holdings) → atom_given (length texts) atom ≡ true → ItemGiven texts h result }
    ensures atom { is_atom result ≡ true }
    ensures text { (n : ℕ) → atom_given n atom ≡ true → text_given n result ≡ true }
{
    match atom {
        Atom::Int(number) => Item::Int(number),
        Atom::Str(text) => Item::Str(text),
        Atom::Untyped(text) => Item::Untyped(text),
        Atom::Bool(truth) => Item::Bool(truth),
    }
}
