//! The operators `aggregate` and `aggregate_fails`: a value over the cells of each group.
ghost use Rattle.std.specs.Prelude.{◌≡◌, ◌<◌, ◌^◌, ◌++◌, ◌∷◌, [], true, length, map, take, slice_get, Some, IfOk, OnOk};
ghost use Rattle.xq_base.specs.Pool.{NoRepeats};
ghost use Rattle.doc_table.specs.Documents.{documents_in};
ghost use Rattle.doc_table.specs.Given.{trees_given};
ghost use Rattle.doc_table.specs.Stores.{AreGiven};
ghost use Rattle.doc_table.specs.StoredItems.{ItemsGiven, meanings};
ghost use Rattle.plan_dag.specs.Cells.{given, code_in};
ghost use Rattle.plan_dag.specs.ItemRules.{item_rules, group_outcome};
ghost use Rattle.plan_dag.specs.Meaning.{cell};
ghost use Rattle.plan_dag.specs.Rows.{aggregate_rows, aggregate_fails_rows, is_code};
ghost use Rattle.plan_dag.specs.Schema.{has_col};
ghost use Rattle.table_ops.specs.Attempts.{valued, pairs_in, PairsGiven};
ghost use Rattle.table_ops.specs.Chains.{places_of};
ghost use Rattle.table_ops.specs.Standing.{standing, RowsGiven};
ghost use Rattle.table_ops.specs.Wholes.{members};

use crate::attempts::Attempt;
use crate::gather::gather_cells;
use crate::grouping::different;
use crate::index::Index;
use crate::mapping::{cells_in, places_in};
use crate::table::Table;
use crate::wholes::whole;
use doc_table::Store;
use plan_dag::{Agg, Col};
use std::alloc::Global;
use xq_base::{Code, HashKeys, Item, Pool, Want};

/// The groups of equal cells, by first rows, for which an aggregate over their rows' values, in order,
/// has a value, each with it (own rule; the functions of Functions and Operators, section 15.4, and the
/// effective boolean value of XQuery 1.0, section 2.4.3).
///
/// Errors: `Want`, where memory is wanting; the pool may then have more texts.
pub fn aggregate(
    alloc: Global,
    hash: HashKeys,
    input: &Table,
    agg: Agg,
    group: Col,
    value: Col,
    col: Col,
    store: &Store,
    pool: &mut Pool,
) -> Result<Table, Want>
    requires few { length input.now.rows < 2 ^ 32 }
    requires group { has_col input.now.cols group ≡ true }
    requires value { has_col input.now.cols value ≡ true }
    requires rows { RowsGiven pool.old store.now input.now.rows }
    requires trees { trees_given (length pool.old) store.now ≡ true }
    requires names { AreGiven pool.old store.now.docs }
    ensures rows { IfOk result (λ t. standing pool.new store.now t ≡ record { cols = group ∷ col ∷ []; rows = aggregate_rows (item_rules (documents_in pool.old store.now) pool.old) agg (cell (item_rules (documents_in pool.old store.now) pool.old) input.now.cols group) (cell (item_rules (documents_in pool.old store.now) pool.old) input.now.cols value) (map (meanings pool.old store.now) input.now.rows) }) }
    ensures given { IfOk result (λ t. RowsGiven pool.new store.now t.rows) }
    ensures keeps { take (length pool.old) pool.new ≡ pool.old }
{
    let cells = input.cells(group);
    let index = Index::of(alloc, hash, cells)?;
    let groups = different(alloc, hash, cells)?;
    let values = input.cells(value);
    let found = wholes(alloc, agg, &index, &groups, values, store, pool)?;
    tell_apart(pool)?;
    let places = places_in(alloc, &found)?;
    let names = gather_cells(alloc, &groups, &places)?;
    let results = cells_in(alloc, &found)?;
    let left = Table::single(alloc, group, names)?;
    let right = Table::single(alloc, col, results)?;
    left.beside(alloc, &right)
}

/// Shows that each text of a pool has one number, so that equal numbers are equal texts, and that the empty
/// text has number 0.
pub fn tell_apart(pool: &mut Pool) -> Result<(), Want>
    ensures first { OnOk result (slice_get pool.new 0 ≡ Some []) }
    ensures different { OnOk result (NoRepeats pool.new) }
    ensures keeps { take (length pool.old) pool.new ≡ pool.old }
{
    pool.intern("")?;
    Ok(())
}

/// The values of groups, each with the group's number.
fn wholes(
    alloc: Global,
    agg: Agg,
    index: &Index,
    groups: &[Item],
    values: &[Item],
    store: &Store,
    pool: &mut Pool,
) -> Result<Vec<(u32, Item)>, Want>
    requires few { length groups.now < 2 ^ 32 }
    requires index { length index.now < 2 ^ 32 }
    requires values { ItemsGiven pool.old store.now values.now }
    requires trees { trees_given (length pool.old) store.now ≡ true }
    requires names { AreGiven pool.old store.now.docs }
    ensures found { IfOk result (λ out. pairs_in pool.new store.now out.items ≡ valued (λ c. group_outcome (documents_in pool.old store.now) agg (meanings pool.old store.now (members index.now values.now c))) 0 groups.now) }
    ensures given { IfOk result (λ out. PairsGiven pool.new store.now out.items) }
    ensures keeps { take (length pool.old) pool.new ≡ pool.old }
{
    let mut found = Vec::new(alloc);
    for place in 0..groups.len() {
        let cells = members_of(alloc, index, groups[place], values)?;
        put_whole(alloc, agg, &cells, place as u32, store, pool, &mut found)?;
    }
    Ok(found)
}

/// The values of the rows with a cell.
fn members_of(alloc: Global, index: &Index, cell: Item, values: &[Item]) -> Result<Vec<Item>, Want>
    ensures { IfOk result (λ out. out.items ≡ members index.now values.now cell) }
{
    gather_cells(alloc, values, index.places(cell))
}

/// Adds the value of an aggregate over cells, where it has one, with a place.
fn put_whole(
    alloc: Global,
    agg: Agg,
    cells: &[Item],
    place: u32,
    store: &Store,
    pool: &mut Pool,
    found: &mut Vec<(u32, Item)>,
) -> Result<(), Want>
    requires few { length cells.now < 2 ^ 32 }
    requires items { ItemsGiven pool.old store.now cells.now }
    requires found { PairsGiven pool.old store.now found.old.items }
    requires trees { trees_given (length pool.old) store.now ≡ true }
    requires names { AreGiven pool.old store.now.docs }
    ensures found { OnOk result (pairs_in pool.new store.now found.new.items ≡ pairs_in pool.old store.now found.old.items ++ map (λ v. (place, v)) (given (group_outcome (documents_in pool.old store.now) agg (meanings pool.old store.now cells.now)))) }
    ensures given { OnOk result (PairsGiven pool.new store.now found.new.items) }
    ensures keeps { take (length pool.old) pool.new ≡ pool.old }
{
    let Attempt::Value(item) = whole(alloc, agg, cells, store, pool)? else {
        return Ok(());
    };
    if found.push((place, item)).is_err() {
        return Err(Want);
    }
    Ok(())
}

/// The groups of equal cells, by first rows, for which an aggregate over their rows' values fails with
/// a code (own rule).
///
/// Errors: `Want`, where memory is wanting; the pool may then have more texts.
pub fn aggregate_fails(
    alloc: Global,
    hash: HashKeys,
    input: &Table,
    agg: Agg,
    code: Code,
    group: Col,
    value: Col,
    store: &Store,
    pool: &mut Pool,
) -> Result<Table, Want>
    requires few { length input.now.rows < 2 ^ 32 }
    requires group { has_col input.now.cols group ≡ true }
    requires value { has_col input.now.cols value ≡ true }
    requires rows { RowsGiven pool.old store.now input.now.rows }
    requires trees { trees_given (length pool.old) store.now ≡ true }
    requires names { AreGiven pool.old store.now.docs }
    ensures rows { IfOk result (λ t. standing pool.new store.now t ≡ record { cols = group ∷ []; rows = aggregate_fails_rows (item_rules (documents_in pool.old store.now) pool.old) agg code (cell (item_rules (documents_in pool.old store.now) pool.old) input.now.cols group) (cell (item_rules (documents_in pool.old store.now) pool.old) input.now.cols value) (map (meanings pool.old store.now) input.now.rows) }) }
    ensures given { IfOk result (λ t. RowsGiven pool.new store.now t.rows) }
    ensures keeps { take (length pool.old) pool.new ≡ pool.old }
{
    let cells = input.cells(group);
    let index = Index::of(alloc, hash, cells)?;
    let groups = different(alloc, hash, cells)?;
    let values = input.cells(value);
    let places = failing_groups(alloc, agg, code, &index, &groups, values, store, pool)?;
    tell_apart(pool)?;
    let names = gather_cells(alloc, &groups, &places)?;
    Table::single(alloc, group, names)
}

/// The places of groups over whose values an aggregate fails with a code.
fn failing_groups(
    alloc: Global,
    agg: Agg,
    code: Code,
    index: &Index,
    groups: &[Item],
    values: &[Item],
    store: &Store,
    pool: &mut Pool,
) -> Result<Vec<u32>, Want>
    requires few { length groups.now < 2 ^ 32 }
    requires index { length index.now < 2 ^ 32 }
    requires values { ItemsGiven pool.old store.now values.now }
    requires trees { trees_given (length pool.old) store.now ≡ true }
    requires names { AreGiven pool.old store.now.docs }
    ensures places { IfOk result (λ out. out.items ≡ places_of (λ c. is_code code (code_in (group_outcome (documents_in pool.old store.now) agg (meanings pool.old store.now (members index.now values.now c))))) 0 groups.now) }
    ensures keeps { take (length pool.old) pool.new ≡ pool.old }
{
    let mut out = Vec::new(alloc);
    for place in 0..groups.len() {
        let cells = members_of(alloc, index, groups[place], values)?;
        if fails(alloc, agg, code, &cells, store, pool)? {
            if out.push(place as u32).is_err() {
                return Err(Want);
            }
        }
    }
    Ok(out)
}

/// Whether an aggregate over cells fails with a code.
fn fails(
    alloc: Global,
    agg: Agg,
    code: Code,
    cells: &[Item],
    store: &Store,
    pool: &mut Pool,
) -> Result<bool, Want>
    requires few { length cells.now < 2 ^ 32 }
    requires items { ItemsGiven pool.old store.now cells.now }
    requires trees { trees_given (length pool.old) store.now ≡ true }
    requires names { AreGiven pool.old store.now.docs }
    ensures fails { IfOk result (λ b. b ≡ is_code code (code_in (group_outcome (documents_in pool.old store.now) agg (meanings pool.old store.now cells.now)))) }
    ensures keeps { take (length pool.old) pool.new ≡ pool.old }
{
    match whole(alloc, agg, cells, store, pool)? {
        Attempt::Fails(other) => Ok(code == other),
        _ => Ok(false),
    }
}
