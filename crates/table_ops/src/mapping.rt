//! The operator `map`: a function on the cells of each row.
ghost use Rattle.std.specs.Prelude.{◌≡◌, ◌<◌, ◌^◌, ◌++◌, ◌∷◌, [], true, length, map, take, IfOk, OnOk};
ghost use Rattle.doc_table.specs.Stores.{AreGiven};
ghost use Rattle.doc_table.specs.Given.{trees_given};
ghost use Rattle.doc_table.specs.Documents.{documents_in};
ghost use Rattle.doc_table.specs.StoredItems.{ItemsGiven, meanings};
ghost use Rattle.plan_dag.specs.Cells.{given};
ghost use Rattle.plan_dag.specs.Meaning.{cells};
ghost use Rattle.plan_dag.specs.Rows.{map_rows};
ghost use Rattle.plan_dag.specs.Schema.{has_cols, takes};
ghost use Rattle.plan_dag.specs.ItemRules.{item_rules, fun_outcome};
ghost use Rattle.table_ops.specs.Columns.{cells_at, cells_of, row_at};
ghost use Rattle.table_ops.specs.Attempts.{valued, pairs_in, PairsGiven};
ghost use Rattle.table_ops.specs.Standing.{standing, RowsGiven};

use crate::attempts::{Attempt, outcome};
use crate::gather::cell_at;
use crate::table::Table;
use doc_table::Store;
use plan_dag::{Col, Cols};
use std::alloc::Global;
use xq_base::{Fun, Item, Pool, Want};

/// The rows for which a function has a value on their cells in some columns, each with the value.
///
/// Errors: `Want`, where memory is wanting; the pool may then have more texts.
pub fn map(
    alloc: Global,
    input: &Table,
    fun: Fun,
    cols: &Cols,
    col: Col,
    store: &Store,
    pool: &mut Pool,
) -> Result<Table, Want>
    requires few_cols { length input.now.cols < 8 }
    requires few { length input.now.rows < 2 ^ 32 }
    requires there { has_cols input.now.cols cols.now ≡ true }
    requires fun { takes fun (length cols.now) ≡ true }
    requires rows { RowsGiven pool.old store.now input.now.rows }
    requires trees { trees_given (length pool.old) store.now ≡ true }
    requires names { AreGiven pool.old store.now.docs }
    ensures rows { IfOk result (λ t. standing pool.new store.now t ≡ record { cols = input.now.cols ++ col ∷ []; rows = map_rows (item_rules (documents_in pool.old store.now) pool.old) fun (cells (item_rules (documents_in pool.old store.now) pool.old) input.now.cols cols.now) (map (meanings pool.old store.now) input.now.rows) }) }
    ensures given { IfOk result (λ t. RowsGiven pool.new store.now t.rows) }
    ensures keeps { take (length pool.old) pool.new ≡ pool.old }
{
    let found = values(alloc, input, fun, cols.as_slice(), store, pool)?;
    let places = places_in(alloc, &found)?;
    let cells = cells_in(alloc, &found)?;
    let rows = input.gather(alloc, &places)?;
    let added = Table::single(alloc, col, cells)?;
    rows.beside(alloc, &added)
}

/// The values of a function on the cells of rows, each with the row's place.
fn values(
    alloc: Global,
    input: &Table,
    fun: Fun,
    cols: &[Col],
    store: &Store,
    pool: &mut Pool,
) -> Result<Vec<(u32, Item)>, Want>
    requires few { length input.now.rows < 2 ^ 32 }
    requires there { has_cols input.now.cols cols.now ≡ true }
    requires fun { takes fun (length cols.now) ≡ true }
    requires rows { RowsGiven pool.old store.now input.now.rows }
    requires trees { trees_given (length pool.old) store.now ≡ true }
    requires names { AreGiven pool.old store.now.docs }
    ensures found { IfOk result (λ out. pairs_in pool.new store.now out.items ≡ valued (λ r. fun_outcome (documents_in pool.old store.now) fun (meanings pool.old store.now (cells_of input.now.cols cols.now r))) 0 input.now.rows) }
    ensures given { IfOk result (λ out. PairsGiven pool.new store.now out.items) }
    ensures keeps { take (length pool.old) pool.new ≡ pool.old }
{
    let mut columns = Vec::new(alloc);
    add_cells(input, cols, &mut columns)?;
    let mut found = Vec::new(alloc);
    let mut args = Vec::new(alloc);
    for place in 0..input.height() {
        map_row(
            alloc,
            fun,
            &columns,
            place as u32,
            store,
            pool,
            &mut args,
            &mut found,
        )?;
    }
    Ok(found)
}

/// Adds the value of a function on the cells at a place, where it has one.
fn map_row(
    alloc: Global,
    fun: Fun,
    columns: &[&[Item]],
    place: u32,
    store: &Store,
    pool: &mut Pool,
    args: &mut Vec<Item>,
    found: &mut Vec<(u32, Item)>,
) -> Result<(), Want>
    requires fun { takes fun (length columns.now) ≡ true }
    requires items { ItemsGiven pool.old store.now (row_at (map (λ s. s.now) columns.now) place) }
    requires found { PairsGiven pool.old store.now found.old.items }
    requires trees { trees_given (length pool.old) store.now ≡ true }
    requires names { AreGiven pool.old store.now.docs }
    ensures found { OnOk result (pairs_in pool.new store.now found.new.items ≡ pairs_in pool.old store.now found.old.items ++ map (λ v. (place, v)) (given (fun_outcome (documents_in pool.old store.now) fun (meanings pool.old store.now (row_at (map (λ s. s.now) columns.now) place))))) }
    ensures given { OnOk result (PairsGiven pool.new store.now found.new.items) }
    ensures keeps { take (length pool.old) pool.new ≡ pool.old }
{
    fill(columns, place, args)?;
    put_value(alloc, fun, args, place, store, pool, found)
}

/// The cells of some columns, lent.
pub fn add_cells<'a>(input: &'a Table, cols: &[Col], out: &mut Vec<&'a [Item]>) -> Result<(), Want>
    requires { has_cols input.now.cols cols.now ≡ true }
    ensures { OnOk result (map (λ s. s.now) out.new.items ≡ map (λ s. s.now) out.old.items ++ map (λ d. cells_at input.now.cols d input.now.rows) cols.now) }
{
    match cols.split_first() {
        None => Ok(()),
        Some((col, rest)) => {
            if out.push(input.cells(*col)).is_err() {
                return Err(Want);
            }
            add_cells(input, rest, out)
        }
    }
}

/// The cells at a place, in the place of what stood there.
pub fn fill(columns: &[&[Item]], place: u32, out: &mut Vec<Item>) -> Result<(), Want>
    ensures { OnOk result (out.new.items ≡ row_at (map (λ s. s.now) columns.now) place) }
{
    out.clear();
    add_row(columns, place, out)
}

/// Adds the cells at a place.
fn add_row(columns: &[&[Item]], place: u32, out: &mut Vec<Item>) -> Result<(), Want>
    ensures { OnOk result (out.new.items ≡ out.old.items ++ row_at (map (λ s. s.now) columns.now) place) }
{
    match columns.split_first() {
        None => Ok(()),
        Some((cells, rest)) => {
            if out.push(cell_at(cells, place)).is_err() {
                return Err(Want);
            }
            add_row(rest, place, out)
        }
    }
}

/// Adds the value of a function on cells, where it has one, with a place.
fn put_value(
    alloc: Global,
    fun: Fun,
    args: &[Item],
    place: u32,
    store: &Store,
    pool: &mut Pool,
    found: &mut Vec<(u32, Item)>,
) -> Result<(), Want>
    requires fun { takes fun (length args.now) ≡ true }
    requires items { ItemsGiven pool.old store.now args.now }
    requires found { PairsGiven pool.old store.now found.old.items }
    requires trees { trees_given (length pool.old) store.now ≡ true }
    requires names { AreGiven pool.old store.now.docs }
    ensures found { OnOk result (pairs_in pool.new store.now found.new.items ≡ pairs_in pool.old store.now found.old.items ++ map (λ v. (place, v)) (given (fun_outcome (documents_in pool.old store.now) fun (meanings pool.old store.now args.now)))) }
    ensures given { OnOk result (PairsGiven pool.new store.now found.new.items) }
    ensures keeps { take (length pool.old) pool.new ≡ pool.old }
{
    let Attempt::Value(item) = outcome(alloc, fun, args, store, pool)? else {
        return Ok(());
    };
    if found.push((place, item)).is_err() {
        return Err(Want);
    }
    Ok(())
}

/// The places of found values.
pub fn places_in(alloc: Global, found: &[(u32, Item)]) -> Result<Vec<u32>, Want>
    ensures { IfOk result (λ out. out.items ≡ map (λ p. p.0) found.now) }
{
    let mut out = Vec::with_capacity(alloc, found.len())?;
    for pair in found {
        if out.push(pair.0).is_err() {
            return Err(Want);
        }
    }
    Ok(out)
}

/// The found values.
pub fn cells_in(alloc: Global, found: &[(u32, Item)]) -> Result<Vec<Item>, Want>
    ensures { IfOk result (λ out. out.items ≡ map (λ p. p.1) found.now) }
{
    let mut out = Vec::with_capacity(alloc, found.len())?;
    for pair in found {
        if out.push(pair.1).is_err() {
            return Err(Want);
        }
    }
    Ok(out)
}
