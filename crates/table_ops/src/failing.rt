//! The operator `map_fails`: the rows on whose cells a function fails.
ghost use Rattle.std.specs.Prelude.{◌≡◌, ◌<◌, ◌^◌, true, length, map, take, IfOk};
ghost use Rattle.doc_table.specs.Stores.{AreGiven};
ghost use Rattle.doc_table.specs.Given.{trees_given};
ghost use Rattle.doc_table.specs.Documents.{documents_in};
ghost use Rattle.doc_table.specs.StoredItems.{ItemsGiven, meanings};
ghost use Rattle.plan_dag.specs.Cells.{code_in};
ghost use Rattle.plan_dag.specs.Meaning.{cells};
ghost use Rattle.plan_dag.specs.Rows.{map_fails_rows, is_code};
ghost use Rattle.plan_dag.specs.Schema.{has_cols, takes};
ghost use Rattle.plan_dag.specs.ItemRules.{item_rules, fun_outcome};
ghost use Rattle.table_ops.specs.Chains.{places_of};
ghost use Rattle.table_ops.specs.Columns.{cells_of, row_at};
ghost use Rattle.table_ops.specs.Standing.{standing, RowsGiven};

use crate::attempts::{Attempt, outcome};
use crate::mapping::{add_cells, fill};
use crate::table::Table;
use doc_table::Store;
use plan_dag::{Col, Cols};
use std::alloc::Global;
use xq_base::{Code, Fun, Item, Pool, Want};

/// The rows for which a function fails with a code on their cells in some columns.
///
/// Errors: `Want`, where memory is wanting; the pool may then have more texts.
pub fn map_fails(
    alloc: Global,
    input: &Table,
    fun: Fun,
    code: Code,
    cols: &Cols,
    store: &Store,
    pool: &mut Pool,
) -> Result<Table, Want>
    requires few { length input.now.rows < 2 ^ 32 }
    requires there { has_cols input.now.cols cols.now ≡ true }
    requires fun { takes fun (length cols.now) ≡ true }
    requires rows { RowsGiven pool.old store.now input.now.rows }
    requires trees { trees_given (length pool.old) store.now ≡ true }
    requires names { AreGiven pool.old store.now.docs }
    ensures rows { IfOk result (λ t. standing pool.new store.now t ≡ record { cols = input.now.cols; rows = map_fails_rows (item_rules (documents_in pool.old store.now) pool.old) fun code (cells (item_rules (documents_in pool.old store.now) pool.old) input.now.cols cols.now) (map (meanings pool.old store.now) input.now.rows) }) }
    ensures given { IfOk result (λ t. RowsGiven pool.new store.now t.rows) }
    ensures keeps { take (length pool.old) pool.new ≡ pool.old }
{
    let places = failing(alloc, input, fun, code, cols.as_slice(), store, pool)?;
    input.gather(alloc, &places)
}

/// The places of rows on whose cells a function fails with a code.
fn failing(
    alloc: Global,
    input: &Table,
    fun: Fun,
    code: Code,
    cols: &[Col],
    store: &Store,
    pool: &mut Pool,
) -> Result<Vec<u32>, Want>
    requires few { length input.now.rows < 2 ^ 32 }
    requires there { has_cols input.now.cols cols.now ≡ true }
    requires fun { takes fun (length cols.now) ≡ true }
    requires rows { RowsGiven pool.old store.now input.now.rows }
    requires trees { trees_given (length pool.old) store.now ≡ true }
    requires names { AreGiven pool.old store.now.docs }
    ensures places { IfOk result (λ out. out.items ≡ places_of (λ r. is_code code (code_in (fun_outcome (documents_in pool.old store.now) fun (meanings pool.old store.now (cells_of input.now.cols cols.now r))))) 0 input.now.rows) }
    ensures keeps { take (length pool.old) pool.new ≡ pool.old }
{
    let mut columns = Vec::new(alloc);
    add_cells(input, cols, &mut columns)?;
    let mut out = Vec::new(alloc);
    let mut args = Vec::new(alloc);
    for place in 0..input.height() {
        if fails_at(
            alloc,
            fun,
            code,
            &columns,
            place as u32,
            store,
            pool,
            &mut args,
        )? {
            if out.push(place as u32).is_err() {
                return Err(Want);
            }
        }
    }
    Ok(out)
}

/// Whether a function fails with a code on the cells at a place.
fn fails_at(
    alloc: Global,
    fun: Fun,
    code: Code,
    columns: &[&[Item]],
    place: u32,
    store: &Store,
    pool: &mut Pool,
    args: &mut Vec<Item>,
) -> Result<bool, Want>
    requires fun { takes fun (length columns.now) ≡ true }
    requires items { ItemsGiven pool.old store.now (row_at (map (λ s. s.now) columns.now) place) }
    requires trees { trees_given (length pool.old) store.now ≡ true }
    requires names { AreGiven pool.old store.now.docs }
    ensures fails { IfOk result (λ b. b ≡ is_code code (code_in (fun_outcome (documents_in pool.old store.now) fun (meanings pool.old store.now (row_at (map (λ s. s.now) columns.now) place))))) }
    ensures keeps { take (length pool.old) pool.new ≡ pool.old }
{
    fill(columns, place, args)?;
    fails(alloc, fun, code, args, store, pool)
}

/// Whether a function fails with a code on cells.
fn fails(
    alloc: Global,
    fun: Fun,
    code: Code,
    args: &[Item],
    store: &Store,
    pool: &mut Pool,
) -> Result<bool, Want>
    requires fun { takes fun (length args.now) ≡ true }
    requires items { ItemsGiven pool.old store.now args.now }
    requires trees { trees_given (length pool.old) store.now ≡ true }
    requires names { AreGiven pool.old store.now.docs }
    ensures fails { IfOk result (λ b. b ≡ is_code code (code_in (fun_outcome (documents_in pool.old store.now) fun (meanings pool.old store.now args.now)))) }
    ensures keeps { take (length pool.old) pool.new ≡ pool.old }
{
    match outcome(alloc, fun, args, store, pool)? {
        Attempt::Fails(other) => Ok(code == other),
        _ => Ok(false),
    }
}
