//! The operators that look for equal cells in another table: `join` and `difference`.
ghost use Rattle.std.specs.Prelude.{◌≡◌, ◌<◌, ◌≤◌, ◌+◌, ◌^◌, ◌++◌, [], length, map, true, IfOk};
ghost use Rattle.plan_dag.specs.Schema.{has_col};
ghost use Rattle.plan_dag.specs.Meaning.{cell};
ghost use Rattle.plan_dag.specs.Rows.{joined, left_over};
ghost use Rattle.table_ops.specs.Held.{kept};
ghost use Rattle.table_ops.specs.Keys.{item_eq};
ghost use Rattle.table_ops.specs.Matches.{equal_pairs_from, lone_places};

use crate::chains::Chains;
use crate::keys::{look_up, number};
use crate::picks::places_from;
use crate::table::Table;
use indexmap::IndexSet;
use plan_dag::Col;
use std::alloc::Global;
use xq_base::{HashKeys, Item, Want};

/// The pairs of rows with equal cells in a left and a right column, by the left row first.
///
/// Errors: `Want`, where memory is wanting.
pub fn join(
    alloc: Global,
    hash: HashKeys,
    left: &Table,
    right: &Table,
    left_col: Col,
    right_col: Col,
) -> Result<Table, Want>
    requires few { length left.now.cols + length right.now.cols < 9 }
    requires left { has_col left.now.cols left_col ≡ true }
    requires right { has_col right.now.cols right_col ≡ true }
    requires left_few { length left.now.rows < 2 ^ 32 }
    requires right_few { length right.now.rows < 2 ^ 32 }
    ensures { IfOk result (λ t. t ≡ record { cols = left.now.cols ++ right.now.cols; rows = joined kept (cell kept left.now.cols left_col) (cell kept right.now.cols right_col) left.now.rows right.now.rows }) }
{
    let pairs = equal_pairs(alloc, hash, left.cells(left_col), right.cells(right_col))?;
    let left_places = lefts(alloc, &pairs)?;
    let right_places = rights(alloc, &pairs)?;
    let left_rows = left.gather(alloc, &left_places)?;
    let right_rows = right.gather(alloc, &right_places)?;
    left_rows.beside(alloc, &right_rows)
}

/// The left rows whose cell in a column is in no row of the right table's column.
///
/// Errors: `Want`, where memory is wanting.
pub fn difference(
    alloc: Global,
    hash: HashKeys,
    left: &Table,
    right: &Table,
    left_col: Col,
    right_col: Col,
) -> Result<Table, Want>
    requires left { has_col left.now.cols left_col ≡ true }
    requires right { has_col right.now.cols right_col ≡ true }
    requires left_few { length left.now.rows < 2 ^ 32 }
    requires right_few { length right.now.rows < 2 ^ 32 }
    ensures { IfOk result (λ t. t ≡ record { cols = left.now.cols; rows = left_over kept (cell kept left.now.cols left_col) (cell kept right.now.cols right_col) left.now.rows right.now.rows }) }
{
    let places = unequal_places(alloc, hash, left.cells(left_col), right.cells(right_col))?;
    left.gather(alloc, &places)
}

/// The pairs of places with equal cells, by the left place first.
fn equal_pairs(
    alloc: Global,
    hash: HashKeys,
    left: &[Item],
    right: &[Item],
) -> Result<Vec<(u32, u32)>, Want>
    requires left { length left.now < 2 ^ 32 }
    requires right { length right.now < 2 ^ 32 }
    ensures { IfOk result (λ out. out.items ≡ equal_pairs_from item_eq 0 left.now right.now) }
{
    let mut table = IndexSet::with_hasher(alloc, hash);
    let right_keys = number(alloc, right, &mut table)?;
    let left_keys = look_up(alloc, left, &table)?;
    let chains = Chains::of(alloc, &right_keys, table.len() + 1)?;
    match chains.join(alloc, &left_keys, &right_keys) {
        Ok(pairs) => Ok(pairs),
        Err(_) => Err(Want),
    }
}

/// The places of left cells that are equal to no right cell.
fn unequal_places(
    alloc: Global,
    hash: HashKeys,
    left: &[Item],
    right: &[Item],
) -> Result<Vec<u32>, Want>
    requires left { length left.now < 2 ^ 32 }
    requires right { length right.now < 2 ^ 32 }
    ensures { IfOk result (λ out. out.items ≡ lone_places item_eq left.now right.now) }
{
    let mut table = IndexSet::with_hasher(alloc, hash);
    let _right_keys = number(alloc, right, &mut table)?;
    let left_keys = look_up(alloc, left, &table)?;
    places_from(alloc, &left_keys, table.len())
}

/// The left places of pairs.
fn lefts(alloc: Global, pairs: &[(u32, u32)]) -> Result<Vec<u32>, Want>
    ensures { IfOk result (λ out. out.items ≡ map (λ p. p.0) pairs.now) }
{
    let mut out = Vec::with_capacity(alloc, pairs.len())?;
    for pair in pairs {
        if out.push(pair.0).is_err() {
            return Err(Want);
        }
    }
    Ok(out)
}

/// The right places of pairs.
fn rights(alloc: Global, pairs: &[(u32, u32)]) -> Result<Vec<u32>, Want>
    ensures { IfOk result (λ out. out.items ≡ map (λ p. p.1) pairs.now) }
{
    let mut out = Vec::with_capacity(alloc, pairs.len())?;
    for pair in pairs {
        if out.push(pair.1).is_err() {
            return Err(Want);
        }
    }
    Ok(out)
}
