//! The operators that find equal rows of one table: `distinct` and `count`.
ghost use Rattle.std.specs.Prelude.{◌≡◌, ◌<◌, ◌≤◌, ◌+◌, ◌^◌, ◌∷◌, [], length, map, true, replicate, IfOk};
ghost use Rattle.indexmap.specs.IndexSet.{insert_all};
ghost use Rattle.plan_dag.specs.Schema.{has_col, has_cols};
ghost use Rattle.plan_dag.specs.Meaning.{cell, cells};
ghost use Rattle.plan_dag.specs.Rows.{first_rows, count_rows, num};
ghost use Rattle.table_ops.specs.Chains.{AllBelow};
ghost use Rattle.table_ops.specs.Held.{kept};
ghost use Rattle.table_ops.specs.Keys.{item_eq};
ghost use Rattle.table_ops.specs.Groups.{paired, counts_of, refined, keys_by};

use crate::keys::{firsts, number};
use crate::table::Table;
use indexmap::IndexSet;
use plan_dag::{Col, Cols};
use std::alloc::Global;
use xq_base::{HashKeys, Item, Want};

/// The first row of those with equal cells in some columns.
///
/// Errors: `Want`, where memory is wanting.
pub fn distinct(alloc: Global, hash: HashKeys, input: &Table, cols: &Cols) -> Result<Table, Want>
    requires there { has_cols input.now.cols cols.now ≡ true }
    requires few { length input.now.rows < 2 ^ 32 }
    ensures { IfOk result (λ t. t ≡ record { cols = input.now.cols; rows = first_rows kept (cells kept input.now.cols cols.now) input.now.rows }) }
{
    let keys = keys_of(alloc, hash, input, cols.as_slice())?;
    let places = firsts(alloc, &keys)?;
    input.gather(alloc, &places)
}

/// Keys of rows by their cells in some columns.
fn keys_of(alloc: Global, hash: HashKeys, input: &Table, cols: &[Col]) -> Result<Vec<u32>, Want>
    requires there { has_cols input.now.cols cols.now ≡ true }
    requires few { length input.now.rows < 2 ^ 32 }
    ensures { IfOk result (λ out. out.items ≡ keys_by input.now.cols cols.now input.now.rows) }
{
    match cols.split_first() {
        None => zeros(alloc, input.height()),
        Some((col, rest)) => {
            let keys = keys_of(alloc, hash, input, rest)?;
            refine(alloc, hash, &keys, input.cells(*col))
        }
    }
}

/// The same key so many times.
fn zeros(alloc: Global, many: usize) -> Result<Vec<u32>, Want>
    ensures { IfOk result (λ out. out.items ≡ replicate many 0) }
{
    let mut out = Vec::with_capacity(alloc, many)?;
    for _turn in 0..many {
        if out.push(0).is_err() {
            return Err(Want);
        }
    }
    Ok(out)
}

/// Keys that are equal where these keys are and the cells too.
fn refine(alloc: Global, hash: HashKeys, keys: &[u32], cells: &[Item]) -> Result<Vec<u32>, Want>
    requires few { length keys.now < 2 ^ 32 }
    requires as_many { length keys.now ≡ length cells.now }
    ensures { IfOk result (λ out. out.items ≡ refined keys.now cells.now) }
{
    let values = pairs_of(alloc, keys, cells)?;
    let mut table = IndexSet::with_hasher(alloc, hash);
    number(alloc, &values, &mut table)
}

/// A key with a cell each.
fn pairs_of(alloc: Global, keys: &[u32], cells: &[Item]) -> Result<Vec<(u32, Item)>, Want>
    requires { length keys.now ≡ length cells.now }
    ensures { IfOk result (λ out. out.items ≡ paired keys.now cells.now) }
{
    let mut out = Vec::with_capacity(alloc, keys.len())?;
    for place in 0..keys.len() {
        if out.push((keys[place], cells[place])).is_err() {
            return Err(Want);
        }
    }
    Ok(out)
}

/// The rows of each group, by its first row: its cell, and how many they are.
///
/// Errors: `Want`, where memory is wanting.
pub fn count(
    alloc: Global,
    hash: HashKeys,
    input: &Table,
    group: Col,
    col: Col,
) -> Result<Table, Want>
    requires there { has_col input.now.cols group ≡ true }
    requires few { length input.now.rows < 2 ^ 32 }
    ensures { IfOk result (λ t. t ≡ record { cols = group ∷ col ∷ []; rows = count_rows kept (cell kept input.now.cols group) input.now.rows }) }
{
    let mut table = IndexSet::with_hasher(alloc, hash);
    let keys = number(alloc, input.cells(group), &mut table)?;
    let counts = tally(alloc, &keys, table.len())?;
    let groups = values_in(alloc, &table)?;
    let numbers = integers(alloc, &counts)?;
    let left = Table::single(alloc, group, groups)?;
    let right = Table::single(alloc, col, numbers)?;
    left.beside(alloc, &right)
}

/// How often each of so many keys comes.
fn tally(alloc: Global, keys: &[u32], groups: usize) -> Result<Vec<u32>, Want>
    requires below { AllBelow groups keys.now }
    requires few { length keys.now < 2 ^ 32 }
    ensures { IfOk result (λ out. out.items ≡ counts_of groups keys.now) }
{
    let mut counts = Vec::from_elem(alloc, 0, groups)?;
    for place in 0..keys.len() {
        counts[keys[place] as usize] += 1;
    }
    Ok(counts)
}

/// Numbers as cells.
pub fn integers(alloc: Global, numbers: &[u32]) -> Result<Vec<Item>, Want>
    ensures { IfOk result (λ out. out.items ≡ map (num kept) numbers.now) }
{
    let mut out = Vec::with_capacity(alloc, numbers.len())?;
    for number in numbers {
        if out.push(Item::Int(*number as i64)).is_err() {
            return Err(Want);
        }
    }
    Ok(out)
}

/// The different ones among cells, by their first places.
pub fn different(alloc: Global, hash: HashKeys, cells: &[Item]) -> Result<Vec<Item>, Want>
    requires { length cells.now < 2 ^ 32 }
    ensures { IfOk result (λ out. out.items ≡ insert_all item_eq [] cells.now) }
{
    let mut table = IndexSet::with_hasher(alloc, hash);
    let _keys = number(alloc, cells, &mut table)?;
    values_in(alloc, &table)
}

/// The values of a table of different ones, in their order.
fn values_in(alloc: Global, table: &IndexSet<Item, HashKeys>) -> Result<Vec<Item>, Want>
    ensures { IfOk result (λ out. out.items ≡ table.now.keys) }
{
    let mut out = Vec::new(alloc);
    out.extend_from_slice(table.as_slice())?;
    Ok(out)
}
