//! How many rows the operators give that may give many more than they are given.
ghost use Rattle.std.specs.Prelude.{◌≡◌, ◌<◌, ◌≤◌, ◌^◌, true, length, IfOk, Some};
ghost use Rattle.plan_dag.specs.Meaning.{cell};
ghost use Rattle.plan_dag.specs.Rows.{joined, range_rows, ints_between};
ghost use Rattle.plan_dag.specs.Schema.{has_col};
ghost use Rattle.table_ops.specs.Chains.{places_of};
ghost use Rattle.table_ops.specs.Counts.{pairs_count, ints_count};
ghost use Rattle.table_ops.specs.Held.{kept};
ghost use Rattle.table_ops.specs.Keys.{item_eq};
ghost use Rattle.table_ops.specs.Ranges.{ints_of};

use crate::index::Index;
use crate::table::Table;
use plan_dag::Col;
use std::alloc::Global;
use xq_base::{HashKeys, Item, Want};

/// The number of pairs of rows with equal cells in a left and a right column, without the pairs (own
/// rule).
///
/// Errors: `Want`, where memory is wanting.
pub fn count_join(
    alloc: Global,
    hash: HashKeys,
    left: &Table,
    right: &Table,
    left_col: Col,
    right_col: Col,
) -> Result<u128, Want>
    requires left { has_col left.now.cols left_col ≡ true }
    requires right { has_col right.now.cols right_col ≡ true }
    requires left_few { length left.now.rows < 2 ^ 32 }
    requires right_few { length right.now.rows < 2 ^ 32 }
    ensures { IfOk result (λ n. n ≡ length (joined kept (cell kept left.now.cols left_col) (cell kept right.now.cols right_col) left.now.rows right.now.rows)) }
{
    let index = Index::of(alloc, hash, right.cells(right_col))?;
    Ok(count_pairs(&index, left.cells(left_col)))
}

/// The number of pairs of equal cells.
fn count_pairs(index: &Index, cells: &[Item]) -> u128
    requires index { length index.now < 2 ^ 32 }
    requires cells { length cells.now < 2 ^ 32 }
    ensures { result ≡ pairs_count index.now cells.now }
{
    let mut total = 0;
    for place in 0..cells.len() {
        total += count_equal(index, cells[place]) as u128;
    }
    total
}

/// The number of cells that equal one.
fn count_equal(index: &Index, cell: Item) -> usize
    requires { length index.now < 2 ^ 32 }
    ensures many { result ≡ length (places_of (item_eq cell) 0 index.now) }
    ensures few { result < 4294967296 }
{
    index.places(cell).len()
}

/// The number of integers from a low cell to a high one in all rows, without the integers (own rule).
/// It takes no memory.
pub fn count_range(input: &Table, low: Col, high: Col) -> u128
    requires low { has_col input.now.cols low ≡ true }
    requires high { has_col input.now.cols high ≡ true }
    requires few { length input.now.rows < 2 ^ 32 }
    ensures { result ≡ length (range_rows kept (cell kept input.now.cols low) (cell kept input.now.cols high) input.now.rows) }
{
    count_ints(input.cells(low), input.cells(high))
}

/// The number of integers from each low cell to its high one.
fn count_ints(lows: &[Item], highs: &[Item]) -> u128
    requires few { length lows.now < 2 ^ 32 }
    requires as_many { length lows.now ≡ length highs.now }
    ensures { result ≡ ints_count lows.now highs.now }
{
    let mut total = 0;
    for place in 0..lows.len() {
        total += width(lows[place], highs[place]);
    }
    total
}

/// The number of integers from one cell to another, where both are integers.
fn width(low: Item, high: Item) -> u128
    ensures many { result ≡ length (ints_of low high) }
    ensures few { result ≤ 18446744073709551616 }
{
    match (low, high) {
        (Item::Int(from), Item::Int(to)) => count_up(from, to),
        _ => 0,
    }
}

/// The number of integers from one to another, both included.
#[tactic(auto, using(crate::proofs::CountedLaws::count_none))]
fn count_up(low: i64, high: i64) -> u128
    ensures many { result ≡ length (ints_between (Some low) (Some high)) }
    ensures few { result ≤ 18446744073709551616 }
{
    if high < low {
        0
    } else {
        high.abs_diff(low) as u128 + 1
    }
}
