//! The operator `range`: a row for each integer from one cell to another.
ghost use Rattle.std.specs.Prelude.{◌≡◌, ◌<◌, ◌^◌, ◌++◌, ◌∷◌, [], length, map, true, IfOk, IfSome, OnOk, Some, ◌≤ℤ◌};
ghost use Rattle.xq_base.specs.declared.item.Item.TheVariants as i;
ghost use Rattle.plan_dag.specs.Schema.{has_col};
ghost use Rattle.plan_dag.specs.Meaning.{cell};
ghost use Rattle.plan_dag.specs.Rows.{range_rows, ints_between};
ghost use Rattle.table_ops.specs.Held.{kept};
ghost use Rattle.table_ops.specs.Ranges.{ints_of, counted, counted_from};

use crate::table::Table;
use plan_dag::Col;
use std::alloc::Global;
use xq_base::{Item, Want};

/// Each row, once for each integer from its cell in one column to its cell in another, with this integer
/// (own rule).
///
/// Errors: `Want`, where memory is wanting.
pub fn range(alloc: Global, input: &Table, low: Col, high: Col, col: Col) -> Result<Table, Want>
    requires low { has_col input.now.cols low ≡ true }
    requires high { has_col input.now.cols high ≡ true }
    requires few_cols { length input.now.cols < 8 }
    requires few { length input.now.rows < 2 ^ 32 }
    ensures { IfOk result (λ t. t ≡ record { cols = input.now.cols ++ col ∷ []; rows = range_rows kept (cell kept input.now.cols low) (cell kept input.now.cols high) input.now.rows }) }
{
    let pairs = integers_of(alloc, input.cells(low), input.cells(high))?;
    let places = places_in(alloc, &pairs)?;
    let cells = cells_in(alloc, &pairs)?;
    let rows = input.gather(alloc, &places)?;
    let added = Table::single(alloc, col, cells)?;
    rows.beside(alloc, &added)
}

/// The integers of each row, with its place.
fn integers_of(alloc: Global, low: &[Item], high: &[Item]) -> Result<Vec<(u32, i64)>, Want>
    requires few { length low.now < 2 ^ 32 }
    requires as_many { length low.now ≡ length high.now }
    ensures { IfOk result (λ out. out.items ≡ counted_from 0 low.now high.now) }
{
    let mut out = Vec::new(alloc);
    for place in 0..low.len() {
        count_cells(low[place], high[place], place as u32, &mut out)?;
    }
    Ok(out)
}

/// The integers from one cell to another, where both are integers.
fn count_cells(low: Item, high: Item, place: u32, out: &mut Vec<(u32, i64)>) -> Result<(), Want>
    ensures { OnOk result (out.new.items ≡ out.old.items ++ counted place (ints_of low high)) }
{
    match (low, high) {
        (Item::Int(from), Item::Int(to)) => count_up(from, to, place, out),
        _ => Ok(()),
    }
}

/// The integers from one to another, both included.
#[tactic(auto, using(crate::proofs::RangeLaws::count_step))]
fn count_up(low: i64, high: i64, place: u32, out: &mut Vec<(u32, i64)>) -> Result<(), Want>
    ensures { OnOk result (out.new.items ≡ out.old.items ++ counted place (ints_between (Some low) (Some high))) }
{
    let mut next = first_of(low, high);
    while let Some(at) = next {
        if out.push((place, at)).is_err() {
            return Err(Want);
        }
        next = following(at, high);
    }
    Ok(())
}

/// The first integer from one to another, where there is one.
#[tactic(auto, using(crate::proofs::RangeLaws::count_end))]
fn first_of(low: i64, high: i64) -> Option<i64>
    ensures rest { ints_between (Some low) (Some high) ≡ ints_between result (Some high) }
    ensures within { IfSome result (λ z. z ≤ℤ high) }
{
    if high < low { None } else { Some(low) }
}

/// The integer behind one, up to another.
#[tactic(auto, using(crate::proofs::RangeLaws::count_last))]
fn following(at: i64, high: i64) -> Option<i64>
    requires { at ≤ℤ high }
    ensures rest { ints_between (Some at) (Some high) ≡ at ∷ ints_between result (Some high) }
    ensures within { IfSome result (λ z. z ≤ℤ high) }
{
    if at < high { Some(at + 1) } else { None }
}

fn places_in(alloc: Global, pairs: &[(u32, i64)]) -> Result<Vec<u32>, Want>
    ensures { IfOk result (λ out. out.items ≡ map (λ p. p.0) pairs.now) }
{
    let mut out = Vec::with_capacity(alloc, pairs.len())?;
    for pair in pairs {
        if out.push(pair.0).is_err() {
            return Err(Want);
        }
    }
    Ok(out)
}

fn cells_in(alloc: Global, pairs: &[(u32, i64)]) -> Result<Vec<Item>, Want>
    ensures { IfOk result (λ out. out.items ≡ map (λ p. i.Int p.1) pairs.now) }
{
    let mut out = Vec::with_capacity(alloc, pairs.len())?;
    for pair in pairs {
        if out.push(Item::Int(pair.1)).is_err() {
            return Err(Want);
        }
    }
    Ok(out)
}
