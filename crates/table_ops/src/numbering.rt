//! The operator `rownum`: numbers of rows in the order of keys.
ghost use Rattle.std.specs.Prelude.{◌≡◌, ◌<◌, ◌≤◌, ◌+◌, ◌^◌, ◌++◌, ◌∷◌, [], true, length, map, IfOk};
ghost use Rattle.std.specs.Ordering.{is_eq};
ghost use Rattle.plan_dag.specs.Schema.{has_cols};
ghost use Rattle.plan_dag.specs.Meaning.{sort_keys};
ghost use Rattle.plan_dag.specs.Rows.{rownum_rows, keys_less, num};
ghost use Rattle.table_ops.specs.Chains.{AllBelow};
ghost use Rattle.table_ops.specs.Columns.{cell_of};
ghost use Rattle.table_ops.specs.Held.{kept, held_rules};
ghost use Rattle.table_ops.specs.Sorting.{places_cmp, run_from, next_number, columns_given, part_keys, tied_part, AtMostOnce, cell_numbers};

use crate::gather::cell_at;
use crate::sorting::{columns_of, compare_places, in_order};
use crate::table::Table;
use plan_dag::{Col, Key, Keys};
use std::alloc::Global;
use std::cmp::Ordering;
use xq_base::{Item, Pool, Want};

/// Each row with its number: one more than the number of rows of its part that stand before it by the
/// keys, then by place. Where there is no part, all rows are one (own rule).
///
/// Errors: `Want`, where memory is wanting.
pub fn rownum(
    alloc: Global,
    input: &Table,
    col: Col,
    keys: &Keys,
    part: Option<Col>,
    pool: &Pool,
) -> Result<Table, Want>
    requires few_cols { length input.now.cols < 8 }
    requires few { length input.now.rows < 2 ^ 32 }
    requires keys { has_cols input.now.cols (map (λ k. k.col) keys.now) ≡ true }
    requires part { has_cols input.now.cols (map (λ k. k.col) (part_keys part)) ≡ true }
    requires given { columns_given (length pool.now) input.now.rows ≡ true }
    ensures { IfOk result (λ t. t ≡ record { cols = input.now.cols ++ col ∷ []; rows = rownum_rows kept (tied_part pool.now input.now.cols part) (keys_less (held_rules pool.now) (sort_keys (held_rules pool.now) input.now.cols keys.now)) input.now.rows }) }
{
    let part = part_key(alloc, part)?;
    let numbers = numbers_of(alloc, input, &part, keys.as_slice(), pool)?;
    let added = Table::single(alloc, col, numbers)?;
    input.beside(alloc, &added)
}

/// The key by which the rows of a part stand together.
fn part_key(alloc: Global, part: Option<Col>) -> Result<Vec<Key>, Want>
    ensures { IfOk result (λ out. out.items ≡ part_keys part) }
{
    let mut out = Vec::new(alloc);
    if let Some(col) = part {
        let key = Key {
            col,
            descending: false,
        };
        if out.push(key).is_err() {
            return Err(Want);
        }
    }
    Ok(out)
}

/// The numbers of rows, as cells.
fn numbers_of(
    alloc: Global,
    input: &Table,
    part: &[Key],
    keys: &[Key],
    pool: &Pool,
) -> Result<Vec<Item>, Want>
    requires few { length input.now.rows < 2 ^ 32 }
    requires keys { has_cols input.now.cols (map (λ k. k.col) keys.now) ≡ true }
    requires part { has_cols input.now.cols (map (λ k. k.col) part.now) ≡ true }
    requires given { columns_given (length pool.now) input.now.rows ≡ true }
    ensures { IfOk result (λ out. out.items ≡ cell_numbers pool.now input.now.cols part.now keys.now input.now.rows) }
{
    let parts = columns_of(alloc, input, part)?;
    let columns = columns_of(alloc, input, keys)?;
    let order = in_order(alloc, input.height(), &parts, part, &columns, keys, pool)?;
    let cells = run_numbers(alloc, &order, &parts, part, pool)?;
    scatter(alloc, &order, &cells)
}

/// Numbers along places in order, from 1 on within each part, as cells.
fn run_numbers(
    alloc: Global,
    order: &[u32],
    parts: &[&[Item]],
    part: &[Key],
    pool: &Pool,
) -> Result<Vec<Item>, Want>
    requires few { length order.now < 2 ^ 32 }
    requires parts { columns_given (length pool.now) (map (λ s. s.now) parts.now) ≡ true }
    ensures { IfOk result (λ out. out.items ≡ map (num kept) (run_from (λ a b. is_eq (places_cmp pool.now (map (λ s. s.now) parts.now) part.now a b)) 0 0 order.now)) }
{
    let mut out = Vec::with_capacity(alloc, order.len())?;
    let mut last = 0;
    let mut number = 0;
    for place in order {
        number = numbered(is_together(parts, part, last, *place, pool), number);
        last = *place;
        if out.push(Item::Int(number as i64)).is_err() {
            return Err(Want);
        }
    }
    Ok(out)
}

/// Whether two rows are of one part.
fn is_together(parts: &[&[Item]], part: &[Key], a: u32, b: u32, pool: &Pool) -> bool
    requires { columns_given (length pool.now) (map (λ s. s.now) parts.now) ≡ true }
    ensures { result ≡ is_eq (places_cmp pool.now (map (λ s. s.now) parts.now) part.now a b) }
{
    match compare_places(parts, part, a, b, pool) {
        Ordering::Equal => true,
        _ => false,
    }
}

fn numbered(together: bool, number: u32) -> u32
    requires { number + 1 < 2 ^ 32 }
    ensures number { result ≡ next_number together number }
    ensures few { result ≤ number + 1 }
{
    if together { number + 1 } else { 1 }
}

/// Cells, each at its place.
fn scatter(alloc: Global, order: &[u32], cells: &[Item]) -> Result<Vec<Item>, Want>
    requires few { length order.now < 2 ^ 32 }
    requires as_many { length order.now ≡ length cells.now }
    requires within { AllBelow (length order.now) order.now }
    requires once { AtMostOnce order.now }
    ensures cells { IfOk result (λ out. map (cell_of out.items) order.now ≡ cells.now) }
    ensures long { IfOk result (λ out. length out.items ≡ length order.now) }
{
    let mut out = Vec::from_elem(alloc, Item::Int(0), order.len())?;
    place_all(order, cells, &mut out);
    Ok(out)
}

/// Puts each cell at its place.
fn place_all(order: &[u32], cells: &[Item], out: &mut [Item])
    requires few { length order.now < 2 ^ 32 }
    requires as_many { length order.now ≡ length cells.now }
    requires long { length out.old ≡ length order.now }
    requires within { AllBelow (length order.now) order.now }
    requires once { AtMostOnce order.now }
    ensures cells { map (cell_of out.new) order.now ≡ cells.now }
    ensures long { length out.new ≡ length order.now }
{
    for turn in 0..order.len() {
        let place = order[turn] as usize;
        out[place] = cell_at(cells, turn as u32);
    }
}
