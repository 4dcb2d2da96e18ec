//! Places of rows in the order of their cells.
ghost use Rattle.std.specs.Prelude.{◌≡◌, ◌<◌, ◌^◌, true, length, map, IfOk, OnOk, ◌++◌};
ghost use Rattle.std.specs.List.{list_all};
ghost use Rattle.std.specs.List.Sorted.{IsPermutation, IsSorted};
ghost use Rattle.std.specs.Ordering.{nat_cmp};
ghost use Rattle.std.specs.Cmp.Lexicographic.{slice_cmp};
ghost use Rattle.doc_table.specs.Tree.{text_in};
ghost use Rattle.doc_table.specs.Given.{is_given};
ghost use Rattle.xq_funs.specs.Answering.{text_given};
ghost use Rattle.plan_dag.specs.Schema.{has_cols};
ghost use Rattle.table_ops.specs.Columns.{cells_at, cell_of, numbers_from};
ghost use Rattle.table_ops.specs.Held.{held_rank};
ghost use Rattle.table_ops.specs.Sorting.{value_cmp, held_cmp, cells_cmp, places_cmp, order_cmp, columns_given};

use crate::gather::cell_at;
use crate::table::Table;
use plan_dag::Key;
use std::alloc::Global;
use std::cmp::Ordering;
use xq_base::{Item, Pool, TextId, Want};

/// How two cells stand: by kind, then by value; texts by their characters, nodes in document order.
pub fn compare_cells(a: Item, b: Item, pool: &Pool) -> Ordering
    requires given_a { text_given (length pool.now) a ≡ true }
    requires given_b { text_given (length pool.now) b ≡ true }
    ensures { result ≡ held_cmp pool.now a b }
{
    match rank(a).cmp(&rank(b)) {
        Ordering::Equal => compare_values(a, b, pool),
        order => order,
    }
}

fn rank(cell: Item) -> u8
    ensures { result ≡ held_rank cell }
{
    match cell {
        Item::Bool(_) => 0,
        Item::Int(_) => 1,
        Item::Str(_) => 2,
        Item::Untyped(_) => 3,
        Item::Node(_) => 4,
    }
}

fn compare_values(a: Item, b: Item, pool: &Pool) -> Ordering
    requires given_a { text_given (length pool.now) a ≡ true }
    requires given_b { text_given (length pool.now) b ≡ true }
    ensures { result ≡ value_cmp pool.now a b }
{
    match (a, b) {
        (Item::Bool(a), Item::Bool(b)) => a.cmp(&b),
        (Item::Int(a), Item::Int(b)) => a.cmp(&b),
        (Item::Str(a), Item::Str(b)) => compare_texts(a, b, pool),
        (Item::Untyped(a), Item::Untyped(b)) => compare_texts(a, b, pool),
        (Item::Node(a), Item::Node(b)) => a.cmp(&b),
        _ => Ordering::Equal,
    }
}

#[tactic(auto, using(crate::proofs::CellOrders::text_is))]
fn compare_texts(a: TextId, b: TextId, pool: &Pool) -> Ordering
    requires given_a { is_given (length pool.now) a ≡ true }
    requires given_b { is_given (length pool.now) b ≡ true }
    ensures { result ≡ slice_cmp nat_cmp (text_in pool.now a) (text_in pool.now b) }
{
    pool.text(a).cmp(pool.text(b))
}

/// How the rows at two places stand by the cells of a column.
#[tactic(auto, using(crate::proofs::CellOrders::cell_given))]
fn compare_at(cells: &[Item], descending: bool, a: u32, b: u32, pool: &Pool) -> Ordering
    requires { list_all (text_given (length pool.now)) cells.now ≡ true }
    ensures { result ≡ cells_cmp pool.now descending (cell_of cells.now a) (cell_of cells.now b) }
{
    if descending {
        compare_cells(cell_at(cells, b), cell_at(cells, a), pool)
    } else {
        compare_cells(cell_at(cells, a), cell_at(cells, b), pool)
    }
}

/// How the rows at two places stand by the cells of columns, each with its key.
pub fn compare_places(columns: &[&[Item]], keys: &[Key], a: u32, b: u32, pool: &Pool) -> Ordering
    requires { columns_given (length pool.now) (map (λ s. s.now) columns.now) ≡ true }
    ensures { result ≡ places_cmp pool.now (map (λ s. s.now) columns.now) keys.now a b }
{
    match columns.split_first() {
        None => Ordering::Equal,
        Some((cells, others)) => match keys.split_first() {
            None => Ordering::Equal,
            Some((key, rest)) => match compare_at(cells, key.descending, a, b, pool) {
                Ordering::Equal => compare_places(others, rest, a, b, pool),
                order => order,
            },
        },
    }
}

/// The cells of the columns of keys.
pub fn columns_of<'a>(
    alloc: Global,
    input: &'a Table,
    keys: &[Key],
) -> Result<Vec<&'a [Item]>, Want>
    requires { has_cols input.now.cols (map (λ k. k.col) keys.now) ≡ true }
    ensures { IfOk result (λ out. map (λ s. s.now) out.items ≡ map (λ k. cells_at input.now.cols k.col input.now.rows) keys.now) }
{
    let mut out = Vec::new(alloc);
    add_columns(input, keys, &mut out)?;
    Ok(out)
}

fn add_columns<'a>(input: &'a Table, keys: &[Key], out: &mut Vec<&'a [Item]>) -> Result<(), Want>
    requires { has_cols input.now.cols (map (λ k. k.col) keys.now) ≡ true }
    ensures { OnOk result (map (λ s. s.now) out.new.items ≡ map (λ s. s.now) out.old.items ++ map (λ k. cells_at input.now.cols k.col input.now.rows) keys.now) }
{
    match keys.split_first() {
        None => Ok(()),
        Some((key, rest)) => {
            if out.push(input.cells(key.col)).is_err() {
                return Err(Want);
            }
            add_columns(input, rest, out)
        }
    }
}

/// All places of so many rows.
#[tactic(auto, using(crate::proofs::OrderCounts::numbers_push))]
fn all_places(alloc: Global, height: usize) -> Result<Vec<u32>, Want>
    requires { height < 2 ^ 32 }
    ensures { IfOk result (λ out. out.items ≡ numbers_from 0 height) }
{
    let mut out = Vec::with_capacity(alloc, height)?;
    for place in 0..height {
        if out.push(place as u32).is_err() {
            return Err(Want);
        }
    }
    Ok(out)
}

/// How the rows at two places stand: by part, then by keys, then by place.
fn compare_all(
    parts: &[&[Item]],
    part: &[Key],
    columns: &[&[Item]],
    keys: &[Key],
    a: u32,
    b: u32,
    pool: &Pool,
) -> Ordering
    requires parts { columns_given (length pool.now) (map (λ s. s.now) parts.now) ≡ true }
    requires columns { columns_given (length pool.now) (map (λ s. s.now) columns.now) ≡ true }
    ensures { result ≡ order_cmp (places_cmp pool.now (map (λ s. s.now) parts.now) part.now) (places_cmp pool.now (map (λ s. s.now) columns.now) keys.now) a b }
{
    match compare_places(parts, part, a, b, pool) {
        Ordering::Equal => match compare_places(columns, keys, a, b, pool) {
            Ordering::Equal => a.cmp(&b),
            order => order,
        },
        order => order,
    }
}

/// The places of so many rows in order: by part, then by keys, then as they stand.
pub fn in_order(
    alloc: Global,
    height: usize,
    parts: &[&[Item]],
    part: &[Key],
    columns: &[&[Item]],
    keys: &[Key],
    pool: &Pool,
) -> Result<Vec<u32>, Want>
    requires few { height < 2 ^ 32 }
    requires parts { columns_given (length pool.now) (map (λ s. s.now) parts.now) ≡ true }
    requires columns { columns_given (length pool.now) (map (λ s. s.now) columns.now) ≡ true }
    ensures moved { IfOk result (λ out. IsPermutation (numbers_from 0 height) out.items) }
    ensures sorted { IfOk result (λ out. IsSorted (order_cmp (places_cmp pool.now (map (λ s. s.now) parts.now) part.now) (places_cmp pool.now (map (λ s. s.now) columns.now) keys.now)) out.items) }
{
    let mut places = all_places(alloc, height)?;
    places.sort_by(|a, b| compare_all(parts, part, columns, keys, *a, *b, pool))?;
    Ok(places)
}
