//! The operators that look for a pair of values in rows with equal cells: `exists_compare` and
//! `compare_fails`.
ghost use Rattle.std.specs.Prelude.{◌≡◌, ◌<◌, ◌^◌, ◌++◌, ◌∷◌, [], true, not, length, IfOk, OnOk};
ghost use Rattle.std.specs.List.{list_all, list_any};
ghost use Rattle.xq_funs.specs.Answering.{text_given, is_atom, answer_of};
ghost use Rattle.plan_dag.specs.ItemRules.{bool_outcome};
ghost use Rattle.plan_dag.specs.Schema.{has_col};
ghost use Rattle.plan_dag.specs.Meaning.{cell};
ghost use Rattle.plan_dag.specs.Rows.{compared};
ghost use Rattle.table_ops.specs.Columns.{cell_of};
ghost use Rattle.table_ops.specs.Held.{kept, held_rules};
ghost use Rattle.table_ops.specs.Sorting.{columns_given};
ghost use Rattle.table_ops.specs.Pairs.{passes, pair_at, pair_place, pair_places};

use crate::gather::{cell_at, gather_cells};
use crate::grouping::different;
use crate::index::Index;
use crate::table::Table;
use plan_dag::Col;
use std::alloc::Global;
use xq_base::{Code, CompOp, HashKeys, Item, Pool, Want};
use xq_funs::compare;

/// What a pair of values is to be: true, or failing with a code.
#[derive(Clone, Copy)]
pub enum Wanted {
    True,
    Fails(Code),
}

/// The columns by which two tables are compared: those of equal cells, and those of values.
#[derive(Clone, Copy)]
pub struct Sides {
    pub left: Col,
    pub left_value: Col,
    pub right: Col,
    pub right_value: Col,
}

/// The different cells of a left column whose row has a value that makes a wanted pair with the value
/// of a right row with an equal cell, by first rows. A node makes no pair.
///
/// Errors: `Want`, where memory is wanting.
pub fn compare_rows(
    alloc: Global,
    hash: HashKeys,
    left: &Table,
    right: &Table,
    op: CompOp,
    sides: Sides,
    wanted: Wanted,
    pool: &Pool,
) -> Result<Table, Want>
    requires left_few { length left.now.rows < 2 ^ 32 }
    requires right_few { length right.now.rows < 2 ^ 32 }
    requires left { has_col left.now.cols sides.left ≡ true }
    requires left_value { has_col left.now.cols sides.left_value ≡ true }
    requires right { has_col right.now.cols sides.right ≡ true }
    requires right_value { has_col right.now.cols sides.right_value ≡ true }
    requires left_given { columns_given (length pool.now) left.now.rows ≡ true }
    requires right_given { columns_given (length pool.now) right.now.rows ≡ true }
    ensures { IfOk result (λ t. t ≡ record { cols = sides.left ∷ []; rows = compared (held_rules pool.now) (passes wanted) op (cell kept left.now.cols sides.left) (cell kept left.now.cols sides.left_value) (cell kept right.now.cols sides.right) (cell kept right.now.cols sides.right_value) left.now.rows right.now.rows }) }
{
    let cells = left.cells(sides.left);
    let index = Index::of(alloc, hash, right.cells(sides.right))?;
    let values = left.cells(sides.left_value);
    let others = right.cells(sides.right_value);
    let places = matching(alloc, &index, cells, values, others, op, wanted, pool)?;
    let found = gather_cells(alloc, cells, &places)?;
    let groups = different(alloc, hash, &found)?;
    Table::single(alloc, sides.left, groups)
}

/// The places of left cells with a wanted pair.
#[tactic(auto, using(crate::proofs::PairLaws::given_at))]
fn matching(
    alloc: Global,
    index: &Index,
    cells: &[Item],
    values: &[Item],
    others: &[Item],
    op: CompOp,
    wanted: Wanted,
    pool: &Pool,
) -> Result<Vec<u32>, Want>
    requires few { length cells.now < 2 ^ 32 }
    requires as_many { length cells.now ≡ length values.now }
    requires values { list_all (text_given (length pool.now)) values.now ≡ true }
    requires others { list_all (text_given (length pool.now)) others.now ≡ true }
    ensures { IfOk result (λ out. out.items ≡ pair_places pool.now wanted op index.now others.now 0 cells.now values.now) }
{
    let mut out = Vec::new(alloc);
    for place in 0..cells.len() {
        match_cell(
            index,
            cells[place],
            values[place],
            place as u32,
            others,
            op,
            wanted,
            pool,
            &mut out,
        )?;
    }
    Ok(out)
}

/// The place of a left cell, where it has a wanted pair.
fn match_cell(
    index: &Index,
    cell: Item,
    value: Item,
    place: u32,
    others: &[Item],
    op: CompOp,
    wanted: Wanted,
    pool: &Pool,
    out: &mut Vec<u32>,
) -> Result<(), Want>
    requires value { text_given (length pool.now) value ≡ true }
    requires others { list_all (text_given (length pool.now)) others.now ≡ true }
    ensures { OnOk result (out.new.items ≡ out.old.items ++ pair_place pool.now wanted op index.now others.now place cell value) }
{
    if any_pair(index.places(cell), value, others, op, wanted, pool) {
        if out.push(place).is_err() {
            return Err(Want);
        }
    }
    Ok(())
}

/// Whether a value makes a wanted pair with one at some places.
fn any_pair(
    places: &[u32],
    value: Item,
    others: &[Item],
    op: CompOp,
    wanted: Wanted,
    pool: &Pool,
) -> bool
    requires value { text_given (length pool.now) value ≡ true }
    requires others { list_all (text_given (length pool.now)) others.now ≡ true }
    ensures { result ≡ list_any (λ p. pair_at pool.now wanted op value (cell_of others.now p)) places.now }
{
    for place in places {
        if is_wanted(value, cell_at(others, *place), op, wanted, pool) {
            return true;
        }
    }
    false
}

/// Whether a pair is the wanted one.
#[tactic(auto, using(crate::proofs::PairLaws::left_node, crate::proofs::PairLaws::right_node, crate::proofs::PairLaws::judged_pair))]
fn is_wanted(a: Item, b: Item, op: CompOp, wanted: Wanted, pool: &Pool) -> bool
    requires given_a { text_given (length pool.now) a ≡ true }
    requires given_b { text_given (length pool.now) b ≡ true }
    ensures { result ≡ pair_at pool.now wanted op a b }
{
    if is_node(a) || is_node(b) {
        return false;
    }
    judged(compare(op, a, b, pool), wanted)
}

/// Whether a comparison of a pair came out as wanted.
fn judged(found: Result<bool, Code>, wanted: Wanted) -> bool
    ensures { result ≡ passes wanted (bool_outcome (answer_of found)) }
{
    match (wanted, found) {
        (Wanted::True, Ok(truth)) => truth,
        (Wanted::Fails(code), Err(other)) => code == other,
        _ => false,
    }
}

fn is_node(cell: Item) -> bool
    ensures { result ≡ not (is_atom cell) }
{
    match cell {
        Item::Node(_) => true,
        _ => false,
    }
}
