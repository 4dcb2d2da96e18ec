//! The operators that compare no cells: `unit`, `empty`, `project`, `attach`, `select`, `union`.
ghost use Rattle.std.specs.Prelude.{◌≡◌, ◌<◌, ◌+◌, ◌^◌, ◌++◌, ◌∷◌, [], length, map, true, replicate, IfOk};
ghost use Rattle.std.specs.List.{filter};
ghost use Rattle.plan_dag.specs.Schema.{has_col, has_cols};
ghost use Rattle.plan_dag.specs.Meaning.{cell, cells};
ghost use Rattle.plan_dag.specs.Rows.{num};
ghost use Rattle.table_ops.specs.Held.{kept, held_constant};
ghost use Rattle.table_ops.specs.Picks.{is_true_item};

use crate::picks::true_places;
use crate::table::Table;
use plan_dag::{Col, Cols, Pairs};
use std::alloc::Global;
use xq_base::{Atom, Item, Want};

/// One row, whose cell is 1.
///
/// Errors: `Want`, where memory is wanting.
pub fn unit(alloc: Global, col: Col) -> Result<Table, Want>
    ensures { IfOk result (λ t. t ≡ record { cols = col ∷ []; rows = (num kept 1 ∷ []) ∷ [] }) }
{
    let mut cells = Vec::new(alloc);
    if cells.push(Item::Int(1)).is_err() {
        return Err(Want);
    }
    Table::single(alloc, col, cells)
}

/// The cells of the old columns in each row, under their new names.
///
/// Errors: `Want`, where memory is wanting.
pub fn project(alloc: Global, input: &Table, pairs: &Pairs) -> Result<Table, Want>
    requires { has_cols input.now.cols (map (λ p. p.old) pairs.now) ≡ true }
    ensures { IfOk result (λ t. t ≡ record { cols = map (λ p. p.new) pairs.now; rows = map (cells kept input.now.cols (map (λ p. p.old) pairs.now)) input.now.rows }) }
{
    let names = new_names(pairs);
    let wanted = old_names(pairs);
    input.choose(alloc, names, wanted.as_slice())
}

fn new_names(pairs: &Pairs) -> Cols
    ensures { result ≡ map (λ p. p.new) pairs.now }
{
    let mut names = Cols::new();
    for pair in pairs.as_slice() {
        names.push(pair.new);
    }
    names
}

fn old_names(pairs: &Pairs) -> Cols
    ensures { result ≡ map (λ p. p.old) pairs.now }
{
    let mut names = Cols::new();
    for pair in pairs.as_slice() {
        names.push(pair.old);
    }
    names
}

/// Each row with a constant.
///
/// Errors: `Want`, where memory is wanting.
pub fn attach(alloc: Global, input: &Table, col: Col, value: Atom) -> Result<Table, Want>
    requires { length input.now.cols < 8 }
    ensures { IfOk result (λ t. t ≡ record { cols = input.now.cols ++ col ∷ []; rows = map (λ q. q ++ held_constant value ∷ []) input.now.rows }) }
{
    let cells = fill(alloc, constant(value), input.height())?;
    let added = Table::single(alloc, col, cells)?;
    input.beside(alloc, &added)
}

/// A cell so many times.
fn fill(alloc: Global, cell: Item, many: usize) -> Result<Vec<Item>, Want>
    ensures { IfOk result (λ out. out.items ≡ replicate many cell) }
{
    let mut out = Vec::with_capacity(alloc, many)?;
    for _turn in 0..many {
        if out.push(cell).is_err() {
            return Err(Want);
        }
    }
    Ok(out)
}

fn constant(value: Atom) -> Item
    ensures { result ≡ held_constant value }
{
    match value {
        Atom::Int(number) => Item::Int(number),
        Atom::Str(text) => Item::Str(text),
        Atom::Untyped(text) => Item::Untyped(text),
        Atom::Bool(truth) => Item::Bool(truth),
    }
}

/// The rows whose cell in a column is true.
///
/// Errors: `Want`, where memory is wanting.
pub fn select(alloc: Global, input: &Table, col: Col) -> Result<Table, Want>
    requires there { has_col input.now.cols col ≡ true }
    requires few { length input.now.rows < 2 ^ 32 }
    ensures { IfOk result (λ t. t ≡ record { cols = input.now.cols; rows = filter (λ q. is_true_item (cell kept input.now.cols col q)) input.now.rows }) }
{
    let places = true_places(alloc, input.cells(col))?;
    input.gather(alloc, &places)
}

/// The left rows, then the right rows with their cells in the left columns' order.
///
/// Errors: `Want`, where memory is wanting.
pub fn union(alloc: Global, left: &Table, right: &Table) -> Result<Table, Want>
    requires { has_cols right.now.cols left.now.cols ≡ true }
    ensures { IfOk result (λ t. t ≡ record { cols = left.now.cols; rows = left.now.rows ++ map (cells kept right.now.cols left.now.cols) right.now.rows }) }
{
    let names = left.names();
    let below = right.choose(alloc, names, names.as_slice())?;
    left.stack(alloc, &below)
}
