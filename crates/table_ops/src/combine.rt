//! Columns of tables made of others' columns.
ghost use Rattle.std.specs.Prelude.{◌≡◌, ◌++◌, ◌∷◌, [], length, map, take, IfOk, OnOk};
ghost use Rattle.table_ops.specs.Columns.{cells_in, heads, AllHigh, column_or, gathered, zipped};

use crate::columns::head_of;
use crate::gather::gather_cells;
use plan_dag::Col;
use std::alloc::Global;
use std::rc::Rc;
use xq_base::{Item, Want};

/// The cells of each column at these places.
pub fn gather_columns(
    alloc: Global,
    columns: &[Rc<Vec<Item>>],
    height: usize,
    places: &[u32],
) -> Result<Vec<Rc<Vec<Item>>>, Want>
    requires { AllHigh height (heads height columns.now) }
    ensures { IfOk result (λ out. cells_in out.items ≡ gathered places.now (heads height columns.now)) }
{
    let mut out = Vec::new(alloc);
    gather_into(alloc, columns, height, places, &mut out)?;
    Ok(out)
}

fn gather_into(
    alloc: Global,
    columns: &[Rc<Vec<Item>>],
    height: usize,
    places: &[u32],
    out: &mut Vec<Rc<Vec<Item>>>,
) -> Result<(), Want>
    requires { AllHigh height (heads height columns.now) }
    ensures { OnOk result (cells_in out.new.items ≡ cells_in out.old.items ++ gathered places.now (heads height columns.now)) }
{
    match columns.split_first() {
        None => Ok(()),
        Some((column, rest)) => {
            let cells = gather_cells(alloc, head_of(column, height), places)?;
            put(alloc, cells, out)?;
            gather_into(alloc, rest, height, places, out)
        }
    }
}

/// Adds a column.
pub fn put(alloc: Global, cells: Vec<Item>, out: &mut Vec<Rc<Vec<Item>>>) -> Result<(), Want>
    ensures { OnOk result (cells_in out.new.items ≡ cells_in out.old.items ++ cells.items ∷ []) }
{
    let column = Rc::new(alloc, cells)?;
    if out.push(column).is_err() {
        return Err(Want);
    }
    Ok(())
}

/// Adds a column that stands elsewhere too.
fn put_shared(column: &Rc<Vec<Item>>, out: &mut Vec<Rc<Vec<Item>>>) -> Result<(), Want>
    ensures { OnOk result (cells_in out.new.items ≡ cells_in out.old.items ++ column.now.value.items ∷ []) }
{
    let one = column.clone()?;
    if out.push(one).is_err() {
        return Err(Want);
    }
    Ok(())
}

/// The columns of some names, without a copy of a cell.
pub fn choose_columns(
    alloc: Global,
    cols: &[Col],
    columns: &[Rc<Vec<Item>>],
    wanted: &[Col],
) -> Result<Vec<Rc<Vec<Item>>>, Want>
    ensures { IfOk result (λ out. cells_in out.items ≡ map (column_or cols.now (cells_in columns.now)) wanted.now) }
{
    let mut out = Vec::new(alloc);
    choose_into(alloc, cols, columns, wanted, &mut out)?;
    Ok(out)
}

fn choose_into(
    alloc: Global,
    cols: &[Col],
    columns: &[Rc<Vec<Item>>],
    wanted: &[Col],
    out: &mut Vec<Rc<Vec<Item>>>,
) -> Result<(), Want>
    ensures { OnOk result (cells_in out.new.items ≡ cells_in out.old.items ++ map (column_or cols.now (cells_in columns.now)) wanted.now) }
{
    match wanted.split_first() {
        None => Ok(()),
        Some((col, rest)) => {
            put_named(alloc, cols, columns, *col, out)?;
            choose_into(alloc, cols, columns, rest, out)
        }
    }
}

/// Adds the column of a name, or one without cells.
fn put_named(
    alloc: Global,
    cols: &[Col],
    columns: &[Rc<Vec<Item>>],
    col: Col,
    out: &mut Vec<Rc<Vec<Item>>>,
) -> Result<(), Want>
    ensures { OnOk result (cells_in out.new.items ≡ cells_in out.old.items ++ column_or cols.now (cells_in columns.now) col ∷ []) }
{
    match cols.split_first() {
        None => put(alloc, Vec::new(alloc), out),
        Some((name, names)) => match columns.split_first() {
            None => put(alloc, Vec::new(alloc), out),
            Some((column, rest)) => if *name == col {
                put_shared(column, out)
            } else {
                put_named(alloc, names, rest, col, out)
            },
        },
    }
}

/// Adds columns, without a copy of a cell.
pub fn share_into(columns: &[Rc<Vec<Item>>], out: &mut Vec<Rc<Vec<Item>>>) -> Result<(), Want>
    ensures { OnOk result (cells_in out.new.items ≡ cells_in out.old.items ++ cells_in columns.now) }
{
    match columns.split_first() {
        None => Ok(()),
        Some((column, rest)) => {
            put_shared(column, out)?;
            share_into(rest, out)
        }
    }
}

/// Columns with the others' cells behind theirs.
pub fn stack_columns(
    alloc: Global,
    left: &[Rc<Vec<Item>>],
    left_height: usize,
    right: &[Rc<Vec<Item>>],
    right_height: usize,
) -> Result<Vec<Rc<Vec<Item>>>, Want>
    requires left { AllHigh left_height (heads left_height left.now) }
    requires right { AllHigh right_height (heads right_height right.now) }
    ensures { IfOk result (λ out. cells_in out.items ≡ zipped (heads left_height left.now) (heads right_height right.now)) }
{
    let mut out = Vec::new(alloc);
    stack_into(alloc, left, left_height, right, right_height, &mut out)?;
    Ok(out)
}

fn stack_into(
    alloc: Global,
    left: &[Rc<Vec<Item>>],
    left_height: usize,
    right: &[Rc<Vec<Item>>],
    right_height: usize,
    out: &mut Vec<Rc<Vec<Item>>>,
) -> Result<(), Want>
    requires left { AllHigh left_height (heads left_height left.now) }
    requires right { AllHigh right_height (heads right_height right.now) }
    ensures { OnOk result (cells_in out.new.items ≡ cells_in out.old.items ++ zipped (heads left_height left.now) (heads right_height right.now)) }
{
    match left.split_first() {
        None => Ok(()),
        Some((upper, uppers)) => match right.split_first() {
            None => Ok(()),
            Some((lower, lowers)) => {
                let cells = stack_cells(
                    alloc,
                    head_of(upper, left_height),
                    head_of(lower, right_height),
                )?;
                put(alloc, cells, out)?;
                stack_into(alloc, uppers, left_height, lowers, right_height, out)
            }
        },
    }
}

/// Cells, and others behind them.
fn stack_cells(alloc: Global, upper: &[Item], lower: &[Item]) -> Result<Vec<Item>, Want>
    ensures { IfOk result (λ out. out.items ≡ upper.now ++ lower.now) }
{
    let mut out = Vec::new(alloc);
    out.extend_from_slice(upper)?;
    out.extend_from_slice(lower)?;
    Ok(out)
}
