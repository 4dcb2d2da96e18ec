//! Columns that tables may share.
ghost use Rattle.std.specs.Prelude.{◌≡◌, ◌++◌, ◌∷◌, [], length, take, OnOk, OnErr, IfOk, option_map};
ghost use Rattle.table_ops.specs.Columns.{cells_in, heads, AllHigh, column_at, extended};

use plan_dag::Col;
use std::alloc::Global;
use std::rc::Rc;
use xq_base::{Item, Want};

/// So many columns without cells.
pub fn empty_columns(alloc: Global, many: usize) -> Result<Vec<Rc<Vec<Item>>>, Want>
    ensures many { IfOk result (λ out. length out.items ≡ many) }
    ensures high { IfOk result (λ out. AllHigh 0 (heads 0 out.items)) }
{
    let mut out = Vec::with_capacity(alloc, many)?;
    for _turn in 0..many {
        let column = Rc::new(alloc, Vec::new(alloc))?;
        if out.push(column).is_err() {
            return Err(Want);
        }
    }
    Ok(out)
}

/// Puts a cell behind the first so many of a column; what stood there goes.
fn push_cell(column: &mut Rc<Vec<Item>>, height: usize, cell: Item) -> Result<(), Want>
    ensures ok { OnOk result (column.new.value.items ≡ take height column.old.value.items ++ cell ∷ []) }
    ensures err { OnErr result (take height column.new.value.items ≡ take height column.old.value.items) }
{
    let cells = match Rc::make_mut(column) {
        Ok(cells) => cells,
        Err(_) => return Err(Want),
    };
    cells.truncate(height);
    if cells.push(cell).is_err() {
        return Err(Want);
    }
    Ok(())
}

/// The same with a row's cells, of each column.
pub fn push_cells(columns: &mut [Rc<Vec<Item>>], height: usize, row: &[Item]) -> Result<(), Want>
    requires many { length row.now ≡ length columns.old }
    requires high { AllHigh height (heads height columns.old) }
    ensures ok { OnOk result (cells_in columns.new ≡ extended (heads height columns.old) row.now) }
    ensures err { OnErr result (heads height columns.new ≡ heads height columns.old) }
{
    match row.split_first() {
        None => Ok(()),
        Some((cell, cells)) => match columns.split_first_mut() {
            None => Ok(()),
            Some((column, rest)) => {
                push_cell(column, height, *cell)?;
                push_cells(rest, height, cells)
            }
        },
    }
}

/// The first so many cells of a column.
pub fn head_of<'a>(column: &'a Rc<Vec<Item>>, height: usize) -> &'a [Item]
    requires { length (take height column.now.value.items) ≡ height }
    ensures { result.now ≡ take height column.now.value.items }
{
    &column[..height]
}

/// The cells of the column of a name, where there is one.
pub fn lent<'a>(
    cols: &[Col],
    columns: &'a [Rc<Vec<Item>>],
    height: usize,
    col: Col,
) -> Option<&'a [Item]>
    requires { AllHigh height (heads height columns.now) }
    ensures { option_map (λ s. s.now) result ≡ column_at cols.now (heads height columns.now) col }
{
    match cols.split_first() {
        None => None,
        Some((name, names)) => match columns.split_first() {
            None => None,
            Some((column, rest)) => if *name == col {
                Some(head_of(column, height))
            } else {
                lent(names, rest, height, col)
            },
        },
    }
}

/// The same columns, without a copy of a cell.
pub fn shared(alloc: Global, columns: &[Rc<Vec<Item>>]) -> Result<Vec<Rc<Vec<Item>>>, Want>
    ensures { IfOk result (λ out. cells_in out.items ≡ cells_in columns.now) }
{
    let mut out = Vec::with_capacity(alloc, columns.len())?;
    for column in columns {
        let one = column.clone()?;
        if out.push(one).is_err() {
            return Err(Want);
        }
    }
    Ok(out)
}
