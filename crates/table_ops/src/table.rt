//! Tables by columns.
ghost use Rattle.std.specs.Prelude.{◌≡◌, ◌<◌, ◌+◌, ◌++◌, ◌∷◌, [], length, map, true, slice_index_or, is_some, IfOk, IfSome, OnOk, OnErr};
ghost use Rattle.plan_dag.specs.Schema.{has_col, has_cols};
ghost use Rattle.plan_dag.specs.Meaning.{cell_or};
ghost use Rattle.table_ops.specs.Columns.{cells_at, no_cell, rows_of, heads, KeepsColumns, AllWithin, rows_at, single_rows, cells_of, rows_beside};

use crate::columns::{empty_columns, lent, push_cells, shared};
use crate::combine::{choose_columns, gather_columns, put, share_into, stack_columns};
use plan_dag::{Col, Cols};
use std::alloc::Global;
use std::marker::Model;
use std::rc::Rc;
use xq_base::{Item, Want};

/// A table, whose columns it may share with others. Contracts see its columns' names and its rows.
#[derive(Drop)]
pub struct Table {
    cols: Cols,
    columns: Vec<Rc<Vec<Item>>>,
    height: usize,
}

impl Model for Table {
    ghost use Rattle.xq_base.specs.declared.item.Item.{Item};
    ghost use Rattle.plan_dag.specs.Meaning.{Table as Rows};
    ghost use Rattle.table_ops.specs.Columns.{rows_of, heads, KeepsColumns};

    ghost Value = { Rows Item };

    ghost view = { λ t. record { cols = t.cols; rows = rows_of (heads t.height t.columns.items) t.height } };

    ghost invariant = { λ t. KeepsColumns t.cols t.columns.items t.height };
}

impl Table {
    /// A table with these columns and no row.
    ///
    /// Errors: `Want`, where memory is wanting.
    pub fn new(alloc: Global, cols: &[Col]) -> Result<Table, Want>
        requires { length cols.now < 9 }
        ensures { IfOk result (λ t. t ≡ record { cols = cols.now; rows = [] }) }
    {
        let names = named(cols);
        let columns = empty_columns(alloc, cols.len())?;
        Ok(Table {
            cols: names,
            columns,
            height: 0,
        })
    }

    /// The columns' names. It takes no memory.
    pub fn schema(&self) -> &[Col]
        ensures { result.now ≡ self.now.cols }
    {
        self.cols.as_slice()
    }

    /// The number of rows. It takes no memory.
    pub fn height(&self) -> usize
        ensures { result ≡ length self.now.rows }
    {
        self.height
    }

    /// The cells of a column from the first row on, lent without a copy; none exactly where the table
    /// hasn't that column. It takes no memory.
    pub fn column(&self, col: Col) -> Option<&[Item]>
        ensures cells { IfSome result (λ s. s.now ≡ cells_at self.now.cols col self.now.rows) }
        ensures found { is_some result ≡ has_col self.now.cols col }
    {
        lent(self.cols.as_slice(), &self.columns, self.height, col)
    }

    /// The columns' names, as a value.
    pub fn names(&self) -> Cols
        ensures { result ≡ self.now.cols }
    {
        self.cols
    }

    /// The cells of a column that is there, from the first row on, lent without a copy. It takes no memory.
    pub fn cells(&self, col: Col) -> &[Item]
        requires { has_col self.now.cols col ≡ true }
        ensures { result.now ≡ cells_at self.now.cols col self.now.rows }
    {
        self.column(col).unwrap()
    }

    /// The cell of a row in a column. It takes no memory.
    pub fn cell(&self, row: usize, col: Col) -> Item
        requires row { row < length self.now.rows }
        requires column { has_col self.now.cols col ≡ true }
        ensures { result ≡ cell_or no_cell self.now.cols col (slice_index_or self.now.rows row []) }
    {
        match self.column(col) {
            None => Item::Int(0),
            Some(cells) => cell_in(cells, row),
        }
    }

    /// Adds a row at the end.
    ///
    /// Errors: `Want`, where memory is wanting; the table is then as before.
    pub fn push(&mut self, row: &[Item]) -> Result<(), Want>
        requires { length row.now ≡ length self.old.cols }
        ensures ok { OnOk result (self.new ≡ record { cols = self.old.cols; rows = self.old.rows ++ row.now ∷ [] }) }
        ensures err { OnErr result (self.new ≡ self.old) }
    {
        let Some(height) = self.height.checked_add(1) else {
            return Err(Want);
        };
        push_cells(&mut self.columns, self.height, row)?;
        self.height = height;
        Ok(())
    }

    /// A table of columns that stand.
    fn made(cols: Cols, columns: Vec<Rc<Vec<Item>>>, height: usize) -> Table
        requires { KeepsColumns cols columns.items height }
        ensures { result ≡ record { cols = cols; rows = rows_of (heads height columns.items) height } }
    {
        Table {
            cols,
            columns,
            height,
        }
    }

    /// The same table, without a copy of a cell.
    ///
    /// Errors: `Want`, where memory is wanting.
    pub fn share(&self, alloc: Global) -> Result<Table, Want>
        ensures { IfOk result (λ t. t ≡ self.now) }
    {
        let columns = shared(alloc, &self.columns)?;
        Ok(Table {
            cols: self.cols,
            columns,
            height: self.height,
        })
    }

    /// The rows at these places, in their order.
    ///
    /// Errors: `Want`, where memory is wanting.
    pub fn gather(&self, alloc: Global, places: &[u32]) -> Result<Table, Want>
        requires { AllWithin (length self.now.rows) places.now }
        ensures { IfOk result (λ t. t ≡ record { cols = self.now.cols; rows = rows_at self.now.rows places.now }) }
    {
        let columns = gather_columns(alloc, &self.columns, self.height, places)?;
        Ok(Table::made(self.cols, columns, places.len()))
    }

    /// A table of one column.
    ///
    /// Errors: `Want`, where memory is wanting.
    pub fn single(alloc: Global, col: Col, cells: Vec<Item>) -> Result<Table, Want>
        ensures { IfOk result (λ t. t ≡ record { cols = col ∷ []; rows = single_rows cells.items }) }
    {
        let height = cells.len();
        let mut columns = Vec::new(alloc);
        put(alloc, cells, &mut columns)?;
        Ok(Table::made(named(&[col]), columns, height))
    }

    /// The cells of some columns in each row, under new names, without a copy of a cell.
    ///
    /// Errors: `Want`, where memory is wanting.
    pub fn choose(&self, alloc: Global, names: Cols, wanted: &[Col]) -> Result<Table, Want>
        requires as_many { length names ≡ length wanted.now }
        requires there { has_cols self.now.cols wanted.now ≡ true }
        ensures { IfOk result (λ t. t ≡ record { cols = names; rows = map (cells_of self.now.cols wanted.now) self.now.rows }) }
    {
        let columns = choose_columns(alloc, self.cols.as_slice(), &self.columns, wanted)?;
        Ok(Table::made(names, columns, self.height))
    }

    /// Each row with the other's cells behind it, without a copy of a cell.
    ///
    /// Errors: `Want`, where memory is wanting.
    pub fn beside(&self, alloc: Global, other: &Table) -> Result<Table, Want>
        requires few { length self.now.cols + length other.now.cols < 9 }
        requires as_high { length self.now.rows ≡ length other.now.rows }
        ensures { IfOk result (λ t. t ≡ record { cols = self.now.cols ++ other.now.cols; rows = rows_beside self.now.rows other.now.rows }) }
    {
        let mut columns = Vec::new(alloc);
        share_into(&self.columns, &mut columns)?;
        share_into(&other.columns, &mut columns)?;
        Ok(Table::made(
            extended(self.cols, other.cols.as_slice()),
            columns,
            self.height,
        ))
    }

    /// The rows, and behind them the other's, whose columns stand for these by their places.
    ///
    /// Errors: `Want`, where memory is wanting.
    pub fn stack(&self, alloc: Global, other: &Table) -> Result<Table, Want>
        requires { length self.now.cols ≡ length other.now.cols }
        ensures { IfOk result (λ t. t ≡ record { cols = self.now.cols; rows = self.now.rows ++ other.now.rows }) }
    {
        let Some(height) = self.height.checked_add(other.height) else {
            return Err(Want);
        };
        let columns = stack_columns(
            alloc,
            &self.columns,
            self.height,
            &other.columns,
            other.height,
        )?;
        Ok(Table::made(self.cols, columns, height))
    }
}

/// The columns, and others behind them.
fn extended(cols: Cols, more: &[Col]) -> Cols
    requires { length cols + length more.now < 9 }
    ensures { result ≡ cols ++ more.now }
{
    let mut names = cols;
    for col in more {
        names.push(*col);
    }
    names
}

fn named(cols: &[Col]) -> Cols
    requires { length cols.now < 9 }
    ensures { result ≡ cols.now }
{
    extended(Cols::new(), cols)
}

fn cell_in(cells: &[Item], row: usize) -> Item
    ensures { result ≡ slice_index_or cells.now row no_cell }
{
    match cells.get(row) {
        None => Item::Int(0),
        Some(cell) => *cell,
    }
}
