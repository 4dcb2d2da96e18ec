//! The tables over which operators are run.
ghost use Rattle.std.specs.Prelude.{◌≡◌, ◌++◌, ◌∷◌, [], pos, length, IfOk, OnOk};
ghost use Rattle.table_bench.specs.Tables.{row_of, scrambled, rows_below, table_with};

use plan_dag::Col;
use std::alloc::Global;
use table_ops::Table;
use xq_base::{Item, Want};

/// A number that is in no order.
fn scrambled(number: u32) -> i64
    ensures { result ≡ pos (scrambled number) }
{
    ((number as u64 * 7919) % 1_000_003) as i64
}

/// Adds the row of a number.
fn push_row(number: u32, table: &mut Table) -> Result<(), Want>
    requires { length table.old.cols ≡ 3 }
    ensures { OnOk result (table.new ≡ record { cols = table.old.cols; rows = table.old.rows ++ row_of number ∷ [] }) }
{
    table.push(&[
        Item::Int(number as i64),
        Item::Int(scrambled(number)),
        Item::Bool(number % 2 == 0),
    ])
}

/// A table with these columns, and a row for each number below this one.
#[tactic(auto, using(crate::proofs::Rows::one_more_row))]
pub fn table_with(alloc: Global, cols: &[Col], many: u32) -> Result<Table, Want>
    requires { length cols.now ≡ 3 }
    ensures { IfOk result (λ t. t ≡ table_with cols.now many) }
{
    let mut table = Table::new(alloc, cols)?;
    for number in 0..many {
        push_row(number, &mut table)?;
    }
    Ok(table)
}
