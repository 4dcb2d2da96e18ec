//! Rows in the order of keys.
ghost use Rattle.std.specs.Prelude.{◌≡◌, ◌<◌, ◌^◌, true, length, map, IfOk};
ghost use Rattle.plan_dag.specs.Meaning.{sort_keys};
ghost use Rattle.plan_dag.specs.Orders.{in_order};
ghost use Rattle.plan_dag.specs.Rows.{keys_less};
ghost use Rattle.plan_dag.specs.Schema.{has_cols};
ghost use Rattle.table_ops.specs.Held.{held_rules};
ghost use Rattle.table_ops.specs.Sorting.{columns_given};

use crate::sorting::{columns_of, in_order};
use crate::table::Table;
use plan_dag::Keys;
use std::alloc::Global;
use xq_base::{Pool, Want};

/// The rows in the order of keys; rows that tie stay as they stand (own rule).
///
/// Errors: `Want`, where memory is wanting.
pub fn arrange(alloc: Global, input: &Table, keys: &Keys, pool: &Pool) -> Result<Table, Want>
    requires few { length input.now.rows < 2 ^ 32 }
    requires keys { has_cols input.now.cols (map (λ k. k.col) keys.now) ≡ true }
    requires given { columns_given (length pool.now) input.now.rows ≡ true }
    ensures { IfOk result (λ t. t ≡ record { cols = input.now.cols; rows = in_order (keys_less (held_rules pool.now) (sort_keys (held_rules pool.now) input.now.cols keys.now)) input.now.rows }) }
{
    let columns = columns_of(alloc, input, keys.as_slice())?;
    let places = in_order(
        alloc,
        input.height(),
        &[],
        &[],
        &columns,
        keys.as_slice(),
        pool,
    )?;
    input.gather(alloc, &places)
}
