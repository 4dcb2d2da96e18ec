//! One operator evaluated.
ghost use Rattle.std.specs.Prelude.{◌≡◌, ◌<◌, ◌^◌, ◌++◌, [], true, false, length, take, None, OnOk};
ghost use Rattle.doc_table.specs.Given.{trees_given};
ghost use Rattle.doc_table.specs.Stores.{AreGiven};
ghost use Rattle.plan_dag.specs.Schema.{fits_over, is_constructor, site_of};
ghost use Rattle.table_ops.specs.Standing.{RowsGiven};
ghost use Rattle.plan_eval.specs.Making.{tallies_op, MakesOp, NotesOp};
ghost use Rattle.plan_eval.specs.Plans.{op_given};

use crate::fault::{EvalFault, StepTally};
use crate::limit::ROW_LIMIT;
use crate::steps::make_step;
use doc_table::{Ledger, Reads, Store};
use plan_dag::{Op, OpId};
use std::alloc::Global;
use table_ops::{Table, apply, demand};
use xq_base::Pool;

/// The table of an operator over its inputs' tables. A step notes the rows that it touches and adds its
/// tally. An operator with one input takes the left table; one without input takes none.
///
/// Errors: `TableLimit`, exactly where the operator needs too many rows; `NoMemory`.
pub fn make<L: Ledger>(
    alloc: Global,
    id: OpId,
    operator: Op,
    left: &Table,
    right: &Table,
    store: &Store,
    pool: &mut Pool,
    reads: &mut Reads<L>,
    tallies: &mut Vec<StepTally>,
) -> Result<Table, EvalFault>
    requires kind { is_constructor operator ≡ false }
    requires texts { op_given (length pool.old) operator ≡ true }
    requires fits { fits_over operator left.now.cols right.now.cols ≡ true }
    requires left_few { length left.now.rows < 2 ^ 32 }
    requires right_few { length right.now.rows < 2 ^ 32 }
    requires left_rows { RowsGiven pool.old store.now left.now.rows }
    requires right_rows { RowsGiven pool.old store.now right.now.rows }
    requires trees { trees_given (length pool.old) store.now ≡ true }
    requires names { AreGiven pool.old store.now.docs }
    requires built { store.now.built ≡ [] }
    ensures made { MakesOp pool.old pool.new store.now id operator left.now right.now result }
    ensures notes { NotesOp pool.old store.now operator left.now reads.old.notes reads.new.notes result }
    ensures refuses { reads.new.may_refuse ≡ reads.old.may_refuse }
    ensures tallies { OnOk result (tallies.new.items ≡ tallies.old.items ++ tallies_op pool.old store.now operator left.now) }
    ensures keeps { take (length pool.old) pool.new ≡ pool.old }
{
    match operator {
        Op::Step { .. } => make_step(
            alloc, id, operator, left, right, store, pool, reads, tallies,
        ),
        _ => make_plain(alloc, id, operator, left, right, store, pool),
    }
}

/// The table of an operator that is no step.
fn make_plain(
    alloc: Global,
    id: OpId,
    operator: Op,
    left: &Table,
    right: &Table,
    store: &Store,
    pool: &mut Pool,
) -> Result<Table, EvalFault>
    requires kind { site_of operator ≡ None }
    requires texts { op_given (length pool.old) operator ≡ true }
    requires fits { fits_over operator left.now.cols right.now.cols ≡ true }
    requires left_few { length left.now.rows < 2 ^ 32 }
    requires right_few { length right.now.rows < 2 ^ 32 }
    requires left_rows { RowsGiven pool.old store.now left.now.rows }
    requires right_rows { RowsGiven pool.old store.now right.now.rows }
    requires trees { trees_given (length pool.old) store.now ≡ true }
    requires names { AreGiven pool.old store.now.docs }
    ensures made { MakesOp pool.old pool.new store.now id operator left.now right.now result }
    ensures keeps { take (length pool.old) pool.new ≡ pool.old }
{
    let rows = demand(alloc, &operator, left, right, store, pool)?;
    if rows > ROW_LIMIT {
        return Err(EvalFault::TableLimit { op: id, rows });
    }
    Ok(apply(alloc, &operator, left, right, store, pool)?)
}
