//! Steps evaluated.
ghost use Rattle.std.specs.Prelude.{◌≡◌, ◌++◌, ◌∷◌, [], true, length, map, take, IfOk, OnOk};
ghost use Rattle.doc_table.specs.Given.{trees_given};
ghost use Rattle.doc_table.specs.Notes.{AppendsAll};
ghost use Rattle.doc_table.specs.Stores.{AreGiven};
ghost use Rattle.doc_table.specs.StoredItems.{trees_of};
ghost use Rattle.plan_dag.specs.Schema.{fits_over, has_col};
ghost use Rattle.table_ops.specs.Columns.{cells_at};
ghost use Rattle.table_ops.specs.Standing.{RowsGiven};
ghost use Rattle.plan_eval.specs.Contexts.{is_step};
ghost use Rattle.plan_eval.specs.Entries.{entries_of, kept_notes, kept_tally, AllNamed, AreFound};
ghost use Rattle.plan_eval.specs.Making.{row_of, tallies_op, MakesOp, NotesOp};
ghost use Rattle.plan_eval.specs.Plans.{step_given};

use crate::entries::{Reached, entries};
use crate::fault::{EvalFault, StepTally};
use crate::found::find_all;
use crate::limit::ROW_LIMIT;
use doc_table::{Ledger, Reads, Store};
use plan_dag::{Col, Op, OpId};
use staircase::Tally;
use std::alloc::Global;
use table_ops::Table;
use xq_base::{Axis, Item, NodeTest, Pool, Want};

/// The table of a step over its input. It notes the rows that it touches and adds its tally.
///
/// Errors: `TableLimit`, exactly where it has too many rows; `NoMemory`.
pub fn make_step<L: Ledger>(
    alloc: Global,
    id: OpId,
    operator: Op,
    left: &Table,
    right: &Table,
    store: &Store,
    pool: &mut Pool,
    reads: &mut Reads<L>,
    tallies: &mut Vec<StepTally>,
) -> Result<Table, EvalFault>
    requires kind { is_step operator ≡ true }
    requires test { step_given (length pool.old) operator ≡ true }
    requires fits { fits_over operator left.now.cols right.now.cols ≡ true }
    requires left_rows { RowsGiven pool.old store.now left.now.rows }
    requires right_rows { RowsGiven pool.old store.now right.now.rows }
    requires trees { trees_given (length pool.old) store.now ≡ true }
    requires names { AreGiven pool.old store.now.docs }
    requires built { store.now.built ≡ [] }
    ensures made { MakesOp pool.old pool.new store.now id operator left.now right.now result }
    ensures notes { NotesOp pool.old store.now operator left.now reads.old.notes reads.new.notes result }
    ensures refuses { reads.new.may_refuse ≡ reads.old.may_refuse }
    ensures tallies { OnOk result (tallies.new.items ≡ tallies.old.items ++ tallies_op pool.old store.now operator left.now) }
    ensures keeps { take (length pool.old) pool.new ≡ pool.old }
{
    match operator {
        Op::Step {
            axis,
            test,
            site,
            offset,
            iter,
            node,
            ..
        } => {
            store.validity();
            pool.intern("")?;
            let mut rows = Vec::new(alloc);
            let tally = find(
                alloc, left, iter, node, axis, test, site, store, &mut rows, reads,
            )?;
            let many = rows.len() as u128;
            if many > ROW_LIMIT {
                return Err(EvalFault::TableLimit { op: id, rows: many });
            }
            let table = table_of(alloc, iter, node, &rows)?;
            tallies.push(StepTally {
                site,
                offset,
                axis,
                tally,
            })?;
            Ok(table)
        }
        _ => unreachable!(),
    }
}

/// What a step finds from the rows of its input.
fn find<L: Ledger>(
    alloc: Global,
    input: &Table,
    iter: Col,
    node: Col,
    axis: Axis,
    test: NodeTest,
    site: u32,
    store: &Store,
    rows: &mut Vec<Reached>,
    reads: &mut Reads<L>,
) -> Result<Tally, Want>
    requires iter { has_col input.now.cols iter ≡ true }
    requires node { has_col input.now.cols node ≡ true }
    requires named { AllNamed store.now (entries_of (cells_at input.now.cols iter input.now.rows) (cells_at input.now.cols node input.now.rows)) }
    requires none { rows.old.items ≡ [] }
    ensures rows { OnOk result (AreFound axis test (trees_of store.now) (entries_of (cells_at input.now.cols iter input.now.rows) (cells_at input.now.cols node input.now.rows)) (length store.now.docs) rows.new.items) }
    ensures notes { OnOk result (AppendsAll reads.old.notes reads.new.notes (kept_notes site axis 0 store.now.docs (entries_of (cells_at input.now.cols iter input.now.rows) (cells_at input.now.cols node input.now.rows)))) }
    ensures refuses { reads.new.may_refuse ≡ reads.old.may_refuse }
    ensures tally { IfOk result (λ tally. tally ≡ kept_tally axis 0 store.now.docs (entries_of (cells_at input.now.cols iter input.now.rows) (cells_at input.now.cols node input.now.rows))) }
{
    let context = entries(alloc, input.cells(iter), input.cells(node))?;
    find_all(alloc, store, site, axis, test, &context, rows, reads)
}

/// The table of what was found.
fn table_of(alloc: Global, iter: Col, node: Col, rows: &[Reached]) -> Result<Table, Want>
    ensures { IfOk result (λ t. t ≡ record { cols = iter ∷ node ∷ []; rows = map row_of rows.now }) }
{
    let mut table = Table::new(alloc, &[iter, node])?;
    for row in rows {
        push_row(&mut table, *row)?;
    }
    Ok(table)
}

/// Adds a row to a table of two columns.
fn push_row(table: &mut Table, row: Reached) -> Result<(), Want>
    requires { length table.old.cols ≡ 2 }
    ensures { OnOk result (table.new ≡ record { cols = table.old.cols; rows = table.old.rows ++ row_of row ∷ [] }) }
{
    let Ok(number) = i64::try_from(row.iter) else {
        return Err(Want);
    };
    table.push(&[Item::Int(number), Item::Node(row.node)])
}
