//! The events of a plan, one after the other.
ghost use Rattle.std.specs.Prelude.{◌≡◌, ◌<◌, true, length, set, take, OnOk};
ghost use Rattle.doc_table.specs.Notes.{AppendsAll};
ghost use Rattle.plan_dag.specs.Meaning.{no_table};
ghost use Rattle.plan_dag.specs.Schema.{is_valid};
ghost use Rattle.plan_eval.specs.Evaluating.{notes_in, UnlessWant};
ghost use Rattle.plan_eval.specs.Making.{kept_input};
ghost use Rattle.plan_eval.specs.Plans.{PlanOver};
ghost use Rattle.plan_eval.specs.Running.{released, released_at, AreEmpty, RunGives};
ghost use Rattle.plan_eval.specs.Turns.{events_of};
ghost use Rattle.plan_eval.specs.Uses.{LastUses};

use crate::events::Event;
use crate::fault::{EvalFault, StepTally};
use crate::make::make;
use crate::uses::op_of;
use doc_table::{Ledger, Reads, Store};
use plan_dag::{OpId, Plan, first_input, second_input};
use std::alloc::Global;
use table_ops::Table;
use xq_base::{Pool, Want};

/// Evaluates operators and looks at checks, in their order, up to the first check that has a row. A
/// table is dropped after its last use; that of the root stays.
///
/// Errors: `Dynamic`, exactly where a check has a row before an operator needs too many; `TableLimit`,
/// exactly where an operator needs too many rows before a check has one; `NoMemory`.
pub fn run<L: Ledger>(
    alloc: Global,
    plan: &Plan,
    events: &[Event],
    last: &[usize],
    tables: &mut Vec<Table>,
    store: &Store,
    pool: &mut Pool,
    reads: &mut Reads<L>,
    tallies: &mut Vec<StepTally>,
) -> Result<(), EvalFault>
    requires valid { is_valid plan.now.ops ≡ true }
    requires over { PlanOver pool.old store.now plan.now }
    requires events { events.now ≡ events_of plan.now }
    requires last { LastUses plan.now.ops plan.now.root events.now last.now }
    requires tables { AreEmpty (length plan.now.ops) tables.old.items }
    ensures gives { RunGives pool.old pool.new store.now plan.now tables.new.items tallies.old.items tallies.new.items result }
    ensures notes { UnlessWant result (AppendsAll reads.old.notes reads.new.notes (notes_in pool.old store.now plan.now)) }
    ensures refuses { reads.new.may_refuse ≡ reads.old.may_refuse }
    ensures keeps { take (length pool.old) pool.new ≡ pool.old }
{
    let none = Table::new(alloc, &[])?;
    for place in 0..events.len() {
        let event = events[place];
        match event {
            Event::Make(id) => {
                let op = plan.op(id);
                let left = input(tables, &none, first_input(&op));
                let right = input(tables, &none, second_input(&op));
                let table = make(alloc, id, op, left, right, store, pool, reads, tallies)?;
                put(tables, id, table);
                release_all(alloc, plan, Event::Make(id), place, last, tables)?;
            }
            Event::Test(check) => {
                if input(tables, &none, Some(check.op)).height() > 0 {
                    return Err(EvalFault::Dynamic {
                        code: check.code,
                        offset: check.offset,
                    });
                }
                release_all(alloc, plan, Event::Test(check), place, last, tables)?;
            }
        }
    }
    Ok(())
}

/// Keeps the table of an operator.
fn put(tables: &mut Vec<Table>, id: OpId, table: Table)
    requires { id.0 < length tables.old.items }
    ensures { tables.new.items ≡ set tables.old.items id.0 table }
{
    tables[id.0 as usize] = table;
}

/// The table of an operator, or one without columns.
pub fn input<'a>(tables: &'a Vec<Table>, none: &'a Table, id: Option<OpId>) -> &'a Table
    requires { none.now ≡ no_table }
    ensures { result.now ≡ kept_input tables.now.items id }
{
    let Some(id) = id else {
        return none;
    };
    match tables.get(id.0 as usize) {
        None => none,
        Some(table) => table,
    }
}

/// Drops the tables that an event uses for the last time.
fn release_all(
    alloc: Global,
    plan: &Plan,
    event: Event,
    place: usize,
    last: &[usize],
    tables: &mut Vec<Table>,
) -> Result<(), Want>
    ensures { OnOk result (tables.new.items ≡ released_at plan.now.ops place last.now event tables.old.items) }
{
    match event {
        Event::Make(id) => {
            let Some(op) = op_of(plan, id) else {
                return Ok(());
            };
            release(alloc, first_input(&op), place, last, tables)?;
            release(alloc, second_input(&op), place, last, tables)
        }
        Event::Test(check) => release(alloc, Some(check.op), place, last, tables),
    }
}

/// Drops the table of an operator that is used for the last time.
fn release(
    alloc: Global,
    id: Option<OpId>,
    place: usize,
    last: &[usize],
    tables: &mut Vec<Table>,
) -> Result<(), Want>
    ensures { OnOk result (tables.new.items ≡ released place last.now id tables.old.items) }
{
    let Some(id) = id else {
        return Ok(());
    };
    let at = id.0 as usize;
    if at < tables.len() && at < last.len() && last[at] == place {
        tables[at] = Table::new(alloc, &[])?;
    }
    Ok(())
}
