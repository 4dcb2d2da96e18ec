//! Plans evaluated.
ghost use Rattle.std.specs.Prelude.{◌≡◌, ◌≤◌, true, length, take, IfOk};
ghost use Rattle.plan_eval.specs.Evaluating.{Gives, Notes, row_limit};
ghost use Rattle.plan_eval.specs.Making.{kept_input};
ghost use Rattle.plan_eval.specs.Plans.{HasRoot, PlanOver};
ghost use Rattle.plan_eval.specs.Root.{root_cols, root_keys, GivesItems, GivesRoot, RootColumns};
ghost use Rattle.plan_eval.specs.Running.{AreEmpty};
ghost use Rattle.table_ops.specs.Sorting.{columns_given};

use crate::events::events;
use crate::fault::{EvalFault, Evaluated};
use crate::run::{input, run};
use crate::uses::last_uses;
use doc_table::{Ledger, Reads, Store};
use plan_dag::{Col, Key, Keys, OpId, Plan};
use std::alloc::Global;
use table_ops::{Table, arrange};
use xq_base::{Item, Pool, Want};

/// Evaluates a plan over the documents of a store (own rule). Checks are looked at in their order, and
/// then the root; for each of these its operator and the operators below it that aren't evaluated yet
/// are evaluated, by ascending number, and a table is dropped after its last use. Each step notes the
/// rows that it touches and is counted. The items are those of the root, by iteration and position.
///
/// Errors: `Dynamic` with the code and the offset of the first check that has a row; `TableLimit`,
/// exactly where the next operator needs more than 16,777,216 rows, before a table of it is made;
/// `NoMemory`. After a refusal the notes are those of the steps evaluated so far.
pub fn eval<L: Ledger>(
    alloc: Global,
    plan: &Plan,
    store: &mut Store,
    pool: &mut Pool,
    reads: &mut Reads<L>,
) -> Result<Evaluated, EvalFault>
    requires over { PlanOver pool.old store.old plan.now }
    requires root { HasRoot plan.now plan.now.root }
    ensures answer { Gives pool.old pool.new store.old plan.now result }
    ensures notes { Notes pool.old store.old plan.now reads.old.notes reads.new.notes result }
    ensures refuses { reads.new.may_refuse ≡ reads.old.may_refuse }
    ensures keeps { take (length pool.old) pool.new ≡ pool.old }
    ensures store { store.new ≡ store.old }
{
    plan.validity();
    let events = events(alloc, pool.keys(), plan)?;
    let last = last_uses(alloc, plan, &events)?;
    let mut tables = no_tables(alloc, plan.len())?;
    let mut tallies = Vec::new(alloc);
    run(
        alloc,
        plan,
        &events,
        &last,
        &mut tables,
        store,
        pool,
        reads,
        &mut tallies,
    )?;
    let items = items_of(alloc, plan.root(), &tables, pool)?;
    Ok(Evaluated { items, tallies })
}

/// So many tables without columns.
fn no_tables(alloc: Global, many: u64) -> Result<Vec<Table>, Want>
    ensures { IfOk result (λ out. AreEmpty many out.items) }
{
    let mut out = Vec::new(alloc);
    for _place in 0..many {
        out.push(Table::new(alloc, &[])?)?;
    }
    Ok(out)
}

/// The items of a root, where there is one.
fn items_of(
    alloc: Global,
    root: Option<OpId>,
    tables: &Vec<Table>,
    pool: &Pool,
) -> Result<Vec<Item>, Want>
    requires columns { RootColumns root (kept_input tables.now.items root) }
    requires few { length (kept_input tables.now.items root).rows ≤ row_limit }
    requires given { columns_given (length pool.now) (kept_input tables.now.items root).rows ≡ true }
    ensures { IfOk result (λ items. GivesRoot pool.now (kept_input tables.now.items root) root items.items) }
{
    let none = Table::new(alloc, &[])?;
    match root {
        None => Ok(Vec::new(alloc)),
        Some(id) => root_items(alloc, input(tables, &none, Some(id)), pool),
    }
}

/// The items of a root's table, by iteration and position.
fn root_items(alloc: Global, table: &Table, pool: &Pool) -> Result<Vec<Item>, Want>
    requires columns { table.now.cols ≡ root_cols }
    requires few { length table.now.rows ≤ row_limit }
    requires given { columns_given (length pool.now) table.now.rows ≡ true }
    ensures { IfOk result (λ items. GivesItems pool.now table.now items.items) }
{
    let sorted = arrange(alloc, table, &by_position(), pool)?;
    let mut items = Vec::new(alloc);
    items.extend_from_slice(sorted.cells(Col(2)))?;
    Ok(items)
}

/// By iteration, then by position.
fn by_position() -> Keys
    ensures { result ≡ root_keys }
{
    let mut keys = Keys::new();
    keys.push(Key {
        col: Col(0),
        descending: false,
    });
    keys.push(Key {
        col: Col(1),
        descending: false,
    });
    keys
}
