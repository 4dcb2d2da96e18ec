//! When the tables of operators are used for the last time.
ghost use Rattle.std.specs.Prelude.{◌≡◌, slice_get, IfOk};
ghost use Rattle.plan_eval.specs.Uses.{raised, raised_at, LastUses};

use crate::events::Event;
use plan_dag::{Op, OpId, Plan, first_input, second_input};
use std::alloc::Global;
use xq_base::Want;

/// For each operator the place of the last event that reads its table; for the root one behind all.
///
/// Errors: `Want`, where memory is wanting.
pub fn last_uses(alloc: Global, plan: &Plan, events: &[Event]) -> Result<Vec<usize>, Want>
    ensures { IfOk result (λ last. LastUses plan.now.ops plan.now.root events.now last.items) }
{
    let mut last = Vec::from_elem(alloc, 0, plan.len() as usize)?;
    for place in 0..events.len() {
        raise_all(plan, events[place], place, &mut last);
    }
    raise(&mut last, events.len(), plan.root());
    Ok(last)
}

/// Puts a place at the operators that an event reads.
fn raise_all(plan: &Plan, event: Event, place: usize, last: &mut Vec<usize>)
    ensures { last.new.items ≡ raised_at plan.now.ops place event last.old.items }
{
    match event {
        Event::Make(id) => {
            if let Some(op) = op_of(plan, id) {
                raise(last, place, first_input(&op));
                raise(last, place, second_input(&op));
            }
        }
        Event::Test(check) => raise(last, place, Some(check.op)),
    }
}

/// Puts a place at an operator.
fn raise(last: &mut Vec<usize>, place: usize, input: Option<OpId>)
    ensures { last.new.items ≡ raised place input last.old.items }
{
    let Some(id) = input else {
        return;
    };
    let at = id.0 as usize;
    if at < last.len() {
        last[at] = place;
    }
}

/// The operator of a number, where the plan has one.
pub fn op_of(plan: &Plan, id: OpId) -> Option<Op>
    ensures { result ≡ slice_get plan.now.ops id.0 }
{
    if id.0 < plan.len() {
        Some(plan.op(id))
    } else {
        None
    }
}
