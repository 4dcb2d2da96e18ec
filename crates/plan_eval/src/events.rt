//! In which order a plan is evaluated.
ghost use Rattle.std.specs.Prelude.{◌≡◌, ◌++◌, ◌∷◌, [], map, OnOk, IfOk};
ghost use Rattle.plan_eval.specs.Turns.{events_of, makes_in, make_event, turn_cell};

use crate::turns::turns;
use plan_dag::{Check, OpId, Plan};
use std::alloc::Global;
use table_ops::Index;
use xq_base::{HashKeys, Item, TextId, Want};

/// What is done next: an operator is evaluated, or a check is looked at.
#[derive(Clone, Copy)]
pub enum Event {
    Make(OpId),
    Test(Check),
}

/// What is done, one after the other: for each check the operators that it needs and that no check
/// before it needs, ascending, and then the check; behind the checks those that the root alone needs.
///
/// Errors: `Want`, where memory is wanting.
pub fn events(alloc: Global, hash: HashKeys, plan: &Plan) -> Result<Vec<Event>, Want>
    ensures { IfOk result (λ out. out.items ≡ events_of plan.now) }
{
    let turns = turns(alloc, plan)?;
    let index = index_turns(alloc, hash, &turns)?;
    let checks = plan.checks();
    let mut out = Vec::new(alloc);
    for turn in 0..checks.len() {
        push_turn(&index, turn as u64, &mut out)?;
        push_event(Event::Test(checks[turn]), &mut out)?;
    }
    push_turn(&index, checks.len() as u64, &mut out)?;
    Ok(out)
}

/// The operators by their turns.
fn index_turns(alloc: Global, hash: HashKeys, turns: &[u64]) -> Result<Index, Want>
    ensures { IfOk result (λ index. index ≡ map turn_cell turns.now) }
{
    if turns.len() > u32::MAX as usize {
        return Err(Want);
    }
    let mut cells = Vec::with_capacity(alloc, turns.len())?;
    for turn in turns {
        if cells.push(turn_cell(*turn)).is_err() {
            return Err(Want);
        }
    }
    Index::of(alloc, hash, &cells)
}

/// A turn as a cell that an index finds.
fn turn_cell(turn: u64) -> Item
    ensures { result ≡ turn_cell turn }
{
    Item::Str(TextId(turn))
}

/// Appends the operators of a turn.
fn push_turn(index: &Index, turn: u64, out: &mut Vec<Event>) -> Result<(), Want>
    ensures { OnOk result (out.new.items ≡ out.old.items ++ makes_in index.now turn) }
{
    push_makes(index.places(turn_cell(turn)), out)
}

fn push_makes(places: &[u32], out: &mut Vec<Event>) -> Result<(), Want>
    ensures { OnOk result (out.new.items ≡ out.old.items ++ map make_event places.now) }
{
    for place in places {
        push_event(Event::Make(OpId(*place as u64)), out)?;
    }
    Ok(())
}

fn push_event(event: Event, out: &mut Vec<Event>) -> Result<(), Want>
    ensures { OnOk result (out.new.items ≡ out.old.items ++ event ∷ []) }
{
    if out.push(event).is_err() {
        return Err(Want);
    }
    Ok(())
}
