//! For which check each operator is evaluated.
ghost use Rattle.std.specs.Prelude.{◌≡◌, IfOk};
ghost use Rattle.plan_eval.specs.Turns.{turns_of, lowered, AreFirst};

use plan_dag::{OpId, Plan, first_input, second_input};
use std::alloc::Global;
use xq_base::Want;

/// The turn of each operator: the number of the first check whose operator it is or stands below; the
/// root comes behind the checks.
///
/// Errors: `Want`, where memory is wanting.
pub fn turns(alloc: Global, plan: &Plan) -> Result<Vec<u64>, Want>
    ensures { IfOk result (λ out. out.items ≡ turns_of plan.now) }
{
    plan.validity();
    let mut turns = first_turns(alloc, plan)?;
    let mut k = turns.len();
    while k > 0 {
        k -= 1;
        let op = plan.op(OpId(k as u64));
        let turn = turns[k];
        lower(&mut turns, turn, first_input(&op));
        lower(&mut turns, turn, second_input(&op));
    }
    Ok(turns)
}

/// The turn of the first check that looks at the operator itself.
fn first_turns(alloc: Global, plan: &Plan) -> Result<Vec<u64>, Want>
    ensures { IfOk result (λ out. AreFirst plan.now out.items) }
{
    let checks = plan.checks();
    let mut turns = Vec::from_elem(alloc, checks.len() as u64 + 1, plan.len() as usize)?;
    lower(&mut turns, checks.len() as u64, plan.root());
    let mut turn = checks.len();
    while turn > 0 {
        turn -= 1;
        lower(&mut turns, turn as u64, Some(checks[turn].op));
    }
    Ok(turns)
}

/// Gives an operator a turn, where it has a later one.
fn lower(turns: &mut Vec<u64>, turn: u64, input: Option<OpId>)
    ensures { turns.new.items ≡ lowered turn input turns.old.items }
{
    let Some(id) = input else {
        return;
    };
    let at = id.0 as usize;
    if at < turns.len() && turn < turns[at] {
        turns[at] = turn;
    }
}
