//! Forms of operators, made in a plan.
ghost use Rattle.std.specs.Prelude.{◌≡◌, ◌<◌, ◌++◌, true, length, IfOk, List};
ghost use Rattle.plan_dag.specs.ItemRules.{item_rules};
ghost use Rattle.plan_dag.specs.Graphs.{in_graph};
ghost use Rattle.doc_table.specs.NodeRules.{Docs};
ghost use Rattle.xq_base.specs.Texts.{Text};
ghost use Rattle.lift_laws.specs.Sums.{AllOf};
ghost use Rattle.lift_laws.specs.States.{state_of};
ghost use Rattle.lift_prims.specs.Forms.{placed, form_fits, cols_in, id_at, FormMade};

use plan_dag::{Op, OpId, Plan};
use std::alloc::Global;
use xq_base::Want;

/// The operator at a place.
fn at_place(places: &[OpId], at: OpId) -> OpId
    ensures { result ≡ id_at places.now at }
{
    places.get(at.0 as usize).copied().unwrap_or(OpId(0))
}

/// An operator of a form with these operators at its places.
fn over_places(places: &[OpId], op: Op) -> Op
    ensures { result ≡ placed places.now op }
{
    match op {
        Op::Project { input, pairs } => Op::Project {
            input: at_place(places, input),
            pairs,
        },
        Op::Attach { input, col, value } => Op::Attach {
            input: at_place(places, input),
            col,
            value,
        },
        Op::Select { input, col } => Op::Select {
            input: at_place(places, input),
            col,
        },
        Op::Join {
            left,
            right,
            left_col,
            right_col,
        } => Op::Join {
            left: at_place(places, left),
            right: at_place(places, right),
            left_col,
            right_col,
        },
        Op::Union { left, right } => Op::Union {
            left: at_place(places, left),
            right: at_place(places, right),
        },
        Op::Difference {
            left,
            right,
            left_col,
            right_col,
        } => Op::Difference {
            left: at_place(places, left),
            right: at_place(places, right),
            left_col,
            right_col,
        },
        Op::Distinct { input, cols } => Op::Distinct {
            input: at_place(places, input),
            cols,
        },
        Op::Rownum {
            input,
            col,
            keys,
            part,
        } => Op::Rownum {
            input: at_place(places, input),
            col,
            keys,
            part,
        },
        Op::Count { input, group, col } => Op::Count {
            input: at_place(places, input),
            group,
            col,
        },
        Op::Aggregate {
            input,
            agg,
            group,
            item,
            col,
        } => Op::Aggregate {
            input: at_place(places, input),
            agg,
            group,
            item,
            col,
        },
        Op::AggregateFails {
            input,
            agg,
            code,
            group,
            item,
        } => Op::AggregateFails {
            input: at_place(places, input),
            agg,
            code,
            group,
            item,
        },
        Op::Map {
            input,
            fun,
            args,
            col,
        } => Op::Map {
            input: at_place(places, input),
            fun,
            args,
            col,
        },
        Op::MapFails {
            input,
            fun,
            code,
            args,
        } => Op::MapFails {
            input: at_place(places, input),
            fun,
            code,
            args,
        },
        Op::Range {
            input,
            low,
            high,
            col,
        } => Op::Range {
            input: at_place(places, input),
            low,
            high,
            col,
        },
        Op::ExistsCompare {
            left,
            right,
            op,
            left_group,
            left_item,
            right_group,
            right_item,
        } => Op::ExistsCompare {
            left: at_place(places, left),
            right: at_place(places, right),
            op,
            left_group,
            left_item,
            right_group,
            right_item,
        },
        Op::CompareFails {
            left,
            right,
            op,
            code,
            left_group,
            left_item,
            right_group,
            right_item,
        } => Op::CompareFails {
            left: at_place(places, left),
            right: at_place(places, right),
            op,
            code,
            left_group,
            left_item,
            right_group,
            right_item,
        },
        other => other,
    }
}

/// Adds the operators of a form over inputs of the plan, and gives the last one.
///
/// Errors: `Want`, where memory is wanting; some first ones are added then.
pub(crate) fn make(
    alloc: Global,
    plan: &mut Plan,
    inputs: &[OpId],
    form: &[Op],
) -> Result<OpId, Want>
    requires there { AllOf (in_graph plan.old) inputs.now }
    requires fits { form_fits (cols_in plan.old inputs.now) form.now ≡ true }
    requires some { 0 < length form.now }
    ensures { IfOk result (λ t. (docs : Docs) → (texts : List Text) → FormMade (item_rules docs texts) (state_of docs texts plan.old) (state_of docs texts plan.new) inputs.now form.now t) }
{
    let mut places = Vec::new(alloc);
    places.extend_from_slice(inputs)?;
    for op in form {
        plan.validity();
        let id = plan.add(over_places(&places, *op))?;
        places.push(id)?;
    }
    Ok(places[places.len() - 1])
}

/// The operators of two forms, one behind the other.
pub(crate) fn chained(alloc: Global, first: &[Op], second: &[Op]) -> Result<Vec<Op>, Want>
    ensures { IfOk result (λ form. form.items ≡ first.now ++ second.now) }
{
    let mut form = Vec::new(alloc);
    form.extend_from_slice(first)?;
    form.extend_from_slice(second)?;
    Ok(form)
}
