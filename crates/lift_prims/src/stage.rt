//! Checks of the iterations that rows name.
ghost use Rattle.std.specs.Prelude.{◌≡◌, ◌<◌, true, length, IfOk};
ghost use Rattle.plan_dag.specs.Graphs.{in_graph};
ghost use Rattle.lift_laws.specs.Sums.{AllOf};
ghost use Rattle.lift_laws.specs.States.{single};
ghost use Rattle.lift_prims.specs.Forms.{form_fits, form_cols, cols_in};
ghost use Rattle.lift_prims.specs.Made.{IsLoop};
ghost use Rattle.lift_prims.specs.Staging.{Checked, CheckedForm, CallFits, CallMade, form_marks};

use crate::form::make;
use crate::shapes::less;
use plan_dag::{Op, OpId, Plan};
use std::alloc::Global;
use xq_base::{Code, Want};

/// The form of the rows that name iterations, and the code of their check.
#[derive(Clone, Copy)]
pub(crate) struct Mark<'a> {
    pub code: Code,
    pub form: &'a [Op],
}

/// Adds a check of the iterations of a loop that rows name, and gives the loop without them (own rule).
///
/// Errors: `Want`, where memory is wanting.
pub fn check_named(
    alloc: Global,
    plan: &mut Plan,
    looped: OpId,
    marked: OpId,
    code: Code,
    offset: u64,
) -> Result<OpId, Want>
    requires looped { IsLoop plan.old looped }
    requires marked { IsLoop plan.old marked }
    ensures { IfOk result (Checked plan.old plan.new looped marked code offset) }
{
    let rest = less(alloc, plan, looped, marked)?;
    let named = less(alloc, plan, looped, rest)?;
    plan.check(named, code, offset)?;
    Ok(rest)
}

/// Makes a form, and adds a check of the iterations of a loop that its rows name; gives the loop without them (own rule).
///
/// Errors: `Want`, where memory is wanting.
pub(crate) fn check_form(
    alloc: Global,
    plan: &mut Plan,
    looped: OpId,
    inputs: &[OpId],
    marks: &[Op],
    code: Code,
    offset: u64,
) -> Result<OpId, Want>
    requires looped { IsLoop plan.old looped }
    requires there { AllOf (in_graph plan.old) inputs.now }
    requires fits { form_fits (cols_in plan.old inputs.now) marks.now ≡ true }
    requires some { 0 < length marks.now }
    requires columns { form_cols (cols_in plan.old inputs.now) marks.now ≡ single }
    ensures { IfOk result (CheckedForm plan.old plan.new looped inputs.now marks.now code offset) }
{
    let marked = make(alloc, plan, inputs, marks)?;
    check_named(alloc, plan, looped, marked, code, offset)
}

/// Makes the operators of a call: its values by a form, and then a check for each code, in their order, of the iterations that
/// the rows of the code's form name and no earlier one's (own rule).
///
/// Errors: `Want`, where memory is wanting.
pub(crate) fn make_call(
    alloc: Global,
    plan: &mut Plan,
    looped: OpId,
    inputs: &[OpId],
    values: &[Op],
    marks: &[Mark],
    offset: u64,
) -> Result<OpId, Want>
    requires { CallFits plan.old looped inputs.now values.now (form_marks marks.now) }
    ensures { IfOk result (CallMade plan.old plan.new looped inputs.now values.now (form_marks marks.now) offset) }
{
    let out = make(alloc, plan, inputs, values)?;
    let mut left = looped;
    for mark in marks {
        left = check_form(alloc, plan, left, inputs, mark.form, mark.code, offset)?;
    }
    Ok(out)
}
