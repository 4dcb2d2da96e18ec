//! Calls of the boolean constants, and failures.
ghost use Rattle.std.specs.Prelude.{◌≡◌, ℕ, true, List, [], IfOk};
ghost use Rattle.xq_base.specs.Texts.{Text};
ghost use Rattle.core_meaning.specs.Expr.{Apply, FailWith};
ghost use Rattle.core_meaning.specs.Lawful.{is_dynamic};
ghost use Rattle.lift_prims.specs.Made.{IsLoop};
ghost use Rattle.lift_prims.specs.Staging.{LiftedCall};
ghost use Rattle.lift_prims.specs.CountForms.{empty_form};
ghost use Rattle.lift_prims.specs.TruthForms.{constant_fun};

use crate::form::make;
use crate::ops::empty;
use crate::shapes::literal;
use plan_dag::{Op, OpId, Plan};
use std::alloc::Global;
use xq_base::{Atom, Code, Want};

/// `true()` or `false()` (XQuery 1.0 and XPath 2.0 Functions and Operators, sections 9.1.1 and 9.1.2).
///
/// Errors: `Want`, where memory is wanting.
pub fn constant(alloc: Global, plan: &mut Plan, looped: OpId, value: bool) -> Result<OpId, Want>
    requires { IsLoop plan.old looped }
    ensures { IfOk result (λ t. (pool : List Text) → (offset : ℕ) → LiftedCall pool plan.old plan.new (Apply (constant_fun value)) offset looped [] t) }
{
    literal(alloc, plan, looped, Atom::Bool(value))
}

fn empty_form() -> [Op; 1]
    ensures { result ≡ empty_form }
{
    [empty(&[0, 1, 2])]
}

/// A failure with a code in every iteration (own rule).
///
/// Errors: `Want`, where memory is wanting.
pub fn failure(
    alloc: Global,
    plan: &mut Plan,
    looped: OpId,
    code: Code,
    offset: u64,
) -> Result<OpId, Want>
    requires looped { IsLoop plan.old looped }
    requires dynamic { is_dynamic code ≡ true }
    ensures { IfOk result (λ t. (pool : List Text) → LiftedCall pool plan.old plan.new (FailWith code) offset looped [] t) }
{
    let out = make(alloc, plan, &[], &empty_form())?;
    plan.check(looped, code, offset)?;
    Ok(out)
}
