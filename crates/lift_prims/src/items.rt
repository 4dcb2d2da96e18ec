//! Calls of rules of at most one item: signs, casts, roots and documents.
ghost use Rattle.std.specs.Prelude.{◌≡◌, List, [], ◌∷◌, IfOk};
ghost use Rattle.xq_base.specs.Texts.{Text};
ghost use Rattle.lift_laws.specs.Stages.{rule_of, Negates};
ghost use Rattle.lift_prims.specs.Made.{IsLoop, HasItems};
ghost use Rattle.lift_prims.specs.Staging.{LiftedCall};
ghost use Rattle.lift_prims.specs.ItemForms.{item_value_form, item_fails_form, unfit_form};

use crate::ops::{attach, map, map_fails, project, select, union};
use crate::stage::{Mark, make_call};
use plan_dag::{Op, OpId, Plan};
use std::alloc::Global;
use xq_base::{Atom, Code, Fun, Want};

pub(crate) fn item_value_form(fun: Fun) -> [Op; 2]
    ensures { result ≡ item_value_form fun }
{
    [map(1, fun, &[2], 3), project(2, &[(0, 0), (1, 1), (2, 3)])]
}

fn item_fails_form(fun: Fun, code: Code) -> [Op; 2]
    ensures { result ≡ item_fails_form fun code }
{
    [map_fails(1, fun, code, &[2]), project(2, &[(0, 0)])]
}

pub(crate) fn unfit_form(fun: Fun, code: Code) -> [Op; 7]
    ensures { result ≡ unfit_form fun code }
{
    [
        attach(1, 3, Atom::Int(2)),
        map(2, Fun::Eq, &[1, 3], 4),
        select(3, 4),
        project(4, &[(0, 0)]),
        map_fails(1, fun, code, &[2]),
        project(6, &[(0, 0)]),
        union(5, 7),
    ]
}

/// A sign: `-` or `+` before an operand (XQuery 1.0, section 3.4).
///
/// Errors: `Want`, where memory is wanting.
pub fn negate(
    alloc: Global,
    plan: &mut Plan,
    looped: OpId,
    arg: OpId,
    offset: u64,
) -> Result<OpId, Want>
    requires looped { IsLoop plan.old looped }
    requires arg { HasItems plan.old arg }
    ensures { IfOk result (λ t. (pool : List Text) → LiftedCall pool plan.old plan.new (rule_of Negates) offset looped (arg ∷ []) t) }
{
    let fun = Fun::Negate;
    make_call(
        alloc,
        plan,
        looped,
        &[looped, arg],
        &item_value_form(fun),
        &[
            Mark {
                code: Code::XPTY0004,
                form: &unfit_form(fun, Code::XPTY0004),
            },
            Mark {
                code: Code::FORG0001,
                form: &item_fails_form(fun, Code::FORG0001),
            },
            Mark {
                code: Code::FOAR0002,
                form: &item_fails_form(fun, Code::FOAR0002),
            },
        ],
        offset,
    )
}
