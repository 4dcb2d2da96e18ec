//! Calls of rules that give a boolean by rows that name iterations.
ghost use Rattle.std.specs.Prelude.{◌≡◌, ◌<◌, ℕ, List, [], ◌∷◌, length, map, IfOk};
ghost use Rattle.xq_base.specs.Texts.{Text};
ghost use Rattle.core_meaning.specs.Expr.{Apply, CastableTo};
ghost use Rattle.lift_laws.specs.Stages.{boolean_fun};
ghost use Rattle.lift_prims.specs.Listed.{pair_in};
ghost use Rattle.lift_prims.specs.Made.{IsLoop, HasItems};
ghost use Rattle.lift_prims.specs.Staging.{LiftedCall};
ghost use Rattle.lift_prims.specs.TruthForms.{truth_form, any_form, placed_form, head_form, true_form, mixed_form, or_none_form, castable_form, exists_fun};

use crate::form::{chained, make};
use crate::items::unfit_form;
use crate::ops::{aggregate, attach, difference, map, map_fails, project, select, union};
use crate::stage::{Mark, make_call};
use plan_dag::{Agg, Op, OpId, Plan};
use std::alloc::Global;
use xq_base::{Atom, AtomKind, Code, Fun, Want};

/// Behind the rows at this place: a boolean by whether they name an iteration.
pub(crate) fn truth_form(marked: u64, there: bool) -> [Op; 7]
    requires { marked < 1000 }
    ensures { result ≡ truth_form marked there }
{
    [
        difference(0, marked),
        difference(0, marked + 1),
        attach(marked + 2, 1, Atom::Int(1)),
        attach(marked + 3, 2, Atom::Bool(there)),
        attach(marked + 1, 1, Atom::Int(1)),
        attach(marked + 5, 2, Atom::Bool(!there)),
        union(marked + 4, marked + 6),
    ]
}

/// The items at a position.
pub(crate) fn placed_form(position: i64, all: &[(u8, u8)]) -> [Op; 4]
    requires { length all.now < 9 }
    ensures { result ≡ placed_form position (map pair_in all.now) }
{
    [
        attach(1, 3, Atom::Int(position)),
        map(2, Fun::Eq, &[1, 3], 4),
        select(3, 4),
        project(4, all),
    ]
}

/// Behind the rows at this place: those iterations, and the ones without an item.
pub(crate) fn or_none_form(marked: u64) -> [Op; 3]
    requires { marked < 1000 }
    ensures { result ≡ or_none_form marked }
{
    [
        project(1, &[(0, 0)]),
        difference(0, marked + 1),
        union(marked, marked + 2),
    ]
}

fn any_form() -> [Op; 1]
    ensures { result ≡ any_form }
{
    [project(1, &[(0, 0)])]
}

/// `exists` or `empty` (XQuery 1.0 and XPath 2.0 Functions and Operators, sections 15.1.5 and 15.1.4).
///
/// Errors: `Want`, where memory is wanting.
pub fn exists(
    alloc: Global,
    plan: &mut Plan,
    looped: OpId,
    arg: OpId,
    there: bool,
) -> Result<OpId, Want>
    requires looped { IsLoop plan.old looped }
    requires arg { HasItems plan.old arg }
    ensures { IfOk result (λ t. (pool : List Text) → (offset : ℕ) → LiftedCall pool plan.old plan.new (Apply (exists_fun there)) offset looped (arg ∷ []) t) }
{
    let form = chained(alloc, &any_form(), &truth_form(2, there))?;
    make(alloc, plan, &[looped, arg], &form)
}

fn head_form() -> [Op; 4]
    ensures { result ≡ head_form }
{
    placed_form(1, &[(0, 0), (1, 1), (2, 2)])
}

fn true_form() -> [Op; 3]
    ensures { result ≡ true_form }
{
    [
        aggregate(5, Agg::Ebv, 0, 2, 3),
        select(6, 3),
        project(7, &[(0, 0)]),
    ]
}

fn mixed_form() -> [Op; 8]
    ensures { result ≡ mixed_form }
{
    [
        map_fails(5, Fun::Name, Code::XPTY0004, &[2]),
        project(6, &[(0, 0)]),
        attach(1, 3, Atom::Int(2)),
        map(8, Fun::Eq, &[1, 3], 4),
        select(9, 4),
        project(10, &[(0, 0)]),
        difference(11, 7),
        difference(11, 12),
    ]
}

/// `boolean` or `not` (XQuery 1.0 and XPath 2.0 Functions and Operators, sections 15.1.1 and 9.3.1).
///
/// Errors: `Want`, where memory is wanting.
pub fn boolean(
    alloc: Global,
    plan: &mut Plan,
    looped: OpId,
    arg: OpId,
    there: bool,
    offset: u64,
) -> Result<OpId, Want>
    requires looped { IsLoop plan.old looped }
    requires arg { HasItems plan.old arg }
    ensures { IfOk result (λ t. (pool : List Text) → LiftedCall pool plan.old plan.new (Apply (boolean_fun there)) offset looped (arg ∷ []) t) }
{
    let first = chained(alloc, &head_form(), &true_form())?;
    let values = chained(alloc, &first, &truth_form(8, there))?;
    let mixed = chained(alloc, &head_form(), &mixed_form())?;
    make_call(
        alloc,
        plan,
        looped,
        &[looped, arg],
        &values,
        &[Mark {
            code: Code::FORG0006,
            form: &mixed,
        }],
        offset,
    )
}

fn castable_form(alloc: Global, kind: AtomKind, optional: bool) -> Result<Vec<Op>, Want>
    ensures { IfOk result (λ form. form.items ≡ castable_form kind optional) }
{
    let unfit = unfit_form(Fun::CastTo(kind), Code::FORG0001);
    if optional {
        return chained(alloc, &unfit, &truth_form(8, false));
    }
    let marked = chained(alloc, &unfit, &or_none_form(8))?;
    chained(alloc, &marked, &truth_form(11, false))
}

/// `castable as` an atomic type, with `?` or without (XQuery 1.0, section 3.12.4).
///
/// Errors: `Want`, where memory is wanting.
pub fn castable(
    alloc: Global,
    plan: &mut Plan,
    looped: OpId,
    arg: OpId,
    kind: AtomKind,
    optional: bool,
) -> Result<OpId, Want>
    requires looped { IsLoop plan.old looped }
    requires arg { HasItems plan.old arg }
    ensures { IfOk result (λ t. (pool : List Text) → (offset : ℕ) → LiftedCall pool plan.old plan.new (CastableTo kind optional) offset looped (arg ∷ []) t) }
{
    let form = castable_form(alloc, kind, optional)?;
    make(alloc, plan, &[looped, arg], &form)
}
