//! Calls of rules by the number of an argument's items, and of its items in another order or as atomic values.
ghost use Rattle.std.specs.Prelude.{◌≡◌, ℕ, List, [], ◌∷◌, IfOk};
ghost use Rattle.xq_base.specs.Texts.{Text};
ghost use Rattle.xq_base.specs.declared.fun.Fun.TheVariants as f;
ghost use Rattle.core_meaning.specs.Expr.{Apply};
ghost use Rattle.lift_prims.specs.Made.{IsLoop, HasItems};
ghost use Rattle.lift_prims.specs.Staging.{LiftedCall};
ghost use Rattle.lift_prims.specs.CountForms.{second_form, none_form, count_form, reverse_form};

use crate::form::{chained, make};
use crate::items::item_value_form;
use crate::ops::{attach, count as counted, difference, join, project, rownum_down, union};
use crate::stage::check_form;
use crate::truths::{or_none_form, placed_form};
use plan_dag::{Op, OpId, Plan};
use std::alloc::Global;
use xq_base::{Atom, Code, Fun, Want};

fn second_form() -> [Op; 4]
    ensures { result ≡ second_form }
{
    placed_form(2, &[(0, 0)])
}

/// `zero-or-one` (XQuery 1.0 and XPath 2.0 Functions and Operators, section 15.2.1).
///
/// Errors: `Want`, where memory is wanting.
pub fn zero_or_one(
    alloc: Global,
    plan: &mut Plan,
    looped: OpId,
    arg: OpId,
    offset: u64,
) -> Result<OpId, Want>
    requires looped { IsLoop plan.old looped }
    requires arg { HasItems plan.old arg }
    ensures { IfOk result (λ t. (pool : List Text) → LiftedCall pool plan.old plan.new (Apply f.ZeroOrOne) offset looped (arg ∷ []) t) }
{
    check_form(
        alloc,
        plan,
        looped,
        &[looped, arg],
        &second_form(),
        Code::FORG0003,
        offset,
    )?;
    Ok(arg)
}

fn none_form() -> [Op; 2]
    ensures { result ≡ none_form }
{
    [project(1, &[(0, 0)]), difference(0, 2)]
}

/// `one-or-more` (XQuery 1.0 and XPath 2.0 Functions and Operators, section 15.2.2).
///
/// Errors: `Want`, where memory is wanting.
pub fn one_or_more(
    alloc: Global,
    plan: &mut Plan,
    looped: OpId,
    arg: OpId,
    offset: u64,
) -> Result<OpId, Want>
    requires looped { IsLoop plan.old looped }
    requires arg { HasItems plan.old arg }
    ensures { IfOk result (λ t. (pool : List Text) → LiftedCall pool plan.old plan.new (Apply f.OneOrMore) offset looped (arg ∷ []) t) }
{
    check_form(
        alloc,
        plan,
        looped,
        &[looped, arg],
        &none_form(),
        Code::FORG0004,
        offset,
    )?;
    Ok(arg)
}

/// `exactly-one` (XQuery 1.0 and XPath 2.0 Functions and Operators, section 15.2.3).
///
/// Errors: `Want`, where memory is wanting.
pub fn exactly_one(
    alloc: Global,
    plan: &mut Plan,
    looped: OpId,
    arg: OpId,
    offset: u64,
) -> Result<OpId, Want>
    requires looped { IsLoop plan.old looped }
    requires arg { HasItems plan.old arg }
    ensures { IfOk result (λ t. (pool : List Text) → LiftedCall pool plan.old plan.new (Apply f.ExactlyOne) offset looped (arg ∷ []) t) }
{
    let form = chained(alloc, &second_form(), &or_none_form(5))?;
    check_form(
        alloc,
        plan,
        looped,
        &[looped, arg],
        &form,
        Code::FORG0005,
        offset,
    )?;
    Ok(arg)
}

/// `data` (XQuery 1.0 and XPath 2.0 Functions and Operators, section 2.4).
///
/// Errors: `Want`, where memory is wanting.
pub fn data(alloc: Global, plan: &mut Plan, looped: OpId, arg: OpId) -> Result<OpId, Want>
    requires looped { IsLoop plan.old looped }
    requires arg { HasItems plan.old arg }
    ensures { IfOk result (λ t. (pool : List Text) → (offset : ℕ) → LiftedCall pool plan.old plan.new (Apply f.Data) offset looped (arg ∷ []) t) }
{
    make(alloc, plan, &[looped, arg], &item_value_form(Fun::Atomize))
}

fn count_form() -> [Op; 10]
    ensures { result ≡ count_form }
{
    [
        counted(1, 0, 3),
        project(2, &[(4, 0), (5, 3)]),
        join(0, 3, 0, 4),
        attach(4, 1, Atom::Int(1)),
        project(5, &[(0, 0), (1, 1), (2, 5)]),
        project(1, &[(0, 0)]),
        difference(0, 7),
        attach(8, 1, Atom::Int(1)),
        attach(9, 2, Atom::Int(0)),
        union(6, 10),
    ]
}

/// `count` (XQuery 1.0 and XPath 2.0 Functions and Operators, section 15.4.1).
///
/// Errors: `Want`, where memory is wanting.
pub fn count(alloc: Global, plan: &mut Plan, looped: OpId, arg: OpId) -> Result<OpId, Want>
    requires looped { IsLoop plan.old looped }
    requires arg { HasItems plan.old arg }
    ensures { IfOk result (λ t. (pool : List Text) → (offset : ℕ) → LiftedCall pool plan.old plan.new (Apply f.Count) offset looped (arg ∷ []) t) }
{
    make(alloc, plan, &[looped, arg], &count_form())
}

fn reverse_form() -> [Op; 2]
    ensures { result ≡ reverse_form }
{
    [
        rownum_down(1, 3, 1, Some(0)),
        project(2, &[(0, 0), (1, 3), (2, 2)]),
    ]
}

/// `reverse` (XQuery 1.0 and XPath 2.0 Functions and Operators, section 15.1.9).
///
/// Errors: `Want`, where memory is wanting.
pub fn reverse(alloc: Global, plan: &mut Plan, looped: OpId, arg: OpId) -> Result<OpId, Want>
    requires looped { IsLoop plan.old looped }
    requires arg { HasItems plan.old arg }
    ensures { IfOk result (λ t. (pool : List Text) → (offset : ℕ) → LiftedCall pool plan.old plan.new (Apply f.Reverse) offset looped (arg ∷ []) t) }
{
    make(alloc, plan, &[looped, arg], &reverse_form())
}
