//! The shapes of expressions.
ghost use Rattle.std.specs.Prelude.{◌≡◌, ◌+◌, [], length, max, IfOk};
ghost use Rattle.plan_dag.specs.ItemRules.{constant_cell};
ghost use Rattle.lift_laws.specs.States.{single, three};
ghost use Rattle.lift_laws.specs.Shapes.{back_rows, chosen_rows, either_rows, four, inner_rows, into_rows, item_var_rows, less, literal_rows, place_var_rows, restrict_rows, seq_rows, turn_map};
ghost use Rattle.lift_prims.specs.Made.{IsLoop, HasItems, IsMap, Made, rows_in};
ghost use Rattle.lift_prims.specs.Shaping.{back_form, chosen_form, each_form, either_form, inner_form, into_form, less_form, literal_form, nothing_form, restrict_form, sequence_form, turn_map_form};

use crate::form::make;
use crate::ops::{attach, difference, empty, join, map, project, rownum, select, union};
use plan_dag::{Op, OpId, Plan};
use std::alloc::Global;
use xq_base::{Atom, Fun, Want};

fn literal_form(value: Atom) -> [Op; 2]
    ensures { result ≡ literal_form value }
{
    [attach(0, 1, Atom::Int(1)), attach(1, 2, value)]
}

fn sequence_form() -> [Op; 5]
    ensures { result ≡ sequence_form }
{
    [
        attach(0, 3, Atom::Int(1)),
        attach(1, 3, Atom::Int(2)),
        union(2, 3),
        rownum(4, 4, &[3, 1], Some(0)),
        project(5, &[(0, 0), (1, 4), (2, 2)]),
    ]
}

/// A literal: its value at position 1 of each iteration (own rule).
///
/// Errors: `Want`, where memory is wanting.
pub fn literal(alloc: Global, plan: &mut Plan, looped: OpId, value: Atom) -> Result<OpId, Want>
    requires { IsLoop plan.old looped }
    ensures { IfOk result (Made plan.old plan.new three (λ docs texts. literal_rows (constant_cell texts value) (rows_in docs texts plan.old looped)) (λ docs texts. length (rows_in docs texts plan.old looped))) }
{
    make(alloc, plan, &[looped], &literal_form(value))
}

/// Two tables one after the other, with new positions (own rule).
///
/// Errors: `Want`, where memory is wanting.
pub fn sequence(alloc: Global, plan: &mut Plan, first: OpId, second: OpId) -> Result<OpId, Want>
    requires first { HasItems plan.old first }
    requires second { HasItems plan.old second }
    ensures { IfOk result (Made plan.old plan.new three (λ docs texts. seq_rows (rows_in docs texts plan.old first) (rows_in docs texts plan.old second)) (λ docs texts. length (rows_in docs texts plan.old first) + length (rows_in docs texts plan.old second))) }
{
    make(alloc, plan, &[first, second], &sequence_form())
}

fn less_form() -> [Op; 1]
    ensures { result ≡ less_form }
{
    [difference(0, 1)]
}

/// The iterations of a loop that rows don't name (own rule).
///
/// Errors: `Want`, where memory is wanting.
pub fn less(alloc: Global, plan: &mut Plan, looped: OpId, marked: OpId) -> Result<OpId, Want>
    requires looped { IsLoop plan.old looped }
    requires marked { IsLoop plan.old marked }
    ensures { IfOk result (Made plan.old plan.new single (λ docs texts. less (rows_in docs texts plan.old looped) (rows_in docs texts plan.old marked)) (λ docs texts. length (rows_in docs texts plan.old looped))) }
{
    make(alloc, plan, &[looped, marked], &less_form())
}

fn nothing_form() -> [Op; 1]
    ensures { result ≡ nothing_form }
{
    [empty(&[0, 1, 2])]
}

/// No items in any iteration (own rule).
///
/// Errors: `Want`, where memory is wanting.
pub fn nothing(alloc: Global, plan: &mut Plan) -> Result<OpId, Want>
    ensures { IfOk result (Made plan.old plan.new three (λ docs texts. []) (λ docs texts. 0)) }
{
    make(alloc, plan, &[], &nothing_form())
}

fn turn_map_form() -> [Op; 1]
    ensures { result ≡ turn_map_form }
{
    [rownum(0, 3, &[0, 1], None)]
}

/// The map of a loop over a sequence's items: its turns, numbered, each with its iteration, its place and its item (own rule).
///
/// Errors: `Want`, where memory is wanting.
pub fn turn_map(alloc: Global, plan: &mut Plan, seq: OpId) -> Result<OpId, Want>
    requires { HasItems plan.old seq }
    ensures { IfOk result (Made plan.old plan.new four (λ docs texts. turn_map (rows_in docs texts plan.old seq)) (λ docs texts. length (rows_in docs texts plan.old seq))) }
{
    make(alloc, plan, &[seq], &turn_map_form())
}

fn inner_form() -> [Op; 1]
    ensures { result ≡ inner_form }
{
    [project(0, &[(0, 3)])]
}

/// The turns of a loop's map as iterations (own rule).
///
/// Errors: `Want`, where memory is wanting.
pub fn inner_loop(alloc: Global, plan: &mut Plan, map: OpId) -> Result<OpId, Want>
    requires { IsMap plan.old map }
    ensures { IfOk result (Made plan.old plan.new single (λ docs texts. inner_rows (rows_in docs texts plan.old map)) (λ docs texts. length (rows_in docs texts plan.old map))) }
{
    make(alloc, plan, &[map], &inner_form())
}

fn each_form(col: u8) -> [Op; 2]
    ensures { result ≡ each_form col }
{
    [
        attach(0, 4, Atom::Int(1)),
        project(1, &[(0, 3), (1, 4), (2, col)]),
    ]
}

/// The variable of a loop: the item of each turn (own rule).
///
/// Errors: `Want`, where memory is wanting.
pub fn item_var(alloc: Global, plan: &mut Plan, map: OpId) -> Result<OpId, Want>
    requires { IsMap plan.old map }
    ensures { IfOk result (Made plan.old plan.new three (λ docs texts. item_var_rows (rows_in docs texts plan.old map)) (λ docs texts. length (rows_in docs texts plan.old map))) }
{
    make(alloc, plan, &[map], &each_form(2))
}

/// The variable for the place of a loop's item: the place of each turn (own rule).
///
/// Errors: `Want`, where memory is wanting.
pub fn place_var(alloc: Global, plan: &mut Plan, map: OpId) -> Result<OpId, Want>
    requires { IsMap plan.old map }
    ensures { IfOk result (Made plan.old plan.new three (λ docs texts. place_var_rows (rows_in docs texts plan.old map)) (λ docs texts. length (rows_in docs texts plan.old map))) }
{
    make(alloc, plan, &[map], &each_form(1))
}

fn into_form() -> [Op; 3]
    ensures { result ≡ into_form }
{
    [
        project(0, &[(4, 0), (5, 3)]),
        join(2, 1, 4, 0),
        project(3, &[(0, 5), (1, 1), (2, 2)]),
    ]
}

/// A variable from outside a loop, in its turns (own rule).
///
/// Errors: `Want`, where memory is wanting.
pub fn into_loop(alloc: Global, plan: &mut Plan, map: OpId, var: OpId) -> Result<OpId, Want>
    requires map { IsMap plan.old map }
    requires var { HasItems plan.old var }
    ensures { IfOk result (Made plan.old plan.new three (λ docs texts. into_rows (rows_in docs texts plan.old map) (rows_in docs texts plan.old var)) (λ docs texts. max (length (rows_in docs texts plan.old map)) (length (into_rows (rows_in docs texts plan.old map) (rows_in docs texts plan.old var))))) }
{
    make(alloc, plan, &[map, var], &into_form())
}

fn back_form() -> [Op; 5]
    ensures { result ≡ back_form }
{
    [
        project(0, &[(4, 3), (5, 0), (6, 1)]),
        join(2, 1, 4, 0),
        project(3, &[(0, 5), (1, 1), (2, 2), (3, 6)]),
        rownum(4, 4, &[3, 1], Some(0)),
        project(5, &[(0, 0), (1, 4), (2, 2)]),
    ]
}

/// The values of a loop's turns as values of the iterations outside (own rule).
///
/// Errors: `Want`, where memory is wanting.
pub fn back(alloc: Global, plan: &mut Plan, map: OpId, body: OpId) -> Result<OpId, Want>
    requires map { IsMap plan.old map }
    requires body { HasItems plan.old body }
    ensures { IfOk result (Made plan.old plan.new three (λ docs texts. back_rows (rows_in docs texts plan.old map) (rows_in docs texts plan.old body)) (λ docs texts. length (rows_in docs texts plan.old map) + length (back_rows (rows_in docs texts plan.old map) (rows_in docs texts plan.old body)))) }
{
    make(alloc, plan, &[map, body], &back_form())
}

fn chosen_form() -> [Op; 7]
    ensures { result ≡ chosen_form }
{
    [
        attach(0, 3, Atom::Int(2)),
        map(1, Fun::Eq, &[1, 3], 4),
        select(2, 4),
        project(3, &[(0, 0)]),
        select(0, 2),
        project(5, &[(0, 0)]),
        difference(6, 4),
    ]
}

/// The iterations in which a condition is one item that is true (own rule).
///
/// Errors: `Want`, where memory is wanting.
pub fn chosen_loop(alloc: Global, plan: &mut Plan, test: OpId) -> Result<OpId, Want>
    requires { HasItems plan.old test }
    ensures { IfOk result (Made plan.old plan.new single (λ docs texts. chosen_rows (rows_in docs texts plan.old test)) (λ docs texts. length (rows_in docs texts plan.old test))) }
{
    make(alloc, plan, &[test], &chosen_form())
}

fn restrict_form() -> [Op; 3]
    ensures { result ≡ restrict_form }
{
    [
        project(0, &[(4, 0)]),
        join(2, 1, 4, 0),
        project(3, &[(0, 0), (1, 1), (2, 2)]),
    ]
}

/// A variable in the iterations of a branch (own rule).
///
/// Errors: `Want`, where memory is wanting.
pub fn into_branch(alloc: Global, plan: &mut Plan, looped: OpId, var: OpId) -> Result<OpId, Want>
    requires looped { IsLoop plan.old looped }
    requires var { HasItems plan.old var }
    ensures { IfOk result (Made plan.old plan.new three (λ docs texts. restrict_rows (rows_in docs texts plan.old looped) (rows_in docs texts plan.old var)) (λ docs texts. max (length (rows_in docs texts plan.old looped)) (length (restrict_rows (rows_in docs texts plan.old looped) (rows_in docs texts plan.old var))))) }
{
    make(alloc, plan, &[looped, var], &restrict_form())
}

fn either_form() -> [Op; 1]
    ensures { result ≡ either_form }
{
    [union(0, 1)]
}

/// The values of both branches (own rule).
///
/// Errors: `Want`, where memory is wanting.
pub fn either(alloc: Global, plan: &mut Plan, first: OpId, second: OpId) -> Result<OpId, Want>
    requires first { HasItems plan.old first }
    requires second { HasItems plan.old second }
    ensures { IfOk result (Made plan.old plan.new three (λ docs texts. either_rows (rows_in docs texts plan.old first) (rows_in docs texts plan.old second)) (λ docs texts. length (rows_in docs texts plan.old first) + length (rows_in docs texts plan.old second))) }
{
    make(alloc, plan, &[first, second], &either_form())
}
