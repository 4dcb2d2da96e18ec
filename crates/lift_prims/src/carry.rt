//! Variables that are carried into a loop or a branch.
ghost use Rattle.std.specs.Prelude.{◌≡◌, ◌++◌, ◌∷◌, ℕ, [], true, List, IfOk};
ghost use Rattle.xq_base.specs.Texts.{Text};
ghost use Rattle.doc_table.specs.NodeRules.{Docs};
ghost use Rattle.core_meaning.specs.Work.{is_member};
ghost use Rattle.lift_laws.specs.States.{state_of};
ghost use Rattle.lift_laws.specs.Shapes.{into_rows, restrict_rows};
ghost use Rattle.lift_laws.specs.Carried.{CarriedFor};
ghost use Rattle.lift_prims.specs.Made.{IsLoop, IsMap, HasItems};
ghost use Rattle.lift_prims.specs.Scopes.{scope_of};

use crate::shapes::{into_branch, into_loop};
use plan_dag::{OpId, Plan};
use std::alloc::Global;
use xq_base::Want;

/// A variable, and the operator of its items.
#[derive(Clone, Copy, Debug, PartialEq, Eq)]
pub struct Bound {
    pub var: u32,
    pub op: OpId,
}

/// The operator of a variable, by the last binding. It takes no memory.
pub fn look_up(scope: &[Bound], var: u32) -> OpId
    ensures { result ≡ scope_of scope.now var }
{
    let mut found = OpId(0);
    for bound in scope {
        if var == bound.var {
            found = bound.op;
        }
    }
    found
}

/// A scope with one more binding.
///
/// Errors: `Want`, where memory is wanting.
pub fn with_bound(alloc: Global, scope: &[Bound], var: u32, op: OpId) -> Result<Vec<Bound>, Want>
    ensures { IfOk result (λ all. all.items ≡ scope.now ++ record { var = var; op = op } ∷ []) }
{
    let mut all = Vec::new(alloc);
    all.extend_from_slice(scope)?;
    all.push(Bound { var, op })?;
    Ok(all)
}

/// Carries variables into the turns of a loop (own rule): gives a scope of exactly these.
///
/// Errors: `Want`, where memory is wanting.
pub fn carry_vars(
    alloc: Global,
    plan: &mut Plan,
    map: OpId,
    scope: &[Bound],
    names: &[u32],
) -> Result<Vec<Bound>, Want>
    requires map { IsMap plan.old map }
    requires scoped { (y : ℕ) → is_member y names.now ≡ true → HasItems plan.old (scope_of scope.now y) }
    ensures { IfOk result (λ inner. (docs : Docs) → (texts : List Text) → CarriedFor into_rows (state_of docs texts plan.old) (state_of docs texts plan.new) map (scope_of scope.now) (scope_of inner.items) names.now) }
{
    let mut inner = Vec::new(alloc);
    for name in names {
        let op = into_loop(alloc, plan, map, look_up(scope, *name))?;
        inner.push(Bound { var: *name, op })?;
    }
    Ok(inner)
}

/// Carries variables into the iterations of a branch (own rule): gives a scope of exactly these.
///
/// Errors: `Want`, where memory is wanting.
pub fn restrict_vars(
    alloc: Global,
    plan: &mut Plan,
    looped: OpId,
    scope: &[Bound],
    names: &[u32],
) -> Result<Vec<Bound>, Want>
    requires looped { IsLoop plan.old looped }
    requires scoped { (y : ℕ) → is_member y names.now ≡ true → HasItems plan.old (scope_of scope.now y) }
    ensures { IfOk result (λ inner. (docs : Docs) → (texts : List Text) → CarriedFor restrict_rows (state_of docs texts plan.old) (state_of docs texts plan.new) looped (scope_of scope.now) (scope_of inner.items) names.now) }
{
    let mut inner = Vec::new(alloc);
    for name in names {
        let op = into_branch(alloc, plan, looped, look_up(scope, *name))?;
        inner.push(Bound { var: *name, op })?;
    }
    Ok(inner)
}
