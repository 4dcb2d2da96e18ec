//! The Core of loops and bindings (Formal Semantics, sections 4.8 and 4.11).
ghost use Rattle.std.specs.Prelude.{◌≡◌, IfOk, OnOk};
ghost use Rattle.core_meaning.specs.Erasure.{core_of};
ghost use Rattle.core_scope.specs.Leaves.{syn_resolved};
ghost use Rattle.core_scope.specs.Syn as s;
ghost use Rattle.core_normal.specs.Around.{Env};
ghost use Rattle.core_normal.specs.Binding.{at_value, at_var, env_inside, normed_guarded, normed_last, normed_nested, normed_turn, values_outside};
ghost use Rattle.core_normal.specs.Making.{Makes_, Norms};
ghost use Rattle.core_normal.specs.Standing.{Stands, vars_in};
ghost use Rattle.core_normal.specs.Trees as trees;
ghost use Rattle.core_normal.specs.Turned.{turn_of};

use crate::bind_refs::{BindRef, Last, flwor_refs, quantifier_refs};
use crate::binds::{Turned, for_turned, let_turned, turn};
use crate::bodies::{State, Tree};
use crate::leaves::maybe_type;
use crate::make::{choice, empty};
use crate::maker::{Maker, Nested};
use crate::pieces::{Context, boolean, quantified, witness};
use crate::places::place;
use crate::vars::Vars;
use core_meaning::Core;
use sqlite_items::Boxed;
use xq_ast::leaf::{Quantifier, SeqType};
use xq_ast::node::{Clause, QuantBind};
use xq_base::Want;

/// Lets the variable of a position stand for its variable of the query. Gives what stood for it before.
fn enter_place(at: Option<(u64, u32)>, pos: Option<u32>, vars: &mut Vars) -> Result<u32, Want>
    ensures inside { OnOk result ((env : Env) → Stands (vars_in vars.old) env → Stands (vars_in vars.new) (at_var at pos env)) }
    ensures outside { IfOk result (λ y. at_value at pos y (vars_in vars.new) ≡ vars_in vars.old) }
{
    match at {
        None => Ok(0),
        Some(var) => match pos {
            None => Ok(0),
            Some(x) => {
                let before = vars.enter(var.1, x)?;
                Ok(before)
            }
        },
    }
}

/// Gives back what stood for the variable of a position.
fn leave_place(
    at: Option<(u64, u32)>,
    pos: Option<u32>,
    before: u32,
    vars: &mut Vars,
) -> Result<(), Want>
    ensures { OnOk result (vars_in vars.new ≡ at_value at pos before (vars_in vars.old)) }
{
    match at {
        None => Ok(()),
        Some(var) => match pos {
            None => Ok(()),
            Some(_) => {
                vars.set(var.1, before)?;
                Ok(())
            }
        },
    }
}

/// Lets the variables of a bind stand for those of the query. Gives what stood for them before.
pub fn enter(
    bind: &BindRef<'_>,
    x: u32,
    pos: Option<u32>,
    state: &mut State,
) -> Result<(u32, u32), Want>
    ensures inside { OnOk result ((env : Env) → Stands (vars_in state.old.vars) env → Stands (vars_in state.new.vars) (env_inside bind.now x pos env)) }
    ensures outside { IfOk result (λ before. values_outside bind.now pos before (vars_in state.new.vars) ≡ vars_in state.old.vars) }
    ensures next { OnOk result (state.new.next ≡ state.old.next) }
{
    let place_before = enter_place(bind.at, pos, &mut state.vars)?;
    let var_before = state.vars.enter(bind.var, x)?;
    Ok((place_before, var_before))
}

/// Gives back what stood for the variables of a bind.
pub fn leave(
    bind: &BindRef<'_>,
    pos: Option<u32>,
    before: (u32, u32),
    state: &mut State,
) -> Result<(), Want>
    ensures outside { OnOk result (vars_in state.new.vars ≡ values_outside bind.now pos before (vars_in state.old.vars)) }
    ensures next { OnOk result (state.new.next ≡ state.old.next) }
{
    state.vars.set(bind.var, before.1)?;
    leave_place(bind.at, pos, before.0, &mut state.vars)?;
    Ok(())
}

impl<'q, N: Nested> Maker<'q, N> {
    /// A bind over its value.
    pub fn turned(
        &self,
        bind: &BindRef<'_>,
        state: &mut State,
        focus: Option<Context>,
    ) -> Result<Turned, Want>
        requires { N.norms self.now.nested self.now.levels }
        ensures { Makes_ turn_of self.now.bodies.now state.old focus (normed_turn self.now.bodies.now bind.now) result state.new }
    {
        let value = self.expr(bind.value, state, focus)?;
        let at = place(bind.value);
        let ty = maybe_type(bind.ty);
        if bind.is_loop {
            let looped = for_turned(self.bodies.base, ty, at, value, &mut state.next)?;
            return Ok(looped);
        }
        let turned = let_turned(self.bodies.base, ty, at, value, &mut state.next)?;
        Ok(turned)
    }

    /// The result of a FLWOR without keys, behind its condition.
    fn guarded(
        &self,
        offset: u64,
        condition: &Option<Boxed<Tree>>,
        e: &Tree,
        state: &mut State,
        focus: Option<Context>,
    ) -> Result<Core, Want>
        requires { N.norms self.now.nested self.now.levels }
        ensures { Makes_ core_of self.now.bodies.now state.old focus (normed_guarded self.now.bodies.now (λ t. trees.maybe t condition.now) offset (λ t. syn_resolved t e.now)) result state.new }
    {
        match condition {
            None => {
                let core = self.expr(e, state, focus)?;
                Ok(core)
            }
            Some(w) => {
                let inner = w.get();
                let test = self.expr(inner, state, focus)?;
                let truth = boolean(self.alloc, place(inner), test)?;
                let whole = self.expr(e, state, focus)?;
                let nothing = empty(offset);
                let core = choice(self.alloc, offset, truth, whole, nothing)?;
                Ok(core)
            }
        }
    }

    /// What stands inside all binds.
    fn last(
        &self,
        offset: u64,
        last: &Last<'_>,
        state: &mut State,
        focus: Option<Context>,
    ) -> Result<Core, Want>
        requires { N.norms self.now.nested self.now.levels }
        ensures { Makes_ core_of self.now.bodies.now state.old focus (normed_last self.now.bodies.now last.now offset) result state.new }
    {
        match last {
            Last::Result(condition, e) => {
                let core = self.guarded(offset, condition, e, state, focus)?;
                Ok(core)
            }
            Last::Asked(quantifier, e) => {
                let asked = self.expr(e, state, focus)?;
                let truth = boolean(self.alloc, place(e), asked)?;
                let core = witness(self.alloc, offset, *quantifier, truth)?;
                Ok(core)
            }
        }
    }

    /// Binds round what stands inside them. Each is a level of the Core.
    fn nest(
        &self,
        offset: u64,
        binds: &[BindRef<'_>],
        last: &Last<'_>,
        state: &mut State,
        focus: Option<Context>,
    ) -> Result<Core, Want>
        requires { N.norms self.now.nested self.now.levels }
        ensures { Makes_ core_of self.now.bodies.now state.old focus (normed_nested self.now.bodies.now binds.now offset last.now) result state.new }
    {
        match binds.split_first() {
            None => {
                let core = self.last(offset, last, state, focus)?;
                Ok(core)
            }
            Some((bind, rest)) => {
                let turned = self.turned(bind, state, focus)?;
                let (x, pos) = (turned.x, turned.pos);
                let before = enter(bind, x, pos, state)?;
                let inner = self.nest(offset, rest, last, state, focus)?;
                leave(bind, pos, before, state)?;
                let core = turn(self.alloc, offset, turned, inner)?;
                Ok(core)
            }
        }
    }

    /// A FLWOR without keys (XQuery 1.0, section 3.8).
    pub fn flwor(
        &self,
        offset: u64,
        clauses: &[Clause<u32, SeqType, Tree>],
        condition: &Option<Boxed<Tree>>,
        e: &Tree,
        state: &mut State,
        focus: Option<Context>,
    ) -> Result<Core, Want>
        requires { N.norms self.now.nested self.now.levels }
        ensures { Norms self.now.bodies.now state.old focus (λ t. s.flwor offset (trees.clauses t clauses.now) (trees.maybe t condition.now) s.no_keys (syn_resolved t e.now)) result state.new }
    {
        let binds = flwor_refs(self.alloc, clauses)?;
        let all = binds.as_slice();
        let last = Last::Result(condition, e);
        let core = self.nest(offset, all, &last, state, focus)?;
        Ok(core)
    }

    /// A quantifier (XQuery 1.0, section 3.11).
    pub fn quantified(
        &self,
        offset: u64,
        quantifier: Quantifier,
        binds: &[QuantBind<u32, SeqType, Tree>],
        e: &Tree,
        state: &mut State,
        focus: Option<Context>,
    ) -> Result<Core, Want>
        requires { N.norms self.now.nested self.now.levels }
        ensures { Norms self.now.bodies.now state.old focus (λ t. s.quantified offset quantifier (trees.quant_binds t binds.now) (syn_resolved t e.now)) result state.new }
    {
        let refs = quantifier_refs(self.alloc, binds)?;
        let all = refs.as_slice();
        let last = Last::Asked(quantifier, e);
        let inner = self.nest(offset, all, &last, state, focus)?;
        let core = quantified(self.alloc, offset, quantifier, inner)?;
        Ok(core)
    }
}
