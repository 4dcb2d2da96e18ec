//! The Core of paths (Formal Semantics, section 4.2) and of predicates (section 4.3.1).
ghost use Rattle.std.specs.Prelude.{◌≡◌, IfOk};
ghost use Rattle.core_meaning.specs.Erasure.{Texts, core_of};
ghost use Rattle.core_scope.specs.Erasure.{start_of};
ghost use Rattle.core_scope.specs.Leaves.{syn_resolved};
ghost use Rattle.core_normal.specs.Making.{ArePicked, IsFresh, Makes_, Norms, normed_behind, normed_chosen, normed_filtered, normed_first, normed_here, normed_next, normed_on, normed_predicate, normed_predicates, normed_through};
ghost use Rattle.core_normal.specs.Stepping.{behind_slashes};
ghost use Rattle.core_normal.specs.Trees as trees;

use crate::bodies::{State, Tree};
use crate::leaves::node_test;
use crate::make::{for_each, fresh, step, var};
use crate::maker::{Maker, Nested};
use crate::pieces::{Context, Selecting, counted, dot, for_each_node, ordered, root, selected};
use core_meaning::{Core, StepFrom};
use std::alloc::Global;
use xq_ast::leaf::Test;
use xq_ast::node::{Behind, Slashes, Start, Step, StepKind};
use xq_base::{Axis, NodeTest, TextId, Want};

/// What a step goes from, behind its slashes.
fn from_slashes(alloc: Global, slashes: Slashes, e: Core) -> Result<Core, Want>
    ensures { IfOk result (λ core. (t : Texts) → core_of t core ≡ behind_slashes slashes (core_of t e)) }
{
    match slashes {
        Slashes::One => Ok(e),
        Slashes::Two(offset) => {
            let axis = Axis::DescendantOrSelf;
            let core = step(alloc, offset, StepFrom::Path, axis, NodeTest::Any, e)?;
            Ok(core)
        }
    }
}

impl<'q, N: Nested> Maker<'q, N> {
    /// A new variable.
    pub fn next_var(&self, state: &mut State) -> Result<u32, Want>
        ensures { IfOk result (λ x. IsFresh self.now.bodies.now state.old x state.new) }
    {
        let x = fresh(self.bodies.base, &mut state.next)?;
        Ok(x)
    }

    /// New variables for some items and their context.
    fn next_context(&self, state: &mut State) -> Result<(u32, Context), Want>
        ensures { IfOk result (λ r. ArePicked self.now.bodies.now state.old r.0 r.1.last r.1.item r.1.place state.new) }
    {
        let items = self.next_var(state)?;
        let last = self.next_var(state)?;
        let item = self.next_var(state)?;
        let place = self.next_var(state)?;
        let context = Context { item, place, last };
        Ok((items, context))
    }

    /// The items of `e` that a predicate selects (XQuery 1.0, section 3.3.2).
    fn predicate(
        &self,
        offset: u64,
        e: Core,
        condition: &Tree,
        state: &mut State,
        focus: Option<Context>,
    ) -> Result<Core, Want>
        requires { N.norms self.now.nested self.now.levels }
        ensures { Makes_ core_of self.now.bodies.now state.old focus (normed_predicate self.now.bodies.now (λ t. syn_resolved t condition.now) offset (λ t. core_of t e)) result state.new }
    {
        let (items, context) = self.next_context(state)?;
        let value = self.next_var(state)?;
        let test = self.expr(condition, state, Some(context))?;
        let by = Selecting {
            items,
            context,
            value,
        };
        let core = selected(self.alloc, offset, e, by, test)?;
        Ok(core)
    }

    /// The items of `e` that all these predicates select, one after the other.
    fn predicates(
        &self,
        offset: u64,
        e: Core,
        conditions: &[Tree],
        state: &mut State,
        focus: Option<Context>,
    ) -> Result<Core, Want>
        requires { N.norms self.now.nested self.now.levels }
        ensures { Makes_ core_of self.now.bodies.now state.old focus (normed_predicates self.now.bodies.now (λ t. trees.syns t conditions.now) offset (λ t. core_of t e)) result state.new }
    {
        let mut left = e;
        for condition in conditions {
            left = self.predicate(offset, left, condition, state, focus)?;
        }
        Ok(left)
    }

    /// An expression with its predicates.
    fn filtered(
        &self,
        offset: u64,
        m: &Tree,
        conditions: &[Tree],
        state: &mut State,
        focus: Option<Context>,
    ) -> Result<Core, Want>
        requires { N.norms self.now.nested self.now.levels }
        ensures { Makes_ core_of self.now.bodies.now state.old focus (normed_filtered self.now.bodies.now offset (λ t. syn_resolved t m.now) (λ t. trees.syns t conditions.now)) result state.new }
    {
        let e = self.expr(m, state, focus)?;
        let core = self.predicates(offset, e, conditions, state, focus)?;
        Ok(core)
    }

    /// A step along an axis from the context item.
    fn walk_here(
        &self,
        offset: u64,
        axis: Axis,
        test: &Test<TextId>,
        conditions: &[Tree],
        state: &mut State,
        focus: Option<Context>,
    ) -> Result<Core, Want>
        requires { N.norms self.now.nested self.now.levels }
        ensures { Makes_ core_of self.now.bodies.now state.old focus (normed_here self.now.bodies.now offset axis test.now (λ t. trees.syns t conditions.now)) result state.new }
    {
        let item = dot(offset, focus);
        let tested = node_test(test);
        let plain = step(self.alloc, offset, StepFrom::Dot, axis, tested, item)?;
        if conditions.is_empty() {
            return Ok(plain);
        }
        let turned = counted(self.alloc, offset, axis, plain)?;
        let chosen = self.predicates(offset, turned, conditions, state, focus)?;
        let core = ordered(self.alloc, offset, chosen)?;
        Ok(core)
    }

    /// The first step of a path that nothing stands before.
    fn first_step(
        &self,
        first: &Step<TextId, Tree>,
        state: &mut State,
        focus: Option<Context>,
    ) -> Result<Core, Want>
        requires { N.norms self.now.nested self.now.levels }
        ensures { Makes_ core_of self.now.bodies.now state.old focus (normed_first self.now.bodies.now first.now) result state.new }
    {
        let conditions = first.predicates.as_slice();
        match &first.kind {
            StepKind::Walk(axis, test) => {
                self.walk_here(first.offset, *axis, test, conditions, state, focus)
            }
            StepKind::Primary(m) => {
                let primary = m.get();
                self.filtered(first.offset, primary, conditions, state, focus)
            }
        }
    }

    /// A step along an axis with predicates from what `e` gives.
    fn walk_chosen(
        &self,
        offset: u64,
        axis: Axis,
        test: &Test<TextId>,
        conditions: &[Tree],
        e: Core,
        state: &mut State,
        focus: Option<Context>,
    ) -> Result<Core, Want>
        requires { N.norms self.now.nested self.now.levels }
        ensures { Makes_ core_of self.now.bodies.now state.old focus (normed_chosen self.now.bodies.now offset axis test.now (λ t. trees.syns t conditions.now) (λ t. core_of t e)) result state.new }
    {
        let item = self.next_var(state)?;
        let place = self.next_var(state)?;
        let tested = node_test(test);
        let here = var(offset, item);
        let plain = step(self.alloc, offset, StepFrom::Path, axis, tested, here)?;
        let turned = counted(self.alloc, offset, axis, plain)?;
        let chosen = self.predicates(offset, turned, conditions, state, focus)?;
        let each = for_each(self.alloc, offset, item, place, e, chosen)?;
        let core = ordered(self.alloc, offset, each)?;
        Ok(core)
    }

    /// A step along an axis from what `e` gives.
    fn walk_on(
        &self,
        offset: u64,
        axis: Axis,
        test: &Test<TextId>,
        conditions: &[Tree],
        e: Core,
        state: &mut State,
        focus: Option<Context>,
    ) -> Result<Core, Want>
        requires { N.norms self.now.nested self.now.levels }
        ensures { Makes_ core_of self.now.bodies.now state.old focus (normed_on self.now.bodies.now offset axis test.now (λ t. trees.syns t conditions.now) (λ t. core_of t e)) result state.new }
    {
        if conditions.is_empty() {
            let tested = node_test(test);
            let plain = step(self.alloc, offset, StepFrom::Path, axis, tested, e)?;
            return Ok(plain);
        }
        let core = self.walk_chosen(offset, axis, test, conditions, e, state, focus)?;
        Ok(core)
    }

    /// An expression for each node that `e` gives (XQuery 1.0, section 3.2).
    fn through(
        &self,
        offset: u64,
        m: &Tree,
        conditions: &[Tree],
        e: Core,
        state: &mut State,
        focus: Option<Context>,
    ) -> Result<Core, Want>
        requires { N.norms self.now.nested self.now.levels }
        ensures { Makes_ core_of self.now.bodies.now state.old focus (normed_through self.now.bodies.now offset (λ t. syn_resolved t m.now) (λ t. trees.syns t conditions.now) (λ t. core_of t e)) result state.new }
    {
        let (items, context) = self.next_context(state)?;
        let body = self.filtered(offset, m, conditions, state, Some(context))?;
        let core = for_each_node(self.alloc, offset, e, items, context, body)?;
        Ok(core)
    }

    /// A step of a path over the Core of what stands before it.
    fn next_step(
        &self,
        next: &Step<TextId, Tree>,
        e: Core,
        state: &mut State,
        focus: Option<Context>,
    ) -> Result<Core, Want>
        requires { N.norms self.now.nested self.now.levels }
        ensures { Makes_ core_of self.now.bodies.now state.old focus (normed_next self.now.bodies.now next.now (λ t. core_of t e)) result state.new }
    {
        let conditions = next.predicates.as_slice();
        match &next.kind {
            StepKind::Walk(axis, test) => {
                self.walk_on(next.offset, *axis, test, conditions, e, state, focus)
            }
            StepKind::Primary(m) => {
                let primary = m.get();
                self.through(next.offset, primary, conditions, e, state, focus)
            }
        }
    }

    /// The further steps of a path over the Core of what stands before them.
    fn next_steps(
        &self,
        first: Core,
        behind: &[Behind<TextId, Tree>],
        state: &mut State,
        focus: Option<Context>,
    ) -> Result<Core, Want>
        requires { N.norms self.now.nested self.now.levels }
        ensures { Makes_ core_of self.now.bodies.now state.old focus (normed_behind self.now.bodies.now behind.now (λ t. core_of t first)) result state.new }
    {
        let mut left = first;
        for next in behind {
            let start = from_slashes(self.alloc, next.slashes, left)?;
            left = self.next_step(&next.step, start, state, focus)?;
        }
        Ok(left)
    }

    /// The first step of a path, behind its slashes.
    fn path_start(
        &self,
        start: Start,
        first: &Step<TextId, Tree>,
        state: &mut State,
        focus: Option<Context>,
    ) -> Result<Core, Want>
        requires { N.norms self.now.nested self.now.levels }
        ensures { Norms self.now.bodies.now state.old focus (λ t. trees.step t (start_of start) first.now) result state.new }
    {
        match start {
            Start::Here => {
                let core = self.first_step(first, state, focus)?;
                Ok(core)
            }
            Start::Root(offset) => {
                let top = root(self.alloc, offset, focus)?;
                let core = self.next_step(first, top, state, focus)?;
                Ok(core)
            }
            Start::Deep(offset) => {
                let top = root(self.alloc, offset, focus)?;
                let every = from_slashes(self.alloc, Slashes::Two(offset), top)?;
                let core = self.next_step(first, every, state, focus)?;
                Ok(core)
            }
        }
    }

    /// A path (XQuery 1.0, section 3.2).
    pub fn path(
        &self,
        start: Start,
        first: &Step<TextId, Tree>,
        behind: &[Behind<TextId, Tree>],
        state: &mut State,
        focus: Option<Context>,
    ) -> Result<Core, Want>
        requires { N.norms self.now.nested self.now.levels }
        ensures { Norms self.now.bodies.now state.old focus (λ t. trees.behinds t (trees.step t (start_of start) first.now) behind.now) result state.new }
    {
        let made = self.path_start(start, first, state, focus)?;
        let core = self.next_steps(made, behind, state, focus)?;
        Ok(core)
    }
}
