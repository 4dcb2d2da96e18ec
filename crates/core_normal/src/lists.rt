//! The Cores of several expressions, and operators of one level.
ghost use Rattle.std.specs.Prelude.{[], ◌∷◌};
ghost use Rattle.core_scope.specs.Leaves.{syn_resolved};
ghost use Rattle.core_scope.specs.Syn as s;
ghost use Rattle.core_meaning.specs.Erasure.{core_of};
ghost use Rattle.core_normal.specs.Making.{Makes_, Norms, cores_in, normed_all, normed_rights};
ghost use Rattle.core_normal.specs.Trees as trees;

use crate::bodies::{State, Tree};
use crate::make::both;
use crate::maker::{Maker, Nested};
use crate::pieces::{Context, binary};
use crate::places::place;
use core_meaning::Core;
use sqlite_items::Items;
use xq_ast::node::Right;
use xq_base::Want;

impl<'q, N: Nested> Maker<'q, N> {
    /// The Cores of expressions, in their order.
    pub fn all(
        &self,
        es: &[Tree],
        state: &mut State,
        focus: Option<Context>,
    ) -> Result<Items<Core>, Want>
        requires { N.norms self.now.nested self.now.levels }
        ensures { Makes_ cores_in self.now.bodies.now state.old focus (normed_all self.now.bodies.now (λ t. trees.syns t es.now)) result state.new }
    {
        let mut made = Items::new(self.alloc);
        for e in es {
            let core = self.expr(e, state, focus)?;
            made.push(core)?;
        }
        Ok(made)
    }

    /// Expressions with commas (XQuery 1.0, section 3.3.1).
    pub fn comma(
        &self,
        offset: u64,
        first: &Tree,
        more: &[Tree],
        state: &mut State,
        focus: Option<Context>,
    ) -> Result<Core, Want>
        requires { N.norms self.now.nested self.now.levels }
        ensures { Norms self.now.bodies.now state.old focus (λ t. s.comma offset (syn_resolved t first.now) (trees.syns t more.now)) result state.new }
    {
        let mut left = self.expr(first, state, focus)?;
        for e in more {
            let core = self.expr(e, state, focus)?;
            left = both(self.alloc, offset, left, core)?;
        }
        Ok(left)
    }

    /// An operator behind the Core of what stands before it, which has this place.
    fn right(
        &self,
        offset: u64,
        at: u64,
        left: Core,
        right: &Right<Tree>,
        state: &mut State,
        focus: Option<Context>,
    ) -> Result<Core, Want>
        requires { N.norms self.now.nested self.now.levels }
        ensures { Makes_ core_of self.now.bodies.now state.old focus (normed_rights self.now.bodies.now offset (right.now ∷ []) at (λ t. core_of t left)) result state.new }
    {
        let operand = &right.operand;
        let core = self.expr(operand, state, focus)?;
        let whole = binary(
            self.alloc,
            offset,
            right.operator,
            left,
            at,
            core,
            place(operand),
        )?;
        Ok(whole)
    }

    /// Operators of a level over the Core of the first operand, which has this place.
    fn rights(
        &self,
        offset: u64,
        at: u64,
        first: Core,
        rights: &[Right<Tree>],
        state: &mut State,
        focus: Option<Context>,
    ) -> Result<Core, Want>
        requires { N.norms self.now.nested self.now.levels }
        ensures { Makes_ core_of self.now.bodies.now state.old focus (normed_rights self.now.bodies.now offset rights.now at (λ t. core_of t first)) result state.new }
    {
        let mut left = first;
        let mut left_place = at;
        for right in rights {
            left = self.right(offset, left_place, left, right, state, focus)?;
            left_place = offset;
        }
        Ok(left)
    }

    /// A level of operators (XQuery 1.0, appendix A.4).
    pub fn chain(
        &self,
        offset: u64,
        first: &Tree,
        rights: &[Right<Tree>],
        state: &mut State,
        focus: Option<Context>,
    ) -> Result<Core, Want>
        requires { N.norms self.now.nested self.now.levels }
        ensures { Norms self.now.bodies.now state.old focus (λ t. trees.rights t offset (syn_resolved t first.now) rights.now) result state.new }
    {
        let operand = self.expr(first, state, focus)?;
        let at = place(first);
        let core = self.rights(offset, at, operand, rights, state, focus)?;
        Ok(core)
    }
}
