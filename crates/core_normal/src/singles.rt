//! The Core of forms whose parts are single expressions.
ghost use Rattle.std.specs.Prelude.{◌≡◌, IfOk};
ghost use Rattle.core_meaning.specs.Erasure.{Texts, core_of};
ghost use Rattle.core_scope.specs.Erasure.{with_signs};
ghost use Rattle.core_scope.specs.Leaves.{sequence_of, syn_resolved};
ghost use Rattle.core_scope.specs.Syn as s;
ghost use Rattle.core_normal.specs.Making.{Norms};
ghost use Rattle.core_normal.specs.Forming.{signed_all};

use crate::bodies::{State, Tree};
use crate::leaves::seq_type;
use crate::make;
use crate::maker::{Maker, Nested};
use crate::pieces::{Context, boolean, signed};
use crate::places::place;
use core_meaning::Core;
use std::alloc::Global;
use xq_ast::leaf::SeqType;
use xq_ast::node::Signed;
use xq_base::{AtomKind, Want};

/// Signs over what they stand before, the outer first. Each is a level of the Core.
fn signed_by(alloc: Global, signs: &[Signed], a: Core) -> Result<Core, Want>
    ensures { IfOk result (λ core. (t : Texts) → core_of t core ≡ signed_all signs.now (core_of t a)) }
{
    match signs.split_first() {
        None => Ok(a),
        Some((outer, rest)) => {
            let inner = signed_by(alloc, rest, a)?;
            let core = signed(alloc, outer.offset, outer.sign, inner)?;
            Ok(core)
        }
    }
}

impl<'q, N: Nested> Maker<'q, N> {
    /// `if` (XQuery 1.0, section 3.10).
    pub fn conditional(
        &self,
        offset: u64,
        condition: &Tree,
        first: &Tree,
        second: &Tree,
        state: &mut State,
        focus: Option<Context>,
    ) -> Result<Core, Want>
        requires { N.norms self.now.nested self.now.levels }
        ensures { Norms self.now.bodies.now state.old focus (λ t. s.conditional offset (syn_resolved t condition.now) (syn_resolved t first.now) (syn_resolved t second.now)) result state.new }
    {
        let test = self.expr(condition, state, focus)?;
        let yes = self.expr(first, state, focus)?;
        let no = self.expr(second, state, focus)?;
        let truth = boolean(self.alloc, place(condition), test)?;
        let core = make::choice(self.alloc, offset, truth, yes, no)?;
        Ok(core)
    }

    /// Signs (XQuery 1.0, section 3.4).
    pub fn signed(
        &self,
        signs: &[Signed],
        a: &Tree,
        state: &mut State,
        focus: Option<Context>,
    ) -> Result<Core, Want>
        requires { N.norms self.now.nested self.now.levels }
        ensures { Norms self.now.bodies.now state.old focus (λ t. with_signs signs.now (syn_resolved t a.now)) result state.new }
    {
        let operand = self.expr(a, state, focus)?;
        let core = signed_by(self.alloc, signs, operand)?;
        Ok(core)
    }

    /// `instance of` (XQuery 1.0, section 3.12.1).
    pub fn instance(
        &self,
        offset: u64,
        a: &Tree,
        ty: SeqType,
        state: &mut State,
        focus: Option<Context>,
    ) -> Result<Core, Want>
        requires { N.norms self.now.nested self.now.levels }
        ensures { Norms self.now.bodies.now state.old focus (λ t. s.instance offset (syn_resolved t a.now) (sequence_of t ty)) result state.new }
    {
        let operand = self.expr(a, state, focus)?;
        let ty = seq_type(ty);
        let core = make::instance(self.alloc, offset, operand, ty)?;
        Ok(core)
    }

    /// `treat as` (XQuery 1.0, section 3.12.5).
    pub fn treat(
        &self,
        offset: u64,
        a: &Tree,
        ty: SeqType,
        state: &mut State,
        focus: Option<Context>,
    ) -> Result<Core, Want>
        requires { N.norms self.now.nested self.now.levels }
        ensures { Norms self.now.bodies.now state.old focus (λ t. s.treat offset (syn_resolved t a.now) (sequence_of t ty)) result state.new }
    {
        let operand = self.expr(a, state, focus)?;
        let ty = seq_type(ty);
        let core = make::treat(self.alloc, offset, operand, ty)?;
        Ok(core)
    }

    /// `castable as` (XQuery 1.0, section 3.12.3).
    pub fn castable(
        &self,
        offset: u64,
        a: &Tree,
        target: (AtomKind, bool),
        state: &mut State,
        focus: Option<Context>,
    ) -> Result<Core, Want>
        requires { N.norms self.now.nested self.now.levels }
        ensures { Norms self.now.bodies.now state.old focus (λ t. s.castable offset (syn_resolved t a.now) target.0 target.1) result state.new }
    {
        let operand = self.expr(a, state, focus)?;
        let core = make::castable(self.alloc, offset, operand, target.0, target.1)?;
        Ok(core)
    }

    /// `cast as` (XQuery 1.0, section 3.12.2).
    pub fn cast(
        &self,
        offset: u64,
        a: &Tree,
        target: (AtomKind, bool),
        state: &mut State,
        focus: Option<Context>,
    ) -> Result<Core, Want>
        requires { N.norms self.now.nested self.now.levels }
        ensures { Norms self.now.bodies.now state.old focus (λ t. s.cast offset (syn_resolved t a.now) target.0 target.1) result state.new }
    {
        let operand = self.expr(a, state, focus)?;
        let core = make::cast(self.alloc, offset, operand, target.0, target.1)?;
        Ok(core)
    }
}
