//! The making of a Core: its rules are methods, each in the file of its group. What nests is made by a
//! parameter, so that each rule is proved by itself.
ghost use Rattle.std.specs.Prelude.{ℕ};
ghost use Rattle.core_scope.specs.Leaves.{syn_resolved};
ghost use Rattle.core_normal.specs.Making.{Norms};

use crate::bodies::{Bodies, State, Tree};
use crate::pieces::Context;
use core_meaning::Core;
use std::alloc::Global;
use xq_base::Want;

/// How the Core of what nests is made, at so many levels.
pub trait Nested: Copy {
    ghost norms: { Self → ℕ → Type 0 };

    fn norm(
        self,
        alloc: Global,
        bodies: &Bodies,
        levels: u32,
        e: &Tree,
        state: &mut State,
        focus: Option<Context>,
    ) -> Result<Core, Want>
        requires { norms self levels }
        ensures { Norms bodies.now state.old focus (λ t. syn_resolved t e.now) result state.new };
}

/// The rules, with the bodies of the declared functions.
#[derive(Clone, Copy)]
pub struct Maker<'q, N> {
    pub alloc: Global,
    pub bodies: &'q Bodies,
    /// How deep expressions may still nest.
    pub levels: u32,
    pub nested: N,
}

impl<'q, N: Nested> Maker<'q, N> {
    /// The Core of what nests, with this context.
    ///
    /// Errors: `Want`, where memory is wanting.
    pub fn expr(&self, e: &Tree, state: &mut State, focus: Option<Context>) -> Result<Core, Want>
        requires { N.norms self.now.nested self.now.levels }
        ensures { Norms self.now.bodies.now state.old focus (λ t. syn_resolved t e.now) result state.new }
    {
        self.nested
            .norm(self.alloc, self.bodies, self.levels, e, state, focus)
    }
}
