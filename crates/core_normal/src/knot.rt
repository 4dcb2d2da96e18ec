//! What nests: the Core of an expression by itself, at one level less, so that the stack has a bound.
ghost use Rattle.core_scope.specs.Leaves.{syn_resolved};
ghost use Rattle.core_normal.specs.Making.{Nests, Norms};

use crate::bodies::{Bodies, State, Tree};
use crate::maker::{Maker, Nested};
use crate::pieces::Context;
use core_meaning::Core;
use std::alloc::Global;
use xq_base::Want;

/// A function that makes the Core of what nests.
#[derive(Clone, Copy)]
pub struct Deeper<F> {
    pub norm: F,
}

impl<
    F: Fn(Global, &Bodies, u32, &Tree, &mut State, Option<Context>) -> Result<Core, Want> + Copy,
> Nested for Deeper<F> {
    ghost norms = { λ s levels. Nests levels (F.pre s.norm) (F.post s.norm) };

    fn norm(
        self,
        alloc: Global,
        bodies: &Bodies,
        levels: u32,
        e: &Tree,
        state: &mut State,
        focus: Option<Context>,
    ) -> Result<Core, Want> {
        (self.norm)(alloc, bodies, levels, e, state, focus)
    }
}

/// The Core of an expression in which so many levels may nest, itself included.
///
/// Errors: `Want`, where memory is wanting, the number of a variable passes 32 bits, or more levels nest.
pub fn norm(
    alloc: Global,
    bodies: &Bodies,
    levels: u32,
    e: &Tree,
    state: &mut State,
    focus: Option<Context>,
) -> Result<Core, Want>
    ensures { Norms bodies.now state.old focus (λ t. syn_resolved t e.now) result state.new }
{
    if levels == 0 {
        return Err(Want);
    }
    let nested = Deeper { norm };
    let levels = levels - 1;
    Maker {
        alloc,
        bodies,
        levels,
        nested,
    }
    .norm(e, state, focus)
}
