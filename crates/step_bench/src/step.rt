//! One step, and what it gives.
ghost use Rattle.std.specs.Prelude.{◌≡◌, IfOk};
ghost use Rattle.staircase.specs.Hits.{Ascending};
ghost use Rattle.staircase.specs.Joins.{AreNodes};
ghost use Rattle.step_bench.specs.Step.{IsTaken};

use doc_table::{Fragment, NoNotes, Reads};
use staircase::{Ctx, Tally, join};
use std::alloc::Global;
use xq_base::{Axis, FragKey, NodeTest, Want};

/// What a step counts, and the number of its hits.
#[derive(Clone, Copy, Debug, PartialEq, Eq)]
pub struct Taken {
    pub tally: Tally,
    pub hits: u64,
}

/// Takes the step on an axis with the node test that each node passes.
pub fn take_step(alloc: Global, tree: &Fragment, axis: Axis, context: &[Ctx]) -> Result<Taken, Want>
    requires ascending { Ascending context.now }
    requires nodes { AreNodes tree.now context.now }
    ensures { IfOk result (λ taken. IsTaken axis tree.now context.now taken) }
{
    let mut hits = Vec::new(alloc);
    let mut reads = Reads::new(NoNotes);
    let tally = join(
        alloc,
        tree,
        FragKey::Doc(0),
        0,
        axis,
        NodeTest::Any,
        context,
        &mut hits,
        &mut reads,
    )?;
    Ok(Taken {
        tally,
        hits: hits.len() as u64,
    })
}
