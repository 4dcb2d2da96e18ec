//! The counts of a join.
ghost use Rattle.std.specs.Prelude.{◌≡◌, ◌++◌, map, OnOk, IfOk};
ghost use Rattle.xq_base.specs.declared.axis.NodeTest.{NodeTest};
ghost use Rattle.xq_base.specs.declared.item.TextId.{TextId};
ghost use Rattle.doc_table.specs.Touched.{counts};
ghost use Rattle.doc_table.specs.Tree.{Tree};
ghost use Rattle.staircase.specs.Joins.{IsCount, Ready, places, row_hit, tally_of};
ghost use Rattle.staircase.specs.Parts.{AreRows};

use crate::gather::gather;
use crate::hits::{Hit, append_hits};
use crate::kinds::{Ctx, Tally};
use crate::seen::Seen;
use std::alloc::Global;
use xq_base::{Axis, Want};

/// How many hits there are, each counted once.
fn count_hits(alloc: Global, hits: &mut Vec<Hit>) -> Result<u64, Want>
    ensures { IfOk result (λ n. IsCount hits.old.items n) }
{
    let mut out = Vec::new(alloc);
    append_hits(hits, &mut out)?;
    Ok(out.len() as u64)
}

/// Gathers a hit for each row, in iteration 0.
fn push_rows(rows: &[u32], hits: &mut Vec<Hit>) -> Result<(), Want>
    ensures { OnOk result (hits.new.items ≡ hits.old.items ++ map row_hit rows.now) }
{
    for row in rows {
        let hit = Hit {
            pre: *row,
            attr: 0,
            iter: 0,
        };
        if hits.push(hit).is_err() {
            return Err(Want);
        }
    }
    Ok(())
}

/// The counts of a step that has read these rows for the rows of its context.
pub(crate) fn tally(
    alloc: Global,
    axis: Axis,
    rows: &[u32],
    seen: &[Seen],
    context: &[Ctx],
) -> Result<Tally, Want>
    requires { AreRows seen.now }
    ensures { IfOk result (λ tally. (test : NodeTest) (t : Tree TextId) → Ready axis test t context.now rows.now seen.now → tally ≡ tally_of (counts axis t (places context.now))) }
{
    let mut found = Vec::new(alloc);
    gather(alloc, axis, true, seen, context, &mut found)?;
    let result = count_hits(alloc, &mut found)?;
    let mut both = Vec::new(alloc);
    push_rows(rows, &mut both)?;
    gather(alloc, axis, true, seen, context, &mut both)?;
    let other = count_hits(alloc, &mut both)?;
    let read = seen.len() as u64;
    Ok(Tally {
        context: rows.len() as u64,
        result,
        skipped: read.saturating_sub(other),
        read,
    })
}
