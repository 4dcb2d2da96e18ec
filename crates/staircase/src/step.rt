//! One step over one fragment.
ghost use Rattle.std.specs.Prelude.{◌≡◌, ◌<◌, ◌^◌, true, length, map, OnOk, OnErr, IfOk};
ghost use Rattle.doc_table.specs.Enc.{enc};
ghost use Rattle.doc_table.specs.Notes.{Reading};
ghost use Rattle.doc_table.specs.Touched.{counts, touched_rows};
ghost use Rattle.staircase.specs.Hits.{Ascending, Extends};
ghost use Rattle.staircase.specs.Joins.{own, places, tally_of, AreNodes, Joins, Ready};
ghost use Rattle.staircase.specs.Parts.{AreRows};
ghost use Rattle.staircase.specs.Seen.{seen_of, AllSeen};

use crate::attributes::attribute_hits;
use crate::context::{adds_owner, context_rows};
use crate::count::tally;
use crate::gather::gather;
use crate::hits::append_hits;
use crate::kinds::{Ctx, Tally};
use crate::near_reads::read_near;
use crate::reads::{read_after, read_before, read_down, read_kids, read_own};
use crate::seen::Seen;
use doc_table::{Ledger, Reads, Rows};
use std::alloc::Global;
use xq_base::{Axis, FragKey, NodeTest, Want};

/// Reads the rows of a step.
fn read_axis<R: Rows, L: Ledger>(
    alloc: Global,
    rows: &R,
    frag: FragKey,
    site: u32,
    axis: Axis,
    test: NodeTest,
    found: &[u32],
    context: &[Ctx],
    reads: &mut Reads<L>,
) -> Result<Vec<Seen>, Want>
    requires found { found.now ≡ own axis context.now }
    requires few { length (enc (R.tree rows.now)) < 2 ^ 32 }
    requires ascending { Ascending context.now }
    requires nodes { AreNodes (R.tree rows.now) context.now }
    ensures notes { Reading reads.old.notes reads.new.notes site frag (touched_rows axis (R.tree rows.now) (places context.now)) result }
    ensures refuses { reads.new.may_refuse ≡ reads.old.may_refuse }
    ensures seen { IfOk result (λ seen. seen.items ≡ map (seen_of axis test (R.tree rows.now)) (touched_rows axis (R.tree rows.now) (places context.now))) }
{
    match axis {
        Axis::SelfNode | Axis::Attribute => read_own(
            alloc, rows, frag, site, axis, test, found, context, reads,
        ),
        Axis::Descendant | Axis::DescendantOrSelf => read_down(
            alloc, rows, frag, site, axis, test, found, context, reads,
        ),
        Axis::Child => read_kids(alloc, rows, frag, site, axis, test, found, context, reads),
        Axis::Preceding => read_before(alloc, rows, frag, site, axis, test, found, context, reads),
        Axis::Following => read_after(alloc, rows, frag, site, axis, test, found, context, reads),
        Axis::Parent
        | Axis::Ancestor
        | Axis::AncestorOrSelf
        | Axis::PrecedingSibling
        | Axis::FollowingSibling => read_near(
            alloc, rows, frag, site, axis, test, found, context, reads,
        ),
    }
}

/// Appends the hits of a step that has read its rows, and counts.
fn finish<R: Rows>(
    alloc: Global,
    axis: Axis,
    test: NodeTest,
    rows: &R,
    found: &[u32],
    seen: &[Seen],
    context: &[Ctx],
    out: &mut Vec<Ctx>,
) -> Result<Tally, Want>
    requires rows { AreRows seen.now }
    requires seen { AllSeen axis test (R.tree rows.now) seen.now }
    requires ready { Ready axis test (R.tree rows.now) context.now found.now seen.now }
    ensures hits { OnOk result (Joins axis test (R.tree rows.now) context.now out.old.items out.new.items) }
    ensures tally { IfOk result (λ tally. tally ≡ tally_of (counts axis (R.tree rows.now) (places context.now))) }
    ensures kept { Extends out.old.items out.new.items }
{
    let tally = tally(alloc, axis, found, seen, context)?;
    let mut hits = Vec::new(alloc);
    gather(alloc, axis, false, seen, context, &mut hits)?;
    attribute_hits(axis, test, rows, seen, context, &mut hits)?;
    append_hits(&mut hits, out)?;
    Ok(tally)
}

/// The step on an axis: appends the nodes on the axis of a node of the context in each iteration that
/// pass the test, ascending by row, attribute and iteration, each once, and counts. It reads exactly the
/// rows that the step touches, ascending, each once. For want of memory the hits are as before and some
/// first ones of these rows were read.
pub fn join<R: Rows, L: Ledger>(
    alloc: Global,
    rows: &R,
    frag: FragKey,
    site: u32,
    axis: Axis,
    test: NodeTest,
    context: &[Ctx],
    out: &mut Vec<Ctx>,
    reads: &mut Reads<L>,
) -> Result<Tally, Want>
    requires ascending { Ascending context.now }
    requires nodes { AreNodes (R.tree rows.now) context.now }
    ensures hits { OnOk result (Joins axis test (R.tree rows.now) context.now out.old.items out.new.items) }
    ensures kept { OnErr result (out.new.items ≡ out.old.items) }
    ensures notes { Reading reads.old.notes reads.new.notes site frag (touched_rows axis (R.tree rows.now) (places context.now)) result }
    ensures refuses { reads.new.may_refuse ≡ reads.old.may_refuse }
    ensures tally { IfOk result (λ tally. tally ≡ tally_of (counts axis (R.tree rows.now) (places context.now))) }
{
    let _total = rows.len();
    let start = out.len();
    let found = context_rows(alloc, true, adds_owner(axis), context)?;
    let seen = read_axis(
        alloc,
        rows,
        frag,
        site,
        axis,
        test,
        found.as_slice(),
        context,
        reads,
    )?;
    match finish(
        alloc,
        axis,
        test,
        rows,
        found.as_slice(),
        seen.as_slice(),
        context,
        out,
    ) {
        Ok(tally) => Ok(tally),
        Err(e) => {
            out.truncate(start);
            Err(e)
        }
    }
}
