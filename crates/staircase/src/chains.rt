//! The hits on the chains of the nodes of a context: child, parent, ancestor, ancestor-or-self and both
//! sibling axes.
ghost use Rattle.std.specs.Prelude.{◌≡◌, ◌<◌, ◌++◌, length, OnOk, IfOk, IfSome};
ghost use Rattle.staircase.specs.Chains.{begins_here, first_child, leads_on, lined, all_starts, place_found, start_of, starts_one, turned, AddsChains, AreOrdered, Linked, AreWithin, NoMarks, AddsWalks};
ghost use Rattle.staircase.specs.Parts.{AreRows};

use crate::chain::{Start, walk};
use crate::hits::Hit;
use crate::kinds::Ctx;
use crate::links::{links, next_of};
use crate::part::place_of;
use crate::seen::Seen;
use std::alloc::Global;
use xq_base::{Axis, Want};

/// Whether the chains of an axis lead to later rows.
fn leads_on(axis: Axis) -> bool
    ensures { result ≡ leads_on axis }
{
    axis == Axis::Child || axis == Axis::FollowingSibling
}

/// The rows in an order in which the chains of an axis lead to earlier places.
fn lined(alloc: Global, axis: Axis, seen: &[Seen]) -> Result<Vec<Seen>, Want>
    ensures { IfOk result (λ rows. rows.items ≡ lined axis seen.now) }
{
    let mut rows = Vec::new(alloc);
    if rows.extend_from_slice(seen).is_err() {
        return Err(Want);
    }
    if leads_on(axis) {
        rows.reverse();
    }
    Ok(rows)
}

/// The place of a row of `total` rows in that order.
fn turned(axis: Axis, total: usize, k: usize) -> usize
    requires { k < total }
    ensures place { result ≡ turned axis total k }
    ensures within { result < total }
{
    if leads_on(axis) { total - 1 - k } else { k }
}

/// The place of row `pre`, where it was read.
fn own_place(seen: &[Seen], pre: u32) -> Option<usize>
    requires { AreRows seen.now }
    ensures found { result ≡ place_found seen.now pre }
    ensures within { IfSome result (λ k. k < length seen.now) }
{
    let place = place_of(seen, pre);
    if place < seen.len() && seen[place].pre == pre {
        return Some(place);
    }
    None
}

/// Whether the chain of a row, or of an attribute, begins with this row itself, or with the row of the
/// attribute.
fn begins_here(axis: Axis, is_row: bool) -> bool
    ensures { result ≡ begins_here axis is_row }
{
    match axis {
        Axis::Parent | Axis::Ancestor => !is_row,
        Axis::AncestorOrSelf => true,
        _ => false,
    }
}

/// The place of the first child of the row at place `k`, where the rows are turned around.
fn first_child(rows: &[Seen], k: usize) -> Option<usize>
    requires { k < length rows.now }
    ensures { result ≡ first_child rows.now k }
{
    let own = rows[k];
    if k > 0 && own.pre < own.last && rows[k - 1].pre == own.pre + 1 {
        return Some(k - 1);
    }
    None
}

/// Where the chain of the row at place `k` begins, or that of an attribute of it.
fn start_of(
    axis: Axis,
    rows: &[Seen],
    links: &[Option<usize>],
    attr: u32,
    k: usize,
) -> Option<usize>
    requires links { Linked axis rows.now links.now (length rows.now) }
    requires order { AreOrdered rows.now }
    requires within { k < length rows.now }
    ensures { result ≡ start_of axis rows.now links.now attr k }
{
    if begins_here(axis, attr == 0) {
        return Some(k);
    }
    if attr > 0 {
        return None;
    }
    if axis == Axis::Child {
        return first_child(rows, k);
    }
    next_of(axis, rows, links, k)
}

/// Appends where the chain of a node of a context begins.
fn push_start(
    axis: Axis,
    counting: bool,
    seen: &[Seen],
    rows: &[Seen],
    links: &[Option<usize>],
    ctx: Ctx,
    starts: &mut Vec<Start>,
) -> Result<(), Want>
    requires seen { AreRows seen.now }
    requires many { length rows.now ≡ length seen.now }
    requires order { AreOrdered rows.now }
    requires links { Linked axis rows.now links.now (length rows.now) }
    ensures { OnOk result (starts.new.items ≡ starts.old.items ++ starts_one axis counting seen.now rows.now links.now ctx) }
{
    let iter = if counting { 0 } else { ctx.iter };
    let own = match own_place(seen, ctx.pre) {
        None => return Ok(()),
        Some(own) => own,
    };
    let place = match start_of(axis, rows, links, ctx.attr, turned(axis, rows.len(), own)) {
        None => return Ok(()),
        Some(place) => place,
    };
    if starts.push(Start { iter, place }).is_err() {
        return Err(Want);
    }
    Ok(())
}

/// Where the chains of the nodes of a context begin.
fn make_starts(
    axis: Axis,
    counting: bool,
    seen: &[Seen],
    rows: &[Seen],
    links: &[Option<usize>],
    context: &[Ctx],
    starts: &mut Vec<Start>,
) -> Result<(), Want>
    requires seen { AreRows seen.now }
    requires many { length rows.now ≡ length seen.now }
    requires order { AreOrdered rows.now }
    requires links { Linked axis rows.now links.now (length rows.now) }
    ensures { OnOk result (starts.new.items ≡ starts.old.items ++ all_starts axis counting seen.now rows.now links.now context.now) }
{
    for ctx in context {
        push_start(axis, counting, seen, rows, links, *ctx, starts)?;
    }
    Ok(())
}

/// A mark for each of `total` places, for no iteration.
fn no_marks(alloc: Global, total: usize) -> Result<Vec<Option<u64>>, Want>
    ensures { IfOk result (λ marks. NoMarks marks.items total) }
{
    let mut marks = Vec::new(alloc);
    for _place in 0..total {
        if marks.push(None).is_err() {
            return Err(Want);
        }
    }
    Ok(marks)
}

/// Gathers the hits of all chains. Those of one iteration come one after the other, so that a row that
/// two of them meet is marked when the second one meets it.
fn walk_all(
    alloc: Global,
    axis: Axis,
    counting: bool,
    rows: &[Seen],
    links: &[Option<usize>],
    starts: &mut Vec<Start>,
    hits: &mut Vec<Hit>,
) -> Result<(), Want>
    requires links { Linked axis rows.now links.now (length rows.now) }
    requires order { AreOrdered rows.now }
    requires starts { AreWithin starts.old.items (length rows.now) }
    ensures { OnOk result (AddsWalks axis counting rows.now links.now starts.old.items hits.old.items hits.new.items) }
{
    starts.sort_unstable_by(|a, b| a.iter.cmp(&b.iter));
    let mut marks = no_marks(alloc, rows.len())?;
    for start in starts.as_slice() {
        walk(axis, counting, rows, links, *start, &mut marks, hits)?;
    }
    Ok(())
}

/// Gathers the hits of a context on an axis whose rows stand on chains.
pub(crate) fn gather_chains(
    alloc: Global,
    axis: Axis,
    counting: bool,
    seen: &[Seen],
    context: &[Ctx],
    hits: &mut Vec<Hit>,
) -> Result<(), Want>
    requires { AreRows seen.now }
    ensures { OnOk result (AddsChains axis counting seen.now context.now hits.old.items hits.new.items) }
{
    let rows = lined(alloc, axis, seen)?;
    let links = links(alloc, axis, rows.as_slice())?;
    let mut starts = Vec::new(alloc);
    make_starts(
        axis,
        counting,
        seen,
        rows.as_slice(),
        links.as_slice(),
        context,
        &mut starts,
    )?;
    walk_all(
        alloc,
        axis,
        counting,
        rows.as_slice(),
        links.as_slice(),
        &mut starts,
        hits,
    )
}
