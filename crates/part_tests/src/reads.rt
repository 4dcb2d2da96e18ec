//! The rows that steps on parent, ancestor, ancestor-or-self and the sibling axes read.
ghost use Rattle.staircase.specs.Hits.{Ascending};
ghost use Rattle.staircase.specs.Joins.{AreNodes};

use crate::samples::{mixed, nested};
use crate::taken::{compare_notes, ctx, take_step};
use doc_table::{Fragment, NoteList, Reads};
use staircase::Ctx;
use std::alloc::Global;
use std::process::Abort;
use std::test::Fail;
use xq_base::{Axis, NodeTest};

/// Makes a step, and compares the rows that it reads.
fn compare(
    rt: &impl Abort,
    alloc: Global,
    tree: &Fragment,
    axis: Axis,
    context: &[Ctx],
    rows: &[u32],
)
    requires ascending { Ascending context.now }
    requires nodes { AreNodes tree.now context.now }
{
    let mut reads = Reads::new(NoteList::new(alloc));
    let mut out = Vec::new(alloc);
    let taken = take_step(
        alloc,
        tree,
        axis,
        NodeTest::Any,
        context,
        &mut out,
        &mut reads,
    );
    assert!(rt; taken.is_ok(), "{axis:?}");
    compare_notes(rt, axis, reads.ledger().notes(), rows);
}

#[test]
fn ways_to_nested_contexts_are_read_once(rt: HostRuntime) -> Result<(), Fail> {
    let alloc = rt.alloc();
    let tree = nested(alloc)?;
    let context = [ctx(1, 2, 0), ctx(1, 3, 0)];
    let rows = [0, 1, 2, 3];
    compare(&rt, alloc, &tree, Axis::Parent, &context, &rows);
    compare(&rt, alloc, &tree, Axis::Ancestor, &context, &rows);
    compare(&rt, alloc, &tree, Axis::AncestorOrSelf, &context, &rows);
    compare(&rt, alloc, &tree, Axis::PrecedingSibling, &context, &rows);
    compare(&rt, alloc, &tree, Axis::FollowingSibling, &context, &rows);
    compare(&rt, alloc, &tree, Axis::Parent, &[], &[]);
    compare(&rt, alloc, &tree, Axis::FollowingSibling, &[], &[]);
    compare(&rt, alloc, &tree, Axis::Ancestor, &[ctx(1, 0, 0)], &[0]);
    Ok(())
}

#[test]
fn siblings_before_a_way_are_read(rt: HostRuntime) -> Result<(), Fail> {
    let alloc = rt.alloc();
    let tree = mixed(alloc)?;
    let owned = [ctx(1, 1, 1)];
    compare(&rt, alloc, &tree, Axis::Parent, &owned, &[0, 1]);
    compare(&rt, alloc, &tree, Axis::Ancestor, &owned, &[0, 1]);
    compare(&rt, alloc, &tree, Axis::AncestorOrSelf, &owned, &[0, 1]);
    compare(&rt, alloc, &tree, Axis::PrecedingSibling, &owned, &[]);
    compare(&rt, alloc, &tree, Axis::FollowingSibling, &owned, &[]);
    let twice = [ctx(1, 3, 0), ctx(2, 3, 0)];
    compare(&rt, alloc, &tree, Axis::Parent, &twice, &[0, 1, 2, 3]);
    let text = [ctx(1, 7, 0)];
    let way = [0, 1, 2, 4, 5, 6, 7];
    compare(&rt, alloc, &tree, Axis::Ancestor, &text, &way);
    let middle = [ctx(1, 5, 0)];
    let before = [0, 1, 2, 4, 5];
    compare(&rt, alloc, &tree, Axis::PrecedingSibling, &middle, &before);
    compare(&rt, alloc, &tree, Axis::AncestorOrSelf, &middle, &before);
    Ok(())
}

#[test]
fn siblings_after_a_context_are_read(rt: HostRuntime) -> Result<(), Fail> {
    let alloc = rt.alloc();
    let tree = mixed(alloc)?;
    let axis = Axis::FollowingSibling;
    let first = [ctx(1, 2, 0)];
    compare(&rt, alloc, &tree, axis, &first, &[0, 1, 2, 4, 5, 6]);
    let both = [ctx(1, 2, 0), ctx(1, 7, 0)];
    compare(&rt, alloc, &tree, axis, &both, &[0, 1, 2, 4, 5, 6, 7]);
    let inner = [ctx(2, 3, 0), ctx(1, 4, 0)];
    compare(&rt, alloc, &tree, axis, &inner, &[0, 1, 2, 3, 4, 5, 6]);
    let last = [ctx(1, 6, 0)];
    compare(&rt, alloc, &tree, axis, &last, &[0, 1, 2, 4, 5, 6]);
    compare(
        &rt,
        alloc,
        &tree,
        Axis::PrecedingSibling,
        &last,
        &[0, 1, 2, 4, 5, 6],
    );
    Ok(())
}
