//! Steps over two small documents, compared with a plain program that goes by paths.
ghost use Rattle.staircase.specs.Hits.{Ascending};
ghost use Rattle.staircase.specs.Joins.{AreNodes};

use crate::plain::{Plain, goes_to};
use crate::samples::{mixed, nested};
use crate::taken::{ctx, take_step};
use doc_table::{Fragment, Kind, NoteList, Reads};
use staircase::Ctx;
use std::alloc::Global;
use std::process::Abort;
use std::test::Fail;
use xq_base::{Axis, NodeTest, TextId, Want};

fn row(pre: u32, steps: [u32; 4], depth: u32, kind: Kind, name: Option<TextId>) -> Plain {
    Plain {
        pre,
        attr: 0,
        steps,
        depth,
        kind: Some(kind),
        name,
    }
}

fn attribute(pre: u32, attr: u32, steps: [u32; 4], depth: u32, name: TextId) -> Plain {
    Plain {
        pre,
        attr,
        steps,
        depth,
        kind: None,
        name: Some(name),
    }
}

fn element(pre: u32, steps: [u32; 4], depth: u32, name: u64) -> Plain {
    row(pre, steps, depth, Kind::Element, Some(TextId(name)))
}

/// Appends a node in each iteration in which a step goes to it.
fn push_hits(
    nodes: &[Plain],
    axis: Axis,
    test: NodeTest,
    context: &[Ctx],
    q: &Plain,
    hits: &mut Vec<Ctx>,
) -> Result<(), Want> {
    for iter in 0..4 {
        if goes_to(nodes, axis, test, context, iter, q)
            && hits.push(ctx(iter, q.pre, q.attr)).is_err()
        {
            return Err(Want);
        }
    }
    Ok(())
}

/// The hits of a step, in the order of nodes and iterations.
fn plain_step(
    alloc: Global,
    nodes: &[Plain],
    axis: Axis,
    test: NodeTest,
    context: &[Ctx],
) -> Result<Vec<Ctx>, Want> {
    let mut hits = Vec::new(alloc);
    for q in nodes {
        push_hits(nodes, axis, test, context, q, &mut hits)?;
    }
    Ok(hits)
}

/// Compares a step with the plain one.
fn compare_step(
    rt: &impl Abort,
    alloc: Global,
    tree: &Fragment,
    nodes: &[Plain],
    axis: Axis,
    test: NodeTest,
    context: &[Ctx],
)
    requires ascending { Ascending context.now }
    requires nodes { AreNodes tree.now context.now }
{
    let mut reads = Reads::new(NoteList::new(alloc));
    let mut out = Vec::new(alloc);
    let taken = take_step(alloc, tree, axis, test, context, &mut out, &mut reads);
    assert!(rt; taken.is_ok(), "{axis:?}");
    let plain = plain_step(alloc, nodes, axis, test, context);
    assert!(rt; plain.is_ok());
    let Ok(hits) = plain else { return };
    assert_eq!(rt; out.as_slice(), hits.as_slice(), "{axis:?} {test:?}");
}

/// Compares the steps on an axis, for each of some node tests.
fn compare_axis(
    rt: &impl Abort,
    alloc: Global,
    tree: &Fragment,
    nodes: &[Plain],
    axis: Axis,
    context: &[Ctx],
)
    requires ascending { Ascending context.now }
    requires nodes { AreNodes tree.now context.now }
{
    let tests = [
        NodeTest::Any,
        NodeTest::Name(TextId(2)),
        NodeTest::Name(TextId(4)),
        NodeTest::Star,
        NodeTest::Text,
        NodeTest::Comment,
        NodeTest::Pi(None),
        NodeTest::Document,
        NodeTest::Element(None),
        NodeTest::Element(Some(TextId(4))),
        NodeTest::Attribute(None),
        NodeTest::Attribute(Some(TextId(2))),
    ];
    for test in &tests {
        compare_step(rt, alloc, tree, nodes, axis, *test, context);
    }
}

/// Compares the steps from a context, on each axis.
fn compare_all(rt: &impl Abort, alloc: Global, tree: &Fragment, nodes: &[Plain], context: &[Ctx])
    requires ascending { Ascending context.now }
    requires nodes { AreNodes tree.now context.now }
{
    compare_axis(rt, alloc, tree, nodes, Axis::SelfNode, context);
    compare_axis(rt, alloc, tree, nodes, Axis::Attribute, context);
    compare_axis(rt, alloc, tree, nodes, Axis::Child, context);
    compare_axis(rt, alloc, tree, nodes, Axis::Descendant, context);
    compare_axis(rt, alloc, tree, nodes, Axis::DescendantOrSelf, context);
    compare_axis(rt, alloc, tree, nodes, Axis::Following, context);
    compare_axis(rt, alloc, tree, nodes, Axis::Preceding, context);
    compare_axis(rt, alloc, tree, nodes, Axis::Parent, context);
    compare_axis(rt, alloc, tree, nodes, Axis::Ancestor, context);
    compare_axis(rt, alloc, tree, nodes, Axis::AncestorOrSelf, context);
    compare_axis(rt, alloc, tree, nodes, Axis::PrecedingSibling, context);
    compare_axis(rt, alloc, tree, nodes, Axis::FollowingSibling, context);
}

#[test]
fn nested_steps_go_by_paths(rt: HostRuntime) -> Result<(), Fail> {
    let alloc = rt.alloc();
    let tree = nested(alloc)?;
    let nodes = [
        row(0, [0, 0, 0, 0], 0, Kind::Document, None),
        element(1, [1, 0, 0, 0], 1, 1),
        element(2, [1, 1, 0, 0], 2, 2),
        element(3, [1, 1, 1, 0], 3, 2),
        element(4, [1, 1, 1, 1], 4, 3),
    ];
    compare_all(&rt, alloc, &tree, &nodes, &[]);
    compare_all(&rt, alloc, &tree, &nodes, &[ctx(1, 2, 0)]);
    compare_all(&rt, alloc, &tree, &nodes, &[ctx(1, 2, 0), ctx(1, 3, 0)]);
    compare_all(&rt, alloc, &tree, &nodes, &[ctx(1, 3, 0), ctx(2, 3, 0)]);
    let many = [
        ctx(1, 0, 0),
        ctx(2, 2, 0),
        ctx(1, 3, 0),
        ctx(2, 3, 0),
        ctx(3, 4, 0),
    ];
    compare_all(&rt, alloc, &tree, &nodes, &many);
    Ok(())
}

#[test]
fn mixed_steps_go_by_paths(rt: HostRuntime) -> Result<(), Fail> {
    let alloc = rt.alloc();
    let tree = mixed(alloc)?;
    let nodes = [
        row(0, [0, 0, 0, 0], 0, Kind::Document, None),
        element(1, [1, 0, 0, 0], 1, 1),
        attribute(1, 1, [1, 0, 0, 0], 1, TextId(2)),
        element(2, [1, 1, 0, 0], 2, 4),
        row(3, [1, 1, 1, 0], 3, Kind::Text, None),
        element(4, [1, 2, 0, 0], 2, 6),
        row(5, [1, 3, 0, 0], 2, Kind::Text, None),
        element(6, [1, 4, 0, 0], 2, 4),
        row(7, [1, 4, 1, 0], 3, Kind::Text, None),
    ];
    compare_all(&rt, alloc, &tree, &nodes, &[]);
    compare_all(&rt, alloc, &tree, &nodes, &[ctx(1, 1, 1)]);
    compare_all(&rt, alloc, &tree, &nodes, &[ctx(1, 1, 0), ctx(1, 1, 1)]);
    let owned = [ctx(1, 1, 0), ctx(2, 1, 0), ctx(2, 1, 1), ctx(1, 6, 0)];
    compare_all(&rt, alloc, &tree, &nodes, &owned);
    let many = [
        ctx(1, 3, 0),
        ctx(2, 3, 0),
        ctx(1, 4, 0),
        ctx(1, 5, 0),
        ctx(2, 7, 0),
    ];
    compare_all(&rt, alloc, &tree, &nodes, &many);
    Ok(())
}
