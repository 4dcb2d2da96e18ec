//! Steps over two small documents, with what they append, read and count.
ghost use Rattle.staircase.specs.Hits.{Ascending};
ghost use Rattle.staircase.specs.Joins.{AreNodes};

use crate::samples::{mixed, nested};
use crate::taken::{compare_notes, ctx, take_step};
use doc_table::{Fragment, NoteList, Reads};
use staircase::{Ctx, Tally};
use std::alloc::Global;
use std::process::Abort;
use std::test::Fail;
use xq_base::{Axis, NodeTest, TextId};

/// Makes a step, and compares what it appends, reads and counts.
fn compare(
    rt: &impl Abort,
    alloc: Global,
    tree: &Fragment,
    axis: Axis,
    test: NodeTest,
    context: &[Ctx],
    hits: &[Ctx],
    rows: &[u32],
    tally: Tally,
)
    requires ascending { Ascending context.now }
    requires nodes { AreNodes tree.now context.now }
{
    let mut reads = Reads::new(NoteList::new(alloc));
    let mut out = Vec::new(alloc);
    let taken = take_step(alloc, tree, axis, test, context, &mut out, &mut reads);
    assert_eq!(rt; taken.ok(), Some(tally), "{axis:?}");
    assert_eq!(rt; out.as_slice(), hits, "{axis:?}");
    compare_notes(rt, axis, reads.ledger().notes(), rows);
}

fn tally(context: u64, found: u64, skipped: u64, read: u64) -> Tally {
    Tally {
        context,
        result: found,
        skipped,
        read,
    }
}

#[test]
fn nested_contexts_give_each_node_once(rt: HostRuntime) -> Result<(), Fail> {
    let alloc = rt.alloc();
    let tree = nested(alloc)?;
    let context = [ctx(1, 2, 0), ctx(1, 3, 0)];
    let hits = [ctx(1, 3, 0), ctx(1, 4, 0)];
    compare(
        &rt,
        alloc,
        &tree,
        Axis::Descendant,
        NodeTest::Any,
        &context,
        &hits,
        &[2, 3, 4],
        tally(2, 2, 0, 3),
    );
    compare(
        &rt,
        alloc,
        &tree,
        Axis::Child,
        NodeTest::Any,
        &context,
        &hits,
        &[2, 3, 4],
        tally(2, 2, 0, 3),
    );
    Ok(())
}

#[test]
fn nothing_follows_nested_contexts(rt: HostRuntime) -> Result<(), Fail> {
    let alloc = rt.alloc();
    let tree = nested(alloc)?;
    let context = [ctx(1, 2, 0), ctx(1, 3, 0)];
    compare(
        &rt,
        alloc,
        &tree,
        Axis::SelfNode,
        NodeTest::Star,
        &context,
        &context,
        &[2, 3],
        tally(2, 2, 0, 2),
    );
    compare(
        &rt,
        alloc,
        &tree,
        Axis::Following,
        NodeTest::Any,
        &context,
        &[],
        &[2, 3],
        tally(2, 0, 0, 2),
    );
    compare(
        &rt,
        alloc,
        &tree,
        Axis::Descendant,
        NodeTest::Any,
        &[],
        &[],
        &[],
        tally(0, 0, 0, 0),
    );
    Ok(())
}

#[test]
fn steps_go_to_children_and_attributes(rt: HostRuntime) -> Result<(), Fail> {
    let alloc = rt.alloc();
    let tree = mixed(alloc)?;
    let element = [ctx(1, 1, 0)];
    let attribute = [ctx(1, 1, 1)];
    compare(
        &rt,
        alloc,
        &tree,
        Axis::Child,
        NodeTest::Star,
        &element,
        &[ctx(1, 2, 0), ctx(1, 4, 0), ctx(1, 6, 0)],
        &[1, 2, 4, 5, 6],
        tally(1, 4, 0, 5),
    );
    compare(
        &rt,
        alloc,
        &tree,
        Axis::Attribute,
        NodeTest::Name(TextId(2)),
        &element,
        &attribute,
        &[1],
        tally(1, 0, 0, 1),
    );
    Ok(())
}

#[test]
fn steps_start_at_attributes(rt: HostRuntime) -> Result<(), Fail> {
    let alloc = rt.alloc();
    let tree = mixed(alloc)?;
    let attribute = [ctx(1, 1, 1)];
    compare(
        &rt,
        alloc,
        &tree,
        Axis::SelfNode,
        NodeTest::Attribute(None),
        &attribute,
        &attribute,
        &[1],
        tally(1, 0, 0, 1),
    );
    compare(
        &rt,
        alloc,
        &tree,
        Axis::Child,
        NodeTest::Any,
        &attribute,
        &[],
        &[],
        tally(0, 0, 0, 0),
    );
    compare(
        &rt,
        alloc,
        &tree,
        Axis::Following,
        NodeTest::Text,
        &attribute,
        &[ctx(1, 3, 0), ctx(1, 5, 0), ctx(1, 7, 0)],
        &[1, 2, 3, 4, 5, 6, 7],
        tally(1, 6, 0, 7),
    );
    Ok(())
}

#[test]
fn steps_go_to_texts_before_and_to_elements_below(rt: HostRuntime) -> Result<(), Fail> {
    let alloc = rt.alloc();
    let tree = mixed(alloc)?;
    let last = [ctx(1, 6, 0)];
    let twice = [ctx(1, 1, 0), ctx(2, 1, 0), ctx(1, 6, 0)];
    let named = [ctx(1, 2, 0), ctx(2, 2, 0), ctx(1, 6, 0), ctx(2, 6, 0)];
    compare(
        &rt,
        alloc,
        &tree,
        Axis::Preceding,
        NodeTest::Text,
        &last,
        &[ctx(1, 3, 0), ctx(1, 5, 0)],
        &[0, 1, 2, 3, 4, 5, 6],
        tally(1, 4, 2, 7),
    );
    compare(
        &rt,
        alloc,
        &tree,
        Axis::DescendantOrSelf,
        NodeTest::Element(Some(TextId(4))),
        &twice,
        &named,
        &[1, 2, 3, 4, 5, 6, 7],
        tally(2, 7, 0, 7),
    );
    Ok(())
}

#[test]
fn steps_go_to_parents(rt: HostRuntime) -> Result<(), Fail> {
    let alloc = rt.alloc();
    let tree = mixed(alloc)?;
    let texts = [ctx(1, 3, 0), ctx(2, 5, 0), ctx(1, 7, 0)];
    let attribute = [ctx(1, 1, 1)];
    compare(
        &rt,
        alloc,
        &tree,
        Axis::Parent,
        NodeTest::Any,
        &texts,
        &[ctx(2, 1, 0), ctx(1, 2, 0), ctx(1, 6, 0)],
        &[0, 1, 2, 3, 4, 5, 6, 7],
        tally(3, 3, 2, 8),
    );
    compare(
        &rt,
        alloc,
        &tree,
        Axis::Parent,
        NodeTest::Any,
        &attribute,
        &[ctx(1, 1, 0)],
        &[0, 1],
        tally(1, 1, 1, 2),
    );
    Ok(())
}

#[test]
fn steps_go_to_ancestors(rt: HostRuntime) -> Result<(), Fail> {
    let alloc = rt.alloc();
    let tree = mixed(alloc)?;
    let texts = [ctx(1, 3, 0), ctx(2, 5, 0), ctx(1, 7, 0)];
    compare(
        &rt,
        alloc,
        &tree,
        Axis::Ancestor,
        NodeTest::Any,
        &texts,
        &[
            ctx(1, 0, 0),
            ctx(2, 0, 0),
            ctx(1, 1, 0),
            ctx(2, 1, 0),
            ctx(1, 2, 0),
            ctx(1, 6, 0),
        ],
        &[0, 1, 2, 3, 4, 5, 6, 7],
        tally(3, 4, 1, 8),
    );
    compare(
        &rt,
        alloc,
        &tree,
        Axis::AncestorOrSelf,
        NodeTest::Text,
        &texts,
        &texts,
        &[0, 1, 2, 3, 4, 5, 6, 7],
        tally(3, 7, 1, 8),
    );
    Ok(())
}

#[test]
fn an_attribute_is_below_its_element(rt: HostRuntime) -> Result<(), Fail> {
    let alloc = rt.alloc();
    let tree = mixed(alloc)?;
    let attribute = [ctx(1, 1, 1)];
    compare(
        &rt,
        alloc,
        &tree,
        Axis::AncestorOrSelf,
        NodeTest::Any,
        &attribute,
        &[ctx(1, 0, 0), ctx(1, 1, 0), ctx(1, 1, 1)],
        &[0, 1],
        tally(1, 2, 0, 2),
    );
    Ok(())
}

#[test]
fn steps_go_to_siblings(rt: HostRuntime) -> Result<(), Fail> {
    let alloc = rt.alloc();
    let tree = mixed(alloc)?;
    let children = [ctx(1, 4, 0), ctx(2, 5, 0), ctx(1, 6, 0)];
    compare(
        &rt,
        alloc,
        &tree,
        Axis::PrecedingSibling,
        NodeTest::Any,
        &children,
        &[
            ctx(1, 2, 0),
            ctx(2, 2, 0),
            ctx(1, 4, 0),
            ctx(2, 4, 0),
            ctx(1, 5, 0),
        ],
        &[0, 1, 2, 4, 5, 6],
        tally(3, 3, 2, 6),
    );
    compare(
        &rt,
        alloc,
        &tree,
        Axis::FollowingSibling,
        NodeTest::Any,
        &children,
        &[ctx(1, 5, 0), ctx(1, 6, 0), ctx(2, 6, 0)],
        &[0, 1, 2, 4, 5, 6],
        tally(3, 2, 3, 6),
    );
    Ok(())
}

#[test]
fn siblings_of_nodes_in_others_come_once(rt: HostRuntime) -> Result<(), Fail> {
    let alloc = rt.alloc();
    let tree = mixed(alloc)?;
    let context = [ctx(1, 2, 0), ctx(1, 3, 0)];
    compare(
        &rt,
        alloc,
        &tree,
        Axis::FollowingSibling,
        NodeTest::Star,
        &context,
        &[ctx(1, 4, 0), ctx(1, 6, 0)],
        &[0, 1, 2, 3, 4, 5, 6],
        tally(2, 3, 2, 7),
    );
    Ok(())
}
