//! A plain program for steps, by the paths of nodes: XPath 2.0, sections 3.2.1.1 and 3.2.1.2.
use doc_table::Kind;
use staircase::Ctx;
use xq_base::{Axis, NodeTest, TextId};

/// A node, as a test writes it down: its row and attribute, the numbers of the children on the way to
/// it and zeros after them, how many they are, its kind, where it's no attribute, and its name.
#[derive(Clone, Copy)]
pub(crate) struct Plain {
    pub pre: u32,
    pub attr: u32,
    pub steps: [u32; 4],
    pub depth: u32,
    pub kind: Option<Kind>,
    pub name: Option<TextId>,
}

/// Whether the node at `q` is at `p` or below it.
fn begins(p: &Plain, q: &Plain) -> bool {
    for (i, j) in p.steps.iter().zip(&q.steps) {
        if *i != 0 && i != j {
            return false;
        }
    }
    true
}

/// Whether the steps to `p` come before those to `q`.
fn is_less(p: &Plain, q: &Plain) -> bool {
    for (i, j) in p.steps.iter().zip(&q.steps) {
        if i != j {
            return i < j;
        }
    }
    false
}

/// Whether both have the same steps but for the last one.
fn have_one_parent(p: &Plain, q: &Plain) -> bool {
    let mut left = p.depth;
    for (i, j) in p.steps.iter().zip(&q.steps) {
        if left > 1 && i != j {
            return false;
        }
        left = left.saturating_sub(1);
    }
    p.depth == q.depth && p.depth > 0
}

fn is_child(p: &Plain, q: &Plain) -> bool {
    begins(p, q) && q.depth == p.depth.saturating_add(1)
}

fn is_ancestor(p: &Plain, q: &Plain) -> bool {
    q.attr == 0 && begins(q, p) && (p.attr != 0 || !begins(p, q))
}

fn is_self(p: &Plain, q: &Plain) -> bool {
    p.pre == q.pre && p.attr == q.attr
}

fn is_parent(p: &Plain, q: &Plain) -> bool {
    if p.attr != 0 {
        return q.attr == 0 && p.pre == q.pre;
    }
    q.attr == 0 && is_child(q, p)
}

/// Whether both are no attributes and children of one node.
fn are_siblings(p: &Plain, q: &Plain) -> bool {
    p.attr == 0 && q.attr == 0 && have_one_parent(p, q)
}

fn is_below(p: &Plain, q: &Plain) -> bool {
    p.attr == 0 && q.attr == 0 && begins(p, q) && p.pre != q.pre
}

/// Whether `q` is after `p`, no attribute and not below it.
fn is_following(p: &Plain, q: &Plain) -> bool {
    q.attr == 0 && is_less(p, q) && (p.attr != 0 || !begins(p, q))
}

/// Whether `q` is before `p`, no attribute and no ancestor of it.
fn is_preceding(p: &Plain, q: &Plain) -> bool {
    q.attr == 0 && is_less(q, p) && !begins(q, p)
}

/// Whether `q` is on an axis of `p`.
fn is_on(axis: Axis, p: &Plain, q: &Plain) -> bool {
    match axis {
        Axis::SelfNode => is_self(p, q),
        Axis::Child => p.attr == 0 && q.attr == 0 && is_child(p, q),
        Axis::Attribute => p.attr == 0 && q.attr != 0 && p.pre == q.pre,
        Axis::Descendant => is_below(p, q),
        Axis::DescendantOrSelf => is_below(p, q) || is_self(p, q),
        Axis::Parent => is_parent(p, q),
        Axis::Ancestor => is_ancestor(p, q),
        Axis::AncestorOrSelf => is_ancestor(p, q) || is_self(p, q),
        Axis::FollowingSibling => are_siblings(p, q) && is_less(p, q),
        Axis::PrecedingSibling => are_siblings(p, q) && is_less(q, p),
        Axis::Following => is_following(p, q),
        Axis::Preceding => is_preceding(p, q),
    }
}

fn is_named(wanted: Option<TextId>, q: &Plain) -> bool {
    wanted.is_none() || wanted == q.name
}

/// Whether a test on an axis selects a node.
fn passes(axis: Axis, test: NodeTest, q: &Plain) -> bool {
    let principal = if axis == Axis::Attribute {
        None
    } else {
        Some(Kind::Element)
    };
    match test {
        NodeTest::Any => true,
        NodeTest::Name(name) => q.kind == principal && q.name == Some(name),
        NodeTest::Star => q.kind == principal,
        NodeTest::Text => q.kind == Some(Kind::Text),
        NodeTest::Comment => q.kind == Some(Kind::Comment),
        NodeTest::Pi(name) => q.kind == Some(Kind::Pi) && is_named(name, q),
        NodeTest::Document => q.kind == Some(Kind::Document),
        NodeTest::Element(name) => q.kind == Some(Kind::Element) && is_named(name, q),
        NodeTest::Attribute(name) => q.kind.is_none() && is_named(name, q),
    }
}

/// Whether node `q` is on an axis of the node of a context, as the nodes of the tree tell it.
fn is_from(nodes: &[Plain], axis: Axis, at: Ctx, q: &Plain) -> bool {
    for p in nodes {
        if p.pre == at.pre && p.attr == at.attr && is_on(axis, p, q) {
            return true;
        }
    }
    false
}

/// Whether a step goes to node `q` in an iteration.
pub(crate) fn goes_to(
    nodes: &[Plain],
    axis: Axis,
    test: NodeTest,
    context: &[Ctx],
    iter: u64,
    q: &Plain,
) -> bool {
    if !passes(axis, test, q) {
        return false;
    }
    for at in context {
        if at.iter == iter && is_from(nodes, axis, *at, q) {
            return true;
        }
    }
    false
}
