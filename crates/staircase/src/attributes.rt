//! The attributes on an axis.
ghost use Rattle.std.specs.Prelude.{◌≡◌, ◌<◌, ◌+◌, ◌-◌, ◌++◌, true, length, OnOk};
ghost use Rattle.xq_base.specs.declared.item.TextId.{TextId};
ghost use Rattle.doc_table.specs.Places.{names_node};
ghost use Rattle.doc_table.specs.Paths.{nth_pair};
ghost use Rattle.staircase.specs.Attributes.{all_hits, attribute_hit, attribute_part, attribute_parts, holds_self, own_hit};
ghost use Rattle.staircase.specs.Joins.{place_of, AreNodes};
ghost use Rattle.staircase.specs.Parts.{AreRows};
ghost use Rattle.staircase.specs.Seen.{AllSeen};
ghost use Rattle.doc_table.specs.Limits.{size_limit};

use crate::hits::Hit;
use crate::kinds::Ctx;
use crate::seen::Seen;
use crate::tasks::own_row;
use crate::test::attribute_passes;
use doc_table::Rows;
use xq_base::{Axis, NodeTest, TextId, Want};

/// Whether an axis holds the node itself.
fn holds_self(axis: Axis) -> bool
    ensures { result ≡ holds_self axis }
{
    axis == Axis::SelfNode || axis == Axis::DescendantOrSelf || axis == Axis::AncestorOrSelf
}

/// Gathers an attribute of a node's row, where it passes the node test.
fn push_attribute(
    axis: Axis,
    test: NodeTest,
    ctx: Ctx,
    attr: u32,
    name: TextId,
    hits: &mut Vec<Hit>,
) -> Result<(), Want>
    ensures { OnOk result (hits.new.items ≡ hits.old.items ++ attribute_hit axis test ctx attr name) }
{
    if !attribute_passes(axis, test, name) {
        return Ok(());
    }
    let hit = Hit {
        pre: ctx.pre,
        attr,
        iter: ctx.iter,
    };
    if hits.push(hit).is_err() {
        return Err(Want);
    }
    Ok(())
}

/// Gathers the attribute that a node is itself.
fn own_attribute(
    axis: Axis,
    test: NodeTest,
    ctx: Ctx,
    attributes: &[(TextId, TextId)],
    hits: &mut Vec<Hit>,
) -> Result<(), Want>
    requires { 0 < ctx.attr }
    ensures { OnOk result (hits.new.items ≡ hits.old.items ++ own_hit axis test ctx (nth_pair attributes.now ctx.attr)) }
{
    let place = ctx.attr as usize - 1;
    if place >= attributes.len() {
        return Ok(());
    }
    push_attribute(axis, test, ctx, ctx.attr, attributes[place].0, hits)
}

/// Gathers the attributes of a row.
fn all_attributes(
    axis: Axis,
    test: NodeTest,
    ctx: Ctx,
    attributes: &[(TextId, TextId)],
    hits: &mut Vec<Hit>,
) -> Result<(), Want>
    requires { length attributes.now < size_limit }
    ensures { OnOk result (hits.new.items ≡ hits.old.items ++ all_hits axis test ctx 1 attributes.now) }
{
    let mut number: u32 = 0;
    for attribute in attributes {
        number += 1;
        push_attribute(axis, test, ctx, number, attribute.0, hits)?;
    }
    Ok(())
}

/// Gathers the attributes on the axis of a node.
fn push_attributes<R: Rows>(
    axis: Axis,
    test: NodeTest,
    rows: &R,
    seen: &[Seen],
    ctx: Ctx,
    hits: &mut Vec<Hit>,
) -> Result<(), Want>
    requires rows { AreRows seen.now }
    requires seen { AllSeen axis test (R.tree rows.now) seen.now }
    requires node { names_node (R.tree rows.now) (place_of ctx) ≡ true }
    ensures { OnOk result (hits.new.items ≡ hits.old.items ++ attribute_part axis test (R.tree rows.now) seen.now ctx) }
{
    if ctx.attr > 0 {
        if !holds_self(axis) {
            return Ok(());
        }
        return own_attribute(axis, test, ctx, rows.attributes(ctx.pre), hits);
    }
    if axis != Axis::Attribute {
        return Ok(());
    }
    match own_row(seen, ctx.pre) {
        Some(own) if own.element => all_attributes(axis, test, ctx, rows.attributes(ctx.pre), hits),
        _ => Ok(()),
    }
}

/// Gathers the attributes on the axis of the nodes of a context.
pub(crate) fn attribute_hits<R: Rows>(
    axis: Axis,
    test: NodeTest,
    rows: &R,
    seen: &[Seen],
    context: &[Ctx],
    hits: &mut Vec<Hit>,
) -> Result<(), Want>
    requires rows { AreRows seen.now }
    requires seen { AllSeen axis test (R.tree rows.now) seen.now }
    requires nodes { AreNodes (R.tree rows.now) context.now }
    ensures { OnOk result (hits.new.items ≡ hits.old.items ++ attribute_parts axis test (R.tree rows.now) seen.now context.now) }
{
    for ctx in context {
        push_attributes(axis, test, rows, seen, *ctx, hits)?;
    }
    Ok(())
}
