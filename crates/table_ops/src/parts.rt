//! What items are in content (XQuery 1.0, section 3.7.1.3).
ghost use Rattle.std.specs.Prelude.{List, ◌≡◌, ◌∷◌, [], ◌||◌, true, false, not, length, map, slice_get, Some, IfOk};
ghost use Rattle.std.specs.List.{list_any};
ghost use Rattle.xq_base.specs.Pool.{NoRepeats};
ghost use Rattle.xq_base.specs.Texts.{is_empty_text};
ghost use Rattle.doc_table.specs.Given.{option_given, tree_given, trees_given};
ghost use Rattle.doc_table.specs.Identity.{node_of};
ghost use Rattle.doc_table.specs.Items.{NodeItem, item_of};
ghost use Rattle.doc_table.specs.Paths.{label_at, subtree};
ghost use Rattle.doc_table.specs.Places.{names_node, node_at};
ghost use Rattle.doc_table.specs.StoredItems.{ItemGiven, ItemsGiven, IsNodeOf, meanings, trees_of};
ghost use Rattle.doc_table.specs.Stores.{tree_at};
ghost use Rattle.doc_table.specs.TextRows.{text_or_none};
ghost use Rattle.doc_table.specs.Tree.{with_texts};
ghost use Rattle.table_ops.specs.declared.parts.Part.{Part};
ghost use Rattle.table_ops.specs.Contents.{part_of, node_part, leaves_as, is_attribute, late_after};

use doc_table::{Fragment, Kind, Row, Store};
use std::alloc::Global;
use xq_base::{Item, NodeRef, Pool, TextId, Want};

/// What an item is in content: an atomic value, with whether it has a text; an attribute; another node,
/// with whether it leaves something.
#[derive(Clone, Copy)]
pub enum Part {
    Value(bool),
    Attribute,
    Other(bool),
}

/// What items are in content.
///
/// Errors: `Want`, where memory is wanting.
pub fn parts_of(
    alloc: Global,
    cells: &[Item],
    store: &Store,
    pool: &Pool,
) -> Result<Vec<Part>, Want>
    requires items { ItemsGiven pool.now store.now cells.now }
    requires trees { trees_given (length pool.now) store.now ≡ true }
    requires first { slice_get pool.now 0 ≡ Some [] }
    requires once { NoRepeats pool.now }
    ensures { IfOk result (λ out. out.items ≡ map part_of (meanings pool.now store.now cells.now)) }
{
    let mut out = Vec::with_capacity(alloc, cells.len())?;
    for place in 0..cells.len() {
        if out.push(part_of(cells[place], store, pool)).is_err() {
            return Err(Want);
        }
    }
    Ok(out)
}

fn part_of(cell: Item, store: &Store, pool: &Pool) -> Part
    requires item { ItemGiven pool.now store.now cell }
    requires trees { trees_given (length pool.now) store.now ≡ true }
    requires first { slice_get pool.now 0 ≡ Some [] }
    requires once { NoRepeats pool.now }
    ensures { result ≡ part_of (item_of pool.now (trees_of store.now) cell) }
{
    match cell {
        Item::Int(_) => Part::Value(true),
        Item::Bool(_) => Part::Value(true),
        Item::Str(text) => Part::Value(has_text(Some(text), pool)),
        Item::Untyped(text) => Part::Value(has_text(Some(text), pool)),
        Item::Node(node) => node_part(node, store, pool),
    }
}

fn node_part(node: NodeRef, store: &Store, pool: &Pool) -> Part
    requires node { IsNodeOf store.now node (tree_at store.now node.frag) }
    requires trees { trees_given (length pool.now) store.now ≡ true }
    requires first { slice_get pool.now 0 ≡ Some [] }
    requires once { NoRepeats pool.now }
    ensures { result ≡ part_of (NodeItem (node_of (λ key. with_texts pool.now (trees_of store.now key)) node)) }
{
    match store.get(node.frag) {
        Some(frag) => place_part(frag, node.pre, node.attr, pool),
        None => unreachable!(),
    }
}

/// What the node of a row, or an attribute of it, is in content.
fn place_part(frag: &Fragment, pre: u32, attr: u32, pool: &Pool) -> Part
    requires place { names_node frag.now (record { pre = pre; attr = attr }) ≡ true }
    requires texts { tree_given (length pool.now) frag.now ≡ true }
    requires first { slice_get pool.now 0 ≡ Some [] }
    requires once { NoRepeats pool.now }
    ensures { result ≡ node_part (label_at (with_texts pool.now frag.now) (node_at (with_texts pool.now frag.now) (record { pre = pre; attr = attr }))) (subtree (node_at (with_texts pool.now frag.now) (record { pre = pre; attr = attr })).steps (with_texts pool.now frag.now)) }
{
    frag.validity();
    if attr > 0 {
        return Part::Attribute;
    }
    Part::Other(leaves(frag.at(pre), pool))
}

/// Whether the node of a row leaves something in content: a text unless it is empty, a document where it
/// has a child.
fn leaves(row: Row, pool: &Pool) -> bool
    requires { option_given (length pool.now) row.value ≡ true }
    ensures { result ≡ leaves_as pool.now row.kind row.value row.size }
{
    match row.kind {
        Kind::Text => has_text(row.value, pool),
        Kind::Document => row.size > 0,
        _ => true,
    }
}

fn has_text(value: Option<TextId>, pool: &Pool) -> bool
    requires { option_given (length pool.now) value ≡ true }
    ensures { result ≡ not (is_empty_text (text_or_none pool.now value)) }
{
    match value {
        Some(text) => !pool.text(text).is_empty(),
        None => false,
    }
}

/// Whether there is an attribute.
pub fn has_attribute(parts: &[Part]) -> bool
    ensures { result ≡ list_any is_attribute parts.now }
{
    for part in parts {
        if is_attribute(*part) {
            return true;
        }
    }
    false
}

fn is_attribute(part: Part) -> bool
    ensures { result ≡ is_attribute part }
{
    match part {
        Part::Attribute => true,
        _ => false,
    }
}

/// What stands before an item of content: a node that is no attribute; a run of atomic values, and
/// whether it has a text.
#[derive(Clone, Copy)]
struct Seen {
    other: bool,
    run: bool,
    text: bool,
}

/// Whether an attribute stands after another node.
pub fn is_late(parts: &[Part]) -> bool
    ensures { result ≡ late_after false false false parts.now }
{
    let mut seen = Seen {
        other: false,
        run: false,
        text: false,
    };
    for part in parts {
        if is_late_part(*part, &mut seen) {
            return true;
        }
    }
    false
}

/// Whether an item is an attribute after another node; else it is noted.
fn is_late_part(part: Part, seen: &mut Seen) -> bool
    ensures { (ps : List Part) → late_after seen.old.other seen.old.run seen.old.text (part ∷ ps) ≡ (result || late_after seen.new.other seen.new.run seen.new.text ps) }
{
    match part {
        Part::Value(text) => {
            seen.text = seen.run || text;
            seen.run = true;
            false
        }
        Part::Attribute => {
            close_run(seen);
            seen.other
        }
        Part::Other(leaves) => {
            close_run(seen);
            seen.other = seen.other || leaves;
            false
        }
    }
}

/// A run of atomic values is over: its text stands before what follows.
fn close_run(seen: &mut Seen)
    ensures other { seen.new.other ≡ (seen.old.other || seen.old.text) }
    ensures run { seen.new.run ≡ false }
    ensures text { seen.new.text ≡ false }
{
    seen.other = seen.other || seen.text;
    seen.run = false;
    seen.text = false;
}
