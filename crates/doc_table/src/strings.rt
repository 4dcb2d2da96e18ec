//! The string values of nodes.
ghost use Rattle.std.specs.Prelude.{◌≡◌, ◌<◌, ◌≤◌, ◌+◌, ◌-◌, ◌++◌, true, length, slice_range, slice_index_or, string_bytes, OnOk, IfOk};
ghost use Rattle.xq_base.specs.declared.item.TextId.{TextId};
ghost use Rattle.doc_table.specs.Enc.{enc, line_in};
ghost use Rattle.doc_table.specs.Axes.{id_eq};
ghost use Rattle.doc_table.specs.Spine.{is_empty_id};
ghost use Rattle.doc_table.specs.Sound.{is_sound};
ghost use Rattle.doc_table.specs.Tree.{text_in, with_texts};
ghost use Rattle.doc_table.specs.Places.{names_node};
ghost use Rattle.doc_table.specs.Identity.{node_of};
ghost use Rattle.doc_table.specs.Nodes;
ghost use Rattle.doc_table.specs.Given.{is_given, option_given, pair_given, line_given, tree_given, trees_given};
ghost use Rattle.doc_table.specs.Stores.{tree_at};
ghost use Rattle.doc_table.specs.StoredItems.{IsNodeOf, trees_of};
ghost use Rattle.doc_table.specs.TextRows.{text_or_none, row_text, texts_of_rows, string_at};

use crate::fragment::Fragment;
use crate::rows::{Kind, Rows};
use crate::store::Store;
use std::alloc::{AllocError, Global};
use xq_base::{NodeRef, Pool, TextId, Want};

/// The string value of a node of the store (XQuery 1.0 and XPath 2.0 Data Model, section 5.13): the
/// texts below a document or an element, one after the other, and the value of every other node. It
/// reads each row below the node once.
///
/// Errors: `Want`, where memory is wanting.
pub fn string_value(
    alloc: Global,
    store: &Store,
    pool: &Pool,
    node: NodeRef,
) -> Result<String, Want>
    requires node { IsNodeOf store.now node (tree_at store.now node.frag) }
    requires trees { trees_given (length pool.now) store.now ≡ true }
    ensures { IfOk result (λ text. string_bytes text ≡ Nodes.string_value (node_of (λ key. with_texts pool.now (trees_of store.now key)) node)) }
{
    store.validity();
    let mut text = String::new(alloc);
    if let Some(frag) = store.get(node.frag) {
        push_node(&mut text, pool, frag, node.pre, node.attr)?;
    }
    Ok(text)
}

/// Appends the string value of a node: of row `pre`, or of that row's attribute with a number.
fn push_node(
    out: &mut String,
    pool: &Pool,
    frag: &Fragment,
    pre: u32,
    attr: u32,
) -> Result<(), AllocError>
    requires node { names_node frag.now (record { pre = pre; attr = attr }) ≡ true }
    requires given { tree_given (length pool.now) frag.now ≡ true }
    ensures { OnOk result (string_bytes out.new ≡ string_bytes out.old ++ string_at pool.now frag.now (record { pre = pre; attr = attr })) }
{
    frag.validity();
    if attr > 0 {
        return out.push_str(pool.text(value_of(frag, pre, attr - 1)));
    }
    let row = frag.at(pre);
    match row.kind {
        Kind::Document | Kind::Element => push_texts(out, pool, frag, pre, row.size),
        _ => push_value(out, pool, row.value),
    }
}

/// The value of an attribute of row `pre`, the first one having number 0.
fn value_of(frag: &Fragment, pre: u32, number: u32) -> TextId
    requires row { pre < length (enc frag.now) }
    requires number { number < length (line_in (enc frag.now) pre).attributes }
    ensures { result ≡ (slice_index_or (line_in (enc frag.now) pre).attributes number (record { 0 = 0 }, result)).1 }
{
    frag.attributes(pre)[number as usize].1
}

/// Appends the text of a number, where there is one.
fn push_value(out: &mut String, pool: &Pool, value: Option<TextId>) -> Result<(), AllocError>
    requires { option_given (length pool.now) value ≡ true }
    ensures { OnOk result (string_bytes out.new ≡ string_bytes out.old ++ text_or_none pool.now value) }
{
    match value {
        Some(id) => out.push_str(pool.text(id)),
        None => Ok(()),
    }
}

/// Appends the texts of the text nodes among row `first` and so many rows below it.
fn push_texts(
    out: &mut String,
    pool: &Pool,
    frag: &Fragment,
    first: u32,
    size: u32,
) -> Result<(), AllocError>
    requires rows { first + size < length (enc frag.now) }
    requires given { tree_given (length pool.now) frag.now ≡ true }
    ensures { OnOk result (string_bytes out.new ≡ string_bytes out.old ++ texts_of_rows pool.now (slice_range (enc frag.now) first (first + size + 1))) }
{
    frag.validity();
    let end = first + size + 1;
    for pre in first..end {
        push_text_row(out, pool, frag, pre)?;
    }
    Ok(())
}

/// Appends the text of a row, where it is a text.
fn push_text_row(out: &mut String, pool: &Pool, frag: &Fragment, pre: u32) -> Result<(), AllocError>
    requires row { pre < length (enc frag.now) }
    requires given { line_given (length pool.now) (line_in (enc frag.now) pre) ≡ true }
    ensures { OnOk result (string_bytes out.new ≡ string_bytes out.old ++ row_text pool.now (line_in (enc frag.now) pre).kind (line_in (enc frag.now) pre).value) }
{
    let row = frag.at(pre);
    match row.kind {
        Kind::Text => push_value(out, pool, row.value),
        _ => Ok(()),
    }
}
