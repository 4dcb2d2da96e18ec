//! The texts of several items, one after the other (Functions and Operators, section 7.4.1).
ghost use Rattle.std.specs.Prelude.{◌≡◌, ◌++◌, true, length, string_bytes, flat_map, IfOk, IfErr, OnOk};
ghost use Rattle.doc_table.specs.Items.{item_of};
ghost use Rattle.doc_table.specs.Given.{trees_given};
ghost use Rattle.doc_table.specs.Identity.{node_of};
ghost use Rattle.doc_table.specs.Nodes;
ghost use Rattle.doc_table.specs.Stores.{tree_at};
ghost use Rattle.doc_table.specs.StoredItems.{trees_of, IsNodeOf, ItemGiven, ItemsGiven};
ghost use Rattle.doc_table.specs.Tree.{with_texts};
ghost use Rattle.doc_table.specs.Values.{text_of_item};
ghost use Rattle.xq_funs.specs.declared.fault.FunFault.TheVariants.{NoMemory};

use crate::fault::FunFault;
use doc_table::{Store, string_value};
use itoa::Buffer;
use std::alloc::{AllocError, Global};
use xq_base::{Item, NodeRef, Pool};

/// The texts of items, one after the other.
pub(crate) fn concatenation(
    alloc: Global,
    items: &[Item],
    store: &Store,
    pool: &Pool,
) -> Result<String, FunFault>
    requires items { ItemsGiven pool.now store.now items.now }
    requires trees { trees_given (length pool.now) store.now ≡ true }
    ensures ok { IfOk result (λ t. string_bytes t ≡ flat_map (λ x. text_of_item (item_of pool.now (trees_of store.now) x)) items.now) }
    ensures err { IfErr result (λ e. e ≡ NoMemory) }
{
    let mut out = String::new(alloc);
    match push_items(alloc, &mut out, items, store, pool) {
        Ok(()) => Ok(out),
        Err(_) => Err(FunFault::NoMemory),
    }
}

#[tactic(auto, using(crate::proofs::ConcatLaws::texts_step, crate::proofs::ConcatLaws::texts_end))]
fn push_items(
    alloc: Global,
    out: &mut String,
    items: &[Item],
    store: &Store,
    pool: &Pool,
) -> Result<(), FunFault>
    requires items { ItemsGiven pool.now store.now items.now }
    requires trees { trees_given (length pool.now) store.now ≡ true }
    ensures ok { OnOk result (string_bytes out.new ≡ string_bytes out.old ++ flat_map (λ x. text_of_item (item_of pool.now (trees_of store.now) x)) items.now) }
    ensures err { IfErr result (λ e. e ≡ NoMemory) }
{
    for place in 0..items.len() {
        match push_item(alloc, out, items[place], store, pool) {
            Ok(()) => {}
            Err(_) => return Err(FunFault::NoMemory),
        }
    }
    Ok(())
}

fn push_item(
    alloc: Global,
    out: &mut String,
    item: Item,
    store: &Store,
    pool: &Pool,
) -> Result<(), FunFault>
    requires item { ItemGiven pool.now store.now item }
    requires trees { trees_given (length pool.now) store.now ≡ true }
    ensures ok { OnOk result (string_bytes out.new ≡ string_bytes out.old ++ text_of_item (item_of pool.now (trees_of store.now) item)) }
    ensures err { IfErr result (λ e. e ≡ NoMemory) }
{
    match item {
        Item::Int(number) => push_text(out, Buffer::new().format(number)),
        Item::Str(id) | Item::Untyped(id) => push_text(out, pool.text(id)),
        Item::Bool(truth) => push_text(out, if truth { "true" } else { "false" }),
        Item::Node(node) => push_node(alloc, out, node, store, pool),
    }
}

fn push_node(
    alloc: Global,
    out: &mut String,
    node: NodeRef,
    store: &Store,
    pool: &Pool,
) -> Result<(), FunFault>
    requires node { IsNodeOf store.now node (tree_at store.now node.frag) }
    requires trees { trees_given (length pool.now) store.now ≡ true }
    ensures ok { OnOk result (string_bytes out.new ≡ string_bytes out.old ++ Nodes.string_value (node_of (λ key. with_texts pool.now (trees_of store.now key)) node)) }
    ensures err { IfErr result (λ e. e ≡ NoMemory) }
{
    match string_value(alloc, store, pool, node) {
        Ok(text) => push_text(out, text.as_str()),
        Err(_) => Err(FunFault::NoMemory),
    }
}

fn push_text(out: &mut String, text: &str) -> Result<(), FunFault>
    ensures ok { OnOk result (string_bytes out.new ≡ string_bytes out.old ++ text.now) }
    ensures err { IfErr result (λ e. e ≡ NoMemory) }
{
    match out.push_str(text) {
        Ok(()) => Ok(()),
        Err(_) => Err(FunFault::NoMemory),
    }
}
