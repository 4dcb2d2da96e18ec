//! Items as atomic values.
ghost use Rattle.std.specs.Prelude.{◌≡◌, ◌<◌, true, false, List, ℕ, length, take, if◌then◌else◌, IfOk, OnErr};
ghost use Rattle.xq_base.specs.Texts.{Text};
ghost use Rattle.xq_base.specs.Atoms.{TextAtom, UntypedAtom};
ghost use Rattle.xq_base.specs.declared.item.FragKey.{FragKey};
ghost use Rattle.xq_base.specs.declared.item.TextId.{TextId};
ghost use Rattle.doc_table.specs.Tree.{Tree, with_texts};
ghost use Rattle.doc_table.specs.Enc.{enc, line_in};
ghost use Rattle.doc_table.specs.Identity.{node_of};
ghost use Rattle.doc_table.specs.Nodes.{typed_from, typed_value, label_of_node};
ghost use Rattle.doc_table.specs.Given.{trees_given};
ghost use Rattle.doc_table.specs.Stores.{tree_at};
ghost use Rattle.doc_table.specs.StoredItems.{trees_of, IsNodeOf, ItemGiven};
ghost use Rattle.doc_table.specs.Items.{item_of};
ghost use Rattle.doc_table.specs.Values.{atomized};
ghost use Rattle.xq_funs.specs.Answering.{atom_in, atom_given, text_given, is_atom, is_plain, string_kind};

use doc_table::{Fragment, Kind, Store, string_value};
use std::alloc::Global;
use xq_base::{Atom, Item, NodeRef, Pool, Want};

/// The atomic value of an item that is no node.
pub(crate) fn atom_of(item: Item) -> Atom
    requires { is_atom item ≡ true }
    ensures value { (texts : List (List ℕ)) (trees : FragKey → Tree TextId) → atom_in texts result ≡ atomized (item_of texts trees item) }
    ensures given { (n : ℕ) → text_given n item ≡ true → atom_given n result ≡ true }
{
    match item {
        Item::Int(n) => Atom::Int(n),
        Item::Str(id) => Atom::Str(id),
        Item::Untyped(id) => Atom::Untyped(id),
        Item::Bool(b) => Atom::Bool(b),
        Item::Node(_) => unreachable!(),
    }
}

/// The atomic value of an item: its own, or the typed value of a node (XQuery 1.0, section 2.4.2),
/// whose text the pool has after this.
///
/// Errors: `Want`, where memory is wanting; the pool may have more texts.
pub(crate) fn atomize(
    alloc: Global,
    item: Item,
    store: &Store,
    pool: &mut Pool,
) -> Result<Atom, Want>
    requires item { ItemGiven pool.old store.now item }
    requires trees { trees_given (length pool.old) store.now ≡ true }
    ensures value { IfOk result (λ a. atom_in pool.new a ≡ atomized (item_of pool.old (trees_of store.now) item)) }
    ensures given { IfOk result (λ a. atom_given (length pool.new) a ≡ true) }
    ensures keeps { take (length pool.old) pool.new ≡ pool.old }
    ensures plain { OnErr result (is_plain item ≡ false) }
{
    match item {
        Item::Int(n) => Ok(Atom::Int(n)),
        Item::Str(id) => Ok(Atom::Str(id)),
        Item::Untyped(id) => Ok(Atom::Untyped(id)),
        Item::Bool(b) => Ok(Atom::Bool(b)),
        Item::Node(node) => atomize_node(alloc, node, store, pool),
    }
}

/// The typed value of a node (XQuery 1.0 and XPath 2.0 Data Model, section 5.15).
#[tactic(auto, using(crate::proofs::Ordered::text_is, crate::proofs::Typed::found_given))]
fn atomize_node(alloc: Global, node: NodeRef, store: &Store, pool: &mut Pool) -> Result<Atom, Want>
    requires node { IsNodeOf store.now node (tree_at store.now node.frag) }
    requires trees { trees_given (length pool.old) store.now ≡ true }
    ensures value { IfOk result (λ a. atom_in pool.new a ≡ typed_value (node_of (λ key. with_texts pool.old (trees_of store.now key)) node)) }
    ensures given { IfOk result (λ a. atom_given (length pool.new) a ≡ true) }
    ensures keeps { take (length pool.old) pool.new ≡ pool.old }
{
    let is_string = holds_string(store, node);
    let text = string_value(alloc, store, pool, node)?;
    let id = pool.intern(text.as_str())?;
    if is_string {
        return Ok(Atom::Str(id));
    }
    Ok(Atom::Untyped(id))
}

/// Whether the typed value of a node is a string: that of a comment and an instruction is.
pub(crate) fn holds_string(store: &Store, node: NodeRef) -> bool
    requires { IsNodeOf store.now node (tree_at store.now node.frag) }
    ensures { (texts : List Text) (s : Text) → typed_from (label_of_node (node_of (λ key. with_texts texts (trees_of store.now key)) node)) s ≡ (if result then TextAtom s else UntypedAtom s) }
{
    store.validity();
    match store.get(node.frag) {
        Some(frag) => node.attr == 0 && is_string_row(frag, node.pre),
        None => unreachable!(),
    }
}

/// Whether a row is a comment or an instruction.
fn is_string_row(frag: &Fragment, pre: u32) -> bool
    requires { pre < length (enc frag.now) }
    ensures { result ≡ string_kind (line_in (enc frag.now) pre).kind }
{
    match frag.at(pre).kind {
        Kind::Comment | Kind::Pi => true,
        _ => false,
    }
}
