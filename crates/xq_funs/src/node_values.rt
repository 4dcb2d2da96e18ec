//! Names and kinds of nodes (XQuery 1.0 and XPath 2.0 Data Model, section 5).
ghost use Rattle.std.specs.Prelude.{◌≡◌, ◌<◌, ◌∷◌, [], true, false, Ok, ℕ, length, List, slice_index_or};
ghost use Rattle.xq_base.specs.declared.item.TextId.{TextId};
ghost use Rattle.xq_base.specs.declared.fun.Fun.{Fun};
ghost use Rattle.xq_base.specs.declared.fun.ItemKind.{ItemKind};
ghost use Rattle.xq_base.specs.Answers.{Value};
ghost use Rattle.xq_base.specs.Atoms.{atom_kind_eq};
ghost use Rattle.xq_base.specs.Texts.{Text};
ghost use Rattle.doc_table.specs.Tree.{with_texts};
ghost use Rattle.doc_table.specs.TextRows.{text_or_none};
ghost use Rattle.doc_table.specs.RowTexts.{item_kind};
ghost use Rattle.doc_table.specs.Paths.{label_at};
ghost use Rattle.doc_table.specs.Enc.{enc, line_in};
ghost use Rattle.doc_table.specs.Identity.{node_of};
ghost use Rattle.doc_table.specs.Items.{TextItem, item_of};
ghost use Rattle.doc_table.specs.Nodes.{node_name, name_from, label_of_node, item_kind_eq};
ghost use Rattle.doc_table.specs.Places.{names_node, node_at};
ghost use Rattle.doc_table.specs.Given.{option_given, tree_given, trees_given};
ghost use Rattle.doc_table.specs.Stores.{tree_at};
ghost use Rattle.doc_table.specs.StoredItems.{trees_of, IsNodeOf, ItemGiven};
ghost use Rattle.doc_table.specs.Values.{kind_of_item, kind_at};
ghost use Rattle.doc_table.specs.NodeRules.{Docs};
ghost use Rattle.doc_table.specs.Functions.{fun_answer};
ghost use Rattle.xq_funs.specs.Calls.{Gives, RuleGives, values};
ghost use Rattle.xq_funs.specs.NodeCalls.{is_naming, name_for};

use crate::casts::copied;
use crate::computed::Computed;
use crate::fault::FunFault;
use crate::nodes::node_in;
use crate::search::local_part;
use doc_table::{Fragment, Kind, Rows, Store};
use std::alloc::Global;
use xq_base::{AtomKind, Fun, Item, ItemKind, NodeRef, Pool, TextId};

/// `name` and `local-name` of a node.
pub(crate) fn call_name(
    alloc: Global,
    fun: Fun,
    item: Item,
    store: &Store,
    pool: &Pool,
) -> Result<Computed, FunFault>
    requires fun { is_naming fun ≡ true }
    requires item { ItemGiven pool.now store.now item }
    requires trees { trees_given (length pool.now) store.now ≡ true }
    ensures { (docs : Docs) → RuleGives true pool.now (fun_answer docs fun (values pool.now store.now (item ∷ []))) result }
{
    match node_in(item) {
        Ok(node) => name_value(alloc, fun, name_text(node, store, pool)),
        Err(code) => Err(FunFault::Code(code)),
    }
}

fn name_value(alloc: Global, fun: Fun, name: &str) -> Result<Computed, FunFault>
    requires { is_naming fun ≡ true }
    ensures { (texts : List Text) → RuleGives true texts (Value (TextItem (name_for fun name.now) ∷ [])) result }
{
    match fun {
        Fun::Name => Ok(Computed::Text(copied(alloc, name)?)),
        Fun::LocalName => Ok(Computed::Text(copied(alloc, local_part(name))?)),
        _ => unreachable!(),
    }
}

/// The name of a node, or nothing.
fn name_text<'a>(node: NodeRef, store: &Store, pool: &'a Pool) -> &'a str
    requires node { IsNodeOf store.now node (tree_at store.now node.frag) }
    requires trees { trees_given (length pool.now) store.now ≡ true }
    ensures { result.now ≡ node_name (node_of (λ key. with_texts pool.now (trees_of store.now key)) node) }
{
    match name_id(node, store) {
        Some(id) => pool.text(id),
        None => "",
    }
}

fn name_id(node: NodeRef, store: &Store) -> Option<TextId>
    requires { IsNodeOf store.now node (tree_at store.now node.frag) }
    ensures value { (texts : List Text) → text_or_none texts result ≡ node_name (node_of (λ key. with_texts texts (trees_of store.now key)) node) }
    ensures given { (n : ℕ) → trees_given n store.now ≡ true → option_given n result ≡ true }
{
    match store.get(node.frag) {
        Some(frag) => name_in(frag, node.pre, node.attr),
        None => unreachable!(),
    }
}

/// The name of a row, or of an attribute of it.
fn name_in(frag: &Fragment, pre: u32, attr: u32) -> Option<TextId>
    requires { names_node frag.now (record { pre = pre; attr = attr }) ≡ true }
    ensures value { (texts : List Text) → text_or_none texts result ≡ name_from (label_at (with_texts texts frag.now) (node_at (with_texts texts frag.now) (record { pre = pre; attr = attr }))) }
    ensures given { (n : ℕ) → tree_given n frag.now ≡ true → option_given n result ≡ true }
{
    frag.validity();
    if attr > 0 {
        return Some(attribute_name(frag, pre, attr - 1));
    }
    row_name(frag, pre)
}

fn row_name(frag: &Fragment, pre: u32) -> Option<TextId>
    requires { pre < length (enc frag.now) }
    ensures { result ≡ (line_in (enc frag.now) pre).name }
{
    frag.at(pre).name
}

/// The name of an attribute of row `pre`, the first one having number 0.
fn attribute_name(frag: &Fragment, pre: u32, number: u32) -> TextId
    requires row { pre < length (enc frag.now) }
    requires number { number < length (line_in (enc frag.now) pre).attributes }
    ensures { result ≡ (slice_index_or (line_in (enc frag.now) pre).attributes number (result, record { 0 = 0 })).0 }
{
    frag.attributes(pre)[number as usize].0
}

/// Whether an item has a kind.
pub(crate) fn call_kind(kind: ItemKind, item: Item, store: &Store, pool: &Pool) -> Item
    requires { ItemGiven pool.now store.now item }
    ensures { (docs : Docs) → Gives false pool.now store.now (fun_answer docs (Fun.IsKind kind) (values pool.now store.now (item ∷ []))) (Ok result) }
{
    Item::Bool(is_same_kind(kind, kind_of(item, store, pool)))
}

fn is_same_kind(a: ItemKind, b: ItemKind) -> bool
    ensures { result ≡ item_kind_eq a b }
{
    match (a, b) {
        (ItemKind::Atom(a), ItemKind::Atom(b)) => is_same_atom_kind(a, b),
        (ItemKind::Element, ItemKind::Element) => true,
        (ItemKind::Attribute, ItemKind::Attribute) => true,
        (ItemKind::Text, ItemKind::Text) => true,
        (ItemKind::Comment, ItemKind::Comment) => true,
        (ItemKind::Pi, ItemKind::Pi) => true,
        (ItemKind::Document, ItemKind::Document) => true,
        _ => false,
    }
}

fn is_same_atom_kind(a: AtomKind, b: AtomKind) -> bool
    ensures { result ≡ atom_kind_eq a b }
{
    match (a, b) {
        (AtomKind::Integer, AtomKind::Integer) => true,
        (AtomKind::Text, AtomKind::Text) => true,
        (AtomKind::Boolean, AtomKind::Boolean) => true,
        (AtomKind::Untyped, AtomKind::Untyped) => true,
        _ => false,
    }
}

/// The kind of an item.
fn kind_of(item: Item, store: &Store, pool: &Pool) -> ItemKind
    requires { ItemGiven pool.now store.now item }
    ensures { result ≡ kind_of_item (item_of pool.now (trees_of store.now) item) }
{
    match item {
        Item::Int(_) => ItemKind::Atom(AtomKind::Integer),
        Item::Str(_) => ItemKind::Atom(AtomKind::Text),
        Item::Untyped(_) => ItemKind::Atom(AtomKind::Untyped),
        Item::Bool(_) => ItemKind::Atom(AtomKind::Boolean),
        Item::Node(node) => node_kind(node, store),
    }
}

fn node_kind(node: NodeRef, store: &Store) -> ItemKind
    requires { IsNodeOf store.now node (tree_at store.now node.frag) }
    ensures { (texts : List Text) → result ≡ kind_at (label_of_node (node_of (λ key. with_texts texts (trees_of store.now key)) node)) }
{
    match store.get(node.frag) {
        Some(frag) => kind_in(frag, node.pre, node.attr),
        None => unreachable!(),
    }
}

/// The kind of a row, or of an attribute of it.
fn kind_in(frag: &Fragment, pre: u32, attr: u32) -> ItemKind
    requires { names_node frag.now (record { pre = pre; attr = attr }) ≡ true }
    ensures { (texts : List Text) → result ≡ kind_at (label_at (with_texts texts frag.now) (node_at (with_texts texts frag.now) (record { pre = pre; attr = attr }))) }
{
    frag.validity();
    if attr > 0 {
        return ItemKind::Attribute;
    }
    row_kind(frag, pre)
}

fn row_kind(frag: &Fragment, pre: u32) -> ItemKind
    requires { pre < length (enc frag.now) }
    ensures { result ≡ item_kind (line_in (enc frag.now) pre).kind }
{
    match frag.at(pre).kind {
        Kind::Document => ItemKind::Document,
        Kind::Element => ItemKind::Element,
        Kind::Text => ItemKind::Text,
        Kind::Comment => ItemKind::Comment,
        Kind::Pi => ItemKind::Pi,
    }
}
