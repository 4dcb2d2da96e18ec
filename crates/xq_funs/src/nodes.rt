//! Comparisons of nodes, and roots (XQuery 1.0, section 3.5.3; Functions and Operators, section 14.9).
ghost use Rattle.std.specs.Prelude.{◌≡◌, ◌∷◌, [], true, false, cond, length, List, Some};
ghost use Rattle.std.specs.Result.{ForOk};
ghost use Rattle.xq_base.specs.declared.item.FragKey.{FragKey};
ghost use Rattle.xq_base.specs.declared.item.TextId.{TextId};
ghost use Rattle.xq_base.specs.declared.fun.Fun.{Fun};
ghost use Rattle.xq_base.specs.Answers.{with_value};
ghost use Rattle.xq_base.specs.Texts.{Text};
ghost use Rattle.doc_table.specs.Tree.{Tree, with_texts};
ghost use Rattle.doc_table.specs.Identity.{node_of, ref_eq, ref_less};
ghost use Rattle.doc_table.specs.Items.{item_of};
ghost use Rattle.doc_table.specs.Nodes.{root_node};
ghost use Rattle.doc_table.specs.Places;
ghost use Rattle.doc_table.specs.Stores.{Holdings, tree_at};
ghost use Rattle.doc_table.specs.StoredItems.{trees_of, IsNodeOf, ItemGiven};
ghost use Rattle.doc_table.specs.NodeRules.{Docs, maybe_node};
ghost use Rattle.doc_table.specs.Functions.{fun_answer};
ghost use Rattle.xq_funs.specs.Answering.{answer_of};
ghost use Rattle.xq_funs.specs.Calls.{Gives, values};
ghost use Rattle.xq_funs.specs.NodeCalls.{is_node_comparison, refs_stand};
ghost use Rattle.xq_funs.specs.Orderings.{tells_equal, tells_less};

use crate::codes::both;
use crate::fault::FunFault;
use doc_table::{Fragment, Kind, Store};
use std::cmp::Ordering;
use xq_base::{Code, Fun, Item, NodeRef, Pool};

/// The node that an item is.
pub(crate) fn node_in(item: Item) -> Result<NodeRef, Code>
    ensures value { (texts : List Text) (trees : FragKey → Tree TextId) → with_value (λ r. Some (node_of (λ key. with_texts texts (trees key)) r)) (answer_of result) ≡ maybe_node (item_of texts trees item ∷ []) }
    ensures given { (texts : List Text) (h : Holdings) → ItemGiven texts h item → ForOk result (λ r. IsNodeOf h r (tree_at h r.frag)) }
{
    match item {
        Item::Node(node) => Ok(node),
        _ => Err(Code::XPTY0004),
    }
}

/// `is`, `<<` and `>>`.
pub(crate) fn compare_nodes(
    fun: Fun,
    a: Item,
    b: Item,
    store: &Store,
    pool: &Pool,
) -> Result<Item, FunFault>
    requires fun { is_node_comparison fun ≡ true }
    requires a { ItemGiven pool.now store.now a }
    requires b { ItemGiven pool.now store.now b }
    ensures { (docs : Docs) → Gives false pool.now store.now (fun_answer docs fun (values pool.now store.now (a ∷ b ∷ []))) result }
{
    match both(node_in(a), node_in(b)) {
        Ok((m, n)) => Ok(Item::Bool(stands(fun, m, n))),
        Err(code) => Err(FunFault::Code(code)),
    }
}

/// How two nodes stand.
fn stands(fun: Fun, m: NodeRef, n: NodeRef) -> bool
    ensures { result ≡ refs_stand fun m n }
{
    match fun {
        Fun::Is => order(m, n) == Ordering::Equal,
        Fun::Before => order(m, n) == Ordering::Less,
        Fun::After => order(n, m) == Ordering::Less,
        _ => false,
    }
}

/// The order of two references, which is document order.
#[tactic(auto, using(crate::proofs::NodeLemmas::order_less, crate::proofs::NodeLemmas::order_same))]
fn order(m: NodeRef, n: NodeRef) -> Ordering
    ensures less { tells_less result ≡ ref_less m n }
    ensures equal { tells_equal result ≡ ref_eq m n }
{
    m.cmp(&n)
}

/// `root` of a node.
pub(crate) fn call_root(item: Item, store: &Store, pool: &Pool) -> Result<Item, FunFault>
    requires { ItemGiven pool.now store.now item }
    ensures { (docs : Docs) → Gives false pool.now store.now (fun_answer docs Fun.Root (values pool.now store.now (item ∷ []))) result }
{
    match node_in(item) {
        Ok(node) => Ok(Item::Node(root_of(node, store))),
        Err(code) => Err(FunFault::Code(code)),
    }
}

/// The root of a node's tree: row 0, or the attribute of row 0 where the root is an attribute.
fn root_of(node: NodeRef, store: &Store) -> NodeRef
    requires { IsNodeOf store.now node (tree_at store.now node.frag) }
    ensures value { (texts : List Text) → node_of (λ key. with_texts texts (trees_of store.now key)) result ≡ root_node (node_of (λ key. with_texts texts (trees_of store.now key)) node) }
    ensures given { IsNodeOf store.now result (tree_at store.now result.frag) }
{
    match store.get(node.frag) {
        Some(frag) => NodeRef {
            frag: node.frag,
            pre: 0,
            attr: root_attribute(frag),
        },
        None => unreachable!(),
    }
}

/// The number of the attribute that the root is, or 0.
fn root_attribute(frag: &Fragment) -> u32
    ensures { result ≡ cond (Places.is_lone frag.now) 1 0 }
{
    if is_lone(frag) { 1 } else { 0 }
}

/// Whether the root is an attribute: then row 0 is an element without a name.
#[tactic(auto, using(crate::proofs::NodeLemmas::some_row, crate::proofs::NodeLemmas::lone_row))]
fn is_lone(frag: &Fragment) -> bool
    ensures { result ≡ Places.is_lone frag.now }
{
    let row = frag.at(0);
    match (row.kind, row.name) {
        (Kind::Element, None) => true,
        _ => false,
    }
}
