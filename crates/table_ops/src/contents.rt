//! The operator `content_fails`: the groups whose content fails with a code.
ghost use Rattle.std.specs.Prelude.{ℕ, List, ◌≡◌, ◌<◌, ◌≤◌, ◌+◌, ◌^◌, ◌++◌, ◌∷◌, [], true, cond, length, map, take, slice_get, slice_index_or, nat_eq, Some, None, IfOk, OnOk};
ghost use Rattle.std.specs.List.{list_any};
ghost use Rattle.xq_base.specs.declared.code.Code.TheVariants.{XPTY0004};
ghost use Rattle.xq_base.specs.Pool.{NoRepeats};
ghost use Rattle.xq_base.specs.Texts.{Text};
ghost use Rattle.doc_table.specs.Documents.{documents_in};
ghost use Rattle.doc_table.specs.Enc.{enc, line_in};
ghost use Rattle.doc_table.specs.Given.{option_given, tree_given, trees_given};
ghost use Rattle.doc_table.specs.Identity.{node_of};
ghost use Rattle.doc_table.specs.Items.{TextItem, NodeItem, item_of};
ghost use Rattle.doc_table.specs.Paths.{label_at};
ghost use Rattle.doc_table.specs.Places.{names_node, node_at};
ghost use Rattle.doc_table.specs.StoredItems.{ItemsGiven, IsNodeOf, meanings, trees_of};
ghost use Rattle.doc_table.specs.Stores.{AreGiven, tree_at};
ghost use Rattle.doc_table.specs.Tree.{with_texts};
ghost use Rattle.plan_dag.specs.declared.op.Place.TheVariants as p;
ghost use Rattle.plan_dag.specs.ItemRules.{item_rules, content_fault};
ghost use Rattle.plan_dag.specs.Meaning.{cell, content};
ghost use Rattle.plan_dag.specs.Rows.{content_fails_rows, is_code};
ghost use Rattle.plan_dag.specs.Schema.{has_col};
ghost use Rattle.table_ops.specs.Chains.{places_of};
ghost use Rattle.table_ops.specs.Columns.{AllWithin};
ghost use Rattle.table_ops.specs.Contents.{part_of, is_attribute, name_from, name_in, names_in, named, are_apart, position_keys, content_cells, content_fails_with, NodeGiven, NodesGiven};
ghost use Rattle.table_ops.specs.Standing.{standing, RowsGiven};

use crate::aggregating::tell_apart;
use crate::arranging::arrange;
use crate::gather::gather_cells;
use crate::grouping::different;
use crate::index::Index;
use crate::parts::{Part, has_attribute, is_late, parts_of};
use crate::table::Table;
use doc_table::{Fragment, Rows, Store};
use plan_dag::{Col, Key, Keys, Place};
use std::alloc::Global;
use xq_base::{Code, HashKeys, Item, NodeRef, Pool, TextId, Want};

/// The groups of equal cells, by first rows, whose content fails with a code: the values of their rows
/// in the order of positions, as the content of an element or of a document (own rule; XQuery 1.0,
/// sections 3.7.1.3 and 3.7.3.3).
///
/// Errors: `Want`, where memory is wanting; the pool may then have more texts.
pub fn content_fails(
    alloc: Global,
    hash: HashKeys,
    input: &Table,
    place: Place,
    code: Code,
    iter: Col,
    pos: Col,
    item: Col,
    store: &Store,
    pool: &mut Pool,
) -> Result<Table, Want>
    requires few { length input.now.rows < 2 ^ 32 }
    requires iter { has_col input.now.cols iter ≡ true }
    requires pos { has_col input.now.cols pos ≡ true }
    requires item { has_col input.now.cols item ≡ true }
    requires rows { RowsGiven pool.old store.now input.now.rows }
    requires trees { trees_given (length pool.old) store.now ≡ true }
    requires names { AreGiven pool.old store.now.docs }
    ensures rows { IfOk result (λ t. standing pool.new store.now t ≡ record { cols = iter ∷ []; rows = content_fails_rows (item_rules (documents_in pool.old store.now) pool.old) place code (cell (item_rules (documents_in pool.old store.now) pool.old) input.now.cols iter) (content (item_rules (documents_in pool.old store.now) pool.old) (standing pool.old store.now input.now) iter pos item) (map (meanings pool.old store.now) input.now.rows) }) }
    ensures given { IfOk result (λ t. RowsGiven pool.new store.now t.rows) }
    ensures keeps { take (length pool.old) pool.new ≡ pool.old }
{
    tell_apart(pool)?;
    let cells = input.cells(iter);
    let index = Index::of(alloc, hash, cells)?;
    let groups = different(alloc, hash, cells)?;
    let wanted = Wanted {
        place,
        code,
        pos,
        item,
    };
    let places = failing_groups(alloc, hash, input, wanted, &index, &groups, store, pool)?;
    let names = gather_cells(alloc, &groups, &places)?;
    Table::single(alloc, iter, names)
}

/// Where content stands, the code that is looked for, and the columns of positions and of values.
#[derive(Clone, Copy)]
struct Wanted {
    place: Place,
    code: Code,
    pos: Col,
    item: Col,
}

/// The places of groups whose content fails with a code.
fn failing_groups(
    alloc: Global,
    hash: HashKeys,
    input: &Table,
    wanted: Wanted,
    index: &Index,
    groups: &[Item],
    store: &Store,
    pool: &Pool,
) -> Result<Vec<u32>, Want>
    requires few { length groups.now < 2 ^ 32 }
    requires index { length index.now < 2 ^ 32 }
    requires within { length index.now ≡ length input.now.rows }
    requires pos { has_col input.now.cols wanted.pos ≡ true }
    requires item { has_col input.now.cols wanted.item ≡ true }
    requires rows { RowsGiven pool.now store.now input.now.rows }
    requires trees { trees_given (length pool.now) store.now ≡ true }
    requires first { slice_get pool.now 0 ≡ Some [] }
    requires once { NoRepeats pool.now }
    ensures { IfOk result (λ out. out.items ≡ places_of (content_fails_with pool.now store.now wanted.place wanted.code input.now.cols wanted.pos wanted.item input.now.rows index.now) 0 groups.now) }
{
    let mut out = Vec::new(alloc);
    for place in 0..groups.len() {
        let rows = index.places(groups[place]);
        if fails(alloc, hash, input, wanted, rows, store, pool)? {
            if out.push(place as u32).is_err() {
                return Err(Want);
            }
        }
    }
    Ok(out)
}

/// Whether the content of the rows at places fails with a code.
fn fails(
    alloc: Global,
    hash: HashKeys,
    input: &Table,
    wanted: Wanted,
    places: &[u32],
    store: &Store,
    pool: &Pool,
) -> Result<bool, Want>
    requires few { length places.now < 2 ^ 32 }
    requires within { AllWithin (length input.now.rows) places.now }
    requires pos { has_col input.now.cols wanted.pos ≡ true }
    requires item { has_col input.now.cols wanted.item ≡ true }
    requires rows { RowsGiven pool.now store.now input.now.rows }
    requires trees { trees_given (length pool.now) store.now ≡ true }
    requires first { slice_get pool.now 0 ≡ Some [] }
    requires once { NoRepeats pool.now }
    ensures { IfOk result (λ b. b ≡ is_code wanted.code (content_fault wanted.place (meanings pool.now store.now (content_cells pool.now input.now.cols wanted.pos wanted.item input.now.rows places.now)))) }
{
    let rows = input.gather(alloc, places)?;
    let sorted = arrange(alloc, &rows, &by_position(wanted.pos), pool)?;
    let cells = sorted.cells(wanted.item);
    let found = fault_of(alloc, hash, wanted.place, cells, store, pool)?;
    Ok(is_code(wanted.code, found))
}

fn is_code(code: Code, found: Option<Code>) -> bool
    ensures { result ≡ is_code code found }
{
    match found {
        Some(other) => code == other,
        None => false,
    }
}

fn by_position(pos: Col) -> Keys
    ensures { result ≡ position_keys pos }
{
    let mut keys = Keys::new();
    keys.push(Key {
        col: pos,
        descending: false,
    });
    keys
}

/// The first code of content, where there is one.
fn fault_of(
    alloc: Global,
    hash: HashKeys,
    place: Place,
    cells: &[Item],
    store: &Store,
    pool: &Pool,
) -> Result<Option<Code>, Want>
    requires few { length cells.now < 2 ^ 32 }
    requires items { ItemsGiven pool.now store.now cells.now }
    requires trees { trees_given (length pool.now) store.now ≡ true }
    requires first { slice_get pool.now 0 ≡ Some [] }
    requires once { NoRepeats pool.now }
    ensures { IfOk result (λ f. f ≡ content_fault place (meanings pool.now store.now cells.now)) }
{
    store.validity();
    let parts = parts_of(alloc, cells, store, pool)?;
    match place {
        Place::Document => Ok(document_fault(&parts)),
        Place::Element => element_fault(alloc, hash, cells, &parts, store, pool),
    }
}

/// The first code of a document's content: an attribute may not stand in it.
fn document_fault(parts: &[Part]) -> Option<Code>
    ensures { result ≡ cond (list_any is_attribute parts.now) (Some XPTY0004) None }
{
    if has_attribute(parts) {
        return Some(Code::XPTY0004);
    }
    None
}

/// The first code of an element's content: an attribute after another node, then a repeated name.
fn element_fault(
    alloc: Global,
    hash: HashKeys,
    cells: &[Item],
    parts: &[Part],
    store: &Store,
    pool: &Pool,
) -> Result<Option<Code>, Want>
    requires few { length cells.now < 2 ^ 32 }
    requires parts { parts.now ≡ map part_of (meanings pool.now store.now cells.now) }
    requires items { ItemsGiven pool.now store.now cells.now }
    requires trees { trees_given (length pool.now) store.now ≡ true }
    requires first { slice_get pool.now 0 ≡ Some [] }
    requires once { NoRepeats pool.now }
    ensures { IfOk result (λ f. f ≡ content_fault p.Element (meanings pool.now store.now cells.now)) }
{
    store.validity();
    if is_late(parts) {
        return Ok(Some(Code::XQTY0024));
    }
    let names = names_of(alloc, cells, store)?;
    if are_apart(alloc, hash, &names)? {
        return Ok(None);
    }
    Ok(Some(Code::XQDY0025))
}

/// Whether no two cells are equal.
fn are_apart(alloc: Global, hash: HashKeys, cells: &[Item]) -> Result<bool, Want>
    requires { length cells.now < 2 ^ 32 }
    ensures { IfOk result (λ b. b ≡ are_apart cells.now) }
{
    let differ = different(alloc, hash, cells)?;
    Ok(are_as_many(&differ, cells))
}

fn are_as_many(a: &[Item], b: &[Item]) -> bool
    ensures { result ≡ nat_eq (length a.now) (length b.now) }
{
    a.len() == b.len()
}

/// The names of the attributes among items, as strings.
fn names_of(alloc: Global, cells: &[Item], store: &Store) -> Result<Vec<Item>, Want>
    requires { NodesGiven store.now cells.now }
    ensures names { IfOk result (λ out. (texts : List Text) → meanings texts store.now out.items ≡ map TextItem (names_in (meanings texts store.now cells.now))) }
    ensures few { IfOk result (λ out. length out.items ≤ length cells.now) }
    ensures given { IfOk result (λ out. (texts : List Text) → trees_given (length texts) store.now ≡ true → ItemsGiven texts store.now out.items) }
{
    let mut out = Vec::new(alloc);
    for place in 0..cells.len() {
        put_name(cells[place], store, &mut out)?;
    }
    Ok(out)
}

/// Adds the name of an attribute.
fn put_name(cell: Item, store: &Store, out: &mut Vec<Item>) -> Result<(), Want>
    requires { NodeGiven store.now cell }
    ensures names { OnOk result ((texts : List Text) → meanings texts store.now out.new.items ≡ meanings texts store.now out.old.items ++ map TextItem (name_in (item_of texts (trees_of store.now) cell))) }
    ensures few { OnOk result (length out.new.items ≤ length out.old.items + 1) }
    ensures given { OnOk result ((texts : List Text) → trees_given (length texts) store.now ≡ true → ItemsGiven texts store.now out.old.items → ItemsGiven texts store.now out.new.items) }
{
    let Some(name) = name_of(cell, store) else {
        return Ok(());
    };
    if out.push(Item::Str(name)).is_err() {
        return Err(Want);
    }
    Ok(())
}

/// The name of an attribute.
fn name_of(cell: Item, store: &Store) -> Option<TextId>
    requires { NodeGiven store.now cell }
    ensures value { (texts : List Text) → named texts result ≡ name_in (item_of texts (trees_of store.now) cell) }
    ensures given { (n : ℕ) → trees_given n store.now ≡ true → option_given n result ≡ true }
{
    match cell {
        Item::Node(node) => node_name(node, store),
        _ => None,
    }
}

fn node_name(node: NodeRef, store: &Store) -> Option<TextId>
    requires { IsNodeOf store.now node (tree_at store.now node.frag) }
    ensures value { (texts : List Text) → named texts result ≡ name_in (NodeItem (node_of (λ key. with_texts texts (trees_of store.now key)) node)) }
    ensures given { (n : ℕ) → trees_given n store.now ≡ true → option_given n result ≡ true }
{
    match store.get(node.frag) {
        Some(frag) => place_name(frag, node.pre, node.attr),
        None => unreachable!(),
    }
}

/// The name of an attribute of a row.
fn place_name(frag: &Fragment, pre: u32, attr: u32) -> Option<TextId>
    requires { names_node frag.now (record { pre = pre; attr = attr }) ≡ true }
    ensures value { (texts : List Text) → named texts result ≡ name_from (label_at (with_texts texts frag.now) (node_at (with_texts texts frag.now) (record { pre = pre; attr = attr }))) }
    ensures given { (n : ℕ) → tree_given n frag.now ≡ true → option_given n result ≡ true }
{
    frag.validity();
    if attr > 0 {
        return Some(attribute_name(frag, pre, attr - 1));
    }
    None
}

/// The name of an attribute of row `pre`, the first one having number 0.
fn attribute_name(frag: &Fragment, pre: u32, number: u32) -> TextId
    requires row { pre < length (enc frag.now) }
    requires number { number < length (line_in (enc frag.now) pre).attributes }
    ensures { result ≡ (slice_index_or (line_in (enc frag.now) pre).attributes number (result, record { 0 = 0 })).0 }
{
    frag.attributes(pre)[number as usize].0
}
