//! Small pieces of a Core, each at a place in the query.
ghost use Rattle.std.specs.Prelude.{◌≡◌, IfOk};
ghost use Rattle.doc_table.specs.Tree.{text_in};
ghost use Rattle.core_meaning.specs.Erasure.{Texts, core_of, sequence_test, test_in};
ghost use Rattle.core_meaning.specs.PlainCore as c;
ghost use Rattle.core_normal.specs.Held.{focus_of, type_in};
ghost use Rattle.core_normal.specs.Pieces as spec;

use crate::leaves::{fun_of, is_logical, is_reverse};
use crate::make::{
    build_plain, call_one, call_two, choice, convert, empty, fail, for_each, instance, let_be,
    literal, treat, var,
};
use core_meaning::{BuildKind, Core, ItemType, Occurs, SeqType};
use std::alloc::Global;
use xq_ast::leaf::{Operator, Quantifier, Sign};
use xq_base::{Atom, AtomKind, Axis, Code, Fun, NodeTest, TextId, Want};

/// The variables of the context item, its position and the size (XQuery 1.0, section 2.1.2).
#[derive(Clone, Copy)]
pub struct Context {
    pub item: u32,
    pub place: u32,
    pub last: u32,
}

/// The effective boolean value.
pub fn boolean(alloc: Global, offset: u64, a: Core) -> Result<Core, Want>
    ensures { IfOk result (λ core. (t : Texts) → core_of t core ≡ spec.boolean offset (core_of t a)) }
{
    call_one(alloc, offset, Fun::Boolean, a)
}

/// The nodes of a path's result in document order.
pub fn ordered(alloc: Global, offset: u64, a: Core) -> Result<Core, Want>
    ensures { IfOk result (λ core. (t : Texts) → core_of t core ≡ spec.ordered offset (core_of t a)) }
{
    call_one(alloc, offset, Fun::PathOrder, a)
}

/// The type of one node.
fn node_once(test: NodeTest) -> SeqType
    ensures { (t : Texts) → sequence_test t result ≡ spec.once (test_in t test) }
{
    SeqType::Of {
        item: ItemType::Test(test),
        occurs: Occurs::One,
    }
}

fn integer_once() -> SeqType
    ensures { (t : Texts) → sequence_test t result ≡ spec.integer_once }
{
    SeqType::Of {
        item: ItemType::Atom(AtomKind::Integer),
        occurs: Occurs::One,
    }
}

/// The test of the type of the value of a variable.
pub fn typed(alloc: Global, offset: u64, y: u32, ty: SeqType) -> Result<Core, Want>
    ensures { IfOk result (λ core. (t : Texts) → core_of t core ≡ spec.typed offset y (sequence_test t ty)) }
{
    let test = instance(alloc, offset, var(offset, y), ty)?;
    let value = var(offset, y);
    let other = fail(offset, Code::XPTY0004);
    let core = choice(alloc, offset, test, value, other)?;
    Ok(core)
}

/// What the predicates of a step number: along a backward axis from its end.
#[tactic(auto, unfolding(crate::specs::Pieces::counted))]
pub fn counted(alloc: Global, offset: u64, axis: Axis, a: Core) -> Result<Core, Want>
    ensures { IfOk result (λ core. (t : Texts) → core_of t core ≡ spec.counted offset axis (core_of t a)) }
{
    if is_reverse(axis) {
        let core = call_one(alloc, offset, Fun::Reverse, a)?;
        return Ok(core);
    }
    Ok(a)
}

/// The context item, or XPDY0002.
#[tactic(auto, unfolding(crate::specs::Pieces::dot_at))]
pub fn dot(offset: u64, focus: Option<Context>) -> Core
    ensures { (t : Texts) → core_of t result ≡ spec.dot_at offset (focus_of focus) }
{
    match focus {
        None => fail(offset, Code::XPDY0002),
        Some(focus) => var(offset, focus.item),
    }
}

/// The position of the context item, or XPDY0002.
#[tactic(auto, unfolding(crate::specs::Pieces::place_at))]
pub fn place(offset: u64, focus: Option<Context>) -> Core
    ensures { (t : Texts) → core_of t result ≡ spec.place_at offset (focus_of focus) }
{
    match focus {
        None => fail(offset, Code::XPDY0002),
        Some(focus) => var(offset, focus.place),
    }
}

/// The size of the context, or XPDY0002.
#[tactic(auto, unfolding(crate::specs::Pieces::last_at))]
pub fn last(offset: u64, focus: Option<Context>) -> Core
    ensures { (t : Texts) → core_of t result ≡ spec.last_at offset (focus_of focus) }
{
    match focus {
        None => fail(offset, Code::XPDY0002),
        Some(focus) => var(offset, focus.last),
    }
}

fn document_root(alloc: Global, offset: u64, focus: Option<Context>) -> Result<Core, Want>
    ensures { IfOk result (λ core. (t : Texts) → core_of t core ≡ spec.document_root offset (focus_of focus)) }
{
    let item = dot(offset, focus);
    let top = call_one(alloc, offset, Fun::Root, item)?;
    let ty = node_once(NodeTest::Document);
    let core = treat(alloc, offset, top, ty)?;
    Ok(core)
}

/// A leading slash (XQuery 1.0, section 3.2).
pub fn root(alloc: Global, offset: u64, focus: Option<Context>) -> Result<Core, Want>
    ensures { IfOk result (λ core. (t : Texts) → core_of t core ≡ spec.root_at offset (focus_of focus)) }
{
    let item = dot(offset, focus);
    let ty = node_once(NodeTest::Any);
    let test = instance(alloc, offset, item, ty)?;
    let top = document_root(alloc, offset, focus)?;
    let other = fail(offset, Code::XPTY0020);
    let core = choice(alloc, offset, test, top, other)?;
    Ok(core)
}

/// Whether the value of a predicate selects the item at a place.
fn chosen(alloc: Global, offset: u64, v: u32, place: u32) -> Result<Core, Want>
    ensures { IfOk result (λ core. (t : Texts) → core_of t core ≡ spec.chosen offset v place) }
{
    let test = instance(alloc, offset, var(offset, v), integer_once())?;
    let here = call_two(alloc, offset, Fun::Eq, var(offset, v), var(offset, place))?;
    let holds = boolean(alloc, offset, var(offset, v))?;
    let core = choice(alloc, offset, test, here, holds)?;
    Ok(core)
}

fn kept(
    alloc: Global,
    offset: u64,
    dot: u32,
    place: u32,
    v: u32,
    predicate: Core,
) -> Result<Core, Want>
    ensures { IfOk result (λ core. (t : Texts) → core_of t core ≡ spec.kept offset dot place v (core_of t predicate)) }
{
    let test = chosen(alloc, offset, v, place)?;
    let item = var(offset, dot);
    let nothing = empty(offset);
    let kept = choice(alloc, offset, test, item, nothing)?;
    let core = let_be(alloc, offset, v, predicate, kept)?;
    Ok(core)
}

/// The number of items of a variable, round what follows.
fn with_last(alloc: Global, offset: u64, y: u32, last: u32, e: Core) -> Result<Core, Want>
    ensures { IfOk result (λ core. (t : Texts) → core_of t core ≡ spec.with_last offset y last (core_of t e)) }
{
    let items = var(offset, y);
    let count = call_one(alloc, offset, Fun::Count, items)?;
    let core = let_be(alloc, offset, last, count, e)?;
    Ok(core)
}

/// The new variables of a predicate: the items, the context, and the predicate's value.
#[derive(Clone, Copy)]
pub struct Selecting {
    pub items: u32,
    pub context: Context,
    pub value: u32,
}

fn each_selected(alloc: Global, offset: u64, by: Selecting, predicate: Core) -> Result<Core, Want>
    ensures { IfOk result (λ core. (t : Texts) → core_of t core ≡ c.For offset by.context.item by.context.place (c.Var offset by.items) (spec.kept offset by.context.item by.context.place by.value (core_of t predicate))) }
{
    let Context {
        item,
        place,
        last: _,
    } = by.context;
    let kept = kept(alloc, offset, item, place, by.value, predicate)?;
    let items = var(offset, by.items);
    let core = for_each(alloc, offset, item, place, items, kept)?;
    Ok(core)
}

/// The items of `e` that a predicate selects (XQuery 1.0, section 3.3.2).
#[tactic(auto, unfolding(crate::specs::Pieces::selected))]
pub fn selected(
    alloc: Global,
    offset: u64,
    e: Core,
    by: Selecting,
    predicate: Core,
) -> Result<Core, Want>
    ensures { IfOk result (λ core. (t : Texts) → core_of t core ≡ spec.selected offset (core_of t e) by.items by.context.last by.context.item by.context.place by.value (core_of t predicate)) }
{
    let each = each_selected(alloc, offset, by, predicate)?;
    let counted = with_last(alloc, offset, by.items, by.context.last, each)?;
    let core = let_be(alloc, offset, by.items, e, counted)?;
    Ok(core)
}

/// An expression where the item is a node, else XPTY0019.
fn over_node(alloc: Global, offset: u64, item: u32, m: Core) -> Result<Core, Want>
    ensures { IfOk result (λ core. (t : Texts) → core_of t core ≡ spec.over_node offset item (core_of t m)) }
{
    let value = var(offset, item);
    let ty = node_once(NodeTest::Any);
    let test = instance(alloc, offset, value, ty)?;
    let other = fail(offset, Code::XPTY0019);
    let core = choice(alloc, offset, test, m, other)?;
    Ok(core)
}

fn each_ordered(alloc: Global, offset: u64, y: u32, context: Context, m: Core) -> Result<Core, Want>
    ensures { IfOk result (λ core. (t : Texts) → core_of t core ≡ spec.each_ordered offset y context.item context.place (core_of t m)) }
{
    let body = over_node(alloc, offset, context.item, m)?;
    let items = var(offset, y);
    let each = for_each(alloc, offset, context.item, context.place, items, body)?;
    let core = ordered(alloc, offset, each)?;
    Ok(core)
}

/// An expression `m` for each node of `e` (XQuery 1.0, section 3.2).
pub fn for_each_node(
    alloc: Global,
    offset: u64,
    e: Core,
    y: u32,
    context: Context,
    m: Core,
) -> Result<Core, Want>
    ensures { IfOk result (λ core. (t : Texts) → core_of t core ≡ spec.for_each_node offset (core_of t e) y context.last context.item context.place (core_of t m)) }
{
    let each = each_ordered(alloc, offset, y, context, m)?;
    let counted = with_last(alloc, offset, y, context.last, each)?;
    let core = let_be(alloc, offset, y, e, counted)?;
    Ok(core)
}

/// The conversion to a type, where one is written (XQuery 1.0, section 3.1.5).
pub fn converted(alloc: Global, offset: u64, ty: Option<SeqType>, a: Core) -> Result<Core, Want>
    ensures { IfOk result (λ core. (t : Texts) → core_of t core ≡ spec.converted offset (type_in t ty) (core_of t a)) }
{
    match ty {
        None => Ok(a),
        Some(ty) => convert(alloc, offset, a, ty),
    }
}

/// A text node.
pub fn text_node(alloc: Global, offset: u64, text: TextId) -> Result<Core, Want>
    ensures { IfOk result (λ core. (t : Texts) → core_of t core ≡ spec.text_node offset (text_in t text)) }
{
    let content = literal(offset, Atom::Str(text));
    let core = build_plain(alloc, offset, BuildKind::Text, content)?;
    Ok(core)
}

/// The condition of a quantifier (XQuery 1.0, section 3.11).
pub fn witness(alloc: Global, offset: u64, quantifier: Quantifier, a: Core) -> Result<Core, Want>
    ensures { IfOk result (λ core. (t : Texts) → core_of t core ≡ spec.witness offset quantifier (core_of t a)) }
{
    let found = literal(offset, Atom::Bool(true));
    let nothing = empty(offset);
    match quantifier {
        Quantifier::Some => {
            let core = choice(alloc, offset, a, found, nothing)?;
            Ok(core)
        }
        Quantifier::Every => {
            let core = choice(alloc, offset, a, nothing, found)?;
            Ok(core)
        }
    }
}

/// A quantifier over its conditions.
pub fn quantified(alloc: Global, offset: u64, quantifier: Quantifier, a: Core) -> Result<Core, Want>
    ensures { IfOk result (λ core. (t : Texts) → core_of t core ≡ spec.quantified offset quantifier (core_of t a)) }
{
    match quantifier {
        Quantifier::Some => {
            let core = call_one(alloc, offset, Fun::Exists, a)?;
            Ok(core)
        }
        Quantifier::Every => {
            let core = call_one(alloc, offset, Fun::Empty, a)?;
            Ok(core)
        }
    }
}

/// An operand of an operator.
pub fn operand(alloc: Global, operator: Operator, offset: u64, a: Core) -> Result<Core, Want>
    ensures { IfOk result (λ core. (t : Texts) → core_of t core ≡ spec.operand operator offset (core_of t a)) }
{
    if is_logical(operator) {
        let core = boolean(alloc, offset, a)?;
        return Ok(core);
    }
    Ok(a)
}

/// An operator over its two operands, which have these places.
pub fn binary(
    alloc: Global,
    offset: u64,
    operator: Operator,
    a: Core,
    a_place: u64,
    b: Core,
    b_place: u64,
) -> Result<Core, Want>
    ensures { IfOk result (λ core. (t : Texts) → core_of t core ≡ c.Call offset (spec.fun_of operator) (spec.two (spec.operand operator a_place (core_of t a)) (spec.operand operator b_place (core_of t b)))) }
{
    let a = operand(alloc, operator, a_place, a)?;
    let b = operand(alloc, operator, b_place, b)?;
    let core = call_two(alloc, offset, fun_of(operator), a, b)?;
    Ok(core)
}

/// A sign (XQuery 1.0, section 3.4).
pub fn signed(alloc: Global, offset: u64, sign: Sign, a: Core) -> Result<Core, Want>
    ensures { IfOk result (λ core. (t : Texts) → core_of t core ≡ spec.signed_core offset sign (core_of t a)) }
{
    match sign {
        Sign::Plus => {
            let zero = literal(offset, Atom::Int(0));
            let core = call_two(alloc, offset, Fun::Add, zero, a)?;
            Ok(core)
        }
        Sign::Minus => {
            let core = call_one(alloc, offset, Fun::Negate, a)?;
            Ok(core)
        }
    }
}

/// The test of a bind's type, round what follows.
pub fn tested(
    alloc: Global,
    offset: u64,
    ty: Option<SeqType>,
    y: u32,
    x: u32,
    e: Core,
) -> Result<Core, Want>
    ensures { IfOk result (λ core. (t : Texts) → core_of t core ≡ spec.tested offset (type_in t ty) y x (core_of t e)) }
{
    match ty {
        None => Ok(e),
        Some(ty) => {
            let value = typed(alloc, offset, y, ty)?;
            let core = let_be(alloc, offset, x, value, e)?;
            Ok(core)
        }
    }
}
