//! The resolved leaves of an expression: texts, names, tests and types.
ghost use Rattle.std.specs.Prelude.{◌≡◌, ℕ, List, IfOk};
ghost use Rattle.doc_table.specs.OtherTexts.{Grows};
ghost use Rattle.doc_table.specs.Steps.{option_with};
ghost use Rattle.doc_table.specs.Tree.{text_in};
ghost use Rattle.core_scope.specs.Erasure.{kind_test_of, named_of, test_of};
ghost use Rattle.core_scope.specs.Leaves.{item_of};
ghost use Rattle.core_scope.specs.Literals.{integer_of};
ghost use Rattle.core_scope.specs.Matching.{position_for, types_in, variable_for};
ghost use Rattle.core_scope.specs.Names.{place_in};
ghost use Rattle.core_scope.specs.Resolving as spec;
ghost use Rattle.core_scope.specs.Standing.{KindStands, Lasting, NamedStands, NodeTestStands, TestStands, TextStands, TypeStands};
ghost use Rattle.core_scope.specs.TypeNames as type_names;

use crate::literals::integer_in;
use crate::names::Visible;
use crate::type_names::{atom_kind, is_any_atomic};
use sqlite_items::Items;
use xq_ast::leaf::{Callee, ItemType, KindTest, Name, ReadItem, ReadType, SeqType, Test, Variable};
use xq_base::{AtomKind, NodeTest, Pool, TextId, Want};

/// The number of a text in a pool. The texts of a query that is read are UTF-8.
///
/// Errors: `Want`, where memory is wanting, or where a text isn't UTF-8.
#[tactic(auto, using(crate::proofs::Lasting::text_lasts))]
pub fn text(bytes: &[u8], pool: &mut Pool) -> Result<TextId, Want>
    ensures text { IfOk result (λ id. TextStands pool.new id bytes.now) }
    ensures keeps { Grows pool.old pool.new }
{
    match str::from_utf8(bytes) {
        Ok(text) => pool.intern(text),
        Err(_) => Err(Want),
    }
}

/// A name with its text's number.
pub fn name(from: &Name<Items<u8>>, pool: &mut Pool) -> Result<Name<TextId>, Want>
    ensures text { IfOk result (λ n. TextStands pool.new n.text from.now.text) }
    ensures offset { IfOk result (λ n. n.offset ≡ from.now.offset) }
    ensures keeps { Grows pool.old pool.new }
{
    let text = text(from.text.as_slice(), pool)?;
    Ok(Name {
        offset: from.offset,
        text,
    })
}

/// A name with its text's number, if it is there.
pub fn named(from: &Option<Name<Items<u8>>>, pool: &mut Pool) -> Result<Option<Name<TextId>>, Want>
    ensures named { IfOk result (λ n. NamedStands pool.new n (named_of (λ x. x) from.now)) }
    ensures keeps { Grows pool.old pool.new }
{
    match from {
        None => Ok(None),
        Some(n) => {
            let n = name(n, pool)?;
            Ok(Some(n))
        }
    }
}

/// A test by kind, with the numbers of its names.
pub fn kind_test(from: &KindTest<Items<u8>>, pool: &mut Pool) -> Result<KindTest<TextId>, Want>
    ensures test { IfOk result (λ t. KindStands pool.new t (kind_test_of (λ x. x) from.now)) }
    ensures keeps { Grows pool.old pool.new }
{
    match from {
        KindTest::Node => Ok(KindTest::Node),
        KindTest::Text => Ok(KindTest::Text),
        KindTest::Comment => Ok(KindTest::Comment),
        KindTest::Document => Ok(KindTest::Document),
        KindTest::Instruction(n) => {
            let n = named(n, pool)?;
            Ok(KindTest::Instruction(n))
        }
        KindTest::Element(n) => {
            let n = named(n, pool)?;
            Ok(KindTest::Element(n))
        }
        KindTest::Attribute(n) => {
            let n = named(n, pool)?;
            Ok(KindTest::Attribute(n))
        }
    }
}

/// A test of a step, with the numbers of its names.
pub fn test(from: &Test<Items<u8>>, pool: &mut Pool) -> Result<Test<TextId>, Want>
    ensures test { IfOk result (λ t. TestStands pool.new t (test_of (λ x. x) from.now)) }
    ensures keeps { Grows pool.old pool.new }
{
    match from {
        Test::Star => Ok(Test::Star),
        Test::Named(n) => {
            let n = name(n, pool)?;
            Ok(Test::Named(n))
        }
        Test::Kind(k) => {
            let k = kind_test(k, pool)?;
            Ok(Test::Kind(k))
        }
    }
}

/// The number of a name's text, if it is there.
fn test_name(from: &Option<Name<Items<u8>>>, pool: &mut Pool) -> Result<Option<TextId>, Want>
    ensures named { IfOk result (λ n. Lasting pool.new (λ later. option_with (text_in later) n ≡ named_of (λ x. x) from.now)) }
    ensures keeps { Grows pool.old pool.new }
{
    match from {
        None => Ok(None),
        Some(n) => {
            let text = text(n.text.as_slice(), pool)?;
            Ok(Some(text))
        }
    }
}

/// The test of nodes that a test by kind is in a sequence type.
fn node_test(from: &KindTest<Items<u8>>, pool: &mut Pool) -> Result<NodeTest, Want>
    ensures test { IfOk result (λ t. NodeTestStands pool.new t (kind_test_of (λ x. x) from.now)) }
    ensures keeps { Grows pool.old pool.new }
{
    match from {
        KindTest::Node => Ok(NodeTest::Any),
        KindTest::Text => Ok(NodeTest::Text),
        KindTest::Comment => Ok(NodeTest::Comment),
        KindTest::Document => Ok(NodeTest::Document),
        KindTest::Instruction(n) => {
            let n = test_name(n, pool)?;
            Ok(NodeTest::Pi(n))
        }
        KindTest::Element(n) => {
            let n = test_name(n, pool)?;
            Ok(NodeTest::Element(n))
        }
        KindTest::Attribute(n) => {
            let n = test_name(n, pool)?;
            Ok(NodeTest::Attribute(n))
        }
    }
}

/// The type of an item by the name of an atomic type. What names none is refused elsewhere.
fn item_named(name: &[u8]) -> ItemType
    ensures { (later : List (List ℕ)) → item_of later result ≡ spec.item_or_any (type_names.item_named name.now) }
{
    match atom_kind(name) {
        Some(kind) => ItemType::Atom(kind),
        None => {
            if is_any_atomic(name) {
                ItemType::AnyAtomic
            } else {
                ItemType::Any
            }
        }
    }
}

/// The type of an item.
fn item(from: &ReadItem, pool: &mut Pool) -> Result<ItemType, Want>
    ensures item { IfOk result (λ t. Lasting pool.new (λ later. item_of later t ≡ spec.resolved_item from.now)) }
    ensures keeps { Grows pool.old pool.new }
{
    match from {
        ReadItem::Any => Ok(ItemType::Any),
        ReadItem::Kind(test) => {
            let test = node_test(test, pool)?;
            Ok(ItemType::Test(test))
        }
        ReadItem::Named(name) => Ok(item_named(name.text.as_slice())),
    }
}

/// A sequence type.
pub fn seq_type(from: &ReadType, pool: &mut Pool) -> Result<SeqType, Want>
    ensures ty { IfOk result (λ t. TypeStands pool.new t (spec.resolved_type from.now)) }
    ensures keeps { Grows pool.old pool.new }
{
    match from {
        ReadType::Empty(_) => Ok(SeqType::Empty),
        ReadType::Of(_, read, occurs) => {
            let item = item(read, pool)?;
            Ok(SeqType::Of {
                item,
                occurs: *occurs,
            })
        }
    }
}

/// A sequence type, if it is there.
pub fn seq_types(from: &Option<ReadType>, pool: &mut Pool) -> Result<Option<SeqType>, Want>
    ensures ty { IfOk result (λ t. Lasting pool.new (λ later. types_in later t ≡ spec.resolved_types from.now)) }
    ensures keeps { Grows pool.old pool.new }
{
    match from {
        None => Ok(None),
        Some(read) => {
            let ty = seq_type(read, pool)?;
            Ok(Some(ty))
        }
    }
}

/// The place of a `$` as what names its variable. Places of a query that is read are below 2^32.
fn variable_at(place: u64) -> Result<u32, Want>
    ensures { IfOk result (λ n. n ≡ place) }
{
    match u32::try_from(place) {
        Ok(number) => Ok(number),
        Err(_) => Err(Want),
    }
}

/// A variable as it is bound.
pub fn variable(from: &Variable<Name<Items<u8>>>) -> Result<Variable<u32>, Want>
    ensures { IfOk result (λ v. v ≡ variable_for from.now) }
{
    let name = variable_at(from.offset)?;
    Ok(Variable {
        offset: from.offset,
        name,
    })
}

/// The variable of a position, if it is there.
pub fn position(from: &Option<Variable<Name<Items<u8>>>>) -> Result<Option<Variable<u32>>, Want>
    ensures { IfOk result (λ v. v ≡ position_for from.now) }
{
    match from {
        None => Ok(None),
        Some(v) => {
            let v = variable(v)?;
            Ok(Some(v))
        }
    }
}

/// The variable that a reference names. A reference to none is refused elsewhere.
pub fn referred(v: Option<Visible>) -> Result<u32, Want>
    ensures { IfOk result (λ n. n ≡ place_in v) }
{
    match v {
        None => Ok(0),
        Some(v) => variable_at(v.place),
    }
}

/// The function of a call. A call of none is refused elsewhere.
pub fn callee(found: Option<Callee>) -> Callee
    ensures { result ≡ spec.callee_or_first found }
{
    match found {
        None => Callee::Declared(0),
        Some(f) => f,
    }
}

/// The atomic type of a cast. A name of none is refused elsewhere.
pub fn cast_kind(name: &[u8]) -> AtomKind
    ensures { result ≡ spec.kind_or_integer (type_names.atom_kind name.now) }
{
    match atom_kind(name) {
        None => AtomKind::Integer,
        Some(kind) => kind,
    }
}

/// The integer of digits. A wider one is refused elsewhere.
#[tactic(auto, using(crate::proofs::Digits::integer_none, crate::proofs::Digits::integer_some))]
pub fn integer(digits: &[u8]) -> i64
    ensures { result ≡ integer_of digits.now }
{
    match integer_in(digits) {
        None => 0,
        Some(z) => z,
    }
}
