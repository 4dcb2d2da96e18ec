//! Types, tests and words of the resolved tree as those of the Core. They take no memory.
ghost use Rattle.std.specs.Prelude.{◌≡◌};
ghost use Rattle.doc_table.specs.Tree.{text_in};
ghost use Rattle.core_meaning.specs.Erasure.{Texts, item_test, sequence_test, test_in};
ghost use Rattle.core_meaning.specs.Erasure as core;
ghost use Rattle.core_scope.specs.Erasure.{kind_test_of, test_of};
ghost use Rattle.core_scope.specs.Leaves.{item_of, occurs_of, sequence_of};
ghost use Rattle.core_normal.specs.Held.{type_in};
ghost use Rattle.core_normal.specs.Pieces as spec;
ghost use Rattle.core_normal.specs.Trees as trees;

use core_meaning::{BuildKind, ItemType, Occurs, SeqType};
use xq_ast::leaf;
use xq_ast::leaf::{KindTest, Operator, Test};
use xq_base::{Axis, Fun, NodeTest, TextId};

fn kind_test(test: &KindTest<TextId>) -> NodeTest
    ensures { (t : Texts) → test_in t result ≡ kind_test_of (text_in t) test.now }
{
    match test {
        KindTest::Node => NodeTest::Any,
        KindTest::Text => NodeTest::Text,
        KindTest::Comment => NodeTest::Comment,
        KindTest::Document => NodeTest::Document,
        KindTest::Instruction(None) => NodeTest::Pi(None),
        KindTest::Instruction(Some(name)) => NodeTest::Pi(Some(name.text)),
        KindTest::Element(None) => NodeTest::Element(None),
        KindTest::Element(Some(name)) => NodeTest::Element(Some(name.text)),
        KindTest::Attribute(None) => NodeTest::Attribute(None),
        KindTest::Attribute(Some(name)) => NodeTest::Attribute(Some(name.text)),
    }
}

/// What a step tests (XQuery 1.0, section 3.2.1.2).
pub fn node_test(test: &Test<TextId>) -> NodeTest
    ensures { (t : Texts) → test_in t result ≡ test_of (text_in t) test.now }
{
    match test {
        Test::Star => NodeTest::Star,
        Test::Named(name) => NodeTest::Name(name.text),
        Test::Kind(kind) => kind_test(kind),
    }
}

fn occurs(how_many: leaf::Occurs) -> Occurs
    ensures { result ≡ occurs_of how_many }
{
    match how_many {
        leaf::Occurs::One => Occurs::One,
        leaf::Occurs::Optional => Occurs::Optional,
        leaf::Occurs::Many => Occurs::Many,
        leaf::Occurs::AtLeastOne => Occurs::AtLeastOne,
    }
}

fn item_type(item: leaf::ItemType) -> ItemType
    ensures { (t : Texts) → item_test t result ≡ item_of t item }
{
    match item {
        leaf::ItemType::Any => ItemType::Any,
        leaf::ItemType::AnyAtomic => ItemType::AnyAtomic,
        leaf::ItemType::Atom(kind) => ItemType::Atom(kind),
        leaf::ItemType::Test(test) => ItemType::Test(test),
    }
}

/// A sequence type (XQuery 1.0, section 2.5.3).
pub fn seq_type(ty: leaf::SeqType) -> SeqType
    ensures { (t : Texts) → sequence_test t result ≡ sequence_of t ty }
{
    match ty {
        leaf::SeqType::Empty => SeqType::Empty,
        leaf::SeqType::Of {
            item,
            occurs: how_many,
        } => {
            let item = item_type(item);
            let occurs = occurs(how_many);
            SeqType::Of { item, occurs }
        }
    }
}

/// A type, where one is written.
pub fn maybe_type(ty: Option<leaf::SeqType>) -> Option<SeqType>
    ensures { (t : Texts) → type_in t result ≡ trees.type_of t ty }
{
    match ty {
        None => None,
        Some(ty) => {
            let core = seq_type(ty);
            Some(core)
        }
    }
}

/// The constructor of a word (XQuery 1.0, section 3.7.3).
pub fn build_kind(kind: leaf::BuildKind) -> BuildKind
    ensures { core.node_kind result ≡ spec.node_kind kind }
{
    match kind {
        leaf::BuildKind::Element => BuildKind::Element,
        leaf::BuildKind::Attribute => BuildKind::Attribute,
        leaf::BuildKind::Text => BuildKind::Text,
        leaf::BuildKind::Comment => BuildKind::Comment,
        leaf::BuildKind::Pi => BuildKind::Pi,
        leaf::BuildKind::Document => BuildKind::Document,
    }
}

/// Whether an axis goes backwards (XQuery 1.0, section 3.2.1.1).
pub fn is_reverse(axis: Axis) -> bool
    ensures { result ≡ spec.is_reverse axis }
{
    match axis {
        Axis::Parent => true,
        Axis::Ancestor => true,
        Axis::PrecedingSibling => true,
        Axis::Preceding => true,
        Axis::AncestorOrSelf => true,
        _ => false,
    }
}

/// Whether an operator takes effective boolean values (XQuery 1.0, section 3.6).
pub fn is_logical(operator: Operator) -> bool
    ensures { result ≡ spec.is_logical operator }
{
    match operator {
        Operator::And => true,
        Operator::Or => true,
        _ => false,
    }
}

/// The function of an operator.
pub fn fun_of(operator: Operator) -> Fun
    ensures { result ≡ spec.fun_of operator }
{
    match operator {
        Operator::Or => Fun::Or,
        Operator::And => Fun::And,
        Operator::GeneralEq => Fun::GeneralEq,
        Operator::GeneralNe => Fun::GeneralNe,
        Operator::GeneralLt => Fun::GeneralLt,
        Operator::GeneralLe => Fun::GeneralLe,
        Operator::GeneralGt => Fun::GeneralGt,
        Operator::GeneralGe => Fun::GeneralGe,
        Operator::Eq => Fun::Eq,
        Operator::Ne => Fun::Ne,
        Operator::Lt => Fun::Lt,
        Operator::Le => Fun::Le,
        Operator::Gt => Fun::Gt,
        Operator::Ge => Fun::Ge,
        Operator::Is => Fun::Is,
        Operator::Before => Fun::Before,
        Operator::After => Fun::After,
        Operator::To => Fun::To,
        Operator::Add => Fun::Add,
        Operator::Subtract => Fun::Subtract,
        Operator::Multiply => Fun::Multiply,
        Operator::IntegerDivide => Fun::IntegerDivide,
        Operator::Modulo => Fun::Modulo,
        Operator::Union => Fun::Union,
        Operator::Intersect => Fun::Intersect,
        Operator::Except => Fun::Except,
    }
}
