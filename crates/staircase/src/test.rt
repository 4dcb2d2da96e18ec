//! Node tests on rows and on attributes.
ghost use Rattle.std.specs.Prelude.{◌≡◌, Some};
ghost use Rattle.doc_table.specs.Axes.{has_name, id_eq, selects, test_of};
ghost use Rattle.doc_table.specs.Tree.{AttributeNode};
ghost use Rattle.staircase.specs.Tests.{kind_of_row};

use doc_table::{Kind, Row};
use xq_base::{Axis, NodeTest, TextId};

/// Whether the name is the wanted one, where one is wanted.
fn is_named(wanted: Option<TextId>, name: Option<TextId>) -> bool
    ensures { result ≡ has_name id_eq wanted name }
{
    match wanted {
        None => true,
        Some(wanted) => match name {
            None => false,
            Some(name) => wanted.0 == name.0,
        },
    }
}

/// Whether a test on an axis selects this row.
pub(crate) fn row_passes(axis: Axis, test: NodeTest, row: Row) -> bool
    ensures { result ≡ selects id_eq axis (test_of test) (kind_of_row row.kind) row.name }
{
    match test {
        NodeTest::Any => true,
        NodeTest::Name(name) => axis != Axis::Attribute
            && row.kind == Kind::Element
            && is_named(Some(name), row.name),
        NodeTest::Star => axis != Axis::Attribute && row.kind == Kind::Element,
        NodeTest::Text => row.kind == Kind::Text,
        NodeTest::Comment => row.kind == Kind::Comment,
        NodeTest::Pi(name) => row.kind == Kind::Pi && is_named(name, row.name),
        NodeTest::Document => row.kind == Kind::Document,
        NodeTest::Element(name) => row.kind == Kind::Element && is_named(name, row.name),
        NodeTest::Attribute(_) => false,
    }
}

/// Whether a test on an axis selects an attribute of this name.
pub(crate) fn attribute_passes(axis: Axis, test: NodeTest, name: TextId) -> bool
    ensures { result ≡ selects id_eq axis (test_of test) AttributeNode (Some name) }
{
    match test {
        NodeTest::Any => true,
        NodeTest::Name(wanted) => axis == Axis::Attribute && wanted.0 == name.0,
        NodeTest::Star => axis == Axis::Attribute,
        NodeTest::Attribute(wanted) => is_named(wanted, Some(name)),
        NodeTest::Text | NodeTest::Comment | NodeTest::Document => false,
        NodeTest::Pi(_) | NodeTest::Element(_) => false,
    }
}
