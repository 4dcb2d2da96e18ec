ghost use Rattle.std.specs.Prelude.{◌≡◌};
ghost use Rattle.xq_types.specs.Kinds.{only, every_kind, atom_kinds, node_kinds, either_kinds, common_kinds, atomised_kinds, as_numbers, is_empty_set, admitted, axis_kinds, step_kinds};
ghost use Rattle.xq_types.specs.Held.{kinds_in};
ghost use Rattle.doc_table.specs.Axes.{test_of};

use xq_base::{AtomKind, Axis, ItemKind, NodeTest};

/// A set of kinds: whether each of the ten is in it, in the order in which they are written.
pub type KindSet = [bool; 10];

/// The set of one kind.
pub fn only_kind(kind: ItemKind) -> KindSet
    ensures { kinds_in result ≡ only kind }
{
    let mut kinds = [false; 10];
    match kind {
        ItemKind::Atom(AtomKind::Integer) => kinds[0] = true,
        ItemKind::Atom(AtomKind::Text) => kinds[1] = true,
        ItemKind::Atom(AtomKind::Boolean) => kinds[2] = true,
        ItemKind::Atom(AtomKind::Untyped) => kinds[3] = true,
        ItemKind::Element => kinds[4] = true,
        ItemKind::Attribute => kinds[5] = true,
        ItemKind::Text => kinds[6] = true,
        ItemKind::Comment => kinds[7] = true,
        ItemKind::Pi => kinds[8] = true,
        ItemKind::Document => kinds[9] = true,
    }
    kinds
}

pub fn all_kinds() -> KindSet
    ensures { kinds_in result ≡ every_kind }
{
    [true; 10]
}

/// The kinds of atomic values.
pub fn atomic_kinds() -> KindSet
    ensures { kinds_in result ≡ atom_kinds }
{
    [
        true, true, true, true, false, false, false, false, false, false,
    ]
}

/// The kinds of nodes.
pub fn kinds_of_nodes() -> KindSet
    ensures { kinds_in result ≡ node_kinds }
{
    [
        false, false, false, false, true, true, true, true, true, true,
    ]
}

/// The kinds of two sets together.
pub fn either_of(a: KindSet, b: KindSet) -> KindSet
    ensures { kinds_in result ≡ either_kinds (kinds_in a) (kinds_in b) }
{
    [
        a[0] | b[0],
        a[1] | b[1],
        a[2] | b[2],
        a[3] | b[3],
        a[4] | b[4],
        a[5] | b[5],
        a[6] | b[6],
        a[7] | b[7],
        a[8] | b[8],
        a[9] | b[9],
    ]
}

/// The kinds that two sets have in common.
pub fn common_of(a: KindSet, b: KindSet) -> KindSet
    ensures { kinds_in result ≡ common_kinds (kinds_in a) (kinds_in b) }
{
    [
        a[0] & b[0],
        a[1] & b[1],
        a[2] & b[2],
        a[3] & b[3],
        a[4] & b[4],
        a[5] & b[5],
        a[6] & b[6],
        a[7] & b[7],
        a[8] & b[8],
        a[9] & b[9],
    ]
}

/// The kinds of the typed values of items of these kinds.
pub fn atomised_of(a: KindSet) -> KindSet
    ensures { kinds_in result ≡ atomised_kinds (kinds_in a) }
{
    [
        a[0],
        a[1] | a[7] | a[8],
        a[2],
        a[3] | a[4] | a[5] | a[6] | a[9],
        false,
        false,
        false,
        false,
        false,
        false,
    ]
}

/// The kinds of these values once untyped ones are taken as integers.
pub fn numbers_of(a: KindSet) -> KindSet
    ensures { kinds_in result ≡ as_numbers (kinds_in a) }
{
    [
        a[0] | a[3],
        a[1],
        a[2],
        false,
        a[4],
        a[5],
        a[6],
        a[7],
        a[8],
        a[9],
    ]
}

/// Whether a set has no kind.
pub fn has_none(kinds: KindSet) -> bool
    ensures { result ≡ is_empty_set (kinds_in kinds) }
{
    !(kinds[0]
        || kinds[1]
        || kinds[2]
        || kinds[3]
        || kinds[4]
        || kinds[5]
        || kinds[6]
        || kinds[7]
        || kinds[8]
        || kinds[9])
}

/// The kinds that a node test admits where elements are the axis's principal kind.
pub fn kinds_of_test(test: NodeTest) -> KindSet
    ensures { kinds_in result ≡ admitted (test_of test) }
{
    match test {
        NodeTest::Any => kinds_of_nodes(),
        NodeTest::Name(_) | NodeTest::Star | NodeTest::Element(_) => only_kind(ItemKind::Element),
        NodeTest::Text => only_kind(ItemKind::Text),
        NodeTest::Comment => only_kind(ItemKind::Comment),
        NodeTest::Pi(_) => only_kind(ItemKind::Pi),
        NodeTest::Document => only_kind(ItemKind::Document),
        NodeTest::Attribute(_) => only_kind(ItemKind::Attribute),
    }
}

/// The kinds of nodes on an axis.
pub fn kinds_on_axis(axis: Axis) -> KindSet
    ensures { kinds_in result ≡ axis_kinds axis }
{
    match axis {
        Axis::Attribute => only_kind(ItemKind::Attribute),
        Axis::SelfNode | Axis::DescendantOrSelf | Axis::AncestorOrSelf => kinds_of_nodes(),
        Axis::Parent | Axis::Ancestor => [
            false, false, false, false, true, false, false, false, false, true,
        ],
        Axis::Child
        | Axis::Descendant
        | Axis::FollowingSibling
        | Axis::Following
        | Axis::PrecedingSibling
        | Axis::Preceding => [
            false, false, false, false, true, false, true, true, true, false,
        ],
    }
}

/// The kinds of nodes that a step can give.
pub fn kinds_of_step(axis: Axis, test: NodeTest) -> KindSet
    ensures { kinds_in result ≡ step_kinds axis (test_of test) }
{
    match axis {
        Axis::Attribute => only_kind(ItemKind::Attribute),
        other => common_of(kinds_on_axis(other), kinds_of_test(test)),
    }
}
