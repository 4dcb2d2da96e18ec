ghost use Rattle.std.specs.Prelude.{◌≡◌, ◌++◌, ◌∷◌, []};
ghost use Rattle.doc_table.specs.Values.{kind_of_item, item_of_atom};
ghost use Rattle.core_meaning.specs.Erasure.{Texts, atom_in, test_in, item_test, sequence_test, node_kind};
ghost use Rattle.xq_types.specs.Kinds.{step_kinds};
ghost use Rattle.xq_types.specs.Types.{once_of, kinds_of_test as kinds_tested, type_of_test};
ghost use Rattle.xq_types.specs.Typing.{step_type, treat_type, numbers_treated, convert_type, cast_or_none, build_type};
ghost use Rattle.xq_types.specs.Held.{kinds_in, typ_of, listed};

use crate::kinds::{
    KindSet, all_kinds, atomic_kinds, common_of, kinds_of_step, kinds_of_test, only_kind,
};
use crate::typ::{Known, greater, lesser, made_of, nothing, once, with_numbers};
use core_meaning::{BuildKind, ItemType, Occurs, SeqType};
use xq_base::{Atom, AtomKind, Axis, ItemKind, NodeTest};

/// The type of a literal.
pub fn type_of_atom(atom: Atom) -> Known
    ensures { (texts : Texts) → typ_of result ≡ once_of (kind_of_item (item_of_atom (atom_in texts atom))) }
{
    let kind = match atom {
        Atom::Int(_) => AtomKind::Integer,
        Atom::Str(_) => AtomKind::Text,
        Atom::Untyped(_) => AtomKind::Untyped,
        Atom::Bool(_) => AtomKind::Boolean,
    };
    once(ItemKind::Atom(kind))
}

/// The type of a step from nodes of this type.
pub fn type_of_step(axis: Axis, test: NodeTest, t: Known) -> Known
    ensures { (texts : Texts) → typ_of result ≡ step_type axis (test_in texts test) (typ_of t) }
{
    let kinds = kinds_of_step(axis, test);
    match axis {
        Axis::SelfNode | Axis::Parent => made_of(kinds, 0, t.ty().most),
        _ => made_of(kinds, 0, 2),
    }
}

/// The kinds that a test of items admits.
fn kinds_of_items(item: ItemType) -> KindSet
    ensures { (texts : Texts) → kinds_in result ≡ kinds_tested (item_test texts item) }
{
    match item {
        ItemType::Any => all_kinds(),
        ItemType::AnyAtomic => atomic_kinds(),
        ItemType::Atom(kind) => only_kind(ItemKind::Atom(kind)),
        ItemType::Test(test) => kinds_of_test(test),
    }
}

/// The type that a sequence type admits.
fn type_of_sequence(ty: SeqType) -> Known
    ensures { (texts : Texts) → typ_of result ≡ type_of_test (sequence_test texts ty) }
{
    match ty {
        SeqType::Empty => nothing(),
        SeqType::Of { item, occurs } => {
            let kinds = kinds_of_items(item);
            match occurs {
                Occurs::One => with_numbers(kinds, 1, 1),
                Occurs::Optional => with_numbers(kinds, 0, 1),
                Occurs::Many => with_numbers(kinds, 0, 2),
                Occurs::AtLeastOne => with_numbers(kinds, 1, 2),
            }
        }
    }
}

/// The type of a value that has both types.
fn both_types(t: Known, u: Known) -> Known
    ensures { typ_of result ≡ treat_type (typ_of t) (typ_of u) }
{
    let (t, u) = (t.ty(), u.ty());
    made_of(
        common_of(t.kinds, u.kinds),
        greater(t.least, u.least),
        lesser(t.most, u.most),
    )
}

/// The type of a value that is atomised and converted to an atomic type.
fn type_of_numbers(t: Known, u: Known) -> Known
    ensures { typ_of result ≡ numbers_treated (typ_of t) (typ_of u) }
{
    let (t, u) = (t.ty(), u.ty());
    made_of(u.kinds, greater(t.least, u.least), lesser(t.most, u.most))
}

/// The type of a value that is tested to have a type.
pub fn type_of_treat(ty: SeqType, t: Known) -> Known
    ensures { (texts : Texts) → typ_of result ≡ treat_type (typ_of t) (type_of_test (sequence_test texts ty)) }
{
    both_types(t, type_of_sequence(ty))
}

/// The type of a value that is converted to a declared type.
pub fn type_of_convert(ty: SeqType, t: Known) -> Known
    ensures { (texts : Texts) → typ_of result ≡ convert_type (sequence_test texts ty) (typ_of t) }
{
    let u = type_of_sequence(ty);
    match ty {
        SeqType::Empty => both_types(t, u),
        SeqType::Of { item, .. } => match item {
            ItemType::Any | ItemType::Test(_) => both_types(t, u),
            ItemType::AnyAtomic | ItemType::Atom(_) => type_of_numbers(t, u),
        },
    }
}

/// The type of a cast; the flag says whether the empty sequence may be cast.
pub fn type_of_cast(kind: AtomKind, optional: bool, t: Known) -> Known
    ensures { typ_of result ≡ cast_or_none kind optional (typ_of t) }
{
    if optional {
        made_of(only_kind(ItemKind::Atom(kind)), t.ty().least, 1)
    } else {
        once(ItemKind::Atom(kind))
    }
}

/// The type of a constructed node, by those of its name, where it has one, and of its content.
pub fn type_of_build(what: BuildKind, name: Option<Known>, content: Known) -> Known
    ensures { typ_of result ≡ build_type (node_kind what) (listed name ++ typ_of content ∷ []) }
{
    match what {
        BuildKind::Element => once(ItemKind::Element),
        BuildKind::Attribute => once(ItemKind::Attribute),
        BuildKind::Comment => once(ItemKind::Comment),
        BuildKind::Pi => once(ItemKind::Pi),
        BuildKind::Document => once(ItemKind::Document),
        BuildKind::Text => match name {
            None => {
                let t = content.ty();
                made_of(only_kind(ItemKind::Text), t.least, t.most)
            }
            Some(_) => nothing(),
        },
    }
}
