ghost use Rattle.std.specs.Prelude.{◌≡◌, map, option_map};
ghost use Rattle.xq_types.specs.Types.{Typ, made};
ghost use Rattle.xq_types.specs.Calls.{only_one, only_two, only_three, first_one, type_one, type_two, type_three, type_first, maybe_one, maybe_two, integers, atomised_type, extreme_type, part_type, node_set_type, inserted_type, sum_type, fun_type};
ghost use Rattle.xq_types.specs.Held.{kinds_in, typ_of};

use crate::kinds::{KindSet, atomised_of, either_of, kinds_of_nodes, numbers_of, only_kind};
use crate::typ::{Known, greater, lesser, made_of, nothing, once};
use xq_base::{AtomKind, Fun, ItemKind};

const INTEGER: ItemKind = ItemKind::Atom(AtomKind::Integer);

const TEXT: ItemKind = ItemKind::Atom(AtomKind::Text);

const BOOLEAN: ItemKind = ItemKind::Atom(AtomKind::Boolean);

/// The type of an only argument.
fn only_type(types: &[Known]) -> Option<Known>
    ensures { option_map typ_of result ≡ only_one (map typ_of types.now) }
{
    match types {
        [t] => Some(*t),
        _ => None,
    }
}

/// The types of two arguments.
fn two_types(types: &[Known]) -> Option<(Known, Known)>
    ensures { option_map (λ p. (typ_of p.0, typ_of p.1)) result ≡ only_two (map typ_of types.now) }
{
    match types {
        [t, u] => Some((*t, *u)),
        _ => None,
    }
}

/// The types of three arguments.
fn three_types(types: &[Known]) -> Option<(Known, Known, Known)>
    ensures { option_map (λ p. (typ_of p.0, typ_of p.1, typ_of p.2)) result ≡ only_three (map typ_of types.now) }
{
    match types {
        [t, u, w] => Some((*t, *u, *w)),
        _ => None,
    }
}

/// The type of the first argument.
fn first_type(types: &[Known]) -> Option<Known>
    ensures { option_map typ_of result ≡ first_one (map typ_of types.now) }
{
    match types {
        [t, ..] => Some(*t),
        [] => None,
    }
}

/// At most one item of these kinds, none where the argument may be absent.
fn by_one(kinds: KindSet, types: &[Known]) -> Known
    ensures { typ_of result ≡ type_one (maybe_one (kinds_in kinds)) (map typ_of types.now) }
{
    match only_type(types) {
        Some(t) => made_of(kinds, t.ty().least, 1),
        None => nothing(),
    }
}

/// At most one item of these kinds, none where an operand may be absent.
fn by_two(kinds: KindSet, types: &[Known]) -> Known
    ensures { typ_of result ≡ type_two (maybe_two (kinds_in kinds)) (map typ_of types.now) }
{
    match two_types(types) {
        Some((t, u)) => made_of(kinds, lesser(t.ty().least, u.ty().least), 1),
        None => nothing(),
    }
}

/// The atomised argument.
fn atomised(types: &[Known]) -> Known
    ensures { typ_of result ≡ type_one atomised_type (map typ_of types.now) }
{
    match only_type(types) {
        Some(t) => {
            let t = t.ty();
            made_of(atomised_of(t.kinds), t.least, t.most)
        }
        None => nothing(),
    }
}

/// The least or the greatest item of the atomised argument.
fn extreme(types: &[Known]) -> Known
    ensures { typ_of result ≡ type_one extreme_type (map typ_of types.now) }
{
    match only_type(types) {
        Some(t) => {
            let t = t.ty();
            made_of(numbers_of(atomised_of(t.kinds)), t.least, 1)
        }
        None => nothing(),
    }
}

/// The argument as it is.
fn same(types: &[Known]) -> Known
    ensures { typ_of result ≡ type_one (λ t. t) (map typ_of types.now) }
{
    match only_type(types) {
        Some(t) => t,
        None => nothing(),
    }
}

/// The argument where it has at most one item.
fn at_most_once(types: &[Known]) -> Known
    ensures { typ_of result ≡ type_one (λ t. made t.kinds t.least 1) (map typ_of types.now) }
{
    match only_type(types) {
        Some(t) => {
            let t = t.ty();
            made_of(t.kinds, t.least, 1)
        }
        None => nothing(),
    }
}

/// The argument where it has these numbers.
fn numbered(least: u8, most: u8, types: &[Known]) -> Known
    ensures { typ_of result ≡ type_one (λ t. made t.kinds least most) (map typ_of types.now) }
{
    match only_type(types) {
        Some(t) => made_of(t.ty().kinds, least, most),
        None => nothing(),
    }
}

/// A part of the first argument.
fn part(types: &[Known]) -> Known
    ensures { typ_of result ≡ type_first part_type (map typ_of types.now) }
{
    match first_type(types) {
        Some(t) => made_of(t.ty().kinds, 0, 2),
        None => nothing(),
    }
}

/// A set of nodes of both operands.
fn node_set(types: &[Known]) -> Known
    ensures { typ_of result ≡ type_two node_set_type (map typ_of types.now) }
{
    match two_types(types) {
        Some((t, u)) => made_of(either_of(t.ty().kinds, u.ty().kinds), 0, 2),
        None => nothing(),
    }
}

/// A sequence with another one inserted.
fn inserted(types: &[Known]) -> Known
    ensures { typ_of result ≡ type_three inserted_type (map typ_of types.now) }
{
    match three_types(types) {
        Some((t, _, u)) => {
            let (t, u) = (t.ty(), u.ty());
            made_of(
                either_of(t.kinds, u.kinds),
                greater(t.least, u.least),
                t.most + u.most,
            )
        }
        None => nothing(),
    }
}

/// A sum, or the second argument where there is nothing to add.
fn sum(types: &[Known]) -> Known
    ensures { typ_of result ≡ sum_type (map typ_of types.now) }
{
    match two_types(types) {
        Some((_, u)) => {
            let u = u.ty();
            made_of(
                either_of(only_kind(INTEGER), atomised_of(u.kinds)),
                u.least,
                1,
            )
        }
        None => once(INTEGER),
    }
}

/// The type of a call by the types of its arguments.
pub fn type_of_call(fun: Fun, types: &[Known]) -> Known
    ensures { typ_of result ≡ fun_type fun (map typ_of types.now) }
{
    match fun {
        Fun::Or
        | Fun::And
        | Fun::GeneralEq
        | Fun::GeneralNe
        | Fun::GeneralLt
        | Fun::GeneralLe
        | Fun::GeneralGt
        | Fun::GeneralGe
        | Fun::Empty
        | Fun::Exists
        | Fun::Boolean
        | Fun::Not
        | Fun::True
        | Fun::False
        | Fun::Contains
        | Fun::StartsWith
        | Fun::EndsWith
        | Fun::IsKind(_) => once(BOOLEAN),
        Fun::Count | Fun::StringLength | Fun::Extern { .. } => once(INTEGER),
        Fun::StringOf
        | Fun::Name
        | Fun::LocalName
        | Fun::NormalizeSpace
        | Fun::Concat
        | Fun::StringJoin
        | Fun::SubstringBefore
        | Fun::SubstringAfter
        | Fun::Substring
        | Fun::Translate
        | Fun::ContentText
        | Fun::QName
        | Fun::PiTarget => once(TEXT),
        Fun::Eq
        | Fun::Ne
        | Fun::Lt
        | Fun::Le
        | Fun::Gt
        | Fun::Ge
        | Fun::Is
        | Fun::Before
        | Fun::After => by_two(only_kind(BOOLEAN), types),
        Fun::Add
        | Fun::Subtract
        | Fun::Multiply
        | Fun::IntegerDivide
        | Fun::Modulo
        | Fun::Compare => by_two(only_kind(INTEGER), types),
        Fun::Negate | Fun::Abs | Fun::XsInteger => by_one(only_kind(INTEGER), types),
        Fun::XsString => by_one(only_kind(TEXT), types),
        Fun::XsBoolean => by_one(only_kind(BOOLEAN), types),
        Fun::XsUntypedAtomic => { by_one(only_kind(ItemKind::Atom(AtomKind::Untyped)), types) }
        Fun::CastTo(kind) => by_one(only_kind(ItemKind::Atom(kind)), types),
        Fun::Doc => by_one(only_kind(ItemKind::Document), types),
        Fun::Root => by_one(kinds_of_nodes(), types),
        Fun::To | Fun::IndexOf => made_of(only_kind(INTEGER), 0, 2),
        Fun::Union | Fun::Intersect | Fun::Except => node_set(types),
        Fun::Data | Fun::DistinctValues | Fun::Atomize => atomised(types),
        Fun::Min | Fun::Max => extreme(types),
        Fun::Sum => sum(types),
        Fun::Reverse | Fun::PathOrder => same(types),
        Fun::Subsequence | Fun::Remove => part(types),
        Fun::InsertBefore => inserted(types),
        Fun::ZeroOrOne => at_most_once(types),
        Fun::OneOrMore => numbered(1, 2, types),
        Fun::ExactlyOne => numbered(1, 1, types),
        Fun::Position | Fun::Last | Fun::Error => nothing(),
    }
}
