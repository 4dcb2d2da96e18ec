//! Which operators fit behind which.
ghost use Rattle.std.specs.Prelude.{◌≡◌, ◌++◌, ◌∷◌, ◌&&◌, [], true, map, length};
ghost use Rattle.std.specs.List.{list_all};
ghost use Rattle.plan_dag.specs.Schema.{has_col, has_cols, lacks, cols_differ, same_cols, takes, named_first, named_second, part_cols};

use crate::cols::Col;
use crate::keys::Key;
use crate::op::Op;
use crate::pairs::Pair;
use xq_base::Fun;

/// Whether the column is there.
pub fn has(cols: &[Col], col: Col) -> bool
    ensures { result ≡ has_col cols.now col }
{
    cols.contains(&col)
}

/// Whether all columns are there.
pub fn has_all(cols: &[Col], wanted: &[Col]) -> bool
    ensures { result ≡ has_cols cols.now wanted.now }
{
    match wanted.split_first() {
        None => true,
        Some((col, rest)) => has(cols, *col) && has_all(cols, rest),
    }
}

/// Whether the columns of all keys are there.
pub fn has_keys(cols: &[Col], keys: &[Key]) -> bool
    ensures { result ≡ has_cols cols.now (map (λ k. k.col) keys.now) }
{
    match keys.split_first() {
        None => true,
        Some((key, rest)) => has(cols, key.col) && has_keys(cols, rest),
    }
}

/// Whether the old columns of all pairs are there.
pub fn has_olds(cols: &[Col], pairs: &[Pair]) -> bool
    ensures { result ≡ has_cols cols.now (map (λ p. p.old) pairs.now) }
{
    match pairs.split_first() {
        None => true,
        Some((pair, rest)) => has(cols, pair.old) && has_olds(cols, rest),
    }
}

/// Whether no column comes twice.
pub fn differ(cols: &[Col]) -> bool
    ensures { result ≡ cols_differ cols.now }
{
    match cols.split_first() {
        None => true,
        Some((col, rest)) => !has(rest, *col) && differ(rest),
    }
}

/// Whether both have the same columns.
pub fn agree(left: &[Col], right: &[Col]) -> bool
    ensures { result ≡ same_cols left.now right.now }
{
    has_all(left, right) && has_all(right, left)
}

/// Whether a map may apply the function to so many cells.
pub fn takes_cells(fun: Fun, cells: u8) -> bool
    ensures { result ≡ takes fun cells }
{
    match fun {
        Fun::True | Fun::False => cells == 0,
        Fun::Doc
        | Fun::Root
        | Fun::StringOf
        | Fun::Name
        | Fun::LocalName
        | Fun::StringLength
        | Fun::NormalizeSpace
        | Fun::Abs
        | Fun::XsInteger
        | Fun::XsString
        | Fun::XsBoolean
        | Fun::XsUntypedAtomic
        | Fun::Negate
        | Fun::Atomize
        | Fun::QName
        | Fun::PiTarget
        | Fun::IsKind(_)
        | Fun::CastTo(_) => cells == 1,
        Fun::Contains
        | Fun::StartsWith
        | Fun::EndsWith
        | Fun::SubstringBefore
        | Fun::SubstringAfter
        | Fun::Compare
        | Fun::Add
        | Fun::Subtract
        | Fun::Multiply
        | Fun::IntegerDivide
        | Fun::Modulo
        | Fun::Eq
        | Fun::Ne
        | Fun::Lt
        | Fun::Le
        | Fun::Gt
        | Fun::Ge
        | Fun::Is
        | Fun::Before
        | Fun::After
        | Fun::And
        | Fun::Or => cells == 2,
        Fun::Translate => cells == 3,
        Fun::Substring => cells == 2 || cells == 3,
        Fun::Concat => cells >= 2,
        _ => false,
    }
}

/// Whether the columns that an operator names are those of its inputs.
pub fn names_are_there(op: &Op, left: &[Col], right: &[Col]) -> bool
    ensures { result ≡ (has_cols left.now (named_first op.now) && has_cols right.now (named_second op.now)) }
{
    match *op {
        Op::Unit { .. } | Op::Empty { .. } | Op::Attach { .. } | Op::Union { .. } => true,
        Op::Project { pairs, .. } => has_olds(left, pairs.as_slice()),
        Op::Select { col, .. } => has(left, col),
        Op::Join {
            left_col,
            right_col,
            ..
        } => has(left, left_col) && has(right, right_col),
        Op::Difference {
            left_col,
            right_col,
            ..
        } => has(left, left_col) && has(right, right_col),
        Op::Distinct { cols, .. } => has_all(left, cols.as_slice()),
        Op::Rownum { keys, part, .. } => has_keys(left, keys.as_slice()) && has_part(left, part),
        Op::Count { group, .. } => has(left, group),
        Op::Aggregate { group, item, .. } => has(left, group) && has(left, item),
        Op::AggregateFails { group, item, .. } => has(left, group) && has(left, item),
        Op::Map { args, .. } => has_all(left, args.as_slice()),
        Op::MapFails { args, .. } => has_all(left, args.as_slice()),
        Op::Range { low, high, .. } => has(left, low) && has(left, high),
        Op::ExistsCompare {
            left_group,
            left_item,
            right_group,
            right_item,
            ..
        } => {
            has(left, left_group)
                && has(left, left_item)
                && has(right, right_group)
                && has(right, right_item)
        }
        Op::CompareFails {
            left_group,
            left_item,
            right_group,
            right_item,
            ..
        } => {
            has(left, left_group)
                && has(left, left_item)
                && has(right, right_group)
                && has(right, right_item)
        }
        Op::Step { iter, node, .. } => has(left, iter) && has(left, node),
        Op::Element {
            iter,
            pos,
            item,
            ..
        }
        | Op::Attribute {
            iter,
            pos,
            item,
            ..
        }
        | Op::Pi {
            iter,
            pos,
            item,
            ..
        } => {
            has(left, iter)
                && has(left, item)
                && has(right, iter)
                && has(right, pos)
                && has(right, item)
        }
        Op::Text {
            iter,
            pos,
            item,
            ..
        }
        | Op::Comment {
            iter,
            pos,
            item,
            ..
        }
        | Op::Document {
            iter,
            pos,
            item,
            ..
        } => { has(left, iter) && has(right, iter) && has(right, pos) && has(right, item) }
        Op::ContentFails {
            iter,
            pos,
            item,
            ..
        } => has(left, iter) && has(left, pos) && has(left, item),
    }
}

/// Whether the column of the part is there.
fn has_part(cols: &[Col], part: Option<Col>) -> bool
    ensures { result ≡ has_cols cols.now (part_cols part) }
{
    match part {
        None => true,
        Some(col) => has(cols, col),
    }
}
