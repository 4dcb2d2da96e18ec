//! For each row that was read the nearest one before it where a search for the next row of a chain ends.
ghost use Rattle.std.specs.Prelude.{◌≡◌, ◌≤◌, ◌<◌, length, slice_index_or, IfOk};
ghost use Rattle.staircase.specs.Chains.{ends_at, is_next, is_sibling, next_of, row_at, AreOrdered, Linked, Nearest};
ghost use Rattle.staircase.specs.Parts.{IsSmall};

use crate::seen::Seen;
use std::alloc::Global;
use xq_base::{Axis, Want};

/// Whether the chains of an axis lead from sibling to sibling.
fn is_sibling(axis: Axis) -> bool
    ensures { result ≡ is_sibling axis }
{
    axis == Axis::Child || axis == Axis::PrecedingSibling || axis == Axis::FollowingSibling
}

/// Whether a search from row `from` ends at row `at`, which is at an earlier place.
fn ends_at(axis: Axis, at: Seen, from: Seen) -> bool
    ensures { result ≡ ends_at axis at from }
{
    if is_sibling(axis) {
        at.level <= from.level
    } else {
        from.pre <= at.last
    }
}

/// The nearest place where a search from row `from` ends, among the places with links.
fn nearest(axis: Axis, rows: &[Seen], links: &[Option<usize>], from: Seen) -> Option<usize>
    requires links { Linked axis rows.now links.now (length links.now) }
    requires within { length links.now ≤ length rows.now }
    requires order { AreOrdered rows.now }
    ensures { Nearest axis rows.now from (length links.now) result }
{
    if links.is_empty() {
        return None;
    }
    let mut place = Some(links.len() - 1);
    loop {
        match place {
            None => {
                return None;
            }
            Some(k) => {
                if ends_at(axis, rows[k], from) {
                    return Some(k);
                }
                place = links[k];
            }
        }
    }
}

/// For each row the nearest one before it where a search for the next row of its chain ends.
pub(crate) fn links(alloc: Global, axis: Axis, rows: &[Seen]) -> Result<Vec<Option<usize>>, Want>
    requires order { AreOrdered rows.now }
    ensures { IfOk result (λ links. Linked axis rows.now links.items (length rows.now)) }
{
    let mut links = Vec::new(alloc);
    for row in rows {
        let link = nearest(axis, rows, links.as_slice(), *row);
        if links.push(link).is_err() {
            return Err(Want);
        }
    }
    Ok(links)
}

/// Whether row `at`, where a search from row `from` ended, comes next in a chain.
fn is_next(axis: Axis, at: Seen, from: Seen) -> bool
    requires at { IsSmall at }
    requires from { IsSmall from }
    ensures { result ≡ is_next axis at from }
{
    match axis {
        Axis::Parent => from.level == at.level + 1,
        Axis::Ancestor | Axis::AncestorOrSelf => true,
        Axis::PrecedingSibling => at.level == from.level && from.pre == at.last + 1,
        Axis::Child | Axis::FollowingSibling => {
            at.level == from.level && at.pre == from.last + 1
        }
        _ => false,
    }
}

/// The place that comes next to place `k` in a chain.
pub(crate) fn next_of(axis: Axis, rows: &[Seen], links: &[Option<usize>], k: usize) -> Option<usize>
    requires links { Linked axis rows.now links.now (length rows.now) }
    requires order { AreOrdered rows.now }
    requires within { k < length rows.now }
    ensures { result ≡ next_of axis rows.now links.now k }
{
    match links[k] {
        None => None,
        Some(j) => {
            if is_next(axis, rows[j], rows[k]) {
                Some(j)
            } else {
                None
            }
        }
    }
}
