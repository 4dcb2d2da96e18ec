//! The hits on a chain of rows.
ghost use Rattle.std.specs.Prelude.{◌≡◌, ◌<◌, [], ◌∷◌, ◌++◌, if◌then◌else◌, length, OnOk};
ghost use Rattle.staircase.specs.Chains.{is_lone_step, onward, AreOrdered, Linked, Marked, Walks};
ghost use Rattle.staircase.specs.Tasks.{hit_in, lets};

use crate::hits::Hit;
use crate::links::next_of;
use crate::seen::Seen;
use xq_base::{Axis, Want};

/// The place where a chain begins, in an iteration.
#[derive(Clone, Copy, Debug, PartialEq, Eq)]
pub(crate) struct Start {
    pub iter: u64,
    pub place: usize,
}

/// How the chain of an axis goes on from place `k`.
fn onward(axis: Axis, rows: &[Seen], links: &[Option<usize>], k: usize) -> Option<usize>
    requires links { Linked axis rows.now links.now (length rows.now) }
    requires order { AreOrdered rows.now }
    requires within { k < length rows.now }
    ensures { result ≡ onward axis rows.now links.now k }
{
    if axis == Axis::Parent {
        return None;
    }
    next_of(axis, rows, links, k)
}

/// Gathers a hit for a row, where it is wanted.
fn push_row(seen: Seen, counting: bool, iter: u64, hits: &mut Vec<Hit>) -> Result<(), Want>
    ensures { OnOk result (hits.new.items ≡ hits.old.items ++ (if lets counting seen then hit_in iter seen ∷ [] else [])) }
{
    let wanted = if counting { seen.node } else { seen.passes };
    if !wanted {
        return Ok(());
    }
    let hit = Hit {
        pre: seen.pre,
        attr: 0,
        iter,
    };
    if hits.push(hit).is_err() {
        return Err(Want);
    }
    Ok(())
}

/// Gathers a hit for each row on a chain, up to a place that is marked for its iteration: the rows
/// behind that are there already.
pub(crate) fn walk(
    axis: Axis,
    counting: bool,
    rows: &[Seen],
    links: &[Option<usize>],
    start: Start,
    marks: &mut Vec<Option<u64>>,
    hits: &mut Vec<Hit>,
) -> Result<(), Want>
    requires links { Linked axis rows.now links.now (length rows.now) }
    requires order { AreOrdered rows.now }
    requires start { start.place < length rows.now }
    requires marks { length marks.old.items ≡ length rows.now }
    ensures marks { length marks.new.items ≡ length rows.now }
    ensures walks { OnOk result (Marked (onward axis rows.now links.now) counting rows.now marks.old.items hits.old.items → Walks (onward axis rows.now links.now) counting rows.now start marks.new.items hits.old.items hits.new.items) }
{
    let mut place = Some(start.place);
    loop {
        match place {
            None => {
                return Ok(());
            }
            Some(k) => {
                if marks[k] == Some(start.iter) {
                    return Ok(());
                }
                marks[k] = Some(start.iter);
                push_row(rows[k], counting, start.iter, hits)?;
                place = onward(axis, rows, links, k);
            }
        }
    }
}
