//! Reading the rows of a step, by its axis.
ghost use Rattle.std.specs.Prelude.{◌≡◌, ◌<◌, ◌^◌, true, length, map, IfOk};
ghost use Rattle.doc_table.specs.Enc.{enc};
ghost use Rattle.doc_table.specs.Notes.{Reading};
ghost use Rattle.doc_table.specs.Touched.{touched_rows};
ghost use Rattle.staircase.specs.Hits.{Ascending};
ghost use Rattle.staircase.specs.Joins.{end_of, is_down, is_own, own, places, AreNodes};
ghost use Rattle.staircase.specs.Seen.{seen_of};

use crate::after::After;
use crate::ahead::Ahead;
use crate::before::Before;
use crate::context::context_rows;
use crate::down::Down;
use crate::frames::Frames;
use crate::kids::Kids;
use crate::kinds::Ctx;
use crate::own::Own;
use crate::read::read_rows;
use crate::seen::Seen;
use doc_table::{Ledger, Reads, Rows};
use std::alloc::Global;
use xq_base::{Axis, FragKey, NodeTest, Want};

/// The number after that of the last row, or 0 where there is no row.
fn end_of(rows: &[u32]) -> u32
    ensures { result ≡ end_of rows.now }
{
    let mut end: u32 = 0;
    for row in rows {
        end = end.max(row.saturating_add(1));
    }
    end
}

/// Reads the rows of a step on self or attribute.
pub(crate) fn read_own<R: Rows, L: Ledger>(
    alloc: Global,
    rows: &R,
    frag: FragKey,
    site: u32,
    axis: Axis,
    test: NodeTest,
    found: &[u32],
    context: &[Ctx],
    reads: &mut Reads<L>,
) -> Result<Vec<Seen>, Want>
    requires axis { is_own axis ≡ true }
    requires found { found.now ≡ own axis context.now }
    requires few { length (enc (R.tree rows.now)) < 2 ^ 32 }
    requires ascending { Ascending context.now }
    requires nodes { AreNodes (R.tree rows.now) context.now }
    ensures notes { Reading reads.old.notes reads.new.notes site frag (touched_rows axis (R.tree rows.now) (places context.now)) result }
    ensures refuses { reads.new.may_refuse ≡ reads.old.may_refuse }
    ensures seen { IfOk result (λ seen. seen.items ≡ map (seen_of axis test (R.tree rows.now)) (touched_rows axis (R.tree rows.now) (places context.now))) }
{
    let mut pass = Own {
        ahead: Ahead {
            rows: found,
            next: 0,
        },
    };
    read_rows(alloc, rows, frag, site, axis, test, &mut pass, reads)
}

/// Reads the rows of a step on descendant or descendant-or-self.
pub(crate) fn read_down<R: Rows, L: Ledger>(
    alloc: Global,
    rows: &R,
    frag: FragKey,
    site: u32,
    axis: Axis,
    test: NodeTest,
    found: &[u32],
    context: &[Ctx],
    reads: &mut Reads<L>,
) -> Result<Vec<Seen>, Want>
    requires axis { is_down axis ≡ true }
    requires found { found.now ≡ own axis context.now }
    requires few { length (enc (R.tree rows.now)) < 2 ^ 32 }
    requires ascending { Ascending context.now }
    requires nodes { AreNodes (R.tree rows.now) context.now }
    ensures notes { Reading reads.old.notes reads.new.notes site frag (touched_rows axis (R.tree rows.now) (places context.now)) result }
    ensures refuses { reads.new.may_refuse ≡ reads.old.may_refuse }
    ensures seen { IfOk result (λ seen. seen.items ≡ map (seen_of axis test (R.tree rows.now)) (touched_rows axis (R.tree rows.now) (places context.now))) }
{
    let mut pass = Down {
        ahead: Ahead {
            rows: found,
            next: 0,
        },
        reach: 0,
    };
    read_rows(alloc, rows, frag, site, axis, test, &mut pass, reads)
}

/// Reads the rows of a step on preceding.
pub(crate) fn read_before<R: Rows, L: Ledger>(
    alloc: Global,
    rows: &R,
    frag: FragKey,
    site: u32,
    axis: Axis,
    test: NodeTest,
    found: &[u32],
    context: &[Ctx],
    reads: &mut Reads<L>,
) -> Result<Vec<Seen>, Want>
    requires axis { axis ≡ Axis.Preceding }
    requires found { found.now ≡ own axis context.now }
    requires few { length (enc (R.tree rows.now)) < 2 ^ 32 }
    requires ascending { Ascending context.now }
    requires nodes { AreNodes (R.tree rows.now) context.now }
    ensures notes { Reading reads.old.notes reads.new.notes site frag (touched_rows axis (R.tree rows.now) (places context.now)) result }
    ensures refuses { reads.new.may_refuse ≡ reads.old.may_refuse }
    ensures seen { IfOk result (λ seen. seen.items ≡ map (seen_of axis test (R.tree rows.now)) (touched_rows axis (R.tree rows.now) (places context.now))) }
{
    let mut pass = Before { end: end_of(found) };
    read_rows(alloc, rows, frag, site, axis, test, &mut pass, reads)
}

/// Reads the rows of a step on following.
pub(crate) fn read_after<R: Rows, L: Ledger>(
    alloc: Global,
    rows: &R,
    frag: FragKey,
    site: u32,
    axis: Axis,
    test: NodeTest,
    found: &[u32],
    context: &[Ctx],
    reads: &mut Reads<L>,
) -> Result<Vec<Seen>, Want>
    requires axis { axis ≡ Axis.Following }
    requires found { found.now ≡ own axis context.now }
    requires few { length (enc (R.tree rows.now)) < 2 ^ 32 }
    requires ascending { Ascending context.now }
    requires nodes { AreNodes (R.tree rows.now) context.now }
    ensures notes { Reading reads.old.notes reads.new.notes site frag (touched_rows axis (R.tree rows.now) (places context.now)) result }
    ensures refuses { reads.new.may_refuse ≡ reads.old.may_refuse }
    ensures seen { IfOk result (λ seen. seen.items ≡ map (seen_of axis test (R.tree rows.now)) (touched_rows axis (R.tree rows.now) (places context.now))) }
{
    let owners = context_rows(alloc, false, true, context)?;
    let mut pass = After {
        ahead: Ahead {
            rows: found,
            next: 0,
        },
        owners: Ahead {
            rows: owners.as_slice(),
            next: 0,
        },
        beyond: u32::MAX,
    };
    read_rows(alloc, rows, frag, site, axis, test, &mut pass, reads)
}

/// Reads the rows of a step on child.
pub(crate) fn read_kids<R: Rows, L: Ledger>(
    alloc: Global,
    rows: &R,
    frag: FragKey,
    site: u32,
    axis: Axis,
    test: NodeTest,
    found: &[u32],
    context: &[Ctx],
    reads: &mut Reads<L>,
) -> Result<Vec<Seen>, Want>
    requires axis { axis ≡ Axis.Child }
    requires found { found.now ≡ own axis context.now }
    requires few { length (enc (R.tree rows.now)) < 2 ^ 32 }
    requires ascending { Ascending context.now }
    requires nodes { AreNodes (R.tree rows.now) context.now }
    ensures notes { Reading reads.old.notes reads.new.notes site frag (touched_rows axis (R.tree rows.now) (places context.now)) result }
    ensures refuses { reads.new.may_refuse ≡ reads.old.may_refuse }
    ensures seen { IfOk result (λ seen. seen.items ≡ map (seen_of axis test (R.tree rows.now)) (touched_rows axis (R.tree rows.now) (places context.now))) }
{
    let mut pass = Kids {
        ahead: Ahead {
            rows: found,
            next: 0,
        },
        frames: Frames::new(alloc),
    };
    read_rows(alloc, rows, frag, site, axis, test, &mut pass, reads)
}
