//! Reading the rows of a step on parent, ancestor, ancestor-or-self and both sibling axes.
ghost use Rattle.std.specs.Prelude.{◌≡◌, ◌<◌, ◌^◌, true, length, map, IfOk};
ghost use Rattle.doc_table.specs.Enc.{enc};
ghost use Rattle.doc_table.specs.Notes.{Reading};
ghost use Rattle.doc_table.specs.Touched.{touched_rows};
ghost use Rattle.staircase.specs.Hits.{Ascending};
ghost use Rattle.staircase.specs.Joins.{adds_siblings, is_near, own, places, AreNodes};
ghost use Rattle.staircase.specs.Seen.{seen_of};

use crate::ahead::Ahead;
use crate::frames::Frames;
use crate::kinds::Ctx;
use crate::near::Near;
use crate::read::read_rows;
use crate::seen::Seen;
use doc_table::{Ledger, Reads, Rows};
use std::alloc::Global;
use xq_base::{Axis, FragKey, NodeTest, Want};

/// Whether a step reads the siblings after the rows of its context as well.
fn adds_siblings(axis: Axis) -> bool
    ensures { result ≡ adds_siblings axis }
{
    axis == Axis::FollowingSibling
}

/// Reads the rows of a step on parent, ancestor, ancestor-or-self, preceding-sibling or
/// following-sibling.
pub(crate) fn read_near<R: Rows, L: Ledger>(
    alloc: Global,
    rows: &R,
    frag: FragKey,
    site: u32,
    axis: Axis,
    test: NodeTest,
    found: &[u32],
    context: &[Ctx],
    reads: &mut Reads<L>,
) -> Result<Vec<Seen>, Want>
    requires axis { is_near axis ≡ true }
    requires found { found.now ≡ own axis context.now }
    requires few { length (enc (R.tree rows.now)) < 2 ^ 32 }
    requires ascending { Ascending context.now }
    requires nodes { AreNodes (R.tree rows.now) context.now }
    ensures notes { Reading reads.old.notes reads.new.notes site frag (touched_rows axis (R.tree rows.now) (places context.now)) result }
    ensures refuses { reads.new.may_refuse ≡ reads.old.may_refuse }
    ensures seen { IfOk result (λ seen. seen.items ≡ map (seen_of axis test (R.tree rows.now)) (touched_rows axis (R.tree rows.now) (places context.now))) }
{
    let siblings = adds_siblings(axis);
    let mut pass = Near {
        ahead: Ahead {
            rows: found,
            next: 0,
        },
        siblings,
        parents: Frames::new(alloc),
        at: 0,
    };
    read_rows(alloc, rows, frag, site, axis, test, &mut pass, reads)
}
