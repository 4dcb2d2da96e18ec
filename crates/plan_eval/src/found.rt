//! What a step finds in the documents of a store.
ghost use Rattle.std.specs.Prelude.{◌≡◌, ◌++◌, [], length, map, OnOk, IfOk, IfSome};
ghost use Rattle.doc_table.specs.Notes.{AppendsAll, notes_of};
ghost use Rattle.doc_table.specs.StoredItems.{trees_of};
ghost use Rattle.doc_table.specs.Touched.{counts, touched_rows};
ghost use Rattle.plan_eval.specs.Contexts.{sum_tally};
ghost use Rattle.plan_eval.specs.Entries.{reached_at, doc_places, kept_notes, kept_tally, AreNamed, AddsFound, AreFound, AllNamed};
ghost use Rattle.staircase.specs.Joins.{tally_of};
ghost use Rattle.xq_base.specs.declared.item.FragKey.TheVariants as f;

use crate::entries::{Reached, context};
use doc_table::{Fragment, Ledger, Reads, Store};
use staircase::{Ctx, Tally, join};
use std::alloc::Global;
use xq_base::{Axis, FragKey, NodeRef, NodeTest, Want};

/// Appends hits in the document of a rank.
fn push_hits(rank: u32, hits: &[Ctx], rows: &mut Vec<Reached>) -> Result<(), Want>
    ensures { OnOk result (rows.new.items ≡ rows.old.items ++ map (reached_at rank) hits.now) }
{
    for hit in hits {
        let node = NodeRef {
            frag: FragKey::Doc(rank),
            pre: hit.pre,
            attr: hit.attr,
        };
        if rows
            .push(Reached {
                iter: hit.iter,
                node,
            })
            .is_err()
        {
            return Err(Want);
        }
    }
    Ok(())
}

/// What a step finds in one document.
pub fn find_in<L: Ledger>(
    alloc: Global,
    frag: &Fragment,
    rank: u32,
    site: u32,
    axis: Axis,
    test: NodeTest,
    entries: &[Reached],
    rows: &mut Vec<Reached>,
    reads: &mut Reads<L>,
) -> Result<Tally, Want>
    requires { AreNamed rank frag.now entries.now }
    ensures rows { OnOk result (AddsFound axis test frag.now rank entries.now rows.old.items rows.new.items) }
    ensures notes { OnOk result (AppendsAll reads.old.notes reads.new.notes (notes_of site (f.Doc rank) (touched_rows axis frag.now (doc_places rank entries.now)))) }
    ensures refuses { reads.new.may_refuse ≡ reads.old.may_refuse }
    ensures tally { IfOk result (λ tally. tally ≡ tally_of (counts axis frag.now (doc_places rank entries.now))) }
{
    let from = context(alloc, rank, entries)?;
    let mut hits = Vec::new(alloc);
    let tally = join(
        alloc,
        frag,
        FragKey::Doc(rank),
        site,
        axis,
        test,
        from.as_slice(),
        &mut hits,
        reads,
    )?;
    push_hits(rank, hits.as_slice(), rows)?;
    Ok(tally)
}

/// The sums of four counts each.
fn sum(a: Tally, b: Tally) -> Option<Tally>
    ensures { IfSome result (λ c. c ≡ sum_tally a b) }
{
    Some(Tally {
        context: a.context.checked_add(b.context)?,
        result: a.result.checked_add(b.result)?,
        skipped: a.skipped.checked_add(b.skipped)?,
        read: a.read.checked_add(b.read)?,
    })
}

/// What a step finds in all documents of a store, by document, node and iteration.
pub fn find_all<L: Ledger>(
    alloc: Global,
    store: &Store,
    site: u32,
    axis: Axis,
    test: NodeTest,
    entries: &[Reached],
    rows: &mut Vec<Reached>,
    reads: &mut Reads<L>,
) -> Result<Tally, Want>
    requires named { AllNamed store.now entries.now }
    requires none { rows.old.items ≡ [] }
    ensures rows { OnOk result (AreFound axis test (trees_of store.now) entries.now (length store.now.docs) rows.new.items) }
    ensures notes { OnOk result (AppendsAll reads.old.notes reads.new.notes (kept_notes site axis 0 store.now.docs entries.now)) }
    ensures refuses { reads.new.may_refuse ≡ reads.old.may_refuse }
    ensures tally { IfOk result (λ tally. tally ≡ kept_tally axis 0 store.now.docs entries.now) }
{
    let mut tally = Tally {
        context: 0,
        result: 0,
        skipped: 0,
        read: 0,
    };
    for rank in 0..u32::MAX {
        let Some(frag) = store.get(FragKey::Doc(rank)) else {
            return Ok(tally);
        };
        let one = find_in(alloc, frag, rank, site, axis, test, entries, rows, reads)?;
        let Some(both) = sum(tally, one) else {
            return Err(Want);
        };
        tally = both;
    }
    Err(Want)
}
