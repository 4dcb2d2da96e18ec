//! The one pass over a fragment's rows in which a join reads all that it touches.
ghost use Rattle.std.specs.Prelude.{◌≡◌, ◌+◌, ◌<◌, ◌≤◌, ◌-◌, ◌^◌, ℕ, Bool, true, length, map, OnOk, IfOk};
ghost use Rattle.xq_base.specs.declared.item.TextId.{TextId};
ghost use Rattle.doc_table.specs.Tree.{Tree};
ghost use Rattle.doc_table.specs.Enc.{enc};
ghost use Rattle.doc_table.specs.Notes.{Reading};
ghost use Rattle.doc_table.specs.Touched.{picked};
ghost use Rattle.staircase.specs.Passes.{NextIs};
ghost use Rattle.staircase.specs.Seen.{seen_of, IsRowOf};

use crate::seen::{Seen, seen_row};
use doc_table::{Ledger, Reads, Rows};
use std::alloc::Global;
use xq_base::{Axis, FragKey, NodeTest, Want};

/// Which rows a join reads.
pub(crate) trait Pass {
    /// Whether it reads a row of this tree.
    ghost wants: { Self → Tree TextId → ℕ → Bool };

    /// What it knows once all rows below this number are done.
    ghost knows: { Self → Tree TextId → ℕ → Type 0 };

    /// The next row to read, at or after row `from` of `total` rows.
    fn next(&mut self, from: u32, total: u32) -> Option<u32>
        ensures same { (t : Tree TextId) (v : ℕ) → wants self.new t v ≡ wants self.old t v }
        ensures next { (t : Tree TextId) → length (enc t) ≡ total → knows self.old t from → NextIs (wants self.old t) (knows self.new t) from total result };

    /// Takes note of a row that was read.
    fn enter(&mut self, seen: Seen) -> Result<(), Want>
        requires last { seen.last < 2 ^ 32 - 1 }
        requires pre { seen.pre ≤ seen.last }
        ensures same { (t : Tree TextId) (v : ℕ) → wants self.new t v ≡ wants self.old t v }
        ensures knows { OnOk result ((t : Tree TextId) → seen.pre < length (enc t) → wants self.old t seen.pre ≡ true → IsRowOf t seen → knows self.old t seen.pre → knows self.new t (seen.pre + 1)) };
}

/// Reads the rows that a pass wants, ascending, each once.
pub(crate) fn read_rows<R: Rows, L: Ledger, P: Pass>(
    alloc: Global,
    rows: &R,
    frag: FragKey,
    site: u32,
    axis: Axis,
    test: NodeTest,
    pass: &mut P,
    reads: &mut Reads<L>,
) -> Result<Vec<Seen>, Want>
    requires knows { P.knows pass.old (R.tree rows.now) 0 }
    ensures notes { Reading reads.old.notes reads.new.notes site frag (picked (P.wants pass.old (R.tree rows.now)) (length (enc (R.tree rows.now)))) result }
    ensures refuses { reads.new.may_refuse ≡ reads.old.may_refuse }
    ensures seen { IfOk result (λ seen. seen.items ≡ map (seen_of axis test (R.tree rows.now)) (picked (P.wants pass.old (R.tree rows.now)) (length (enc (R.tree rows.now))))) }
{
    let total = rows.len();
    let mut seen = Vec::new(alloc);
    let mut from = 0;
    loop {
        match pass.next(from, total) {
            None => return Ok(seen),
            Some(at) => {
                let row = rows.row(at, site, frag, reads)?;
                let one = seen_row(axis, test, at, row);
                if seen.push(one).is_err() {
                    return Err(Want);
                }
                pass.enter(one)?;
                from = at + 1;
            }
        }
    }
}
