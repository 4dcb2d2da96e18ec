//! How the tests take a step, and what it noted.
ghost use Rattle.std.specs.Prelude.{◌≡◌};
ghost use Rattle.staircase.specs.Hits.{Ascending};
ghost use Rattle.staircase.specs.Joins.{AreNodes};

use doc_table::{Fragment, Note, NoteList, Reads};
use staircase::{Ctx, Tally, join};
use std::alloc::Global;
use std::process::Abort;
use xq_base::{Axis, FragKey, NodeTest, Want};

/// The node of a row, or an attribute of it, in an iteration.
pub(crate) fn ctx(iter: u64, pre: u32, attr: u32) -> Ctx
    ensures { result ≡ record { iter = iter; pre = pre; attr = attr } }
{
    Ctx { iter, pre, attr }
}

/// The step over document 0 at site 7.
pub(crate) fn take_step(
    alloc: Global,
    tree: &Fragment,
    axis: Axis,
    test: NodeTest,
    context: &[Ctx],
    out: &mut Vec<Ctx>,
    reads: &mut Reads<NoteList>,
) -> Result<Tally, Want>
    requires ascending { Ascending context.now }
    requires nodes { AreNodes tree.now context.now }
{
    join(
        alloc,
        tree,
        FragKey::Doc(0),
        7,
        axis,
        test,
        context,
        out,
        reads,
    )
}

/// Compares what a step noted with the rows that it was to read.
pub(crate) fn compare_notes(rt: &impl Abort, axis: Axis, notes: &[Note], rows: &[u32]) {
    assert_eq!(rt; notes.len(), rows.len(), "{axis:?}");
    for (note, row) in notes.iter().zip(rows) {
        assert_eq!(rt;
            (note.site, note.frag, note.pre),
            (7, FragKey::Doc(0), *row),
            "{axis:?}"
        );
    }
}
