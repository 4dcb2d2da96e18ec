//! The rows on the axis of the nodes of a context, among the rows that were read.
ghost use Rattle.std.specs.Prelude.{◌≡◌, ℕ, List, OnOk};
ghost use Rattle.xq_base.specs.declared.axis.NodeTest.{NodeTest};
ghost use Rattle.xq_base.specs.declared.item.TextId.{TextId};
ghost use Rattle.doc_table.specs.Tree.{Tree};
ghost use Rattle.staircase.specs.Joins.{is_chained, Ready, Stands};
ghost use Rattle.staircase.specs.Parts.{AreRows};
ghost use Rattle.staircase.specs.Tasks.{Gains};

use crate::chains::gather_chains;
use crate::hits::Hit;
use crate::kinds::Ctx;
use crate::seen::Seen;
use crate::tasks::gather_spans;
use std::alloc::Global;
use xq_base::{Axis, Want};

/// Whether the rows of an axis stand on chains.
fn is_chained(axis: Axis) -> bool
    ensures { result ≡ is_chained axis }
{
    match axis {
        Axis::Child | Axis::Parent | Axis::Ancestor | Axis::AncestorOrSelf => true,
        Axis::PrecedingSibling | Axis::FollowingSibling => true,
        _ => false,
    }
}

/// Gathers a hit for each row on the axis of a node of a context, in its iteration: of those that pass
/// the node test, or of all in iteration 0, where they are only counted.
pub(crate) fn gather(
    alloc: Global,
    axis: Axis,
    counting: bool,
    seen: &[Seen],
    context: &[Ctx],
    hits: &mut Vec<Hit>,
) -> Result<(), Want>
    requires { AreRows seen.now }
    ensures { OnOk result ((test : NodeTest) (t : Tree TextId) (rows : List ℕ) → Ready axis test t context.now rows seen.now → Gains (Stands axis test t context.now counting) hits.old.items hits.new.items) }
{
    if is_chained(axis) {
        return gather_chains(alloc, axis, counting, seen, context, hits);
    }
    gather_spans(alloc, axis, counting, seen, context, hits)
}
