//! The rows of a context.
ghost use Rattle.std.specs.Prelude.{◌≡◌, ◌++◌, ◌∷◌, [], ◌&&◌, None, Some, if◌then◌else◌, OnOk, IfOk};
ghost use Rattle.doc_table.specs.Touched.{adds_owner};
ghost use Rattle.staircase.specs.Joins.{is_after, is_wanted, rows_from};

use crate::kinds::Ctx;
use std::alloc::Global;
use xq_base::{Axis, Want};

/// Whether an attribute in the context adds its owner's row to those that a step reads.
pub(crate) fn adds_owner(axis: Axis) -> bool
    ensures { result ≡ adds_owner axis }
{
    match axis {
        Axis::SelfNode | Axis::Attribute | Axis::Parent | Axis::Ancestor => true,
        Axis::AncestorOrSelf | Axis::Following | Axis::Preceding => true,
        Axis::Child | Axis::Descendant | Axis::DescendantOrSelf => false,
        Axis::FollowingSibling | Axis::PrecedingSibling => false,
    }
}

/// Whether a node is of those that are wanted: rows, or attributes.
fn is_wanted(rows: bool, owners: bool, ctx: Ctx) -> bool
    ensures { result ≡ is_wanted rows owners ctx }
{
    if ctx.attr == 0 { rows } else { owners }
}

/// Appends the row of a node, where it is wanted and isn't the last one.
fn push_row(wanted: bool, last: Option<u32>, pre: u32, found: &mut Vec<u32>) -> Result<(), Want>
    ensures { OnOk result (found.new.items ≡ found.old.items ++ (if wanted && is_after last pre then pre ∷ [] else [])) }
{
    if wanted && last != Some(pre) && found.push(pre).is_err() {
        return Err(Want);
    }
    Ok(())
}

/// The rows of the nodes of a context, ascending, each once: of those that are rows, of those that are
/// attributes, or of both.
pub(crate) fn context_rows(
    alloc: Global,
    rows: bool,
    owners: bool,
    context: &[Ctx],
) -> Result<Vec<u32>, Want>
    ensures { IfOk result (λ found. found.items ≡ rows_from rows owners None context.now) }
{
    let mut found = Vec::new(alloc);
    let mut last = None;
    for ctx in context {
        let wanted = is_wanted(rows, owners, *ctx);
        push_row(wanted, last, ctx.pre, &mut found)?;
        last = if wanted { Some(ctx.pre) } else { last };
    }
    Ok(found)
}
