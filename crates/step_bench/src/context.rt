//! The context of the steps: every second row, in two iterations.
ghost use Rattle.std.specs.Prelude.{◌≡◌, ◌++◌, false, length, OnOk, IfOk};
ghost use Rattle.doc_table.specs.Enc.{enc};
ghost use Rattle.doc_table.specs.Places.{is_lone};
ghost use Rattle.staircase.specs.Hits.{Ascending};
ghost use Rattle.staircase.specs.Joins.{AreNodes};
ghost use Rattle.step_bench.specs.Context.{both, every_second};

use doc_table::{Fragment, Rows};
use staircase::Ctx;
use std::alloc::Global;
use xq_base::Want;

/// Appends a row in the iterations 0 and 1.
fn push_row(pre: u32, context: &mut Vec<Ctx>) -> Result<(), Want>
    ensures { OnOk result (context.new.items ≡ context.old.items ++ both pre) }
{
    context.push(Ctx {
        iter: 0,
        pre,
        attr: 0,
    })?;
    context.push(Ctx {
        iter: 1,
        pre,
        attr: 0,
    })?;
    Ok(())
}

/// The rows 2, 4, 6 and so on below a number, in the iterations 0 and 1.
#[tactic(auto, using(crate::proofs::EverySecond::one_more_row))]
fn rows_below(alloc: Global, total: u32) -> Result<Vec<Ctx>, Want>
    ensures { IfOk result (λ context. context.items ≡ every_second total) }
{
    let mut context = Vec::new(alloc);
    for k in 0..total.saturating_sub(1) / 2 {
        push_row(2 * k + 2, &mut context)?;
    }
    Ok(context)
}

/// The rows 2, 4, 6 and so on of a tree, in the iterations 0 and 1: an ascending context of its nodes.
#[tactic(auto, using(crate::proofs::EverySecond::second_ascend, crate::proofs::EverySecond::second_named))]
pub fn context_of(alloc: Global, tree: &Fragment) -> Result<Vec<Ctx>, Want>
    requires { is_lone tree.now ≡ false }
    ensures rows { IfOk result (λ context. context.items ≡ every_second (length (enc tree.now))) }
    ensures ascending { IfOk result (λ context. Ascending context.items) }
    ensures nodes { IfOk result (λ context. AreNodes tree.now context.items) }
{
    rows_below(alloc, tree.len())
}
