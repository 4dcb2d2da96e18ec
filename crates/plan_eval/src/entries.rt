//! The context of a step.
ghost use Rattle.std.specs.Prelude.{◌≡◌, ◌++◌, [], length, OnOk, IfOk};
ghost use Rattle.plan_eval.specs.Entries.{entries_of, entry_of, hits_at, is_doc, positive};
ghost use Rattle.staircase.specs.Hits.{AppendsHits};

use staircase::{Ctx, Hit, append_hits};
use std::alloc::Global;
use xq_base::{FragKey, Item, NodeRef, Want};

/// A node in an iteration.
#[derive(Clone, Copy)]
pub struct Reached {
    pub iter: u64,
    pub node: NodeRef,
}

/// The nodes that a step starts from: those of the rows whose iteration is a positive integer.
///
/// Errors: `Want`, where memory is wanting.
pub fn entries(alloc: Global, iters: &[Item], nodes: &[Item]) -> Result<Vec<Reached>, Want>
    requires { length iters.now ≡ length nodes.now }
    ensures { IfOk result (λ out. out.items ≡ entries_of iters.now nodes.now) }
{
    let mut out = Vec::new(alloc);
    for row in 0..iters.len() {
        push_entry(iters[row], nodes[row], &mut out)?;
    }
    Ok(out)
}

/// Appends the node of a row, where the step doesn't pass the row over.
fn push_entry(iter: Item, node: Item, out: &mut Vec<Reached>) -> Result<(), Want>
    ensures { OnOk result (out.new.items ≡ out.old.items ++ entry_of iter node) }
{
    let Item::Int(number) = iter else {
        return Ok(());
    };
    let Item::Node(node) = node else {
        return Ok(());
    };
    let Some(iter) = positive(number) else {
        return Ok(());
    };
    if out.push(Reached { iter, node }).is_err() {
        return Err(Want);
    }
    Ok(())
}

/// A number that is positive.
fn positive(number: i64) -> Option<u64>
    ensures { result ≡ positive number }
{
    if number > 0 {
        Some(number as u64)
    } else {
        None
    }
}

/// Whether a fragment is the document of a rank.
fn is_doc(rank: u32, key: FragKey) -> bool
    ensures { result ≡ is_doc rank key }
{
    match key {
        FragKey::Doc(other) => other == rank,
        FragKey::Built { .. } => false,
    }
}

/// The nodes of the document of a rank.
fn hits(alloc: Global, rank: u32, entries: &[Reached]) -> Result<Vec<Hit>, Want>
    ensures { IfOk result (λ out. out.items ≡ hits_at rank entries.now) }
{
    let mut out = Vec::new(alloc);
    for entry in entries {
        if is_doc(rank, entry.node.frag) {
            let hit = Hit {
                pre: entry.node.pre,
                attr: entry.node.attr,
                iter: entry.iter,
            };
            if out.push(hit).is_err() {
                return Err(Want);
            }
        }
    }
    Ok(out)
}

/// The nodes of the document of a rank, ascending, each once in an iteration.
///
/// Errors: `Want`, where memory is wanting.
pub fn context(alloc: Global, rank: u32, entries: &[Reached]) -> Result<Vec<Ctx>, Want>
    ensures { IfOk result (λ out. AppendsHits (hits_at rank entries.now) [] out.items) }
{
    let mut hits = hits(alloc, rank, entries)?;
    let mut out = Vec::new(alloc);
    append_hits(&mut hits, &mut out)?;
    Ok(out)
}
