//! Which functions call themselves, directly or through others.
ghost use Rattle.std.specs.Prelude.{◌≡◌, ◌<◌, ◌+◌, IfOk, length};
ghost use Rattle.core_scope.specs.Kinds.{IsRecursive};
ghost use Rattle.core_scope.specs.Leasts.{IsLeast};
ghost use Rattle.core_scope.specs.Ranks.{NeverRise};
ghost use Rattle.core_scope.specs.Refusals.{Comes};
ghost use Rattle.core_scope.specs.Search.{Decides, targets};

use crate::ranks::{falling_ranks, falls};
use crate::refusal::{Refusal, earlier, is_first};
use crate::search::{Graph, Search};
use std::alloc::Global;
use xq_base::{Code, Want};

/// Whether a node comes to itself.
pub fn comes_to_itself(alloc: Global, graph: &Graph, node: usize) -> Result<bool, Want>
    requires { node < length graph.now }
    ensures { IfOk result (λ b. Decides b (Comes (targets graph.now) node node)) }
{
    let mut search = Search::new(alloc, graph.len())?;
    search.mark_all(graph.targets(node))?;
    search.run(graph)?;
    Ok(search.is_marked(node))
}

/// The first refusal of a function that calls itself, of this number or one before it. No search is made where the ranks
/// fall, or where the refusal wouldn't be the first: where they are the ranks of components, one search is made at most.
fn recursive_at(
    alloc: Global,
    graph: &Graph,
    ranks: &[u64],
    offsets: &[u64],
    node: usize,
    first: Option<Refusal>,
) -> Result<Option<Refusal>, Want>
    requires inside { node < length graph.now }
    requires same { length graph.now ≡ length offsets.now }
    requires falling { NeverRise graph.now ranks.now }
    requires least { IsLeast (IsRecursive graph.now offsets.now node) first }
    ensures { IfOk result (λ o. IsLeast (IsRecursive graph.now offsets.now (node + 1)) o) }
{
    let refusal = Refusal {
        code: Code::PFRC0001,
        offset: offsets[node],
    };
    if falls(graph, ranks, node) {
        return Ok(first);
    }
    if !is_first(refusal, first) {
        return Ok(first);
    }
    if comes_to_itself(alloc, graph, node)? {
        return Ok(Some(earlier(refusal, first)));
    }
    Ok(first)
}

/// The first refusal of a function that calls itself, directly or through others (own rule).
pub fn first_recursive(
    alloc: Global,
    graph: &Graph,
    offsets: &[u64],
) -> Result<Option<Refusal>, Want>
    requires { length graph.now ≡ length offsets.now }
    ensures { IfOk result (λ o. IsLeast (IsRecursive graph.now offsets.now (length offsets.now)) o) }
{
    let ranks = falling_ranks(alloc, graph)?;
    let mut first = None;
    for node in 0..offsets.len() {
        first = recursive_at(alloc, graph, ranks.as_slice(), offsets, node, first)?;
    }
    Ok(first)
}
