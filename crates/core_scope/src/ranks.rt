//! Ranks of the nodes of a graph: the numbers of its strongly connected components, each greater than those of the
//! components that it comes to (Kosaraju's algorithm). Nothing is said of how they are found: `falling_ranks` looks at them.
ghost use Rattle.std.specs.Prelude.{◌≡◌, IfOk, OnOk, length, true};
ghost use Rattle.core_scope.specs.Ranks as spec;
ghost use Rattle.core_scope.specs.Search.{targets};

use crate::search::Graph;
use std::alloc::Global;
use xq_base::Want;

/// A node to enter, or to leave behind those that it comes to.
#[derive(Clone, Copy, Debug, PartialEq, Eq)]
enum Turn {
    Enter(u64),
    Leave(u64),
}

/// A walk in depth: which nodes it has entered, where it goes next (from the last), and those it has left, in this order.
#[derive(Drop)]
struct Walk {
    entered: Vec<bool>,
    turns: Vec<Turn>,
    left: Vec<u64>,
}

/// Goes to each of these nodes, the last first.
fn go_to(nodes: &[u64], turns: &mut Vec<Turn>) -> Result<(), Want> {
    for node in nodes {
        turns.push(Turn::Enter(*node))?;
    }
    Ok(())
}

/// Enters a node, if it is there and wasn't entered.
fn enter(graph: &Graph, node: u64, walk: &mut Walk) -> Result<(), Want> {
    let at = node as usize;
    match walk.entered.get(at) {
        Some(false) => {
            walk.entered[at] = true;
            walk.turns.push(Turn::Leave(node))?;
            go_to(graph.targets(at), &mut walk.turns)
        }
        _ => Ok(()),
    }
}

/// One turn of a walk.
fn take_turn(graph: &Graph, turn: Turn, walk: &mut Walk) -> Result<(), Want> {
    match turn {
        Turn::Enter(node) => enter(graph, node, walk),
        Turn::Leave(node) => {
            walk.left.push(node)?;
            Ok(())
        }
    }
}

/// A walk that is to enter all nodes.
fn walk_to_all(alloc: Global, nodes: usize) -> Result<Walk, Want> {
    let mut turns = Vec::new(alloc);
    for node in 0..nodes {
        turns.push(Turn::Enter(node as u64))?;
    }
    Ok(Walk {
        entered: Vec::from_elem(alloc, false, nodes)?,
        turns,
        left: Vec::new(alloc),
    })
}

/// How many turns a walk to all nodes has at most: into each node from outside and by each edge, and out of each node.
fn turns_of(graph: &Graph) -> usize {
    let mut turns = 0usize;
    for node in 0..graph.len() {
        turns = turns
            .saturating_add(graph.targets(node).len())
            .saturating_add(2);
    }
    turns
}

/// The nodes in the order in which a walk in depth leaves them.
fn leaving(alloc: Global, graph: &Graph) -> Result<Vec<u64>, Want> {
    let mut walk = walk_to_all(alloc, graph.len())?;
    for _turn in 0..turns_of(graph) {
        match walk.turns.pop() {
            None => return Ok(walk.left),
            Some(turn) => take_turn(graph, turn, &mut walk)?,
        }
    }
    Ok(walk.left)
}

/// Gives a node this rank, if it is there and has none.
fn give(node: u64, rank: u64, ranks: &mut Vec<u64>, todo: &mut Vec<u64>) -> Result<(), Want>
    ensures { OnOk result (length ranks.new.items ≡ length ranks.old.items) }
{
    if let Some(0) = ranks.get(node as usize) {
        ranks[node as usize] = rank;
        todo.push(node)?;
    }
    Ok(())
}

/// Gives each of these nodes this rank, if it is there and has none.
fn give_all(nodes: &[u64], rank: u64, ranks: &mut Vec<u64>, todo: &mut Vec<u64>) -> Result<(), Want>
    ensures { OnOk result (length ranks.new.items ≡ length ranks.old.items) }
{
    for node in nodes {
        give(*node, rank, ranks, todo)?;
    }
    Ok(())
}

/// Gives a node and all that it comes to this rank, but for those that have one.
fn give_from(
    alloc: Global,
    graph: &Graph,
    node: u64,
    rank: u64,
    ranks: &mut Vec<u64>,
) -> Result<(), Want>
    ensures { OnOk result (length ranks.new.items ≡ length ranks.old.items) }
{
    let mut todo = Vec::new(alloc);
    give(node, rank, ranks, &mut todo)?;
    for _turn in 0..ranks.len() {
        match todo.pop() {
            None => return Ok(()),
            Some(next) => give_all(graph.targets(next as usize), rank, ranks, &mut todo)?,
        }
    }
    Ok(())
}

/// A rank for each node: in the graph turned round, the last node that a walk leaves comes to no component but its own
/// that isn't come to by it, so in the graph it comes to none; the next one comes to none but those that have their ranks.
///
/// Errors: `Want`, where memory is wanting.
fn ranks(alloc: Global, graph: &Graph) -> Result<Vec<u64>, Want>
    ensures { IfOk result (λ r. length r.items ≡ length graph.now) }
{
    let callers = graph.turned(alloc, graph.len())?;
    let order = leaving(alloc, &callers)?;
    let mut ranks = Vec::from_elem(alloc, 0u64, graph.len())?;
    for turn in 0..order.len() {
        let node = order[order.len() - (turn + 1)];
        give_from(alloc, graph, node, turn as u64 + 1, &mut ranks)?;
    }
    Ok(ranks)
}

/// The rank of a node; 0 where it has none. It takes no memory.
fn rank_of(ranks: &[u64], node: u64) -> u64
    ensures { result ≡ spec.rank_of ranks.now node }
{
    match ranks.get(node as usize) {
        None => 0,
        Some(rank) => *rank,
    }
}

/// Whether none of these nodes has a greater rank than this.
fn at_most(ranks: &[u64], most: u64, nodes: &[u64]) -> bool
    ensures { result ≡ spec.at_most ranks.now most nodes.now }
{
    for node in nodes {
        if rank_of(ranks, *node) > most {
            return false;
        }
    }
    true
}

/// Whether no target of any node has a greater rank than the node. It takes no memory.
fn never_rise(graph: &Graph, ranks: &[u64]) -> bool
    ensures { result ≡ true → spec.NeverRise graph.now ranks.now }
{
    for node in 0..graph.len() {
        if !at_most(ranks, rank_of(ranks, node as u64), graph.targets(node)) {
            return false;
        }
    }
    true
}

/// Whether a node has a rank, and all its targets have lesser ones. It takes no memory.
pub fn falls(graph: &Graph, ranks: &[u64], node: usize) -> bool
    ensures { result ≡ spec.falls graph.now ranks.now node }
{
    let rank = rank_of(ranks, node as u64);
    rank > 0 && at_most(ranks, rank - 1, graph.targets(node))
}

/// Ranks that never rise along a graph, in time of its size; where those that were found rise, none (then no node falls).
///
/// Errors: `Want`, where memory is wanting.
#[tactic(auto, using(crate::proofs::Falling::none_rise))]
pub fn falling_ranks(alloc: Global, graph: &Graph) -> Result<Vec<u64>, Want>
    ensures { IfOk result (λ r. spec.NeverRise graph.now r.items) }
{
    let ranks = ranks(alloc, graph)?;
    if never_rise(graph, ranks.as_slice()) {
        return Ok(ranks);
    }
    Ok(Vec::new(alloc))
}
