//! Which nodes of a graph are come to.
ghost use Rattle.std.specs.Prelude.{◌≡◌, ◌++◌, ◌∷◌, [], OnOk, IfOk, MatchOption, ◌<◌, map, length, get_or, set, replicate, false};
ghost use Rattle.core_scope.specs.Search as spec;

use std::alloc::Global;
use std::marker::Model;
use xq_base::Want;

/// The targets of each node.
#[derive(Drop)]
pub struct Graph {
    targets: Vec<Vec<u64>>,
}

impl Model for Graph {
    ghost use Rattle.std.specs.Prelude.{List, ℕ, map};

    ghost Value = { List (List ℕ) };

    ghost view = { λ g. map (λ v. v.items) g.targets.items };
}

impl Graph {
    /// No node. It takes no memory.
    pub fn new(alloc: Global) -> Graph
        ensures { result ≡ [] }
    {
        Graph {
            targets: Vec::new(alloc),
        }
    }

    /// So many nodes without targets.
    ///
    /// Errors: `Want`, where memory is wanting.
    pub fn with_nodes(alloc: Global, nodes: usize) -> Result<Graph, Want>
        ensures { IfOk result (λ g. g ≡ replicate nodes []) }
    {
        let mut graph = Graph::new(alloc);
        for _node in 0..nodes {
            graph.push(Vec::new(alloc))?;
        }
        Ok(graph)
    }

    /// A node more, with its targets.
    ///
    /// Errors: `Want`, where memory is wanting.
    pub fn push(&mut self, targets: Vec<u64>) -> Result<(), Want>
        ensures { OnOk result (self.new ≡ self.old ++ targets.items ∷ []) }
    {
        self.targets.push(targets)?;
        Ok(())
    }

    /// How many nodes there are. It takes no memory.
    pub fn len(&self) -> usize
        ensures { result ≡ length self.now }
    {
        self.targets.len()
    }

    /// The targets of a node; none where it isn't there. It takes no memory.
    pub fn targets(&self, node: usize) -> &[u64]
        ensures { result.now ≡ get_or self.now node [] }
    {
        match self.targets.get(node) {
            Some(v) => v.as_slice(),
            None => &[],
        }
    }

    /// A target more of a node, if the node is there.
    ///
    /// Errors: `Want`, where memory is wanting.
    fn add(&mut self, node: u64, target: u64) -> Result<(), Want>
        ensures { OnOk result (self.new ≡ spec.added node target self.old) }
    {
        add_target(&mut self.targets, node as usize, target)
    }

    /// A target more of some nodes.
    ///
    /// Errors: `Want`, where memory is wanting.
    fn add_to(&mut self, target: u64, nodes: &[u64]) -> Result<(), Want>
        ensures { OnOk result (self.new ≡ spec.add_to target nodes.now self.old) }
    {
        for node in nodes {
            self.add(*node, target)?;
        }
        Ok(())
    }

    /// The graph of so many nodes in which each target has those whose target it is.
    ///
    /// Errors: `Want`, where memory is wanting.
    #[tactic(auto, using(crate::proofs::Turning::turned_turn, crate::proofs::Turning::turned_end))]
    pub fn turned(&self, alloc: Global, nodes: usize) -> Result<Graph, Want>
        ensures { IfOk result (λ r. r ≡ spec.turned nodes self.now) }
    {
        let mut turned = Graph::with_nodes(alloc, nodes)?;
        for node in 0..self.len() {
            turned.add_to(node as u64, self.targets(node))?;
        }
        Ok(turned)
    }
}

/// A target more of a node, if the node is there.
fn add_target(all: &mut Vec<Vec<u64>>, node: usize, target: u64) -> Result<(), Want>
    ensures { OnOk result (map (λ v. v.items) all.new.items ≡ set (map (λ v. v.items) all.old.items) node (get_or (map (λ v. v.items) all.old.items) node [] ++ target ∷ [])) }
{
    match all.get_mut(node) {
        Some(v) => {
            v.push(target)?;
            Ok(())
        }
        None => Ok(()),
    }
}

/// What is marked, and which of the marked still have targets to be marked.
#[derive(Drop)]
pub struct Search {
    marked: Vec<bool>,
    todo: Vec<u64>,
}

impl Model for Search {
    ghost use Rattle.std.specs.Prelude.{reverse};
    ghost use Rattle.core_scope.specs.Search as spec;

    ghost Value = { spec.Search };

    ghost view = { λ s. record { marked = s.marked.items; todo = reverse s.todo.items } };
}

impl Search {
    /// Nothing is marked.
    ///
    /// Errors: `Want`, where memory is wanting.
    pub fn new(alloc: Global, nodes: usize) -> Result<Search, Want>
        ensures { IfOk result (λ s. s ≡ record { marked = replicate nodes false; todo = [] }) }
    {
        Ok(Search {
            marked: Vec::from_elem(alloc, false, nodes)?,
            todo: Vec::new(alloc),
        })
    }

    /// Whether a node is marked. It takes no memory.
    pub fn is_marked(&self, node: usize) -> bool
        ensures { result ≡ get_or self.now.marked node false }
    {
        match self.marked.get(node) {
            Some(m) => *m,
            None => false,
        }
    }

    /// Marks a node.
    ///
    /// Errors: `Want`, where memory is wanting.
    pub fn mark(&mut self, node: u64) -> Result<(), Want>
        ensures { OnOk result (self.new ≡ spec.mark node self.old) }
    {
        if let Some(m) = self.marked.get_mut(node as usize) {
            if !*m {
                *m = true;
                self.todo.push(node)?;
            }
        }
        Ok(())
    }

    /// Marks some nodes.
    ///
    /// Errors: `Want`, where memory is wanting.
    pub fn mark_all(&mut self, nodes: &[u64]) -> Result<(), Want>
        ensures { OnOk result (self.new ≡ spec.mark_all nodes.now self.old) }
    {
        for node in nodes {
            self.mark(*node)?;
        }
        Ok(())
    }

    /// The latest marked node whose targets are to be marked.
    fn next(&mut self) -> Option<u64>
        ensures { MatchOption result ((self.old.todo ≡ []) × (self.new ≡ self.old)) (λ f. (self.old.todo ≡ f ∷ self.new.todo) × (self.new.marked ≡ self.old.marked)) }
    {
        self.todo.pop()
    }

    /// Marks what the marked nodes come to.
    ///
    /// Errors: `Want`, where memory is wanting.
    pub fn run(&mut self, graph: &Graph) -> Result<(), Want>
        ensures { OnOk result (self.new ≡ spec.searched graph.now (length self.old.marked) self.old) }
    {
        for _turn in 0..self.marked.len() {
            match self.next() {
                None => return Ok(()),
                Some(f) => self.mark_all(graph.targets(f as usize))?,
            }
        }
        Ok(())
    }
}
