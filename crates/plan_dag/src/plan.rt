//! Plans.
ghost use Rattle.std.specs.Prelude.{◌≡◌, true, length, slice_get, Some, OnErr, OnOk, IfOk};
ghost use Rattle.plan_dag.specs.Schema.{fits, is_valid};
ghost use Rattle.plan_dag.specs.Graphs.{Adds, HasRootColumns, with_check, with_root, in_graph, empty_graph};

use crate::check::Check;
use crate::cols::Cols;
use crate::kept::{count, find, fitting_behind, op_at, put_op, put_site, take_site};
use crate::op::{Op, OpId};
use crate::shape::site;
use indexmap::{IndexMap, IndexSet};
use std::alloc::Global;
use std::marker::Model;
use xq_base::{Code, HashKeys, Want};

/// Operators whose inputs stand earlier, checks in their order, and a root. No two operators are equal.
/// Contracts see the operators, the checks and the root.
#[derive(Drop)]
pub struct Plan {
    kept: IndexMap<Op, Cols, HashKeys>,
    sites: IndexSet<u32, HashKeys>,
    checks: Vec<Check>,
    root: Option<OpId>,
}

impl Model for Plan {
    ghost use Rattle.plan_dag.specs.Meaning.{Graph};
    ghost use Rattle.plan_dag.specs.Graphs.{KeepsPlan, ops_in};

    ghost Value = { Graph };

    ghost view = { λ p. record { ops = ops_in p.kept.entries; checks = p.checks.items; root = p.root } };

    ghost invariant = { λ p. KeepsPlan p.kept.entries p.sites.keys };
}

impl Plan {
    /// A plan without operators, which finds its operators by a hash with these keys. It takes no memory.
    pub fn new(alloc: Global, keys: HashKeys) -> Plan
        ensures { result ≡ empty_graph }
    {
        Plan {
            kept: IndexMap::with_hasher(alloc, keys),
            sites: IndexSet::with_hasher(alloc, keys),
            checks: Vec::new(alloc),
            root: None,
        }
    }

    /// What a plan keeps: each operator fits behind those before it. It takes no memory.
    pub fn validity(&self)
        ensures { is_valid self.now.ops ≡ true }
    {
        let _ = &self.kept;
    }

    /// Whether the operator may be added. It takes no memory.
    pub fn fits(&self, op: &Op) -> bool
        ensures { result ≡ fits self.now.ops op.now }
    {
        fitting_behind(&self.kept, &self.sites, op).is_some()
    }

    /// Adds an operator, or gives the number of the equal one, exactly where the plan has one. A step or
    /// a constructor that fits is equal to none.
    ///
    /// Errors: `Want`, where memory is wanting; the plan is then as before.
    pub fn add(&mut self, op: Op) -> Result<OpId, Want>
        requires { fits self.old.ops op ≡ true }
        ensures ok { IfOk result (λ id. Adds self.old op id self.new) }
        ensures err { OnErr result (self.new ≡ self.old) }
    {
        if let Some(at) = find(&self.kept, &op) {
            return Ok(OpId(at));
        }
        let Some(cols) = fitting_behind(&self.kept, &self.sites, &op) else {
            return Err(Want);
        };
        let id = self.kept.len() as u64;
        put_site(&mut self.sites, site(&op))?;
        if put_op(&mut self.kept, op, cols).is_err() {
            take_site(&mut self.sites, site(&op));
            return Err(Want);
        }
        Ok(OpId(id))
    }

    /// Adds a check behind the others.
    ///
    /// Errors: `Want`, where memory is wanting; the plan is then as before.
    pub fn check(&mut self, op: OpId, code: Code, offset: u64) -> Result<(), Want>
        requires { in_graph self.old op }
        ensures ok { OnOk result (self.new ≡ with_check (record { op = op; code = code; offset = offset }) self.old) }
        ensures err { OnErr result (self.new ≡ self.old) }
    {
        if self.checks.push(Check { op, code, offset }).is_err() {
            return Err(Want);
        }
        Ok(())
    }

    /// Makes an operator the root. It takes no memory.
    pub fn set_root(&mut self, op: OpId)
        requires there { in_graph self.old op }
        requires columns { HasRootColumns self.old op }
        ensures { self.new ≡ with_root op self.old }
    {
        self.root = Some(op);
    }

    /// The operator of a number. It takes no memory.
    pub fn op(&self, id: OpId) -> Op
        requires { in_graph self.now id }
        ensures { slice_get self.now.ops id.0 ≡ Some result }
    {
        op_at(&self.kept, id)
    }

    /// The number of operators. It takes no memory.
    pub fn len(&self) -> u64
        ensures { result ≡ length self.now.ops }
    {
        count(&self.kept)
    }

    /// The checks in their order. It takes no memory.
    pub fn checks(&self) -> &[Check]
        ensures { result.now ≡ self.now.checks }
    {
        &self.checks
    }

    /// The root, where one was set. It takes no memory.
    pub fn root(&self) -> Option<OpId>
        ensures { result ≡ self.now.root }
    {
        self.root
    }
}
