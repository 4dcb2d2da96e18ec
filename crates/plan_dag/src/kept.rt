//! The operators of a plan, each with its columns, and their sites.
ghost use Rattle.std.specs.Prelude.{ℕ, List, ◌≡◌, ◌<◌, ◌++◌, ◌∷◌, [], length, slice_get, Some, OnErr, OnOk};
ghost use Rattle.plan_dag.specs.Schema.{input_cols, site_is_new};
ghost use Rattle.plan_dag.specs.Graphs.{KeepsPlan, FitsBehind, FindsOp, Lacks, IsNewSite, ops_in, cols_in, site_list};

use crate::cols::Cols;
use crate::op::{Op, OpId};
use crate::schema::fitting;
use crate::shape::{first_input, reads_before, second_input, site};
use indexmap::{IndexMap, IndexSet};
use xq_base::{HashKeys, Want};

/// The operator of a number.
pub fn op_at(kept: &IndexMap<Op, Cols, HashKeys>, id: OpId) -> Op
    requires { id.0 < length (ops_in kept.now.entries) }
    ensures { slice_get (ops_in kept.now.entries) id.0 ≡ Some result }
{
    let (op, _cols) = kept.get_index(id.0 as usize).unwrap();
    *op
}

/// How many they are.
pub fn count(kept: &IndexMap<Op, Cols, HashKeys>) -> u64
    ensures { result ≡ length (ops_in kept.now.entries) }
{
    kept.len() as u64
}

/// The number of an operator, where it is there.
pub fn find(kept: &IndexMap<Op, Cols, HashKeys>, op: &Op) -> Option<u64>
    ensures { FindsOp (ops_in kept.now.entries) op.now result }
{
    match kept.get_index_of(op) {
        None => None,
        Some(at) => Some(at as u64),
    }
}

/// The columns of the operator of a number.
fn cols_of(kept: &IndexMap<Op, Cols, HashKeys>, id: Option<OpId>) -> Cols
    ensures { result ≡ input_cols (cols_in kept.now.entries) id }
{
    match id {
        None => Cols::new(),
        Some(at) => match kept.get_index(at.0 as usize) {
            None => Cols::new(),
            Some((_op, cols)) => *cols,
        },
    }
}

/// Whether no operator has the operator's site.
fn has_new_site(
    kept: &IndexMap<Op, Cols, HashKeys>,
    sites: &IndexSet<u32, HashKeys>,
    op: &Op,
) -> bool
    requires { KeepsPlan kept.now.entries sites.now.keys }
    ensures { result ≡ site_is_new (ops_in kept.now.entries) op.now }
{
    match site(op) {
        None => true,
        Some(wanted) => !sites.contains(&wanted),
    }
}

/// The columns of an operator that fits behind those that are kept; none exactly where it doesn't fit.
pub fn fitting_behind(
    kept: &IndexMap<Op, Cols, HashKeys>,
    sites: &IndexSet<u32, HashKeys>,
    op: &Op,
) -> Option<Cols>
    requires { KeepsPlan kept.now.entries sites.now.keys }
    ensures { FitsBehind (ops_in kept.now.entries) op.now result }
{
    if !reads_before(op, kept.len() as u64) || !has_new_site(kept, sites, op) {
        return None;
    }
    fitting(
        op,
        cols_of(kept, first_input(op)),
        cols_of(kept, second_input(op)),
    )
}

/// Adds an operator that isn't there.
pub fn put_op(kept: &mut IndexMap<Op, Cols, HashKeys>, op: Op, cols: Cols) -> Result<(), Want>
    requires { Lacks (ops_in kept.old.entries) op }
    ensures ok { OnOk result (kept.new.entries ≡ kept.old.entries ++ (op, cols) ∷ []) }
    ensures err { OnErr result (kept.new.entries ≡ kept.old.entries) }
{
    if kept.insert(op, cols).is_err() {
        return Err(Want);
    }
    Ok(())
}

/// Adds a site that isn't there, where there is one.
pub fn put_site(sites: &mut IndexSet<u32, HashKeys>, site: Option<u32>) -> Result<(), Want>
    requires { IsNewSite sites.old.keys site }
    ensures ok { OnOk result (sites.new.keys ≡ sites.old.keys ++ site_list site) }
    ensures err { OnErr result (sites.new.keys ≡ sites.old.keys) }
{
    if let Some(new) = site {
        if sites.insert(new).is_err() {
            return Err(Want);
        }
    }
    Ok(())
}

/// Takes the site back that was added last.
pub fn take_site(sites: &mut IndexSet<u32, HashKeys>, site: Option<u32>)
    ensures { (before : List ℕ) → sites.old.keys ≡ before ++ site_list site → sites.new.keys ≡ before }
{
    if site.is_some() {
        sites.pop();
    }
}
