//! The graphs of calls and references of the functions of a prolog.
ghost use Rattle.std.specs.Prelude.{◌≡◌, IfOk, map};
ghost use Rattle.core_scope.specs.PassedBy.{gained_in};
ghost use Rattle.core_scope.specs.Whole as spec;

use crate::found::DeclaredCall;
use crate::prolog::Gained;
use crate::search::Graph;
use std::alloc::Global;
use xq_base::Want;

/// The functions that are called.
fn called_of(alloc: Global, calls: &[DeclaredCall]) -> Result<Vec<u64>, Want>
    ensures { IfOk result (λ v. v.items ≡ map (λ c. c.function) calls.now) }
{
    let mut called = Vec::new(alloc);
    for call in calls {
        called.push(call.function as u64)?;
    }
    Ok(called)
}

/// The functions that each function calls.
pub fn calls_of(alloc: Global, functions: &[Gained]) -> Result<Graph, Want>
    ensures { IfOk result (λ g. g ≡ spec.calls_of (map gained_in functions.now)) }
{
    let mut graph = Graph::new(alloc);
    for function in functions {
        graph.push(called_of(alloc, function.calls.as_slice())?)?;
    }
    Ok(graph)
}

/// The variables of the prolog to which each function refers.
pub fn refers_of(alloc: Global, functions: &[Gained]) -> Result<Graph, Want>
    ensures { IfOk result (λ g. g ≡ spec.refers_of (map gained_in functions.now)) }
{
    let mut graph = Graph::new(alloc);
    for function in functions {
        graph.push(Vec::from_slice(alloc, function.refers.as_slice())?)?;
    }
    Ok(graph)
}

/// The places of functions.
pub fn offsets_of(alloc: Global, functions: &[Gained]) -> Result<Vec<u64>, Want>
    ensures { IfOk result (λ v. v.items ≡ spec.offsets_of (map gained_in functions.now)) }
{
    let mut offsets = Vec::new(alloc);
    for function in functions {
        offsets.push(function.offset)?;
    }
    Ok(offsets)
}
