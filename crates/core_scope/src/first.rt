//! The first of all refusals of a query.
ghost use Rattle.std.specs.Prelude.{◌≡◌, ◌<◌, ℕ, IfOk, None, length, map};
ghost use Rattle.std.specs.List.{Contains};
ghost use Rattle.core_scope.specs.Erasure.{version_of};
ghost use Rattle.core_scope.specs.Leasts.{IsLeast};
ghost use Rattle.core_scope.specs.Leaves.{query_read, read_leaves};
ghost use Rattle.core_scope.specs.PassedBy.{gained_in};
ghost use Rattle.core_scope.specs.Prolog as prolog;
ghost use Rattle.core_scope.specs.Refusals.{IsRefusal, first_from};
ghost use Rattle.core_scope.specs.Search.{targets};
ghost use Rattle.core_scope.specs.Whole as spec;
ghost use Rattle.xq_ast.specs.declared.node.AsRead.{AsRead};

use crate::built_ins::same;
use crate::found::DeclaredCall;
use crate::graphs::{calls_of, offsets_of, refers_of};
use crate::prolog::{Gained, Gathered, functions_of, pass_all, with_body};
use crate::recursion::first_recursive;
use crate::refusal::{Refusal, earlier, first_of_two};
use crate::soon::first_too_soon;
use sqlite_items::Items;
use std::alloc::Global;
use xq_ast::query::{ReadQuery, Version};
use xq_base::{Code, Want};

/// What the version of a query refuses.
fn version_amiss(version: &Option<Version<Items<u8>>>) -> Option<Refusal>
    ensures { result ≡ first_from None (prolog.version_refusals (version_of read_leaves AsRead version.now)) }
{
    match version {
        None => None,
        Some(version) => {
            if same(version.version.text.as_slice(), b"1.0") {
                return None;
            }
            Some(Refusal {
                code: Code::XQST0031,
                offset: version.version.offset,
            })
        }
    }
}

/// What the declarations of boundary space refuse, behind a first refusal.
#[tactic(auto, using(crate::proofs::Wholes::setters_start))]
fn setters_amiss(setters: &[u64], first: Option<Refusal>) -> Option<Refusal>
    ensures { result ≡ first_from first (prolog.setter_refusals setters.now) }
{
    let mut first = first;
    for at in 1..setters.len() {
        let refusal = Refusal {
            code: Code::XQST0068,
            offset: setters[at],
        };
        first = Some(earlier(refusal, first));
    }
    first
}

/// What is found of a query.
fn gathered_of(alloc: Global, query: &ReadQuery) -> Result<Gathered, Want>
    ensures { IfOk result (λ g. g ≡ spec.gathered_of (query_read query.now)) }
{
    let declarations = query.prolog.declarations.as_slice();
    let functions = functions_of(alloc, declarations)?;
    let outer = setters_amiss(
        query.prolog.setters.as_slice(),
        version_amiss(&query.version),
    );
    let passed = pass_all(alloc, declarations, &functions, outer)?;
    with_body(&query.body, &functions, passed)
}

/// The first refusal of recursion, or of a call that comes too soon.
#[tactic(auto, using(crate::proofs::Gathers::calls_length, crate::proofs::Gathers::refers_length))]
fn refusal_by_calls(
    alloc: Global,
    functions: &[Gained],
    values: &[Vec<DeclaredCall>],
) -> Result<Option<Refusal>, Want>
    requires { (f m : ℕ) → Contains (targets (spec.refers_of (map gained_in functions.now)) f) m → m < length values.now }
    ensures { IfOk result (λ o. IsLeast (spec.IsByCalls (map gained_in functions.now) (map (λ v. v.items) values.now)) o) }
{
    let calls = calls_of(alloc, functions)?;
    let offsets = offsets_of(alloc, functions)?;
    let recursive = first_recursive(alloc, &calls, offsets.as_slice())?;
    let refers = refers_of(alloc, functions)?;
    let soon = first_too_soon(alloc, &calls, &refers, values)?;
    Ok(first_of_two(recursive, soon))
}

/// The first refusal of a query by scope, and none where nothing is refused (XQuery 1.0, sections 2.5, 3.1,
/// 3.7, 3.8, 3.11, 3.12 and 4). The first is the one of the least offset, and at one offset the first in the
/// order of codes (own rule).
///
/// Errors: `Want`, where memory is wanting.
pub fn first_refusal(alloc: Global, query: &ReadQuery) -> Result<Option<Refusal>, Want>
    ensures { IfOk result (λ o. IsLeast (IsRefusal (query_read query.now)) o) }
{
    let gathered = gathered_of(alloc, query)?;
    let by_calls = refusal_by_calls(
        alloc,
        gathered.functions.as_slice(),
        gathered.variables.as_slice(),
    )?;
    Ok(first_of_two(gathered.first, by_calls))
}
