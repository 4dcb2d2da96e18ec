//! Which calls in the values of variables of the prolog come too soon.
ghost use Rattle.std.specs.Prelude.{◌≡◌, ◌<◌, ◌∷◌, [], ℕ, IfOk, OnOk, None, false, length, map, get_or, replicate};
ghost use Rattle.std.specs.List.{Contains};
ghost use Rattle.core_scope.specs.Kinds.{IsTooSoon};
ghost use Rattle.core_scope.specs.Leasts.{IsLeast};
ghost use Rattle.core_scope.specs.Search.{targets};
ghost use Rattle.core_scope.specs.Soon as spec;

use crate::found::DeclaredCall;
use crate::refusal::{Refusal, earlier};
use crate::search::{Graph, Search};
use std::alloc::Global;
use xq_base::{Code, Want};

/// The first refusal where a call is refused if its function is marked.
fn soon_at(call: &DeclaredCall, search: &Search, first: Option<Refusal>) -> Option<Refusal>
    ensures { result ≡ spec.soon_from search.now.marked first (call.now ∷ []) }
{
    if search.is_marked(call.function as usize) {
        let refusal = Refusal {
            code: Code::XPST0008,
            offset: call.offset,
        };
        return Some(earlier(refusal, first));
    }
    first
}

/// The first refusal where calls of marked functions are refused.
fn soon_in(calls: &[DeclaredCall], search: &Search, first: Option<Refusal>) -> Option<Refusal>
    ensures { result ≡ spec.soon_from search.now.marked first calls.now }
{
    let mut first = first;
    for call in calls {
        first = soon_at(call, search, first);
    }
    first
}

/// Marks what refers to a variable, and all that comes to it.
fn stage(
    callers: &Graph,
    referrers: &Graph,
    variable: usize,
    search: &mut Search,
) -> Result<(), Want>
    ensures { OnOk result (search.new ≡ spec.stage callers.now referrers.now variable search.old) }
{
    search.mark_all(referrers.targets(variable))?;
    search.run(callers)
}

/// The first refusal of a call in the value of a variable, once what refers to it is marked.
fn soon_of(
    callers: &Graph,
    referrers: &Graph,
    values: &[Vec<DeclaredCall>],
    variable: usize,
    search: &mut Search,
    first: Option<Refusal>,
) -> Result<Option<Refusal>, Want>
    requires { variable < length values.now }
    ensures search { OnOk result (search.new ≡ spec.stage callers.now referrers.now variable search.old) }
    ensures first { IfOk result (λ o. o ≡ spec.soon_from search.new.marked first (get_or (map (λ v. v.items) values.now) variable [])) }
{
    stage(callers, referrers, variable, search)?;
    Ok(soon_in(values[variable].as_slice(), search, first))
}

/// The first refusal of a call in the value of a variable, from the last variable to the first.
#[tactic(auto, using(crate::proofs::Early::soon_turn, crate::proofs::Early::soon_end))]
fn soon(
    alloc: Global,
    callers: &Graph,
    referrers: &Graph,
    values: &[Vec<DeclaredCall>],
    nodes: usize,
) -> Result<Option<Refusal>, Want>
    ensures { IfOk result (λ o. o ≡ spec.soon callers.now referrers.now (map (λ v. v.items) values.now) (length values.now) (record { marked = replicate nodes false; todo = [] }) None) }
{
    let mut search = Search::new(alloc, nodes)?;
    let mut first = None;
    for turn in 0..values.len() {
        let variable = values.len() - (turn + 1);
        first = soon_of(callers, referrers, values, variable, &mut search, first)?;
    }
    Ok(first)
}

/// The first refusal of a call, in the value of a variable of the prolog, whose function refers to this
/// variable or a later one, itself or through calls (XQuery 1.0, section 4.14).
pub fn first_too_soon(
    alloc: Global,
    calls: &Graph,
    refers: &Graph,
    values: &[Vec<DeclaredCall>],
) -> Result<Option<Refusal>, Want>
    requires as_many { length refers.now ≡ length calls.now }
    requires bounded { (f m : ℕ) → Contains (targets refers.now f) m → m < length values.now }
    ensures { IfOk result (λ o. IsLeast (IsTooSoon calls.now refers.now (map (λ v. v.items) values.now) 0) o) }
{
    let callers = calls.turned(alloc, calls.len())?;
    let referrers = refers.turned(alloc, values.len())?;
    soon(alloc, &callers, &referrers, values, calls.len())
}
