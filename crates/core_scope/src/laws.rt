//! Laws of scope.
ghost use Rattle.core_scope.specs.Refusals.{OneScoping};

/// Scope gives a query its resolved form or its first refusal, never both, and one of each.
#[tactic(auto, using(crate::proofs::OneScoping::one_scoping))]
pub fn one_scoping()
    ensures { OneScoping }
{}
