//! A law of hits, as a call without a body.
ghost use Rattle.staircase.specs.References.{HitsAreReached};

/// The hits of a join in one iteration are, as references, exactly the nodes that the step goes to from
/// the context of this iteration.
pub fn hits_are_reached()
    ensures { HitsAreReached }
{}
