ghost use Rattle.core_normal.specs.Laws.{BodiesMove, CallsDecide, CoresAreLawful, MadeAreLawful, OrderIsEnough, SizeIsFound};

/// The size that is found without the Core of a query is the Core's.
#[tactic(auto, using(crate::proofs::QuerySize::size_is_found))]
pub fn size_is_found()
    ensures { SizeIsFound }
{}

/// The body of a declared function made behind other variables is the one made behind none, moved.
#[tactic(auto, using(crate::proofs::Globals::bodies_move))]
pub fn bodies_move()
    ensures { BodiesMove }
{}

/// The Core of an expression depends only on the bodies of the functions that it calls.
#[tactic(auto, using(crate::proofs::CalledBodies::law))]
pub fn calls_decide()
    ensures { CallsDecide }
{}

/// Bodies that were made in an order, callees first, give the Core of a query.
#[tactic(auto)]
pub fn order_is_enough()
    ensures { OrderIsEnough }
{}

/// The Core of a query of which nothing is refused is lawful, where it isn't too large.
#[tactic(auto)]
pub fn cores_are_lawful()
    ensures { CoresAreLawful }
{}

/// A Core that the code makes of such a query is lawful, whatever texts its text numbers stand for.
#[tactic(auto)]
pub fn made_are_lawful()
    ensures { MadeAreLawful }
{}
