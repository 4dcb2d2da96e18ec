//! From a resolved query to its Core.
#![tactic(auto)]

mod bind_refs;
mod binds;
mod bodies;
mod calling;
mod calls;
mod contents;
mod copies;
mod fault;
mod fun_sizes;
mod knot;
mod laws;
mod leaves;
mod limits;
mod lists;
mod loops;
mod make;
mod maker;
mod norm;
mod normalising;
mod order;
mod pieces;
mod places;
mod prolog;
mod singles;
mod sized;
mod sizes;
mod sorting;
mod steps;
mod templates;
mod vars;

pub use fault::NormFault;
pub use laws::{
    bodies_move, calls_decide, cores_are_lawful, made_are_lawful, order_is_enough, size_is_found,
};
pub use limits::{CoreSize, measure};
pub use normalising::normalise;
