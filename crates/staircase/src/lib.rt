//! The step of a path over one fragment, for all iterations at once: a context and a fragment's rows go
//! in, the nodes on an axis come out.
#![tactic(auto)]

mod after;
mod ahead;
mod attributes;
mod before;
mod chain;
mod chains;
mod context;
mod count;
mod down;
mod frames;
mod gather;
mod hits;
mod kids;
mod kinds;
mod laws;
mod links;
mod near;
mod near_reads;
mod own;
mod part;
mod read;
mod reads;
mod seen;
mod step;
mod task;
mod tasks;
mod test;

pub use hits::{Hit, append_hits};
pub use kinds::{Ctx, Tally};
pub use laws::hits_are_reached;
pub use step::join;
