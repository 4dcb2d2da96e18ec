//! Plans evaluated over the documents of a store.
#![tactic(auto)]

mod entries;
mod evaluation;
mod events;
mod fault;
mod found;
mod limit;
mod make;
mod run;
mod steps;
mod turns;
mod uses;

pub use evaluation::eval;
pub use fault::{EvalFault, Evaluated, StepTally};
