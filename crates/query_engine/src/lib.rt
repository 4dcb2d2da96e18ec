//! From the text of a query to the bytes of its answer: reading, scope, normalisation, types, evaluation.
//! A query that the static rules refuse has no Core, and a failing evaluation no bytes.
//! `compile` refuses exactly by the grammar and the scope; `answer` gives the value or the first failure.
#![tactic(auto)]

mod engine;
mod evaluate;
mod forms;
mod size;
mod sums;

pub use engine::{AnswerFault, CompileFault, answer, compile, one_meaning};
