//! Plans: graphs of operators on tables, with checks and a root, and what they mean.
#![tactic(auto)]

mod check;
mod cols;
mod fits;
mod kept;
mod keys;
mod op;
mod pairs;
mod plan;
mod schema;
mod shape;

pub use check::Check;
pub use cols::{Col, Cols};
pub use keys::{Key, Keys};
pub use op::{Agg, Op, OpId, Place};
pub use pairs::{Pair, Pairs};
pub use plan::Plan;
pub use shape::{first_input, second_input};
