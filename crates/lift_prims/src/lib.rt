//! The operators of each form of an expression, and of each rule of a call, made in a plan.
#![tactic(auto)]

mod carry;
mod constants;
mod counts;
mod form;
mod items;
mod ops;
mod shapes;
mod stage;
mod truths;

pub use carry::{Bound, carry_vars, look_up, restrict_vars, with_bound};
pub use constants::{constant, failure};
pub use counts::{count, data, exactly_one, one_or_more, reverse, zero_or_one};
pub use items::negate;
pub use shapes::{
    back, chosen_loop, either, inner_loop, into_branch, into_loop, item_var, less, literal,
    nothing, place_var, sequence, turn_map,
};
pub use stage::check_named;
pub use truths::{boolean, castable, exists};
