//! From the syntax of a query to the query with its names resolved, or its first refusal by scope.
#![tactic(auto)]

mod bindings;
mod built_ins;
mod checks;
mod first;
mod found;
mod functions;
mod graphs;
mod laws;
mod leaves;
mod literals;
mod names;
mod pending;
mod prolog;
mod ranks;
mod recursion;
mod refusal;
mod resolved_query;
mod resolving;
mod resolving_binds;
mod resolving_content;
mod resolving_forms;
mod resolving_paths;
mod scoping;
mod search;
mod signatures;
mod soon;
mod type_names;
mod walk;

pub use built_ins::built_in;
pub use first::first_refusal;
pub use functions::plain_name;
pub use laws::one_scoping;
pub use literals::integer_in;
pub use names::{Names, Visible};
pub use recursion::comes_to_itself;
pub use refusal::{Refusal, earlier, is_before};
pub use scoping::{ScopeFault, resolve};
pub use search::{Graph, Search};
pub use type_names::{atom_kind, cast_code, is_any_atomic};
