//! Laws of a query that was read: the constructors have names where names belong, and the prolog's variables stand at
//! different places, before and after its names are resolved. The statements stand in specs/.
#![tactic(auto)]

mod laws;

pub use laws::{queries_are_built, read_is_built, resolving_keeps_built};
