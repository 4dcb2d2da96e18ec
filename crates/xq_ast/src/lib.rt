//! The syntax of queries: the tree that a query is read into, the tokens and pieces of its text, and
//! the definition of the grammar. The grammar stands in specs/; the types stand here.
#![tactic(auto)]

pub mod leaf;
pub mod look;
pub mod node;
pub mod query;
pub mod token;
