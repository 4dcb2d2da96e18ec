//! Reading of queries by the grammar of xq_ast.
#![tactic(auto)]

mod bindings;
mod direct;
mod encodings;
mod fault;
mod grammar;
mod look;
mod nesting;
mod operators;
mod parser;
mod paths;
mod primaries;
mod prolog;
mod strings;
mod terminals;
mod text;
mod types;
mod words;

pub use fault::ParseFault;
pub use parser::{one_reading, parse};
