//! Operators and functions on single items: comparisons, the effective boolean value, and the
//! functions that go cell by cell (XQuery 1.0, section 3; Functions and Operators).
#![tactic(auto)]

mod atoms;
mod booleans;
mod calls;
mod casts;
mod codes;
mod comparisons;
mod computed;
mod concatenation;
mod documents;
mod families;
mod fault;
mod names;
mod node_values;
mod nodes;
mod numbers;
mod numerals;
mod pairs;
mod rules;
mod search;
mod spaces;
mod texts;
mod translate;

pub use booleans::ebv;
pub use calls::call;
pub use comparisons::compare;
pub use fault::FunFault;
