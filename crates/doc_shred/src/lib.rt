//! From the bytes of an XML document to its tree as a table: what goes in are bytes, what comes out
//! is a fragment, or the one reason why there is none.
#![tactic(auto)]

mod attributes;
mod bytes;
mod content;
mod depth;
mod document;
mod fault;
mod laws;
mod limits;
mod lines;
mod markup;
mod names;
mod pieces;
mod plain;
mod prolog;
mod references;
mod refusal;
mod shredder;
mod tags;
mod texts;
mod values;

pub use laws::one_tree;
pub use limits::{DOCUMENT_LIMIT, LEVEL_LIMIT};
pub use refusal::ShredFault;
pub use shredder::shred;
