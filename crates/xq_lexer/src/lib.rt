//! The tokens of queries: what stands at a place of the text.
#![tactic(auto)]

pub mod bytes;
pub mod references;
mod token;

pub use token::{name_end, ncname_end, token_at};
pub use xq_ast::token::{Mode, Token, TokenKind};
