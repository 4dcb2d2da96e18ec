//! The pieces of direct constructors: what stands at a place in a tag, a value or content.
#![tactic(auto)]

mod piece;

pub use piece::piece_at;
pub use xq_ast::token::{DirPlace, Piece, PieceKind};
