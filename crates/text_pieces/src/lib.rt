//! The page that benchmarks read, and the pieces in which tests and benchmarks have a text read.
#![tactic(auto)]

pub mod page;
pub mod pieces;

pub use page::page_of;
pub use pieces::{PIECE, as_given, in_characters, in_two, piece_of, pieces_of, split_piece};
