//! Texts and tables of references from the bytes of a source.
//!
//! Tests: `html_normal_tests`.
#![tactic(auto)]

mod characters;
mod fault;
mod lines;
mod read;
mod split;
mod table;

pub use fault::TextFault;
pub use read::{PIECE, read_text};
pub use split::split_text;
pub use table::{TableFileFault, read_table};
