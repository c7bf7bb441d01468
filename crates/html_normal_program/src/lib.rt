//! The program `html_normal`, as functions over its words, what opens files, and its streams.
//!
//! Tests: `html_normal_tests`, `program`.
#![tactic(auto)]

mod opener;
mod running;
mod telling;

pub use opener::{HostFiles, Opener};
pub use running::{normalised, table_named};
pub use telling::{put, put_normal_fault, put_numbered, put_table_fault, tell};
