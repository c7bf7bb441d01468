//! Examples: those of the README as they stand there, and what else pages are read for.
//!
//! Tests: `examples_tests`.
#![tactic(auto)]

pub mod documents;
pub mod links;
pub mod nodes;
pub mod outlines;
pub mod selecting;
pub mod tags;
pub mod templates;
pub mod texts;
pub mod tokens;
pub mod trees;
