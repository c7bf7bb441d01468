//! Selectors from text (CSS Selectors Level 4), by the tokens of CSS Syntax Level 3.
//!
//! Tests: `selectors_tests`.
#![tactic(auto)]

mod characters;
mod fault;
mod grammar;
pub mod laws;
mod meanings;
mod nth;
mod parsing;
mod parts;
mod reading;
pub mod rows;
mod scanning;
mod selector;
mod simples;
mod tokens;
mod trees;
mod writing;

pub use fault::{SelectorError, SyntaxFault};
pub use parsing::parse;
pub use selector::Selector;
pub use writing::to_text;
