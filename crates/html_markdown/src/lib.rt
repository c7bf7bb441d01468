//! Pages as Markdown, as CommonMark reads it, with the tables of GitHub.
//!
//! Tests: `html_markdown_tests`.
#![tactic(auto)]

mod code;
mod containers;
mod elements;
mod escape;
mod inline;
pub mod laws;
mod links;
mod marks;
mod output;
mod page;
mod survey;
mod tables;
mod walk;
mod writer;

pub use page::markdown;
