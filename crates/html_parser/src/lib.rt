//! The parser: text in any pieces, and the document that it makes (HTML Standard, section 13.2).
//!
//! Tests: `html_parser_tests`.
#![tactic(auto)]

pub mod documents;
mod feeding;
pub mod fragments;
pub mod laws;
pub mod options;
pub mod parser;

pub use documents::parse_document;
pub use fragments::{parse_fragment, parse_fragment_for_element};
pub use options::ParseOpts;
pub use parser::Parser;
