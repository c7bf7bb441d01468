//! What is read out of a tree: where it leads, the text that it shows, and the tree itself line by line.
//!
//! Tests: `conformance`.
#![tactic(auto)]

mod lines;
mod links;
mod shown;
mod tree;

pub use links::{has_href, has_source, link_of, links_below, without_breaks};
pub use shown::{is_shown, shown_text};
pub use tree::write_tree;
