//! What is asked of the nodes of a page: which stand below one, and what they are named, have and say.
//!
//! Tests: `pages_tests`.
#![tactic(auto)]

mod alike;
mod element;
pub mod laws;
mod queries;
mod text;
mod walk;

pub use alike::are_told_alike;
pub use element::{attribute_of, attributes_of, element_name, has_class, is_html};
pub use queries::{Query, fits, select};
pub use text::{push_text, text_content};
pub use walk::{Descendants, nodes_below};
