//! What is listed of a page, line by line or in JSON: its links, absolute where there is a base, and the elements that selectors select.
//!
//! Tests: `figpliers_program_tests`.
#![tactic(auto)]

mod base;
mod json;
mod links;
mod listing;
mod selected;
mod writing;

pub use links::{Link, LinkKind, links_below};
pub use listing::{Listing, local_of, write_links};
pub use selected::{Show, write_selected};
