//! The elements of a page that selectors select (CSS Selectors Level 4), in time that grows with the number of the page's nodes times the
//! length of the selectors, whatever they are.
//!
//! Tests: `selectors_tests`.
#![tactic(auto)]

mod asked;
mod column;
mod direct;
mod each;
mod keeping;
mod kinds;
mod lines;
mod order;
mod page_index;
mod places;
mod selecting;
mod sides;
mod types;

pub use each::{Selected, select_each};
pub use html_selector_matching::{Above, nodes_above};
pub use page_index::Index;
pub use selecting::{select_all, select_first};
