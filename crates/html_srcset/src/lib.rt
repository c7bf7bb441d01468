//! The URLs of a `srcset` (HTML Standard, section 4.8.4.2.1, "parse a srcset attribute").
//!
//! Tests: `html_listings`, `html_clean_tests`.
#![tactic(auto)]

mod srcset;

pub use srcset::candidates;
