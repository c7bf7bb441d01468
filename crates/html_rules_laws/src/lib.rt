//! Laws of the rules of tree construction.
//!
//! Laws have no tests: what they are about has worked rows, in `html_rules_rows`.
#![tactic(auto)]

pub mod laws;
pub mod whole_table;
