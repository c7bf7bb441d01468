//! Plain documents are faithful; and page templates are, with whatever is put into their holes.
#![tactic(auto)]

pub mod laws;
pub mod rows;
