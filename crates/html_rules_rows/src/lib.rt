//! Worked rows of tree construction: what the definitions give for each is computed by the check.
#![tactic(auto)]

pub mod rows;
pub mod trace;
