//! Policies for cleaning as text, one rule a line.
//!
//! Tests: `html_clean_tests`.
#![tactic(auto)]

mod bounded;
mod file;
pub mod laws;
mod limits;
mod lists;
mod reading;
mod ready;
pub mod rows;
mod rules;
mod writable;
mod writing;

pub use bounded::{
    BoundedPolicy, read_bounded_policy, read_bounded_policy_file, write_bounded_policy,
};
pub use file::{PolicyFileFault, read_policy_file};
pub use reading::{PolicyFault, read_policy};
pub use ready::Ready;
pub use rules::{Problem, RuleFault};
pub use writing::{WriteFault, write_policy};
