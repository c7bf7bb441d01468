//! Where the nodes of a tree begin and end, one by one, and how deep it is.
//!
//! Tests: `pages_tests`.
#![tactic(auto)]

mod heights;
pub mod laws;
mod steps;

pub use heights::height;
pub use steps::{Step, Steps, walk};
