//! The table of named character references (HTML Standard, sections 13.2.5.73 and 13.5).
//!
//! Tests: `base_tests`, `references`.
#![tactic(auto)]

pub mod laws;
pub mod references;

pub use references::{ReferenceRow, References, TableFault};
