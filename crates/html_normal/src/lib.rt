//! From the bytes of an HTML document to its normal text.
//!
//! Tests: `html_normal_tests`.
#![tactic(auto)]

mod document;
mod fault;
mod fragment;
pub mod laws;
mod program;
mod report;
mod whole;

pub use document::{options, options_with, read_document, read_document_with};
pub use fault::NormalFault;
pub use fragment::{fragment_options, read_fragment};
pub use html_input::{TableFileFault, read_table};
pub use html_references::{References, TableFault};
pub use program::ProgramFault;
pub use report::{Exact, Report};
pub use whole::{normalise, normalise_with};
