//! The program `figpliers`, as a function over its words, what opens files, and its streams.
//!
//! Tests: `figpliers_program_tests`.
#![tactic(auto)]

mod checking;
mod cleaning;
mod command;
mod command_line;
mod commands;
mod faults;
mod files;
mod jobs;
mod pages;
mod program;
pub mod rows;
mod writing;

pub use faults::{PageFault, Verdict, Why, report, report_unwritten};
pub use files::{Disk, Files, why_of};
pub use html_normal_program::Opener;
pub use program::{obey, output_of};
