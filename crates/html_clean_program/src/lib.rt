//! The command `clean` of the program `figpliers`, as functions over the words after it, what opens files, and its streams.
//!
//! Tests: `html_clean_tests`, `program`.
#![tactic(auto)]

mod cleaning;
mod fault;
mod policies;
mod printing;
mod telling;
mod words;

pub use cleaning::clean_pages;
pub use fault::CleanFault;
pub use html_normal_program::{HostFiles, Opener};
pub use printing::obey;
pub use telling::report;
pub use words::output_of;
