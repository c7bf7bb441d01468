//! The plain grammar: documents that are read back as they are written.
//!
//! Worked rows: `specs/Rows.antt`, computed by the check; the judge is tested in `html_forest`.
#![tactic(auto)]

pub mod attributes;
pub mod elements;
mod known_elements;
pub mod laws;
pub mod place;
pub mod rows;
pub mod texts;

pub use elements::{CellKind, Format, Level, ListKind, PlainElement};
pub use place::{PlainPlace, TextKind};
