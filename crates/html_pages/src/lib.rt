//! Pages to trees: whole or as fragments, and with their parse errors; and whether they are read back.
//!
//! Tests: `pages_tests`.
#![tactic(auto)]

mod forbidden;
mod pieces;
mod read_back;
mod reading;

pub use forbidden::exact_for;
pub use html_normal::{Exact, NormalFault, References, read_document};
pub use html_places::{Around, Noted, NotedForest, Place, Surroundings};
pub use html_rules::Rules;
pub use read_back::is_read_back;
pub use reading::{
    document, document_lossy, document_with, fragment, fragment_with, noted_document,
};
