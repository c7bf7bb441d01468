//! The rules of the insertion modes and of foreign content, as tables of rows (HTML Standard, section 13.2.6): each is proved to be the
//! table of the definitions.
//!
//! Tests: `conformance`, `modes`.
#![tactic(auto)]

mod first_places;
pub mod first_rows;
pub mod modes;
pub mod table;

pub use first_rows::rows_before;
pub use modes::{row_at, rows_of_foreign_content};
pub use table::{Action, Class, Conclusion, Condition, Foreign, Implied, Row};
