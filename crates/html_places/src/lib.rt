//! Places in a text by line and column, and a text in pieces that notes where the nodes and the errors of its document begin.
//!
//! Tests: `pages_tests`.
#![tactic(auto)]

mod around;
mod cutting;
mod marking;
mod noted;
mod pieces;
mod place;
pub mod rows;

pub use around::{Around, Surroundings};
pub use noted::{Noted, NotedForest, Noting};
pub use pieces::Pieces;
pub use place::Place;
