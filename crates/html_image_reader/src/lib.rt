//! The forest of which a block of bytes is the image.
//!
//! Tests: `pages_tests`, `images`.
#![tactic(auto)]

mod attributes;
pub mod laws;
mod links;
mod nodes;
mod parts;
mod read;

pub use read::{Image, ReadFault, read_image};
