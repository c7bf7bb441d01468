//! A forest as one block of bytes, which any language reads without a call.
//!
//! Tests: `pages_tests`, `images`.
#![tactic(auto)]

mod attributes;
mod image;
mod nodes;
mod words;

pub use image::{ImageFault, tree_image, tree_image_with_errors};
pub use words::node_words;
