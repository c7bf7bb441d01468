//! Writes trees as HTML (HTML Standard, section 13.3, "Serializing HTML fragments").
//!
//! Tests: `html_serialize_tests`.
#![tactic(auto)]

mod calls;
mod entries;
mod escape;
mod known_tags;
pub mod laws;
mod names;
mod opts;
mod put;
mod serializer;
mod tags;

pub use opts::SerializeOpts;
pub use serializer::{HtmlSerializer, serialize};
