//! A sanitizer: what a policy keeps of a document, written so that every tokenizer reads just that.
//!
//! Tests: `html_clean_tests`.
#![tactic(auto)]

mod attributes;
mod bases;
mod bounding;
mod checked;
mod counts;
mod elements;
mod filter;
mod ids;
mod kinds;
pub mod laws;
mod names;
mod notes;
mod pictures;
mod policy;
mod proxies;
mod ready;
pub mod rows;
mod texts;
mod values;
mod words;
mod write;

pub use bounding::{Bound, BoundedFault, Bounds, write_clean_within};
pub use counts::Cleaned;
pub use filter::Filter;
pub use ids::after_sign;
pub use kinds::{UrlKind, url_kind};
pub use policy::{Addition, Allowed, IdForm, Policy, Rule, ValueRule};
pub use values::number;
pub use words::{joined, words_of};
pub use write::{serialize_clean, write_clean};
