//! A source of bytes that decodes another, so that what reads UTF-8 reads any encoding.
//!
//! Tests: `html_decoded_pages_tests`.
#![tactic(auto)]

mod front;
mod source;

pub use source::DecodedSource;
