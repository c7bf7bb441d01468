//! Pages in any encoding to trees: the encoding is found out as the HTML Standard has it (section 13.2.3), and where a `meta` that the
//! parser meets says otherwise, the page is read once more.
//!
//! Tests: `html_decoded_pages_tests`.
#![tactic(auto)]

mod changing;
mod noted;
mod page;
mod parsing;
mod pauses;
mod pieces;

pub use html_encodings::{Encoding, Sniffed, Why};
pub use noted::decoded_noted_document;
pub use page::{DecodedPage, decoded_document, decoded_text};
