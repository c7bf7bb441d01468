//! What the tokenizer is made of that knows no sink: the characters of the input as they come, words and numbers that are read
//! letter by letter, references that are held, and the codes of parse errors (HTML Standard, section 13.2.5).
//!
//! Tests: `html_tokenizer_tests`.
#![tactic(auto)]

pub mod characters;
pub mod error_code;
pub mod held_reference;
pub mod input;
pub mod keyword;
pub mod letters;
pub mod numbers;
pub mod raw_end;
pub mod references;
pub mod repeats;
pub mod stream;
