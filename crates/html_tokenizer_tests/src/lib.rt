//! Tests of `html_tokenizer`: worked rows, each fed whole, cut at each place and character by character.
//!
//! They stand in a crate of their own since a crate is proved twice, without its tests and with them.
#![tactic(auto)]

#[cfg(test)]
mod tests;
