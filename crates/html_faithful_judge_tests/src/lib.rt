//! Tests of `html_faithful_judge`: names, texts, comments and attributes that are read as they are written, and just outside of them others,
//! as tables on the public calls.
//!
//! They stand in a crate of their own since a crate is proved twice, without its tests and with them.
#![tactic(auto)]

#[cfg(test)]
mod tests;
