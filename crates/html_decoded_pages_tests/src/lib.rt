//! Tests of `html_decoded_pages`: pages of several languages in their encodings, and how an encoding is found and changed.
//!
//! They stand in a crate of their own since a crate is proved twice, without its tests and with them.
#![tactic(auto)]

#[cfg(test)]
mod finding;
#[cfg(test)]
mod languages;
