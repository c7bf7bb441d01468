//! Tests of the parser and the tree builder that are no rows: calls that a page doesn't make, tokens that no tokenizer emits, pages too
//! large for a row, and out of memory.
//!
//! They stand in a crate of their own since a crate is proved twice, without its tests and with them. No function owns a parser where it
//! may return early, since each place that drops one takes long to prove.
#![tactic(auto)]

#[cfg(test)]
mod built;
#[cfg(test)]
mod calls;
#[cfg(test)]
mod deep;
#[cfg(test)]
mod direct;
#[cfg(test)]
mod fragments;
#[cfg(test)]
mod memory;
#[cfg(test)]
mod parsing;
