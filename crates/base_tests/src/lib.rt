//! Tests of the crates below the tokenizer: their public calls on worked rows.
//!
//! They stand in a crate of their own since a crate is proved twice, without its tests and with them.
#![tactic(auto)]

#[cfg(test)]
mod gathered;
#[cfg(test)]
mod names;
#[cfg(test)]
mod queue;
#[cfg(test)]
mod queue_lists;
#[cfg(test)]
mod references;
#[cfg(test)]
mod streams;
#[cfg(test)]
mod tokens;

#[cfg(test)]
use std::process::Abort;

/// Sees that a row is right, and names it otherwise.
#[cfg(test)]
fn see(rt: &impl Abort, is_right: bool, row: &str) {
    assert!(rt; is_right, "{row}");
}
