//! Tests of `html_names` and `html_stack`: their public calls on worked rows.
//!
//! They stand in a crate of their own since a crate is proved twice, without its tests and with them.
#![tactic(auto)]

#[cfg(test)]
mod adoption;
#[cfg(test)]
mod classes;
#[cfg(test)]
mod foreign;
#[cfg(test)]
mod formatting;
#[cfg(test)]
mod inserting;
#[cfg(test)]
mod memory;
#[cfg(test)]
mod stack;
