//! Tests of `html_forest`: worked forests, and the forest beside a plain one, call by call.
//!
//! They stand in a crate of their own since a crate is proved twice, without its tests and with them.
#![tactic(auto)]

#[cfg(test)]
mod both;
#[cfg(test)]
mod conditions;
#[cfg(test)]
mod hooks;
#[cfg(test)]
mod judged;
#[cfg(test)]
mod plain;
#[cfg(test)]
mod refused;
#[cfg(test)]
mod rows;
#[cfg(test)]
mod steps;
#[cfg(test)]
mod walks;
