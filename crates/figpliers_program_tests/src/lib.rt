//! Tests of the program `figpliers`: what it writes to standard output and to standard error, and its status, as a table of runs.
//!
//! They stand in a crate of their own since a crate is proved twice, without its tests and with them.
#![tactic(auto)]

#[cfg(test)]
mod cleaning;
#[cfg(test)]
mod runs;
