//! Tests of `html_normal`: documents, faults and devices, as tables on the public calls.
//!
//! They stand in a crate of their own since a crate is proved twice, without its tests and with them.
#![tactic(auto)]

#[cfg(test)]
mod again;
#[cfg(test)]
mod hostile;
#[cfg(test)]
mod program;
#[cfg(test)]
mod tests;
