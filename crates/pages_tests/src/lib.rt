//! Tests of what callers of pages name: texts and bytes to trees by both rules, parse errors, the Standard's references, what is read back,
//! and nodes.
#![tactic(auto)]

#[cfg(test)]
mod errors;
#[cfg(test)]
mod images;
#[cfg(test)]
mod nodes;
#[cfg(test)]
mod pages;
#[cfg(test)]
mod places;
#[cfg(test)]
mod references;
#[cfg(test)]
mod rules;
