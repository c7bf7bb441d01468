//! Tests of selectors: long texts, calls that a page doesn't reach, and that there is an answer where there is memory. Which texts are
//! selectors, and what they select, is in the rows of `conformance`.
#![tactic(auto)]

#[cfg(test)]
mod found;
#[cfg(test)]
mod texts;
