//! Tests of `html_faithful_walk`: pages, and whether their documents are faithful.
#![tactic(auto)]

#[cfg(test)]
mod tests;
