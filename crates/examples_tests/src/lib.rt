//! Tests of the examples: what each answers of one page.
#![tactic(auto)]

#[cfg(test)]
mod tests;
