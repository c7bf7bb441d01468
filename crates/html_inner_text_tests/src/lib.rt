//! Tests of `html_inner_text`: pages, and the texts that browsers have of them.
#![tactic(auto)]

#[cfg(test)]
mod rows;
