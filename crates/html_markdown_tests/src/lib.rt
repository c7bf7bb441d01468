//! Tests of `html_markdown`: pages, and what they are in Markdown.
#![tactic(auto)]

#[cfg(test)]
mod rows;
