//! What tree construction means: the sets of names, the state of the rules and the steps that they are made of
//! (HTML Standard, sections 13.2.4 and 13.2.6).
//!
//! Worked rows: `html_rules_rows`.
#![tactic(auto)]

pub mod insertion_mode;
pub mod rules;
pub mod tag_set;

pub use insertion_mode::InsertionMode;
pub use rules::Rules;
pub use tag_set::TagSet;
