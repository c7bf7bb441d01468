//! From the bytes of an HTML document to what a policy keeps of it, with the policies of `html_clean`.
//!
//! Tests: `html_clean_tests`.
#![tactic(auto)]

mod bounded;
mod whole;

pub use bounded::{WithinFault, clean_fragment_in_within, clean_fragment_within, clean_within};
pub use html_clean::{
    Addition, Allowed, Bound, BoundedFault, Bounds, Cleaned, IdForm, Policy, Rule, ValueRule,
    write_clean, write_clean_within,
};
pub use whole::{clean, clean_fragment, clean_fragment_in};
