//! What a selector is (CSS Selectors Level 4), and how it compares values.
//!
//! Tests: `selectors_tests`.
#![tactic(auto)]

pub mod compare;
mod name;
mod selector;

pub use name::Name;
pub use selector::{
    AttributeTest, CaseSensitivity, Combinator, Complex, Compound, NamespaceTest, Nth, Operator,
    Relative, Selectors, Simple, Tests,
};
