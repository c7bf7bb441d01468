//! What names and texts are to the rules of tree construction (HTML Standard, section 13.2.6): which sets of names an element is in, what
//! a doctype says, and the encoding that a `meta` element names.
//!
//! Tests: `html_stack_tests`.
#![tactic(auto)]

mod any_case;
mod doctypes;
pub mod element_class;
pub mod element_name;
mod encodings;
mod renames;
mod rule_sets;
mod set_rows;

pub use any_case::equals_any_case;
pub use doctypes::doctype_error_and_quirks;
pub use element_class::{ElementClass, ElementNamespace, is_in};
pub use element_name::ElementName;
pub use encodings::extract_a_character_encoding_from_a_meta_element;
pub use renames::{adjust_attributes, adjust_tag_name};
