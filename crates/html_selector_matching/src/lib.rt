//! Which elements of a page a selector selects (CSS Selectors Level 4): the definition, and what one simple selector asks of an element.
//!
//! Tests: `selectors_tests`.
#![tactic(auto)]

mod above;
mod around;
mod names;
mod places;
mod scope;
mod simples;
mod substrings;

pub use above::{Above, nodes_above};
pub use around::{element_after, element_before, is_element};
pub use places::{children_are_few, is_nth};
pub use scope::scope_of;
pub use simples::{is_named_by, is_simple};
pub use substrings::{has_attribute_by, lower};
