//! The stack of open elements and the list of active formatting elements (HTML Standard, sections 13.2.4.2 and 13.2.4.3).
//!
//! Where what [`Stack`] does is found:
//!
//! | To find | Read |
//! |---|---|
//! | elements in scope, the current node, elements that are popped | `stack.rt`, `walks.rt` |
//! | elements that end tags close, implied end tags | `closing.rt` |
//! | elements, text and comments that are inserted, and where | `inserting.rt`, `inserting/` |
//! | the list of active formatting elements: listed, opened again, removed | `formatting/opening.rt`, `listing.rt`, `removal.rt` |
//! | the adoption agency | `formatting/agency.rt`, and a turn of it in `turns.rt`, `adopting.rt`, `copies.rt`, `placing.rt` |
//! | foreign content | `dispatching.rt`, `foreign.rt`, `foreign_end.rt` |
//! | "reset the insertion mode appropriately" | `resetting.rt` |
//! | what keeps questions about many open elements quick | `depths.rt`, `tops.rt`, `signs.rt`, `wanted.rt` |
//! | what stack and list are made of | `entries.rt` |
//!
//! Tests: `html_stack_tests`.
#![tactic(auto)]

pub mod active_formatting_iter;
mod closing;
mod depths;
pub mod dispatching;
pub mod entries;
mod foreign;
mod foreign_end;
mod formatting;
pub mod inserting;
mod resetting;
mod signs;
pub mod stack;
mod telling;
mod tops;
mod walks;
mod wanted;

pub use active_formatting_iter::ActiveFormattingIter;
pub use dispatching::TokenShape;
pub use entries::{FormatEntry, InsertionPoint, OpenElement, PushFlag, html_elem};
pub use foreign::adjusted;
pub use html_names::{
    ElementClass, ElementName, ElementNamespace, doctype_error_and_quirks, equals_any_case,
    extract_a_character_encoding_from_a_meta_element, is_in,
};
pub use html_rules::{InsertionMode, TagSet};
pub use inserting::creating::{create_element, create_element_with_flags};
pub use inserting::new_element::NewElement;
pub use inserting::places::insert_at;
pub use stack::Stack;
