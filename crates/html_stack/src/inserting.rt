//! Nodes are made and put where they belong (HTML Standard, sections 13.2.6.1 and 13.2.6.3).

mod contents;
pub mod creating;
mod elements;
pub mod new_element;
pub mod places;
mod roots;
mod templates;
pub(crate) mod walks;
