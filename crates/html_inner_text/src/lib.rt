//! The text of an element as it is rendered: `innerText` (HTML Standard, section 3.2.7).
#![tactic(auto)]

mod kinds;
mod siblings;
mod styles;
mod walk;
mod writer;

pub use kinds::{Kind, kind_of};
pub use walk::inner_text;
