//! Whether a document is faithful: whether what is written of it (HTML Standard, section 13.3) is read as just it (section 13.2).
#![tactic(auto)]

mod acting;
mod actions;
mod bytes;
mod characters;
pub mod context;
mod inserting;
pub mod made;
mod making;
mod names;
pub mod open;
mod raw;
mod rows;
pub mod spot;
mod texts;
pub mod tokens;

pub use names::{emitted_attributes, is_attribute_name, is_nonempty, is_tag_name, lowered};
pub use texts::{is_comment_text, is_kept, is_raw_text};
