//! The tokenizer: a machine that takes text in any pieces (HTML Standard, section 13.2.5).
//!
//! Where what [`Tokenizer`] does is found:
//!
//! | To find | Read |
//! |---|---|
//! | what callers call: `new`, `feed`, `end` | `calls.rt`; what a tokenizer holds between two characters is in `tokenizer.rt` |
//! | the loop over the input, and which way is taken next | `feed.rt` |
//! | one character in any state, with its line and its own errors | `step.rt`, `consume.rt` |
//! | text and raw text | `text_states.rt`, `raw_states.rt`, `script_states.rt`, `cdata_states.rt` |
//! | tags and attributes | `open_states.rt`, `tag_states.rt`, `attribute_states.rt` |
//! | comments and doctypes | `declaration_states.rt`, `comment_states.rt`, `doctype_states.rt`, `doctype_keyword_states.rt` |
//! | character references | `reference_states.rt` |
//! | the end of the input in each state | `end_states.rt`, `end_markup_states.rt` |
//! | how tokens and errors are emitted | `emit.rt` |
//! | several characters at once, as they would be taken one by one | `text_runs.rt`, `whole_tags.rt`, `front_*.rt` |
//! | laws over the calls | `laws.rt` |
//!
//! Tests: `html_tokenizer_tests`.
#![tactic(auto)]

mod attribute_states;
mod calls;
mod cdata_states;
mod char_bits;
mod comment_states;
mod consume;
mod declaration_states;
mod doctype_keyword_states;
mod doctype_states;
mod emit;
mod end_markup_states;
mod end_states;
mod feed;
mod front_attributes;
mod front_lines;
mod front_references;
mod front_runs;
mod front_tags;
pub mod laws;
mod open_states;
mod raw_states;
mod reference_states;
mod script_states;
mod step;
mod tag_states;
mod text_runs;
mod text_states;
pub mod tokenizer;
mod whole_tags;

pub use html_queue::{BufferQueue, SetResult, SmallCharSet};
pub use html_references::{ReferenceRow, References, TableFault};
pub use html_tokens::{
    Counting, Doctype, Listed, ListedToken, ProcessResult, State, Tag, TagKind, Token, TokenSink,
    TokenSinkResult, TokenizerOpts, states,
};
pub use tokenizer::Tokenizer;
