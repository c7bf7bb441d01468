//! The tree builder: what tokens make of a tree (HTML Standard, section 13.2.6).
//!
//! Where what [`TreeBuilder`] does is found:
//!
//! | To find | Read |
//! |---|---|
//! | what callers call, and the sink that it is to a tokenizer | `builder.rt`, `options.rt`, `sink.rt` |
//! | the state, and the states before the first token | `construction.rt`, `beginnings.rt` |
//! | a token as a whole, and a tag that is lent | `taking.rt`, `lent_tags.rt` |
//! | its turns, until it is done with | `settling.rt`, `turns.rt`, `tag_turns.rt`, `conclusions.rt` |
//! | which row of a mode it takes | `rows.rt`, `conditions.rt`, `told.rt`; for common tags at once `lanes.rt` |
//! | what the actions of a row do | `actions/act.rt`, which names the file of each |
//! | text that is taken at once | `texts.rt`, `runs.rt`, `white_runs.rt` |
//! | parse errors | `errors.rt` |
//!
//! The rows themselves are in `html_modes`.
//!
//! Tests: `html_parser_tests`, `direct`; `conformance`, `modes`.
#![tactic(auto)]

mod actions;
mod beginnings;
pub mod builder;
mod conclusions;
mod conditions;
mod construction;
mod errors;
mod lanes;
mod lent_tags;
pub mod options;
mod rows;
mod runs;
mod settling;
mod sink;
mod tag_turns;
mod taking;
mod texts;
mod told;
mod turns;
mod walks;
mod white_runs;

pub use builder::TreeBuilder;
pub use html_names::{adjust_attributes, adjust_tag_name};
pub use html_stack::{
    ActiveFormattingIter, ElementClass, ElementName, ElementNamespace, FormatEntry, InsertionMode,
    InsertionPoint, NewElement, OpenElement, PushFlag, Stack, TagSet, TokenShape, adjusted,
    create_element, create_element_with_flags, doctype_error_and_quirks, equals_any_case,
    extract_a_character_encoding_from_a_meta_element, html_elem, insert_at, is_in,
};
pub use html_tokens::{Doctype, Tag, TagKind, Token, TokenSink, TokenSinkResult, states};
pub use markup;
pub use options::TreeBuilderOpts;
