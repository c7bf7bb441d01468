//! Tokens of HTML, and what tokenizing a text means (HTML Standard, section 13.2.5).
//!
//! Tests: `base_tests`, `tokens`; its worked rows are computed by the check.
#![tactic(auto)]

pub mod counting;
pub mod laws;
pub mod listed;
pub mod options;
pub mod pieces;
pub mod replies;
pub mod rows;
pub mod sink;
pub mod states;
pub mod table;
pub mod tags;
pub mod token;

pub use counting::Counting;
pub use listed::{Listed, ListedToken};
pub use options::TokenizerOpts;
pub use replies::{ProcessResult, TokenSinkResult};
pub use sink::TokenSink;
pub use states::State;
pub use table::{ReferenceRow, TableFault};
pub use tags::{Tag, TagKind};
pub use token::{Doctype, Token};
