//! The characters that wait to be read by a tokenizer.
//!
//! Text comes in pieces. A [`BufferQueue`] joins them to one run of characters, from which they are
//! taken one by one, up to the next character of a [`SmallCharSet`], or by a pattern.
//!
//! Tests: `base_tests`, `queue` and `queue_lists`.
#![tactic(auto)]

mod begins;
mod cursor;
mod queue;
mod set;

pub use queue::BufferQueue;
pub use set::{SetResult, SmallCharSet};
