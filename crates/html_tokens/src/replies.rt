//! What a sink answers to a token, and what one step of the tokenizer answers.

use crate::states::RawKind;
use markup::Text;

/// What a sink answers to a token.
#[derive(Debug, Drop)]
#[must_use]
pub enum TokenSinkResult<Handle> {
    /// Go on: after a tag comes text of `Data`.
    Continue,
    /// The element of a script ended: pause, so that it may run.
    Script(Handle),
    /// All that follows is text (HTML Standard, section 13.2.5.5).
    Plaintext,
    /// Text of this kind follows, up to the end tag of the tag that was told.
    RawData(RawKind),
    /// A `meta` element named the encoding of the document: pause.
    EncodingIndicator(Text),
}

/// How one step of the tokenizer ended.
#[derive(Debug, Drop)]
#[must_use]
pub enum ProcessResult<Handle> {
    /// Take the next step.
    Continue,
    /// The input is used up.
    Suspend,
    /// Pause for a script.
    Script(Handle),
    /// Pause for the name of an encoding.
    EncodingIndicator(Text),
}
