//! Why the tokenizer paused.

use crate::text::Text;

/// Why the tokenizer handed control back.
#[derive(Debug, Drop)]
#[must_use]
pub enum TokenizerResult<Handle> {
    /// All of the input was read.
    Done,
    /// The element of a script ended, and the script may run now.
    Script(Handle),
    /// A `meta` element named the encoding of the document.
    EncodingIndicator(Text),
}
