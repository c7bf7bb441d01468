//! What a tokenizer holds between two characters.

use html_tokenizer_parts::error_code::ErrorCode;
use html_tokenizer_parts::held_reference::Ampersand;
use html_tokenizer_parts::keyword::Keyword;
use html_tokenizer_parts::letters::Letters;
use html_tokenizer_parts::raw_end::RawEnd;
use html_tokenizer_parts::repeats::Repeats;
use html_tokenizer_parts::stream::Stream;
use html_tokens::states::State;
use html_tokens::{Doctype, Tag};
use markup::{LocalName, Text};

/// A tokenizer, with what takes its tokens.
#[derive(Drop)]
pub struct Tokenizer<Sink> {
    /// What takes the tokens.
    pub sink: Sink,
    pub(crate) stream: Stream,
    pub(crate) state: State,
    /// What stands after an `&` that is not done with.
    pub(crate) char_ref: Option<Ampersand>,
    /// The end tag that ends raw text: the last start tag's name, and what was read of it.
    pub(crate) raw_end: RawEnd,
    /// The tag that is read.
    pub(crate) tag: Tag,
    /// How many of its attributes repeat one, beyond the first that does.
    pub(crate) repeats: Repeats,
    /// The name of the attribute that is read.
    pub(crate) attribute_name: LocalName,
    /// The value of the attribute that is read.
    pub(crate) attribute_value: Text,
    /// The comment that is read.
    pub(crate) comment: Text,
    /// The doctype that is read.
    pub(crate) doctype: Doctype,
    /// Why the comment or the doctype that is read is bogus, where it is.
    pub(crate) fault: ErrorCode,
    /// Characters that were read of a name or an identifier.
    pub(crate) temporary: Text,
    /// The letters that were read of `script`.
    pub(crate) word: Letters,
    /// What was read of a word after `<!` or after a doctype's name.
    pub(crate) keyword: Keyword,
}
