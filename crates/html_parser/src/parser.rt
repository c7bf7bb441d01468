//! The parser (HTML Standard, section 13.2).
ghost use Rattle.std.specs.Prelude.{◌≡◌, ◌++◌, IfSome};
ghost use Rattle.std.specs.Str.{chars};
ghost use Rattle.std.specs.String.{string_bytes};
ghost use Rattle.html_tokenizer.specs.Calls.{IsReadyIf, refusal_of};
ghost use Rattle.html_parser.specs.Documents.{Finishes, TellsError, builder};
ghost use Rattle.html_parser.specs.Read.{TakesText, stopped_by};

use crate::feeding::{consume_text, end_all};
use html_tokenizer::{BufferQueue, Tokenizer};
use html_tree_builder::TreeBuilder;
use markup::{ParseFault, TreeSink};
use std::borrow::CowStr;

/// A parser: it takes text in any pieces, and builds what the whole text makes.
///
/// After a fault it answers [`ParseFault::Failed`].
#[derive(Drop)]
pub struct Parser<Sink: TreeSink> {
    /// What reads the text, over the tree builder.
    pub tokenizer: Tokenizer<TreeBuilder<Sink>>,
    /// The text that waits.
    pub input_buffer: BufferQueue,
    /// Whether memory was wanting for a text.
    pub(crate) has_failed: bool,
}

impl<Sink: TreeSink> Parser<Sink> {
    /// Takes a piece of text, after what waits, and goes on past every pause.
    ///
    /// Errors: [`ParseFault::Memory`]; from then on every call answers [`ParseFault::Failed`]. Once the end was told
    /// [`ParseFault::Ended`]. What has failed or ended stays as it is.
    pub fn process(&mut self, text: String) -> Result<(), ParseFault>
        requires ready { IsReadyIf (builder Sink.TreeSink)
            (stopped_by self.old.has_failed (refusal_of self.old.tokenizer)) self.old.tokenizer }
        ensures gives { TakesText (builder Sink.TreeSink)
            (stopped_by self.old.has_failed (refusal_of self.old.tokenizer))
            (stopped_by self.new.has_failed (refusal_of self.new.tokenizer)) self.old.tokenizer self.new.tokenizer
            self.old.input_buffer self.new.input_buffer (chars (string_bytes text)) result }
        ensures ready { IsReadyIf (builder Sink.TreeSink)
            (stopped_by self.new.has_failed (refusal_of self.new.tokenizer)) self.new.tokenizer }
        ensures same_failed { IfSome (stopped_by self.old.has_failed (refusal_of self.old.tokenizer))
            (λ _. self.new.has_failed ≡ self.old.has_failed) }
    {
        consume_text(
            &mut self.tokenizer,
            &mut self.input_buffer,
            &mut self.has_failed,
            text,
        )
    }

    /// Tells the sink a parse error of the caller's own, in words that may change.
    pub fn error(&mut self, message: CowStr<'static>)
        ensures same { self.new ≡ record self.old { tokenizer = self.new.tokenizer } }
        ensures tells { TellsError Sink.TreeSink self.old.tokenizer self.new.tokenizer }
    {
        self.tokenizer.sink.sink.parse_error(message);
    }

    /// Takes what waits, ends the text, and gives what was built.
    ///
    /// Errors: as those of [`Parser::process`].
    pub fn finish(self) -> Result<Sink::Output, ParseFault>
    where
        Sink: Drop,
        requires ready { IsReadyIf (builder Sink.TreeSink) (stopped_by self.has_failed (refusal_of self.tokenizer)) self.tokenizer }
        ensures gives { Finishes Sink.TreeSink (stopped_by self.has_failed (refusal_of self.tokenizer))
            self.tokenizer self.input_buffer.characters result }
    {
        let Parser {
            tokenizer,
            input_buffer,
            has_failed,
        } = self;
        if has_failed {
            return Err(ParseFault::Failed);
        }
        let builder = end_all(tokenizer, input_buffer)?;
        Ok(builder.sink.finish())
    }

    /// Takes a text that is the last, ends it, and gives what was built.
    ///
    /// Errors: as those of [`Parser::process`].
    pub fn one(self, text: String) -> Result<Sink::Output, ParseFault>
    where
        Sink: Drop,
        requires ready { IsReadyIf (builder Sink.TreeSink) (stopped_by self.has_failed (refusal_of self.tokenizer)) self.tokenizer }
        ensures gives { Finishes Sink.TreeSink (stopped_by self.has_failed (refusal_of self.tokenizer))
            self.tokenizer (self.input_buffer.characters ++ chars (string_bytes text)) result }
    {
        let mut parser = self;
        parser.process(text)?;
        parser.finish()
    }
}
