//! The input, taken piece by piece.
//!
//! Each turn of `run` takes the front of the input by one of these ways, the quickest that fits. Each leaves the tokenizer, its sink and
//! the input as the characters would, taken one by one:
//!
//! - in data: `move_by_tag`, else `move_by_reference`, else `move_by_lines`, else one run or one character;
//! - in a tag where an attribute may begin: `move_in_tag` at `>`, `move_by_attribute` at a space, else as elsewhere;
//! - in an attribute's value: `move_in_value` at a reference, else `move_by_piece`;
//! - elsewhere: `move_ahead`, else `move_by_piece`, else `move_by_run`, else `move_by_one`.
ghost use Rattle.std.specs.Prelude.{◌≡◌, false};
ghost use Rattle.html_tokenizer.specs.Calls.{IsReady, Moves, Runs, answered};
ghost use Rattle.html_tokenizer.specs.Fronts.{IsInTag, ReadsAhead, ReadsTags};
ghost use Rattle.html_tokens.specs.declared.replies.ProcessResult.TheVariants as flow;
ghost use Rattle.html_tokens.specs.declared.states.State.TheVariants as state;
ghost use Rattle.html_tokenizer.specs.Stops.{IsStoppedBy};

use crate::front_lines::after_lines;
use crate::front_references::reference_of;
use crate::front_tags::opening_of;
use crate::text_runs::data_stops;
use crate::tokenizer::Tokenizer;
use html_queue::{BufferQueue, SmallCharSet};
use html_tokens::ProcessResult;
use html_tokens::sink::TokenSink;
use html_tokens::states::AttrValueKind;
use markup::{ParseFault, Text, TokenizerResult};

impl<Sink: TokenSink> Tokenizer<Sink> {
    /// Takes the next character of the input.
    #[inline(always)]
    fn move_by_one(
        &mut self,
        input: &mut BufferQueue,
        answer: &mut ProcessResult<Sink::Handle>,
    ) -> Result<(), ParseFault>
        requires ready { IsReady Sink.TokenSink self.old }
        requires goes_on { answer.old ≡ flow.Continue }
        ensures { Moves Sink.TokenSink self.old self.new input.old input.new (answered answer.new result) }
    {
        match self.stream.next_char(input) {
            Some(c) => self.take(c, answer),
            None => {
                *answer = ProcessResult::Suspend;
                Ok(())
            }
        }
    }

    /// Takes the characters at the front of the input of which none is a stop, or else the next one.
    #[inline(always)]
    fn move_by_run(
        &mut self,
        stops: SmallCharSet,
        input: &mut BufferQueue,
        answer: &mut ProcessResult<Sink::Handle>,
    ) -> Result<(), ParseFault>
        requires ready { IsReady Sink.TokenSink self.old }
        requires goes_on { answer.old ≡ flow.Continue }
        requires stops { IsStoppedBy stops self.old }
        requires unmarked { self.old.stream.discard_bom ≡ false }
        ensures { Moves Sink.TokenSink self.old self.new input.old input.new (answered answer.new result) }
    {
        let (run, _rest) = stops.split(input.as_str());
        if run.is_empty() {
            return self.move_by_one(input, answer);
        }
        let width = run.len();
        let made = Text::from_str(self.stream.alloc, run)?;
        self.stream.ignore_lf = false;
        input.skip(width);
        self.consume_run(made)
    }

    /// Takes what comes next of the input: a run of text where runs are read, or else a character.
    #[inline(always)]
    fn move_by_piece(
        &mut self,
        input: &mut BufferQueue,
        answer: &mut ProcessResult<Sink::Handle>,
    ) -> Result<(), ParseFault>
        requires ready { IsReady Sink.TokenSink self.old }
        requires goes_on { answer.old ≡ flow.Continue }
        ensures { Moves Sink.TokenSink self.old self.new input.old input.new (answered answer.new result) }
    {
        if self.stream.discard_bom {
            return self.move_by_one(input, answer);
        }
        match self.stops() {
            Some(stops) => self.move_by_run(stops, input, answer),
            None => self.move_by_one(input, answer),
        }
    }

    /// Takes a run of the front of the input that no set of stops bounds, or else what comes next.
    fn move_ahead(
        &mut self,
        input: &mut BufferQueue,
        answer: &mut ProcessResult<Sink::Handle>,
    ) -> Result<(), ParseFault>
        requires ready { IsReady Sink.TokenSink self.old }
        requires goes_on { answer.old ≡ flow.Continue }
        ensures { Moves Sink.TokenSink self.old self.new input.old input.new (answered answer.new result) }
    {
        let Some((kind, run)) = self.run_ahead(input.as_str()) else {
            return self.move_by_piece(input, answer);
        };
        let width = run.len();
        let copied = Text::from_str(self.stream.alloc, run)?;
        self.stream.ignore_lf = false;
        input.skip(width);
        self.consume_ahead(kind, copied)
    }

    /// Takes the lines of data at the front of the input, or else the next character.
    #[inline(always)]
    fn move_by_lines(
        &mut self,
        input: &mut BufferQueue,
        answer: &mut ProcessResult<Sink::Handle>,
    ) -> Result<(), ParseFault>
        requires ready { IsReady Sink.TokenSink self.old }
        requires goes_on { answer.old ≡ flow.Continue }
        requires tags { ReadsTags self.old }
        ensures { Moves Sink.TokenSink self.old self.new input.old input.new (answered answer.new result) }
    {
        if self.stream.ignore_lf {
            return self.move_by_run(data_stops(), input, answer);
        }
        let text = input.as_str();
        let (rest, breaks) = after_lines(text, self.stream.breaks);
        let width = text.len() - rest.len();
        if width == 0 {
            return self.move_by_one(input, answer);
        }
        let lines = Text::from_str(self.stream.alloc, &text[..width])?;
        input.skip(width);
        self.emit_lines(lines, breaks)?;
        Ok(())
    }

    /// Hands out what a whole name of a reference at the front of the input stands for, or else takes what comes next.
    fn move_by_reference(
        &mut self,
        input: &mut BufferQueue,
        answer: &mut ProcessResult<Sink::Handle>,
    ) -> Result<(), ParseFault>
        requires ready { IsReady Sink.TokenSink self.old }
        requires goes_on { answer.old ≡ flow.Continue }
        requires tags { ReadsTags self.old }
        ensures { Moves Sink.TokenSink self.old self.new input.old input.new (answered answer.new result) }
    {
        let text = input.as_str();
        let Some((name, rest)) = reference_of(text) else {
            return self.move_by_lines(input, answer);
        };
        let Some(found) = self.whole_name(name) else {
            return self.move_by_piece(input, answer);
        };
        let width = text.len() - rest.len();
        self.stream.ignore_lf = false;
        input.skip(width);
        self.emit_whole_name(found)?;
        Ok(())
    }

    /// Puts what a whole name of a reference at the front of the input stands for after a value, or else takes what comes next.
    fn move_in_value(
        &mut self,
        kind: AttrValueKind,
        input: &mut BufferQueue,
        answer: &mut ProcessResult<Sink::Handle>,
    ) -> Result<(), ParseFault>
        requires ready { IsReady Sink.TokenSink self.old }
        requires goes_on { answer.old ≡ flow.Continue }
        requires value { ReadsAhead self.old (state.AttributeValue kind) }
        ensures { Moves Sink.TokenSink self.old self.new input.old input.new (answered answer.new result) }
    {
        let text = input.as_str();
        let Some((name, rest)) = reference_of(text) else {
            return self.move_by_piece(input, answer);
        };
        let Some(found) = self.whole_name(name) else {
            return self.move_by_piece(input, answer);
        };
        let width = text.len() - rest.len();
        self.stream.ignore_lf = false;
        input.skip(width);
        self.consume_whole_name(kind, found)?;
        Ok(())
    }

    /// Takes the beginning of a tag from the front of the input at once, or else what comes next.
    #[inline(always)]
    fn move_by_tag(
        &mut self,
        input: &mut BufferQueue,
        answer: &mut ProcessResult<Sink::Handle>,
    ) -> Result<(), ParseFault>
        requires ready { IsReady Sink.TokenSink self.old }
        requires goes_on { answer.old ≡ flow.Continue }
        requires tags { ReadsTags self.old }
        ensures { Moves Sink.TokenSink self.old self.new input.old input.new (answered answer.new result) }
    {
        let text = input.as_str();
        let Some(opening) = opening_of(text) else {
            return self.move_by_reference(input, answer);
        };
        self.stream.ignore_lf = false;
        let rest = self.consume_opening(opening)?;
        let width = text.len() - rest.len();
        input.skip(width);
        self.move_to_end(input, answer)
    }

    /// Takes what comes next of the input in a tag where `>` ends it.
    #[inline(always)]
    fn move_in_tag(
        &mut self,
        input: &mut BufferQueue,
        answer: &mut ProcessResult<Sink::Handle>,
    ) -> Result<(), ParseFault>
        requires ready { IsReady Sink.TokenSink self.old }
        requires goes_on { answer.old ≡ flow.Continue }
        requires at { IsInTag self.old }
        ensures { Moves Sink.TokenSink self.old self.new input.old input.new (answered answer.new result) }
    {
        let Some(c) = self.stream.next_char(input) else {
            *answer = ProcessResult::Suspend;
            return Ok(());
        };
        if c == '>' {
            return self.close_tag(answer);
        }
        self.take(c, answer)
    }

    /// Takes an attribute at the front of the input in a tag at once, or else what comes next.
    fn move_by_attribute(
        &mut self,
        input: &mut BufferQueue,
        answer: &mut ProcessResult<Sink::Handle>,
    ) -> Result<(), ParseFault>
        requires ready { IsReady Sink.TokenSink self.old }
        requires goes_on { answer.old ≡ flow.Continue }
        ensures { Moves Sink.TokenSink self.old self.new input.old input.new (answered answer.new result) }
    {
        let text = input.as_str();
        let Some((name, after)) = self.name_ahead(text) else {
            return self.move_by_piece(input, answer);
        };
        self.stream.ignore_lf = false;
        let rest = self.consume_attribute(name, after)?;
        let width = text.len() - rest.len();
        input.skip(width);
        Ok(())
    }

    /// Takes what comes next of the input.
    #[inline(always)]
    fn move_on(
        &mut self,
        input: &mut BufferQueue,
        answer: &mut ProcessResult<Sink::Handle>,
    ) -> Result<(), ParseFault>
        requires ready { IsReady Sink.TokenSink self.old }
        requires goes_on { answer.old ≡ flow.Continue }
        ensures { Moves Sink.TokenSink self.old self.new input.old input.new (answered answer.new result) }
    {
        if self.reads_tags() {
            return self.move_by_tag(input, answer);
        }
        if self.is_in_tag() {
            match input.peek() {
                Some('>') => return self.move_in_tag(input, answer),
                Some(' ') => return self.move_by_attribute(input, answer),
                _ => {}
            }
        }
        match self.value_read() {
            Some(kind) => self.move_in_value(kind, input, answer),
            None => self.move_ahead(input, answer),
        }
    }

    /// Takes all of the input, or what stands before a pause.
    pub(crate) fn run(
        &mut self,
        input: &mut BufferQueue,
    ) -> Result<TokenizerResult<Sink::Handle>, ParseFault>
        requires ready { IsReady Sink.TokenSink self.old }
        ensures { Runs Sink.TokenSink self.old self.new input.old input.new result }
    {
        loop {
            let mut answer = ProcessResult::Continue;
            self.move_on(input, &mut answer)?;
            match answer {
                ProcessResult::Continue => {}
                ProcessResult::Suspend => {
                    // What is held says of itself what it begins.
                    let _letters = self.raw_end.as_str();
                    let _no_keyword = self.keyword.is_empty();
                    return Ok(TokenizerResult::Done);
                }
                ProcessResult::Script(handle) => return Ok(TokenizerResult::Script(handle)),
                ProcessResult::EncodingIndicator(label) => {
                    return Ok(TokenizerResult::EncodingIndicator(label));
                }
            }
        }
    }
}
