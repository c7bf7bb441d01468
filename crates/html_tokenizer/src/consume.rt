//! One character of the input, with its line and its own errors.
ghost use Rattle.std.specs.Prelude.{◌≡◌, ◌≢◌, ◌∷◌, [], true, false};
ghost use Rattle.html_tokens.specs.declared.replies.ProcessResult.TheVariants as flow;
ghost use Rattle.html_tokens.specs.declared.states.State.TheVariants as state;
ghost use Rattle.html_tokenizer.specs.Calls.{Passes, answered, owed_for_text};
ghost use Rattle.html_tokenizer.specs.Going.{KeepsOn, PassesOn};
ghost use Rattle.html_tokenizer.specs.Rest.{rows_of};
ghost use Rattle.html_tokenizer_parts.specs.CharRefs.{fits_in};
ghost use Rattle.html_tokenizer.specs.Steps.{Errs, IsAt, Keeps};

use crate::tokenizer::Tokenizer;
use html_tokenizer_parts::characters::{forbidden_code, is_forbidden};
use html_tokenizer_parts::held_reference::Ampersand;
use html_tokens::ProcessResult;
use html_tokens::sink::TokenSink;
use markup::ParseFault;

impl<Sink: TokenSink> Tokenizer<Sink> {
    /// Tells of a control character or a noncharacter, where such are told.
    fn report_forbidden(&mut self, c: char) -> Result<(), ParseFault>
        requires sound { Sink.is_sound (Sink.view self.old.sink) }
        ensures { Errs Sink.TokenSink (owed_for_text self.old.stream.exact_errors (c ∷ [])) self.old self.new result }
    {
        self.report_if(
            self.stream.exact_errors && is_forbidden(c),
            forbidden_code(c),
        )
    }

    /// Takes a character, by what stands after `&` if something does.
    #[inline(always)]
    fn advance(&mut self, c: char) -> Result<ProcessResult<Sink::Handle>, ParseFault>
        requires sound { Sink.is_sound (Sink.view self.old.sink) }
        requires fits { fits_in (rows_of self.old) self.old.char_ref self.old.state ≡ true }
        ensures { Keeps Sink.TokenSink self.old self.new c result }
    {
        if self.char_ref.is_none() {
            return self.step(c);
        }
        match self.char_ref.take() {
            Some(Ampersand::Held(held)) => self.reference_state(held, c),
            Some(Ampersand::Unknown) => self.ambiguous_ampersand_state(c),
            None => self.step(c),
        }
    }

    /// The same of a character that ends no tag.
    fn advance_on(&mut self, c: char) -> Result<(), ParseFault>
        requires other { c ≢ 62 }
        requires sound { Sink.is_sound (Sink.view self.old.sink) }
        requires fits { fits_in (rows_of self.old) self.old.char_ref self.old.state ≡ true }
        ensures { KeepsOn Sink.TokenSink self.old self.new c result }
    {
        let _goes_on = self.advance(c)?;
        Ok(())
    }

    /// Takes a character of data that ends no tag where errors of single characters are not told, and counts its line.
    fn consume_in_data(&mut self, c: char) -> Result<(), ParseFault>
        requires other { c ≢ 62 }
        requires at { IsAt self.old state.Data }
        requires plain { self.old.stream.exact_errors ≡ false }
        requires sound { Sink.is_sound (Sink.view self.old.sink) }
        ensures { PassesOn Sink.TokenSink self.old self.new c result }
    {
        let _goes_on = self.data_state(c)?;
        self.stream.count_break(c);
        Ok(())
    }

    /// Takes a character that ends no tag, and counts its line.
    #[inline(never)]
    fn consume_on(&mut self, c: char) -> Result<(), ParseFault>
        requires other { c ≢ 62 }
        requires sound { Sink.is_sound (Sink.view self.old.sink) }
        requires fits { fits_in (rows_of self.old) self.old.char_ref self.old.state ≡ true }
        ensures { PassesOn Sink.TokenSink self.old self.new c result }
    {
        if self.reads_tags() {
            return self.consume_in_data(c);
        }
        self.report_forbidden(c)?;
        self.advance_on(c)?;
        self.stream.count_break(c);
        Ok(())
    }

    /// Takes a character that may end a tag, and counts its line.
    #[inline(never)]
    fn consume_close(&mut self, c: char) -> Result<ProcessResult<Sink::Handle>, ParseFault>
        requires sound { Sink.is_sound (Sink.view self.old.sink) }
        requires fits { fits_in (rows_of self.old) self.old.char_ref self.old.state ≡ true }
        ensures { Passes Sink.TokenSink self.old self.new c result }
    {
        self.report_forbidden(c)?;
        let result = self.advance(c)?;
        self.stream.count_break(c);
        Ok(result)
    }

    /// Takes a character, and counts its line. Where it ends a tag, the answer is left in its place.
    #[inline(always)]
    pub(crate) fn take(
        &mut self,
        c: char,
        answer: &mut ProcessResult<Sink::Handle>,
    ) -> Result<(), ParseFault>
        requires goes_on { answer.old ≡ flow.Continue }
        requires sound { Sink.is_sound (Sink.view self.old.sink) }
        requires fits { fits_in (rows_of self.old) self.old.char_ref self.old.state ≡ true }
        ensures { Passes Sink.TokenSink self.old self.new c (answered answer.new result) }
    {
        if c == '>' {
            *answer = self.consume_close(c)?;
            return Ok(());
        }
        self.consume_on(c)
    }
}
