//! Text outside of raw text (HTML Standard, sections 13.2.5.1 and 13.2.5.5).
ghost use Rattle.std.specs.Prelude.{◌∷◌, [], nat_eq};
ghost use Rattle.html_tokens.specs.declared.states.State.TheVariants as state;
ghost use Rattle.html_tokens.specs.declared.token.Token.TheVariants.{CharacterTokens, NullCharacterToken};
ghost use Rattle.html_tokens.specs.Characters.{shown};
ghost use Rattle.html_tokenizer.specs.Steps.{IsAt, Tells, TakesAs, Keeps, nothing_owed, a_fault, owed_for};
ghost use Rattle.html_tokens.specs.Item.{grave_if};

use crate::tokenizer::Tokenizer;
use html_tokenizer_parts::error_code::ErrorCode;
use html_tokenizer_parts::held_reference::{Ampersand, HeldReference};
use html_tokens::sink::TokenSink;
use html_tokens::states::State;
use html_tokens::{ProcessResult, Token};
use markup::{ParseFault, Text};

impl<Sink: TokenSink> Tokenizer<Sink> {
    /// Section 13.2.5.1.
    pub(crate) fn data_state(&mut self, c: char) -> Result<ProcessResult<Sink::Handle>, ParseFault>
        requires at { IsAt self.old state.Data }
        requires sound { Sink.is_sound (Sink.view self.old.sink) }
        ensures { Keeps Sink.TokenSink self.old self.new c result }
    {
        if c == '<' {
            self.state = State::TagOpen;
            return Ok(ProcessResult::Continue);
        }
        if c == '&' {
            self.char_ref = Some(Ampersand::Held(HeldReference::new(self.stream.alloc)));
            return Ok(ProcessResult::Continue);
        }
        if c == '\0' {
            return self.consume_null();
        }
        self.consume_char(c)
    }

    /// Section 13.2.5.5.
    pub(crate) fn plaintext_state(
        &mut self,
        c: char,
    ) -> Result<ProcessResult<Sink::Handle>, ParseFault>
        requires at { IsAt self.old state.Plaintext }
        requires sound { Sink.is_sound (Sink.view self.old.sink) }
        ensures { Keeps Sink.TokenSink self.old self.new c result }
    {
        self.consume_shown(c)
    }

    /// Hands out a character of text, and goes on.
    pub(crate) fn consume_char(
        &mut self,
        c: char,
    ) -> Result<ProcessResult<Sink::Handle>, ParseFault>
        requires sound { Sink.is_sound (Sink.view self.old.sink) }
        ensures { TakesAs Sink.TokenSink nothing_owed (CharacterTokens (c ∷ [])) self.old self.new result }
    {
        self.emit_char(c)?;
        Ok(ProcessResult::Continue)
    }

    /// Hands out a character of text in which U+FFFD stands for U+0000, and goes on.
    pub(crate) fn consume_shown(
        &mut self,
        c: char,
    ) -> Result<ProcessResult<Sink::Handle>, ParseFault>
        requires sound { Sink.is_sound (Sink.view self.old.sink) }
        ensures { TakesAs Sink.TokenSink (owed_for (grave_if (nat_eq c 0))) (CharacterTokens (shown c ∷ [])) self.old self.new result }
    {
        self.emit_shown(c)?;
        Ok(ProcessResult::Continue)
    }

    /// Hands out U+0000 for its reader to decide on, which is a parse error.
    fn emit_null_for_reader(&mut self) -> Result<(), ParseFault>
        requires sound { Sink.is_sound (Sink.view self.old.sink) }
        ensures { Tells Sink.TokenSink a_fault NullCharacterToken self.old self.new result }
    {
        self.report_error(ErrorCode::UnexpectedNullCharacter)?;
        self.emit(Token::NullCharacterToken)
    }

    /// The same, and goes on.
    pub(crate) fn consume_null(&mut self) -> Result<ProcessResult<Sink::Handle>, ParseFault>
        requires sound { Sink.is_sound (Sink.view self.old.sink) }
        ensures { TakesAs Sink.TokenSink a_fault NullCharacterToken self.old self.new result }
    {
        self.emit_null_for_reader()?;
        Ok(ProcessResult::Continue)
    }

    /// Hands out two characters as text.
    pub(crate) fn emit_two(&mut self, first: char, second: char) -> Result<(), ParseFault>
        requires sound { Sink.is_sound (Sink.view self.old.sink) }
        ensures { Tells Sink.TokenSink nothing_owed (CharacterTokens (first ∷ second ∷ [])) self.old self.new result }
    {
        let mut text = Text::empty(self.stream.alloc);
        text.push(first)?;
        text.push(second)?;
        self.emit(Token::CharacterTokens(text))
    }

    /// Hands out two characters as text, and goes on.
    pub(crate) fn consume_two(
        &mut self,
        first: char,
        second: char,
    ) -> Result<ProcessResult<Sink::Handle>, ParseFault>
        requires sound { Sink.is_sound (Sink.view self.old.sink) }
        ensures { TakesAs Sink.TokenSink nothing_owed (CharacterTokens (first ∷ second ∷ [])) self.old self.new result }
    {
        self.emit_two(first, second)?;
        Ok(ProcessResult::Continue)
    }
}
