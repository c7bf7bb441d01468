//! How the machine speaks to its sink.
ghost use Rattle.std.specs.Prelude.{◌≡◌, ◌∷◌, [], nat_eq, is_some};
ghost use Rattle.html_tokens.specs.declared.token.Token.TheVariants.{CharacterTokens, EOFToken};
ghost use Rattle.html_tokens.specs.Characters.{shown};
ghost use Rattle.html_tokens.specs.Reading.{line_number};
ghost use Rattle.html_tokenizer.specs.Steps.{IsNoTag, IsOfText, Tells, TellsAmong, Errs, nothing_owed, a_fault, owed_for};
ghost use Rattle.html_tokens.specs.Item.{grave_if};

use crate::tokenizer::Tokenizer;
use html_tokenizer_parts::error_code::ErrorCode;
use html_tokens::Token;
use html_tokens::sink::TokenSink;
use markup::{ParseFault, Text};
use std::borrow::CowStr;

impl<Sink: TokenSink> Tokenizer<Sink> {
    /// The line on which the next character stands, counted from 1.
    pub(crate) fn line(&self) -> u64
        ensures { result ≡ line_number self.now.stream.breaks }
    {
        self.stream.breaks.saturating_add(1)
    }

    /// Hands out a token of the text that is no tag.
    #[inline(always)]
    pub(crate) fn emit(&mut self, token: Token) -> Result<(), ParseFault>
        requires no_tag { IsNoTag token }
        requires of_text { IsOfText token }
        requires sound { Sink.is_sound (Sink.view self.old.sink) }
        ensures { Tells Sink.TokenSink nothing_owed token self.old self.new result }
    {
        let line = self.line();
        let _reply = self.sink.process_token(token, line)?;
        Ok(())
    }

    /// Hands out the end of the input.
    pub(crate) fn emit_end_of_file(&mut self) -> Result<(), ParseFault>
        requires sound { Sink.is_sound (Sink.view self.old.sink) }
        ensures { TellsAmong Sink.TokenSink (λ token. Unit {0}) nothing_owed EOFToken self.old self.new result }
    {
        let line = self.line();
        let _reply = self.sink.process_token(Token::EOFToken, line)?;
        Ok(())
    }

    /// Tells of a parse error.
    pub(crate) fn report_error(&mut self, code: ErrorCode) -> Result<(), ParseFault>
        requires sound { Sink.is_sound (Sink.view self.old.sink) }
        ensures { Errs Sink.TokenSink a_fault self.old self.new result }
    {
        let line = self.line();
        let _reply = self
            .sink
            .process_token(Token::ParseError(CowStr::Borrowed(code.as_str())), line)?;
        Ok(())
    }

    /// Tells of an error, if there is one.
    pub(crate) fn report_fault(&mut self, fault: Option<ErrorCode>) -> Result<(), ParseFault>
        requires sound { Sink.is_sound (Sink.view self.old.sink) }
        ensures { Errs Sink.TokenSink (owed_for (grave_if (is_some fault))) self.old self.new result }
    {
        match fault {
            Some(code) => self.report_error(code),
            None => Ok(()),
        }
    }

    /// Tells of an error, where it is one.
    pub(crate) fn report_if(&mut self, is_fault: bool, code: ErrorCode) -> Result<(), ParseFault>
        requires sound { Sink.is_sound (Sink.view self.old.sink) }
        ensures { Errs Sink.TokenSink (owed_for (grave_if is_fault)) self.old self.new result }
    {
        if is_fault {
            return self.report_error(code);
        }
        Ok(())
    }

    /// Tells of U+0000.
    pub(crate) fn report_null(&mut self, c: char) -> Result<(), ParseFault>
        requires sound { Sink.is_sound (Sink.view self.old.sink) }
        ensures { Errs Sink.TokenSink (owed_for (grave_if (nat_eq c 0))) self.old self.new result }
    {
        self.report_if(c == '\0', ErrorCode::UnexpectedNullCharacter)
    }

    /// Hands out a character as text.
    pub(crate) fn emit_char(&mut self, c: char) -> Result<(), ParseFault>
        requires sound { Sink.is_sound (Sink.view self.old.sink) }
        ensures { Tells Sink.TokenSink nothing_owed (CharacterTokens (c ∷ [])) self.old self.new result }
    {
        let mut text = Text::empty(self.stream.alloc);
        text.push(c)?;
        self.emit(Token::CharacterTokens(text))
    }

    /// Hands out U+FFFD in place of U+0000, which is a parse error.
    fn emit_replacement(&mut self) -> Result<(), ParseFault>
        requires sound { Sink.is_sound (Sink.view self.old.sink) }
        ensures { Tells Sink.TokenSink a_fault (CharacterTokens (0xFFFD ∷ [])) self.old self.new result }
    {
        self.report_error(ErrorCode::UnexpectedNullCharacter)?;
        self.emit_char('\u{FFFD}')
    }

    /// Hands out a character of text in which U+FFFD stands for U+0000.
    pub(crate) fn emit_shown(&mut self, c: char) -> Result<(), ParseFault>
        requires sound { Sink.is_sound (Sink.view self.old.sink) }
        ensures { Tells Sink.TokenSink (owed_for (grave_if (nat_eq c 0))) (CharacterTokens (shown c ∷ [])) self.old self.new result }
    {
        if c == '\0' {
            self.emit_replacement()
        } else {
            self.emit_char(c)
        }
    }
}
