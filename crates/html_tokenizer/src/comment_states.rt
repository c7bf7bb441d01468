//! Comments (HTML Standard, sections 13.2.5.41 and 13.2.5.43 to 13.2.5.52).
ghost use Rattle.std.specs.Prelude.{[]};
ghost use Rattle.html_tokens.specs.declared.states.State.TheVariants as state;
ghost use Rattle.html_tokens.specs.declared.token.Token.TheVariants.{CommentToken};
ghost use Rattle.html_tokenizer.specs.Steps.{IsAt, Tells, Keeps, nothing_owed, a_fault};

use crate::tokenizer::Tokenizer;
use html_tokenizer_parts::characters::shown;
use html_tokenizer_parts::error_code::ErrorCode;
use html_tokens::sink::TokenSink;
use html_tokens::states::State;
use html_tokens::{ProcessResult, Token};
use markup::{ParseFault, Text};
use std::mem;

impl<Sink: TokenSink> Tokenizer<Sink> {
    /// Hands out the comment. What follows is data.
    fn emit_comment(&mut self) -> Result<(), ParseFault>
        requires sound { Sink.is_sound (Sink.view self.old.sink) }
        ensures { Tells Sink.TokenSink nothing_owed (CommentToken self.old.comment)
            (record self.old { comment = []; state = state.Data }) self.new result }
    {
        let comment = mem::replace(&mut self.comment, Text::empty(self.stream.alloc));
        self.state = State::Data;
        self.emit(Token::CommentToken(comment))
    }

    /// Hands out a comment that is a parse error. What follows is data.
    pub(crate) fn emit_faulty_comment(&mut self, code: ErrorCode) -> Result<(), ParseFault>
        requires sound { Sink.is_sound (Sink.view self.old.sink) }
        ensures { Tells Sink.TokenSink a_fault (CommentToken self.old.comment)
            (record self.old { comment = []; state = state.Data }) self.new result }
    {
        self.report_error(code)?;
        self.emit_comment()
    }

    /// Hands out a comment that is bogus. What follows is data.
    pub(crate) fn emit_bogus_comment(&mut self) -> Result<(), ParseFault>
        requires sound { Sink.is_sound (Sink.view self.old.sink) }
        ensures { Tells Sink.TokenSink a_fault (CommentToken self.old.comment)
            (record self.old { comment = []; state = state.Data }) self.new result }
    {
        let fault = self.fault;
        self.emit_faulty_comment(fault)
    }

    pub(crate) fn bogus_comment_state(
        &mut self,
        c: char,
    ) -> Result<ProcessResult<Sink::Handle>, ParseFault>
        requires at { IsAt self.old state.BogusComment }
        requires sound { Sink.is_sound (Sink.view self.old.sink) }
        ensures { Keeps Sink.TokenSink self.old self.new c result }
    {
        self.report_null(c)?;
        self.consume_in_bogus_comment(c)
    }

    /// The same, where an error of the character was told.
    fn consume_in_bogus_comment(
        &mut self,
        c: char,
    ) -> Result<ProcessResult<Sink::Handle>, ParseFault>
        requires at { IsAt self.old state.BogusComment }
        requires sound { Sink.is_sound (Sink.view self.old.sink) }
        ensures { Keeps Sink.TokenSink self.old self.new c result }
    {
        if c == '>' {
            self.emit_bogus_comment()?;
            return Ok(ProcessResult::Continue);
        }
        self.comment.push(shown(c))?;
        Ok(ProcessResult::Continue)
    }

    pub(crate) fn comment_start_state(
        &mut self,
        c: char,
    ) -> Result<ProcessResult<Sink::Handle>, ParseFault>
        requires at { IsAt self.old state.CommentStart }
        requires sound { Sink.is_sound (Sink.view self.old.sink) }
        ensures { Keeps Sink.TokenSink self.old self.new c result }
    {
        if c == '-' {
            self.state = State::CommentStartDash;
            return Ok(ProcessResult::Continue);
        }
        self.comment.clear();
        if c == '>' {
            self.emit_faulty_comment(ErrorCode::AbruptClosingOfEmptyComment)?;
            return Ok(ProcessResult::Continue);
        }
        self.state = State::Comment;
        self.comment_state(c)
    }

    pub(crate) fn comment_start_dash_state(
        &mut self,
        c: char,
    ) -> Result<ProcessResult<Sink::Handle>, ParseFault>
        requires at { IsAt self.old state.CommentStartDash }
        requires sound { Sink.is_sound (Sink.view self.old.sink) }
        ensures { Keeps Sink.TokenSink self.old self.new c result }
    {
        self.comment.clear();
        if c == '-' {
            self.state = State::CommentEnd;
            return Ok(ProcessResult::Continue);
        }
        if c == '>' {
            self.emit_faulty_comment(ErrorCode::AbruptClosingOfEmptyComment)?;
            return Ok(ProcessResult::Continue);
        }
        self.comment.push('-')?;
        self.state = State::Comment;
        self.comment_state(c)
    }

    pub(crate) fn comment_state(
        &mut self,
        c: char,
    ) -> Result<ProcessResult<Sink::Handle>, ParseFault>
        requires at { IsAt self.old state.Comment }
        requires sound { Sink.is_sound (Sink.view self.old.sink) }
        ensures { Keeps Sink.TokenSink self.old self.new c result }
    {
        self.report_null(c)?;
        self.consume_in_comment(c)
    }

    /// The same, where an error of the character was told.
    fn consume_in_comment(&mut self, c: char) -> Result<ProcessResult<Sink::Handle>, ParseFault>
        requires at { IsAt self.old state.Comment }
        requires sound { Sink.is_sound (Sink.view self.old.sink) }
        ensures { Keeps Sink.TokenSink self.old self.new c result }
    {
        if c == '-' {
            self.state = State::CommentEndDash;
            return Ok(ProcessResult::Continue);
        }
        self.comment.push(shown(c))?;
        Ok(ProcessResult::Continue)
    }

    pub(crate) fn comment_end_dash_state(
        &mut self,
        c: char,
    ) -> Result<ProcessResult<Sink::Handle>, ParseFault>
        requires at { IsAt self.old state.CommentEndDash }
        requires sound { Sink.is_sound (Sink.view self.old.sink) }
        ensures { Keeps Sink.TokenSink self.old self.new c result }
    {
        if c == '-' {
            self.state = State::CommentEnd;
            return Ok(ProcessResult::Continue);
        }
        self.comment.push('-')?;
        self.state = State::Comment;
        self.comment_state(c)
    }

    pub(crate) fn comment_end_state(
        &mut self,
        c: char,
    ) -> Result<ProcessResult<Sink::Handle>, ParseFault>
        requires at { IsAt self.old state.CommentEnd }
        requires sound { Sink.is_sound (Sink.view self.old.sink) }
        ensures { Keeps Sink.TokenSink self.old self.new c result }
    {
        let is_nested = c != '>' && self.comment.as_str().as_bytes().ends_with(b"<!");
        self.report_if(is_nested, ErrorCode::NestedComment)?;
        self.consume_after_dashes(c)
    }

    /// The same, where an error of the character was told.
    fn consume_after_dashes(&mut self, c: char) -> Result<ProcessResult<Sink::Handle>, ParseFault>
        requires at { IsAt self.old state.CommentEnd }
        requires sound { Sink.is_sound (Sink.view self.old.sink) }
        ensures { Keeps Sink.TokenSink self.old self.new c result }
    {
        if c == '>' {
            self.emit_comment()?;
            return Ok(ProcessResult::Continue);
        }
        if c == '!' {
            self.state = State::CommentEndBang;
            return Ok(ProcessResult::Continue);
        }
        if c == '-' {
            self.comment.push('-')?;
            return Ok(ProcessResult::Continue);
        }
        self.comment.push_str("--")?;
        self.state = State::Comment;
        self.comment_state(c)
    }

    pub(crate) fn comment_end_bang_state(
        &mut self,
        c: char,
    ) -> Result<ProcessResult<Sink::Handle>, ParseFault>
        requires at { IsAt self.old state.CommentEndBang }
        requires sound { Sink.is_sound (Sink.view self.old.sink) }
        ensures { Keeps Sink.TokenSink self.old self.new c result }
    {
        if c == '>' {
            self.emit_faulty_comment(ErrorCode::IncorrectlyClosedComment)?;
            return Ok(ProcessResult::Continue);
        }
        self.comment.push_str("--!")?;
        self.state = State::Comment;
        self.comment_state(c)
    }
}
