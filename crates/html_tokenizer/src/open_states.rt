//! After `<` and `</` outside of raw text (HTML Standard, sections 13.2.5.6 and 13.2.5.7).
ghost use Rattle.std.specs.Prelude.{◌∷◌, [], Some};
ghost use Rattle.std.specs.Char.{is_ascii_alphabetic};
ghost use Rattle.html_tokens.specs.declared.states.State.TheVariants as state;
ghost use Rattle.html_tokens.specs.declared.token.Token.TheVariants.{CharacterTokens};
ghost use Rattle.html_tokenizer.specs.Steps.{IsAt, Tells, Keeps, owed_for};
ghost use Rattle.html_tokens.specs.Item.{Slight};

use crate::tag_states::nameless;
use crate::tokenizer::Tokenizer;
use html_tokenizer_parts::error_code::ErrorCode;
use html_tokenizer_parts::keyword::Keyword;
use html_tokens::sink::TokenSink;
use html_tokens::states::State;
use html_tokens::{ProcessResult, TagKind};
use markup::{ParseFault, Text};

impl<Sink: TokenSink> Tokenizer<Sink> {
    /// Hands out `<` as text, since it opened nothing, which is a parse error.
    pub(crate) fn emit_unopened(&mut self, code: ErrorCode) -> Result<(), ParseFault>
        requires sound { Sink.is_sound (Sink.view self.old.sink) }
        ensures { Tells Sink.TokenSink (owed_for (Some Slight)) (CharacterTokens (60 ∷ [])) self.old self.new result }
    {
        self.report_error(code)?;
        self.emit_char('<')
    }

    /// Hands out `</` as text, since it opened nothing, which is a parse error.
    pub(crate) fn emit_unopened_end(&mut self, code: ErrorCode) -> Result<(), ParseFault>
        requires sound { Sink.is_sound (Sink.view self.old.sink) }
        ensures { Tells Sink.TokenSink (owed_for (Some Slight)) (CharacterTokens (60 ∷ 47 ∷ [])) self.old self.new result }
    {
        self.report_error(code)?;
        self.emit_two('<', '/')
    }

    /// Section 13.2.5.6.
    pub(crate) fn tag_open_state(
        &mut self,
        c: char,
    ) -> Result<ProcessResult<Sink::Handle>, ParseFault>
        requires at { IsAt self.old state.TagOpen }
        requires sound { Sink.is_sound (Sink.view self.old.sink) }
        ensures { Keeps Sink.TokenSink self.old self.new c result }
    {
        if c == '/' {
            self.state = State::EndTagOpen;
            return Ok(ProcessResult::Continue);
        }
        if c == '!' {
            self.keyword = Keyword::new(self.stream.alloc);
            self.state = State::MarkupDeclarationOpen;
            return Ok(ProcessResult::Continue);
        }
        if c.is_ascii_alphabetic() {
            self.tag = nameless(self.stream.alloc);
            self.state = State::TagName;
            return self.tag_name_state(c);
        }
        if c == '?' {
            self.comment.clear();
            self.fault = ErrorCode::UnexpectedQuestionMarkInsteadOfTagName;
            self.state = State::BogusComment;
            return self.bogus_comment_state(c);
        }
        self.emit_unopened(ErrorCode::InvalidFirstCharacterOfTagName)?;
        self.state = State::Data;
        self.data_state(c)
    }

    /// Section 13.2.5.7.
    pub(crate) fn end_tag_open_state(
        &mut self,
        c: char,
    ) -> Result<ProcessResult<Sink::Handle>, ParseFault>
        requires at { IsAt self.old state.EndTagOpen }
        requires sound { Sink.is_sound (Sink.view self.old.sink) }
        ensures { Keeps Sink.TokenSink self.old self.new c result }
    {
        if c.is_ascii_alphabetic() {
            self.tag = nameless(self.stream.alloc);
            self.tag.kind = TagKind::EndTag;
            self.state = State::TagName;
            return self.tag_name_state(c);
        }
        if c == '>' {
            self.report_error(ErrorCode::MissingEndTagName)?;
            self.state = State::Data;
            return Ok(ProcessResult::Continue);
        }
        self.comment.clear();
        self.fault = ErrorCode::InvalidFirstCharacterOfTagName;
        self.state = State::BogusComment;
        self.bogus_comment_state(c)
    }
}
