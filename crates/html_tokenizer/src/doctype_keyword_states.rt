//! The keywords of doctypes (HTML Standard, section 13.2.5.56).
ghost use Rattle.std.specs.Prelude.{◌≡◌, true, false};
ghost use Rattle.html_tokens.specs.declared.states.State.TheVariants as state;
ghost use Rattle.html_tokens.specs.Characters.{ends_word};
ghost use Rattle.html_tokenizer_parts.specs.Keywords.{front_of, IsPart, MakesNoIdentifier};
ghost use Rattle.html_tokenizer.specs.Steps.{IsAt, Keeps};

use crate::tokenizer::Tokenizer;
use html_tokenizer_parts::error_code::ErrorCode;
use html_tokenizer_parts::keyword::Word;
use html_tokens::ProcessResult;
use html_tokens::sink::TokenSink;
use html_tokens::states::{DoctypeIdKind, State};
use markup::ParseFault;

impl<Sink: TokenSink> Tokenizer<Sink> {
    pub(crate) fn after_doctype_name_state(
        &mut self,
        c: char,
    ) -> Result<ProcessResult<Sink::Handle>, ParseFault>
        requires at { IsAt self.old state.AfterDoctypeName }
        requires sound { Sink.is_sound (Sink.view self.old.sink) }
        ensures { Keeps Sink.TokenSink self.old self.new c result }
    {
        if self.keyword.is_ended(c) {
            return self.end_keyword(c);
        }
        self.read_keyword(c)
    }

    /// White space or `>` where no keyword was read.
    fn end_keyword(&mut self, c: char) -> Result<ProcessResult<Sink::Handle>, ParseFault>
        requires at { IsAt self.old state.AfterDoctypeName }
        requires sound { Sink.is_sound (Sink.view self.old.sink) }
        requires ended { ends_word (front_of self.old.keyword c) ≡ true }
        requires part { IsPart self.old.keyword }
        ensures { Keeps Sink.TokenSink self.old self.new c result }
    {
        if c == '>' {
            self.emit_doctype()?;
            return Ok(ProcessResult::Continue);
        }
        Ok(ProcessResult::Continue)
    }

    /// A character of a keyword, or of what is none.
    fn read_keyword(&mut self, c: char) -> Result<ProcessResult<Sink::Handle>, ParseFault>
        requires at { IsAt self.old state.AfterDoctypeName }
        requires sound { Sink.is_sound (Sink.view self.old.sink) }
        requires begun { ends_word (front_of self.old.keyword c) ≡ false }
        requires part { IsPart self.old.keyword }
        ensures { Keeps Sink.TokenSink self.old self.new c result }
    {
        if self.keyword.becomes(c, Word::Public) {
            self.state = State::AfterDoctypeKeyword(DoctypeIdKind::Public);
            return Ok(ProcessResult::Continue);
        }
        if self.keyword.becomes(c, Word::System) {
            self.state = State::AfterDoctypeKeyword(DoctypeIdKind::System);
            return Ok(ProcessResult::Continue);
        }
        self.go_on_identifying(c)
    }

    /// Where c makes no keyword whole.
    fn go_on_identifying(&mut self, c: char) -> Result<ProcessResult<Sink::Handle>, ParseFault>
        requires at { IsAt self.old state.AfterDoctypeName }
        requires sound { Sink.is_sound (Sink.view self.old.sink) }
        requires begun { ends_word (front_of self.old.keyword c) ≡ false }
        requires open { MakesNoIdentifier self.old.keyword c }
        requires part { IsPart self.old.keyword }
        ensures { Keeps Sink.TokenSink self.old self.new c result }
    {
        if self.keyword.may_identify(c) {
            self.keyword.push(c)?;
            return Ok(ProcessResult::Continue);
        }
        self.doctype.force_quirks = true;
        self.fault = ErrorCode::InvalidCharacterSequenceAfterDoctypeName;
        self.state = State::BogusDoctype;
        self.bogus_doctype_state(c)
    }
}
