//! CDATA sections (HTML Standard, sections 13.2.5.69 to 13.2.5.71).
ghost use Rattle.html_tokens.specs.declared.states.State.TheVariants as state;
ghost use Rattle.html_tokenizer.specs.Steps.{IsAt, Keeps};

use crate::tokenizer::Tokenizer;
use html_tokens::ProcessResult;
use html_tokens::sink::TokenSink;
use html_tokens::states::State;
use markup::ParseFault;

impl<Sink: TokenSink> Tokenizer<Sink> {
    /// Section 13.2.5.69.
    pub(crate) fn cdata_section_state(
        &mut self,
        c: char,
    ) -> Result<ProcessResult<Sink::Handle>, ParseFault>
        requires at { IsAt self.old state.CdataSection }
        requires sound { Sink.is_sound (Sink.view self.old.sink) }
        ensures { Keeps Sink.TokenSink self.old self.new c result }
    {
        if c == ']' {
            self.state = State::CdataSectionBracket;
            return Ok(ProcessResult::Continue);
        }
        if c == '\0' {
            return self.consume_null();
        }
        self.consume_char(c)
    }

    /// Section 13.2.5.70.
    pub(crate) fn cdata_section_bracket_state(
        &mut self,
        c: char,
    ) -> Result<ProcessResult<Sink::Handle>, ParseFault>
        requires at { IsAt self.old state.CdataSectionBracket }
        requires sound { Sink.is_sound (Sink.view self.old.sink) }
        ensures { Keeps Sink.TokenSink self.old self.new c result }
    {
        if c == ']' {
            self.state = State::CdataSectionEnd;
            return Ok(ProcessResult::Continue);
        }
        self.state = State::CdataSection;
        self.emit_char(']')?;
        self.cdata_section_state(c)
    }

    /// Section 13.2.5.71.
    pub(crate) fn cdata_section_end_state(
        &mut self,
        c: char,
    ) -> Result<ProcessResult<Sink::Handle>, ParseFault>
        requires at { IsAt self.old state.CdataSectionEnd }
        requires sound { Sink.is_sound (Sink.view self.old.sink) }
        ensures { Keeps Sink.TokenSink self.old self.new c result }
    {
        if c == '>' {
            self.state = State::Data;
            return Ok(ProcessResult::Continue);
        }
        if c == ']' {
            return self.consume_char(']');
        }
        self.state = State::CdataSection;
        self.emit_two(']', ']')?;
        self.cdata_section_state(c)
    }
}
