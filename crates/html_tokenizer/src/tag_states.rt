//! Tags up to their attributes, and their end (HTML Standard, sections 13.2.5.8, 13.2.5.32 and 13.2.5.40).
ghost use Rattle.std.specs.Prelude.{◌≡◌, [], None, Some, not};
ghost use Rattle.html_tokens.specs.Tags.{is_empty, is_faulty_end, is_faulty_tag};
ghost use Rattle.html_tokens.specs.declared.states.State.TheVariants as state;
ghost use Rattle.html_tokens.specs.declared.tags.TagKind.TheVariants.{EndTag, StartTag};
ghost use Rattle.html_tokens.specs.Tags.{named};
ghost use Rattle.markup.specs.KnownNames.{IsNameAt};
ghost use Rattle.html_tokenizer.specs.Steps.{IsAt, Keeps, Errs, EndsTag, state_after, answer_to, owed_for};
ghost use Rattle.html_tokens.specs.Item.{grave_if};

use crate::tokenizer::Tokenizer;
use html_tokenizer_parts::characters::{is_white_space, lowered};
use html_tokenizer_parts::error_code::ErrorCode;
use html_tokenizer_parts::repeats::Repeats;
use html_tokens::sink::TokenSink;
use html_tokens::states::State;
use html_tokens::{ProcessResult, Tag, TagKind, TokenSinkResult};
use markup::{Attributes, KnownName, LocalName, ParseFault};
use std::alloc::Global;

/// A start tag without a name, which takes no memory.
pub(crate) fn nameless(alloc: Global) -> Tag
    ensures { result ≡ named StartTag [] }
{
    Tag {
        kind: TagKind::StartTag,
        name: LocalName::empty(alloc),
        self_closing: false,
        attrs: Attributes::new(alloc),
        had_duplicate_attributes: false,
    }
}

/// Whether a tag has attributes.
fn has_attributes(tag: &Tag) -> bool
    ensures { result ≡ not (is_empty tag.now.attrs) }
{
    !tag.attrs.is_empty()
}

impl<Sink: TokenSink> Tokenizer<Sink> {
    /// Keeps the name of the last start tag.
    #[inline(always)]
    fn keep_last_start_tag(&mut self, name: LocalName)
        ensures changed { self.new ≡ record self.old { raw_end = self.new.raw_end } }
        ensures name { self.new.raw_end.name ≡ Some name }
    {
        self.raw_end.keep_name(self.stream.alloc, Some(name));
    }

    /// Tells an error for each attribute of the tag that is read which repeats one before it (section 13.2.5.33).
    fn report_repeats(&mut self) -> Result<(), ParseFault>
        requires sound { Sink.is_sound (Sink.view self.old.sink) }
        ensures { Errs Sink.TokenSink (owed_for (grave_if self.old.tag.had_duplicate_attributes)) self.old self.new result }
    {
        if !self.tag.had_duplicate_attributes {
            return Ok(());
        }
        self.report_error(ErrorCode::DuplicateAttribute)?;
        for _repeat in 0..self.repeats.count() {
            self.report_error(ErrorCode::DuplicateAttribute)?;
        }
        self.repeats = Repeats::none();
        Ok(())
    }

    /// Tells what an end tag has besides its name, attributes and a solidus (section 13.2.5).
    fn report_end_tag_faults(&mut self) -> Result<(), ParseFault>
        requires sound { Sink.is_sound (Sink.view self.old.sink) }
        ensures { Errs Sink.TokenSink (owed_for (grave_if (is_faulty_end EndTag self.old.tag))) self.old self.new result }
    {
        let has_attributes = has_attributes(&self.tag);
        self.report_if(has_attributes, ErrorCode::EndTagWithAttributes)?;
        self.report_if(self.tag.self_closing, ErrorCode::EndTagWithTrailingSolidus)
    }

    /// The same of the tag that is read, where it is an end tag.
    fn report_end_faults(&mut self) -> Result<(), ParseFault>
        requires sound { Sink.is_sound (Sink.view self.old.sink) }
        ensures { Errs Sink.TokenSink (owed_for (grave_if (is_faulty_end self.old.tag.kind self.old.tag))) self.old self.new result }
    {
        match self.tag.kind {
            TagKind::StartTag => Ok(()),
            TagKind::EndTag => self.report_end_tag_faults(),
        }
    }

    /// Tells the errors of the tag that is read, if it is faulty.
    #[inline(always)]
    fn emit_faulty_tag(&mut self) -> Result<(), ParseFault>
        requires sound { Sink.is_sound (Sink.view self.old.sink) }
        ensures { Errs Sink.TokenSink (owed_for (grave_if (is_faulty_tag self.old.tag))) self.old self.new result }
    {
        self.report_repeats()?;
        self.report_end_faults()
    }

    /// Goes where the reply to a tag has it.
    #[inline(always)]
    fn follow(&mut self, reply: TokenSinkResult<Sink::Handle>) -> ProcessResult<Sink::Handle>
        ensures moved { self.new ≡ record self.old { state = state_after reply } }
        ensures answer { result ≡ answer_to reply }
    {
        self.state = State::Data;
        match reply {
            TokenSinkResult::Continue => ProcessResult::Continue,
            TokenSinkResult::Script(handle) => ProcessResult::Script(handle),
            TokenSinkResult::Plaintext => {
                self.state = State::Plaintext;
                ProcessResult::Continue
            }
            TokenSinkResult::RawData(kind) => {
                self.state = State::RawData(kind);
                ProcessResult::Continue
            }
            TokenSinkResult::EncodingIndicator(label) => ProcessResult::EncodingIndicator(label),
        }
    }

    /// Emits the start tag that was read, of whose name a copy is kept.
    fn emit_start_tag(&mut self) -> Result<ProcessResult<Sink::Handle>, ParseFault>
        requires kind { self.old.tag.kind ≡ StartTag }
        requires fresh { self.old.char_ref ≡ None }
        requires sound { Sink.is_sound (Sink.view self.old.sink) }
        ensures { EndsTag Sink.TokenSink self.old self.new result }
    {
        let name = self.tag.name.copy(self.stream.alloc)?;
        self.emit_faulty_tag()?;
        let line = self.line();
        let reply = self.sink.process_tag(&mut self.tag, line)?;
        self.keep_last_start_tag(name);
        Ok(self.follow(reply))
    }

    /// The same where its name is this known one, of which a copy takes no memory.
    #[inline(always)]
    fn emit_known_start_tag(
        &mut self,
        known: KnownName,
    ) -> Result<ProcessResult<Sink::Handle>, ParseFault>
        requires kind { self.old.tag.kind ≡ StartTag }
        requires name { IsNameAt known.place self.old.tag.name }
        requires fresh { self.old.char_ref ≡ None }
        requires sound { Sink.is_sound (Sink.view self.old.sink) }
        ensures { EndsTag Sink.TokenSink self.old self.new result }
    {
        self.emit_faulty_tag()?;
        let line = self.line();
        let reply = self.sink.process_tag(&mut self.tag, line)?;
        self.keep_last_start_tag(LocalName::from_known(self.stream.alloc, known));
        Ok(self.follow(reply))
    }

    /// Emits the end tag that was read.
    #[inline(always)]
    fn emit_read_end_tag(&mut self) -> Result<ProcessResult<Sink::Handle>, ParseFault>
        requires kind { self.old.tag.kind ≡ EndTag }
        requires fresh { self.old.char_ref ≡ None }
        requires sound { Sink.is_sound (Sink.view self.old.sink) }
        ensures { EndsTag Sink.TokenSink self.old self.new result }
    {
        self.emit_faulty_tag()?;
        let line = self.line();
        let reply = self.sink.process_tag(&mut self.tag, line)?;
        Ok(self.follow(reply))
    }

    /// Emits the tag that was read.
    #[inline(always)]
    pub(crate) fn emit_tag(&mut self) -> Result<ProcessResult<Sink::Handle>, ParseFault>
        requires fresh { self.old.char_ref ≡ None }
        requires sound { Sink.is_sound (Sink.view self.old.sink) }
        ensures { EndsTag Sink.TokenSink self.old self.new result }
    {
        match self.tag.kind {
            TagKind::EndTag => self.emit_read_end_tag(),
            TagKind::StartTag => match self.tag.name.known() {
                Some(known) => self.emit_known_start_tag(known),
                None => self.emit_start_tag(),
            },
        }
    }

    /// In a tag's name.
    pub(crate) fn tag_name_state(
        &mut self,
        c: char,
    ) -> Result<ProcessResult<Sink::Handle>, ParseFault>
        requires at { IsAt self.old state.TagName }
        requires sound { Sink.is_sound (Sink.view self.old.sink) }
        ensures { Keeps Sink.TokenSink self.old self.new c result }
    {
        self.report_null(c)?;
        self.consume_in_tag_name(c)
    }

    /// The same, where an error of the character was told.
    fn consume_in_tag_name(&mut self, c: char) -> Result<ProcessResult<Sink::Handle>, ParseFault>
        requires at { IsAt self.old state.TagName }
        requires sound { Sink.is_sound (Sink.view self.old.sink) }
        ensures { Keeps Sink.TokenSink self.old self.new c result }
    {
        if is_white_space(c) {
            self.state = State::BeforeAttributeName;
            return Ok(ProcessResult::Continue);
        }
        if c == '/' {
            self.state = State::SelfClosingStartTag;
            return Ok(ProcessResult::Continue);
        }
        if c == '>' {
            return self.emit_tag();
        }
        self.tag.name.push(lowered(c))?;
        Ok(ProcessResult::Continue)
    }

    /// After a `/` in a tag.
    pub(crate) fn self_closing_start_tag_state(
        &mut self,
        c: char,
    ) -> Result<ProcessResult<Sink::Handle>, ParseFault>
        requires at { IsAt self.old state.SelfClosingStartTag }
        requires sound { Sink.is_sound (Sink.view self.old.sink) }
        ensures { Keeps Sink.TokenSink self.old self.new c result }
    {
        self.report_if(c != '>', ErrorCode::UnexpectedSolidusInTag)?;
        self.consume_after_solidus(c)
    }

    /// The same, where an error of the character was told.
    fn consume_after_solidus(&mut self, c: char) -> Result<ProcessResult<Sink::Handle>, ParseFault>
        requires at { IsAt self.old state.SelfClosingStartTag }
        requires sound { Sink.is_sound (Sink.view self.old.sink) }
        ensures { Keeps Sink.TokenSink self.old self.new c result }
    {
        if c == '>' {
            self.tag.self_closing = true;
            return self.emit_tag();
        }
        self.state = State::BeforeAttributeName;
        self.before_attribute_name_state(c)
    }
}
