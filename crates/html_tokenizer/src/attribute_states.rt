//! The attributes of a tag (HTML Standard, sections 13.2.5.32 to 13.2.5.39).
ghost use Rattle.std.specs.Prelude.{◌≡◌, [], Some, true, is_some, IfErr, OnOk};
ghost use Rattle.std.specs.Str.{chars};
ghost use Rattle.html_tokens.specs.Characters.{ends_attribute_name};
ghost use Rattle.html_tokens.specs.Tags.{with_attribute, is_odd_first, is_odd_in_name, is_odd_unquoted};
ghost use Rattle.html_tokens.specs.declared.states.AttrValueKind.TheVariants as value;
ghost use Rattle.html_tokens.specs.declared.states.State.TheVariants as state;
ghost use Rattle.markup.specs.declared.fault.ParseFault.TheVariants.{Memory};
ghost use Rattle.html_tokenizer.specs.Quotes.{quote_of};
ghost use Rattle.html_tokenizer.specs.Calls.{KeepsRun};
ghost use Rattle.html_tokenizer.specs.Steps.{IsAt, Keeps, Errs, owed_for_each};
ghost use Rattle.html_tokenizer.specs.Stops.{IsRunAt};

use crate::tokenizer::Tokenizer;
use html_tokenizer_parts::characters::{ends_tag_name, ends_word, is_white_space, lowered, shown};
use html_tokenizer_parts::error_code::ErrorCode;
use html_tokenizer_parts::held_reference::{Ampersand, HeldReference};
use html_tokens::ProcessResult;
use html_tokens::sink::TokenSink;
use html_tokens::states::{AttrValueKind, State};
use markup::{Attribute, LocalName, Namespace, ParseFault, QualName, Text};
use std::mem;

/// Whether an attribute's name ends before this character.
fn ends_name(c: char) -> bool
    ensures { result ≡ ends_attribute_name c }
{
    is_white_space(c) || c == '/' || c == '>' || c == '='
}

/// The error of a character in an attribute's name, if it is one.
fn name_fault(c: char) -> Option<ErrorCode>
    ensures { is_some result ≡ is_odd_in_name c }
{
    if c == '\0' {
        return Some(ErrorCode::UnexpectedNullCharacter);
    }
    if c == '"' || c == '\'' || c == '<' {
        return Some(ErrorCode::UnexpectedCharacterInAttributeName);
    }
    None
}

/// The error of the first character of an attribute's name, if it is one.
fn first_fault(c: char) -> Option<ErrorCode>
    ensures { is_some result ≡ is_odd_first c }
{
    if c == '=' {
        return Some(ErrorCode::UnexpectedEqualsSignBeforeAttributeName);
    }
    name_fault(c)
}

/// The error of a character in a value without quotes, if it is one.
fn unquoted_fault(c: char) -> Option<ErrorCode>
    ensures { is_some result ≡ is_odd_unquoted c }
{
    if c == '\0' {
        return Some(ErrorCode::UnexpectedNullCharacter);
    }
    if c == '"' || c == '\'' || c == '<' || c == '=' || c == '`' {
        return Some(ErrorCode::UnexpectedCharacterInUnquotedAttributeValue);
    }
    None
}

impl<Sink: TokenSink> Tokenizer<Sink> {
    /// Notes that an attribute of the tag repeats one before it.
    fn note_repeat(&mut self)
        ensures { self.new ≡ record self.old { tag = record self.old.tag { had_duplicate_attributes = true } } }
    {
        if self.tag.had_duplicate_attributes {
            self.repeats.add();
        }
        self.tag.had_duplicate_attributes = true;
    }

    /// Adds an attribute to the tag, or drops it where the tag has one of its name.
    #[inline(always)]
    pub(crate) fn add_attribute(&mut self, name: LocalName, value: Text) -> Result<(), ParseFault>
        ensures ok { OnOk result (self.new ≡ record self.old { tag = with_attribute self.old.tag name value }) }
        ensures fault { IfErr result (λ fault. fault ≡ Memory) }
        ensures sink { self.new.sink ≡ self.old.sink }
    {
        if self.tag.attrs.has_local_name(&name) {
            self.note_repeat();
            return Ok(());
        }
        let name = QualName::new(None, Namespace::none(), name);
        self.tag.attrs.push(Attribute { name, value })
    }

    /// Adds the attribute that was read to the tag, or drops it where the tag has one of its name.
    pub(crate) fn finish_attribute(&mut self) -> Result<(), ParseFault>
        ensures ok { OnOk result (self.new ≡ record self.old {
          tag = with_attribute self.old.tag self.old.attribute_name self.old.attribute_value;
          attribute_name = [];
          attribute_value = [];
        }) }
        ensures fault { IfErr result (λ fault. fault ≡ Memory) }
        ensures sink { self.new.sink ≡ self.old.sink }
    {
        let alloc = self.stream.alloc;
        let name = self.attribute_name.take();
        let value = mem::replace(&mut self.attribute_value, Text::empty(alloc));
        self.add_attribute(name, value)
    }

    /// Adds the attribute that was read to the tag, without a value.
    pub(crate) fn finish_without_value(&mut self) -> Result<(), ParseFault>
        ensures ok { OnOk result (self.new ≡ record self.old
            { tag = with_attribute self.old.tag self.old.attribute_name []; attribute_name = []; attribute_value = [] }) }
        ensures fault { IfErr result (λ fault. fault ≡ Memory) }
        ensures sink { self.new.sink ≡ self.old.sink }
    {
        self.attribute_value.clear();
        self.finish_attribute()
    }

    /// Before an attribute's name.
    pub(crate) fn before_attribute_name_state(
        &mut self,
        c: char,
    ) -> Result<ProcessResult<Sink::Handle>, ParseFault>
        requires at { IsAt self.old state.BeforeAttributeName }
        requires sound { Sink.is_sound (Sink.view self.old.sink) }
        ensures { Keeps Sink.TokenSink self.old self.new c result }
    {
        self.report_fault(first_fault(c))?;
        self.consume_before_name(c)
    }

    /// The same, where an error of the character was told.
    fn consume_before_name(&mut self, c: char) -> Result<ProcessResult<Sink::Handle>, ParseFault>
        requires at { IsAt self.old state.BeforeAttributeName }
        requires sound { Sink.is_sound (Sink.view self.old.sink) }
        ensures { Keeps Sink.TokenSink self.old self.new c result }
    {
        if is_white_space(c) {
            return Ok(ProcessResult::Continue);
        }
        if c == '/' {
            self.state = State::SelfClosingStartTag;
            return Ok(ProcessResult::Continue);
        }
        if c == '>' {
            return self.emit_tag();
        }
        let mut name = LocalName::empty(self.stream.alloc);
        name.push(lowered(c))?;
        self.attribute_name = name;
        self.state = State::AttributeName;
        Ok(ProcessResult::Continue)
    }

    /// In an attribute's name.
    pub(crate) fn attribute_name_state(
        &mut self,
        c: char,
    ) -> Result<ProcessResult<Sink::Handle>, ParseFault>
        requires at { IsAt self.old state.AttributeName }
        requires sound { Sink.is_sound (Sink.view self.old.sink) }
        ensures { Keeps Sink.TokenSink self.old self.new c result }
    {
        self.report_fault(name_fault(c))?;
        self.consume_in_name(c)
    }

    /// The same, where an error of the character was told.
    fn consume_in_name(&mut self, c: char) -> Result<ProcessResult<Sink::Handle>, ParseFault>
        requires at { IsAt self.old state.AttributeName }
        requires sound { Sink.is_sound (Sink.view self.old.sink) }
        ensures { Keeps Sink.TokenSink self.old self.new c result }
    {
        if ends_name(c) {
            self.state = State::AfterAttributeName;
            return self.after_attribute_name_state(c);
        }
        self.attribute_name.push(lowered(c))?;
        Ok(ProcessResult::Continue)
    }

    /// After an attribute's name.
    pub(crate) fn after_attribute_name_state(
        &mut self,
        c: char,
    ) -> Result<ProcessResult<Sink::Handle>, ParseFault>
        requires at { IsAt self.old state.AfterAttributeName }
        requires sound { Sink.is_sound (Sink.view self.old.sink) }
        ensures { Keeps Sink.TokenSink self.old self.new c result }
    {
        if is_white_space(c) {
            return Ok(ProcessResult::Continue);
        }
        if c == '=' {
            self.state = State::BeforeAttributeValue;
            return Ok(ProcessResult::Continue);
        }
        self.finish_without_value()?;
        self.state = State::BeforeAttributeName;
        self.before_attribute_name_state(c)
    }

    /// Before an attribute's value.
    pub(crate) fn before_attribute_value_state(
        &mut self,
        c: char,
    ) -> Result<ProcessResult<Sink::Handle>, ParseFault>
        requires at { IsAt self.old state.BeforeAttributeValue }
        requires sound { Sink.is_sound (Sink.view self.old.sink) }
        ensures { Keeps Sink.TokenSink self.old self.new c result }
    {
        self.report_if(c == '>', ErrorCode::MissingAttributeValue)?;
        self.consume_before_value(c)
    }

    /// The same, where an error of the character was told.
    fn consume_before_value(&mut self, c: char) -> Result<ProcessResult<Sink::Handle>, ParseFault>
        requires at { IsAt self.old state.BeforeAttributeValue }
        requires sound { Sink.is_sound (Sink.view self.old.sink) }
        ensures { Keeps Sink.TokenSink self.old self.new c result }
    {
        if is_white_space(c) {
            return Ok(ProcessResult::Continue);
        }
        if c == '>' {
            self.finish_without_value()?;
            self.state = State::BeforeAttributeName;
            return self.before_attribute_name_state(c);
        }
        self.attribute_value.clear();
        if c == '"' {
            self.state = State::AttributeValue(AttrValueKind::DoubleQuoted);
            return Ok(ProcessResult::Continue);
        }
        if c == '\'' {
            self.state = State::AttributeValue(AttrValueKind::SingleQuoted);
            return Ok(ProcessResult::Continue);
        }
        self.state = State::AttributeValue(AttrValueKind::Unquoted);
        self.unquoted_value_state(c)
    }

    /// In an attribute's value.
    pub(crate) fn attribute_value_state(
        &mut self,
        kind: AttrValueKind,
        c: char,
    ) -> Result<ProcessResult<Sink::Handle>, ParseFault>
        requires at { IsAt self.old (state.AttributeValue kind) }
        requires sound { Sink.is_sound (Sink.view self.old.sink) }
        ensures { Keeps Sink.TokenSink self.old self.new c result }
    {
        match kind {
            AttrValueKind::Unquoted => self.unquoted_value_state(c),
            AttrValueKind::SingleQuoted => self.quoted_value_state(kind, '\'', c),
            AttrValueKind::DoubleQuoted => self.quoted_value_state(kind, '"', c),
        }
    }

    /// In a value without quotes.
    fn unquoted_value_state(&mut self, c: char) -> Result<ProcessResult<Sink::Handle>, ParseFault>
        requires at { IsAt self.old (state.AttributeValue value.Unquoted) }
        requires sound { Sink.is_sound (Sink.view self.old.sink) }
        ensures { Keeps Sink.TokenSink self.old self.new c result }
    {
        self.report_fault(unquoted_fault(c))?;
        self.consume_in_unquoted_value(c)
    }

    /// The same, where an error of the character was told.
    fn consume_in_unquoted_value(
        &mut self,
        c: char,
    ) -> Result<ProcessResult<Sink::Handle>, ParseFault>
        requires at { IsAt self.old (state.AttributeValue value.Unquoted) }
        requires sound { Sink.is_sound (Sink.view self.old.sink) }
        ensures { Keeps Sink.TokenSink self.old self.new c result }
    {
        if ends_word(c) {
            self.finish_attribute()?;
            self.state = State::BeforeAttributeName;
            return self.before_attribute_name_state(c);
        }
        if c == '&' {
            self.char_ref = Some(Ampersand::Held(HeldReference::new(self.stream.alloc)));
            return Ok(ProcessResult::Continue);
        }
        self.attribute_value.push(shown(c))?;
        Ok(ProcessResult::Continue)
    }

    /// Tells of each error in a run of a value without quotes.
    fn report_unquoted_faults(&mut self, run: &str) -> Result<(), ParseFault>
        requires sound { Sink.is_sound (Sink.view self.old.sink) }
        ensures { Errs Sink.TokenSink (owed_for_each is_odd_unquoted (chars run.now)) self.old self.new result }
    {
        for c in run.chars() {
            self.report_fault(unquoted_fault(c))?;
        }
        Ok(())
    }

    /// Takes a run of a value without quotes.
    fn consume_unquoted_run(&mut self, run: &Text) -> Result<(), ParseFault>
        requires run { IsRunAt self.old run.now }
        requires at { self.old.state ≡ state.AttributeValue value.Unquoted }
        requires sound { Sink.is_sound (Sink.view self.old.sink) }
        ensures { KeepsRun Sink.TokenSink self.old self.new run.now result }
    {
        self.report_unquoted_faults(run.as_str())?;
        self.attribute_value.append(run)
    }

    /// Takes a run of a value.
    pub(crate) fn consume_value_run(
        &mut self,
        kind: AttrValueKind,
        run: &Text,
    ) -> Result<(), ParseFault>
        requires run { IsRunAt self.old run.now }
        requires at { self.old.state ≡ state.AttributeValue kind }
        requires sound { Sink.is_sound (Sink.view self.old.sink) }
        ensures { KeepsRun Sink.TokenSink self.old self.new run.now result }
    {
        match kind {
            AttrValueKind::Unquoted => self.consume_unquoted_run(run),
            _ => self.attribute_value.append(run),
        }
    }

    /// In a value in quotes.
    fn quoted_value_state(
        &mut self,
        kind: AttrValueKind,
        quote: char,
        c: char,
    ) -> Result<ProcessResult<Sink::Handle>, ParseFault>
        requires at { IsAt self.old (state.AttributeValue kind) }
        requires quote { quote_of kind ≡ Some quote }
        requires sound { Sink.is_sound (Sink.view self.old.sink) }
        ensures { Keeps Sink.TokenSink self.old self.new c result }
    {
        self.report_null(c)?;
        self.consume_in_quoted_value(kind, quote, c)
    }

    /// The same, where an error of the character was told.
    fn consume_in_quoted_value(
        &mut self,
        kind: AttrValueKind,
        quote: char,
        c: char,
    ) -> Result<ProcessResult<Sink::Handle>, ParseFault>
        requires at { IsAt self.old (state.AttributeValue kind) }
        requires quote { quote_of kind ≡ Some quote }
        requires sound { Sink.is_sound (Sink.view self.old.sink) }
        ensures { Keeps Sink.TokenSink self.old self.new c result }
    {
        if c == quote {
            self.finish_attribute()?;
            self.state = State::AfterAttributeValueQuoted;
            return Ok(ProcessResult::Continue);
        }
        if c == '&' {
            self.char_ref = Some(Ampersand::Held(HeldReference::new(self.stream.alloc)));
            return Ok(ProcessResult::Continue);
        }
        self.attribute_value.push(shown(c))?;
        Ok(ProcessResult::Continue)
    }

    /// After an attribute's value in quotes.
    pub(crate) fn after_attribute_value_quoted_state(
        &mut self,
        c: char,
    ) -> Result<ProcessResult<Sink::Handle>, ParseFault>
        requires at { IsAt self.old state.AfterAttributeValueQuoted }
        requires sound { Sink.is_sound (Sink.view self.old.sink) }
        ensures { Keeps Sink.TokenSink self.old self.new c result }
    {
        self.report_if(
            !ends_tag_name(c),
            ErrorCode::MissingWhitespaceBetweenAttributes,
        )?;
        self.consume_after_value(c)
    }

    /// The same, where an error of the character was told.
    fn consume_after_value(&mut self, c: char) -> Result<ProcessResult<Sink::Handle>, ParseFault>
        requires at { IsAt self.old state.AfterAttributeValueQuoted }
        requires sound { Sink.is_sound (Sink.view self.old.sink) }
        ensures { Keeps Sink.TokenSink self.old self.new c result }
    {
        self.state = State::BeforeAttributeName;
        self.before_attribute_name_state(c)
    }
}
