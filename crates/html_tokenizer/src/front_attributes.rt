//! Attributes at the front of the input, which are taken at once after one space each (HTML Standard, sections 13.2.5.32 to
//! 13.2.5.39): the name, and a value as far as its characters stand for themselves.
ghost use Rattle.std.specs.Prelude.{◌≡◌, ◌<◌, ◌∷◌, true, false, Some, IfErr, IfOk, IfSome, OnOk};
ghost use Rattle.std.specs.Str.{IsUtf8, chars};
ghost use Rattle.html_tokens.specs.declared.states.State.TheVariants as state;
ghost use Rattle.markup.specs.declared.fault.ParseFault.TheVariants.{Memory};
ghost use Rattle.html_tokenizer.specs.Calls.{answered};
ghost use Rattle.html_tokenizer.specs.Fronts;
ghost use Rattle.html_tokenizer.specs.Fronts.{IsFilled, IsInTag, IsNameAt, TakesFront, ended, naming};
ghost use Rattle.html_tokenizer.specs.Quotes.{quote_of};
ghost use Rattle.html_tokenizer.specs.Steps.{IsAt, Keeps};

use crate::char_bits::{
    AMPERSAND, APOSTROPHE, BREAKS, EQUALS, FORM_FEED, GREATER_THAN, LESS_THAN, QUOTE, SPACE, TAB,
};
use crate::front_tags::after_byte;
use crate::text_runs::{attribute_stops, value_stops};
use crate::tokenizer::Tokenizer;
use html_queue::SmallCharSet;
use html_tokens::ProcessResult;
use html_tokens::sink::TokenSink;
use html_tokens::states::{AttrValueKind, State};
use markup::{LocalName, ParseFault, Text};

/// The characters below U+0040 of a value without quotes that end it or do not stand for themselves.
fn plain_stops() -> SmallCharSet
    ensures { result ≡ Fronts.plain_stops }
{
    SmallCharSet {
        bits: BREAKS
            | TAB
            | FORM_FEED
            | SPACE
            | QUOTE
            | AMPERSAND
            | APOSTROPHE
            | LESS_THAN
            | EQUALS
            | GREATER_THAN,
    }
}

/// Whether a grave accent stands in a text, which is an error in a value without quotes.
fn has_grave_accent(text: &str) -> bool {
    text.as_bytes().contains(&b'`')
}

/// Whether a character stands at the front.
fn is_filled(text: &str) -> bool
    ensures { result ≡ true → IsFilled (chars text.now) }
{
    !text.is_empty()
}

/// The name of an attribute at the front of a text after a space, if one stands there, and what follows it.
fn name_of(text: &str) -> Option<(&str, &str)>
    ensures { IfSome result (λ r. IsNameAt r.0.now r.1.now text.now) }
{
    let Some(inner) = after_byte(text, b' ') else {
        return None;
    };
    let (name, rest) = attribute_stops().split(inner);
    if !is_filled(name) {
        return None;
    }
    Some((name, rest))
}

impl<Sink: TokenSink> Tokenizer<Sink> {
    /// Whether the machine stands where `>` ends the tag, and an attribute may follow a space: after the tag's name or a value
    /// in quotes, or in an attribute's name or a value without quotes.
    pub(crate) fn is_in_tag(&self) -> bool
        ensures { result ≡ true → IsInTag self.now }
    {
        self.char_ref.is_none()
            && matches!(
                self.state,
                State::TagName
                    | State::AfterAttributeValueQuoted
                    | State::AttributeName
                    | State::AttributeValue(AttrValueKind::Unquoted)
            )
    }

    /// Adds the attribute that is read to the tag, if one is.
    pub(crate) fn end_attribute(&mut self) -> Result<(), ParseFault>
        ensures ok { OnOk result (self.new ≡ ended self.old) }
        ensures fault { IfErr result (λ fault. fault ≡ Memory) }
        ensures sink { self.new.sink ≡ self.old.sink }
    {
        match self.state {
            State::AttributeName => self.finish_without_value(),
            State::AttributeValue(_) => self.finish_attribute(),
            _ => Ok(()),
        }
    }

    /// Ends the tag at its `>`, and leaves the answer in its place.
    #[inline(never)]
    pub(crate) fn close_tag(
        &mut self,
        answer: &mut ProcessResult<Sink::Handle>,
    ) -> Result<(), ParseFault>
        requires at { IsInTag self.old }
        requires sound { Sink.is_sound (Sink.view self.old.sink) }
        ensures { Keeps Sink.TokenSink self.old self.new 62 (answered answer.new result) }
    {
        self.end_attribute()?;
        *answer = self.emit_tag()?;
        Ok(())
    }

    /// Begins an attribute of this name.
    pub(crate) fn begin_attribute(&mut self, name: &str) -> Result<(), ParseFault>
        ensures ok { OnOk result (self.new ≡ naming (ended self.old) (chars name.now)) }
        ensures fault { IfErr result (λ fault. fault ≡ Memory) }
        ensures sink { self.new.sink ≡ self.old.sink }
    {
        self.end_attribute()?;
        self.attribute_name = LocalName::from_str_lowered(self.stream.alloc, name)?;
        self.state = State::AttributeName;
        Ok(())
    }

    /// Takes a value, after its first quote, from the front of a text, as far as its characters stand for themselves or are
    /// references by whole names: what is left of the text.
    fn consume_quoted<'a>(
        &mut self,
        kind: AttrValueKind,
        quote: u8,
        text: &'a str,
    ) -> Result<&'a str, ParseFault>
        requires at { IsAt self.old state.BeforeAttributeValue }
        requires quote { quote_of kind ≡ Some quote }
        requires ascii { quote < 128 }
        requires sound { Sink.is_sound (Sink.view self.old.sink) }
        ensures ok { IfOk result (λ rest. TakesFront Sink.TokenSink self.old self.new (quote ∷ text.now) rest.now) }
        ensures utf8 { IfOk result (λ rest. IsUtf8 rest.now) }
        ensures fault { IfErr result (λ fault. fault ≡ Memory) }
        ensures sink { self.new.sink ≡ self.old.sink }
    {
        let (value, after) = value_stops(kind).split(text);
        self.attribute_value = Text::from_str(self.stream.alloc, value)?;
        self.state = State::AttributeValue(kind);
        let rest = self.consume_references(kind, after)?;
        let Some(behind) = after_byte(rest, quote) else {
            return Ok(rest);
        };
        self.finish_attribute()?;
        self.state = State::AfterAttributeValueQuoted;
        Ok(behind)
    }

    /// Takes a value without quotes from the front of a text, if it is one without an error and without a reference: what is
    /// left of the text.
    fn consume_plain<'a>(&mut self, text: &'a str) -> Result<&'a str, ParseFault>
        requires at { IsAt self.old state.BeforeAttributeValue }
        requires sound { Sink.is_sound (Sink.view self.old.sink) }
        ensures ok { IfOk result (λ rest. TakesFront Sink.TokenSink self.old self.new text.now rest.now) }
        ensures utf8 { IfOk result (λ rest. IsUtf8 rest.now) }
        ensures fault { IfErr result (λ fault. fault ≡ Memory) }
        ensures sink { self.new.sink ≡ self.old.sink }
    {
        let (value, rest) = plain_stops().split(text);
        if !is_filled(value) || has_grave_accent(value) {
            return Ok(text);
        }
        self.attribute_value = Text::from_str(self.stream.alloc, value)?;
        self.state = State::AttributeValue(AttrValueKind::Unquoted);
        Ok(rest)
    }

    /// Takes a value after `=` from the front of a text, as far as it can be taken at once: what is left of the text.
    fn consume_value<'a>(&mut self, text: &'a str) -> Result<&'a str, ParseFault>
        requires at { IsAt self.old state.BeforeAttributeValue }
        requires sound { Sink.is_sound (Sink.view self.old.sink) }
        ensures ok { IfOk result (λ rest. TakesFront Sink.TokenSink self.old self.new text.now rest.now) }
        ensures utf8 { IfOk result (λ rest. IsUtf8 rest.now) }
        ensures fault { IfErr result (λ fault. fault ≡ Memory) }
        ensures sink { self.new.sink ≡ self.old.sink }
    {
        if let Some(inner) = after_byte(text, b'"') {
            return self.consume_quoted(AttrValueKind::DoubleQuoted, b'"', inner);
        }
        if let Some(inner) = after_byte(text, b'\'') {
            return self.consume_quoted(AttrValueKind::SingleQuoted, b'\'', inner);
        }
        self.consume_plain(text)
    }

    /// Takes what follows an attribute's name, if it is `=`, and the value after it: what is left of the text.
    pub(crate) fn consume_equals<'a>(&mut self, text: &'a str) -> Result<&'a str, ParseFault>
        requires at { IsAt self.old state.AttributeName }
        requires sound { Sink.is_sound (Sink.view self.old.sink) }
        ensures ok { IfOk result (λ rest. TakesFront Sink.TokenSink self.old self.new text.now rest.now) }
        ensures utf8 { IfOk result (λ rest. IsUtf8 rest.now) }
        ensures fault { IfErr result (λ fault. fault ≡ Memory) }
        ensures sink { self.new.sink ≡ self.old.sink }
    {
        let Some(inner) = after_byte(text, b'=') else {
            return Ok(text);
        };
        self.state = State::BeforeAttributeValue;
        self.consume_value(inner)
    }

    /// The name of an attribute at the front of a text, where one may stand, and what follows it.
    fn next_name<'a>(&self, text: &'a str) -> Option<(&'a str, &'a str)>
        ensures at { IfSome result (λ r. IsInTag self.now) }
        ensures name { IfSome result (λ r. IsNameAt r.0.now r.1.now text.now) }
    {
        if !self.is_in_tag() {
            return None;
        }
        name_of(text)
    }

    /// The same where errors of single characters are not told.
    pub(crate) fn name_ahead<'a>(&self, text: &'a str) -> Option<(&'a str, &'a str)>
        ensures at { IfSome result (λ r. IsInTag self.now) }
        ensures plain { IfSome result (λ r. self.now.stream.exact_errors ≡ false) }
        ensures unmarked { IfSome result (λ r. self.now.stream.discard_bom ≡ false) }
        ensures name { IfSome result (λ r. IsNameAt r.0.now r.1.now text.now) }
    {
        if self.stream.exact_errors || self.stream.discard_bom {
            return None;
        }
        let (name, after) = self.next_name(text)?;
        Some((name, after))
    }

    /// Takes the attributes at the front of a text, as far as they can be taken at once: what is left of the text.
    pub(crate) fn consume_attributes<'a>(&mut self, text: &'a str) -> Result<&'a str, ParseFault>
        requires at { IsInTag self.old }
        requires sound { Sink.is_sound (Sink.view self.old.sink) }
        ensures ok { IfOk result (λ rest. TakesFront Sink.TokenSink self.old self.new text.now rest.now) }
        ensures fault { IfErr result (λ fault. fault ≡ Memory) }
        ensures sink { self.new.sink ≡ self.old.sink }
    {
        let mut rest = text;
        while let Some((name, after)) = self.next_name(rest) {
            rest = self.consume_attribute(name, after)?;
        }
        Ok(rest)
    }
}
