//! References at the front of the input, whose name is read at once up to its `;` (HTML Standard, sections 13.2.5.72 and 13.2.5.73).
ghost use Rattle.std.specs.Prelude.{◌≡◌, ◌≢◌, ◌≤◌, ◌∷◌, ℕ, List, length, true, IfErr, IfOk, IfSome};
ghost use Rattle.std.specs.Str.{IsUtf8, chars};
ghost use Rattle.html_tokenizer.specs.Fronts;
ghost use Rattle.html_tokenizer.specs.Fronts.{IsFoundAt, IsReferenceAt, ReadsAhead, StandsFor, TakesFront};
ghost use Rattle.html_tokenizer.specs.Calls.{KeepsRun};
ghost use Rattle.html_tokenizer.specs.Rest.{rows_of};
ghost use Rattle.html_tokenizer.specs.Steps.{IsAt};
ghost use Rattle.html_tokenizer_parts.specs.CharRefs.{ends_in_semicolon};
ghost use Rattle.html_tokens.specs.declared.states.AttrValueKind.TheVariants as value;
ghost use Rattle.html_tokens.specs.declared.states.State.TheVariants as state;
ghost use Rattle.markup.specs.declared.fault.ParseFault.TheVariants.{Memory};

use crate::char_bits::{AMPERSAND, BREAKS, FORM_FEED, LESS_THAN, SEMICOLON, SPACE, TAB};
use crate::front_tags::after_byte;
use crate::text_runs::value_stops;
use crate::tokenizer::Tokenizer;
use html_queue::SmallCharSet;
use html_tokenizer_parts::numbers::Found;
use html_tokenizer_parts::references::{push_found, whole};
use html_tokens::Token;
use html_tokens::sink::TokenSink;
use html_tokens::states::{AttrValueKind, State};
use markup::{ParseFault, Text};

/// The characters before which no name of a reference goes on: NUL, white space, `&`, `;` and `<`.
fn reference_stops() -> SmallCharSet
    ensures { result ≡ Fronts.reference_stops }
{
    SmallCharSet {
        bits: BREAKS | TAB | FORM_FEED | SPACE | AMPERSAND | SEMICOLON | LESS_THAN,
    }
}

/// A name with its `;` after an `&` at the front of a text, and what follows it.
pub(crate) fn reference_of(text: &str) -> Option<(&str, &str)>
    ensures { IfSome result (λ r. IsReferenceAt r.0.now r.1.now text.now) }
{
    let Some(inner) = after_byte(text, b'&') else {
        return None;
    };
    let (name, after) = reference_stops().split(inner);
    let Some(rest) = after_byte(after, b';') else {
        return None;
    };
    Some((&inner[..name.len() + 1], rest))
}

impl<Sink: TokenSink> Tokenizer<Sink> {
    /// What a name with its `;` stands for, if it is one of the table.
    #[inline(always)]
    pub(crate) fn whole_name(&self, name: &str) -> Option<Found>
        requires { ends_in_semicolon (chars name.now) ≡ true }
        ensures { IfSome result (StandsFor (rows_of self.now) (chars name.now)) }
    {
        let _rows = self.stream.table.rows();
        let found = whole(&self.stream.table, name)?;
        Some(found)
    }

    /// Hands out what a whole name stands for in data.
    pub(crate) fn emit_whole_name(&mut self, found: Found) -> Result<(), ParseFault>
        requires at { IsAt self.old state.Data }
        requires sound { Sink.is_sound (Sink.view self.old.sink) }
        ensures { (cs : List ℕ) → StandsFor (rows_of self.old) cs found → KeepsRun Sink.TokenSink self.old self.new (38 ∷ cs) result }
    {
        let mut text = Text::empty(self.stream.alloc);
        push_found(&mut text, found)?;
        self.emit(Token::CharacterTokens(text))
    }

    /// Puts what a whole name stands for after an attribute's value.
    pub(crate) fn consume_whole_name(
        &mut self,
        kind: AttrValueKind,
        found: Found,
    ) -> Result<(), ParseFault>
        requires at { IsAt self.old (state.AttributeValue kind) }
        requires sound { Sink.is_sound (Sink.view self.old.sink) }
        ensures keeps { (cs : List ℕ) → StandsFor (rows_of self.old) cs found → KeepsRun Sink.TokenSink self.old self.new (38 ∷ cs) result }
        ensures changed { self.new ≡ record self.old { attribute_value = self.new.attribute_value } }
        ensures fault { IfErr result (λ fault. fault ≡ Memory) }
    {
        let _kind = kind;
        push_found(&mut self.attribute_value, found)
    }

    /// What a whole name of a reference at the front of a text stands for, and what follows the name.
    fn next_reference<'a>(&self, text: &'a str) -> Option<(Found, &'a str)>
        ensures is { IfSome result (λ r. IsFoundAt (rows_of self.now) r.0 r.1.now text.now) }
    {
        let (name, rest) = reference_of(text)?;
        let found = self.whole_name(name)?;
        Some((found, rest))
    }

    /// Puts what a whole name stands for after a value in quotes, and the characters after the name that stand for themselves:
    /// what is left of the text.
    fn consume_reference<'a>(
        &mut self,
        kind: AttrValueKind,
        found: Found,
        text: &'a str,
    ) -> Result<&'a str, ParseFault>
        requires at { IsAt self.old (state.AttributeValue kind) }
        requires quoted { kind ≢ value.Unquoted }
        requires sound { Sink.is_sound (Sink.view self.old.sink) }
        ensures ok { IfOk result (λ rest. (whole : List ℕ) → IsFoundAt (rows_of self.old) found text.now whole
            → TakesFront Sink.TokenSink self.old self.new whole rest.now) }
        ensures changed { self.new ≡ record self.old { attribute_value = self.new.attribute_value } }
        ensures utf8 { IfOk result (λ rest. IsUtf8 rest.now) }
        ensures no_longer { IfOk result (λ rest. length rest.now ≤ length text.now) }
        ensures fault { IfErr result (λ fault. fault ≡ Memory) }
    {
        self.consume_whole_name(kind, found)?;
        let (value, rest) = value_stops(kind).split(text);
        self.attribute_value.push_str(value)?;
        Ok(rest)
    }

    /// Takes references by whole names, and the characters after them that stand for themselves, in a value in quotes: what is
    /// left of the text.
    pub(crate) fn consume_references<'a>(
        &mut self,
        kind: AttrValueKind,
        text: &'a str,
    ) -> Result<&'a str, ParseFault>
        requires at { IsAt self.old (state.AttributeValue kind) }
        requires quoted { kind ≢ value.Unquoted }
        requires sound { Sink.is_sound (Sink.view self.old.sink) }
        ensures ok { IfOk result (λ rest. TakesFront Sink.TokenSink self.old self.new text.now rest.now) }
        ensures changed { self.new ≡ record self.old { attribute_value = self.new.attribute_value } }
        ensures utf8 { IfOk result (λ rest. IsUtf8 rest.now) }
        ensures fault { IfErr result (λ fault. fault ≡ Memory) }
    {
        let mut rest = text;
        while let Some((found, behind)) = self.next_reference(rest) {
            rest = self.consume_reference(kind, found, behind)?;
        }
        Ok(rest)
    }

    /// The kind of the value in which a whole name may be read at once: where errors of single characters are not told.
    pub(crate) fn value_read(&self) -> Option<AttrValueKind>
        ensures { IfSome result (λ kind. ReadsAhead self.now (state.AttributeValue kind)) }
    {
        match self.state {
            State::AttributeValue(kind)
                if self.char_ref.is_none()
                    && !self.stream.exact_errors
                    && !self.stream.discard_bom => { Some(kind) }
            _ => None,
        }
    }
}
