//! Character references in text and in attributes' values (HTML Standard, sections 13.2.5.72 to 13.2.5.80).
ghost use Rattle.std.specs.Prelude.{◌≡◌, IfErr, IfOk, Some, None, true, false};
ghost use Rattle.std.specs.List.{list_all};
ghost use Rattle.std.specs.Char.{is_ascii_alphanumeric};
ghost use Rattle.html_references.specs.References.{IsCheckedTable};
ghost use Rattle.markup.specs.declared.fault.ParseFault.TheVariants.{Memory};
ghost use Rattle.html_tokens.specs.Reference.{fault_of_reference};
ghost use Rattle.html_tokens.specs.declared.states.RawKind.TheVariants as raw;
ghost use Rattle.html_tokens.specs.declared.states.State.TheVariants as state;
ghost use Rattle.html_tokens.specs.declared.token.Token.TheVariants.{CharacterTokens};
ghost use Rattle.html_tokenizer_parts.specs.CharRefs.{IsDecided, has_fault, is_held, is_held_front, may_go_on, may_hold, resolved};
ghost use Rattle.html_tokenizer_parts.specs.declared.held_reference.Ampersand.TheVariants.{Held, Unknown};
ghost use Rattle.html_tokenizer.specs.Rest.{rows_of};
ghost use Rattle.html_tokenizer.specs.Steps.{IsAt, Keeps, Errs, Tells, owed_for};
ghost use Rattle.html_tokens.specs.Item.{grave_if};

use crate::tokenizer::Tokenizer;
use html_tokenizer_parts::error_code::ErrorCode;
use html_tokenizer_parts::held_reference::{Ampersand, HeldReference};
use html_tokenizer_parts::numbers::ReferenceFaults;
use html_tokenizer_parts::references::{decided, goes_on_at, is_unknown, may_go_on, push_resolved};
use html_tokens::sink::TokenSink;
use html_tokens::states::{AttrValueKind, RawKind, State};
use html_tokens::{ProcessResult, Token};
use markup::{ParseFault, Text};

impl<Sink: TokenSink> Tokenizer<Sink> {
    /// Tells the errors of a reference.
    fn report_reference_faults(&mut self, faults: ReferenceFaults) -> Result<(), ParseFault>
        requires sound { Sink.is_sound (Sink.view self.old.sink) }
        ensures { Errs Sink.TokenSink (owed_for (grave_if (has_fault faults))) self.old self.new result }
    {
        self.report_if(
            faults.lacks_semicolon,
            ErrorCode::MissingSemicolonAfterCharacterReference,
        )?;
        self.report_fault(faults.fault)
    }

    /// Hands out what a reference in text stands for.
    pub(crate) fn emit_reference(&mut self, held: &HeldReference) -> Result<(), ParseFault>
        requires sound { Sink.is_sound (Sink.view self.old.sink) }
        ensures { Tells Sink.TokenSink (owed_for (fault_of_reference (rows_of self.old) held.now))
            (CharacterTokens (resolved false (rows_of self.old) held.now false)) self.old self.new result }
    {
        let decision = decided(&self.stream.table, false, held, false);
        let mut text = Text::empty(self.stream.alloc);
        push_resolved(&mut text, decision.found, held)?;
        self.report_reference_faults(decision.faults)?;
        self.emit(Token::CharacterTokens(text))
    }

    /// A reference ends in data.
    fn end_reference_in_data(
        &mut self,
        held: &HeldReference,
        c: char,
    ) -> Result<ProcessResult<Sink::Handle>, ParseFault>
        requires at { IsAt self.old state.Data }
        requires decided { IsDecided (rows_of self.old) held.now c }
        requires sound { Sink.is_sound (Sink.view self.old.sink) }
        ensures { Keeps Sink.TokenSink (record self.old { char_ref = Some (Held held.now) }) self.new c result }
    {
        let unknown = is_unknown(&self.stream.table, held, c);
        self.emit_reference(held)?;
        if unknown {
            return self.ambiguous_ampersand_state(c);
        }
        self.data_state(c)
    }

    /// A reference ends in text with references that only its end tag ends.
    fn end_reference_in_rcdata(
        &mut self,
        held: &HeldReference,
        c: char,
    ) -> Result<ProcessResult<Sink::Handle>, ParseFault>
        requires at { IsAt self.old (state.RawData raw.Rcdata) }
        requires decided { IsDecided (rows_of self.old) held.now c }
        requires sound { Sink.is_sound (Sink.view self.old.sink) }
        ensures { Keeps Sink.TokenSink (record self.old { char_ref = Some (Held held.now) }) self.new c result }
    {
        let unknown = is_unknown(&self.stream.table, held, c);
        self.emit_reference(held)?;
        if unknown {
            return self.ambiguous_ampersand_state(c);
        }
        self.raw_data_state(RawKind::Rcdata, c)
    }

    /// A reference ends in an attribute's value.
    fn end_reference_in_value(
        &mut self,
        kind: AttrValueKind,
        held: &HeldReference,
        c: char,
    ) -> Result<ProcessResult<Sink::Handle>, ParseFault>
        requires at { IsAt self.old (state.AttributeValue kind) }
        requires decided { IsDecided (rows_of self.old) held.now c }
        requires sound { Sink.is_sound (Sink.view self.old.sink) }
        ensures { Keeps Sink.TokenSink (record self.old { char_ref = Some (Held held.now) }) self.new c result }
    {
        let unknown = is_unknown(&self.stream.table, held, c);
        let decision = decided(&self.stream.table, true, held, goes_on_at(c));
        self.report_reference_faults(decision.faults)?;
        push_resolved(&mut self.attribute_value, decision.found, held)?;
        if unknown {
            return self.ambiguous_ampersand_state(c);
        }
        self.attribute_value_state(kind, c)
    }

    /// A letter or digit of an unknown name in data.
    fn consume_unknown_in_data(
        &mut self,
        c: char,
    ) -> Result<ProcessResult<Sink::Handle>, ParseFault>
        requires at { IsAt self.old state.Data }
        requires named { is_ascii_alphanumeric c ≡ true }
        requires sound { Sink.is_sound (Sink.view self.old.sink) }
        ensures { Keeps Sink.TokenSink (record self.old { char_ref = Some Unknown }) self.new c result }
    {
        self.emit_char(c)?;
        self.char_ref = Some(Ampersand::Unknown);
        Ok(ProcessResult::Continue)
    }

    /// The same in text with references that only its end tag ends.
    fn consume_unknown_in_rcdata(
        &mut self,
        c: char,
    ) -> Result<ProcessResult<Sink::Handle>, ParseFault>
        requires at { IsAt self.old (state.RawData raw.Rcdata) }
        requires named { is_ascii_alphanumeric c ≡ true }
        requires sound { Sink.is_sound (Sink.view self.old.sink) }
        ensures { Keeps Sink.TokenSink (record self.old { char_ref = Some Unknown }) self.new c result }
    {
        self.emit_shown(c)?;
        self.char_ref = Some(Ampersand::Unknown);
        Ok(ProcessResult::Continue)
    }

    /// The same in an attribute's value.
    fn consume_unknown_in_value(
        &mut self,
        kind: AttrValueKind,
        c: char,
    ) -> Result<ProcessResult<Sink::Handle>, ParseFault>
        requires at { IsAt self.old (state.AttributeValue kind) }
        requires named { is_ascii_alphanumeric c ≡ true }
        requires sound { Sink.is_sound (Sink.view self.old.sink) }
        ensures { Keeps Sink.TokenSink (record self.old { char_ref = Some Unknown }) self.new c result }
    {
        self.attribute_value.push(c)?;
        self.char_ref = Some(Ampersand::Unknown);
        Ok(ProcessResult::Continue)
    }

    /// A letter or digit of an unknown name: text, or a part of the value.
    fn consume_unknown(&mut self, c: char) -> Result<ProcessResult<Sink::Handle>, ParseFault>
        requires fresh { self.old.char_ref ≡ None }
        requires fits { may_hold self.old.state ≡ true }
        requires named { is_ascii_alphanumeric c ≡ true }
        requires sound { Sink.is_sound (Sink.view self.old.sink) }
        ensures { Keeps Sink.TokenSink (record self.old { char_ref = Some Unknown }) self.new c result }
    {
        match self.state {
            State::Data => self.consume_unknown_in_data(c),
            State::RawData(RawKind::Rcdata) => self.consume_unknown_in_rcdata(c),
            State::AttributeValue(kind) => self.consume_unknown_in_value(kind, c),
            // Never met: after `&` the machine is in one of these three.
            _ => Ok(ProcessResult::Continue),
        }
    }

    /// Section 13.2.5.74: after `&` and an unknown name.
    pub(crate) fn ambiguous_ampersand_state(
        &mut self,
        c: char,
    ) -> Result<ProcessResult<Sink::Handle>, ParseFault>
        requires fresh { self.old.char_ref ≡ None }
        requires fits { may_hold self.old.state ≡ true }
        requires sound { Sink.is_sound (Sink.view self.old.sink) }
        ensures { Keeps Sink.TokenSink (record self.old { char_ref = Some Unknown }) self.new c result }
    {
        if c.is_ascii_alphanumeric() {
            return self.consume_unknown(c);
        }
        self.report_if(c == ';', ErrorCode::UnknownNamedCharacterReference)?;
        self.step(c)
    }

    /// A reference that is held takes one character more.
    fn hold_more(
        &mut self,
        mut held: HeldReference,
        c: char,
    ) -> Result<ProcessResult<Sink::Handle>, ParseFault>
        requires fresh { self.old.char_ref ≡ None }
        requires fits { may_hold self.old.state ≡ true }
        requires held { is_held c ≡ true }
        requires front { may_go_on (rows_of self.old) held c ≡ true }
        requires sound { Sink.is_sound (Sink.view self.old.sink) }
        ensures { Keeps Sink.TokenSink (record self.old { char_ref = Some (Held held) }) self.new c result }
    {
        held.push(c)?;
        self.char_ref = Some(Ampersand::Held(held));
        Ok(ProcessResult::Continue)
    }

    /// A reference that is held ends before a character.
    fn end_held(
        &mut self,
        held: HeldReference,
        c: char,
    ) -> Result<ProcessResult<Sink::Handle>, ParseFault>
        requires fresh { self.old.char_ref ≡ None }
        requires fits { may_hold self.old.state ≡ true }
        requires decided { IsDecided (rows_of self.old) held c }
        requires sound { Sink.is_sound (Sink.view self.old.sink) }
        ensures { Keeps Sink.TokenSink (record self.old { char_ref = Some (Held held) }) self.new c result }
    {
        match self.state {
            State::Data => self.end_reference_in_data(&held, c),
            State::RawData(RawKind::Rcdata) => self.end_reference_in_rcdata(&held, c),
            State::AttributeValue(kind) => self.end_reference_in_value(kind, &held, c),
            // Never met: after `&` the machine is in one of these three.
            _ => Ok(ProcessResult::Continue),
        }
    }

    /// Whether a reference that is held goes on by a character.
    fn goes_on(&self, held: &HeldReference, c: char) -> Result<bool, ParseFault>
        requires { is_held_front (rows_of self.now) held.now ≡ true }
        ensures is { IfOk result (λ goes_on. goes_on ≡ may_go_on (rows_of self.now) held.now c) }
        ensures table { IsCheckedTable (rows_of self.now) }
        ensures held { list_all is_held held.now ≡ true }
        ensures fault { IfErr result (λ fault. fault ≡ Memory) }
    {
        may_go_on(self.stream.alloc, &self.stream.table, held, c)
    }

    /// Goes on with the reference that was held: by one character more of it, or else by what it stands for and then the character.
    #[inline(never)]
    pub(crate) fn reference_state(
        &mut self,
        held: HeldReference,
        c: char,
    ) -> Result<ProcessResult<Sink::Handle>, ParseFault>
        requires fresh { self.old.char_ref ≡ None }
        requires fits { may_hold self.old.state ≡ true }
        requires front { is_held_front (rows_of self.old) held ≡ true }
        requires sound { Sink.is_sound (Sink.view self.old.sink) }
        ensures { Keeps Sink.TokenSink (record self.old { char_ref = Some (Held held) }) self.new c result }
    {
        let goes_on = self.goes_on(&held, c)?;
        if goes_on {
            return self.hold_more(held, c);
        }
        self.end_held(held, c)
    }
}
