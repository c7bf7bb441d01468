//! What the end of the input makes of text and of a tag, and of a reference that is held (HTML Standard, sections 13.2.5.1 to 13.2.5.40
//! and 13.2.5.69 to 13.2.5.73).
ghost use Rattle.std.specs.Prelude.{◌≡◌, Some, None, true};
ghost use Rattle.std.specs.List.{list_all};
ghost use Rattle.html_tokens.specs.declared.states.RawKind.TheVariants as raw;
ghost use Rattle.html_tokens.specs.declared.states.State.TheVariants as state;
ghost use Rattle.html_tokenizer.specs.Calls.{Closes};
ghost use Rattle.html_tokenizer.specs.Rest.{rows_of};
ghost use Rattle.html_tokenizer_parts.specs.CharRefs.{fits_in, is_held, may_hold};
ghost use Rattle.html_tokenizer_parts.specs.declared.held_reference.Ampersand.TheVariants.{Held, Unknown};
ghost use Rattle.html_tokenizer.specs.EndText.{is_emitted_text, is_tag_part, is_escaped};
ghost use Rattle.html_tokenizer.specs.Steps.{IsAt, Errs, owed_for};
ghost use Rattle.html_tokens.specs.Item.{grave_if};

use crate::raw_states::ends_at_tag;
use crate::tokenizer::Tokenizer;
use html_tokenizer_parts::error_code::ErrorCode;
use html_tokenizer_parts::held_reference::{Ampersand, HeldReference};
use html_tokens::sink::TokenSink;
use html_tokens::states::{AttrValueKind, RawKind, ScriptEscapeKind, State};
use markup::ParseFault;

/// Whether a state is one of a script's escaped text, after `<!--`.
fn is_escaped(state: State) -> bool
    ensures { result ≡ is_escaped state }
{
    matches!(
        state,
        State::RawData(RawKind::ScriptDataEscaped(_))
            | State::RawLessThanSign(RawKind::ScriptDataEscaped(_))
            | State::RawEndTagOpen(RawKind::ScriptDataEscaped(_))
            | State::RawEndTagName(RawKind::ScriptDataEscaped(_))
            | State::ScriptDataEscapeStart(ScriptEscapeKind::DoubleEscaped)
            | State::ScriptDataEscapedDash(_)
            | State::ScriptDataEscapedDashDash(_)
            | State::ScriptDataDoubleEscapeEnd
    )
}

impl<Sink: TokenSink> Tokenizer<Sink> {
    /// Tells of the end of the input, if it stands in a script's escaped text.
    fn emit_escaped_end(&mut self) -> Result<(), ParseFault>
        requires sound { Sink.is_sound (Sink.view self.old.sink) }
        ensures { Errs Sink.TokenSink (owed_for (grave_if (is_escaped self.old.state))) self.old self.new result }
    {
        self.report_if(
            is_escaped(self.state),
            ErrorCode::EofInScriptHtmlCommentLikeText,
        )
    }

    /// The input ends in text of which nothing is held.
    fn end_told_text(&mut self) -> Result<(), ParseFault>
        requires at { is_emitted_text self.old.state ≡ true }
        requires fresh { self.old.char_ref ≡ None }
        requires sound { Sink.is_sound (Sink.view self.old.sink) }
        ensures { Closes Sink.TokenSink self.old self.new result }
    {
        let _letters = self.word.as_str();
        self.emit_escaped_end()
    }

    /// The input ends after `<`, which was text.
    fn end_tag_open(&mut self) -> Result<(), ParseFault>
        requires at { IsAt self.old state.TagOpen }
        requires sound { Sink.is_sound (Sink.view self.old.sink) }
        ensures { Closes Sink.TokenSink self.old self.new result }
    {
        self.emit_unopened(ErrorCode::EofBeforeTagName)
    }

    /// The input ends after `</`, which was text.
    fn end_end_tag_open(&mut self) -> Result<(), ParseFault>
        requires at { IsAt self.old state.EndTagOpen }
        requires sound { Sink.is_sound (Sink.view self.old.sink) }
        ensures { Closes Sink.TokenSink self.old self.new result }
    {
        self.emit_unopened_end(ErrorCode::EofBeforeTagName)
    }

    /// The input ends in raw text after `<`, which is held where it may begin the fitting end tag.
    fn end_raw_less_than_sign(&mut self, kind: RawKind) -> Result<(), ParseFault>
        requires at { IsAt self.old (state.RawLessThanSign kind) }
        requires sound { Sink.is_sound (Sink.view self.old.sink) }
        ensures { Closes Sink.TokenSink self.old self.new result }
    {
        if !ends_at_tag(kind) {
            return self.emit_escaped_end();
        }
        self.emit_char('<')?;
        self.emit_escaped_end()
    }

    /// The input ends in raw text after `</`, which was text.
    fn end_raw_end_tag_open(&mut self, kind: RawKind) -> Result<(), ParseFault>
        requires at { IsAt self.old (state.RawEndTagOpen kind) }
        requires sound { Sink.is_sound (Sink.view self.old.sink) }
        ensures { Closes Sink.TokenSink self.old self.new result }
    {
        self.emit_two('<', '/')?;
        self.emit_escaped_end()
    }

    /// The input ends in raw text after `</` and letters, which were text.
    fn end_raw_end_tag_name(&mut self, kind: RawKind) -> Result<(), ParseFault>
        requires at { IsAt self.old (state.RawEndTagName kind) }
        requires sound { Sink.is_sound (Sink.view self.old.sink) }
        ensures { Closes Sink.TokenSink self.old self.new result }
    {
        self.emit_end_tag()?;
        self.emit_escaped_end()
    }

    /// The input ends in a CDATA section.
    fn end_cdata_section(&mut self) -> Result<(), ParseFault>
        requires at { IsAt self.old state.CdataSection }
        requires sound { Sink.is_sound (Sink.view self.old.sink) }
        ensures { Closes Sink.TokenSink self.old self.new result }
    {
        self.report_error(ErrorCode::EofInCdata)
    }

    /// The input ends in a CDATA section after `]`, which was text.
    fn end_cdata_section_bracket(&mut self) -> Result<(), ParseFault>
        requires at { IsAt self.old state.CdataSectionBracket }
        requires sound { Sink.is_sound (Sink.view self.old.sink) }
        ensures { Closes Sink.TokenSink self.old self.new result }
    {
        self.emit_char(']')?;
        self.report_error(ErrorCode::EofInCdata)
    }

    /// The input ends in a CDATA section after `]]`, which was text.
    fn end_cdata_section_end(&mut self) -> Result<(), ParseFault>
        requires at { IsAt self.old state.CdataSectionEnd }
        requires sound { Sink.is_sound (Sink.view self.old.sink) }
        ensures { Closes Sink.TokenSink self.old self.new result }
    {
        self.emit_two(']', ']')?;
        self.report_error(ErrorCode::EofInCdata)
    }

    /// The input ends in a tag, which is not told.
    fn end_tag_part(&mut self) -> Result<(), ParseFault>
        requires at { is_tag_part self.old.state ≡ true }
        requires fresh { self.old.char_ref ≡ None }
        requires sound { Sink.is_sound (Sink.view self.old.sink) }
        ensures { Closes Sink.TokenSink self.old self.new result }
    {
        self.report_error(ErrorCode::EofInTag)
    }

    /// The input ends where no reference is held.
    fn end_state(&mut self) -> Result<(), ParseFault>
        requires fresh { self.old.char_ref ≡ None }
        requires sound { Sink.is_sound (Sink.view self.old.sink) }
        ensures { Closes Sink.TokenSink self.old self.new result }
    {
        match self.state {
            State::Data
            | State::Plaintext
            | State::RawData(_)
            | State::ScriptDataEscapeStart(_)
            | State::ScriptDataEscapeStartDash
            | State::ScriptDataEscapedDash(_)
            | State::ScriptDataEscapedDashDash(_)
            | State::ScriptDataDoubleEscapeEnd => self.end_told_text(),
            State::TagOpen => self.end_tag_open(),
            State::EndTagOpen => self.end_end_tag_open(),
            State::RawLessThanSign(kind) => self.end_raw_less_than_sign(kind),
            State::RawEndTagOpen(kind) => self.end_raw_end_tag_open(kind),
            State::RawEndTagName(kind) => self.end_raw_end_tag_name(kind),
            State::CdataSection => self.end_cdata_section(),
            State::CdataSectionBracket => self.end_cdata_section_bracket(),
            State::CdataSectionEnd => self.end_cdata_section_end(),
            State::TagName
            | State::BeforeAttributeName
            | State::AttributeName
            | State::AfterAttributeName
            | State::BeforeAttributeValue
            | State::AttributeValue(_)
            | State::AfterAttributeValueQuoted
            | State::SelfClosingStartTag => self.end_tag_part(),
            // A comment or a doctype.
            _ => self.end_markup_part(),
        }
    }

    /// The input ends after a reference in data.
    fn end_data_reference(&mut self, held: &HeldReference) -> Result<(), ParseFault>
        requires at { IsAt self.old state.Data }
        requires held { list_all is_held held.now ≡ true }
        requires sound { Sink.is_sound (Sink.view self.old.sink) }
        ensures { Closes Sink.TokenSink (record self.old { char_ref = Some (Held held.now) }) self.new result }
    {
        self.emit_reference(held)
    }

    /// The input ends after a reference in text with references that only its end tag ends.
    fn end_rcdata_reference(&mut self, held: &HeldReference) -> Result<(), ParseFault>
        requires at { IsAt self.old (state.RawData raw.Rcdata) }
        requires held { list_all is_held held.now ≡ true }
        requires sound { Sink.is_sound (Sink.view self.old.sink) }
        ensures { Closes Sink.TokenSink (record self.old { char_ref = Some (Held held.now) }) self.new result }
    {
        self.emit_reference(held)
    }

    /// The input ends after a reference in an attribute's value, whose tag is not told.
    fn end_value_reference(
        &mut self,
        kind: AttrValueKind,
        held: &HeldReference,
    ) -> Result<(), ParseFault>
        requires at { IsAt self.old (state.AttributeValue kind) }
        requires held { list_all is_held held.now ≡ true }
        requires sound { Sink.is_sound (Sink.view self.old.sink) }
        ensures { Closes Sink.TokenSink (record self.old { char_ref = Some (Held held.now) }) self.new result }
    {
        self.report_error(ErrorCode::EofInTag)
    }

    /// The input ends where a reference was held.
    fn end_reference(&mut self, held: &HeldReference) -> Result<(), ParseFault>
        requires fresh { self.old.char_ref ≡ None }
        requires fits { may_hold self.old.state ≡ true }
        requires held { list_all is_held held.now ≡ true }
        requires sound { Sink.is_sound (Sink.view self.old.sink) }
        ensures { Closes Sink.TokenSink (record self.old { char_ref = Some (Held held.now) }) self.new result }
    {
        match self.state {
            State::Data => self.end_data_reference(held),
            State::RawData(RawKind::Rcdata) => self.end_rcdata_reference(held),
            State::AttributeValue(kind) => self.end_value_reference(kind, held),
            // Never met: after `&` the machine is in one of these three.
            _ => Ok(()),
        }
    }

    /// The input ends after an unknown name, of which nothing is held.
    fn end_unknown(&mut self) -> Result<(), ParseFault>
        requires fresh { self.old.char_ref ≡ None }
        requires fits { may_hold self.old.state ≡ true }
        requires sound { Sink.is_sound (Sink.view self.old.sink) }
        ensures { Closes Sink.TokenSink (record self.old { char_ref = Some Unknown }) self.new result }
    {
        self.end_state()
    }

    /// Hands out what is held where the input ends.
    pub(crate) fn emit_held(&mut self) -> Result<(), ParseFault>
        requires fits { fits_in (rows_of self.old) self.old.char_ref self.old.state ≡ true }
        requires sound { Sink.is_sound (Sink.view self.old.sink) }
        ensures { Closes Sink.TokenSink self.old self.new result }
    {
        match self.char_ref.take() {
            Some(Ampersand::Held(held)) => self.end_reference(&held),
            Some(Ampersand::Unknown) => self.end_unknown(),
            None => self.end_state(),
        }
    }
}
