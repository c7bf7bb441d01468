//! Text that only its own end tag ends (HTML Standard, sections 13.2.5.2 to 13.2.5.4, 13.2.5.9 to 13.2.5.17 and 13.2.5.20 to 13.2.5.30).
ghost use Rattle.std.specs.Prelude.{◌≡◌, ◌∷◌, true, false};
ghost use Rattle.std.specs.Char.{is_ascii_alphabetic};
ghost use Rattle.std.specs.List.{list_all};
ghost use Rattle.html_tokens.specs.declared.states.State.TheVariants as state;
ghost use Rattle.html_tokens.specs.declared.states.RawKind.TheVariants as raw;
ghost use Rattle.html_tokens.specs.declared.states.ScriptEscapeKind.TheVariants as script;
ghost use Rattle.html_tokens.specs.declared.token.Token.TheVariants.{CharacterTokens};
ghost use Rattle.html_tokens.specs.RawText.{ends_at_tag, has_references};
ghost use Rattle.html_tokenizer.specs.Steps.{IsAt, Tells, Keeps, nothing_owed};
ghost use Rattle.html_tokenizer_parts.specs.Words.{ends_raw_text, may_escape};

use crate::tokenizer::Tokenizer;
use html_tokenizer_parts::held_reference::{Ampersand, HeldReference};
use html_tokenizer_parts::letters::Letters;
use html_tokens::sink::TokenSink;
use html_tokens::states::{RawKind, ScriptEscapeKind, State};
use html_tokens::{ProcessResult, Tag, TagKind, Token};
use markup::{Attributes, LocalName, ParseFault, Text};

/// Whether the fitting end tag ends text of this kind.
pub(crate) fn ends_at_tag(kind: RawKind) -> bool
    ensures { result ≡ ends_at_tag kind }
{
    !matches!(
        kind,
        RawKind::ScriptDataEscaped(ScriptEscapeKind::DoubleEscaped)
    )
}

/// Whether text of this kind has references.
fn has_references(kind: RawKind) -> bool
    ensures { result ≡ has_references kind }
{
    matches!(kind, RawKind::Rcdata)
}

impl<Sink: TokenSink> Tokenizer<Sink> {
    /// Sections 13.2.5.2 to 13.2.5.4, 13.2.5.20 and 13.2.5.27.
    pub(crate) fn raw_data_state(
        &mut self,
        kind: RawKind,
        c: char,
    ) -> Result<ProcessResult<Sink::Handle>, ParseFault>
        requires at { IsAt self.old (state.RawData kind) }
        requires sound { Sink.is_sound (Sink.view self.old.sink) }
        ensures { Keeps Sink.TokenSink self.old self.new c result }
    {
        if c == '<' {
            return self.raw_less_than_sign(kind);
        }
        if c == '&' {
            return self.raw_ampersand(kind);
        }
        if c == '-' {
            return self.raw_dash(kind);
        }
        self.consume_shown(c)
    }

    /// At `<`, which is held where it may begin the fitting end tag.
    fn raw_less_than_sign(
        &mut self,
        kind: RawKind,
    ) -> Result<ProcessResult<Sink::Handle>, ParseFault>
        requires at { IsAt self.old (state.RawData kind) }
        requires sound { Sink.is_sound (Sink.view self.old.sink) }
        ensures { Keeps Sink.TokenSink self.old self.new 60 result }
    {
        self.state = State::RawLessThanSign(kind);
        if ends_at_tag(kind) {
            Ok(ProcessResult::Continue)
        } else {
            self.consume_char('<')
        }
    }

    /// At `&`.
    fn raw_ampersand(&mut self, kind: RawKind) -> Result<ProcessResult<Sink::Handle>, ParseFault>
        requires at { IsAt self.old (state.RawData kind) }
        requires sound { Sink.is_sound (Sink.view self.old.sink) }
        ensures { Keeps Sink.TokenSink self.old self.new 38 result }
    {
        if has_references(kind) {
            self.char_ref = Some(Ampersand::Held(HeldReference::new(self.stream.alloc)));
            Ok(ProcessResult::Continue)
        } else {
            self.consume_char('&')
        }
    }

    /// At `-`.
    fn raw_dash(&mut self, kind: RawKind) -> Result<ProcessResult<Sink::Handle>, ParseFault>
        requires at { IsAt self.old (state.RawData kind) }
        requires sound { Sink.is_sound (Sink.view self.old.sink) }
        ensures { Keeps Sink.TokenSink self.old self.new 45 result }
    {
        match kind {
            RawKind::ScriptDataEscaped(escape) => {
                self.state = State::ScriptDataEscapedDash(escape);
                self.consume_char('-')
            }
            RawKind::Rcdata | RawKind::Rawtext | RawKind::ScriptData => self.consume_char('-'),
        }
    }

    /// Sections 13.2.5.9, 13.2.5.12, 13.2.5.15, 13.2.5.23 and 13.2.5.30.
    pub(crate) fn raw_less_than_sign_state(
        &mut self,
        kind: RawKind,
        c: char,
    ) -> Result<ProcessResult<Sink::Handle>, ParseFault>
        requires at { IsAt self.old (state.RawLessThanSign kind) }
        requires sound { Sink.is_sound (Sink.view self.old.sink) }
        ensures { Keeps Sink.TokenSink self.old self.new c result }
    {
        match kind {
            RawKind::Rcdata | RawKind::Rawtext => self.held_less_than_sign(kind, c),
            RawKind::ScriptData => self.script_less_than_sign(c),
            RawKind::ScriptDataEscaped(ScriptEscapeKind::Escaped) => self.escaped_less_than_sign(c),
            RawKind::ScriptDataEscaped(ScriptEscapeKind::DoubleEscaped) => {
                self.double_escaped_less_than_sign(c)
            }
        }
    }

    /// After `<`, where no escape may begin: `/`, or the `<` was text.
    fn held_less_than_sign(
        &mut self,
        kind: RawKind,
        c: char,
    ) -> Result<ProcessResult<Sink::Handle>, ParseFault>
        requires at { IsAt self.old (state.RawLessThanSign kind) }
        requires held { ends_at_tag kind ≡ true }
        requires plain { may_escape kind c ≡ false }
        requires sound { Sink.is_sound (Sink.view self.old.sink) }
        ensures { Keeps Sink.TokenSink self.old self.new c result }
    {
        if c == '/' {
            self.state = State::RawEndTagOpen(kind);
            return Ok(ProcessResult::Continue);
        }
        self.state = State::RawData(kind);
        self.emit_char('<')?;
        self.raw_data_state(kind, c)
    }

    /// Section 13.2.5.15.
    fn script_less_than_sign(&mut self, c: char) -> Result<ProcessResult<Sink::Handle>, ParseFault>
        requires at { IsAt self.old (state.RawLessThanSign raw.ScriptData) }
        requires sound { Sink.is_sound (Sink.view self.old.sink) }
        ensures { Keeps Sink.TokenSink self.old self.new c result }
    {
        if c == '!' {
            self.state = State::ScriptDataEscapeStart(ScriptEscapeKind::Escaped);
            return self.consume_two('<', '!');
        }
        self.held_less_than_sign(RawKind::ScriptData, c)
    }

    /// Section 13.2.5.23.
    fn escaped_less_than_sign(&mut self, c: char) -> Result<ProcessResult<Sink::Handle>, ParseFault>
        requires at { IsAt self.old (state.RawLessThanSign (raw.ScriptDataEscaped script.Escaped)) }
        requires sound { Sink.is_sound (Sink.view self.old.sink) }
        ensures { Keeps Sink.TokenSink self.old self.new c result }
    {
        if c.is_ascii_alphabetic() {
            self.word = Letters::first(self.stream.alloc, c)?;
            self.state = State::ScriptDataEscapeStart(ScriptEscapeKind::DoubleEscaped);
            return self.consume_two('<', c);
        }
        self.held_less_than_sign(RawKind::ScriptDataEscaped(ScriptEscapeKind::Escaped), c)
    }

    /// Section 13.2.5.30.
    fn double_escaped_less_than_sign(
        &mut self,
        c: char,
    ) -> Result<ProcessResult<Sink::Handle>, ParseFault>
        requires at { IsAt self.old (state.RawLessThanSign (raw.ScriptDataEscaped script.DoubleEscaped)) }
        requires sound { Sink.is_sound (Sink.view self.old.sink) }
        ensures { Keeps Sink.TokenSink self.old self.new c result }
    {
        if c == '/' {
            self.word = Letters::new(self.stream.alloc);
            self.state = State::ScriptDataDoubleEscapeEnd;
            return self.consume_char('/');
        }
        let kind = RawKind::ScriptDataEscaped(ScriptEscapeKind::DoubleEscaped);
        self.state = State::RawData(kind);
        self.raw_data_state(kind, c)
    }

    /// Sections 13.2.5.10, 13.2.5.13, 13.2.5.16 and 13.2.5.24.
    pub(crate) fn raw_end_tag_open_state(
        &mut self,
        kind: RawKind,
        c: char,
    ) -> Result<ProcessResult<Sink::Handle>, ParseFault>
        requires at { IsAt self.old (state.RawEndTagOpen kind) }
        requires sound { Sink.is_sound (Sink.view self.old.sink) }
        ensures { Keeps Sink.TokenSink self.old self.new c result }
    {
        if self.raw_end.begins_with(self.stream.alloc, c) {
            self.raw_end.begin(self.stream.alloc, c)?;
            self.state = State::RawEndTagName(kind);
            return Ok(ProcessResult::Continue);
        }
        if !ends_at_tag(kind) {
            return self.double_escaped_end_tag_open(kind, c);
        }
        self.state = State::RawData(kind);
        self.emit_two('<', '/')?;
        self.raw_data_state(kind, c)
    }

    /// Sections 13.2.5.11, 13.2.5.14, 13.2.5.17 and 13.2.5.25.
    pub(crate) fn raw_end_tag_name_state(
        &mut self,
        kind: RawKind,
        c: char,
    ) -> Result<ProcessResult<Sink::Handle>, ParseFault>
        requires at { IsAt self.old (state.RawEndTagName kind) }
        requires sound { Sink.is_sound (Sink.view self.old.sink) }
        ensures { Keeps Sink.TokenSink self.old self.new c result }
    {
        if self.raw_end.goes_on_by(c) {
            self.raw_end.push(c)?;
            return Ok(ProcessResult::Continue);
        }
        if !ends_at_tag(kind) {
            return self.double_escaped_end_tag(kind, c);
        }
        if self.raw_end.ends_before(c) {
            return self.raw_end_tag(kind, c);
        }
        self.state = State::RawData(kind);
        self.emit_end_tag()?;
        self.raw_data_state(kind, c)
    }

    /// After the whole fitting name.
    fn raw_end_tag(
        &mut self,
        kind: RawKind,
        c: char,
    ) -> Result<ProcessResult<Sink::Handle>, ParseFault>
        requires at { IsAt self.old (state.RawEndTagName kind) }
        requires held { ends_at_tag kind ≡ true }
        requires ends { ends_raw_text self.old.raw_end.name self.old.raw_end.letters c ≡ true }
        requires sound { Sink.is_sound (Sink.view self.old.sink) }
        ensures { Keeps Sink.TokenSink self.old self.new c result }
    {
        let name = self.raw_end.lowered(self.stream.alloc)?;
        self.tag = Tag {
            kind: TagKind::EndTag,
            name: LocalName::from_text(name),
            self_closing: false,
            attrs: Attributes::new(self.stream.alloc),
            had_duplicate_attributes: false,
        };
        self.state = State::TagName;
        self.tag_name_state(c)
    }

    /// After `</` in text escaped twice, in which no end tag is held.
    fn double_escaped_end_tag_open(
        &mut self,
        kind: RawKind,
        c: char,
    ) -> Result<ProcessResult<Sink::Handle>, ParseFault>
        requires at { IsAt self.old (state.RawEndTagOpen kind) }
        requires told { ends_at_tag kind ≡ false }
        requires sound { Sink.is_sound (Sink.view self.old.sink) }
        ensures { Keeps Sink.TokenSink self.old self.new c result }
    {
        self.word = Letters::new(self.stream.alloc);
        self.state = State::ScriptDataDoubleEscapeEnd;
        self.emit_two('<', '/')?;
        self.script_data_double_escape_end_state(c)
    }

    /// The same after letters.
    fn double_escaped_end_tag(
        &mut self,
        kind: RawKind,
        c: char,
    ) -> Result<ProcessResult<Sink::Handle>, ParseFault>
        requires at { IsAt self.old (state.RawEndTagName kind) }
        requires told { ends_at_tag kind ≡ false }
        requires sound { Sink.is_sound (Sink.view self.old.sink) }
        ensures { Keeps Sink.TokenSink self.old self.new c result }
    {
        self.word = self.raw_end.copied(self.stream.alloc)?;
        self.state = State::ScriptDataDoubleEscapeEnd;
        self.emit_end_tag()?;
        self.script_data_double_escape_end_state(c)
    }

    /// Hands out the end tag that is held, which was text.
    pub(crate) fn emit_end_tag(&mut self) -> Result<(), ParseFault>
        requires sound { Sink.is_sound (Sink.view self.old.sink) }
        ensures is { Tells Sink.TokenSink nothing_owed (CharacterTokens (60 ∷ 47 ∷ self.old.raw_end.letters)) self.old self.new result }
        ensures letters { list_all is_ascii_alphabetic self.old.raw_end.letters ≡ true }
    {
        let mut text = Text::empty(self.stream.alloc);
        let letters = self.raw_end.as_str();
        text.push('<')?;
        text.push('/')?;
        text.push_str(letters)?;
        self.emit(Token::CharacterTokens(text))
    }
}
