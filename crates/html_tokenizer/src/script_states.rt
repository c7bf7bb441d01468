//! The escapes in the text of a script (HTML Standard, sections 13.2.5.18, 13.2.5.19, 13.2.5.21, 13.2.5.22, 13.2.5.26, 13.2.5.28,
//! 13.2.5.29 and 13.2.5.31).
ghost use Rattle.std.specs.Prelude.{◌≡◌, true, if◌then◌else◌};
ghost use Rattle.std.specs.Char.{is_ascii_alphabetic};
ghost use Rattle.std.specs.List.{list_all};
ghost use Rattle.html_tokens.specs.declared.states.RawKind.TheVariants.{ScriptDataEscaped};
ghost use Rattle.html_tokens.specs.declared.states.State.TheVariants as state;
ghost use Rattle.html_tokens.specs.declared.states.ScriptEscapeKind.TheVariants as script;
ghost use Rattle.html_tokenizer.specs.Steps.{IsAt, Keeps};
ghost use Rattle.html_tokenizer_parts.specs.Words.{ends_script};

use crate::tokenizer::Tokenizer;
use html_tokenizer_parts::characters::ends_tag_name;
use html_tokens::ProcessResult;
use html_tokens::sink::TokenSink;
use html_tokens::states::{RawKind, ScriptEscapeKind, State};
use markup::ParseFault;

impl<Sink: TokenSink> Tokenizer<Sink> {
    /// Sections 13.2.5.18 and 13.2.5.26.
    pub(crate) fn script_data_escape_start_state(
        &mut self,
        kind: ScriptEscapeKind,
        c: char,
    ) -> Result<ProcessResult<Sink::Handle>, ParseFault>
        requires at { IsAt self.old (state.ScriptDataEscapeStart kind) }
        requires sound { Sink.is_sound (Sink.view self.old.sink) }
        ensures { Keeps Sink.TokenSink self.old self.new c result }
    {
        match kind {
            ScriptEscapeKind::Escaped => self.escape_start(c),
            ScriptEscapeKind::DoubleEscaped => self.double_escape_start(c),
        }
    }

    /// Section 13.2.5.18.
    fn escape_start(&mut self, c: char) -> Result<ProcessResult<Sink::Handle>, ParseFault>
        requires at { IsAt self.old (state.ScriptDataEscapeStart script.Escaped) }
        requires sound { Sink.is_sound (Sink.view self.old.sink) }
        ensures { Keeps Sink.TokenSink self.old self.new c result }
    {
        if c == '-' {
            self.state = State::ScriptDataEscapeStartDash;
            return self.consume_char('-');
        }
        self.state = State::RawData(RawKind::ScriptData);
        self.raw_data_state(RawKind::ScriptData, c)
    }

    /// Section 13.2.5.26.
    fn double_escape_start(&mut self, c: char) -> Result<ProcessResult<Sink::Handle>, ParseFault>
        requires at { IsAt self.old (state.ScriptDataEscapeStart script.DoubleEscaped) }
        requires sound { Sink.is_sound (Sink.view self.old.sink) }
        ensures { Keeps Sink.TokenSink self.old self.new c result }
    {
        if c.is_ascii_alphabetic() {
            self.word.push(c)?;
            return self.consume_char(c);
        }
        let kind = self.kind_after_word(
            c,
            ScriptEscapeKind::DoubleEscaped,
            ScriptEscapeKind::Escaped,
        );
        self.state = State::RawData(kind);
        self.raw_data_state(kind, c)
    }

    /// Section 13.2.5.19.
    pub(crate) fn script_data_escape_start_dash_state(
        &mut self,
        c: char,
    ) -> Result<ProcessResult<Sink::Handle>, ParseFault>
        requires at { IsAt self.old state.ScriptDataEscapeStartDash }
        requires sound { Sink.is_sound (Sink.view self.old.sink) }
        ensures { Keeps Sink.TokenSink self.old self.new c result }
    {
        if c == '-' {
            self.state = State::ScriptDataEscapedDashDash(ScriptEscapeKind::Escaped);
            return self.consume_char('-');
        }
        self.state = State::RawData(RawKind::ScriptData);
        self.raw_data_state(RawKind::ScriptData, c)
    }

    /// Sections 13.2.5.21 and 13.2.5.28.
    pub(crate) fn script_data_escaped_dash_state(
        &mut self,
        kind: ScriptEscapeKind,
        c: char,
    ) -> Result<ProcessResult<Sink::Handle>, ParseFault>
        requires at { IsAt self.old (state.ScriptDataEscapedDash kind) }
        requires sound { Sink.is_sound (Sink.view self.old.sink) }
        ensures { Keeps Sink.TokenSink self.old self.new c result }
    {
        if c == '-' {
            self.state = State::ScriptDataEscapedDashDash(kind);
            return self.consume_char('-');
        }
        self.state = State::RawData(RawKind::ScriptDataEscaped(kind));
        self.raw_data_state(RawKind::ScriptDataEscaped(kind), c)
    }

    /// Sections 13.2.5.22 and 13.2.5.29.
    pub(crate) fn script_data_escaped_dash_dash_state(
        &mut self,
        kind: ScriptEscapeKind,
        c: char,
    ) -> Result<ProcessResult<Sink::Handle>, ParseFault>
        requires at { IsAt self.old (state.ScriptDataEscapedDashDash kind) }
        requires sound { Sink.is_sound (Sink.view self.old.sink) }
        ensures { Keeps Sink.TokenSink self.old self.new c result }
    {
        if c == '-' {
            return self.consume_char('-');
        }
        if c == '>' {
            self.state = State::RawData(RawKind::ScriptData);
            return self.consume_char('>');
        }
        self.state = State::RawData(RawKind::ScriptDataEscaped(kind));
        self.raw_data_state(RawKind::ScriptDataEscaped(kind), c)
    }

    /// Section 13.2.5.31.
    pub(crate) fn script_data_double_escape_end_state(
        &mut self,
        c: char,
    ) -> Result<ProcessResult<Sink::Handle>, ParseFault>
        requires at { IsAt self.old state.ScriptDataDoubleEscapeEnd }
        requires sound { Sink.is_sound (Sink.view self.old.sink) }
        ensures { Keeps Sink.TokenSink self.old self.new c result }
    {
        if c.is_ascii_alphabetic() {
            self.word.push(c)?;
            return self.consume_char(c);
        }
        let kind = self.kind_after_word(
            c,
            ScriptEscapeKind::Escaped,
            ScriptEscapeKind::DoubleEscaped,
        );
        self.state = State::RawData(kind);
        self.raw_data_state(kind, c)
    }

    /// Whether the word, with this character after it, is `script`.
    fn ends_script(&self, c: char) -> bool
        ensures is { result ≡ ends_script self.now.word c }
        ensures letters { list_all is_ascii_alphabetic self.now.word ≡ true }
    {
        self.word.is_script() && ends_tag_name(c)
    }

    /// The kind of a script after a word: `behind`, if the word is `script`.
    fn kind_after_word(&self, c: char, behind: ScriptEscapeKind, other: ScriptEscapeKind) -> RawKind
        ensures is { result ≡ ScriptDataEscaped (if ends_script self.now.word c then behind else other) }
        ensures letters { list_all is_ascii_alphabetic self.now.word ≡ true }
    {
        if self.ends_script(c) {
            RawKind::ScriptDataEscaped(behind)
        } else {
            RawKind::ScriptDataEscaped(other)
        }
    }
}
