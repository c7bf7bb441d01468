//! Doctypes, but for their keywords (HTML Standard, sections 13.2.5.53 to 13.2.5.55 and 13.2.5.57 to 13.2.5.68).
ghost use Rattle.std.specs.Prelude.{◌≡◌, [], Some, true};
ghost use Rattle.html_tokens.specs.declared.states.State.TheVariants as state;
ghost use Rattle.html_tokens.specs.declared.states.DoctypeIdKind.TheVariants as id;
ghost use Rattle.html_tokens.specs.declared.token.Token.TheVariants.{DoctypeToken};
ghost use Rattle.html_tokens.specs.Doctypes;
ghost use Rattle.html_tokenizer.specs.Rest.{is_quote, quoted_state, with_identifier};
ghost use Rattle.html_tokenizer.specs.Steps.{IsAt, Tells, Keeps, nothing_owed, owed_for};
ghost use Rattle.html_tokens.specs.Item.{grave_if};

use crate::tokenizer::Tokenizer;
use html_tokenizer_parts::characters::{ends_word, is_white_space, lowered, shown};
use html_tokenizer_parts::error_code::ErrorCode;
use html_tokenizer_parts::keyword::Keyword;
use html_tokens::sink::TokenSink;
use html_tokens::states::{DoctypeIdKind, State};
use html_tokens::{Doctype, ProcessResult, Token};
use markup::{ParseFault, Text};
use std::mem;

/// A doctype of which nothing was read.
pub(crate) fn no_doctype() -> Doctype
    ensures { result ≡ Doctypes.no_doctype }
{
    Doctype {
        name: None,
        public_id: None,
        system_id: None,
        force_quirks: false,
    }
}

/// The error of a character after a keyword, if it is one: a quote.
fn keyword_fault(kind: DoctypeIdKind, c: char) -> Option<ErrorCode> {
    if c != '"' && c != '\'' {
        return None;
    }
    match kind {
        DoctypeIdKind::Public => Some(ErrorCode::MissingWhitespaceAfterDoctypePublicKeyword),
        DoctypeIdKind::System => Some(ErrorCode::MissingWhitespaceAfterDoctypeSystemKeyword),
    }
}

/// The error of a character after an identifier, if it is one.
fn identifier_fault(kind: DoctypeIdKind, c: char) -> Option<ErrorCode> {
    match kind {
        DoctypeIdKind::Public => {
            if c != '"' && c != '\'' {
                return None;
            }
            Some(ErrorCode::MissingWhitespaceBetweenDoctypePublicAndSystemIdentifiers)
        }
        DoctypeIdKind::System => {
            if ends_word(c) {
                return None;
            }
            Some(ErrorCode::UnexpectedCharacterAfterDoctypeSystemIdentifier)
        }
    }
}

/// The error of a character where an identifier is to begin, which it doesn't.
fn no_identifier(kind: DoctypeIdKind, c: char) -> ErrorCode {
    match (kind, c) {
        (DoctypeIdKind::Public, '>') => ErrorCode::MissingDoctypePublicIdentifier,
        (DoctypeIdKind::System, '>') => ErrorCode::MissingDoctypeSystemIdentifier,
        (DoctypeIdKind::Public, _) => ErrorCode::MissingQuoteBeforeDoctypePublicIdentifier,
        (DoctypeIdKind::System, _) => ErrorCode::MissingQuoteBeforeDoctypeSystemIdentifier,
    }
}

/// The error of an identifier in which the doctype ends.
fn abrupt_end(kind: DoctypeIdKind) -> ErrorCode {
    match kind {
        DoctypeIdKind::Public => ErrorCode::AbruptDoctypePublicIdentifier,
        DoctypeIdKind::System => ErrorCode::AbruptDoctypeSystemIdentifier,
    }
}

impl<Sink: TokenSink> Tokenizer<Sink> {
    /// Hands out the doctype, where its error was told. What follows is data.
    fn emit_doctype_token(&mut self) -> Result<(), ParseFault>
        requires sound { Sink.is_sound (Sink.view self.old.sink) }
        ensures { Tells Sink.TokenSink nothing_owed (DoctypeToken self.old.doctype)
            (record self.old { doctype = Doctypes.no_doctype; state = state.Data }) self.new result }
    {
        let doctype = mem::replace(&mut self.doctype, no_doctype());
        self.state = State::Data;
        self.emit(Token::DoctypeToken(doctype))
    }

    /// Hands out the doctype. What follows is data.
    pub(crate) fn emit_doctype(&mut self) -> Result<(), ParseFault>
        requires sound { Sink.is_sound (Sink.view self.old.sink) }
        ensures { Tells Sink.TokenSink (owed_for (grave_if self.old.doctype.force_quirks))
            (DoctypeToken self.old.doctype) (record self.old { doctype = Doctypes.no_doctype; state = state.Data }) self.new result }
    {
        let fault = self.fault;
        self.emit_doctype_for(fault)
    }

    /// Hands out the doctype, for this reason where it is faulty. What follows is data.
    pub(crate) fn emit_doctype_for(&mut self, fault: ErrorCode) -> Result<(), ParseFault>
        requires sound { Sink.is_sound (Sink.view self.old.sink) }
        ensures { Tells Sink.TokenSink (owed_for (grave_if self.old.doctype.force_quirks))
            (DoctypeToken self.old.doctype) (record self.old { doctype = Doctypes.no_doctype; state = state.Data }) self.new result }
    {
        self.report_if(self.doctype.force_quirks, fault)?;
        self.emit_doctype_token()
    }

    pub(crate) fn doctype_state(
        &mut self,
        c: char,
    ) -> Result<ProcessResult<Sink::Handle>, ParseFault>
        requires at { IsAt self.old state.Doctype }
        requires sound { Sink.is_sound (Sink.view self.old.sink) }
        ensures { Keeps Sink.TokenSink self.old self.new c result }
    {
        self.report_if(!ends_word(c), ErrorCode::MissingWhitespaceBeforeDoctypeName)?;
        self.consume_after_doctype(c)
    }

    /// The same, where an error of the character was told.
    fn consume_after_doctype(&mut self, c: char) -> Result<ProcessResult<Sink::Handle>, ParseFault>
        requires at { IsAt self.old state.Doctype }
        requires sound { Sink.is_sound (Sink.view self.old.sink) }
        ensures { Keeps Sink.TokenSink self.old self.new c result }
    {
        self.state = State::BeforeDoctypeName;
        self.before_doctype_name_state(c)
    }

    pub(crate) fn before_doctype_name_state(
        &mut self,
        c: char,
    ) -> Result<ProcessResult<Sink::Handle>, ParseFault>
        requires at { IsAt self.old state.BeforeDoctypeName }
        requires sound { Sink.is_sound (Sink.view self.old.sink) }
        ensures { Keeps Sink.TokenSink self.old self.new c result }
    {
        if is_white_space(c) {
            return Ok(ProcessResult::Continue);
        }
        self.doctype = no_doctype();
        if c == '>' {
            self.doctype.force_quirks = true;
            self.emit_doctype_for(ErrorCode::MissingDoctypeName)?;
            return Ok(ProcessResult::Continue);
        }
        self.temporary.clear();
        self.state = State::DoctypeName;
        self.doctype_name_state(c)
    }

    /// Takes over the name that was read.
    pub(crate) fn finish_name(&mut self)
        ensures { self.new ≡ record self.old { doctype = record Doctypes.no_doctype { name = Some self.old.temporary }; temporary = [] } }
    {
        self.doctype = no_doctype();
        let name = mem::replace(&mut self.temporary, Text::empty(self.stream.alloc));
        self.doctype.name = Some(name);
    }

    pub(crate) fn doctype_name_state(
        &mut self,
        c: char,
    ) -> Result<ProcessResult<Sink::Handle>, ParseFault>
        requires at { IsAt self.old state.DoctypeName }
        requires sound { Sink.is_sound (Sink.view self.old.sink) }
        ensures { Keeps Sink.TokenSink self.old self.new c result }
    {
        self.report_null(c)?;
        self.consume_in_doctype_name(c)
    }

    /// The same, where an error of the character was told.
    fn consume_in_doctype_name(
        &mut self,
        c: char,
    ) -> Result<ProcessResult<Sink::Handle>, ParseFault>
        requires at { IsAt self.old state.DoctypeName }
        requires sound { Sink.is_sound (Sink.view self.old.sink) }
        ensures { Keeps Sink.TokenSink self.old self.new c result }
    {
        if is_white_space(c) {
            self.finish_name();
            self.keyword = Keyword::new(self.stream.alloc);
            self.state = State::AfterDoctypeName;
            return Ok(ProcessResult::Continue);
        }
        if c == '>' {
            self.finish_name();
            self.emit_doctype()?;
            return Ok(ProcessResult::Continue);
        }
        self.temporary.push(lowered(c))?;
        Ok(ProcessResult::Continue)
    }

    pub(crate) fn after_doctype_keyword_state(
        &mut self,
        kind: DoctypeIdKind,
        c: char,
    ) -> Result<ProcessResult<Sink::Handle>, ParseFault>
        requires at { IsAt self.old (state.AfterDoctypeKeyword kind) }
        requires sound { Sink.is_sound (Sink.view self.old.sink) }
        ensures { Keeps Sink.TokenSink self.old self.new c result }
    {
        self.report_fault(keyword_fault(kind, c))?;
        self.consume_after_keyword(kind, c)
    }

    /// The same, where an error of the character was told.
    fn consume_after_keyword(
        &mut self,
        kind: DoctypeIdKind,
        c: char,
    ) -> Result<ProcessResult<Sink::Handle>, ParseFault>
        requires at { IsAt self.old (state.AfterDoctypeKeyword kind) }
        requires sound { Sink.is_sound (Sink.view self.old.sink) }
        ensures { Keeps Sink.TokenSink self.old self.new c result }
    {
        self.state = State::BeforeDoctypeIdentifier(kind);
        self.before_doctype_identifier_state(kind, c)
    }

    pub(crate) fn before_doctype_identifier_state(
        &mut self,
        kind: DoctypeIdKind,
        c: char,
    ) -> Result<ProcessResult<Sink::Handle>, ParseFault>
        requires at { IsAt self.old (state.BeforeDoctypeIdentifier kind) }
        requires sound { Sink.is_sound (Sink.view self.old.sink) }
        ensures { Keeps Sink.TokenSink self.old self.new c result }
    {
        if is_white_space(c) {
            return Ok(ProcessResult::Continue);
        }
        if c == '"' {
            self.temporary.clear();
            self.state = State::DoctypeIdentifierDoubleQuoted(kind);
            return Ok(ProcessResult::Continue);
        }
        if c == '\'' {
            self.temporary.clear();
            self.state = State::DoctypeIdentifierSingleQuoted(kind);
            return Ok(ProcessResult::Continue);
        }
        self.doctype.force_quirks = true;
        self.fault = no_identifier(kind, c);
        self.state = State::BogusDoctype;
        self.bogus_doctype_state(c)
    }

    /// Takes over the identifier that was read.
    pub(crate) fn finish_identifier(&mut self, kind: DoctypeIdKind)
        ensures { self.new ≡ record self.old { doctype = with_identifier kind self.old.doctype self.old.temporary; temporary = [] } }
    {
        let identifier = mem::replace(&mut self.temporary, Text::empty(self.stream.alloc));
        match kind {
            DoctypeIdKind::Public => self.doctype.public_id = Some(identifier),
            DoctypeIdKind::System => self.doctype.system_id = Some(identifier),
        }
    }

    /// In an identifier in quotes, `"` or `'`.
    pub(crate) fn doctype_identifier_quoted_state(
        &mut self,
        kind: DoctypeIdKind,
        quote: char,
        c: char,
    ) -> Result<ProcessResult<Sink::Handle>, ParseFault>
        requires at { IsAt self.old (quoted_state quote kind) }
        requires quote { is_quote quote ≡ true }
        requires sound { Sink.is_sound (Sink.view self.old.sink) }
        ensures { Keeps Sink.TokenSink self.old self.new c result }
    {
        self.report_null(c)?;
        self.consume_in_quoted_identifier(kind, quote, c)
    }

    /// The same, where an error of the character was told.
    fn consume_in_quoted_identifier(
        &mut self,
        kind: DoctypeIdKind,
        quote: char,
        c: char,
    ) -> Result<ProcessResult<Sink::Handle>, ParseFault>
        requires at { IsAt self.old (quoted_state quote kind) }
        requires quote { is_quote quote ≡ true }
        requires sound { Sink.is_sound (Sink.view self.old.sink) }
        ensures { Keeps Sink.TokenSink self.old self.new c result }
    {
        if c == quote {
            self.finish_identifier(kind);
            self.state = State::AfterDoctypeIdentifier(kind);
            return Ok(ProcessResult::Continue);
        }
        if c == '>' {
            self.finish_identifier(kind);
            self.doctype.force_quirks = true;
            self.emit_doctype_for(abrupt_end(kind))?;
            return Ok(ProcessResult::Continue);
        }
        self.temporary.push(shown(c))?;
        Ok(ProcessResult::Continue)
    }

    pub(crate) fn after_doctype_identifier_state(
        &mut self,
        kind: DoctypeIdKind,
        c: char,
    ) -> Result<ProcessResult<Sink::Handle>, ParseFault>
        requires at { IsAt self.old (state.AfterDoctypeIdentifier kind) }
        requires sound { Sink.is_sound (Sink.view self.old.sink) }
        ensures { Keeps Sink.TokenSink self.old self.new c result }
    {
        self.report_fault(identifier_fault(kind, c))?;
        self.consume_after_identifier(kind, c)
    }

    /// The same, where an error of the character was told.
    fn consume_after_identifier(
        &mut self,
        kind: DoctypeIdKind,
        c: char,
    ) -> Result<ProcessResult<Sink::Handle>, ParseFault>
        requires at { IsAt self.old (state.AfterDoctypeIdentifier kind) }
        requires sound { Sink.is_sound (Sink.view self.old.sink) }
        ensures { Keeps Sink.TokenSink self.old self.new c result }
    {
        match kind {
            DoctypeIdKind::Public => {
                self.state = State::BetweenDoctypePublicAndSystemIdentifiers;
                self.after_doctype_public_identifier_state(c)
            }
            DoctypeIdKind::System => self.after_doctype_system_identifier_state(c),
        }
    }

    pub(crate) fn after_doctype_public_identifier_state(
        &mut self,
        c: char,
    ) -> Result<ProcessResult<Sink::Handle>, ParseFault>
        requires at { IsAt self.old state.BetweenDoctypePublicAndSystemIdentifiers }
        requires sound { Sink.is_sound (Sink.view self.old.sink) }
        ensures { Keeps Sink.TokenSink self.old self.new c result }
    {
        if is_white_space(c) {
            return Ok(ProcessResult::Continue);
        }
        if c == '"' {
            self.temporary.clear();
            self.state = State::DoctypeIdentifierDoubleQuoted(DoctypeIdKind::System);
            return Ok(ProcessResult::Continue);
        }
        if c == '\'' {
            self.temporary.clear();
            self.state = State::DoctypeIdentifierSingleQuoted(DoctypeIdKind::System);
            return Ok(ProcessResult::Continue);
        }
        if c == '>' {
            self.emit_doctype()?;
            return Ok(ProcessResult::Continue);
        }
        self.doctype.force_quirks = true;
        self.fault = ErrorCode::MissingQuoteBeforeDoctypeSystemIdentifier;
        self.state = State::BogusDoctype;
        self.bogus_doctype_state(c)
    }

    pub(crate) fn after_doctype_system_identifier_state(
        &mut self,
        c: char,
    ) -> Result<ProcessResult<Sink::Handle>, ParseFault>
        requires at { IsAt self.old (state.AfterDoctypeIdentifier id.System) }
        requires sound { Sink.is_sound (Sink.view self.old.sink) }
        ensures { Keeps Sink.TokenSink self.old self.new c result }
    {
        if is_white_space(c) {
            return Ok(ProcessResult::Continue);
        }
        self.state = State::BogusDoctype;
        self.bogus_doctype_state(c)
    }

    pub(crate) fn bogus_doctype_state(
        &mut self,
        c: char,
    ) -> Result<ProcessResult<Sink::Handle>, ParseFault>
        requires at { IsAt self.old state.BogusDoctype }
        requires sound { Sink.is_sound (Sink.view self.old.sink) }
        ensures { Keeps Sink.TokenSink self.old self.new c result }
    {
        self.report_null(c)?;
        self.consume_in_bogus_doctype(c)
    }

    /// The same, where an error of the character was told.
    fn consume_in_bogus_doctype(
        &mut self,
        c: char,
    ) -> Result<ProcessResult<Sink::Handle>, ParseFault>
        requires at { IsAt self.old state.BogusDoctype }
        requires sound { Sink.is_sound (Sink.view self.old.sink) }
        ensures { Keeps Sink.TokenSink self.old self.new c result }
    {
        if c == '>' {
            self.emit_doctype()?;
            return Ok(ProcessResult::Continue);
        }
        Ok(ProcessResult::Continue)
    }
}
