//! What the end of the input makes of a comment, a declaration or a doctype (HTML Standard, sections 13.2.5.41 to 13.2.5.68).
ghost use Rattle.std.specs.Prelude.{◌≡◌, [], true, Some, None};
ghost use Rattle.html_tokens.specs.declared.states.State.TheVariants as state;
ghost use Rattle.html_tokens.specs.declared.token.Token.TheVariants.{CommentToken, DoctypeToken};
ghost use Rattle.html_tokens.specs.Doctypes.{forced, no_doctype};
ghost use Rattle.html_tokenizer.specs.Calls.{Closes};
ghost use Rattle.html_tokenizer.specs.EndStates.{is_comment_part, is_doctype_part, is_markup_part};
ghost use Rattle.html_tokenizer.specs.Rest.{with_identifier};
ghost use Rattle.html_tokenizer.specs.Steps.{IsAt, Tells, a_fault};

use crate::tokenizer::Tokenizer;
use html_tokenizer_parts::error_code::ErrorCode;
use html_tokens::sink::TokenSink;
use html_tokens::states::{DoctypeIdKind, State};
use markup::{ParseFault, Text};

impl<Sink: TokenSink> Tokenizer<Sink> {
    /// The input ends in a comment.
    fn end_comment(&mut self) -> Result<(), ParseFault>
        requires sound { Sink.is_sound (Sink.view self.old.sink) }
        ensures { Tells Sink.TokenSink a_fault (CommentToken self.old.comment)
            (record self.old { comment = []; state = state.Data }) self.new result }
    {
        self.emit_faulty_comment(ErrorCode::EofInComment)
    }

    /// The input ends before a comment has a character.
    fn end_comment_start(&mut self) -> Result<(), ParseFault>
        requires sound { Sink.is_sound (Sink.view self.old.sink) }
        ensures { Tells Sink.TokenSink a_fault (CommentToken []) (record self.old { comment = []; state = state.Data }) self.new result }
    {
        self.comment.clear();
        self.end_comment()
    }

    /// The input ends after `<!` and what may be part of a word: a bogus comment.
    fn end_declaration(&mut self) -> Result<(), ParseFault>
        requires at { IsAt self.old state.MarkupDeclarationOpen }
        requires sound { Sink.is_sound (Sink.view self.old.sink) }
        ensures { Closes Sink.TokenSink self.old self.new result }
    {
        self.comment = self.keyword.text(self.stream.alloc)?;
        self.emit_faulty_comment(ErrorCode::IncorrectlyOpenedComment)
    }

    /// The input ends in a doctype.
    fn end_doctype(&mut self) -> Result<(), ParseFault>
        requires sound { Sink.is_sound (Sink.view self.old.sink) }
        ensures { Tells Sink.TokenSink a_fault (DoctypeToken (forced self.old.doctype))
            (record self.old { doctype = no_doctype; state = state.Data }) self.new result }
    {
        self.doctype.force_quirks = true;
        self.emit_doctype_for(ErrorCode::EofInDoctype)
    }

    /// The input ends before a doctype's name.
    fn end_doctype_start(&mut self) -> Result<(), ParseFault>
        requires sound { Sink.is_sound (Sink.view self.old.sink) }
        ensures { Tells Sink.TokenSink a_fault (DoctypeToken (forced no_doctype))
            (record self.old { doctype = no_doctype; state = state.Data }) self.new result }
    {
        self.doctype = crate::doctype_states::no_doctype();
        self.end_doctype()
    }

    /// The input ends in a doctype's name.
    fn end_doctype_name(&mut self) -> Result<(), ParseFault>
        requires sound { Sink.is_sound (Sink.view self.old.sink) }
        ensures { Tells Sink.TokenSink a_fault
            (DoctypeToken (forced (record no_doctype { name = Some self.old.temporary })))
            (record self.old { doctype = no_doctype; temporary = []; state = state.Data }) self.new result }
    {
        self.finish_name();
        self.end_doctype()
    }

    /// The input ends in a doctype's identifier.
    fn end_doctype_identifier(&mut self, kind: DoctypeIdKind) -> Result<(), ParseFault>
        requires sound { Sink.is_sound (Sink.view self.old.sink) }
        ensures { Tells Sink.TokenSink a_fault
            (DoctypeToken (forced (with_identifier kind self.old.doctype self.old.temporary)))
            (record self.old { doctype = no_doctype; temporary = []; state = state.Data }) self.new result }
    {
        self.finish_identifier(kind);
        self.end_doctype()
    }

    /// The input ends after a doctype's name and what may be part of a keyword, which is dropped.
    fn end_keyword_part(&mut self) -> Result<(), ParseFault>
        requires at { IsAt self.old state.AfterDoctypeName }
        requires sound { Sink.is_sound (Sink.view self.old.sink) }
        ensures { Closes Sink.TokenSink self.old self.new result }
    {
        // What is asked of a keyword also says that it is no whole word.
        let _is_empty = self.keyword.is_empty();
        self.end_doctype()
    }

    /// The input ends after `<!`, or in a comment.
    fn end_comment_part(&mut self) -> Result<(), ParseFault>
        requires at { is_comment_part self.old.state ≡ true }
        requires fresh { self.old.char_ref ≡ None }
        requires sound { Sink.is_sound (Sink.view self.old.sink) }
        ensures { Closes Sink.TokenSink self.old self.new result }
    {
        match self.state {
            State::MarkupDeclarationOpen => self.end_declaration(),
            State::BogusComment => self.emit_bogus_comment(),
            State::CommentStart | State::CommentStartDash => self.end_comment_start(),
            _ => self.end_comment(),
        }
    }

    /// The input ends in a doctype.
    fn end_doctype_part(&mut self) -> Result<(), ParseFault>
        requires at { is_doctype_part self.old.state ≡ true }
        requires fresh { self.old.char_ref ≡ None }
        requires sound { Sink.is_sound (Sink.view self.old.sink) }
        ensures { Closes Sink.TokenSink self.old self.new result }
    {
        match self.state {
            State::Doctype | State::BeforeDoctypeName => self.end_doctype_start(),
            State::DoctypeName => self.end_doctype_name(),
            State::AfterDoctypeName => self.end_keyword_part(),
            State::DoctypeIdentifierDoubleQuoted(kind)
            | State::DoctypeIdentifierSingleQuoted(kind) => self.end_doctype_identifier(kind),
            State::BogusDoctype => self.emit_doctype(),
            _ => self.end_doctype(),
        }
    }

    /// The input ends in a comment, a declaration or a doctype.
    pub(crate) fn end_markup_part(&mut self) -> Result<(), ParseFault>
        requires at { is_markup_part self.old.state ≡ true }
        requires fresh { self.old.char_ref ≡ None }
        requires sound { Sink.is_sound (Sink.view self.old.sink) }
        ensures { Closes Sink.TokenSink self.old self.new result }
    {
        match self.state {
            State::MarkupDeclarationOpen
            | State::BogusComment
            | State::CommentStart
            | State::CommentStartDash
            | State::Comment
            | State::CommentLessThanSign
            | State::CommentLessThanSignBang
            | State::CommentLessThanSignBangDash
            | State::CommentLessThanSignBangDashDash
            | State::CommentEndDash
            | State::CommentEnd
            | State::CommentEndBang => self.end_comment_part(),
            _ => self.end_doctype_part(),
        }
    }
}
