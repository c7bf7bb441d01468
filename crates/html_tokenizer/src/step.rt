//! One character, wherever the machine stands.
ghost use Rattle.std.specs.Prelude.{◌≡◌, true, None};
ghost use Rattle.html_tokens.specs.declared.states.State.TheVariants as state;
ghost use Rattle.html_tokenizer.specs.Families.{is_in_declaration, is_in_doctype};
ghost use Rattle.html_tokenizer.specs.Steps.{IsAt, Keeps};

use crate::tokenizer::Tokenizer;
use html_tokens::ProcessResult;
use html_tokens::sink::TokenSink;
use html_tokens::states::State;
use markup::ParseFault;

impl<Sink: TokenSink> Tokenizer<Sink> {
    // A state that the machine never enters: `<` in a comment is text of it.
    fn comment_less_than_sign_state(
        &mut self,
        c: char,
    ) -> Result<ProcessResult<Sink::Handle>, ParseFault>
        requires at { IsAt self.old state.CommentLessThanSign }
        requires sound { Sink.is_sound (Sink.view self.old.sink) }
        ensures { Keeps Sink.TokenSink self.old self.new c result }
    {
        self.state = State::Comment;
        self.comment_state(c)
    }

    // A state that the machine never enters: `<` in a comment is text of it.
    fn comment_less_than_sign_bang_state(
        &mut self,
        c: char,
    ) -> Result<ProcessResult<Sink::Handle>, ParseFault>
        requires at { IsAt self.old state.CommentLessThanSignBang }
        requires sound { Sink.is_sound (Sink.view self.old.sink) }
        ensures { Keeps Sink.TokenSink self.old self.new c result }
    {
        self.state = State::Comment;
        self.comment_state(c)
    }

    // A state that the machine never enters: `<` in a comment is text of it.
    fn comment_less_than_sign_bang_dash_state(
        &mut self,
        c: char,
    ) -> Result<ProcessResult<Sink::Handle>, ParseFault>
        requires at { IsAt self.old state.CommentLessThanSignBangDash }
        requires sound { Sink.is_sound (Sink.view self.old.sink) }
        ensures { Keeps Sink.TokenSink self.old self.new c result }
    {
        self.state = State::CommentEndDash;
        self.comment_end_dash_state(c)
    }

    // A state that the machine never enters: `<` in a comment is text of it.
    fn comment_less_than_sign_bang_dash_dash_state(
        &mut self,
        c: char,
    ) -> Result<ProcessResult<Sink::Handle>, ParseFault>
        requires at { IsAt self.old state.CommentLessThanSignBangDashDash }
        requires sound { Sink.is_sound (Sink.view self.old.sink) }
        ensures { Keeps Sink.TokenSink self.old self.new c result }
    {
        self.state = State::CommentEnd;
        self.comment_end_state(c)
    }

    /// Takes a character in a doctype, where no reference is held.
    fn step_in_doctype(&mut self, c: char) -> Result<ProcessResult<Sink::Handle>, ParseFault>
        requires doctype { is_in_doctype self.old.state ≡ true }
        requires fresh { self.old.char_ref ≡ None }
        requires sound { Sink.is_sound (Sink.view self.old.sink) }
        ensures { Keeps Sink.TokenSink self.old self.new c result }
    {
        match self.state {
            State::Doctype => self.doctype_state(c),
            State::BeforeDoctypeName => self.before_doctype_name_state(c),
            State::DoctypeName => self.doctype_name_state(c),
            State::AfterDoctypeName => self.after_doctype_name_state(c),
            State::AfterDoctypeKeyword(kind) => self.after_doctype_keyword_state(kind, c),
            State::BeforeDoctypeIdentifier(kind) => self.before_doctype_identifier_state(kind, c),
            State::DoctypeIdentifierDoubleQuoted(kind) => {
                self.doctype_identifier_quoted_state(kind, '"', c)
            }
            State::DoctypeIdentifierSingleQuoted(kind) => {
                self.doctype_identifier_quoted_state(kind, '\'', c)
            }
            State::AfterDoctypeIdentifier(kind) => self.after_doctype_identifier_state(kind, c),
            State::BetweenDoctypePublicAndSystemIdentifiers => {
                self.after_doctype_public_identifier_state(c)
            }
            // what is left of a doctype: `BogusDoctype`
            _ => self.bogus_doctype_state(c),
        }
    }

    /// Takes a character in a comment, a CDATA section or a doctype, where no reference is held.
    fn step_in_declaration(&mut self, c: char) -> Result<ProcessResult<Sink::Handle>, ParseFault>
        requires declaration { is_in_declaration self.old.state ≡ true }
        requires fresh { self.old.char_ref ≡ None }
        requires sound { Sink.is_sound (Sink.view self.old.sink) }
        ensures { Keeps Sink.TokenSink self.old self.new c result }
    {
        match self.state {
            State::BogusComment => self.bogus_comment_state(c),
            State::MarkupDeclarationOpen => self.markup_declaration_open_state(c),
            State::CommentStart => self.comment_start_state(c),
            State::CommentStartDash => self.comment_start_dash_state(c),
            State::Comment => self.comment_state(c),
            State::CommentLessThanSign => self.comment_less_than_sign_state(c),
            State::CommentLessThanSignBang => self.comment_less_than_sign_bang_state(c),
            State::CommentLessThanSignBangDash => self.comment_less_than_sign_bang_dash_state(c),
            State::CommentLessThanSignBangDashDash => {
                self.comment_less_than_sign_bang_dash_dash_state(c)
            }
            State::CommentEndDash => self.comment_end_dash_state(c),
            State::CommentEnd => self.comment_end_state(c),
            State::CommentEndBang => self.comment_end_bang_state(c),
            State::CdataSection => self.cdata_section_state(c),
            State::CdataSectionBracket => self.cdata_section_bracket_state(c),
            State::CdataSectionEnd => self.cdata_section_end_state(c),
            _ => self.step_in_doctype(c),
        }
    }

    /// Takes a character, wherever the machine stands, where no reference is held.
    pub(crate) fn step(&mut self, c: char) -> Result<ProcessResult<Sink::Handle>, ParseFault>
        requires fresh { self.old.char_ref ≡ None }
        requires sound { Sink.is_sound (Sink.view self.old.sink) }
        ensures { Keeps Sink.TokenSink self.old self.new c result }
    {
        match self.state {
            State::Data => self.data_state(c),
            State::Plaintext => self.plaintext_state(c),
            State::TagOpen => self.tag_open_state(c),
            State::EndTagOpen => self.end_tag_open_state(c),
            State::TagName => self.tag_name_state(c),
            State::RawData(kind) => self.raw_data_state(kind, c),
            State::RawLessThanSign(kind) => self.raw_less_than_sign_state(kind, c),
            State::RawEndTagOpen(kind) => self.raw_end_tag_open_state(kind, c),
            State::RawEndTagName(kind) => self.raw_end_tag_name_state(kind, c),
            State::ScriptDataEscapeStart(kind) => self.script_data_escape_start_state(kind, c),
            State::ScriptDataEscapeStartDash => self.script_data_escape_start_dash_state(c),
            State::ScriptDataEscapedDash(kind) => self.script_data_escaped_dash_state(kind, c),
            State::ScriptDataEscapedDashDash(kind) => {
                self.script_data_escaped_dash_dash_state(kind, c)
            }
            State::ScriptDataDoubleEscapeEnd => self.script_data_double_escape_end_state(c),
            State::BeforeAttributeName => self.before_attribute_name_state(c),
            State::AttributeName => self.attribute_name_state(c),
            State::AfterAttributeName => self.after_attribute_name_state(c),
            State::BeforeAttributeValue => self.before_attribute_value_state(c),
            State::AttributeValue(kind) => self.attribute_value_state(kind, c),
            State::AfterAttributeValueQuoted => self.after_attribute_value_quoted_state(c),
            State::SelfClosingStartTag => self.self_closing_start_tag_state(c),
            _ => self.step_in_declaration(c),
        }
    }
}
