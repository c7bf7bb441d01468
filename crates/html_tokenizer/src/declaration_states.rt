//! What stands after `<!` (HTML Standard, section 13.2.5.42).
ghost use Rattle.std.specs.Prelude.{◌≡◌, ◌∷◌, [], ◌++◌, true};
ghost use Rattle.html_tokens.specs.declared.states.State.TheVariants as state;
ghost use Rattle.html_tokenizer_parts.specs.declared.keyword.Word.TheVariants as word;
ghost use Rattle.html_tokenizer_parts.specs.Keywords.{becomes, IsPart, MakesNoWord, OpensNothing};
ghost use Rattle.html_tokenizer.specs.Steps.{IsAt, Keeps};

use crate::tokenizer::Tokenizer;
use html_tokenizer_parts::error_code::ErrorCode;
use html_tokenizer_parts::keyword::Word;
use html_tokens::ProcessResult;
use html_tokens::sink::TokenSink;
use html_tokens::states::State;
use markup::ParseFault;

impl<Sink: TokenSink> Tokenizer<Sink> {
    pub(crate) fn markup_declaration_open_state(
        &mut self,
        c: char,
    ) -> Result<ProcessResult<Sink::Handle>, ParseFault>
        requires at { IsAt self.old state.MarkupDeclarationOpen }
        requires sound { Sink.is_sound (Sink.view self.old.sink) }
        ensures { Keeps Sink.TokenSink self.old self.new c result }
    {
        if self.keyword.becomes(c, Word::Dashes) {
            self.state = State::CommentStart;
            return Ok(ProcessResult::Continue);
        }
        if self.keyword.becomes(c, Word::Doctype) {
            self.state = State::Doctype;
            return Ok(ProcessResult::Continue);
        }
        if self.keyword.becomes(c, Word::Cdata) {
            return self.open_cdata(c);
        }
        self.go_on_declaring(c)
    }

    /// Where c ends `<![CDATA[`.
    fn open_cdata(&mut self, c: char) -> Result<ProcessResult<Sink::Handle>, ParseFault>
        requires at { IsAt self.old state.MarkupDeclarationOpen }
        requires sound { Sink.is_sound (Sink.view self.old.sink) }
        requires whole { becomes word.Cdata (self.old.keyword ++ c ∷ []) ≡ true }
        requires part { IsPart self.old.keyword }
        ensures { Keeps Sink.TokenSink self.old self.new c result }
    {
        if self
            .sink
            .adjusted_current_node_present_but_not_in_html_namespace()
        {
            self.state = State::CdataSection;
            return Ok(ProcessResult::Continue);
        }
        self.declare_nothing(c, ErrorCode::CdataInHtmlContent)
    }

    /// Where c makes no word whole.
    fn go_on_declaring(&mut self, c: char) -> Result<ProcessResult<Sink::Handle>, ParseFault>
        requires at { IsAt self.old state.MarkupDeclarationOpen }
        requires sound { Sink.is_sound (Sink.view self.old.sink) }
        requires open { MakesNoWord self.old.keyword c }
        requires part { IsPart self.old.keyword }
        ensures { Keeps Sink.TokenSink self.old self.new c result }
    {
        if self.keyword.may_declare(c) {
            self.keyword.push(c)?;
            return Ok(ProcessResult::Continue);
        }
        self.declare_nothing(c, ErrorCode::IncorrectlyOpenedComment)
    }

    /// Where what was read, and c, is the front of a bogus comment.
    fn declare_nothing(
        &mut self,
        c: char,
        fault: ErrorCode,
    ) -> Result<ProcessResult<Sink::Handle>, ParseFault>
        requires at { IsAt self.old state.MarkupDeclarationOpen }
        requires sound { Sink.is_sound (Sink.view self.old.sink) }
        requires nothing { OpensNothing (Sink.asks_cdata (Sink.view self.old.sink)) self.old.keyword c }
        ensures { Keeps Sink.TokenSink self.old self.new c result }
    {
        self.comment = self.keyword.text(self.stream.alloc)?;
        self.fault = fault;
        self.state = State::BogusComment;
        self.bogus_comment_state(c)
    }
}
