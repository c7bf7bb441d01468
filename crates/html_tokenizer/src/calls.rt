//! The calls of a tokenizer.
ghost use Rattle.std.specs.Prelude.{◌≡◌, true, IfSome, Some, None};
ghost use Rattle.html_tokens.specs.TextState.{is_text_state};
ghost use Rattle.html_tokens.specs.Item.{InPlaintext};
ghost use Rattle.html_tokens.specs.Reading.{first_place};
ghost use Rattle.html_tokens.specs.declared.states.State.TheVariants as state;
ghost use Rattle.html_tokenizer.specs.Calls.{refusal_of, has_ended, text_place, is_nothing_pending, IsReadyIf, IsNew, ReadsAt};
ghost use Rattle.html_tokenizer.specs.Calls.{FeedGives, EndGives, KeepsSound, TellsEnd};

use crate::doctype_states::no_doctype;
use crate::tag_states::nameless;
use crate::tokenizer::Tokenizer;
use html_queue::BufferQueue;
use html_references::References;
use html_tokenizer_parts::error_code::ErrorCode;
use html_tokenizer_parts::keyword::Keyword;
use html_tokenizer_parts::letters::Letters;
use html_tokenizer_parts::raw_end::RawEnd;
use html_tokenizer_parts::repeats::Repeats;
use html_tokenizer_parts::stream::Stream;
use html_tokens::TokenizerOpts;
use html_tokens::sink::TokenSink;
use html_tokens::states::State;
use markup::{LocalName, ParseFault, Text, TokenizerResult};
use std::alloc::Global;

/// The state in which reading begins.
fn first_state(initial_state: Option<State>) -> State
    requires text { IfSome initial_state (λ st. is_text_state st ≡ true) }
    ensures place { first_place initial_state ≡ first_place (Some result) }
    ensures text { is_text_state result ≡ true }
{
    match initial_state {
        Some(state) => state,
        None => State::Data,
    }
}

impl<Sink: TokenSink> Tokenizer<Sink> {
    /// A tokenizer at the front of its input, over this sink and with this table of references (HTML Standard, section
    /// 13.2.5). It takes no memory.
    ///
    /// A context element of fragment parsing chooses `opts.initial_state`; `opts.last_start_tag_name` is then what ends
    /// raw text.
    pub fn new(alloc: Global, sink: Sink, opts: TokenizerOpts, table: References) -> Tokenizer<Sink>
        requires text { IfSome opts.initial_state (λ st. is_text_state st ≡ true) }
        requires sound { Sink.is_sound (Sink.view sink) }
        ensures reads { IsNew Sink.TokenSink result sink opts table }
        ensures ready { IsReadyIf Sink.TokenSink (refusal_of result) result }
    {
        Tokenizer {
            sink,
            stream: Stream {
                alloc,
                table,
                exact_errors: opts.exact_errors,
                discard_bom: opts.discard_bom,
                ignore_lf: false,
                breaks: 0,
                has_ended: false,
                has_failed: false,
            },
            state: first_state(opts.initial_state),
            char_ref: None,
            raw_end: RawEnd::new(alloc, opts.last_start_tag_name),
            tag: nameless(alloc),
            repeats: Repeats::none(),
            attribute_name: LocalName::empty(alloc),
            attribute_value: Text::empty(alloc),
            comment: Text::empty(alloc),
            doctype: no_doctype(),
            fault: ErrorCode::IncorrectlyOpenedComment,
            temporary: Text::empty(alloc),
            word: Letters::new(alloc),
            keyword: Keyword::new(alloc),
        }
    }

    /// Remembers a fault, and hands it on.
    fn fail(&mut self, fault: ParseFault) -> ParseFault
        ensures failed { self.new ≡ record self.old { stream = record self.old.stream { has_failed = true } } }
        ensures fault { result ≡ fault }
    {
        self.stream.has_failed = true;
        fault
    }

    /// Takes the characters of the input, and tells the sink what they say, up to the end of the input or a pause: an
    /// end tag of a script, or a `meta` element that names an encoding. After a pause a later call goes on; text may be
    /// put at the input's front meanwhile, as `document.write` does.
    ///
    /// What the input does not yet decide is held: a tag, a comment, a doctype or a reference that may go on.
    ///
    /// Errors: what the sink refuses is passed on; the sink then stands before the token that it refused, and the input
    /// after the character that led to it. `Memory` where memory is wanting. From then on every call answers `Failed`, as
    /// it does where the sink had failed. `Ended` once the end was told, which changes nothing.
    pub fn feed(
        &mut self,
        input: &mut BufferQueue,
    ) -> Result<TokenizerResult<Sink::Handle>, ParseFault>
        requires ready { IsReadyIf Sink.TokenSink (refusal_of self.old) self.old }
        ensures gives { FeedGives Sink.TokenSink (refusal_of self.old) self.old self.new input.old input.new result }
        ensures ready { IsReadyIf Sink.TokenSink (refusal_of self.new) self.new }
        ensures sound { KeepsSound Sink.TokenSink self.old.sink self.new.sink }
        ensures loans { Sink.references self.new.sink ≡ Sink.references self.old.sink }
    {
        self.stream.refuses()?;
        match self.run(input) {
            Ok(result) => Ok(result),
            Err(fault) => Err(self.fail(fault)),
        }
    }

    /// Hands out what is held, and then the end of the input.
    fn emit_end(&mut self) -> Result<(), ParseFault>
        requires ready { IsReadyIf Sink.TokenSink None self.old }
        ensures { TellsEnd Sink.TokenSink self.old self.new result }
    {
        self.emit_held()?;
        self.emit_end_of_file()
    }

    /// Ends the input: tells what is held, then `EOFToken`, then the sink's `end`.
    ///
    /// Errors: what the sink refuses is passed on, and `Memory`; from then on every call answers `Failed`. `Ended` once
    /// the end was told, which changes nothing.
    pub fn end(&mut self) -> Result<(), ParseFault>
        requires ready { IsReadyIf Sink.TokenSink (refusal_of self.old) self.old }
        ensures gives { EndGives Sink.TokenSink (refusal_of self.old) self.old self.new result }
        ensures ready { IsReadyIf Sink.TokenSink (refusal_of self.new) self.new }
        ensures sound { KeepsSound Sink.TokenSink self.old.sink self.new.sink }
        ensures loans { Sink.references self.new.sink ≡ Sink.references self.old.sink }
    {
        self.stream.refuses()?;
        match self.emit_end() {
            Ok(()) => {
                self.stream.has_ended = true;
                self.sink.end();
                Ok(())
            }
            Err(fault) => Err(self.fail(fault)),
        }
    }

    /// Whether the end of the input was told.
    pub fn has_ended(&self) -> bool
        ensures { result ≡ has_ended self.now }
    {
        self.stream.has_ended
    }

    /// Whether the tokenizer stands in text, holds no part of an item (HTML Standard, section 13.2.5), and neither ended
    /// nor failed. Then what comes is read from its front.
    pub fn nothing_pending(&self) -> bool
        ensures is { result ≡ is_nothing_pending self.now }
        ensures reads { result ≡ true → ReadsAt Sink.TokenSink (text_place self.now) self.now }
    {
        if self.stream.has_ended || self.stream.has_failed {
            return false;
        }
        if self.char_ref.is_some() {
            return false;
        }
        self.state.is_text_state()
    }

    /// Has all that follows read as text (HTML Standard, section 13.2.5.5).
    pub fn set_plaintext_state(&mut self)
        requires nothing_pending { is_nothing_pending self.old ≡ true }
        ensures changed { self.new ≡ record self.old { state = state.Plaintext } }
        ensures reads { ReadsAt Sink.TokenSink InPlaintext self.new }
    {
        self.state = State::Plaintext;
    }
}
