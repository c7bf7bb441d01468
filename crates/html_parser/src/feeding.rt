//! Feeding a tokenizer past every pause, over any sink.
ghost use Rattle.std.specs.Prelude.{◌≡◌, [], true, None, IfSome};
ghost use Rattle.std.specs.Str.{chars};
ghost use Rattle.std.specs.String.{string_bytes};
ghost use Rattle.html_tokens.specs.TextState.{is_text_state};
ghost use Rattle.html_tokenizer.specs.Calls.{IsReadyIf, refusal_of};
ghost use Rattle.html_parser.specs.Read.{EndsAll, FeedsAll, HasRead, TakesText, beginning, left_by, stopped_by};

use html_tokenizer::{BufferQueue, References, TokenSink, Tokenizer, TokenizerOpts};
use html_tokens::laws::notes_change_nothing;
use markup::{ParseFault, TokenizerResult};
use std::alloc::Global;

/// A tokenizer that has read nothing yet.
pub(crate) fn begin<Sink: TokenSink>(
    alloc: Global,
    sink: Sink,
    opts: TokenizerOpts,
    table: References,
) -> Tokenizer<Sink>
    requires text { IfSome opts.initial_state (λ st. is_text_state st ≡ true) }
    requires sound { Sink.is_sound (Sink.view sink) }
    ensures reads { HasRead Sink.TokenSink (beginning table opts (Sink.view sink) (Sink.errors sink)) [] result }
    ensures over { result.sink ≡ sink }
    ensures begun { refusal_of result ≡ None }
    ensures ready { IsReadyIf Sink.TokenSink (refusal_of result) result }
{
    notes_change_nothing::<Sink>();
    Tokenizer::new(alloc, sink, opts, table)
}

/// Has a tokenizer take all of its input, past every pause.
pub(crate) fn feed_all<Sink: TokenSink>(
    tokenizer: &mut Tokenizer<Sink>,
    input: &mut BufferQueue,
) -> Result<(), ParseFault>
    requires ready { IsReadyIf Sink.TokenSink (refusal_of tokenizer.old) tokenizer.old }
    ensures gives { FeedsAll Sink.TokenSink (refusal_of tokenizer.old) tokenizer.old tokenizer.new input.old input.new result }
    ensures ready { IsReadyIf Sink.TokenSink (refusal_of tokenizer.new) tokenizer.new }
{
    loop {
        match tokenizer.feed(input)? {
            TokenizerResult::Done => return Ok(()),
            TokenizerResult::Script(_) => {}
            TokenizerResult::EncodingIndicator(_) => {}
        }
    }
}

/// Has a tokenizer take what waits, and then a text, past every pause. Where memory is wanting for the text all has failed.
pub(crate) fn consume_text<Sink: TokenSink>(
    tokenizer: &mut Tokenizer<Sink>,
    input: &mut BufferQueue,
    has_failed: &mut bool,
    text: String,
) -> Result<(), ParseFault>
    requires ready { IsReadyIf Sink.TokenSink (stopped_by has_failed.old (refusal_of tokenizer.old)) tokenizer.old }
    ensures gives { TakesText Sink.TokenSink (stopped_by has_failed.old (refusal_of tokenizer.old))
        (stopped_by has_failed.new (refusal_of tokenizer.new)) tokenizer.old tokenizer.new input.old input.new
        (chars (string_bytes text)) result }
    ensures ready { IsReadyIf Sink.TokenSink (stopped_by has_failed.new (refusal_of tokenizer.new)) tokenizer.new }
    ensures same_failed { IfSome (stopped_by has_failed.old (refusal_of tokenizer.old)) (λ _. has_failed.new ≡ has_failed.old) }
{
    if *has_failed {
        return Err(ParseFault::Failed);
    }
    feed_all(tokenizer, input)?;
    if input.push_back(text).is_err() {
        *has_failed = true;
        return Err(ParseFault::Memory);
    }
    feed_all(tokenizer, input)
}

/// Has a tokenizer take all of its input, and then the end.
fn feed_to_end<Sink: TokenSink>(
    tokenizer: &mut Tokenizer<Sink>,
    input: &mut BufferQueue,
) -> Result<(), ParseFault>
    requires ready { IsReadyIf Sink.TokenSink (refusal_of tokenizer.old) tokenizer.old }
    ensures gives { EndsAll Sink.TokenSink (refusal_of tokenizer.old) tokenizer.old input.old.characters
        (left_by Sink.TokenSink tokenizer.new.sink result) }
{
    feed_all(tokenizer, input)?;
    tokenizer.end()
}

/// What takes the tokens. A tokenizer is let go of here alone, since each place that lets one go takes long to prove.
fn sink_of<Sink: TokenSink + Drop>(tokenizer: Tokenizer<Sink>) -> Sink
    ensures { result ≡ tokenizer.sink }
{
    tokenizer.sink
}

/// Has a tokenizer take all of its input, and then the end. What is left is its sink.
pub(crate) fn end_all<Sink: TokenSink + Drop>(
    tokenizer: Tokenizer<Sink>,
    input: BufferQueue,
) -> Result<Sink, ParseFault>
    requires ready { IsReadyIf Sink.TokenSink (refusal_of tokenizer) tokenizer }
    ensures gives { EndsAll Sink.TokenSink (refusal_of tokenizer) tokenizer input.characters result }
{
    let mut tokenizer = tokenizer;
    let mut input = input;
    let answer = feed_to_end(&mut tokenizer, &mut input);
    let sink = sink_of(tokenizer);
    match answer {
        Ok(()) => Ok(sink),
        Err(fault) => Err(fault),
    }
}
