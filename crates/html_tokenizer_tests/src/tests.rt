//! The calls on worked rows.
ghost use Rattle.std.specs.Prelude.{IfOk};
ghost use Rattle.html_tokenizer.specs.Calls.{IsReadyIf, refusal};

mod calls;
mod lines;
mod memory;
mod pauses;
mod refusing;
mod sinks;
mod words;

use html_tokenizer::{BufferQueue, Listed, References, TokenSink, Tokenizer, TokenizerOpts};
use markup::{ParseFault, TokenizerResult};
use std::alloc::{AllocError, Global};
use std::process::Abort;
use text_pieces::as_given;

/// A text, and the tokens that it tells.
type Row = (&'static str, &'static str);

/// Above the number of pauses in any piece of a text below.
const PAUSES: u32 = 8;

fn five(alloc: Global) -> Result<References, ParseFault> {
    match References::five(alloc) {
        Ok(table) => Ok(table),
        Err(_) => Err(ParseFault::Memory),
    }
}

/// A tokenizer over this sink, as a page is read. `exact_errors` says whether characters may be errors.
fn tokenizer_over<S: TokenSink + Drop>(
    alloc: Global,
    sink: S,
    exact_errors: bool,
) -> Result<Tokenizer<S>, ParseFault>
    requires { S.is_sound (S.view sink) }
    ensures { IfOk result (λ k. IsReadyIf S.TokenSink (refusal k.stream) k) }
{
    let table = five(alloc)?;
    let options = TokenizerOpts {
        exact_errors,
        ..TokenizerOpts::default()
    };
    Ok(Tokenizer::new(alloc, sink, options, table))
}

/// A list that is told nothing yet.
fn list_of(alloc: Global) -> Listed {
    Listed::new(alloc, false)
}

/// Puts a text at the back of the input.
fn put(alloc: Global, input: &mut BufferQueue, text: &str) -> Result<(), ParseFault> {
    input.push_back(String::from_str(alloc, text)?)
}

/// Feeds what stands in the input, and says whether all was read.
fn feed_once<S: TokenSink>(
    tokenizer: &mut Tokenizer<S>,
    input: &mut BufferQueue,
) -> Result<bool, ParseFault>
    requires { IsReadyIf S.TokenSink (refusal tokenizer.old.stream) tokenizer.old }
    ensures { IsReadyIf S.TokenSink (refusal tokenizer.new.stream) tokenizer.new }
{
    Ok(matches!(tokenizer.feed(input)?, TokenizerResult::Done))
}

/// Feeds what stands in the input, on over its pauses.
fn feed_all<S: TokenSink>(
    tokenizer: &mut Tokenizer<S>,
    input: &mut BufferQueue,
) -> Result<(), ParseFault>
    requires { IsReadyIf S.TokenSink (refusal tokenizer.old.stream) tokenizer.old }
    ensures { IsReadyIf S.TokenSink (refusal tokenizer.new.stream) tokenizer.new }
{
    'pauses: for _pause in 0..PAUSES {
        if feed_once(tokenizer, input)? {
            return Ok(());
        }
    }
    Ok(())
}

/// Feeds one piece more.
fn feed_piece<S: TokenSink>(
    tokenizer: &mut Tokenizer<S>,
    input: &mut BufferQueue,
    piece: String,
) -> Result<(), ParseFault>
    requires { IsReadyIf S.TokenSink (refusal tokenizer.old.stream) tokenizer.old }
    ensures { IsReadyIf S.TokenSink (refusal tokenizer.new.stream) tokenizer.new }
{
    input.push_back(piece)?;
    feed_all(tokenizer, input)
}

/// Feeds these pieces, one after the other.
fn feed_pieces<S: TokenSink>(
    tokenizer: &mut Tokenizer<S>,
    pieces: Vec<String>,
) -> Result<(), ParseFault>
    requires { IsReadyIf S.TokenSink (refusal tokenizer.old.stream) tokenizer.old }
    ensures { IsReadyIf S.TokenSink (refusal tokenizer.new.stream) tokenizer.new }
{
    let mut input = BufferQueue::new();
    for piece in pieces {
        feed_piece(tokenizer, &mut input, piece)?;
    }
    Ok(())
}

/// The same, and the end.
fn feed_to_end<S: TokenSink>(
    tokenizer: &mut Tokenizer<S>,
    pieces: Vec<String>,
) -> Result<(), ParseFault>
    requires { IsReadyIf S.TokenSink (refusal tokenizer.old.stream) tokenizer.old }
    ensures { IsReadyIf S.TokenSink (refusal tokenizer.new.stream) tokenizer.new }
{
    feed_pieces(tokenizer, pieces)?;
    tokenizer.end()
}

/// Whether a tokenizer refuses both calls by this fault.
fn refuses<S: TokenSink>(
    tokenizer: &mut Tokenizer<S>,
    input: &mut BufferQueue,
    fault: ParseFault,
) -> bool
    requires { IsReadyIf S.TokenSink (refusal tokenizer.old.stream) tokenizer.old }
    ensures { IsReadyIf S.TokenSink (refusal tokenizer.new.stream) tokenizer.new }
{
    let refuses_input = tokenizer.feed(input).err() == Some(fault);
    let refuses_end = tokenizer.end() == Err(fault);
    refuses_input && refuses_end
}

/// Reads these pieces and their end over a borrowed sink.
fn read_over<S: TokenSink>(
    alloc: Global,
    sink: &mut S,
    pieces: Vec<String>,
) -> Result<(), ParseFault>
    requires { S.is_sound (S.view sink.old) }
{
    let mut tokenizer = tokenizer_over(alloc, sink, false)?;
    let answer = feed_to_end(&mut tokenizer, pieces);
    drop(tokenizer);
    answer
}

/// What a list receives of these pieces and of their end.
fn read(alloc: Global, pieces: &[&str]) -> Result<Listed, ParseFault> {
    let pieces = as_given(alloc, pieces)?;
    let mut sink = list_of(alloc);
    read_over(alloc, &mut sink, pieces)?;
    Ok(sink)
}

/// Sees that a row is right, and names it otherwise.
fn see(rt: &impl Abort, is_right: bool, row: &str) {
    assert!(rt; is_right, "{row}");
}
