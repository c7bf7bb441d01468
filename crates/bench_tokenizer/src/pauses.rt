//! Reading a hostile text to its end, past every pause.
ghost use Rattle.html_tokenizer.specs.Calls.{IsReadyIf, refusal_of};
ghost use Rattle.bench_tokenizer.specs.Counts.{counting};

use crate::counts::Counts;
use crate::read::counts_of;
use html_tokenizer::{BufferQueue, References, Tokenizer, TokenizerOpts};
use markup::{ParseFault, TokenizerResult};
use std::alloc::Global;
use text_pieces::piece_of;

/// What is written at each pause.
const WRITTEN: &str = "<i>written</i>";

/// Puts a text before what waits, and says that reading is not done.
fn write(alloc: Global, input: &mut BufferQueue) -> Result<bool, ParseFault> {
    input.push_front(String::from_str(alloc, WRITTEN)?)?;
    Ok(false)
}

/// Has a tokenizer read what waits, and says whether it is done; at a pause a text is put before what waits.
fn feed_once(
    alloc: Global,
    tokenizer: &mut Tokenizer<Counts>,
    input: &mut BufferQueue,
) -> Result<bool, ParseFault>
    requires { IsReadyIf counting (refusal_of tokenizer.old) tokenizer.old }
    ensures { IsReadyIf counting (refusal_of tokenizer.new) tokenizer.new }
{
    match tokenizer.feed(input)? {
        TokenizerResult::Done => Ok(true),
        _ => write(alloc, input),
    }
}

/// Has a tokenizer read a piece, past every pause.
fn feed_piece(
    alloc: Global,
    tokenizer: &mut Tokenizer<Counts>,
    input: &mut BufferQueue,
    piece: String,
) -> Result<(), ParseFault>
    requires { IsReadyIf counting (refusal_of tokenizer.old) tokenizer.old }
    ensures { IsReadyIf counting (refusal_of tokenizer.new) tokenizer.new }
{
    input.push_back(piece)?;
    for _pause in 0..u64::MAX {
        if feed_once(alloc, tokenizer, input)? {
            break;
        }
    }
    Ok(())
}

/// Has a tokenizer read a text character by character.
fn feed_characters(
    alloc: Global,
    tokenizer: &mut Tokenizer<Counts>,
    input: &mut BufferQueue,
    text: &str,
) -> Result<(), ParseFault>
    requires { IsReadyIf counting (refusal_of tokenizer.old) tokenizer.old }
    ensures { IsReadyIf counting (refusal_of tokenizer.new) tokenizer.new }
{
    for c in text.chars() {
        feed_piece(alloc, tokenizer, input, piece_of(alloc, c)?)?;
    }
    Ok(())
}

/// Has a tokenizer read a text, at once or character by character.
fn feed_text(
    alloc: Global,
    tokenizer: &mut Tokenizer<Counts>,
    input: &mut BufferQueue,
    text: String,
    is_cut: bool,
) -> Result<(), ParseFault>
    requires { IsReadyIf counting (refusal_of tokenizer.old) tokenizer.old }
    ensures { IsReadyIf counting (refusal_of tokenizer.new) tokenizer.new }
{
    if is_cut {
        feed_characters(alloc, tokenizer, input, text.as_str())
    } else {
        feed_piece(alloc, tokenizer, input, text)
    }
}

/// Has a tokenizer read a text, at once or character by character, and its end.
fn feed_to_end(
    alloc: Global,
    tokenizer: &mut Tokenizer<Counts>,
    input: &mut BufferQueue,
    text: String,
    is_cut: bool,
) -> Result<(), ParseFault>
    requires { IsReadyIf counting (refusal_of tokenizer.old) tokenizer.old }
{
    feed_text(alloc, tokenizer, input, text, is_cut)?;
    tokenizer.end()
}

/// Reads a hostile text to its end, at once or character by character, and counts what it says.
pub(crate) fn read_past_pauses(
    alloc: Global,
    text: String,
    is_cut: bool,
) -> Result<Counts, ParseFault> {
    let Ok(table) = References::five(alloc) else {
        return Err(ParseFault::Memory);
    };
    let opts = TokenizerOpts::default();
    let mut tokenizer = Tokenizer::new(alloc, Counts::new(true), opts, table);
    let mut input = BufferQueue::new();
    let answer = feed_to_end(alloc, &mut tokenizer, &mut input, text, is_cut);
    let counts = counts_of(tokenizer);
    answer?;
    Ok(counts)
}
