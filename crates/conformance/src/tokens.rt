//! Tokens.
ghost use Rattle.std.specs.Prelude.{IfOk};
ghost use Rattle.html_tokenizer.specs.Calls.{IsReadyIf, refusal};

use crate::lines::yes_or_no;
use crate::settings::{references, tokenizer_opts};
use crate::words::in_words;
use html_tokenizer::{BufferQueue, Listed, TokenSink, Tokenizer};
use markup::{ParseFault, TokenizerResult};
use row_format::{Heading, How, Row};
use std::alloc::Global;
use text_pieces::pieces_of;

/// Above the number of pauses in any piece of a text.
const PAUSES: u32 = 1_000;

/// A tokenizer over this sink.
fn tokenizer_over<S: TokenSink + Drop>(
    alloc: Global,
    sink: S,
    row: &Row,
    exact: bool,
) -> Result<Tokenizer<S>, ParseFault>
    requires { S.is_sound (S.view sink) }
    ensures { IfOk result (λ k. IsReadyIf S.TokenSink (refusal k.stream) k) }
{
    let table = references(alloc, row)?;
    let options = tokenizer_opts(alloc, row, exact)?;
    Ok(Tokenizer::new(alloc, sink, options, table))
}

/// Feeds one piece more, on over its pauses.
fn feed_piece<S: TokenSink>(
    tokenizer: &mut Tokenizer<S>,
    input: &mut BufferQueue,
    piece: String,
) -> Result<(), ParseFault>
    requires { IsReadyIf S.TokenSink (refusal tokenizer.old.stream) tokenizer.old }
    ensures { IsReadyIf S.TokenSink (refusal tokenizer.new.stream) tokenizer.new }
{
    input.push_back(piece)?;
    'pauses: for _pause in 0..PAUSES {
        if matches!(tokenizer.feed(input)?, TokenizerResult::Done) {
            return Ok(());
        }
    }
    Ok(())
}

/// Feeds these pieces, one after the other.
fn feed_pieces<S: TokenSink>(
    tokenizer: &mut Tokenizer<S>,
    pieces: Vec<String>,
) -> Result<(), ParseFault>
    requires { IsReadyIf S.TokenSink (refusal tokenizer.old.stream) tokenizer.old }
    ensures { IsReadyIf S.TokenSink (refusal tokenizer.new.stream) tokenizer.new }
{
    let mut input = BufferQueue::new();
    for piece in pieces {
        feed_piece(tokenizer, &mut input, piece)?;
    }
    Ok(())
}

/// Feeds these pieces, and the end of the input if the row has it. Returns whether something was pending before the end.
fn feed_to_end<S: TokenSink>(
    tokenizer: &mut Tokenizer<S>,
    pieces: Vec<String>,
    tells_end: bool,
) -> Result<bool, ParseFault>
    requires { IsReadyIf S.TokenSink (refusal tokenizer.old.stream) tokenizer.old }
{
    feed_pieces(tokenizer, pieces)?;
    let is_pending = !tokenizer.nothing_pending();
    if tells_end {
        tokenizer.end()?;
    }
    Ok(is_pending)
}

/// Feeds a row to a tokenizer over a borrowed sink, and the end of the input if the row has it. Returns whether something was
/// pending before the end.
fn read_over<S: TokenSink>(
    alloc: Global,
    sink: &mut S,
    row: &Row,
    how: How,
    tells_end: bool,
) -> Result<bool, ParseFault>
    requires { S.is_sound (S.view sink.old) }
{
    let data = row.data(alloc)?;
    let pieces = pieces_of(alloc, data.as_str(), how.piece)?;
    let mut tokenizer = tokenizer_over(alloc, sink, row, how.exact)?;
    let answer = feed_to_end(&mut tokenizer, pieces, tells_end);
    drop(tokenizer);
    answer
}

/// The tokens of a row, or those that are emitted before the end of its input.
fn tokens(alloc: Global, row: &Row, how: How, tells_end: bool) -> Result<String, ParseFault> {
    let mut list = Listed::new(alloc, row.has(Heading::Cdata));
    read_over(alloc, &mut list, row, how, tells_end)?;
    Ok(in_words(alloc, &list, tells_end)?)
}

/// Whether a part of an item is pending before the end.
fn pending(alloc: Global, row: &Row, how: How) -> Result<String, ParseFault> {
    let mut list = Listed::new(alloc, row.has(Heading::Cdata));
    let is_pending = read_over(alloc, &mut list, row, how, false)?;
    Ok(String::from_str(alloc, yes_or_no(is_pending))?)
}

/// How many parse errors are reported.
fn count(alloc: Global, row: &Row, how: How) -> Result<u64, ParseFault> {
    let mut list = Listed::new(alloc, row.has(Heading::Cdata));
    read_over(alloc, &mut list, row, how, true)?;
    Ok(list.errors)
}

/// How many parse errors are reported, and how many where characters are checked too.
fn counts(alloc: Global, row: &Row, piece: usize) -> Result<String, ParseFault> {
    let exact = false;
    let few = count(alloc, row, How { exact, piece })?;
    let exact = true;
    let all = count(alloc, row, How { exact, piece })?;
    Ok(format!(in alloc; "{few} {all}")?)
}

/// What is seen of the tokens of a row, under a heading.
pub fn seen(alloc: Global, row: &Row, heading: Heading, how: How) -> Result<String, ParseFault> {
    match heading {
        Heading::Told => tokens(alloc, row, how, false),
        Heading::Pending => pending(alloc, row, how),
        Heading::Counts => counts(alloc, row, how.piece),
        _ => tokens(alloc, row, how, true),
    }
}
