//! What the calls answer before, at and after the end of the input.

ghost use Rattle.html_tokenizer.specs.Calls.{IsReadyIf, refusal};

use super::words::{Spoken, is_in_words};
use super::{feed_piece, list_of, put, refuses, see, tokenizer_over};
use html_tokenizer::{BufferQueue, Listed, TokenSink, Tokenizer};
use markup::ParseFault;
use std::alloc::Global;

/// Feeds a text.
pub fn feed_text<S: TokenSink>(
    alloc: Global,
    tokenizer: &mut Tokenizer<S>,
    text: &str,
) -> Result<(), ParseFault>
    requires { IsReadyIf S.TokenSink (refusal tokenizer.old.stream) tokenizer.old }
    ensures { IsReadyIf S.TokenSink (refusal tokenizer.new.stream) tokenizer.new }
{
    let piece = String::from_str(alloc, text)?;
    feed_piece(tokenizer, &mut BufferQueue::new(), piece)
}

/// Whether a tokenizer that told the end refuses every call.
fn is_ended<S: TokenSink>(tokenizer: &mut Tokenizer<S>, input: &mut BufferQueue) -> bool
    requires { IsReadyIf S.TokenSink (refusal tokenizer.old.stream) tokenizer.old }
    ensures { IsReadyIf S.TokenSink (refusal tokenizer.new.stream) tokenizer.new }
{
    let has_ended = tokenizer.has_ended() && !tokenizer.nothing_pending();
    refuses(tokenizer, input, ParseFault::Ended) && has_ended
}

/// Whether each call after a text and the end is refused.
fn is_refused_after<S: TokenSink>(
    alloc: Global,
    tokenizer: &mut Tokenizer<S>,
    text: &str,
    input: &mut BufferQueue,
) -> bool
    requires { IsReadyIf S.TokenSink (refusal tokenizer.old.stream) tokenizer.old }
{
    feed_text(alloc, tokenizer, text).is_ok()
        && tokenizer.end().is_ok()
        && is_ended(tokenizer, input)
        && is_ended(tokenizer, input)
}

/// The same of a tokenizer over this sink, which is lent.
fn refuses_after<S: TokenSink>(
    alloc: Global,
    sink: &mut S,
    text: &str,
    input: &mut BufferQueue,
) -> bool
    requires { S.is_sound (S.view sink.old) }
{
    let Ok(mut tokenizer) = tokenizer_over(alloc, sink, false) else {
        return false;
    };
    let is_right = is_refused_after(alloc, &mut tokenizer, text, input);
    drop(tokenizer);
    is_right
}

/// Whether a list was told the text `a<` and the end, and this input is left.
fn has_left_all(alloc: Global, sink: &Listed, input: &BufferQueue) -> bool {
    sink.has_ended && is_in_words(alloc, sink, "text \"a<\"; eof") && input.as_str() == "b"
}

/// Whether calls after the end are refused, and leave the input, which was empty, and the sink as they are.
fn are_refused_after(alloc: Global, input: &mut BufferQueue) -> bool {
    if put(alloc, input, "b").is_err() {
        return false;
    }
    let mut sink = list_of(alloc);
    refuses_after(alloc, &mut sink, "a<", input) && has_left_all(alloc, &sink, input)
}

#[test]
fn calls_after_the_end_are_refused(rt: HostRuntime) {
    assert!(rt; are_refused_after(rt.alloc(), &mut BufferQueue::new()));
}

/// What is read before all that follows is text, what is read then, and the tokens.
type Plain = (&'static str, &'static str, &'static str);

const PLAIN: &[Plain] = &[
    ("a", "<b>&amp;", "text \"a<b>&amp;\"; eof"),
    ("", "<", "text \"<\"; eof"),
    ("<b>\r", "\n\0</b>", "start b; text \"\n\u{FFFD}</b>\"; eof"),
    (
        "<title>a",
        "</title>",
        "start title; text \"a</title>\"; eof",
    ),
];

/// Has all that follows read as text, where nothing is pending.
fn turn_plain<S: TokenSink>(tokenizer: &mut Tokenizer<S>) -> Result<(), ParseFault>
    requires { IsReadyIf S.TokenSink (refusal tokenizer.old.stream) tokenizer.old }
    ensures { IsReadyIf S.TokenSink (refusal tokenizer.new.stream) tokenizer.new }
{
    if !tokenizer.nothing_pending() {
        return Err(ParseFault::Shape);
    }
    tokenizer.set_plaintext_state();
    Ok(())
}

/// Whether a text is read, then one that is all text, after which nothing is pending, and the end, and the tokens are
/// told.
fn is_fed_plainly<S: TokenSink + Spoken>(
    alloc: Global,
    tokenizer: &mut Tokenizer<S>,
    row: &Plain,
) -> bool
    requires { IsReadyIf S.TokenSink (refusal tokenizer.old.stream) tokenizer.old }
{
    feed_text(alloc, tokenizer, row.0).is_ok()
        && turn_plain(tokenizer).is_ok()
        && feed_text(alloc, tokenizer, row.1).is_ok()
        && tokenizer.nothing_pending()
        && tokenizer.end().is_ok()
        && is_in_words(alloc, &tokenizer.sink, row.2)
}

/// The same of a tokenizer over this sink.
fn is_read_plainly<S: TokenSink + Spoken + Drop>(alloc: Global, sink: S, row: &Plain) -> bool
    requires { S.is_sound (S.view sink) }
{
    let Ok(mut tokenizer) = tokenizer_over(alloc, sink, false) else {
        return false;
    };
    let is_right = is_fed_plainly(alloc, &mut tokenizer, row);
    drop(tokenizer);
    is_right
}

fn is_plain(alloc: Global, row: &Plain) -> bool {
    is_read_plainly(alloc, list_of(alloc), row)
}

#[test]
fn all_that_follows_may_be_text(rt: HostRuntime) {
    for row in PLAIN {
        see(&rt, is_plain(rt.alloc(), row), row.0);
    }
}
