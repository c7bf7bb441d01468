//! Want of memory, and sinks that refuse: what a tokenizer answers then and after it.

ghost use Rattle.html_tokenizer.specs.Calls.{IsReadyIf, refusal};

use super::calls::feed_text;
use super::refusing::Refusing;
use super::words::in_words;
use super::{Row, feed_all, list_of, put, refuses, see, tokenizer_over};
use html_tokenizer::{BufferQueue, Listed, TokenSink, Tokenizer};
use markup::ParseFault;
use std::alloc::Global;

/// Whether a tokenizer refuses both calls, since an earlier one failed.
fn is_failing<S: TokenSink>(tokenizer: &mut Tokenizer<S>) -> bool
    requires { IsReadyIf S.TokenSink (refusal tokenizer.old.stream) tokenizer.old }
    ensures { IsReadyIf S.TokenSink (refusal tokenizer.new.stream) tokenizer.new }
{
    refuses(tokenizer, &mut BufferQueue::new(), ParseFault::Failed)
        && !tokenizer.has_ended()
        && !tokenizer.nothing_pending()
}

/// The same of every call.
fn has_failed<S: TokenSink>(tokenizer: &mut Tokenizer<S>) -> bool
    requires { IsReadyIf S.TokenSink (refusal tokenizer.old.stream) tokenizer.old }
{
    let once = is_failing(tokenizer);
    let again = is_failing(tokenizer);
    once && again
}

/// Feeds what stands in the input, and the end. A tokenizer that lacks memory for them serves no more.
fn feed_or_fail<S: TokenSink>(
    tokenizer: &mut Tokenizer<S>,
    input: &mut BufferQueue,
) -> Result<(), ParseFault>
    requires { IsReadyIf S.TokenSink (refusal tokenizer.old.stream) tokenizer.old }
{
    let answer = match feed_all(tokenizer, input) {
        Ok(()) => tokenizer.end(),
        Err(fault) => Err(fault),
    };
    if answer.is_err() && !has_failed(tokenizer) {
        return Err(ParseFault::Shape);
    }
    answer
}

/// Reads what stands in the input and its end over a borrowed sink.
fn read_or_fail<S: TokenSink>(
    alloc: Global,
    sink: &mut S,
    exact_errors: bool,
    input: &mut BufferQueue,
) -> Result<(), ParseFault>
    requires { S.is_sound (S.view sink.old) }
{
    let mut tokenizer = tokenizer_over(alloc, sink, exact_errors)?;
    let answer = feed_or_fail(&mut tokenizer, input);
    drop(tokenizer);
    answer
}

/// What a list is told of a text and its end.
fn read_text(alloc: Global, exact_errors: bool, text: &str) -> Result<Listed, ParseFault> {
    let mut input = BufferQueue::new();
    put(alloc, &mut input, text)?;
    let mut sink = list_of(alloc);
    read_or_fail(alloc, &mut sink, exact_errors, &mut input)?;
    Ok(sink)
}

/// Whether a list was told these tokens, or memory is refused for their words.
fn are_words_or_memory(alloc: Global, sink: &Listed, want: &str) -> bool {
    match in_words(alloc, sink) {
        Ok(words) => words.as_str() == want,
        Err(_) => true,
    }
}

/// Whether a text tells its tokens, or memory was refused.
fn is_told_or_memory(alloc: Global, exact_errors: bool, row: Row) -> bool {
    match read_text(alloc, exact_errors, row.0) {
        Ok(sink) => are_words_or_memory(alloc, &sink, row.1),
        Err(fault) => fault == ParseFault::Memory,
    }
}

/// The same whether errors of characters are told or not.
fn is_either_told_or_memory(alloc: Global, row: Row) -> bool {
    is_told_or_memory(alloc, false, row) && is_told_or_memory(alloc, true, row)
}

const ROWS: &[Row] = &[
    (
        "a\r\nb<1>\0c</",
        "text \"a\nb<1>\"; null; text \"c</\"; eof",
    ),
    (
        "<A B=1 b=2 =c d></a>",
        "start a b=\"1\" =c=\"\" d=\"\" duplicates; end a; eof",
    ),
    (
        "<!doctype HTML PUBLIC \"a\" 'b' c>",
        "doctype \"html\" \"a\" \"b\"; eof",
    ),
    (
        "&#x80;&amp;&am<a b='&lt;'>&#65",
        "text \"€&&am\"; start a b=\"<\"; text \"A\"; eof",
    ),
    (
        "<script><!--<script></script>--></script>x",
        "start script; text \"<!--<script></script>-->\"; end script; text \"x\"; eof",
    ),
    (
        "<!--a--!>b<!-c><!--d--",
        "comment \"a\"; text \"b\"; comment \"-c\"; comment \"d\"; eof",
    ),
];

#[test]
fn memory_may_want(rt: HostRuntime) {
    for &row in ROWS {
        see(&rt, is_either_told_or_memory(rt.alloc(), row), row.0);
    }
}

/// Whether a text is refused by this fault, or the end after it.
fn refuses_text<S: TokenSink>(
    alloc: Global,
    tokenizer: &mut Tokenizer<S>,
    text: &str,
    at_end: bool,
    fault: ParseFault,
) -> bool
    requires { IsReadyIf S.TokenSink (refusal tokenizer.old.stream) tokenizer.old }
    ensures { IsReadyIf S.TokenSink (refusal tokenizer.new.stream) tokenizer.new }
{
    let answer = feed_text(alloc, tokenizer, text);
    if !at_end {
        return answer == Err(fault);
    }
    answer.is_ok() && tokenizer.end() == Err(fault)
}

/// Whether a sink's refusal of a text is passed on, or of what is told at the end after it, and the tokenizer serves no
/// more.
fn passes_on<S: TokenSink>(
    alloc: Global,
    tokenizer: &mut Tokenizer<S>,
    text: &str,
    at_end: bool,
    fault: ParseFault,
) -> bool
    requires { IsReadyIf S.TokenSink (refusal tokenizer.old.stream) tokenizer.old }
{
    refuses_text(alloc, tokenizer, text, at_end, fault) && has_failed(tokenizer)
}

/// The same of a tokenizer over this sink.
fn is_refused<S: TokenSink + Drop>(
    alloc: Global,
    sink: S,
    text: &str,
    at_end: bool,
    fault: ParseFault,
) -> bool
    requires { S.is_sound (S.view sink) }
{
    let Ok(mut tokenizer) = tokenizer_over(alloc, sink, false) else {
        return false;
    };
    let is_right = passes_on(alloc, &mut tokenizer, text, at_end, fault);
    drop(tokenizer);
    is_right
}

/// A sink that was told the end.
fn ended(alloc: Global) -> Listed {
    let mut sink = Listed::new(alloc, false);
    sink.end();
    sink
}

// Texts of which something is told at once.
const REFUSED: &[&str] = &[
    "a",
    "\0",
    "<a>",
    "</>",
    "<!---->",
    "<!doctype html>",
    "&lt; ",
    "<1",
];

// Texts of which nothing is told before the end.
const REFUSED_AT_THE_END: &[&str] = &["", "<", "&lt", "<a", "<!--a", "<!doctype", "\u{FEFF}"];

const IN_TEXT: Refusing = Refusing { is_shape: false };

const OF_SHAPE: Refusing = Refusing { is_shape: true };

/// Whether each refusal of a text is passed on, or of the end after it.
fn are_refused(alloc: Global, text: &str, at_end: bool) -> bool {
    is_refused(alloc, IN_TEXT, text, at_end, ParseFault::TokenInText)
        && is_refused(alloc, OF_SHAPE, text, at_end, ParseFault::Shape)
        && is_refused(alloc, ended(alloc), text, at_end, ParseFault::Ended)
}

// Texts, and whether what is told of them is told at the end.
const REFUSED_TABLES: &[(&[&str], bool)] = &[(REFUSED, false), (REFUSED_AT_THE_END, true)];

#[test]
fn refusals_are_passed_on(rt: HostRuntime) {
    for &(texts, at_end) in REFUSED_TABLES {
        for &text in texts {
            see(&rt, are_refused(rt.alloc(), text, at_end), text);
        }
    }
}
