//! Pauses for scripts and for the names of encodings.
ghost use Rattle.html_tokenizer.specs.Calls.{IsReadyIf, refusal};

use super::sinks::Naming;
use super::words::{Spoken, is_in_words};
use super::{list_of, put, see, tokenizer_over};
use html_tokenizer::{BufferQueue, TokenSink, Tokenizer};
use markup::{ParseFault, TokenizerResult};
use std::alloc::Global;

/// Whether this is what stands in the queue.
fn has_left(queue: &BufferQueue, want: &str) -> bool {
    queue.as_str() == want
}

/// Puts a text before what is left.
fn write(alloc: Global, queue: &mut BufferQueue, text: &str) -> Result<(), ParseFault> {
    queue.push_front(String::from_str(alloc, text)?)
}

/// Why feeding ends.
enum Reason {
    /// All of the text is fed.
    Done,
    /// For the script of the end tag at this place.
    Script(u64),
    /// For an encoding of this name.
    Encoding(&'static str),
}

/// A pause in a text.
struct Pause {
    reason: Reason,
    /// The tokens before it.
    before: &'static str,
    /// What is not read yet.
    left: &'static str,
    /// What is written there.
    written: &'static str,
}

/// A text that pauses.
struct Row {
    text: &'static str,
    pauses: &'static [Pause],
    /// All of the tokens.
    told: &'static str,
}

const SCRIPTS: &[Row] = &[
    Row {
        text: "</script>b",
        pauses: &[Pause {
            reason: Reason::Script(0),
            before: "end script",
            left: "b",
            written: "c",
        }],
        told: "end script; text \"cb\"; eof",
    },
    Row {
        text: "<a></script>",
        pauses: &[Pause {
            reason: Reason::Script(1),
            before: "start a; end script",
            left: "",
            written: "<b",
        }],
        told: "start a; end script; eof",
    },
    Row {
        text: "<script><a></script>\r\nb",
        pauses: &[Pause {
            reason: Reason::Script(1),
            before: "start script; text \"<a>\"; end script",
            left: "\r\nb",
            written: "\r",
        }],
        told: "start script; text \"<a>\"; end script; text \"\n\nb\"; eof",
    },
    Row {
        text: "</script></b>",
        pauses: &[Pause {
            reason: Reason::Script(0),
            before: "end script",
            left: "</b>",
            written: "<a></script",
        }],
        told: "end script; start a; end script< b=\"\"; eof",
    },
    Row {
        text: "</script ></script>",
        pauses: &[Pause {
            reason: Reason::Script(0),
            before: "end script",
            left: "</script>",
            written: "&lt;<plaintext>",
        }],
        told: "end script; text \"<\"; start plaintext; text \"</script>\"; eof",
    },
];

// A text that is read where each tag names an encoding.
const ENCODINGS: Row = Row {
    text: "x<a>b</A >\n",
    pauses: &[
        Pause {
            reason: Reason::Encoding("a"),
            before: "x",
            left: "b</A >\n",
            written: "c",
        },
        Pause {
            reason: Reason::Encoding("a"),
            before: "xcb",
            left: "\n",
            written: "",
        },
    ],
    told: "xcb\n",
};

/// Whether this is why feeding ended.
fn is_reason(found: &TokenizerResult<u64>, reason: &Reason) -> bool {
    match found {
        TokenizerResult::Done => matches!(reason, Reason::Done),
        TokenizerResult::Script(found) => matches!(reason, Reason::Script(place) if place == found),
        TokenizerResult::EncodingIndicator(named) => {
            matches!(reason, Reason::Encoding(name) if named.as_str() == *name)
        }
    }
}

/// Whether feeding ends for this reason.
fn ends_for<S: TokenSink<Handle = u64>>(
    tokenizer: &mut Tokenizer<S>,
    input: &mut BufferQueue,
    reason: &Reason,
) -> bool
    requires { IsReadyIf S.TokenSink (refusal tokenizer.old.stream) tokenizer.old }
    ensures { IsReadyIf S.TokenSink (refusal tokenizer.new.stream) tokenizer.new }
{
    match tokenizer.feed(input) {
        Ok(found) => is_reason(&found, reason),
        Err(_) => false,
    }
}

/// Whether what is fed pauses so. What is written there stands before what is left.
fn is_paused<S: TokenSink<Handle = u64> + Spoken>(
    alloc: Global,
    tokenizer: &mut Tokenizer<S>,
    input: &mut BufferQueue,
    pause: &Pause,
) -> bool
    requires { IsReadyIf S.TokenSink (refusal tokenizer.old.stream) tokenizer.old }
    ensures { IsReadyIf S.TokenSink (refusal tokenizer.new.stream) tokenizer.new }
{
    ends_for(tokenizer, input, &pause.reason)
        && tokenizer.nothing_pending()
        && is_in_words(alloc, &tokenizer.sink, pause.before)
        && has_left(input, pause.left)
        && write(alloc, input, pause.written).is_ok()
}

/// The same of each of these pauses.
fn are_paused<S: TokenSink<Handle = u64> + Spoken>(
    alloc: Global,
    tokenizer: &mut Tokenizer<S>,
    input: &mut BufferQueue,
    pauses: &[Pause],
) -> bool
    requires { IsReadyIf S.TokenSink (refusal tokenizer.old.stream) tokenizer.old }
    ensures { IsReadyIf S.TokenSink (refusal tokenizer.new.stream) tokenizer.new }
{
    for pause in pauses {
        if !is_paused(alloc, tokenizer, input, pause) {
            return false;
        }
    }
    true
}

/// Whether a text pauses so, and is read on after its pauses.
fn is_read_on<S: TokenSink<Handle = u64> + Spoken>(
    alloc: Global,
    tokenizer: &mut Tokenizer<S>,
    input: &mut BufferQueue,
    row: &Row,
) -> bool
    requires { IsReadyIf S.TokenSink (refusal tokenizer.old.stream) tokenizer.old }
{
    put(alloc, input, row.text).is_ok()
        && are_paused(alloc, tokenizer, input, row.pauses)
        && ends_for(tokenizer, input, &Reason::Done)
        && input.is_empty()
        && tokenizer.end().is_ok()
        && is_in_words(alloc, &tokenizer.sink, row.told)
}

/// The same of a tokenizer over this sink.
fn is_row<S: TokenSink<Handle = u64> + Spoken + Drop>(alloc: Global, sink: S, row: &Row) -> bool
    requires { S.is_sound (S.view sink) }
{
    let Ok(mut tokenizer) = tokenizer_over(alloc, sink, false) else {
        return false;
    };
    let is_right = is_read_on(alloc, &mut tokenizer, &mut BufferQueue::new(), row);
    drop(tokenizer);
    is_right
}

fn is_script(alloc: Global, row: &Row) -> bool {
    is_row(alloc, list_of(alloc), row)
}

#[test]
fn scripts_write_before_what_is_left(rt: HostRuntime) {
    for row in SCRIPTS {
        see(&rt, is_script(rt.alloc(), row), row.text);
    }
}

#[test]
fn names_of_encodings_pause(rt: HostRuntime) {
    assert!(rt; is_row(rt.alloc(), Naming::new(rt.alloc(), false), &ENCODINGS));
}
