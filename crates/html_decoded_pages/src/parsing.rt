//! A text parsed in an encoding, unless it names another.
ghost use Rattle.std.specs.Prelude.{◌≡◌, IfErr, IfOk, None};
ghost use Rattle.std.specs.Str.{chars};
ghost use Rattle.std.specs.String.{string_bytes};
ghost use Rattle.markup.specs.Forest.{above_of};
ghost use Rattle.html_normal.specs.Document.{default_opts, default_setting};
ghost use Rattle.html_normal.specs.declared.fault.NormalFault.TheVariants.{Memory};
ghost use Rattle.html_parser.specs.Documents.{builder, of_document};
ghost use Rattle.html_places.specs.Pieces.{IsTaken};
ghost use Rattle.html_tree_builder.specs.States.{answers_of, setting_of};
ghost use Rattle.html_decoded_pages.specs.Parsing.{IsOutcome, IsParsed};
ghost use Rattle.html_decoded_pages.specs.Pauses.{IsBefore};

use crate::pauses::read_in;
use crate::pieces::read_pieces_in;
use html_encodings::Encoding;
use html_normal::{Exact, NormalFault, References, options};
use html_parser::ParseOpts;
use html_places::{Noting, Pieces};
use html_rules_laws::laws::each_text_has_a_document;
use html_tokenizer::{BufferQueue, TokenSink, Tokenizer};
use html_tokens::laws::notes_change_nothing;
use html_tree_builder::TreeBuilder;
use markup::TreeSink;
use std::alloc::Global;

/// What became of a text.
#[derive(Drop)]
pub(crate) enum Parsed<Output> {
    /// It was read to its end.
    Whole(Output),
    /// It names another encoding, in which it is to be read.
    Other(Encoding),
}

/// A tokenizer over a tree builder, before a document.
fn begin<Sink: TreeSink>(
    alloc: Global,
    sink: Sink,
    opts: ParseOpts,
    references: References,
) -> Tokenizer<TreeBuilder<Sink>>
    requires text { opts.tokenizer.initial_state ≡ None }
    requires top { above_of (Sink.forest sink) 0 ≡ None }
    ensures { IsBefore (builder Sink.TreeSink)
        (of_document references opts.tokenizer
        (setting_of (answers_of Sink.integration_point Sink.allows_shadow_roots Sink.attaches_shadow)
        opts.tree_builder) (Sink.forest sink)) result }
{
    each_text_has_a_document();
    notes_change_nothing::<TreeBuilder<Sink>>();
    let mut sink = sink;
    let _ = sink.get_document();
    let builder = TreeBuilder::new(alloc, sink, opts.tree_builder);
    Tokenizer::new(alloc, builder, opts.tokenizer, references)
}

/// What takes the tokens. Only this function drops a tokenizer, since each place that drops one takes long to prove.
fn sink_of<S: TokenSink + Drop>(tokenizer: Tokenizer<S>) -> S
    ensures { result ≡ tokenizer.sink }
{
    tokenizer.sink
}

/// A queue that has a text.
fn queue_of(text: String) -> Result<BufferQueue, NormalFault>
    ensures ok { IfOk result (λ queue. queue.characters ≡ chars (string_bytes text)) }
    ensures fault { IfErr result (λ fault. fault ≡ Memory) }
{
    let mut queue = BufferQueue::new();
    queue.push_back(text)?;
    Ok(queue)
}

/// What was built, or the other encoding that was named.
fn outcome_of<Sink: TreeSink + Drop>(
    left: TreeBuilder<Sink>,
    other: Option<Encoding>,
) -> Parsed<Sink::Output>
    ensures { IsOutcome Sink.TreeSink left other result }
{
    match other {
        None => Parsed::Whole(left.sink.finish()),
        Some(encoding) => Parsed::Other(encoding),
    }
}

/// The document of a text that was decoded by an encoding; or the other encoding in which it is to be read.
pub(crate) fn parse<Sink: TreeSink + Drop>(
    alloc: Global,
    sink: Sink,
    exact: Exact,
    references: References,
    text: String,
    encoding: Encoding,
) -> Result<Parsed<Sink::Output>, NormalFault>
    requires top { above_of (Sink.forest sink) 0 ≡ None }
    ensures ok { IfOk result (IsParsed Sink.TreeSink references exact.tokenizer (Sink.forest sink) (chars (string_bytes text)) encoding) }
    ensures fault { IfErr result (λ fault. fault ≡ Memory) }
{
    let mut input = queue_of(text)?;
    let mut tokenizer = begin(alloc, sink, options(exact), references);
    let answer = read_in(&mut tokenizer, &mut input, encoding);
    let left = sink_of(tokenizer);
    let other = answer?;
    Ok(outcome_of(left, other))
}

/// The document of the pieces of a text that was decoded by an encoding; or the other encoding in which it is to be read.
pub(crate) fn parse_pieces<Sink: TreeSink + Noting + Drop>(
    alloc: Global,
    sink: Sink,
    exact: Exact,
    references: References,
    pieces: &mut Pieces<'_>,
    encoding: Encoding,
) -> Result<Parsed<Sink::Output>, NormalFault>
    requires top { above_of (Sink.forest sink) 0 ≡ None }
    requires taken { IsTaken pieces.old }
    ensures ok { IfOk result (IsParsed Sink.TreeSink references exact.tokenizer (Sink.forest sink) (chars pieces.old.rest.now) encoding) }
    ensures fault { IfErr result (λ fault. fault ≡ Memory) }
    ensures taken { IsTaken pieces.new }
    ensures text { pieces.new.text.now ≡ pieces.old.text.now }
{
    let mut tokenizer = begin(alloc, sink, options(exact), references);
    let answer = read_pieces_in(alloc, &mut tokenizer, pieces, encoding);
    let left = sink_of(tokenizer);
    let other = answer?;
    Ok(outcome_of(left, other))
}
