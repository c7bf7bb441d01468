//! How fast a page becomes a tree that is read in pieces.
ghost use Rattle.std.specs.Prelude.{IfOk};
ghost use Rattle.html_tokenizer.specs.Calls.{IsReadyIf, refusal};

use anyhow::{Result as Outcome, bail};
use html_forest::Forest;
use html_tokenizer::{BufferQueue, References, TokenSink, Tokenizer, TokenizerOpts};
use html_tree_builder::{TreeBuilder, TreeBuilderOpts};
use markup::{ParseFault, TokenizerResult};
use std::alloc::Global;
use std::rt::Clock;
use std::time::Instant;
use text_pieces::{PIECE, page_of, split_piece};

/// A tokenizer at the front of its input, with the five names of references that a written text needs.
fn tokenizer_over<S: TokenSink + Drop>(alloc: Global, sink: S) -> Result<Tokenizer<S>, ParseFault>
    requires { S.is_sound (S.view sink) }
    ensures { IfOk result (λ k. IsReadyIf S.TokenSink (refusal k.stream) k) }
{
    let Ok(table) = References::five(alloc) else {
        return Err(ParseFault::Memory);
    };
    Ok(Tokenizer::new(alloc, sink, TokenizerOpts::default(), table))
}

/// Feeds one piece more, on over the scripts in it.
fn feed_piece<S: TokenSink>(
    tokenizer: &mut Tokenizer<S>,
    input: &mut BufferQueue,
    piece: String,
) -> Result<(), ParseFault>
    requires { IsReadyIf S.TokenSink (refusal tokenizer.old.stream) tokenizer.old }
    ensures { IsReadyIf S.TokenSink (refusal tokenizer.new.stream) tokenizer.new }
{
    input.push_back(piece)?;
    'pauses: for _pause in 0..PIECE {
        if matches!(tokenizer.feed(input)?, TokenizerResult::Done) {
            return Ok(());
        }
    }
    Ok(())
}

/// Feeds a page in pieces, and its end.
fn feed_page<S: TokenSink>(
    alloc: Global,
    tokenizer: &mut Tokenizer<S>,
    page: &str,
) -> Result<(), ParseFault>
    requires { IsReadyIf S.TokenSink (refusal tokenizer.old.stream) tokenizer.old }
{
    let mut input = BufferQueue::new();
    let mut rest = page;
    while !rest.is_empty() {
        let (piece, behind) = split_piece(rest);
        feed_piece(tokenizer, &mut input, String::from_str(alloc, piece)?)?;
        rest = behind;
    }
    tokenizer.end()
}

/// What takes the tokens. The tokenizer is let go of here alone, since each place that lets one go takes long to prove.
fn sink_of<S: TokenSink + Drop>(tokenizer: Tokenizer<S>) -> S {
    tokenizer.sink
}

/// Reads a page in pieces to its end, and hands out the sink.
fn read_over<S: TokenSink + Drop>(alloc: Global, sink: S, page: &str) -> Result<S, ParseFault>
    requires { S.is_sound (S.view sink) }
{
    let mut tokenizer = tokenizer_over(alloc, sink)?;
    let answer = feed_page(alloc, &mut tokenizer, page);
    let sink = sink_of(tokenizer);
    answer?;
    Ok(sink)
}

/// The tree of a page.
fn build(alloc: Global, page: &str) -> Result<Forest, ParseFault> {
    let forest = Forest::new(alloc)?;
    let builder = TreeBuilder::new(alloc, forest, TreeBuilderOpts::default());
    let builder = read_over(alloc, builder, page)?;
    Ok(builder.sink)
}

/// Tells how long it takes to build the tree of a page of so many bytes.
pub(crate) fn measure<R: Clock + Print + Eprint>(
    rt: &R,
    alloc: Global,
    bytes: usize,
) -> Outcome<()> {
    let Ok(page) = page_of(alloc, bytes) else {
        bail!("no memory");
    };
    let start = Instant::now(rt)?;
    let Ok(forest) = build(alloc, page.as_str()) else {
        bail!("the page was not read");
    };
    let seconds = start.elapsed(rt)?.as_secs_f64();
    let (length, errors) = (page.len(), forest.error_count());
    println!(rt; "{length} bytes, {errors} errors")?;
    eprintln!(rt; "tree: {seconds} s")?;
    Ok(())
}
