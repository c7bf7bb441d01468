//! Documents by `Tokenizer::feed` and `Tokenizer::end` over a tree builder and a forest.
ghost use Rattle.html_tokenizer.specs.Calls.{IsReadyIf, refusal_of};

use crate::parsing::{five, is_written};
use html_forest::{Forest, NodeId};
use html_tokenizer::{BufferQueue, TokenSink, Tokenizer, TokenizerOpts};
use html_tree_builder::{TreeBuilder, TreeBuilderOpts};
use markup::{ParseFault, TokenizerResult};
use std::alloc::Global;
use text_pieces::{as_given, in_characters};

/// Above the number of pauses in any text below.
const PAUSES: u32 = 8;

/// Feeds what stands in the input. Returns whether all was read.
fn feed_once<Sink: TokenSink>(
    tokenizer: &mut Tokenizer<Sink>,
    input: &mut BufferQueue,
) -> Result<bool, ParseFault>
    requires { IsReadyIf Sink.TokenSink (refusal_of tokenizer.old) tokenizer.old }
    ensures { IsReadyIf Sink.TokenSink (refusal_of tokenizer.new) tokenizer.new }
{
    Ok(matches!(tokenizer.feed(input)?, TokenizerResult::Done))
}

/// Feeds a piece, on over its pauses.
fn feed_piece<Sink: TokenSink>(
    tokenizer: &mut Tokenizer<Sink>,
    piece: String,
) -> Result<(), ParseFault>
    requires { IsReadyIf Sink.TokenSink (refusal_of tokenizer.old) tokenizer.old }
    ensures { IsReadyIf Sink.TokenSink (refusal_of tokenizer.new) tokenizer.new }
{
    let mut input = BufferQueue::new();
    input.push_back(piece)?;
    'pauses: for _pause in 0..PAUSES {
        if feed_once(tokenizer, &mut input)? {
            return Ok(());
        }
    }
    Ok(())
}

/// Feeds these pieces, and the end.
fn feed_to_end<Sink: TokenSink>(
    tokenizer: &mut Tokenizer<Sink>,
    pieces: Vec<String>,
) -> Result<(), ParseFault>
    requires { IsReadyIf Sink.TokenSink (refusal_of tokenizer.old) tokenizer.old }
{
    for piece in pieces {
        feed_piece(tokenizer, piece)?;
    }
    tokenizer.end()
}

/// The sink of a tokenizer. One is dropped here alone.
fn sink_of<Sink: TokenSink + Drop>(tokenizer: Tokenizer<Sink>) -> Sink {
    tokenizer.sink
}

/// What a tokenizer's sink is after these pieces and the end.
fn fed<Sink: TokenSink + Drop>(
    tokenizer: Tokenizer<Sink>,
    pieces: Vec<String>,
) -> Result<Sink, ParseFault>
    requires { IsReadyIf Sink.TokenSink (refusal_of tokenizer) tokenizer }
{
    let mut tokenizer = tokenizer;
    let answer = feed_to_end(&mut tokenizer, pieces);
    let sink = sink_of(tokenizer);
    match answer {
        Ok(()) => Ok(sink),
        Err(fault) => Err(fault),
    }
}

/// The tree builder that these pieces were read over.
fn built(alloc: Global, pieces: Vec<String>) -> Result<TreeBuilder<Forest>, ParseFault> {
    let table = five(alloc)?;
    let forest = Forest::new(alloc)?;
    let builder = TreeBuilder::new(alloc, forest, TreeBuilderOpts::default());
    let tokenizer = Tokenizer::new(alloc, builder, TokenizerOpts::default(), table);
    fed(tokenizer, pieces)
}

/// Whether this is written of the document of these pieces.
fn is_built(alloc: Global, pieces: Vec<String>, written: &str) -> Result<bool, ParseFault> {
    let builder = built(alloc, pieces)?;
    is_written(alloc, &builder.sink, NodeId::new(0), written)
}

/// Texts, and what is written of their documents.
const ROWS: &[(&str, &str)] = &[
    (
        "<!DOCTYPE html><table> <tr> <td>1</td></tr></table>",
        "<!DOCTYPE html><html><head></head><body><table> <tbody><tr> <td>1</td></tr></tbody></table></body></html>",
    ),
    (
        "<!DOCTYPE html><p>&#13;",
        "<!DOCTYPE html><html><head></head><body><p>\r</p></body></html>",
    ),
    (
        "<!DOCTYPE html><template><p>a",
        "<!DOCTYPE html><html><head><template><p>a</p></template></head><body></body></html>",
    ),
];

/// Whether this is written of the document of a text, whole and in single characters.
fn is_built_alike(alloc: Global, text: &str, written: &str) -> Result<bool, ParseFault> {
    let whole = is_built(alloc, as_given(alloc, &[text])?, written)?;
    let cut = is_built(alloc, in_characters(alloc, text)?, written)?;
    Ok(whole && cut)
}

#[test]
fn documents_are_built(rt: HostRuntime) {
    for &(text, written) in ROWS {
        assert!(rt;
            is_built_alike(rt.alloc(), text, written) == Ok(true),
            "{text}"
        );
    }
}
