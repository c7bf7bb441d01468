//! Texts by a parser into a forest, and what is written of that.
ghost use Rattle.html_tokenizer.specs.Calls.{IsReadyIf, refusal_of};
ghost use Rattle.html_parser.specs.Documents.{builder};
ghost use Rattle.html_parser.specs.Read.{stopped_by};

use html_forest::{Forest, ForestNode, NodeId};
use html_parser::{ParseOpts, Parser, parse_document};
use html_serialize::{SerializeOpts, serialize};
use html_tokenizer::References;
use markup::devices::MemWriter;
use markup::{ParseFault, SerializeFault, TreeSink};
use std::alloc::Global;

/// The table that escaping needs.
pub(crate) fn five(alloc: Global) -> Result<References, ParseFault> {
    match References::five(alloc) {
        Ok(table) => Ok(table),
        Err(_) => Err(ParseFault::Memory),
    }
}

/// Has a parser take these pieces.
fn feed_all<Sink: TreeSink>(
    parser: &mut Parser<Sink>,
    pieces: Vec<String>,
) -> Result<(), ParseFault>
    requires { IsReadyIf (builder Sink.TreeSink)
        (stopped_by parser.old.has_failed (refusal_of parser.old.tokenizer)) parser.old.tokenizer }
    ensures { IsReadyIf (builder Sink.TreeSink)
        (stopped_by parser.new.has_failed (refusal_of parser.new.tokenizer)) parser.new.tokenizer }
{
    for piece in pieces {
        parser.process(piece)?;
    }
    Ok(())
}

/// What a parser makes of these pieces. One that has failed refuses the end too.
fn take_all<Sink: TreeSink + Drop>(
    parser: Parser<Sink>,
    pieces: Vec<String>,
) -> Result<Sink::Output, ParseFault>
    requires { IsReadyIf (builder Sink.TreeSink) (stopped_by parser.has_failed (refusal_of parser.tokenizer)) parser.tokenizer }
{
    let mut parser = parser;
    drop(feed_all(&mut parser, pieces));
    parser.finish()
}

/// The document of these pieces.
pub(crate) fn document_of(alloc: Global, pieces: Vec<String>) -> Result<Forest, ParseFault> {
    let table = five(alloc)?;
    let forest = Forest::new(alloc)?;
    let parser = parse_document(alloc, forest, ParseOpts::default(), table)?;
    take_all(parser, pieces)
}

/// Whether this is written of what stands in a node.
pub(crate) fn is_written(
    alloc: Global,
    forest: &Forest,
    id: NodeId,
    written: &str,
) -> Result<bool, ParseFault> {
    let mut writer = MemWriter::new(alloc, 4_096, usize::MAX, None, false)?;
    let node = ForestNode { forest, id };
    let opts = SerializeOpts::default();
    if let Err(SerializeFault::Memory) = serialize(alloc, &mut writer, &node, opts) {
        return Err(ParseFault::Memory);
    }
    Ok(writer.written() == written.as_bytes())
}
