//! Trees, and what is read out of them.
ghost use Rattle.html_tokenizer.specs.Calls.{IsReadyIf, refusal_of};
ghost use Rattle.html_parser.specs.Documents.{builder};
ghost use Rattle.html_parser.specs.Read.{stopped_by};

use crate::lines::{put_line, text_of, without_last, yes_or_no};
use crate::listing::Listing;
use crate::selecting::selected;
use crate::settings::{context, parse_opts, references, scripting};
use devices::VecWriter;
use html_extracts::{links_below, shown_text, write_tree};
use html_forest::{Forest, ForestNode, NodeId};
use html_pages::{Noted, is_read_back};
use html_parser::{Parser, parse_document, parse_fragment};
use html_serialize::{SerializeOpts, serialize};
use markup::{Attributes, ParseFault, QuirksMode, TreeSink};
use row_format::{Heading, How, Row};
use std::alloc::{AllocError, Global};
use text_pieces::pieces_of;

/// Has a parser take these pieces.
fn feed_all<Sink: TreeSink>(
    parser: &mut Parser<Sink>,
    pieces: Vec<String>,
) -> Result<(), ParseFault>
    requires { IsReadyIf (builder Sink.TreeSink)
        (stopped_by parser.old.has_failed (refusal_of parser.old.tokenizer)) parser.old.tokenizer }
    ensures { IsReadyIf (builder Sink.TreeSink)
        (stopped_by parser.new.has_failed (refusal_of parser.new.tokenizer)) parser.new.tokenizer }
{
    for piece in pieces {
        parser.process(piece)?;
    }
    Ok(())
}

/// What a parser makes of these pieces. One that has failed refuses the end too.
fn take_all<Sink: TreeSink + Drop>(
    parser: Parser<Sink>,
    pieces: Vec<String>,
) -> Result<Sink::Output, ParseFault>
    requires { IsReadyIf (builder Sink.TreeSink) (stopped_by parser.has_failed (refusal_of parser.tokenizer)) parser.tokenizer }
{
    let mut parser = parser;
    drop(feed_all(&mut parser, pieces));
    parser.finish()
}

/// The pieces of a row's text.
fn pieces(alloc: Global, row: &Row, how: How) -> Result<Vec<String>, AllocError> {
    let data = row.data(alloc)?;
    pieces_of(alloc, data.as_str(), how.piece)
}

/// The document of a row, with its errors.
fn document(alloc: Global, row: &Row, how: How) -> Result<Listing, ParseFault> {
    let pieces = pieces(alloc, row, how)?;
    let table = references(alloc, row)?;
    let sink = Listing::new(alloc)?;
    let parser = parse_document(alloc, sink, parse_opts(row, how.exact), table)?;
    take_all(parser, pieces)
}

/// The fragment of a row in an element that words name.
fn fragment(alloc: Global, row: &Row, how: How, words: &str) -> Result<Listing, ParseFault> {
    let pieces = pieces(alloc, row, how)?;
    let table = references(alloc, row)?;
    let context = context(alloc, words)?;
    let sink = Listing::new(alloc)?;
    let opts = parse_opts(row, how.exact);
    let attributes = Attributes::new(alloc);
    let runs = scripting(row);
    let parser = parse_fragment(alloc, sink, opts, context, attributes, runs, table)?;
    take_all(parser, pieces)
}

/// The forest of a row, with its errors.
fn page(alloc: Global, row: &Row, how: How) -> Result<Listing, ParseFault> {
    match row.setting(alloc, Heading::Fragment)? {
        Some(words) => fragment(alloc, row, how, words.as_str()),
        None => document(alloc, row, how),
    }
}

/// The node in which the nodes of a row stand: the root of a fragment, or the document.
fn top(forest: &Forest, row: &Row) -> NodeId {
    match (
        row.has(Heading::Fragment),
        forest.first_child(forest.document()),
    ) {
        (true, Some(root)) => root,
        _ => forest.document(),
    }
}

/// The lines of a tree.
fn tree(alloc: Global, forest: &Forest, top: NodeId) -> Result<String, ParseFault> {
    let mut writer = VecWriter::new(alloc);
    let Ok(()) = write_tree(alloc, forest, top, &mut writer) else {
        return Err(ParseFault::Memory);
    };
    let written = text_of(alloc, writer.written())?;
    Ok(without_last(alloc, written.as_str())?)
}

/// What is written of what stands in a node.
fn written(alloc: Global, forest: &Forest, id: NodeId) -> Result<String, ParseFault> {
    let mut writer = VecWriter::new(alloc);
    let node = ForestNode { forest, id };
    let Ok(()) = serialize(alloc, &mut writer, &node, SerializeOpts::default()) else {
        return Err(ParseFault::Memory);
    };
    text_of(alloc, writer.written())
}

/// A quirks mode, in a word.
pub fn quirks_word(quirks: QuirksMode) -> &'static str {
    match quirks {
        QuirksMode::NoQuirks => "no",
        QuirksMode::LimitedQuirks => "limited",
        QuirksMode::Quirks => "yes",
    }
}

/// The quirks mode of a forest.
fn quirks(alloc: Global, forest: &Forest) -> Result<String, ParseFault> {
    Ok(String::from_str(alloc, quirks_word(forest.quirks()))?)
}

/// The line and the code of an error, if it has one. Those that have none have words of more than one.
fn put_code(alloc: Global, lines: &mut String, error: &Noted) -> Result<(), AllocError> {
    let message = error.message.as_str();
    if message.contains(' ') {
        return Ok(());
    }
    let words = format!(in alloc; "{} {message}", error.place.line)?;
    put_line(lines, words.as_str())
}

/// The lines and the codes of errors.
fn codes(alloc: Global, errors: &[Noted]) -> Result<String, ParseFault> {
    let mut lines = String::new(alloc);
    for error in errors {
        put_code(alloc, &mut lines, error)?;
    }
    Ok(without_last(alloc, lines.as_str())?)
}

/// The links below a node, one a line.
fn links(alloc: Global, forest: &Forest, top: NodeId) -> Result<String, ParseFault> {
    let links = links_below(alloc, forest, top)?;
    let mut lines = String::new(alloc);
    for link in &links {
        put_line(&mut lines, link.as_str())?;
    }
    Ok(without_last(alloc, lines.as_str())?)
}

/// The calls that a sink got beside those that build the tree, one a line.
fn hooks(alloc: Global, page: &Listing) -> Result<String, ParseFault> {
    let calls = page.words(alloc)?;
    let mut lines = String::new(alloc);
    for call in &calls {
        put_line(&mut lines, call.as_str())?;
    }
    Ok(without_last(alloc, lines.as_str())?)
}

/// Whether a forest is read back from what is written of it.
fn read_back(alloc: Global, row: &Row, forest: &Forest) -> Result<String, ParseFault> {
    let table = references(alloc, row)?;
    let Ok(is) = is_read_back(alloc, table, forest) else {
        return Err(ParseFault::Memory);
    };
    Ok(String::from_str(alloc, yes_or_no(is))?)
}

/// What is seen of a forest, under a heading.
fn seen_of(
    alloc: Global,
    row: &Row,
    heading: Heading,
    page: &Listing,
) -> Result<String, ParseFault> {
    let forest = &page.noted.forest;
    let top = top(forest, row);
    match heading {
        Heading::Document => tree(alloc, forest, top),
        Heading::Written => written(alloc, forest, top),
        Heading::Quirks => quirks(alloc, forest),
        Heading::Hooks => hooks(alloc, page),
        Heading::Links => links(alloc, forest, top),
        Heading::Shown => shown_text(alloc, forest, top),
        Heading::ReadBack => read_back(alloc, row, forest),
        Heading::Selected => selected(alloc, row, forest),
        _ => codes(alloc, page.noted.errors.as_slice()),
    }
}

/// What is seen of the forest of a row, under a heading.
pub fn seen(alloc: Global, row: &Row, heading: Heading, how: How) -> Result<String, ParseFault> {
    let page = page(alloc, row, how)?;
    seen_of(alloc, row, heading, &page)
}
