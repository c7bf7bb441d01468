//! Deep and misnested pages, and text of a table in many pieces: whole and in single characters they make one document, in which each node
//! has one parent at most.

use crate::parsing::document_of;
use html_forest::{Forest, ForestNode, NodeId};
use html_serialize::{SerializeOpts, serialize};
use markup::ParseFault;
use markup::devices::MemWriter;
use std::alloc::Global;
use text_pieces::{as_given, in_characters, piece_of};

/// How often a page repeats what is misnested.
const TIMES: usize = 1_000;

/// More than is written of any page below.
const ROOM: usize = 4_000_000;

const MISNESTED: &[&str] = &[
    "<b><p>",
    "<a><table>",
    "<b><table><td></b>",
    "<svg><desc><b></svg>",
];

/// Adds the children of a node to those that wait, where each names it as its parent.
fn add_children(
    forest: &Forest,
    parent: NodeId,
    waiting: &mut Vec<NodeId>,
) -> Result<bool, ParseFault> {
    for child in forest.children(parent) {
        if forest.parent(child) != Some(parent) {
            return Ok(false);
        }
        waiting.push(child)?;
    }
    Ok(true)
}

/// Takes node by node of those that wait, of which there are no more than ROOM.
fn take_waiting(forest: &Forest, waiting: &mut Vec<NodeId>) -> Result<bool, ParseFault> {
    for _node in 0..ROOM {
        match waiting.pop() {
            Some(node) => {
                if !add_children(forest, node, waiting)? {
                    return Ok(false);
                }
            }
            None => return Ok(true),
        }
    }
    Ok(false)
}

/// Whether each node below the document names as its parent the node that has it among its children.
fn have_one_parent(alloc: Global, forest: &Forest) -> Result<bool, ParseFault> {
    let mut waiting = Vec::new(alloc);
    waiting.push(forest.document())?;
    take_waiting(forest, &mut waiting)
}

/// What is written of a document.
fn written(alloc: Global, forest: &Forest) -> Result<MemWriter, ParseFault> {
    let mut writer = MemWriter::new(alloc, ROOM, usize::MAX, None, false)?;
    let node = ForestNode {
        forest,
        id: forest.document(),
    };
    match serialize(alloc, &mut writer, &node, SerializeOpts::default()) {
        Ok(()) => Ok(writer),
        Err(_) => Err(ParseFault::Memory),
    }
}

/// What is written of the document of these pieces. It is refused where a node has another parent.
fn written_of(alloc: Global, pieces: Vec<String>) -> Result<MemWriter, ParseFault> {
    let forest = document_of(alloc, pieces)?;
    if have_one_parent(alloc, &forest)? {
        written(alloc, &forest)
    } else {
        Err(ParseFault::Shape)
    }
}

/// Whether two texts of bytes are the same, and longer than a text.
fn are_alike(whole: &[u8], cut: &[u8], text: &str) -> bool {
    whole == cut && whole.len() > text.len()
}

/// Whether a text makes one document, whole and in single characters.
fn is_cut_alike(alloc: Global, text: &str) -> Result<bool, ParseFault> {
    let whole = written_of(alloc, as_given(alloc, &[text])?)?;
    let cut = written_of(alloc, in_characters(alloc, text)?)?;
    Ok(are_alike(whole.written(), cut.written(), text))
}

/// The same of a text that is repeated.
fn is_repeated_alike(alloc: Global, misnested: &str) -> Result<bool, ParseFault> {
    let text = misnested.repeat(alloc, TIMES)?;
    is_cut_alike(alloc, text.as_str())
}

#[test]
fn misnested_pages_may_be_cut_anywhere(rt: HostRuntime) {
    for &misnested in MISNESTED {
        assert!(rt;
            is_repeated_alike(rt.alloc(), misnested) == Ok(true),
            "{misnested}"
        );
    }
}

/// The beginning of a table, so many pieces of one space, and a letter.
fn spaced_table(alloc: Global) -> Result<Vec<String>, ParseFault> {
    let mut pieces = as_given(alloc, &["<!DOCTYPE html><table>"])?;
    for _ in 0..TIMES {
        pieces.push(piece_of(alloc, ' ')?)?;
    }
    pieces.push(piece_of(alloc, 'x')?)?;
    Ok(pieces)
}

/// Whether a document is plain.
fn is_plain(alloc: Global, pieces: Vec<String>) -> Result<bool, ParseFault> {
    let forest = document_of(alloc, pieces)?;
    forest.is_plain()
}

/// Whether this is written of a document with so many spaces and a letter before its table.
fn is_spaced(alloc: Global, written: &[u8]) -> Result<bool, ParseFault> {
    let spaces = " ".repeat(alloc, TIMES)?;
    let want = format!(in alloc;
        "<!DOCTYPE html><html><head></head><body>{spaces}x<table></table></body></html>"
    )?;
    Ok(written == want.as_bytes())
}

/// Whether the text of a table is kept whole, before the table.
fn is_kept_whole(alloc: Global) -> Result<bool, ParseFault> {
    let written = written_of(alloc, spaced_table(alloc)?)?;
    Ok(is_spaced(alloc, written.written())? && is_plain(alloc, spaced_table(alloc)?)?)
}

#[test]
fn text_of_a_table_is_kept_whole(rt: HostRuntime) {
    assert!(rt; is_kept_whole(rt.alloc()) == Ok(true));
}
