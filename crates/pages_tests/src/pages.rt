//! Texts and bytes to documents and to fragments.

use figpliers::{
    Exact, Forest, ForestNode, MemReader, NodeId, NormalFault, References, SerializeOpts,
    VecWriter, document, document_lossy, fragment, read_document, serialize, standard,
};
use std::alloc::{AllocError, Global};
use std::test::Fail;

/// How a page is read.
#[derive(Clone, Copy)]
enum How {
    Text,
    Lossily,
    InPieces,
    Within(&'static str),
}

/// Pages, and what is written of their trees.
const PAGES: &[(How, &[u8], &str)] = &[
    (How::Text, b"", "<html><head></head><body></body></html>"),
    (
        How::Text,
        b"<!DOCTYPE html><title>a &amp; b</title><p class=x>caf&eacute; &notin; &bne;<p>&CounterClockwiseContourIntegral;",
        "<!DOCTYPE html><html><head><title>a &amp; b</title></head><body><p class=\"x\">caf\u{E9} \u{2209} =\u{20E5}</p><p>\u{2233}</p></body></html>",
    ),
    (
        How::Text,
        b"<table><td>a<td>b</table><!-- c -->",
        "<html><head></head><body><table><tbody><tr><td>a</td><td>b</td></tr></tbody></table><!-- c --></body></html>",
    ),
    (
        How::Text,
        b"<b>1<i>2</b>3</i>",
        "<html><head></head><body><b>1<i>2</i></b><i>3</i></body></html>",
    ),
    (
        How::Text,
        b"<svg viewbox=0><foreignobject><p>a</svg><img>",
        "<html><head></head><body><svg viewBox=\"0\"><foreignObject><p>a<img></p></foreignObject></svg></body></html>",
    ),
    (
        How::Text,
        b"<noscript><p>a</noscript>",
        "<html><head><noscript><p>a</noscript></head><body></body></html>",
    ),
    (
        How::Lossily,
        b"<p title='\xFF'>a\xE2\x82b\xC3\xA9",
        "<html><head></head><body><p title=\"\u{FFFD}\">a\u{FFFD}b\u{E9}</p></body></html>",
    ),
    (
        How::InPieces,
        b"<p title='\xC3\xA9'>a\xE2\x82\xACb",
        "<html><head></head><body><p title=\"\u{E9}\">a\u{20AC}b</p></body></html>",
    ),
    (How::Within("div"), b"<td>a<b>c", "a<b>c</b>"),
    (How::Within("tr"), b"<td>a<td>b", "<td>a</td><td>b</td>"),
    (How::Within("table"), b"a<tr>", "a<tbody><tr></tr></tbody>"),
    (How::Within("textarea"), b"<b>a", "&lt;b&gt;a"),
    (How::Within("noscript"), b"<b>a", "&lt;b&gt;a"),
    (How::Within("template"), b"<tr><td>a", "<tr><td>a</td></tr>"),
    (
        How::Within("body"),
        b"<noscript><p>a</noscript>",
        "<noscript><p>a</noscript>",
    ),
    (
        How::Within("html"),
        b"<title>a</title>b",
        "<head><title>a</title></head><body>b</body>",
    ),
];

/// Texts as vectors of bytes, which readers take.
pub(crate) fn bytes_of(alloc: Global, bytes: &[u8]) -> Result<MemReader, AllocError> {
    Ok(MemReader::new(Vec::from_slice(alloc, bytes)?, 3, None))
}

/// The tree of a page.
fn tree(alloc: Global, table: References, how: How, bytes: &[u8]) -> Result<Forest, NormalFault> {
    match how {
        How::Lossily => document_lossy(alloc, table, bytes),
        How::InPieces => {
            read_document(alloc, &mut bytes_of(alloc, bytes)?, table, Exact::default())
        }
        How::Text => document(alloc, table, String::from_utf8_lossy(alloc, bytes)?),
        How::Within(name) => {
            fragment(alloc, table, name, String::from_utf8_lossy(alloc, bytes)?)
        }
    }
}

/// The node in which the nodes of a page stand.
fn top(forest: &Forest, how: How) -> NodeId {
    match (how, forest.first_child(forest.document())) {
        (How::Within(_), Some(root)) => root,
        _ => forest.document(),
    }
}

/// Whether that is written of what stands in a node.
pub(crate) fn is_written(alloc: Global, forest: &Forest, id: NodeId, wanted: &str) -> bool {
    let mut writer = VecWriter::new(alloc);
    let node = ForestNode { forest, id };
    serialize(alloc, &mut writer, &node, SerializeOpts::default()).is_ok()
        && writer.written() == wanted.as_bytes()
}

/// The first page that has another tree.
fn first_wrong(alloc: Global, table: &References) -> Option<usize> {
    for (place, (how, bytes, wanted)) in PAGES.iter().enumerate() {
        let Ok(table) = table.copy(alloc) else {
            return Some(place);
        };
        let Ok(forest) = tree(alloc, table, *how, bytes) else {
            return Some(place);
        };
        if !is_written(alloc, &forest, top(&forest, *how), wanted) {
            return Some(place);
        }
    }
    None
}

#[test]
fn pages_have_their_trees(rt: HostRuntime) -> Result<(), Fail> {
    let table = standard(rt.alloc())?;
    assert_eq!(rt; first_wrong(rt.alloc(), &table), None);
    Ok(())
}

#[test]
fn bytes_that_are_no_text_are_refused(rt: HostRuntime) -> Result<(), Fail> {
    let alloc = rt.alloc();
    let five = References::five(alloc)?;
    let answer = tree(alloc, five, How::InPieces, b"<p>a\xE2\x82b");
    assert!(rt; matches!(answer, Err(NormalFault::NotUtf8 { at: 4 })));
    Ok(())
}
