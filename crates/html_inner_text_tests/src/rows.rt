//! Pages and elements of them, with their texts.

use html_forest::{Forest, NodeId};
use html_inner_text::inner_text;
use html_nodes::{Query, fits, nodes_below};
use html_pages::document;
use html_tokenizer::References;
use std::alloc::Global;
use std::test::Fail;

/// Pages, and their texts.
const PAGES: &[(&str, &str)] = &[
    ("", ""),
    (" \n ", ""),
    ("<div> abc \t\r\n def ", "abc def"),
    ("<div>abc<br>def", "abc\ndef"),
    ("<div>abc <br> def", "abc\ndef"),
    ("<br>abc", "\nabc"),
    ("<div>abc<div>def", "abc\ndef"),
    ("<div>abc<div> </div>def", "abc\ndef"),
    (
        "<div><div>abc</div></div><div><div>def</div></div>",
        "abc\ndef",
    ),
    ("<div>abc<br></div><div>def</div>", "abc\n\ndef"),
    ("<div>abc<p>def", "abc\n\ndef"),
    ("<p>abc</p> <p>def</p>ghi", "abc\n\ndef\n\nghi"),
    ("<h1>abc</h1><hr><section>def</section>", "abc\ndef"),
    ("<ul><li>x<li>y</ul>", "x\ny"),
    ("<dl><dt>x<dd>y</dl>z", "x\ny\nz"),
    ("abc <b> def</b> <i> </i>ghi", "abc def ghi"),
    ("abc<b>def</b>", "abcdef"),
    ("abc<!-- --> <!-- --> def", "abc def"),
    ("a&nbsp; &nbsp;b", "a\u{a0} \u{a0}b"),
    // White space that is preserved.
    ("<pre> a  b\n\tc </pre>d", " a  b\n\tc \nd"),
    ("<pre>a \n</pre> b", "a \n\nb"),
    (
        "<!DOCTYPE html><pre><table><tr><td> a<td nowrap> b</table></pre>",
        " a\tb",
    ),
    ("<pre><table><tr><td> a</table></pre>", "a"),
    ("<pre> a<nobr>  b</nobr>  c</pre>", " a b  c"),
    ("<xmp>a  <b></xmp>", "a  <b>"),
    ("a <span><textarea> b  c</textarea></span> d", "a  b  c d"),
    // Tables.
    ("<table><tr><td>a<td>b<tr><td>c<td>d</table>", "a\tb\nc\td"),
    (
        "<table> <tr> <td> a </td> <th> b </th> </tr> </table>c",
        "a\tb\nc",
    ),
    ("<table><tr><td><td>a<tr><td><tr><td>b", "\ta\n\nb"),
    ("<table><caption>a</caption><tr><td>b</table>", "a\nb"),
    (
        "<table><thead><tr><td>a<tbody><tr><td>b<tbody><tfoot><tr><td>c</table>",
        "a\nb\nc",
    ),
    ("<table><tr><td>a<tr hidden><td>b</table>c", "a\nc"),
    ("<table><tr><td>a<td hidden>b</table>c", "a\nc"),
    ("<table><tr><td><p>a<td>b</table>", "a\n\n\tb"),
    (
        "<table><tr><td>a<td><table><tr><td>b<tr><td>c</table><tr><td>d</table>",
        "a\t\nb\nc\n\nd",
    ),
    // Boxes in the line.
    ("abc <img> def", "abc  def"),
    ("abc <input type=HIDDEN> def", "abc def"),
    (
        "abc <button> x <div> y </div></button> def",
        "abc x\ny\n def",
    ),
    ("<img> a", " a"),
    ("<div>a</div><img> b", "a\n b"),
    ("a <canvas>b</canvas> d", "a  d"),
    ("a <audio>b</audio> c <audio controls>d</audio> e", "a c  e"),
    ("a<select><option>b<option>c</select>d", "a\nb\nc\nd"),
    // What is not rendered.
    (
        "<title>a</title><style>b</style><script>c</script>d<noscript>e</noscript>",
        "d",
    ),
    ("a<template>b</template><span hidden>c</span>d", "ad"),
    ("a<dialog>b</dialog><dialog open>c</dialog>d", "a\nc\nd"),
    ("<ruby>a<rp>(</rp><rt>b</rt><rp>)</rp></ruby>", "ab"),
    ("<svg></svg> a", " a"),
    (
        "a<svg><title>b</title><text>c</text><text>d</text></svg><p hidden>e",
        "a\nc\nd",
    ),
    (
        "<table><tr><td>a<td>b<tr><td>c<td>d</table><ul><li>x<li>y</ul><p>1</p><p>2</p>p<br>q",
        "a\tb\nc\td\nx\ny\n\n1\n\n2\n\np\nq",
    ),
];

/// Pages, and the texts of their elements with the id `it`.
const ELEMENTS: &[(&str, &str)] = &[
    ("<p id=it>a<p>b", "a"),
    ("<p>a<b id=it> b </b>", "b"),
    ("<pre>a <code id=it> b  c</code>", " b  c"),
    ("<pre><nobr>a <code id=it> b  c</code>", "b c"),
    ("<br id=it>", ""),
    (
        "<table><tr><td>a<tr id=it><td>b<td>c<tr><td>d</table>",
        "b\tc",
    ),
    ("<title id=it> a  b</title>", " a  b"),
    ("<div hidden><p id=it> a <br>b", " a b"),
    ("<p id=it hidden> a <br>b", " a b"),
    ("<canvas id=it>a</canvas>", ""),
    ("<canvas><b id=it>a </b></canvas>", "a "),
];

/// The document of a text, if there is memory.
fn page_of(alloc: Global, text: &str) -> Option<Forest> {
    let Ok(five) = References::five(alloc) else {
        return None;
    };
    let Ok(text) = String::from_str(alloc, text) else {
        return None;
    };
    match document(alloc, five, text) {
        Ok(forest) => Some(forest),
        Err(_) => None,
    }
}

/// The element with the id `it`, or the document.
fn element_of(forest: &Forest) -> NodeId {
    let query = Query {
        name: None,
        id: Some("it"),
        class: None,
    };
    for id in nodes_below(forest, forest.document()) {
        if fits(forest, id, &query) {
            return id;
        }
    }
    forest.document()
}

/// The first row whose text is another one.
fn first_wrong(alloc: Global, rows: &[(&str, &str)]) -> Option<usize> {
    for (place, (page, wanted)) in rows.iter().enumerate() {
        let Some(forest) = page_of(alloc, page) else {
            return Some(place);
        };
        let Ok(text) = inner_text(alloc, &forest, element_of(&forest)) else {
            return Some(place);
        };
        if text.as_str() != *wanted {
            return Some(place);
        }
    }
    None
}

#[test]
fn pages_have_their_texts(rt: HostRuntime) -> Result<(), Fail> {
    assert_eq!(rt; first_wrong(rt.alloc(), PAGES), None);
    Ok(())
}

#[test]
fn elements_have_their_texts(rt: HostRuntime) -> Result<(), Fail> {
    assert_eq!(rt; first_wrong(rt.alloc(), ELEMENTS), None);
    Ok(())
}
