//! Where the nodes and the errors of pages are.

use figpliers::{NodeData, NodeId, NotedForest, Place, References, noted_document};
use std::alloc::{AllocError, Global};
use std::test::Fail;

/// A page; its nodes in the order of their numbers, each with its place; and the places of its errors.
type Row = (&'static str, &'static str, &'static str);

const ROWS: [Row; 17] = [
    (
        "<!doctype html>\n<p class=a\n  id=b>one &amp; two</p>\n<!-- c -->",
        "doctype 1:1 html 2:1 head 2:1 body 2:1 p 2:1 text 3:8 text 3:25 comment 4:1",
        "",
    ),
    // line ends
    (
        "<!doctype html>a\r\nb\r<i>c</i>\n\r<b>",
        "doctype 1:1 html 1:16 head 1:16 body 1:16 text 1:16 i 3:1 text 3:4 text 3:9 b 5:1",
        "5:4",
    ),
    // a byte order mark takes no column
    (
        "\u{FEFF}<!doctype html><p>",
        "doctype 1:1 html 1:16 head 1:16 body 1:16 p 1:16",
        "",
    ),
    // nor does white space that is dropped
    (
        " \n <!doctype html> \n  x",
        "doctype 2:2 html 3:3 head 3:3 body 3:3 text 3:3",
        "",
    ),
    // columns are characters
    (
        "<!doctype html>é€😀<b>ß</b>",
        "doctype 1:1 html 1:16 head 1:16 body 1:16 text 1:16 b 1:19 text 1:22",
        "",
    ),
    // text that a table holds back is put before it
    (
        "<!doctype html><table>\nx y<tr>",
        "doctype 1:1 html 1:16 head 1:16 body 1:16 table 1:16 text 1:23 tbody 2:4 tr 2:4",
        "1:23 2:8",
    ),
    // what a value hides does not end the tag
    (
        "<!doctype html><p title='>'\n>t<!-- > --><b>",
        "doctype 1:1 html 1:16 head 1:16 body 1:16 p 1:16 text 2:2 comment 2:3 b 2:13",
        "2:16",
    ),
    // a tag behind two references that do not go on
    (
        "<!doctype html>&am&<b>",
        "doctype 1:1 html 1:16 head 1:16 body 1:16 text 1:16 b 1:20",
        "1:23",
    ),
    // raw text
    (
        "<!doctype html><script>\nif (a<b && c>d) {}</script>\n<p>",
        "doctype 1:1 html 1:16 head 1:16 script 1:16 text 1:24 text 2:28 body 3:1 p 3:1",
        "",
    ),
    // text after the head
    (
        "<!doctype html><title>t</title>\n  a",
        "doctype 1:1 html 1:16 head 1:16 title 1:16 text 1:23 text 1:32 body 2:3 text 2:3",
        "",
    ),
    // references
    (
        "<!doctype html><p>\nab&nope; &#0;&#38<b></b>",
        "doctype 1:1 html 1:16 head 1:16 body 1:16 p 1:16 text 1:19 b 2:18",
        "2:3 2:10 2:14",
    ),
    // characters that are errors
    (
        "<!doctype html><p>a\0b\n\u{1}c",
        "doctype 1:1 html 1:16 head 1:16 body 1:16 p 1:16 text 1:19",
        "1:20 1:20 2:1",
    ),
    // `<` that begins nothing
    (
        "<!doctype html>a < b <",
        "doctype 1:1 html 1:16 head 1:16 body 1:16 text 1:16",
        "1:18 1:22",
    ),
    // sections of CDATA
    (
        "<!doctype html><svg><![CDATA[ x > y ]]></svg>",
        "doctype 1:1 html 1:16 head 1:16 body 1:16 svg 1:16 text 1:21",
        "",
    ),
    // a template's contents begin with it
    (
        "<!doctype html>\n<template><td>",
        "doctype 1:1 html 2:1 head 2:1 template 2:1 contents 2:1 td 2:11 body 2:15",
        "2:15",
    ),
    // what the text cuts
    (
        "<!doctype html>\n<p><a b",
        "doctype 1:1 html 2:1 head 2:1 body 2:1 p 2:1",
        "2:4",
    ),
    ("", "html 1:1 head 1:1 body 1:1", "1:1"),
];

/// A node, in a word.
fn word_of(data: &NodeData<'_>) -> &'static str {
    match data {
        NodeData::Document => "document",
        NodeData::Contents => "contents",
        NodeData::Doctype { .. } => "doctype",
        NodeData::Text(_) => "text",
        NodeData::Comment(_) => "comment",
        _ => "element",
    }
}

/// Puts a place behind a text.
fn put_place(alloc: Global, text: &mut String, word: &str, place: Place) -> Result<(), AllocError> {
    if !text.as_str().is_empty() {
        text.push_str(" ")?;
    }
    if !word.is_empty() {
        text.push_str(word)?;
        text.push_str(" ")?;
    }
    let words = format!(in alloc; "{}:{}", place.line, place.column)?;
    text.push_str(words.as_str())
}

/// The nodes of a page but for the document, each with its place.
fn nodes(alloc: Global, noted: &NotedForest) -> Result<String, AllocError> {
    let mut text = String::new(alloc);
    for number in 1..noted.places.len() {
        let place = noted.places[number];
        match noted.forest.node(NodeId::new(number)) {
            Some(NodeData::Element { name, .. }) => {
                put_place(alloc, &mut text, name.local.as_str(), place)?;
            }
            Some(data) => put_place(alloc, &mut text, word_of(&data), place)?,
            None => put_place(alloc, &mut text, "none", place)?,
        }
    }
    Ok(text)
}

/// The places of the errors of a page.
fn errors(alloc: Global, noted: &NotedForest) -> Result<String, AllocError> {
    let mut text = String::new(alloc);
    for error in &noted.errors {
        put_place(alloc, &mut text, "", error.place)?;
    }
    Ok(text)
}

#[test]
fn nodes_and_errors_have_places(rt: HostRuntime) -> Result<(), Fail> {
    let alloc = rt.alloc();
    for (page, wanted_nodes, wanted_errors) in ROWS {
        let text = String::from_str(alloc, page)?;
        let noted = noted_document(alloc, References::five(alloc)?, text)?;
        let found = nodes(alloc, &noted)?;
        assert_eq!(rt; found.as_str(), wanted_nodes);
        let found = errors(alloc, &noted)?;
        assert_eq!(rt; found.as_str(), wanted_errors);
    }
    Ok(())
}
