//! Texts of which html5ever's rules and the Standard's make different trees.

use crate::pages::{bytes_of, is_written};
use figpliers::{
    Exact, References, Rules, VecWriter, document_with, fragment_with, normalise_with,
};
use std::alloc::Global;

/// Pages, and what is written of their documents by html5ever's rules and by the Standard's.
const DOCUMENTS: &[(&str, &str, &str)] = &[
    (
        "<p><math><annotation-xml encoding=text/html><p>x",
        "<html><head></head><body><p><math><annotation-xml encoding=\"text/html\"></annotation-xml></math></p><p>x</p></body></html>",
        "<html><head></head><body><p><math><annotation-xml encoding=\"text/html\"><p>x</p></annotation-xml></math></p></body></html>",
    ),
    (
        "<x><search></x>y",
        "<html><head></head><body><x><search></search></x>y</body></html>",
        "<html><head></head><body><x><search>y</search></x></body></html>",
    ),
    (
        "<table> <!DOCTYPE html>x",
        "<html><head></head><body> x<table></table></body></html>",
        "<html><head></head><body>x<table> </table></body></html>",
    ),
    (
        "<p>a<b>c</p>d",
        "<html><head></head><body><p>a<b>c</b></p><b>d</b></body></html>",
        "<html><head></head><body><p>a<b>c</b></p><b>d</b></body></html>",
    ),
];

/// Elements, texts in them, and what is written of these by html5ever's rules and by the Standard's.
const FRAGMENTS: &[(&str, &str, &str, &str)] = &[
    ("form", "<form>a", "<form>a</form>", "a"),
    ("select", "<input>", "<input>", ""),
    ("div", "\u{FEFF}a", "a", "\u{FEFF}a"),
    (
        "div",
        "a\u{FEFF}<p>b",
        "a\u{FEFF}<p>b</p>",
        "a\u{FEFF}<p>b</p>",
    ),
];

/// Whether rules give a page a document of which that is written.
fn is_document(alloc: Global, rules: Rules, page: &str, wanted: &str) -> bool {
    let Ok(table) = References::five(alloc) else {
        return false;
    };
    let Ok(page) = String::from_str(alloc, page) else {
        return false;
    };
    let Ok(forest) = document_with(alloc, table, rules, page) else {
        return false;
    };
    is_written(alloc, &forest, forest.document(), wanted)
}

/// Whether that is the normal text of a page by rules.
fn is_normal(alloc: Global, rules: Rules, page: &str, wanted: &str) -> bool {
    let Ok(table) = References::five(alloc) else {
        return false;
    };
    let Ok(mut reader) = bytes_of(alloc, page.as_bytes()) else {
        return false;
    };
    let mut writer = VecWriter::new(alloc);
    let exact = Exact::default();
    normalise_with(alloc, &mut reader, &mut writer, table, exact, rules).is_ok()
        && writer.written() == wanted.as_bytes()
}

/// Whether rules give a text in an element a tree of which that is written.
fn is_fragment(alloc: Global, rules: Rules, context: &str, text: &str, wanted: &str) -> bool {
    let Ok(table) = References::five(alloc) else {
        return false;
    };
    let Ok(text) = String::from_str(alloc, text) else {
        return false;
    };
    let Ok(forest) = fragment_with(alloc, table, rules, context, text) else {
        return false;
    };
    match forest.first_child(forest.document()) {
        Some(root) => is_written(alloc, &forest, root, wanted),
        None => false,
    }
}

/// Whether each page has its document and its normal text by both rules.
fn are_documents(alloc: Global) -> bool {
    for (page, ours, theirs) in DOCUMENTS {
        if !(is_document(alloc, Rules::Html5ever, page, ours)
            && is_document(alloc, Rules::Standard, page, theirs)
            && is_normal(alloc, Rules::Html5ever, page, ours)
            && is_normal(alloc, Rules::Standard, page, theirs))
        {
            return false;
        }
    }
    true
}

/// Whether each text has its tree by both rules.
fn are_fragments(alloc: Global) -> bool {
    for (context, text, ours, theirs) in FRAGMENTS {
        if !(is_fragment(alloc, Rules::Html5ever, context, text, ours)
            && is_fragment(alloc, Rules::Standard, context, text, theirs))
        {
            return false;
        }
    }
    true
}

#[test]
fn documents_follow_the_rules(rt: HostRuntime) {
    assert!(rt; are_documents(rt.alloc()));
}

#[test]
fn fragments_follow_the_rules(rt: HostRuntime) {
    assert!(rt; are_fragments(rt.alloc()));
}
