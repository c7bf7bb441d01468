//! Rows of the calls that C has: a page, the answer, and what is written. All rows of the packages are in `bindings/rows.tsv`.

use crate::report::{FigCleaned, FigDecoded, FigReport};
use crate::{
    fig_clean, fig_clean_by, fig_clean_document, fig_clean_document_by, fig_decode, fig_errors,
    fig_fragment_tree, fig_links, fig_normalise, fig_normalise_with, fig_placed_tree, fig_policy,
    fig_select, fig_serialize, fig_text_content, fig_tree, fig_tree_with,
};
use std::alloc::Global;

/// The room that each call is given.
const ROOM: usize = 400;

/// A call whose report is on a page: its table or its context, if it takes one, and the page; or an image and a node, after selectors if it
/// takes some; or the name of a ready policy.
enum Page {
    Normal(&'static [u8]),
    NormalWith(&'static [u8], &'static [u8]),
    Tree(&'static [u8]),
    TreeWith(&'static [u8], &'static [u8]),
    PlacedTree(&'static [u8]),
    FragmentTree(&'static [u8], &'static [u8]),
    Select(&'static [u8], &'static [u8], u32),
    Serialize(&'static [u8], u32),
    Text(&'static [u8], u32),
    Errors(&'static [u8]),
    Ready(&'static [u8]),
    Links(&'static [u8], u32),
}

/// The answer, and what the report has: `at`, the number of the quirks mode, and whether the document is plain; and what is written.
type Seen = (u32, u64, u8, u8, &'static [u8]);

/// The image of `<!DOCTYPE html>`: the header; the document, the doctype, `html`, `head` and `body`; no attribute; the texts.
const IMAGE: &[u8] = b"FIGT\x01\0\0\0\xF0\0\0\0\0\0\0\0\x10\0\0\0\0\0\0\0\0\0\0\0\0\0\0\0\
\x09\0\0\0\xFF\xFF\xFF\xFF\x01\0\0\0\x02\0\0\0\xFF\xFF\xFF\xFF\xFF\xFF\xFF\xFF\0\0\0\0\0\0\0\0\0\0\0\0\0\0\0\0\0\0\0\0\0\0\0\0\
\x0A\0\0\0\0\0\0\0\xFF\xFF\xFF\xFF\xFF\xFF\xFF\xFF\xFF\xFF\xFF\xFF\x02\0\0\0\0\0\0\0\x04\0\0\0\x04\0\0\0\0\0\0\0\x04\0\0\0\0\0\0\0\
\x01\x01\0\0\0\0\0\0\x03\0\0\0\x04\0\0\0\x01\0\0\0\xFF\xFF\xFF\xFF\x04\0\0\0\x04\0\0\0\0\0\0\0\0\0\0\0\xFF\xFF\xFF\xFF\0\0\0\0\
\x01\x01\0\0\x02\0\0\0\xFF\xFF\xFF\xFF\xFF\xFF\xFF\xFF\xFF\xFF\xFF\xFF\x04\0\0\0\x08\0\0\0\x04\0\0\0\0\0\0\0\0\0\0\0\xFF\xFF\xFF\xFF\0\0\0\0\
\x01\x01\0\0\x02\0\0\0\xFF\xFF\xFF\xFF\xFF\xFF\xFF\xFF\x03\0\0\0\xFF\xFF\xFF\xFF\x0C\0\0\0\x04\0\0\0\0\0\0\0\0\0\0\0\xFF\xFF\xFF\xFF\0\0\0\0\
htmlhtmlheadbody";

/// The same and behind it the places of the nodes of `<!DOCTYPE html>` and a line end: in the second line those that its end makes.
const PLACED: &[u8] = b"FIGT\x01\0\0\0\xF0\0\0\0\0\0\0\0\x10\0\0\0\0\0\0\0\0\0\0\0\0\0\0\0\
\x09\0\0\0\xFF\xFF\xFF\xFF\x01\0\0\0\x02\0\0\0\xFF\xFF\xFF\xFF\xFF\xFF\xFF\xFF\0\0\0\0\0\0\0\0\0\0\0\0\0\0\0\0\0\0\0\0\0\0\0\0\
\x0A\0\0\0\0\0\0\0\xFF\xFF\xFF\xFF\xFF\xFF\xFF\xFF\xFF\xFF\xFF\xFF\x02\0\0\0\0\0\0\0\x04\0\0\0\x04\0\0\0\0\0\0\0\x04\0\0\0\0\0\0\0\
\x01\x01\0\0\0\0\0\0\x03\0\0\0\x04\0\0\0\x01\0\0\0\xFF\xFF\xFF\xFF\x04\0\0\0\x04\0\0\0\0\0\0\0\0\0\0\0\xFF\xFF\xFF\xFF\0\0\0\0\
\x01\x01\0\0\x02\0\0\0\xFF\xFF\xFF\xFF\xFF\xFF\xFF\xFF\xFF\xFF\xFF\xFF\x04\0\0\0\x08\0\0\0\x04\0\0\0\0\0\0\0\0\0\0\0\xFF\xFF\xFF\xFF\0\0\0\0\
\x01\x01\0\0\x02\0\0\0\xFF\xFF\xFF\xFF\xFF\xFF\xFF\xFF\x03\0\0\0\xFF\xFF\xFF\xFF\x0C\0\0\0\x04\0\0\0\0\0\0\0\0\0\0\0\xFF\xFF\xFF\xFF\0\0\0\0\
htmlhtmlheadbody\
\x01\0\0\0\x01\0\0\0\x01\0\0\0\x01\0\0\0\x02\0\0\0\x01\0\0\0\x02\0\0\0\x01\0\0\0\x02\0\0\0\x01\0\0\0";

/// The image of `a` as a fragment in a `td`: the document; the `td`, in which it is no child; `html`, and the text in it.
const FRAGMENT: &[u8] = b"FIGT\x01\0\0\0\xC0\0\0\0\0\0\0\0\x07\0\0\0\0\0\0\0\0\0\0\0\0\0\0\0\
\x09\0\0\0\xFF\xFF\xFF\xFF\x02\0\0\0\x02\0\0\0\xFF\xFF\xFF\xFF\xFF\xFF\xFF\xFF\0\0\0\0\0\0\0\0\0\0\0\0\0\0\0\0\0\0\0\0\0\0\0\0\
\x01\x01\0\0\xFF\xFF\xFF\xFF\xFF\xFF\xFF\xFF\xFF\xFF\xFF\xFF\xFF\xFF\xFF\xFF\xFF\xFF\xFF\xFF\0\0\0\0\x02\0\0\0\0\0\0\0\0\0\0\0\xFF\xFF\xFF\xFF\0\0\0\0\
\x01\x01\0\0\0\0\0\0\x03\0\0\0\x03\0\0\0\xFF\xFF\xFF\xFF\xFF\xFF\xFF\xFF\x02\0\0\0\x04\0\0\0\0\0\0\0\0\0\0\0\xFF\xFF\xFF\xFF\0\0\0\0\
\x03\0\0\0\x02\0\0\0\xFF\xFF\xFF\xFF\xFF\xFF\xFF\xFF\xFF\xFF\xFF\xFF\xFF\xFF\xFF\xFF\x06\0\0\0\x01\0\0\0\0\0\0\0\0\0\0\0\0\0\0\0\0\0\0\0\
tdhtmla";

const PAGES: &[(Page, Seen)] = &[
    (
        Page::Normal(b"<!DOCTYPE html><p>caf&eacute; &lt;"),
        (
            0,
            0,
            0,
            1,
            b"<!DOCTYPE html><html><head></head><body><p>caf\xC3\xA9 &lt;</p></body></html>",
        ),
    ),
    (
        Page::Normal(b""),
        (0, 0, 2, 0, b"<html><head></head><body></body></html>"),
    ),
    (Page::Normal(b"ab\xFF"), (1, 2, 0, 0, b"")),
    (
        Page::NormalWith(b"x; 41\n", b"<!DOCTYPE html>&x;&lt;"),
        (
            0,
            0,
            0,
            1,
            b"<!DOCTYPE html><html><head></head><body>A&amp;lt;</body></html>",
        ),
    ),
    (Page::NormalWith(b"x; 41\n\xFF", b"a"), (16, 6, 0, 0, b"")),
    (Page::NormalWith(b"x; 41\nx", b"a"), (17, 2, 0, 0, b"")),
    (Page::NormalWith(b"x; 41\n&; 41", b"a"), (18, 2, 0, 0, b"")),
    (Page::NormalWith(b"x; 41\nx; 42", b"a"), (19, 2, 0, 0, b"")),
    (Page::NormalWith(b"x; 0", b"a"), (20, 1, 0, 0, b"")),
    (Page::NormalWith(b"x; 41", b"\xFF"), (1, 0, 0, 0, b"")),
    (Page::Tree(b"<!DOCTYPE html>"), (0, 0, 0, 1, IMAGE)),
    (Page::TreeWith(b"x", b"a"), (17, 1, 0, 0, b"")),
    (Page::Tree(b"a\xC0"), (1, 1, 0, 0, b"")),
    (Page::FragmentTree(b"td", b"a"), (0, 0, 0, 0, FRAGMENT)),
    (Page::FragmentTree(b"t\xFF", b"a"), (80, 1, 0, 0, b"")),
    (Page::FragmentTree(b"td", b"a\xC0"), (1, 1, 0, 0, b"")),
    (Page::PlacedTree(b"<!DOCTYPE html>\n"), (0, 0, 0, 1, PLACED)),
    (Page::PlacedTree(b"a\xC0"), (1, 1, 0, 0, b"")),
    (
        Page::Select(b"head + body, :root", IMAGE, 0),
        (0, 0, 0, 1, b"\x02\0\0\0\x04\0\0\0"),
    ),
    (
        Page::Select(b":scope > *", IMAGE, 2),
        (0, 0, 0, 1, b"\x03\0\0\0\x04\0\0\0"),
    ),
    (Page::Select(b"ul", IMAGE, 0), (0, 0, 0, 1, b"")),
    (Page::Select(b"p >", IMAGE, 0), (33, 3, 0, 0, b"")),
    (Page::Select(b"p\xFF", IMAGE, 0), (32, 1, 0, 0, b"")),
    (Page::Select(b"p", IMAGE, 5), (49, 0, 0, 0, b"")),
    (Page::Select(b"p", b"FIGT", 0), (48, 0, 0, 0, b"")),
    (
        Page::Serialize(IMAGE, 0),
        (
            0,
            0,
            0,
            1,
            b"<!DOCTYPE html><html><head></head><body></body></html>",
        ),
    ),
    (Page::Serialize(IMAGE, 4), (0, 0, 0, 1, b"<body></body>")),
    (Page::Serialize(IMAGE, 5), (49, 0, 0, 0, b"")),
    (Page::Serialize(b"FIGT", 0), (48, 0, 0, 0, b"")),
    (Page::Text(IMAGE, 0), (0, 0, 0, 1, b"")),
    (Page::Text(IMAGE, 5), (49, 0, 0, 0, b"")),
    (Page::Text(b"", 0), (48, 0, 0, 0, b"")),
    (Page::Links(IMAGE, 0), (0, 0, 0, 1, b"")),
    (Page::Links(IMAGE, 5), (49, 0, 0, 0, b"")),
    (
        Page::Errors(b"<!DOCTYPE html>\n<p>&nosuch;\n<b b b></b>"),
        (
            0,
            0,
            0,
            1,
            b"2: unknown-named-character-reference\n3: duplicate-attribute\n",
        ),
    ),
    (Page::Errors(b"<!DOCTYPE html>"), (0, 0, 0, 1, b"")),
    (Page::Errors(b"a\xFF"), (1, 1, 0, 0, b"")),
    (
        Page::Ready(b"text-alone"),
        (
            0,
            0,
            0,
            0,
            b"drop head iframe noembed noframes noscript script style template title\n",
        ),
    ),
    (Page::Ready(b"text"), (67, 0, 0, 0, b"")),
    (Page::Ready(b"mail\xFF"), (64, 4, 0, 0, b"")),
];

/// A call whose report is on a page that was cleaned: the policy, if it takes one, and the page.
enum Dirty {
    Fragment(&'static [u8]),
    Document(&'static [u8]),
    FragmentBy(&'static [u8], &'static [u8]),
    DocumentBy(&'static [u8], &'static [u8]),
}

/// The answer, and what the report has: `at`, and how many elements were unwrapped and dropped, attributes and comments dropped; and what
/// is written.
type Kept = (u32, u64, [u64; 4], &'static [u8]);

const CLEANED: &[(Dirty, Kept)] = &[
    (
        Dirty::Fragment(b"<b title=x onclick=y>a &eacute;</b><x>b</x><!--c--><script>d</script>"),
        (0, 0, [1, 1, 1, 1], b"<b title=\"x\">a \xC3\xA9</b>b"),
    ),
    (Dirty::Fragment(b""), (0, 0, [0, 0, 0, 0], b"")),
    (Dirty::Fragment(b"a\xFF"), (1, 1, [0, 0, 0, 0], b"")),
    (
        Dirty::Document(b"<!DOCTYPE html><title>t</title><p style=x>a"),
        (0, 0, [2, 1, 1, 0], b"<p>a</p>"),
    ),
    (Dirty::Document(b"a\xFF"), (1, 1, [0, 0, 0, 0], b"")),
    (
        Dirty::FragmentBy(
            b"keep p\nkeep a href\nscheme https\n",
            b"<p id=x><a href=https:b>c</a><a href=http:d><b>e",
        ),
        (
            0,
            0,
            [1, 0, 2, 0],
            b"<p><a href=\"https:b\">c</a><a>e</a></p>",
        ),
    ),
    (
        Dirty::FragmentBy(b"", b"<p>a<script>b"),
        (0, 0, [2, 0, 0, 0], b"ab"),
    ),
    (
        Dirty::FragmentBy(b"keep p\nsave b", b"a"),
        (65, 2, [0, 0, 0, 0], b""),
    ),
    (
        Dirty::FragmentBy(b"keep p\xC3", b"a"),
        (64, 6, [0, 0, 0, 0], b""),
    ),
    (
        Dirty::FragmentBy(b"keep body", b"a"),
        (66, 0, [0, 0, 0, 0], b""),
    ),
    (
        Dirty::FragmentBy(b"keep p", b"\xFF"),
        (1, 0, [0, 0, 0, 0], b""),
    ),
    (
        Dirty::DocumentBy(b"keep body", b"<p>a"),
        (0, 0, [3, 0, 0, 0], b"<body>a</body>"),
    ),
    (
        Dirty::DocumentBy(b"keep script", b"a"),
        (66, 0, [0, 0, 0, 0], b""),
    ),
];

/// The label and the page; the number of errors, the encoding, and how it was found out; and what is written.
type DecodedRow = ((&'static [u8], &'static [u8]), (u64, u8, u8), &'static [u8]);

const DECODED: &[DecodedRow] = &[
    ((b"koi8-r", b"<p>\xD1"), (0, 20, 1), b"<p>\xD1\x8F"),
    ((b"", b"\xFF\xFEa\0\xE9\0"), (0, 27, 0), b"a\xC3\xA9"),
    (
        (b"none", b"<meta charset=koi8-r>\xD1"),
        (0, 20, 2),
        b"<meta charset=koi8-r>\xD1\x8F",
    ),
    ((b"", b"caf\xE9"), (0, 31, 3), b"caf\xC3\xA9"),
    ((b"utf8", b"a\xFFb"), (1, 25, 1), b"a\xEF\xBF\xBDb"),
];

/// A report that no call writes.
const NO_REPORT: FigReport = FigReport {
    length: 77,
    errors: 77,
    at: 77,
    quirks: 77,
    plain: 77,
};

const NO_COUNTS: FigCleaned = FigCleaned {
    length: 77,
    at: 77,
    unwrapped: 77,
    dropped: 77,
    attributes: 77,
    comments: 77,
};

/// Makes a call.
fn call(alloc: Global, page: &Page, output: &mut [u8], report: &mut FigReport) -> u32 {
    match page {
        Page::Normal(page) => fig_normalise(alloc, page, output, report),
        Page::NormalWith(table, page) => fig_normalise_with(alloc, table, page, output, report),
        Page::Tree(page) => fig_tree(alloc, page, output, report),
        Page::TreeWith(table, page) => fig_tree_with(alloc, table, page, output, report),
        Page::PlacedTree(page) => fig_placed_tree(alloc, page, output, report),
        Page::FragmentTree(context, page) => {
            fig_fragment_tree(alloc, context, page, output, report)
        }
        Page::Select(selector, image, node) => fig_select(
            alloc, selector, image, *node, output, report,
        ),
        Page::Serialize(image, node) => fig_serialize(alloc, image, *node, output, report),
        Page::Text(image, node) => fig_text_content(alloc, image, *node, output, report),
        Page::Errors(page) => fig_errors(alloc, page, output, report),
        Page::Ready(name) => fig_policy(alloc, name, output, report),
        Page::Links(image, node) => fig_links(alloc, image, *node, output, report),
    }
}

/// Whether a call is seen so.
fn is_seen(alloc: Global, page: &Page, seen: &Seen) -> bool {
    let (answer, at, quirks, plain, text) = *seen;
    let mut output = [0; ROOM];
    let mut report = NO_REPORT;
    let is = call(alloc, page, &mut output, &mut report);
    is == answer
        && report.at == at
        && report.quirks == quirks
        && report.plain == plain
        && report.length == text.len()
        && output.starts_with(text)
}

/// Makes a call that cleans.
fn clean(alloc: Global, page: &Dirty, output: &mut [u8], report: &mut FigCleaned) -> u32 {
    match page {
        Dirty::Fragment(page) => fig_clean(alloc, page, output, report),
        Dirty::Document(page) => fig_clean_document(alloc, page, output, report),
        Dirty::FragmentBy(policy, page) => fig_clean_by(alloc, policy, page, output, report),
        Dirty::DocumentBy(policy, page) => fig_clean_document_by(
            alloc, policy, page, output, report,
        ),
    }
}

/// Whether a call that cleans is seen so.
fn is_kept(alloc: Global, page: &Dirty, kept: &Kept) -> bool {
    let (answer, at, counts, text) = *kept;
    let mut output = [0; ROOM];
    let mut report = NO_COUNTS;
    let is = clean(alloc, page, &mut output, &mut report);
    is == answer
        && report.at == at
        && [
            report.unwrapped,
            report.dropped,
            report.attributes,
            report.comments,
        ] == counts
        && report.length == text.len()
        && output.starts_with(text)
}

#[test]
fn pages_are_written(rt: HostRuntime) {
    for (page, seen) in PAGES {
        assert!(rt; is_seen(rt.alloc(), page, seen), "{} {}", seen.0, seen.1);
    }
}

/// Whether a page is decoded so.
fn is_decoded(alloc: Global, row: &DecodedRow) -> bool {
    let ((label, page), (errors, encoding, why), text) = *row;
    let mut output = [0; ROOM];
    let mut report = FigDecoded {
        length: 77,
        errors: 77,
        at: 77,
        encoding: 77,
        why: 77,
    };
    fig_decode(alloc, label, page, &mut output, &mut report) == 0
        && report.errors == errors
        && report.at == 0
        && report.encoding == encoding
        && report.why == why
        && report.length == text.len()
        && output.starts_with(text)
}

#[test]
fn pages_are_decoded(rt: HostRuntime) {
    for row in DECODED {
        assert!(rt; is_decoded(rt.alloc(), row), "{}", row.1.1);
    }
}

#[test]
fn pages_are_cleaned(rt: HostRuntime) {
    for (page, kept) in CLEANED {
        assert!(rt; is_kept(rt.alloc(), page, kept), "{} {}", kept.0, kept.1);
    }
}

#[test]
fn links_are_listed(rt: HostRuntime) {
    let alloc = rt.alloc();
    let mut image = [0; 2000];
    let mut report = NO_REPORT;
    let page = b"<a href='/a\n?b'><img src=\xC3\xA9><i src=c></i><base href=d>";
    let answer = fig_tree(alloc, page, &mut image, &mut report);
    assert!(rt; answer == 0);
    let mut output = [0; ROOM];
    let answer = fig_links(alloc, &image[..report.length], 0, &mut output, &mut report);
    assert!(rt; answer == 0 && report.length == 8 && output.starts_with(b"/a?b\n\xC3\xA9\n"));
}

#[test]
fn room_that_is_too_short_is_left_as_it_is(rt: HostRuntime) {
    let mut output = [7; 10];
    let mut report = NO_REPORT;
    let answer = fig_normalise(rt.alloc(), b"<!DOCTYPE html>", &mut output, &mut report);
    assert!(rt; answer == 2 && output == [7; 10] && report.length == 54);
}
