//! How the encoding of a page is found, and how a `meta` that the parser meets changes it.

ghost use Rattle.std.specs.Prelude.{◌<◌};

use devices::MemReader;
use html_decoded_pages::{Encoding, Why, decoded_document, decoded_noted_document, decoded_text};
use html_decoded_source::DecodedSource;
use html_extracts::shown_text;
use html_normal::{Exact, References, read_document};
use std::alloc::Global;
use std::test::Fail;

/// A page, the label that came with it, its encoding, how one was found at first, and the text that it shows.
type Row = (
    &'static [u8],
    Option<&'static str>,
    Encoding,
    Why,
    &'static str,
);

/// Pages whose encoding is found before they are parsed.
const FOUND: &[Row] = &[
    // nothing says what it is
    (
        b"<p>caf\xE9 \x80",
        None,
        Encoding::Windows1252,
        Why::Fallback,
        "caf\u{E9} \u{20AC}",
    ),
    // a label that came with it, and one that names nothing
    (
        b"<meta charset=koi8-r><p>\xE9",
        Some(" ISO-8859-2 "),
        Encoding::Iso8859_2,
        Why::Transport,
        "\u{E9}",
    ),
    (
        b"<meta charset=koi8-r><p>\xE9",
        Some("x"),
        Encoding::Koi8R,
        Why::Declaration,
        "\u{418}",
    ),
    // a mark goes before all
    (
        b"\xEF\xBB\xBF<meta charset=koi8-r><p>\xC3\xA9",
        Some("koi8-r"),
        Encoding::Utf8,
        Why::ByteOrderMark,
        "\u{E9}",
    ),
    (
        b"\xFF\xFE<\0p\0>\0\xAC\x20",
        Some("koi8-r"),
        Encoding::Utf16le,
        Why::ByteOrderMark,
        "\u{20AC}",
    ),
    (
        b"\xFE\xFF\0<\0p\0>\x20\xAC",
        None,
        Encoding::Utf16be,
        Why::ByteOrderMark,
        "\u{20AC}",
    ),
    (
        b"\0<\0p\0>\x20\xAC",
        Some("utf-16be"),
        Encoding::Utf16be,
        Why::Transport,
        "\u{20AC}",
    ),
    (
        b"<?xml version='1.0' encoding='koi8-r'?><p>\xE9",
        None,
        Encoding::Koi8R,
        Why::Declaration,
        "\u{418}",
    ),
    (
        b"<meta charset=replacement><p>a",
        None,
        Encoding::Replacement,
        Why::Declaration,
        "\u{FFFD}",
    ),
    (b"", None, Encoding::Windows1252, Why::Fallback, ""),
];

/// Pages that go on after 1,024 bytes, where the parser meets what is not declared in front.
const LATE: &[Row] = &[
    (
        b"<meta charset=euc-kr><p>\xBE\xC8",
        None,
        Encoding::EucKr,
        Why::Fallback,
        "\u{C548}",
    ),
    // also where it stands in the body
    (
        b"<p>\xBE\xC8<meta charset=euc-kr>",
        None,
        Encoding::EucKr,
        Why::Fallback,
        "\u{C548}",
    ),
    (
        b"<meta http-equiv=content-type content='text/html; charset=koi8-r'><p>\xE9",
        None,
        Encoding::Koi8R,
        Why::Fallback,
        "\u{418}",
    ),
    // only the first that names an encoding counts
    (
        b"<meta charset=x><meta charset=koi8-r><meta charset=euc-kr><p>\xE9",
        None,
        Encoding::Koi8R,
        Why::Fallback,
        "\u{418}",
    ),
    (
        b"<meta charset=windows-1252><meta charset=koi8-r><p>\xE9",
        None,
        Encoding::Windows1252,
        Why::Fallback,
        "\u{E9}",
    ),
    (
        b"<meta charset=utf-16le><p>\xC3\xA9",
        None,
        Encoding::Utf8,
        Why::Fallback,
        "\u{E9}",
    ),
    (
        b"<meta charset=x-user-defined><p>\xE9",
        None,
        Encoding::Windows1252,
        Why::Fallback,
        "\u{E9}",
    ),
    // what came with the page is certain
    (
        b"<meta charset=euc-kr><p>\xE9",
        Some("koi8-r"),
        Encoding::Koi8R,
        Why::Transport,
        "\u{418}",
    ),
    // what is no element of the document names nothing
    (
        b"<script><meta charset=koi8-r></script><p>\xE9",
        None,
        Encoding::Windows1252,
        Why::Fallback,
        "\u{E9}",
    ),
    (
        b"<!-- <meta charset=koi8-r> --><p>\xE9",
        None,
        Encoding::Windows1252,
        Why::Fallback,
        "\u{E9}",
    ),
    (
        b"<svg><meta charset=koi8-r></svg><p>\xE9",
        None,
        Encoding::Koi8R,
        Why::Fallback,
        "\u{418}",
    ),
];

/// A page is read so.
fn is_read(alloc: Global, page: &[u8], row: &Row) -> Result<bool, Fail> {
    let (_, label, encoding, why, words) = row;
    let label = label.map(|label| label.as_bytes());
    let table = References::five(alloc)?;
    let text = decoded_text(alloc, &table, page, label, Encoding::Windows1252)?;
    let document = decoded_document(alloc, table, page, label, Encoding::Windows1252)?;
    let forest = document.content;
    let shown = shown_text(alloc, &forest, forest.document())?;
    Ok(
        text.encoding == *encoding
            && document.encoding == *encoding
            && text.sniffed == document.sniffed
            && document.sniffed.why == *why
            && text.errors == document.errors
            && shown.as_str() == *words,
    )
}

/// A page is read so with its parse errors.
fn is_read_with_errors(alloc: Global, page: &[u8], row: &Row) -> Result<bool, Fail> {
    let (_, label, encoding, why, words) = row;
    let label = label.map(|label| label.as_bytes());
    let table = References::five(alloc)?;
    let read = decoded_noted_document(alloc, table, page, label, Encoding::Windows1252)?;
    let forest = &read.content.forest;
    let shown = shown_text(alloc, forest, forest.document())?;
    Ok(read.encoding == *encoding && read.sniffed.why == *why && shown.as_str() == *words)
}

/// A page after a comment of 1,100 bytes.
fn late(alloc: Global, page: &[u8]) -> Result<Vec<u8>, Fail> {
    let mut bytes = Vec::new(alloc);
    bytes.extend_from_slice(b"<!--")?;
    for _ in 0..1100 {
        bytes.push(b' ')?;
    }
    bytes.extend_from_slice(b"-->")?;
    bytes.extend_from_slice(page)?;
    Ok(bytes)
}

#[test]
fn encodings_are_found(rt: HostRuntime) -> Result<(), Fail> {
    for row in FOUND {
        assert!(rt; is_read(rt.alloc(), row.0, row)?, "{}", row.4);
        assert!(rt; is_read_with_errors(rt.alloc(), row.0, row)?, "{}", row.4);
    }
    Ok(())
}

#[test]
fn a_meta_that_comes_late_changes_what_is_tentative(rt: HostRuntime) -> Result<(), Fail> {
    for row in LATE {
        let page = late(rt.alloc(), row.0)?;
        assert!(rt; is_read(rt.alloc(), page.as_slice(), row)?, "{}", row.4);
        assert!(rt;
            is_read_with_errors(rt.alloc(), page.as_slice(), row)?,
            "{}",
            row.4
        );
    }
    Ok(())
}

#[test]
fn a_page_that_is_read_again_has_each_error_once(rt: HostRuntime) -> Result<(), Fail> {
    let page = late(
        rt.alloc(),
        b"<!DOCTYPE html><meta charset=koi8-r>\n<p>\xE9</b>",
    )?;
    let table = References::five(rt.alloc())?;
    let read = decoded_noted_document(
        rt.alloc(),
        table,
        page.as_slice(),
        None,
        Encoding::Windows1252,
    )?;
    assert_eq!(rt; read.encoding, Encoding::Koi8R);
    assert_eq!(rt; read.content.errors.len(), 1);
    for error in &read.content.errors {
        assert_eq!(rt; error.place.line, 2);
    }
    Ok(())
}

#[test]
fn errors_are_counted(rt: HostRuntime) -> Result<(), Fail> {
    let table = References::five(rt.alloc())?;
    let page = decoded_text(
        rt.alloc(),
        &table,
        b"<meta charset=utf-8>\xFFa\xC3",
        None,
        Encoding::Windows1252,
    )?;
    assert_eq!(rt; page.errors, 2);
    assert_eq!(rt;
        page.content.as_str(),
        "<meta charset=utf-8>\u{FFFD}a\u{FFFD}"
    );
    Ok(())
}

/// Pages in an encoding that is known, and the text that each shows.
const KNOWN: &[(&[u8], Encoding, &str)] = &[
    (b"<p>\xE9\x80", Encoding::Windows1252, "\u{E9}\u{20AC}"),
    (b"<p>\xBE\xC8\xB3\xE7", Encoding::EucKr, "\u{C548}\u{B155}"),
    (b"<\0p\0>\0\x3D\xD8\0\xDE", Encoding::Utf16le, "\u{1F600}"),
    (
        b"<p>\x1B$B4A;z\x1B(B",
        Encoding::Iso2022Jp,
        "\u{6F22}\u{5B57}",
    ),
    // what is cut off at the end is an error
    (b"<p>a\xBE", Encoding::EucKr, "a\u{FFFD}"),
    (b"", Encoding::Big5, ""),
];

/// What a reader that gives so many bytes a call shows, if it is read.
fn shown_of(alloc: Global, page: &[u8], piece: usize, encoding: Encoding) -> Result<String, Fail>
    requires { 0 < piece }
{
    let bytes = Vec::from_slice(alloc, page)?;
    let reader = MemReader::new(bytes, piece, None);
    let mut source = DecodedSource::new(alloc, reader, encoding)?;
    let table = References::five(alloc)?;
    let forest = read_document(alloc, &mut source, table, Exact::default())?;
    Ok(shown_text(alloc, &forest, forest.document())?)
}

#[test]
fn a_source_decodes_another(rt: HostRuntime) -> Result<(), Fail> {
    for (page, encoding, words) in KNOWN {
        let whole = shown_of(rt.alloc(), page, 4096, *encoding)?;
        let bytes = shown_of(rt.alloc(), page, 1, *encoding)?;
        assert!(rt;
            whole.as_str() == *words && bytes.as_str() == *words,
            "{words}"
        );
    }
    Ok(())
}
