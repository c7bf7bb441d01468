//! Pages of several languages, in an encoding that they declare.

use html_decoded_pages::{Encoding, Why, decoded_document, decoded_text};
use html_extracts::shown_text;
use html_standard_references::standard;
use std::alloc::Global;
use std::test::Fail;

/// Pages, the encoding of each, and the text that it shows.
const PAGES: &[(&[u8], Encoding, &str)] = &[
    // French, windows-1252
    (
        b"<!DOCTYPE html><meta charset=iso-8859-1><title></title><p>L\x92\xE9t\xE9 \xE0 No\xEBl: 5 \x80",
        Encoding::Windows1252,
        "L\u{2019}\u{E9}t\u{E9} \u{E0} No\u{EB}l: 5 \u{20AC}",
    ),
    // German, windows-1252
    (
        b"<!DOCTYPE html><meta charset=latin1><title></title><p>\xDCber Gr\xF6\xDFe und Stra\xDFe",
        Encoding::Windows1252,
        "\u{DC}ber Gr\u{F6}\u{DF}e und Stra\u{DF}e",
    ),
    // Korean, EUC-KR
    (
        b"<!DOCTYPE html><meta charset=euc-kr><title></title><p>\xBE\xC8\xB3\xE7\xC7\xCF\xBC\xBC\xBF\xE4 \xBC\xBC\xB0\xE8",
        Encoding::EucKr,
        "\u{C548}\u{B155}\u{D558}\u{C138}\u{C694} \u{C138}\u{ACC4}",
    ),
    // Japanese, Shift_JIS
    (
        b"<!DOCTYPE html><meta charset=x-sjis><title></title><p>\x93\xFA\x96{\x8C\xEA\x82\xCC\x95\xB6\x8F\xCD\xB6\xC5",
        Encoding::ShiftJis,
        "\u{65E5}\u{672C}\u{8A9E}\u{306E}\u{6587}\u{7AE0}\u{FF76}\u{FF85}",
    ),
    // Japanese, EUC-JP
    (
        b"<!DOCTYPE html><meta charset=euc-jp><title></title><p>\xC6\xFC\xCB\xDC\xB8\xEC\xA4\xCE\xCA\xB8\xBE\xCF",
        Encoding::EucJp,
        "\u{65E5}\u{672C}\u{8A9E}\u{306E}\u{6587}\u{7AE0}",
    ),
    // Japanese, ISO-2022-JP
    (
        b"<!DOCTYPE html><meta charset=iso-2022-jp><title></title><p>\x1B$BF|K\\8l$NJ8>O\x1B(B",
        Encoding::Iso2022Jp,
        "\u{65E5}\u{672C}\u{8A9E}\u{306E}\u{6587}\u{7AE0}",
    ),
    // Chinese, GBK
    (
        b"<!DOCTYPE html><meta charset=gb2312><title></title><p>\xBC\xF2\xCC\xE5\xD6\xD0\xCE\xC4\xCD\xF8\xD2\xB3",
        Encoding::Gbk,
        "\u{7B80}\u{4F53}\u{4E2D}\u{6587}\u{7F51}\u{9875}",
    ),
    // Chinese, gb18030
    (
        b"<!DOCTYPE html><meta charset=gb18030><title></title><p>\xD6\xD0\xCE\xC4\x952\x826",
        Encoding::Gb18030,
        "\u{4E2D}\u{6587}\u{20000}",
    ),
    // Chinese, Big5
    (
        b"<!DOCTYPE html><meta charset=big5><title></title><p>\xC1c\xC5\xE9\xA4\xA4\xA4\xE5\xBA\xF4\xAD\xB6",
        Encoding::Big5,
        "\u{7E41}\u{9AD4}\u{4E2D}\u{6587}\u{7DB2}\u{9801}",
    ),
    // Russian, KOI8-R
    (
        b"<!DOCTYPE html><meta charset=koi8-r><title></title><p>\xF2\xD5\xD3\xD3\xCB\xC9\xCA",
        Encoding::Koi8R,
        "\u{420}\u{443}\u{441}\u{441}\u{43A}\u{438}\u{439}",
    ),
];

/// A page is read in its encoding, and shows its words.
fn shows(alloc: Global, page: &[u8], encoding: Encoding, words: &str) -> Result<bool, Fail> {
    let table = standard(alloc)?;
    let text = decoded_text(alloc, &table, page, None, Encoding::Windows1252)?;
    let document = decoded_document(alloc, table, page, None, Encoding::Windows1252)?;
    let forest = document.content;
    let shown = shown_text(alloc, &forest, forest.document())?;
    Ok(
        text.encoding == encoding
            && document.encoding == encoding
            && document.sniffed.why == Why::Declaration
            && document.errors == 0
            && text.content.as_str().ends_with(words)
            && shown.as_str() == words,
    )
}

#[test]
fn pages_show_their_words(rt: HostRuntime) -> Result<(), Fail> {
    for (page, encoding, words) in PAGES {
        assert!(rt; shows(rt.alloc(), page, *encoding, words)?, "{words}");
    }
    Ok(())
}
