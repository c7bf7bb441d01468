//! Which encoding a page is in (HTML Standard, section 13.2.3.2).
ghost use Rattle.std.specs.Prelude.{◌≡◌};
ghost use Rattle.std.specs.Option.{option_copied, option_and_then};
ghost use Rattle.html_encodings.specs.Labels.{label_encoding};
ghost use Rattle.html_encodings.specs.Sniffing.{mark_of, sniffed};

use crate::declarations::prescan;
use crate::labels::encoding_of_label;
use crate::names::Encoding;
use crate::scanning::before;

/// How the encoding of a page was found out.
#[derive(Clone, Copy, Debug, PartialEq, Eq)]
pub enum Why {
    /// By the byte order mark: it is certain.
    ByteOrderMark,
    /// By the label that came with the page, as in a header of HTTP: it is certain.
    Transport,
    /// By a declaration among the first 1,024 bytes: it is tentative.
    Declaration,
    /// By nothing: it is tentative.
    Fallback,
}

/// A byte order mark: its encoding, and how many bytes it has.
#[derive(Clone, Copy, Debug, PartialEq, Eq)]
pub struct Mark {
    pub encoding: Encoding,
    pub length: usize,
}

/// The encoding of a page, how it was found out, and how many bytes of a byte order mark stand in front of the text.
#[derive(Clone, Copy, Debug, PartialEq, Eq)]
pub struct Sniffed {
    pub encoding: Encoding,
    pub why: Why,
    pub mark_length: usize,
}

/// The byte order mark in front, if there is one ("BOM sniff", Encoding Standard, section 6).
pub fn byte_order_mark(bytes: &[u8]) -> Option<Mark>
    ensures { result ≡ mark_of bytes.now }
{
    if bytes.starts_with(&[0xEF, 0xBB, 0xBF]) {
        return Some(Mark {
            encoding: Encoding::Utf8,
            length: 3,
        });
    }
    if bytes.starts_with(&[0xFE, 0xFF]) {
        return Some(Mark {
            encoding: Encoding::Utf16be,
            length: 2,
        });
    }
    if bytes.starts_with(&[0xFF, 0xFE]) {
        return Some(Mark {
            encoding: Encoding::Utf16le,
            length: 2,
        });
    }
    None
}

/// The encoding of a page: by its byte order mark, the label that came with it, a declaration among its first 1,024 bytes,
/// or else the fallback, which for most pages is windows-1252. A label that names no encoding counts as none.
pub fn sniff(bytes: &[u8], label: Option<&[u8]>, fallback: Encoding) -> Sniffed
    ensures { result ≡ sniffed bytes.now (option_copied label.entry) fallback }
{
    if let Some(mark) = byte_order_mark(bytes) {
        return Sniffed {
            encoding: mark.encoding,
            why: Why::ByteOrderMark,
            mark_length: mark.length,
        };
    }
    if let Some(encoding) = named(label) {
        return Sniffed {
            encoding,
            why: Why::Transport,
            mark_length: 0,
        };
    }
    match prescan(before(bytes, 1024)) {
        Some(encoding) => Sniffed {
            encoding,
            why: Why::Declaration,
            mark_length: 0,
        },
        None => Sniffed {
            encoding: fallback,
            why: Why::Fallback,
            mark_length: 0,
        },
    }
}

/// The encoding of a label, if there is one.
fn named(label: Option<&[u8]>) -> Option<Encoding>
    ensures { result ≡ option_and_then label_encoding (option_copied label.entry) }
{
    encoding_of_label(label?)
}
