//! A declared encoding (HTML Standard, section 13.2.3.2).
ghost use Rattle.std.specs.Prelude.{◌≡◌, ◌==◌, length, slice_index};
ghost use Rattle.std.specs.List.{list_any};
ghost use Rattle.html_encodings.specs.Scanning.{has};
ghost use Rattle.html_encodings.specs.declared.scanning.Class.TheVariants.{Control};
ghost use Rattle.std.specs.Option.{option_copied, option_map};
ghost use Rattle.html_encodings.specs.Attributes.{meta_view, tag_view};
ghost use Rattle.html_encodings.specs.Prescan.{mended, mended_xml, label_of_value, after_equals, charset_value, content_encoding};
ghost use Rattle.html_encodings.specs.Prescan.{is_pragma, declared_encoding, going, after_word, turn, comment_turn, meta_turn, tag_turn};
ghost use Rattle.html_encodings.specs.Prescan.{bogus_turn};
ghost use Rattle.html_encodings.specs.Turns.{turn_view};
ghost use Rattle.html_encodings.specs.Prescan.{meta_turn_of, scan, xml_value, xml_after_equals, xml_encoding, prescanned};

use crate::attributes::{Meta, Tag, tag_from};
use crate::labels::encoding_of_label;
use crate::names::Encoding;
use crate::scanning::{Class, after, begins, front, past};

/// The encoding that is taken for a declared one: no declaration that can be read is in UTF-16.
fn mended(encoding: Encoding) -> Encoding
    ensures { result ≡ mended encoding }
{
    match encoding {
        Encoding::Utf16be | Encoding::Utf16le => Encoding::Utf8,
        Encoding::XUserDefined => Encoding::Windows1252,
        _ => encoding,
    }
}

/// A label in quotes that are closed, or up to white space or `;`.
fn label_of_value(bytes: &[u8]) -> Option<&[u8]>
    ensures { option_copied result ≡ label_of_value bytes.now }
{
    let (first, others) = bytes.split_first()?;
    if *first != b'"' && *first != b'\'' {
        return Some(front(bytes, Class::Content));
    }
    let label = front(others, Class::Not(*first));
    if label.len() < others.len() {
        Some(label)
    } else {
        None
    }
}

/// What follows `=`, without white space in front.
fn after_equals(bytes: &[u8]) -> Option<&[u8]>
    ensures { option_copied result ≡ after_equals bytes.now }
{
    let (next, others) = bytes.split_first()?;
    if *next == b'=' {
        Some(past(others, Class::Space))
    } else {
        None
    }
}

/// What a `charset` in front is set to.
fn charset_value(bytes: &[u8]) -> Option<&[u8]>
    ensures { option_copied result ≡ charset_value bytes.now }
{
    if !begins(bytes, b"charset") {
        return None;
    }
    after_equals(past(after(bytes, 7), Class::Space))
}

/// "Extracting a character encoding from a meta element": that of the first `charset` that is set.
fn content_encoding(content: &[u8]) -> Option<Encoding>
    ensures { result ≡ content_encoding content.now }
{
    let mut rest = content;
    while !rest.is_empty() {
        if let Some(value) = charset_value(rest) {
            return encoding_of_label(label_of_value(value)?);
        }
        rest = &rest[1..];
    }
    None
}

fn is_pragma(http_equiv: Option<&[u8]>) -> bool
    ensures { result ≡ is_pragma (option_copied http_equiv.entry) }
{
    match http_equiv {
        Some(value) => value.eq_ignore_ascii_case(b"content-type"),
        None => false,
    }
}

/// What a `meta` declares: its `charset`, or with the pragma the encoding in its `content`.
fn declared_encoding(meta: Meta<'_>) -> Option<Encoding>
    ensures { result ≡ declared_encoding (meta_view meta.entry) }
{
    let encoding = match meta.charset {
        Some(label) => encoding_of_label(label)?,
        None => {
            if !is_pragma(meta.http_equiv) {
                return None;
            }
            content_encoding(meta.content?)?
        }
    };
    Some(mended(encoding))
}

/// An encoding, if one is found, and what is left behind the position. Where nothing is left the bytes have run out.
#[derive(Clone, Copy)]
struct Turn<'a> {
    found: Option<Encoding>,
    rest: &'a [u8],
}

/// What follows a word, the first time that it stands there.
fn after_word<'a>(bytes: &'a [u8], word: &[u8]) -> Option<&'a [u8]>
    ensures { option_copied result ≡ after_word word.now bytes.now }
{
    let mut rest = bytes;
    while !rest.is_empty() {
        if rest.starts_with(word) {
            return Some(after(rest, word.len()));
        }
        rest = &rest[1..];
    }
    None
}

fn going(rest: &[u8]) -> Turn<'_>
    ensures { turn_view result ≡ going rest.now }
{
    Turn { found: None, rest }
}

/// The position goes beyond a comment, whose end may share the hyphens of its start.
fn comment_turn(bytes: &[u8]) -> Turn<'_>
    ensures { turn_view result ≡ comment_turn bytes.now }
{
    match after_word(after(bytes, 2), b"-->") {
        Some(rest) => going(rest),
        None => going(&[]),
    }
}

fn meta_turn_of(tag: Tag<'_>) -> Turn<'_>
    ensures { turn_view result ≡ meta_turn_of (tag_view tag.entry) }
{
    let found = if tag.rest.is_empty() {
        None
    } else {
        declared_encoding(tag.meta)
    };
    Turn {
        found,
        rest: after(tag.rest, 1),
    }
}

/// A `meta` that is whole declares an encoding, or not.
fn meta_turn(bytes: &[u8]) -> Turn<'_>
    ensures { turn_view result ≡ meta_turn bytes.now }
{
    meta_turn_of(tag_from(after(bytes, 5)))
}

/// Any other tag is passed over.
fn tag_turn(bytes: &[u8]) -> Turn<'_>
    ensures { turn_view result ≡ tag_turn bytes.now }
{
    going(after(tag_from(past(bytes, Class::Value)).rest, 1))
}

/// And so is what else begins with `<!`, `</` or `<?`.
fn bogus_turn(bytes: &[u8]) -> Turn<'_>
    ensures { turn_view result ≡ bogus_turn bytes.now }
{
    going(after(past(bytes, Class::Not(b'>')), 1))
}

/// A byte, or 0 beyond the last one.
fn byte_at(bytes: &[u8], at: usize) -> u8
    ensures { result ≡ slice_index bytes.now at }
{
    if at < bytes.len() { bytes[at] } else { 0 }
}

/// One turn of the loop.
fn next_turn(bytes: &[u8]) -> Turn<'_>
    ensures { turn_view result ≡ turn bytes.now }
{
    if byte_at(bytes, 0) != b'<' {
        return going(after(bytes, 1));
    }
    if begins(bytes, b"<!--") {
        return comment_turn(bytes);
    }
    let fifth = byte_at(bytes, 5);
    if begins(bytes, b"<meta") && (fifth.is_ascii_whitespace() || fifth == b'/') {
        return meta_turn(bytes);
    }
    let first = byte_at(bytes, 1);
    if first.is_ascii_alphabetic() || first == b'/' && byte_at(bytes, 2).is_ascii_alphabetic() {
        return tag_turn(bytes);
    }
    if first == b'!' || first == b'/' || first == b'?' {
        return bogus_turn(bytes);
    }
    going(after(bytes, 1))
}

/// Turns until an encoding is found or the bytes have run out.
fn scan(bytes: &[u8]) -> Option<Encoding>
    ensures { result ≡ scan (length bytes.now) bytes.now }
{
    let mut rest = bytes;
    for count in 0..bytes.len() {
        let next = next_turn(rest);
        if let Some(encoding) = next.found {
            return Some(encoding);
        }
        rest = next.rest;
    }
    None
}

fn mended_xml(encoding: Encoding) -> Encoding
    ensures { result ≡ mended_xml encoding }
{
    match encoding {
        Encoding::Utf16be | Encoding::Utf16le => Encoding::Utf8,
        _ => encoding,
    }
}

fn xml_value(bytes: &[u8]) -> Option<Encoding>
    ensures { result ≡ xml_value bytes.now }
{
    let (quote, others) = bytes.split_first()?;
    let label = front(others, Class::Not(*quote));
    if *quote != b'"' && *quote != b'\'' || label.len() >= others.len() || has_control(label) {
        return None;
    }
    Some(mended_xml(encoding_of_label(label)?))
}

/// Whether a byte is a space or stands before it in ASCII.
fn has_control(label: &[u8]) -> bool
    ensures { result ≡ list_any (has Control) label.now }
{
    label.iter().any(|byte| Class::Control.has(*byte))
}

fn xml_after_equals(bytes: &[u8]) -> Option<Encoding>
    ensures { result ≡ xml_after_equals bytes.now }
{
    let (next, others) = bytes.split_first()?;
    if *next == b'=' {
        xml_value(past(others, Class::Control))
    } else {
        None
    }
}

/// Whether there is a `>`.
fn has_end(bytes: &[u8]) -> bool
    ensures { result ≡ list_any (λ byte. byte == 62) bytes.now }
{
    bytes.iter().any(|byte| *byte == b'>')
}

/// "Get an XML encoding".
fn xml_encoding(bytes: &[u8]) -> Option<Encoding>
    ensures { result ≡ xml_encoding bytes.now }
{
    if !bytes.starts_with(b"<?xml") {
        return None;
    }
    if !has_end(bytes) {
        return None;
    }
    xml_after_equals(past(after_word(bytes, b"encoding")?, Class::Control))
}

/// The encoding that bytes at the start of a page declare, if they do: "prescan a byte stream to determine its encoding".
/// The Standard gives it the first 1,024 bytes, or all if there are fewer.
#[tactic(auto, unfolding(crate::specs::Prescan::prescanned))]
pub fn prescan(bytes: &[u8]) -> Option<Encoding>
    ensures { result ≡ prescanned bytes.now }
{
    if bytes.starts_with(&[0x3C, 0x00, 0x3F, 0x00, 0x78, 0x00]) {
        return Some(Encoding::Utf16le);
    }
    if bytes.starts_with(&[0x00, 0x3C, 0x00, 0x3F, 0x00, 0x78]) {
        return Some(Encoding::Utf16be);
    }
    match scan(bytes) {
        Some(encoding) => Some(encoding),
        None => xml_encoding(bytes),
    }
}
