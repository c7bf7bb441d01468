//! Rows, and how many are read otherwise than they say.

use crate::bytes::bytes_of;
use html_encodings::{Encoding, Why, decode_pieces, encoding_of_label, sniff};
use html_encodings_multibyte::{Every, decode};
use std::alloc::{AllocError, Global};

/// How many rows there are, and how many of them are read otherwise than they say.
#[derive(Drop)]
pub struct Counts {
    pub rows: u64,
    pub different: u64,
}

impl Counts {
    pub fn new() -> Counts {
        Counts {
            rows: 0,
            different: 0,
        }
    }

    /// Counts a row, and says whether it is read as it says.
    pub fn row(&mut self, alloc: Global, line: &str) -> Result<bool, AllocError> {
        self.rows = self.rows.saturating_add(1);
        let is_read = row(alloc, line)?;
        if !is_read {
            self.different = self.different.saturating_add(1);
        }
        Ok(is_read)
    }
}

/// Whether a row is read as it says.
fn row(alloc: Global, line: &str) -> Result<bool, AllocError> {
    let mut words = line.split_whitespace();
    let kind = words.next().unwrap_or("");
    let first = words.next().unwrap_or("");
    let second = words.next().unwrap_or("");
    let third = words.next().unwrap_or("");
    let fourth = words.next().unwrap_or("");
    match kind {
        "decode" => decode_row(alloc, first, second, third),
        "label" => label_row(alloc, first, second),
        "sniff" => sniff_row(alloc, first, second, third, fourth),
        _ => Ok(false),
    }
}

/// Whether bytes are decoded to a text, whole and cut in two at each place.
fn decode_row(alloc: Global, label: &str, bytes: &str, text: &str) -> Result<bool, AllocError> {
    let Some(encoding) = encoding_of_label(label.as_bytes()) else {
        return Ok(false);
    };
    let bytes = bytes_of(alloc, bytes)?;
    let text = bytes_of(alloc, text)?;
    let bytes = bytes.as_slice();
    let whole = decode(alloc, encoding, bytes)?;
    if whole.text.as_bytes() != text.as_slice() {
        return Ok(false);
    }
    for at in 0..bytes.len() {
        let cut = decode_pieces(alloc, Every::new(encoding), &[&bytes[..at], &bytes[at..]])?;
        if cut.text.as_bytes() != text.as_slice() || cut.errors != whole.errors {
            return Ok(false);
        }
    }
    Ok(true)
}

fn name_of(encoding: Option<Encoding>) -> &'static str {
    match encoding {
        Some(encoding) => encoding.name(),
        None => "-",
    }
}

/// Whether a label has an encoding.
fn label_row(alloc: Global, label: &str, name: &str) -> Result<bool, AllocError> {
    let label = bytes_of(alloc, label)?;
    Ok(name_of(encoding_of_label(label.as_slice())) == name)
}

fn why_of(why: Why) -> &'static str {
    match why {
        Why::ByteOrderMark => "mark",
        Why::Transport => "transport",
        Why::Declaration => "declaration",
        Why::Fallback => "fallback",
    }
}

/// Whether a page is found to be in an encoding, and in that way if the row says which.
fn sniff_row(
    alloc: Global,
    bytes: &str,
    label: &str,
    name: &str,
    why: &str,
) -> Result<bool, AllocError> {
    let bytes = bytes_of(alloc, bytes)?;
    let label = bytes_of(alloc, label)?;
    let label = if label.is_empty() {
        None
    } else {
        Some(label.as_slice())
    };
    let sniffed = sniff(bytes.as_slice(), label, Encoding::Windows1252);
    Ok(sniffed.encoding.name() == name && (why.is_empty() || why_of(sniffed.why) == why))
}
