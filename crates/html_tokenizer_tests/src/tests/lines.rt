//! On which lines tokens are told.

use super::read;
use html_tokenizer::Listed;
use std::alloc::Global;

/// Whether the tokens of a list were told on these lines.
fn are_on(sink: &Listed, lines: &[u64]) -> bool {
    for (place, told) in sink.told.iter().enumerate() {
        match lines.get(place) {
            Some(line) if *line == told.line => {}
            _ => return false,
        }
    }
    sink.told.len() == lines.len()
}

/// Whether the pieces tell tokens on these lines.
fn are_pieces_on(alloc: Global, pieces: &[&str], lines: &[u64]) -> bool {
    match read(alloc, pieces) {
        Ok(sink) => are_on(&sink, lines),
        Err(_) => false,
    }
}

// Four tags, each with a line end after it.
const PIECES: &[&[&str]] = &[
    &["<a>\r\n", "<b>\r\n", "</b>\r\n", "</a>\r\n"],
    &["<a>\n", "<b>\n", "</b>\n", "</a>\n"],
    &["<a>\r", "<b>\r", "</b>\r", "</a>\r"],
    &["<a>\r", "\n<b>\r", "\n</b>\r", "\n</a>\r", "\n"],
    &["<a>", "\r", "\n", "<b>", "\r", "", "\n", "</b>\n", "</a>\r"],
];

const FIVE: &[u64] = &[1, 2, 3, 4, 5];

#[test]
fn each_line_end_counts_once(rt: HostRuntime) {
    for &pieces in PIECES {
        assert!(rt; are_pieces_on(rt.alloc(), pieces, FIVE));
    }
}
