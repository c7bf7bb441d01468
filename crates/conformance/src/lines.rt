//! Lines of what is seen.

use markup::ParseFault;
use std::alloc::{AllocError, Global};

/// Puts a line after others, with its line feed.
pub fn put_line(lines: &mut String, line: &str) -> Result<(), AllocError> {
    lines.push_str(line)?;
    lines.push('\n')
}

/// Lines without the line feed after the last.
pub fn without_last(alloc: Global, lines: &str) -> Result<String, AllocError> {
    String::from_str(alloc, lines.strip_suffix('\n').unwrap_or(lines))
}

/// The text of bytes that were written.
pub fn text_of(alloc: Global, bytes: &[u8]) -> Result<String, ParseFault> {
    let Ok(text) = std::str::from_utf8(bytes) else {
        return Err(ParseFault::Shape);
    };
    Ok(String::from_str(alloc, text)?)
}

pub fn yes_or_no(is: bool) -> &'static str {
    if is { "yes" } else { "no" }
}
