//! Destinations of links, and images.

use crate::escape::description;
use crate::output::Output;
use std::alloc::{AllocError, Global};

/// Writes a byte as a URL has it.
fn push_percent(output: &mut Output, character: char) -> Result<(), AllocError> {
    match character {
        ' ' => output.push_str("%20", '0'),
        '<' => output.push_str("%3C", 'C'),
        '>' => output.push_str("%3E", 'E'),
        '\\' => output.push_str("%5C", 'C'),
        '`' => output.push_str("%60", '0'),
        _ => output.push_str("%7F", 'F'),
    }
}

/// Writes a character of a destination (CommonMark, section 6.3). Control characters, which no URL has, are left out.
fn push_part(
    output: &mut Output,
    character: char,
    has_references: bool,
    in_cell: bool,
) -> Result<(), AllocError> {
    match character {
        ' ' | '<' | '>' | '\\' | '`' => push_percent(output, character),
        '(' | ')' => {
            output.push('\\')?;
            output.push(character)
        }
        '&' if has_references => output.push_str("&amp;", ';'),
        '|' if in_cell => output.push_str("\\|", '|'),
        _ if character < ' ' || character == '\u{7f}' => Ok(()),
        _ => output.push(character),
    }
}

/// Writes a destination.
pub(crate) fn push_destination(
    output: &mut Output,
    url: &str,
    in_cell: bool,
) -> Result<(), AllocError> {
    let url = url.trim_ascii();
    let has_references = url.as_bytes().contains(&b';');
    for character in url.chars() {
        push_part(output, character, has_references, in_cell)?;
    }
    Ok(())
}

/// Writes an image.
pub(crate) fn push_image(
    alloc: Global,
    output: &mut Output,
    text: &str,
    url: &str,
    in_cell: bool,
) -> Result<(), AllocError> {
    output.push_str("![", '[')?;
    let Ok(description) = description(alloc, text) else {
        return Err(AllocError);
    };
    output.push_str(description.as_str(), 'a')?;
    output.push_str("](", '(')?;
    push_destination(output, url, in_cell)?;
    output.push(')')
}
