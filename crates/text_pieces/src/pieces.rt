//! The pieces in which a text is read.
ghost use Rattle.std.specs.Prelude.{◌≡◌, ◌++◌, ◌<◌, length};
ghost use Rattle.std.specs.Str.{chars};

use std::alloc::{AllocError, Global};
use std::mem;

/// The pieces, as they are given.
pub fn as_given(alloc: Global, pieces: &[&str]) -> Result<Vec<String>, AllocError> {
    let mut given = Vec::new(alloc);
    push_given(alloc, &mut given, pieces)?;
    Ok(given)
}

fn push_given(alloc: Global, given: &mut Vec<String>, pieces: &[&str]) -> Result<(), AllocError> {
    for piece in pieces {
        given.push(String::from_str(alloc, piece)?)?;
    }
    Ok(())
}

/// The byte at which a character stands, or at which the text ends where it has no more.
fn byte_of(text: &str, place: usize) -> usize {
    match text.char_indices().nth(place) {
        Some((byte, _)) => byte,
        None => text.len(),
    }
}

/// A text cut in two, so many characters after its beginning.
pub fn in_two(alloc: Global, text: &str, place: usize) -> Result<Vec<String>, AllocError> {
    match text.split_at_checked(byte_of(text, place)) {
        Some((front, behind)) => as_given(alloc, &[front, behind]),
        None => as_given(alloc, &[text, ""]),
    }
}

/// A text with each character in a piece of its own.
pub fn in_characters(alloc: Global, text: &str) -> Result<Vec<String>, AllocError> {
    let mut pieces = Vec::new(alloc);
    push_characters(alloc, &mut pieces, text)?;
    Ok(pieces)
}

fn push_characters(alloc: Global, pieces: &mut Vec<String>, text: &str) -> Result<(), AllocError> {
    for c in text.chars() {
        pieces.push(piece_of(alloc, c)?)?;
    }
    Ok(())
}

/// A text in pieces of so many characters; in one piece for 0.
pub fn pieces_of(alloc: Global, text: &str, count: usize) -> Result<Vec<String>, AllocError> {
    if count == 0 {
        return as_given(alloc, &[text]);
    }
    let mut pieces = Vec::new(alloc);
    push_pieces(alloc, &mut pieces, text, count)?;
    Ok(pieces)
}

fn push_pieces(
    alloc: Global,
    pieces: &mut Vec<String>,
    text: &str,
    count: usize,
) -> Result<(), AllocError> {
    let mut piece = String::new(alloc);
    let mut left = count;
    for c in text.chars() {
        if left == 0 {
            pieces.push(mem::replace(&mut piece, String::new(alloc)))?;
            left = count;
        }
        piece.push(c)?;
        left = left.saturating_sub(1);
    }
    pieces.push(piece)?;
    Ok(())
}

/// A piece of one character.
pub fn piece_of(alloc: Global, c: char) -> Result<String, AllocError> {
    let mut piece = String::new(alloc);
    piece.push(c)?;
    Ok(piece)
}

/// How many bytes a piece of a page has at most.
pub const PIECE: usize = 4_096;

/// A front of a text, of so many bytes at most where a character ends within them, and what follows it.
pub fn split_piece(text: &str) -> (&str, &str)
    ensures whole { chars text.now ≡ chars result.0.now ++ chars result.1.now }
    ensures shorter { 0 < length text.now → length result.1.now < length text.now }
{
    let end = text.floor_char_boundary(PIECE);
    if end == 0 {
        return (text, "");
    }
    text.split_at(end)
}
