//! Where a text is cut into pieces: before what begins a tag, a reference or another item, and behind what may end a tag or a comment. The
//! places of what a document has are then those of pieces.

ghost use Rattle.std.specs.Prelude.{◌≡◌, ◌<◌, ◌++◌, length};
ghost use Rattle.std.specs.Str.{IsUtf8};

use html_queue::SmallCharSet;

/// What a piece begins with.
#[derive(Clone, Copy, PartialEq, Eq)]
pub(crate) enum Kind {
    /// Text, or a reference.
    Text,
    /// A tag, a comment, a doctype or a CDATA section; or, in raw text, what looks like one.
    Markup,
}

// What ends a piece of text: U+0000 is an error in any text.
const TEXT_STOPS: SmallCharSet = SmallCharSet {
    bits: 1 | 1 << b'&' | 1 << b'<',
};

// What may end markup.
const MARKUP_STOPS: SmallCharSet = SmallCharSet { bits: 1 << b'>' };

/// What a text begins with.
pub(crate) fn kind_of(text: &str) -> Kind {
    let bytes = text.as_bytes();
    if bytes.len() < 2 || bytes[0] != b'<' {
        return Kind::Text;
    }
    let second = bytes[1];
    if second.is_ascii_alphabetic() || second == b'/' || second == b'!' || second == b'?' {
        Kind::Markup
    } else {
        Kind::Text
    }
}

/// Whether a text begins with what ends a piece of text.
pub(crate) fn begins_with_stop(text: &str) -> bool {
    matches!(text.as_bytes().first(), Some(0 | b'&' | b'<'))
}

/// How many bytes of white space stand at the front of a text.
fn white_space_len(text: &str) -> usize {
    let bytes = text.as_bytes();
    for at in 0..bytes.len() {
        match bytes[at] {
            b' ' | b'\n' | b'\r' | b'\t' | 0x0C => {}
            _ => return at,
        }
    }
    bytes.len()
}

/// What follows a piece that begins with text: one of white space alone, or one up to what ends it.
fn after_text(text: &str) -> &str {
    let white = white_space_len(text);
    if white > 0 && text.is_char_boundary(white) {
        return text.split_at(white).1;
    }
    let (run, rest) = TEXT_STOPS.split(text);
    if !run.is_empty() {
        return rest;
    }
    let mut characters = text.chars();
    let _first = characters.next();
    let (_run, rest) = TEXT_STOPS.split(characters.as_str());
    rest
}

/// What follows a piece that begins with markup.
fn after_markup(text: &str) -> &str {
    let (_run, rest) = MARKUP_STOPS.split(text);
    let mut characters = rest.chars();
    let _last = characters.next();
    characters.as_str()
}

/// How many bytes stand at the front of a text that are characters of ASCII without control characters.
fn plain_len(text: &str) -> usize {
    let bytes = text.as_bytes();
    for at in 0..bytes.len() {
        if !(b' '..=b'~').contains(&bytes[at]) {
            return at;
        }
    }
    bytes.len()
}

/// What follows the first character of a text.
fn after_character(text: &str) -> &str {
    let mut characters = text.chars();
    let _first = characters.next();
    characters.as_str()
}

/// What follows a piece that begins with text, where control characters and noncharacters are reported as errors: each of these is a
/// piece of its own.
fn after_exact_text(text: &str) -> &str {
    let plain = plain_len(text);
    if plain == 0 || !text.is_char_boundary(plain) {
        return after_character(text);
    }
    let (run, rest) = text.split_at(plain);
    if after_text(run).is_empty() {
        return rest;
    }
    after_text(text)
}

/// How much of a text a piece has.
#[derive(Clone, Copy)]
pub(crate) enum Size {
    /// One character.
    Character,
    /// Text.
    Text,
    /// Text, where control characters and noncharacters are reported as errors.
    ExactText,
    /// Markup.
    Markup,
}

/// The first piece of a text, and what follows it. A piece is never empty unless the text is.
pub(crate) fn cut(text: &str, size: Size) -> (&str, &str)
    ensures whole { text.now ≡ result.0.now ++ result.1.now }
    ensures utf8 { IsUtf8 result.0.now }
    ensures filled { 0 < length text.now → 0 < length result.0.now }
{
    let rest = match size {
        Size::Character => after_character(text),
        Size::Text => after_text(text),
        Size::ExactText => after_exact_text(text),
        Size::Markup => after_markup(text),
    };
    let width = text.len().saturating_sub(rest.len());
    if width == 0 || !text.is_char_boundary(width) {
        return (text, "");
    }
    text.split_at(width)
}
