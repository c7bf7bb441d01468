//! Texts that try to make a tokenizer slow.

use std::alloc::{AllocError, Global};
use std::fmt::Write;

/// What stands after the front of a text.
#[derive(Clone, Copy)]
enum Rest {
    /// One piece, over and over.
    Repeated,
    /// Attributes of different names, each of this piece and a number.
    Attributes,
    /// A name of this piece over and over for half of the text, and then end tags.
    Tags,
}

/// A kind of text.
#[derive(Clone, Copy)]
pub(crate) struct Shape {
    pub name: &'static str,
    /// What the text begins with.
    front: &'static str,
    piece: &'static str,
    rest: Rest,
    /// Whether it comes one character a piece.
    pub is_cut: bool,
}

const REPEATED: Shape = Shape {
    name: "",
    front: "",
    piece: "",
    rest: Rest::Repeated,
    is_cut: false,
};

pub(crate) const SHAPES: &[Shape] = &[
    Shape {
        name: "<<<",
        piece: "<",
        ..REPEATED
    },
    Shape {
        name: "&&&",
        piece: "&",
        ..REPEATED
    },
    Shape {
        name: "& and letters",
        front: "&",
        piece: "a",
        ..REPEATED
    },
    Shape {
        name: "&# and digits",
        front: "&#",
        piece: "1",
        ..REPEATED
    },
    Shape {
        name: "<!-- and hyphens",
        front: "<!--",
        piece: "-",
        ..REPEATED
    },
    Shape {
        name: "one value",
        front: "<a b=\"",
        piece: "c",
        ..REPEATED
    },
    Shape {
        name: "many attributes",
        front: "<a",
        piece: " a",
        rest: Rest::Attributes,
        ..REPEATED
    },
    Shape {
        name: "one character a piece",
        piece: "<a b=c>d&amp;",
        is_cut: true,
        ..REPEATED
    },
    Shape {
        name: "<![CDATA[ and ]",
        front: "<![CDATA[",
        piece: "]",
        ..REPEATED
    },
    Shape {
        name: "U+0000",
        piece: "\0",
        ..REPEATED
    },
    Shape {
        name: "CR LF",
        piece: "\r\n",
        ..REPEATED
    },
    Shape {
        name: "a long start tag and many end tags",
        front: "<",
        piece: "a",
        rest: Rest::Tags,
        ..REPEATED
    },
    Shape {
        name: "a script and many </",
        front: "<script>",
        piece: "</",
        ..REPEATED
    },
    Shape {
        name: "a text written at each pause",
        piece: "<b></script>",
        ..REPEATED
    },
    Shape {
        name: "a long doctype",
        front: "<!DOCTYPE html PUBLIC \"",
        piece: "p",
        ..REPEATED
    },
    Shape {
        name: "<a></a>",
        piece: "<a></a>",
        ..REPEATED
    },
];

/// A text of this kind, of so many bytes or a few more.
pub(crate) fn text_of(alloc: Global, shape: Shape, bytes: usize) -> Result<String, AllocError> {
    let mut text = String::from_str(alloc, shape.front)?;
    push_rest(&mut text, shape, bytes)?;
    Ok(text)
}

// Puts after a front what follows it.
fn push_rest(text: &mut String, shape: Shape, bytes: usize) -> Result<(), AllocError> {
    match shape.rest {
        Rest::Repeated => push_repeated(text, shape.piece, bytes),
        Rest::Attributes => push_attributes(text, shape.piece, bytes),
        Rest::Tags => push_tags(text, shape.piece, bytes),
    }
}

// Puts a piece after a text until that has so many bytes.
fn push_repeated(text: &mut String, piece: &str, bytes: usize) -> Result<(), AllocError> {
    for _piece in 0..bytes {
        if text.len() >= bytes {
            break;
        }
        text.push_str(piece)?;
    }
    Ok(())
}

// Makes of a front a tag with as many attributes, of different names, as have so many bytes.
fn push_attributes(text: &mut String, piece: &str, bytes: usize) -> Result<(), AllocError> {
    for number in 0..bytes {
        if text.len() >= bytes {
            break;
        }
        write!(text, "{piece}{number}")?;
    }
    text.push_str(">")
}

// Makes of a front a start tag of half so many bytes, and puts end tags after it.
fn push_tags(text: &mut String, piece: &str, bytes: usize) -> Result<(), AllocError> {
    push_repeated(text, piece, bytes / 2)?;
    text.push_str(">")?;
    let whole = text.len().saturating_add(bytes / 2);
    push_repeated(text, "</b>", whole)
}
