//! The parts of an image, and the words and texts in them.
ghost use Rattle.std.specs.Prelude.{◌<◌, ◌^◌};

use crate::read::ReadFault;
use markup::QuirksMode;

/// The parts of an image after its header.
#[derive(Clone, Copy)]
pub(crate) struct Parts<'a> {
    /// The records of the nodes.
    pub nodes: &'a [u8],
    /// The records of the attributes.
    pub attributes: &'a [u8],
    /// The texts.
    pub texts: &'a [u8],
}

/// How much of the attributes and of the texts was read, in bytes. In an image they come in the order of their nodes, with nothing
/// between them, so each is read once.
#[derive(Clone, Copy, Default)]
pub(crate) struct Front {
    /// Of the attributes.
    pub attributes: usize,
    /// Of the texts.
    pub texts: usize,
}

/// The word at a place; 0 if the bytes end before its end.
pub(crate) fn word_at(bytes: &[u8], at: usize) -> usize
    ensures { result < 2 ^ 32 }
{
    if at > bytes.len() || bytes.len() - at < 4 {
        return 0;
    }
    u32::from_le_bytes([bytes[at], bytes[at + 1], bytes[at + 2], bytes[at + 3]]) as usize
}

/// The number of errors in the header of an image.
pub(crate) fn errors_of(image: &[u8]) -> u64 {
    word_at(image, 28) as u64 * 4294967296 + word_at(image, 24) as u64
}

/// The quirks mode in the header of an image.
pub(crate) fn quirks_of(image: &[u8]) -> QuirksMode {
    match word_at(image, 20) {
        0 => QuirksMode::NoQuirks,
        1 => QuirksMode::LimitedQuirks,
        _ => QuirksMode::Quirks,
    }
}

/// The parts of which an image has the lengths in its header, if they fill it.
pub(crate) fn parts_of(image: &[u8]) -> Option<Parts<'_>> {
    let nodes = word_at(image, 8);
    let attributes = word_at(image, 12);
    let texts = word_at(image, 16);
    if image.len() != 32 + nodes + attributes + texts {
        return None;
    }
    let (nodes, rest) = image[32..].split_at(nodes);
    let (attributes, texts) = rest.split_at(attributes);
    Some(Parts {
        nodes,
        attributes,
        texts,
    })
}

impl<'a> Parts<'a> {
    /// A word of a node's record.
    pub(crate) fn word(self, node: usize, k: usize) -> usize
        ensures { result < 2 ^ 32 }
    {
        match node.checked_mul(48) {
            Some(at) if at <= self.nodes.len() && k < 12 => word_at(self.nodes, at + 4 * k),
            _ => 0,
        }
    }

    /// The text that begins where the one before it ends.
    pub(crate) fn text(
        self,
        front: &mut Front,
        at: usize,
        length: usize,
    ) -> Result<&'a str, ReadFault> {
        if at != front.texts || at > self.texts.len() || length > self.texts.len() - at {
            return Err(ReadFault::NotAnImage);
        }
        front.texts = at + length;
        match str::from_utf8(&self.texts[at..at + length]) {
            Ok(text) => Ok(text),
            Err(_) => Err(ReadFault::NotAnImage),
        }
    }
}
