//! The image of a forest.
ghost use Rattle.std.specs.Prelude.{◌≡◌, ◌++◌, ◌^◌, ◌||◌, true, false, nat_le, IfErr, IfOk, OnOk, length};
ghost use Rattle.markup.specs.TreeLaws.{with_errors};
ghost use Rattle.markup.specs.declared.quirks.QuirksMode;
ghost use Rattle.html_tree_image.specs.Image.{attributes_of, header, image_of, is_too_large, nodes_of, quirks_number, texts_of};
ghost use Rattle.html_tree_image.specs.declared.image.ImageFault.TheVariants.{TooLarge};

use crate::nodes::{Parts, parts_of};
use crate::words::push_words;
use html_forest::Forest;
use markup::QuirksMode;
use std::alloc::{AllocError, Global};
use thiserror::Error;

/// Why there is no image of a forest.
#[derive(Clone, Copy, Debug, PartialEq, Eq, Error)]
pub enum ImageFault {
    /// There was not enough memory.
    #[error("out of memory")]
    Memory,
    /// A part of the image would have 2^32 bytes or more.
    #[error("the tree is too large for an image")]
    TooLarge,
}

impl From<AllocError> for ImageFault {
    ghost use Rattle.html_tree_image.specs.declared.image.ImageFault.TheVariants.{Memory};

    ghost from_gives = { λ _ made. made ≡ Memory };

    fn from(_error: AllocError) -> ImageFault {
        ImageFault::Memory
    }
}

// The number of a quirks mode.
fn number_of(quirks: QuirksMode) -> usize
    ensures { result ≡ quirks_number quirks }
{
    match quirks {
        QuirksMode::NoQuirks => 0,
        QuirksMode::LimitedQuirks => 1,
        QuirksMode::Quirks => 2,
    }
}

// The header of an image with these parts.
fn push_header(
    image: &mut Vec<u8>,
    parts: &Parts,
    quirks: QuirksMode,
    errors: u64,
) -> Result<(), AllocError>
    ensures { OnOk result (image.new.items ≡ image.old.items ++ header (length parts.now.nodes.items) (length parts.now.attributes.items)
        (length parts.now.texts.items) quirks errors) }
{
    image.extend_from_slice(b"FIGT")?;
    let numbers = [
        1,
        parts.nodes.len(),
        parts.attributes.len(),
        parts.texts.len(),
        number_of(quirks),
    ];
    push_words(image, &numbers)?;
    image.extend_from_slice(&errors.to_le_bytes())?;
    Ok(())
}

// Whether a part is too long.
fn is_too_large(parts: &Parts) -> bool
    ensures { result ≡ (nat_le (2 ^ 32) (length parts.now.nodes.items)
        || (nat_le (2 ^ 32) (length parts.now.attributes.items) || nat_le (2 ^ 32) (length parts.now.texts.items))) }
{
    1 << 32 <= parts.nodes.len()
        || (1 << 32 <= parts.attributes.len() || 1 << 32 <= parts.texts.len())
}

// The header and the parts, one after the other.
fn joined(
    alloc: Global,
    parts: &Parts,
    quirks: QuirksMode,
    errors: u64,
) -> Result<Vec<u8>, AllocError>
    ensures { IfOk result (λ image. image.items ≡ header (length parts.now.nodes.items) (length parts.now.attributes.items)
        (length parts.now.texts.items) quirks errors
        ++ (parts.now.nodes.items ++ (parts.now.attributes.items ++ parts.now.texts.items))) }
{
    let mut image = Vec::new(alloc);
    push_header(&mut image, parts, quirks, errors)?;
    image.extend_from_slice(parts.nodes.as_slice())?;
    image.extend_from_slice(parts.attributes.as_slice())?;
    image.extend_from_slice(parts.texts.as_slice())?;
    Ok(image)
}

/// The image of a forest, in memory of `alloc`: all its nodes by their numbers, the document first, with names, attributes, texts and
/// neighbours. The nodes that the parser made and left out have no parent. The prefix of an element is left out, which no parser of HTML
/// gives it.
pub fn tree_image(alloc: Global, forest: &Forest) -> Result<Vec<u8>, ImageFault>
    ensures image { IfOk result (λ image. image.items ≡ image_of forest.now) }
    ensures fits { IfOk result (λ _. is_too_large forest.now ≡ false) }
    ensures fault { IfErr result (λ fault. fault ≡ TooLarge → is_too_large forest.now ≡ true) }
{
    tree_image_with_errors(alloc, forest, forest.error_count())
}

/// The same with another number of parse errors in the header.
pub fn tree_image_with_errors(
    alloc: Global,
    forest: &Forest,
    errors: u64,
) -> Result<Vec<u8>, ImageFault>
    ensures image { IfOk result (λ image. image.items ≡ image_of (with_errors errors forest.now)) }
    ensures fits { IfOk result (λ _. is_too_large forest.now ≡ false) }
    ensures fault { IfErr result (λ fault. fault ≡ TooLarge → is_too_large forest.now ≡ true) }
{
    let parts = parts_of(alloc, forest)?;
    if is_too_large(&parts) {
        return Err(ImageFault::TooLarge);
    }
    Ok(joined(alloc, &parts, forest.quirks(), errors)?)
}
