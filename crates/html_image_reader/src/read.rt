//! Reading an image.
ghost use Rattle.std.specs.Prelude.{◌≡◌, IfOk, IsTrue, false};
ghost use Rattle.markup.specs.TreeLaws.{with_errors};
ghost use Rattle.html_tree_image.specs.Image.{image_of, is_too_large};

use crate::links::put_all;
use crate::nodes::add_nodes;
use crate::parts::{errors_of, parts_of, quirks_of};
use html_forest::Forest;
use html_tree_image::{ImageFault, tree_image_with_errors};
use markup::{ParseFault, TreeSink};
use std::alloc::{AllocError, AllocFailed, Global};
use thiserror::Error;

/// Why no forest was read.
#[derive(Clone, Copy, Debug, PartialEq, Eq, Error)]
pub enum ReadFault {
    /// There was not enough memory.
    #[error("out of memory")]
    Memory,
    /// The bytes are not the image of a tree.
    #[error("not the image of a tree")]
    NotAnImage,
}

impl From<AllocError> for ReadFault {
    fn from(_error: AllocError) -> ReadFault {
        ReadFault::Memory
    }
}

impl<T: Drop> From<AllocFailed<T>> for ReadFault {
    fn from(_error: AllocFailed<T>) -> ReadFault {
        ReadFault::Memory
    }
}

impl From<ParseFault> for ReadFault {
    fn from(_fault: ParseFault) -> ReadFault {
        ReadFault::Memory
    }
}

/// What an image has.
#[derive(Debug, Drop)]
pub struct Image {
    /// Its tree, by the same numbers.
    pub forest: Forest,
    /// How many parse errors its page had. Those of `forest` are not set.
    pub errors: u64,
}

/// Whether bytes are the image of a forest with so many errors.
fn is_image_of(alloc: Global, bytes: &[u8], forest: &Forest, errors: u64) -> Result<bool, ReadFault>
    ensures image { IfOk result (λ is. IsTrue is → bytes.now ≡ image_of (with_errors errors forest.now)) }
    ensures fits { IfOk result (λ is. IsTrue is → is_too_large forest.now ≡ false) }
{
    match tree_image_with_errors(alloc, forest, errors) {
        Ok(image) => Ok(image.as_slice() == bytes),
        Err(ImageFault::TooLarge) => Ok(false),
        Err(ImageFault::Memory) => Err(ReadFault::Memory),
    }
}

/// The forest that the records and texts of an image say.
fn forest_of(alloc: Global, bytes: &[u8]) -> Result<Forest, ReadFault> {
    let Some(parts) = parts_of(bytes) else {
        return Err(ReadFault::NotAnImage);
    };
    let mut forest = Forest::new(alloc)?;
    add_nodes(alloc, parts, &mut forest)?;
    put_all(alloc, parts, &mut forest)?;
    forest.set_quirks_mode(quirks_of(bytes));
    Ok(forest)
}

/// The forest of which bytes are the image, in memory of `alloc`, as `tree_image` writes it. Bytes of which no forest is the image are
/// refused by `NotAnImage`, wherever they come from. Time and memory grow with the number of bytes.
pub fn read_image(alloc: Global, bytes: &[u8]) -> Result<Image, ReadFault>
    ensures image { IfOk result (λ image. bytes.now ≡ image_of (with_errors image.errors image.forest)) }
    ensures fits { IfOk result (λ image. is_too_large image.forest ≡ false) }
{
    let forest = forest_of(alloc, bytes)?;
    let errors = errors_of(bytes);
    if !is_image_of(alloc, bytes, &forest, errors)? {
        return Err(ReadFault::NotAnImage);
    }
    Ok(Image { forest, errors })
}
