//! Numbers in an image.
ghost use Rattle.std.specs.Prelude.{◌≡◌, ◌++◌, IfOk, OnOk};
ghost use Rattle.html_tree_image.specs.Image;
ghost use Rattle.html_tree_image.specs.Image.{namespace_number, word};

use html_forest::NodeId;
use markup::{KnownNamespace, Namespace};
use std::alloc::{AllocError, Global};

// Adds the low 32 bits of a number.
#[tactic(auto, unfolding(crate::specs::Image::word))]
pub(crate) fn push_word(bytes: &mut Vec<u8>, number: usize) -> Result<(), AllocError>
    ensures { OnOk result (bytes.new.items ≡ bytes.old.items ++ word number) }
{
    bytes.extend_from_slice(&number.to_le_bytes()[..4])
}

// Adds the low 32 bits of each of the numbers.
pub(crate) fn push_words(bytes: &mut Vec<u8>, numbers: &[usize]) -> Result<(), AllocError>
    ensures { OnOk result (bytes.new.items ≡ bytes.old.items ++ Image.words numbers.now) }
{
    for number in numbers {
        push_word(bytes, *number)?;
    }
    Ok(())
}

/// The number by which an image names a node, or that it has none.
pub(crate) fn link(id: Option<NodeId>) -> usize
    ensures { result ≡ Image.link id }
{
    match id {
        Some(id) => id.number(),
        None => 0xFFFF_FFFF,
    }
}

/// The number of a namespace.
pub(crate) fn number_of(namespace: &Namespace) -> usize
    ensures { result ≡ namespace_number namespace.now }
{
    match namespace.known() {
        Some(KnownNamespace::NoNamespace) => 0,
        Some(KnownNamespace::Html) => 1,
        Some(KnownNamespace::MathMl) => 2,
        Some(KnownNamespace::Svg) => 3,
        Some(KnownNamespace::XLink) => 4,
        Some(KnownNamespace::Xml) => 5,
        Some(KnownNamespace::Xmlns) => 6,
        None => 7,
    }
}

/// The numbers of nodes, as an image names them: a word for each.
pub fn node_words(alloc: Global, nodes: &[NodeId]) -> Result<Vec<u8>, AllocError>
    ensures { IfOk result (λ bytes. bytes.items ≡ Image.words nodes.now) }
{
    let mut bytes = Vec::new(alloc);
    for node in nodes {
        push_word(&mut bytes, node.number())?;
    }
    Ok(bytes)
}
