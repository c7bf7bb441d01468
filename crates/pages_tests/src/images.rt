//! Trees as images.

use figpliers::{Forest, ForestNode, MemWriter, References, SerializeOpts, document, serialize};
use html_image_reader::{ReadFault, read_image};
use html_tree_image::tree_image;
use std::alloc::Global;
use std::test::Fail;

/// The header; the document, the doctype, `html`, `head`, `body`, `svg`, `template` and its contents, two texts and a comment; two
/// attributes; the texts.
const IMAGE: &[u8; 652] = b"FIGT\x01\0\0\0\x10\x02\0\00\0\0\0,\0\0\0\0\0\0\0\0\0\0\0\0\0\0\0\
\x09\0\0\0\xFF\xFF\xFF\xFF\x01\0\0\0\x02\0\0\0\xFF\xFF\xFF\xFF\xFF\xFF\xFF\xFF\0\0\0\0\0\0\0\0\0\0\0\0\0\0\0\0\0\0\0\0\0\0\0\0\
\x0A\0\0\0\0\0\0\0\xFF\xFF\xFF\xFF\xFF\xFF\xFF\xFF\xFF\xFF\xFF\xFF\x02\0\0\0\0\0\0\0\x04\0\0\0\x04\0\0\0\0\0\0\0\x04\0\0\0\0\0\0\0\
\x01\x01\0\0\0\0\0\0\x03\0\0\0\x04\0\0\0\x01\0\0\0\xFF\xFF\xFF\xFF\x04\0\0\0\x04\0\0\0\0\0\0\0\0\0\0\0\xFF\xFF\xFF\xFF\0\0\0\0\
\x01\x01\0\0\x02\0\0\0\xFF\xFF\xFF\xFF\xFF\xFF\xFF\xFF\xFF\xFF\xFF\xFF\x04\0\0\0\x08\0\0\0\x04\0\0\0\0\0\0\0\0\0\0\0\xFF\xFF\xFF\xFF\0\0\0\0\
\x01\x01\0\0\x02\0\0\0\x05\0\0\0\x0A\0\0\0\x03\0\0\0\xFF\xFF\xFF\xFF\x0C\0\0\0\x04\0\0\0\0\0\0\0\0\0\0\0\xFF\xFF\xFF\xFF\0\0\0\0\
\x01\x03\0\0\x04\0\0\0\xFF\xFF\xFF\xFF\xFF\xFF\xFF\xFF\xFF\xFF\xFF\xFF\x06\0\0\0\x10\0\0\0\x03\0\0\0\0\0\0\0\x02\0\0\0\xFF\xFF\xFF\xFF\0\0\0\0\
\x01\x01\0\0\x04\0\0\0\xFF\xFF\xFF\xFF\xFF\xFF\xFF\xFF\x05\0\0\0\x09\0\0\0!\0\0\0\x08\0\0\00\0\0\0\0\0\0\0\x07\0\0\0\0\0\0\0\
\x0B\0\0\0\xFF\xFF\xFF\xFF\x08\0\0\0\x08\0\0\0\xFF\xFF\xFF\xFF\xFF\xFF\xFF\xFF\0\0\0\0\0\0\0\0\0\0\0\0\0\0\0\0\0\0\0\0\0\0\0\0\
\x03\0\0\0\x07\0\0\0\xFF\xFF\xFF\xFF\xFF\xFF\xFF\xFF\xFF\xFF\xFF\xFF\xFF\xFF\xFF\xFF)\0\0\0\x01\0\0\0\0\0\0\0\0\0\0\0\0\0\0\0\0\0\0\0\
\x03\0\0\0\x04\0\0\0\xFF\xFF\xFF\xFF\xFF\xFF\xFF\xFF\x06\0\0\0\x0A\0\0\0*\0\0\0\x01\0\0\0\0\0\0\0\0\0\0\0\0\0\0\0\0\0\0\0\
\x08\0\0\0\x04\0\0\0\xFF\xFF\xFF\xFF\xFF\xFF\xFF\xFF\x09\0\0\0\xFF\xFF\xFF\xFF+\0\0\0\x01\0\0\0\0\0\0\0\0\0\0\0\0\0\0\0\0\0\0\0\
\x13\0\0\0\x0A\0\0\0\x1D\0\0\0\x01\0\0\0\x04\0\0\0\x06\0\0\0\
\x1E\0\0\0\x01\0\0\0\x1F\0\0\0\x02\0\0\0\0\0\0\0\0\0\0\0\
htmlhtmlheadbodysvgxlink:hrefab\xC3\xA9templatex&y";

#[test]
fn trees_have_images(rt: HostRuntime) -> Result<(), Fail> {
    let alloc = rt.alloc();
    let page = String::from_str(
        alloc,
        "<!DOCTYPE html><svg xlink:href=a b=é></svg><template>x</template>&<!--y-->",
    )?;
    let forest = document(alloc, References::five(alloc)?, page)?;
    assert!(rt; tree_image(alloc, &forest)?.as_slice() == IMAGE.as_slice());
    Ok(())
}

/// The text of a document.
fn written(alloc: Global, forest: &Forest) -> Result<Vec<u8>, Fail> {
    let mut writer = MemWriter::new(alloc, 1000, 1000, None, false)?;
    let node = ForestNode {
        forest,
        id: forest.document(),
    };
    serialize(alloc, &mut writer, &node, SerializeOpts::default())?;
    let mut text = Vec::new(alloc);
    text.extend_from_slice(writer.written())?;
    Ok(text)
}

#[test]
fn images_are_read(rt: HostRuntime) -> Result<(), Fail> {
    let alloc = rt.alloc();
    for page in [
        "",
        "<!DOCTYPE html><svg xlink:href=a b=é></svg><template>x<template>y</template></template>&<!--y-->",
        "<p><b><p>a<table>b<td>c</b>d<a><a>e",
        "<math><annotation-xml encoding=text/html><p a=1 b=2>",
    ] {
        let forest = document(
            alloc,
            References::five(alloc)?,
            String::from_str(alloc, page)?,
        )?;
        let image = tree_image(alloc, &forest)?;
        let read = read_image(alloc, image.as_slice())?;
        assert!(rt; read.errors == forest.error_count() && read.forest.quirks() == forest.quirks());
        assert!(rt;
            written(alloc, &read.forest)?.as_slice() == written(alloc, &forest)?.as_slice()
        );
    }
    Ok(())
}

/// Whether bytes are read as an image; nothing if memory was short.
fn is_image(alloc: Global, bytes: &[u8]) -> Option<bool> {
    match read_image(alloc, bytes) {
        Ok(_) => Some(true),
        Err(ReadFault::NotAnImage) => Some(false),
        Err(ReadFault::Memory) => None,
    }
}

#[test]
fn other_bytes_are_no_images(rt: HostRuntime) {
    let mut image = *IMAGE;
    let mut refused = 0u64;
    for at in 0..652 {
        image[at] ^= 1;
        if is_image(rt.alloc(), &image) == Some(false) {
            refused = refused.saturating_add(1);
        }
        image[at] ^= 1;
        assert!(rt; is_image(rt.alloc(), &image[..at]) == Some(false));
    }
    // All but changed letters, namespaces, the quirks mode and the number of errors.
    assert!(rt; refused == 597);
}

#[test]
fn links_that_contradict_others_are_no_image(rt: HostRuntime) {
    let mut image = *IMAGE;
    for node in 0..11 {
        for link in 1..6 {
            let at = 32 + 48 * node + 4 * link;
            let kept = image[at];
            for other in 0..12 {
                image[at] = other;
                let same = other == kept;
                assert!(rt; is_image(rt.alloc(), &image) == Some(same));
            }
            image[at] = kept;
        }
    }
}
