//! A node of a tree's image, as HTML and as text, and the links in it.
ghost use Rattle.std.specs.Prelude.{◌≡◌, ◌++◌, IfErr, IfOk, length};
ghost use Rattle.std.specs.List.{flat_map};
ghost use Rattle.std.specs.String.{string_bytes};
ghost use Rattle.html_plain.specs.Grammar.{is_plain_forest};
ghost use Rattle.html_ffi.specs.Images.{FailsOnNode, IsFound, IsHtml, IsLinkList, IsMadeOfNode, IsTextContent, MeansNode, html_of};
ghost use Rattle.html_ffi.specs.Images.{link_line, link_lines, text_of};
ghost use Rattle.html_ffi.specs.declared.answer.Answer.TheVariants.{Memory};

use crate::answer::{Answer, Failure, no_memory};
use crate::report::FigReport;
use crate::room::put_made;
use devices::VecWriter;
use html_extracts::links_below;
use html_forest::{Forest, ForestNode, NodeId};
use html_image_reader::{Image, read_image};
use html_nodes::text_content;
use html_normal::Report;
use html_serialize::{SerializeOpts, serialize};
use markup::{Text, TraversalScope};
use std::alloc::{AllocError, Global};

/// A node of a tree, with the report of the tree.
#[derive(Drop)]
pub(crate) struct Found {
    pub(crate) forest: Forest,
    pub(crate) report: Report,
    pub(crate) id: NodeId,
}

/// The report of an image.
fn report_of(image: &Image) -> Result<Report, Failure>
    ensures plain { IfOk result (λ report. report.plain ≡ is_plain_forest image.now.forest) }
    ensures quirks { IfOk result (λ report. report.quirks ≡ image.now.forest.quirks) }
    ensures errors { IfOk result (λ report. report.errors ≡ image.now.errors) }
    ensures err { IfErr result (λ failure. failure ≡ record { answer = Memory; at = 0 }) }
{
    match image.forest.is_plain() {
        Ok(plain) => Ok(Report {
            plain,
            quirks: image.forest.quirks(),
            errors: image.errors,
        }),
        Err(_) => Err(no_memory()),
    }
}

/// A node of the tree of which a block of bytes is the image.
pub(crate) fn find_node(alloc: Global, image: &[u8], node: u32) -> Result<Found, Failure>
    ensures ok { IfOk result (λ found. IsFound image.now node found.forest found.id found.report) }
    ensures err { IfErr result (λ failure. FailsOnNode image.now node failure.answer failure.at) }
{
    let read = match read_image(alloc, image) {
        Ok(read) => read,
        Err(fault) => return Err(Failure::from(fault)),
    };
    let id = NodeId::new(node as usize);
    if read.forest.node(id).is_none() {
        return Err(Failure {
            answer: Answer::NoNode,
            at: 0,
        });
    }
    let report = report_of(&read)?;
    Ok(Found {
        forest: read.forest,
        report,
        id,
    })
}

/// A node as HTML.
fn html_of(alloc: Global, forest: &Forest, id: NodeId) -> Result<Vec<u8>, Failure>
    ensures ok { IfOk result (λ bytes. bytes.items ≡ html_of forest.now id) }
    ensures err { IfErr result (λ failure. failure ≡ record { answer = Memory; at = 0 }) }
{
    let mut writer = VecWriter::new(alloc);
    let opts = SerializeOpts {
        scripting_enabled: true,
        traversal_scope: TraversalScope::IncludeNode,
        create_missing_parent: false,
    };
    match serialize(alloc, &mut writer, &ForestNode { forest, id }, opts) {
        Ok(()) => Ok(writer.into_bytes()),
        Err(_) => Err(no_memory()),
    }
}

/// A node of an image as HTML, with the report of the image.
fn node_html(alloc: Global, image: &[u8], node: u32) -> Result<(Vec<u8>, Report), Failure>
    ensures ok { IfOk result (λ made. IsMadeOfNode IsHtml node image.now made.0.items made.1) }
    ensures err { IfErr result (λ failure. FailsOnNode image.now node failure.answer failure.at) }
{
    let found = find_node(alloc, image, node)?;
    let html = html_of(alloc, &found.forest, found.id)?;
    Ok((html, found.report))
}

/// The text of a node.
fn text_of(alloc: Global, forest: &Forest, id: NodeId) -> Result<Vec<u8>, Failure>
    ensures ok { IfOk result (λ text. text.items ≡ text_of forest.now id) }
    ensures err { IfErr result (λ failure. failure ≡ record { answer = Memory; at = 0 }) }
{
    match text_content(alloc, forest, id) {
        Ok(text) => Ok(text.into_bytes()),
        Err(_) => Err(no_memory()),
    }
}

/// The text of a node of an image, with the report of the image.
fn node_text(alloc: Global, image: &[u8], node: u32) -> Result<(Vec<u8>, Report), Failure>
    ensures ok { IfOk result (λ made. IsMadeOfNode IsTextContent node image.now made.0.items made.1) }
    ensures err { IfErr result (λ failure. FailsOnNode image.now node failure.answer failure.at) }
{
    let found = find_node(alloc, image, node)?;
    let text = text_of(alloc, &found.forest, found.id)?;
    Ok((text, found.report))
}

/// Puts a link and a line feed behind a text.
fn push_link(text: &mut String, link: &Text) -> Result<(), AllocError>
    ensures { IfOk result (λ _. string_bytes text.new ≡ string_bytes text.old ++ link_line link.now) }
{
    text.push_str(link.as_str())?;
    text.push('\n')
}

/// Links, each with a line feed behind it.
fn lines_of(alloc: Global, links: &[Text]) -> Result<String, Failure>
    ensures ok { IfOk result (λ text. string_bytes text ≡ flat_map link_line links.now) }
    ensures err { IfErr result (λ failure. failure ≡ record { answer = Memory; at = 0 }) }
{
    let mut text = String::new(alloc);
    for link in links {
        push_link(&mut text, link)?;
    }
    Ok(text)
}

/// The links of the elements in a node, each with a line feed behind it.
fn links_of(alloc: Global, forest: &Forest, id: NodeId) -> Result<Vec<u8>, Failure>
    ensures ok { IfOk result (λ text. text.items ≡ link_lines forest.now id) }
    ensures err { IfErr result (λ failure. failure ≡ record { answer = Memory; at = 0 }) }
{
    let Ok(links) = links_below(alloc, forest, id) else {
        return Err(no_memory());
    };
    let lines = lines_of(alloc, links.as_slice())?;
    Ok(lines.into_bytes())
}

/// The links in a node of an image, with the report of the image.
fn node_links(alloc: Global, image: &[u8], node: u32) -> Result<(Vec<u8>, Report), Failure>
    ensures ok { IfOk result (λ made. IsMadeOfNode IsLinkList node image.now made.0.items made.1) }
    ensures err { IfErr result (λ failure. FailsOnNode image.now node failure.answer failure.at) }
{
    let found = find_node(alloc, image, node)?;
    let text = links_of(alloc, &found.forest, found.id)?;
    Ok((text, found.report))
}

/// Writes the links in a node of an image to the front of room.
pub(crate) fn links_by(
    alloc: Global,
    image: &[u8],
    node: u32,
    output: &mut [u8],
    report: &mut FigReport,
) -> Answer
    ensures answer { MeansNode IsLinkList node image.now output.old output.new report.new result }
    ensures same_room { length output.new ≡ length output.old }
{
    put_made(node_links(alloc, image, node), output, report)
}

/// Writes a node of an image as HTML to the front of room.
pub(crate) fn serialize_by(
    alloc: Global,
    image: &[u8],
    node: u32,
    output: &mut [u8],
    report: &mut FigReport,
) -> Answer
    ensures answer { MeansNode IsHtml node image.now output.old output.new report.new result }
    ensures same_room { length output.new ≡ length output.old }
{
    put_made(node_html(alloc, image, node), output, report)
}

/// Writes the text of a node of an image to the front of room.
pub(crate) fn text_by(
    alloc: Global,
    image: &[u8],
    node: u32,
    output: &mut [u8],
    report: &mut FigReport,
) -> Answer
    ensures answer { MeansNode IsTextContent node image.now output.old output.new report.new result }
    ensures same_room { length output.new ≡ length output.old }
{
    put_made(node_text(alloc, image, node), output, report)
}
