//! What selectors select below a node of a tree's image.
ghost use Rattle.std.specs.Prelude.{◌≡◌, ℕ, List, IfErr, IfOk, length};
ghost use Rattle.std.specs.Str.{IsUtf8};
ghost use Rattle.html_ffi.specs.Images.{FailsToSelect, IsSelected, IsSelection, MeansSelection};

use crate::answer::{Answer, Failure};
use crate::image::find_node;
use crate::report::FigReport;
use crate::room::put_made;
use html_forest::{Forest, NodeId};
use html_normal::Report;
use html_select::select;
use html_tree_image::node_words;
use std::alloc::Global;

/// The text of selectors.
fn text_of(selector: &[u8]) -> Result<&str, Failure>
    ensures ok { IfOk result (λ text. text.now ≡ selector.now) }
    ensures utf8 { IfOk result (λ _. IsUtf8 selector.now) }
    ensures err { IfErr result (λ failure. (image : List ℕ) (node : ℕ)
        → FailsToSelect selector.now image node failure.answer failure.at) }
{
    match str::from_utf8(selector) {
        Ok(text) => Ok(text),
        Err(error) => Err(Failure {
            answer: Answer::SelectorNotUtf8,
            at: error.valid_up_to() as u64,
        }),
    }
}

/// The numbers of the nodes below a node that selectors select.
fn selected(alloc: Global, forest: &Forest, top: NodeId, text: &str) -> Result<Vec<u8>, Failure>
    ensures ok { IfOk result (λ bytes. IsSelected text.now forest.now top bytes.items) }
    ensures err { IfErr result (λ failure. (image : List ℕ) (node : ℕ) → FailsToSelect text.now image node failure.answer failure.at) }
{
    let found = match select(alloc, forest, top, text) {
        Ok(found) => found,
        Err(error) => return Err(Failure::from(error)),
    };
    Ok(node_words(alloc, found.as_slice())?)
}

/// The numbers of what selectors select below a node of an image, with the report of the image.
fn node_selection(
    alloc: Global,
    selector: &[u8],
    image: &[u8],
    node: u32,
) -> Result<(Vec<u8>, Report), Failure>
    ensures ok { IfOk result (λ made. IsSelection selector.now node image.now made.0.items made.1) }
    ensures err { IfErr result (λ failure. FailsToSelect selector.now image.now node failure.answer failure.at) }
{
    let text = text_of(selector)?;
    let found = find_node(alloc, image, node)?;
    let bytes = selected(alloc, &found.forest, found.id, text)?;
    Ok((bytes, found.report))
}

/// Writes the numbers of what selectors select below a node of an image to the front of room.
pub(crate) fn select_by(
    alloc: Global,
    selector: &[u8],
    image: &[u8],
    node: u32,
    output: &mut [u8],
    report: &mut FigReport,
) -> Answer
    ensures answer { MeansSelection selector.now image.now node output.old output.new report.new result }
    ensures same_room { length output.new ≡ length output.old }
{
    put_made(node_selection(alloc, selector, image, node), output, report)
}
