//! The tree of a page as an image, and behind it the places of its nodes in the text of the page.
ghost use Rattle.std.specs.Prelude.{◌≡◌, ◌++◌, IfErr, IfOk, OnOk, length};
ghost use Rattle.html_tree_image.specs.Image.{image_of, word};
ghost use Rattle.html_ffi.specs.Answers.{FailsAsTree, FailsOver};
ghost use Rattle.html_ffi.specs.Calls.{IsReportOf};
ghost use Rattle.html_ffi.specs.Trees.{IsNotedBy, IsPlacedImage, MeansPlacedTree, place_words};

use crate::answer::{Answer, Failure, no_memory};
use crate::errors::noted_of;
use crate::report::FigReport;
use crate::room::put_made;
use crate::table::table_of;
use crate::tree::{image_bytes, report_of};
use html_normal::Report;
use html_pages::{NotedForest, Place};
use std::alloc::{AllocError, Global};

/// Puts the low 32 bits of a number behind bytes.
#[tactic(auto, unfolding(html_tree_image::specs::Image::word))]
fn push_word(bytes: &mut Vec<u8>, number: u64) -> Result<(), AllocError>
    ensures { OnOk result (bytes.new.items ≡ bytes.old.items ++ word number) }
{
    bytes.extend_from_slice(&number.to_le_bytes()[..4])
}

/// Puts the line and the column of each place behind bytes.
fn push_places(bytes: &mut Vec<u8>, places: &[Place]) -> Result<(), AllocError>
    ensures { OnOk result (bytes.new.items ≡ bytes.old.items ++ place_words places.now) }
{
    for place in places {
        push_word(bytes, place.line)?;
        push_word(bytes, place.column)?;
    }
    Ok(())
}

/// The image of a forest, and behind it the places of its nodes.
fn placed_bytes(alloc: Global, noted: &NotedForest) -> Result<Vec<u8>, Failure>
    ensures ok { IfOk result (λ bytes. bytes.items ≡ image_of noted.now.forest ++ place_words noted.now.places.items) }
    ensures err { IfErr result (λ failure. FailsOver noted.now.forest failure.answer failure.at) }
{
    let mut bytes = image_bytes(alloc, &noted.forest)?;
    match push_places(&mut bytes, noted.places.as_slice()) {
        Ok(()) => Ok(bytes),
        Err(_) => Err(no_memory()),
    }
}

/// The same with the report of the forest.
fn placed_and_report(alloc: Global, noted: &NotedForest) -> Result<(Vec<u8>, Report), Failure>
    ensures ok { IfOk result (λ made. made.0.items ≡ image_of noted.now.forest ++ place_words noted.now.places.items) }
    ensures report { IfOk result (λ made. IsReportOf noted.now.forest made.1) }
    ensures err { IfErr result (λ failure. FailsOver noted.now.forest failure.answer failure.at) }
{
    let bytes = placed_bytes(alloc, noted)?;
    let Ok(report) = report_of(&noted.forest) else {
        return Err(no_memory());
    };
    Ok((bytes, report))
}

/// The image of a page's document, and behind it the places of its nodes, with the report of the page.
fn placed_image(alloc: Global, file: &[u8], page: &[u8]) -> Result<(Vec<u8>, Report), Failure>
    ensures ok { IfOk result (λ made. IsPlacedImage file.now page.now made.0.items made.1) }
    ensures err { IfErr result (λ failure. FailsAsTree IsNotedBy file.now page.now failure.answer failure.at) }
{
    let table = table_of(alloc, file)?;
    let noted = noted_of(alloc, table, page)?;
    let made = placed_and_report(alloc, &noted)?;
    Ok(made)
}

/// Writes the image of a page's document, and behind it the places of its nodes, to the front of room.
pub(crate) fn placed_tree_by(
    alloc: Global,
    file: &[u8],
    page: &[u8],
    output: &mut [u8],
    report: &mut FigReport,
) -> Answer
    ensures answer { MeansPlacedTree file.now page.now output.old output.new report.new result }
    ensures same_room { length output.new ≡ length output.old }
{
    put_made(placed_image(alloc, file, page), output, report)
}
