//! The trees of a page as images: its document, and what it makes as a fragment.
ghost use Rattle.std.specs.Prelude.{◌≡◌, ℕ, List, IfErr, IfOk, length};
ghost use Rattle.std.specs.Str.{IsUtf8, IsValidUpTo, chars};
ghost use Rattle.html_pages.specs.Pages.{html_name};
ghost use Rattle.html_tree_image.specs.Image.{image_of};
ghost use Rattle.html_ffi.specs.Answers.{Fails, FailsAsTree, FailsOver};
ghost use Rattle.html_ffi.specs.Calls.{IsReportOf};
ghost use Rattle.html_ffi.specs.Trees.{FailsAsFragment, IsDocumentBy, IsFragmentIn, IsTreeImage, MeansFragmentTree, MeansTree};
ghost use Rattle.html_ffi.specs.declared.answer.Answer.TheVariants.{ContextNotUtf8, Memory};

use crate::answer::{Answer, Failure, no_memory};
use crate::page::{COUNTED, Page};
use crate::report::FigReport;
use crate::room::put_made;
use crate::table::table_of;
use html_forest::Forest;
use html_normal::{References, Report, read_document, read_fragment};
use html_tree_image::tree_image;
use markup::{KnownNamespace, LocalName, Namespace, ParseFault, QualName};
use std::alloc::Global;

/// The image of a forest.
pub(crate) fn image_bytes(alloc: Global, forest: &Forest) -> Result<Vec<u8>, Failure>
    ensures ok { IfOk result (λ bytes. bytes.items ≡ image_of forest.now) }
    ensures err { IfErr result (λ failure. FailsOver forest.now failure.answer failure.at) }
{
    match tree_image(alloc, forest) {
        Ok(bytes) => Ok(bytes),
        Err(fault) => Err(Failure::from(fault)),
    }
}

/// The report of a forest.
pub(crate) fn report_of(forest: &Forest) -> Result<Report, ParseFault>
    ensures { IfOk result (IsReportOf forest.now) }
{
    Ok(Report {
        plain: forest.is_plain()?,
        quirks: forest.quirks(),
        errors: forest.error_count(),
    })
}

/// The image of a forest, with the report of it.
fn image_and_report(alloc: Global, forest: &Forest) -> Result<(Vec<u8>, Report), Failure>
    ensures image { IfOk result (λ made. made.0.items ≡ image_of forest.now) }
    ensures report { IfOk result (λ made. IsReportOf forest.now made.1) }
    ensures err { IfErr result (λ failure. FailsOver forest.now failure.answer failure.at) }
{
    let bytes = image_bytes(alloc, forest)?;
    let Ok(report) = report_of(forest) else {
        return Err(no_memory());
    };
    Ok((bytes, report))
}

/// The document of a page.
fn document_of(alloc: Global, table: References, page: &[u8]) -> Result<Forest, Failure>
    ensures ok { IfOk result (IsDocumentBy table page.now) }
    ensures err { IfErr result (λ failure. (file : List ℕ) → Fails file page.now failure.answer failure.at) }
{
    match read_document(alloc, &mut Page::new(page), table, COUNTED) {
        Ok(forest) => Ok(forest),
        Err(fault) => Err(Failure::from(fault)),
    }
}

/// The image of a page's document, with the report of the page.
fn page_image(alloc: Global, file: &[u8], page: &[u8]) -> Result<(Vec<u8>, Report), Failure>
    ensures ok { IfOk result (λ made. IsTreeImage IsDocumentBy file.now page.now made.0.items made.1) }
    ensures err { IfErr result (λ failure. FailsAsTree IsDocumentBy file.now page.now failure.answer failure.at) }
{
    let table = table_of(alloc, file)?;
    let forest = document_of(alloc, table, page)?;
    let made = image_and_report(alloc, &forest)?;
    Ok(made)
}

/// Writes the image of a page's document to the front of room.
pub(crate) fn tree_by(
    alloc: Global,
    file: &[u8],
    page: &[u8],
    output: &mut [u8],
    report: &mut FigReport,
) -> Answer
    ensures answer { MeansTree file.now page.now output.old output.new report.new result }
    ensures same_room { length output.new ≡ length output.old }
{
    put_made(page_image(alloc, file, page), output, report)
}

/// The text of a context's name.
fn context_of(context: &[u8]) -> Result<&str, Failure>
    ensures ok { IfOk result (λ text. text.now ≡ context.now) }
    ensures utf8 { IfOk result (λ _. IsUtf8 context.now) }
    ensures answer { IfErr result (λ failure. failure.answer ≡ ContextNotUtf8) }
    ensures at { IfErr result (λ failure. IsValidUpTo context.now failure.at) }
{
    match str::from_utf8(context) {
        Ok(text) => Ok(text),
        Err(error) => Err(Failure {
            answer: Answer::ContextNotUtf8,
            at: error.valid_up_to() as u64,
        }),
    }
}

/// The name of an element of HTML.
fn element_name(alloc: Global, local: &str) -> Result<QualName, Failure>
    ensures ok { IfOk result (λ name. name ≡ html_name (chars local.now)) }
    ensures err { IfErr result (λ failure. failure ≡ record { answer = Memory; at = 0 }) }
{
    let Ok(local) = LocalName::from_str(alloc, local) else {
        return Err(no_memory());
    };
    Ok(QualName::new(None, Namespace::from_known(KnownNamespace::Html), local))
}

/// What a page makes in a new element of a name.
fn fragment_of(
    alloc: Global,
    table: References,
    context: &str,
    page: &[u8],
) -> Result<Forest, Failure>
    ensures ok { IfOk result (λ forest. IsUtf8 context.now → IsFragmentIn context.now table page.now forest) }
    ensures err { IfErr result (λ failure. (file : List ℕ) → Fails file page.now failure.answer failure.at) }
{
    let name = element_name(alloc, context)?;
    match read_fragment(alloc, &mut Page::new(page), table, COUNTED, name) {
        Ok(forest) => Ok(forest),
        Err(fault) => Err(Failure::from(fault)),
    }
}

/// The image of what a page makes in a new element of a name, with the report of it.
fn fragment_image(
    alloc: Global,
    file: &[u8],
    context: &[u8],
    page: &[u8],
) -> Result<(Vec<u8>, Report), Failure>
    ensures ok { IfOk result (λ made. IsTreeImage (IsFragmentIn context.now) file.now page.now made.0.items made.1) }
    ensures err { IfErr result (λ failure. FailsAsFragment context.now file.now page.now failure.answer failure.at) }
{
    let text = context_of(context)?;
    let table = table_of(alloc, file)?;
    let forest = fragment_of(alloc, table, text, page)?;
    let made = image_and_report(alloc, &forest)?;
    Ok(made)
}

/// Writes the image of what a page makes in a new element of a name to the front of room.
pub(crate) fn fragment_tree_by(
    alloc: Global,
    file: &[u8],
    context: &[u8],
    page: &[u8],
    output: &mut [u8],
    report: &mut FigReport,
) -> Answer
    ensures answer { MeansFragmentTree file.now context.now page.now output.old output.new report.new result }
    ensures same_room { length output.new ≡ length output.old }
{
    put_made(fragment_image(alloc, file, context, page), output, report)
}
