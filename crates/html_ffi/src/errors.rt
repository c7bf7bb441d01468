//! The parse errors of a page, a line for each.
ghost use Rattle.std.specs.Prelude.{◌≡◌, ◌++◌, ℕ, true, List, IfErr, IfOk, length};
ghost use Rattle.std.specs.Str.{chars};
ghost use Rattle.std.specs.String.{string_bytes};
ghost use Rattle.html_pages.specs.Pages.{IsPage};
ghost use Rattle.html_places.specs.Noted.{IsPlaced};
ghost use Rattle.html_ffi.specs.Answers.{Fails};
ghost use Rattle.html_ffi.specs.Calls.{IsReportOf, MeansText};
ghost use Rattle.html_ffi.specs.Errors.{IsErrorList, error_line, error_lines};
ghost use Rattle.html_ffi.specs.declared.answer.Answer.TheVariants.{Memory};

use crate::answer::{Answer, Failure, no_memory};
use crate::report::FigReport;
use crate::room::put_made;
use crate::table::table_of;
use crate::tree::report_of;
use html_normal::{References, Report};
use html_pages::{Noted, NotedForest, noted_document};
use std::alloc::{AllocError, Global};

/// Puts the line of an error behind a text.
fn push_line(alloc: Global, text: &mut String, error: &Noted) -> Result<(), AllocError>
    ensures { IfOk result (λ _. string_bytes text.new ≡ string_bytes text.old ++ error_line error.now) }
{
    let line = error.place.line;
    let message = error.message.as_str();
    let words = format!(in alloc; "{line}: {message}\n")?;
    text.push_str(words.as_str())
}

/// The lines of errors.
fn lines_of(alloc: Global, errors: &[Noted]) -> Result<String, Failure>
    ensures ok { IfOk result (λ text. string_bytes text ≡ error_lines errors.now) }
    ensures err { IfErr result (λ failure. failure ≡ record { answer = Memory; at = 0 }) }
{
    let mut text = String::new(alloc);
    for error in errors {
        push_line(alloc, &mut text, error)?;
    }
    Ok(text)
}

/// The text of a page.
fn text_of(alloc: Global, page: &[u8]) -> Result<String, Failure>
    ensures ok { IfOk result (λ text. string_bytes text ≡ page.now) }
    ensures err { IfErr result (λ failure. (file : List ℕ) → Fails file page.now failure.answer failure.at) }
{
    match str::from_utf8(page) {
        Ok(text) => Ok(String::from_str(alloc, text)?),
        Err(error) => Err(Failure {
            answer: Answer::NotUtf8,
            at: error.valid_up_to() as u64,
        }),
    }
}

/// The document of a page, with its errors and the places of its nodes.
pub(crate) fn noted_of(
    alloc: Global,
    table: References,
    page: &[u8],
) -> Result<NotedForest, Failure>
    ensures ok { IfOk result (λ noted. IsPage table true page.now noted.forest) }
    ensures places { IfOk result (IsPlaced (chars page.now)) }
    ensures all { IfOk result (λ noted. length noted.errors.items ≡ noted.forest.errors) }
    ensures err { IfErr result (λ failure. (file : List ℕ) → Fails file page.now failure.answer failure.at) }
{
    let text = text_of(alloc, page)?;
    match noted_document(alloc, table, text) {
        Ok(noted) => Ok(noted),
        Err(_) => Err(no_memory()),
    }
}

/// The lines of a document's errors, with the report of the document.
fn lines_and_report(alloc: Global, noted: &NotedForest) -> Result<(Vec<u8>, Report), Failure>
    ensures lines { IfOk result (λ made. made.0.items ≡ error_lines noted.now.errors.items) }
    ensures report { IfOk result (λ made. IsReportOf noted.now.forest made.1) }
    ensures err { IfErr result (λ failure. failure ≡ record { answer = Memory; at = 0 }) }
{
    let lines = lines_of(alloc, noted.errors.as_slice())?;
    let Ok(report) = report_of(&noted.forest) else {
        return Err(no_memory());
    };
    Ok((lines.into_bytes(), report))
}

/// The lines of a page's errors, with the report of the page.
fn page_errors(alloc: Global, file: &[u8], page: &[u8]) -> Result<(Vec<u8>, Report), Failure>
    ensures ok { IfOk result (λ made. IsErrorList file.now page.now made.0.items made.1) }
    ensures err { IfErr result (λ failure. Fails file.now page.now failure.answer failure.at) }
{
    let table = table_of(alloc, file)?;
    let noted = noted_of(alloc, table, page)?;
    let made = lines_and_report(alloc, &noted)?;
    Ok(made)
}

/// Writes the lines of a page's errors to the front of room.
pub(crate) fn errors_by(
    alloc: Global,
    file: &[u8],
    page: &[u8],
    output: &mut [u8],
    report: &mut FigReport,
) -> Answer
    ensures answer { MeansText IsErrorList file.now page.now output.old output.new report.new result }
    ensures same_room { length output.new ≡ length output.old }
{
    put_made(page_errors(alloc, file, page), output, report)
}
