//! What is made of pages.
ghost use Rattle.std.specs.Prelude.{◌≡◌, IfErr, IfOk, map};
ghost use Rattle.std.specs.String.{string_bytes};
ghost use Rattle.figpliers.specs.Puts.{told_by};
ghost use Rattle.figpliers_program.specs.Jobs.{AreNoSelectors, ArePagesDone, AreSelectorsIn, AreSelectorsOf, IsMadeOf, IsRefused};
ghost use Rattle.figpliers_program.specs.Jobs.{IsRun, ReportsNoMemory};
ghost use Rattle.figpliers_program.specs.Outcome.{AreDone, IsPageDone};
ghost use Rattle.figpliers_program.specs.Pages.{DocumentText};
ghost use Rattle.figpliers_program.specs.Printing.{PrintsSome};
ghost use Rattle.figpliers_program.specs.declared.faults.Verdict.TheVariants.{Fault, Nothing};

use crate::checking::check;
use crate::command::{Asked, DocumentJob, Job};
use crate::commands::{errors, fragment_tree, links, normal, select, text, tree, write_markdown};
use crate::faults::{PageFault, Verdict, report};
use crate::files::Files;
use crate::pages::{document_of, noted_of, read_page, text_of};
use figpliers::{
    DeviceFault, Forest, References, SelectorError, Selectors, Source, SyntaxFault, Target,
    parse_selectors, standard, write_whole,
};
use std::alloc::Global;

/// What is asked for, with what it takes for all pages.
#[derive(Drop)]
struct Work<'a> {
    asked: &'a Asked,
    table: &'a References,
    /// Those of the command `select`; of other commands none.
    selectors: &'a Selectors,
}

/// Does with the document of a page what is asked for; `selectors` are those of the command `select`.
fn run_document<W: Target>(
    alloc: Global,
    job: &DocumentJob,
    selectors: &Selectors,
    name: &str,
    has_several: bool,
    forest: &Forest,
    writer: &mut W,
) -> Result<Verdict, PageFault>
    requires { AreSelectorsOf job.now selectors.now }
    ensures { PrintsSome (DocumentText job.now has_several name.now forest.now) (told_by W.written W.failures writer.old) result
        (told_by W.written W.failures writer.new) }
{
    match job {
        DocumentJob::Tree => tree(alloc, forest, writer),
        DocumentJob::Links { listing } => {
            links(alloc, forest, listing, name, has_several, writer)
        }
        DocumentJob::Markdown => write_markdown(alloc, forest, writer),
        DocumentJob::Text => text(alloc, forest, writer),
        DocumentJob::Check => check(alloc, forest, name, writer),
        DocumentJob::Normal => normal(alloc, forest, writer),
        DocumentJob::Select { show, .. } => select(
            alloc,
            forest,
            selectors,
            show,
            name,
            has_several,
            writer,
        ),
    }
}

/// Does with a page what is asked for.
fn run_job<W: Target>(
    alloc: Global,
    work: &Work<'_>,
    name: &str,
    bytes: Vec<u8>,
    writer: &mut W,
) -> Result<Verdict, PageFault>
    requires { AreSelectorsIn work.now.asked.now.job work.now.selectors.now }
    ensures { IsMadeOf work.now.table.now work.now.asked.now name.now bytes.items
        (told_by W.written W.failures writer.old) result (told_by W.written W.failures writer.new) }
{
    let Ok(table) = work.table.copy(alloc) else {
        return Err(PageFault::Memory);
    };
    let reading = &work.asked.reading;
    match &work.asked.job {
        Job::OfErrors => {
            let noted = noted_of(alloc, table, reading, bytes)?;
            errors(alloc, name, &noted, writer)
        }
        Job::OfFragment { element } => {
            let page = text_of(alloc, &table, reading, bytes)?;
            fragment_tree(alloc, table, element.as_str(), page, writer)
        }
        Job::OfDocument(job) => {
            let forest = document_of(alloc, table, reading, bytes)?;
            let has_several = work.asked.files.len() > 1;
            run_document(
                alloc,
                job,
                work.selectors,
                name,
                has_several,
                &forest,
                writer,
            )
        }
    }
}

/// Does with the page of that name what is asked for.
fn run_page<File: Source + Drop, Opens: Files<File>, Input: Source, Output: Target, Errors: Target>(
    alloc: Global,
    work: &Work<'_>,
    name: &str,
    opener: &Opens,
    input: &mut Input,
    output: &mut Output,
    errors: &mut Errors,
) -> Verdict
    requires { AreSelectorsIn work.now.asked.now.job work.now.selectors.now }
    ensures { IsPageDone (Opens.files opener.now) (IsMadeOf work.now.table.now work.now.asked.now) name.now
        (Input.left input.old) (Input.left input.new) (told_by Output.written Output.failures output.old)
        (told_by Output.written Output.failures output.new) (Errors.written errors.old) (Errors.written errors.new) result }
{
    let bytes = match read_page(alloc, opener, input, name) {
        Ok(bytes) => bytes,
        Err(fault) => return report(errors, name, fault),
    };
    match run_job(alloc, work, name, bytes, output) {
        Ok(verdict) => verdict,
        Err(fault) => report(errors, name, fault),
    }
}

/// Does with the page of each file what is asked for; a page that is not read does not keep the others from it, and a failed
/// write does.
fn run_files<
    File: Source + Drop,
    Opens: Files<File>,
    Input: Source,
    Output: Target,
    Errors: Target,
>(
    alloc: Global,
    work: &Work<'_>,
    opener: &Opens,
    input: &mut Input,
    output: &mut Output,
    errors: &mut Errors,
) -> Verdict
    requires { AreSelectorsIn work.now.asked.now.job work.now.selectors.now }
    ensures { AreDone (Opens.files opener.now) (IsMadeOf work.now.table.now work.now.asked.now)
        (map string_bytes work.now.asked.now.files.items) Nothing
        (Input.left input.old) (Input.left input.new) (told_by Output.written Output.failures output.old)
        (told_by Output.written Output.failures output.new) (Errors.written errors.old) (Errors.written errors.new) result }
{
    let mut verdict = Verdict::Nothing;
    for name in &work.asked.files {
        let page = run_page(alloc, work, name.as_str(), opener, input, output, errors);
        verdict = verdict.and(page);
        if let Verdict::Unwritten = verdict {
            return Verdict::Unwritten;
        }
    }
    verdict
}

/// Does with each page what is asked for.
fn run_all<File: Source + Drop, Opens: Files<File>, Input: Source, Output: Target, Errors: Target>(
    alloc: Global,
    work: &Work<'_>,
    opener: &Opens,
    input: &mut Input,
    output: &mut Output,
    errors: &mut Errors,
) -> Verdict
    requires { AreSelectorsIn work.now.asked.now.job work.now.selectors.now }
    ensures { ArePagesDone (Opens.files opener.now) (IsMadeOf work.now.table.now work.now.asked.now)
        (map string_bytes work.now.asked.now.files.items)
        (Input.left input.old) (Input.left input.new) (told_by Output.written Output.failures output.old)
        (told_by Output.written Output.failures output.new) (Errors.written errors.old) (Errors.written errors.new) result }
{
    if work.asked.files.is_empty() {
        return run_page(alloc, work, "-", opener, input, output, errors);
    }
    run_files(alloc, work, opener, input, output, errors)
}

/// Writes what is wrong with a selector, with a mark under the place.
fn put_syntax_fault<Errors: Target>(
    alloc: Global,
    errors: &mut Errors,
    selector: &str,
    fault: SyntaxFault,
    at: usize,
) -> Result<(), DeviceFault> {
    let Ok(words) = format!(in alloc; "figpliers: {fault}\n    {selector}\n    ") else {
        return write_whole(errors, b"figpliers: no memory was left\n");
    };
    write_whole(errors, words.as_bytes())?;
    for _ in 0..at {
        write_whole(errors, b" ")?;
    }
    write_whole(errors, b"^\n")
}

/// Writes why a text is no selectors.
fn report_text<Errors: Target>(
    alloc: Global,
    errors: &mut Errors,
    selector: &str,
    error: SelectorError,
) -> Verdict
    ensures verdict { result ≡ Fault }
    ensures line { error ≡ SelectorError.Memory → ReportsNoMemory (Errors.written errors.old) (Errors.written errors.new) }
{
    match error {
        SelectorError::Syntax { fault, at } => {
            let _ = put_syntax_fault(alloc, errors, selector, fault, at);
            Verdict::Fault
        }
        SelectorError::Memory => report(errors, "figpliers", PageFault::Memory),
    }
}

/// Writes why there are no selectors.
fn report_selector<Errors: Target>(
    alloc: Global,
    errors: &mut Errors,
    job: &Job,
    error: SelectorError,
) -> Verdict
    requires { AreNoSelectors job.now error }
    ensures verdict { result ≡ Fault }
    ensures refused { IsRefused job.now (Errors.written errors.old) (Errors.written errors.new) }
{
    match job {
        Job::OfDocument(DocumentJob::Select { selector, .. }) => {
            report_text(alloc, errors, selector.as_str(), error)
        }
        _ => report(errors, "figpliers", PageFault::Memory),
    }
}

/// The selectors that are asked for; none, where another command was named.
fn selectors_of(alloc: Global, job: &Job) -> Result<Selectors, SelectorError>
    ensures ok { IfOk result (AreSelectorsIn job.now) }
    ensures err { IfErr result (AreNoSelectors job.now) }
{
    match job {
        Job::OfDocument(DocumentJob::Select { selector, .. }) => {
            parse_selectors(alloc, selector.as_str())
        }
        _ => Ok(Selectors::Nothing),
    }
}

/// Does what is asked for.
pub fn run<File: Source + Drop, Opens: Files<File>, Input: Source, Output: Target, Errors: Target>(
    alloc: Global,
    asked: &Asked,
    opener: &Opens,
    input: &mut Input,
    output: &mut Output,
    errors: &mut Errors,
) -> Verdict
    ensures { IsRun (Opens.files opener.now) asked.now (Input.left input.old) (Input.left input.new)
        (told_by Output.written Output.failures output.old) (told_by Output.written Output.failures output.new)
        (Errors.written errors.old) (Errors.written errors.new) result }
{
    let selectors = match selectors_of(alloc, &asked.job) {
        Ok(selectors) => selectors,
        Err(error) => return report_selector(alloc, errors, &asked.job, error),
    };
    let Ok(table) = standard(alloc) else {
        return report(errors, "figpliers", PageFault::Memory);
    };
    let work = Work {
        asked,
        table: &table,
        selectors: &selectors,
    };
    run_all(alloc, &work, opener, input, output, errors)
}
