//! From pages to what the policy keeps of them.
ghost use Rattle.std.specs.Prelude.{◌≡◌, ℕ, List, Some, IfErr, IfOk, OnOk, map};
ghost use Rattle.std.specs.String.{string_bytes};
ghost use Rattle.html_clean_document.specs.Clean.{IsCleaned, IsFailed};
ghost use Rattle.html_normal_program.specs.Program.{IsTable, named};
ghost use Rattle.html_clean_program.specs.Lines.{IsPageReported};
ghost use Rattle.html_clean_program.specs.Program.{AreDone, AreEnded, ArePagesDone, ArePagesEnded};
ghost use Rattle.html_clean_program.specs.Program.{IsFileDone, IsFileFailed, IsOutcome, IsPageDone, IsPageOf, LacksTable};
ghost use Rattle.html_clean_program.specs.Program.{table_fault_of};

use crate::fault::CleanFault;
use crate::policies::policy_for;
use crate::telling::{report_page, tell_counts};
use crate::words::{Asked, read_words};
use devices::{Source, Target};
use html_clean::{Cleaned, Policy};
use html_clean_document::{clean, clean_fragment};
use html_normal::{Exact, NormalFault, ProgramFault, References};
use html_normal_program::{Opener, table_named};
use std::alloc::Global;

/// How pages are cleaned.
#[derive(Drop)]
struct Plan {
    /// Whether they are whole documents.
    is_document: bool,
    /// What is kept of them.
    policy: Policy,
    /// The table of references.
    table: References,
}

/// Cleans what a reader has.
fn clean_page<R: Source, Output: Target>(
    alloc: Global,
    plan: &Plan,
    reader: &mut R,
    output: &mut Output,
) -> Result<Cleaned, NormalFault>
    ensures ok { IfOk result (λ counts. (whole : List ℕ) → R.left reader.old ≡ Some whole
        → IsCleaned (IsPageOf plan.now.is_document plan.now.table) plan.now.policy whole (R.left reader.new)
        (Output.written output.old) (Output.written output.new) counts) }
    ensures err { IfErr result (IsFailed (IsPageOf plan.now.is_document plan.now.table) plan.now.policy (R.left reader.old)
        (R.left reader.new) (Output.written output.old) (Output.written output.new)) }
{
    let Ok(table) = plan.table.copy(alloc) else {
        return Err(NormalFault::Memory);
    };
    if plan.is_document {
        return clean(alloc, reader, output, table, Exact::default(), &plan.policy);
    }
    clean_fragment(alloc, reader, output, table, Exact::default(), &plan.policy)
}

/// Cleans the page of that name, which a reader has, and writes to standard error how much was taken away of it, or why it was not cleaned.
fn clean_one<R: Source, Output: Target, Errors: Target>(
    alloc: Global,
    plan: &Plan,
    name: &str,
    reader: &mut R,
    output: &mut Output,
    errors: &mut Errors,
) -> Result<(), NormalFault>
    ensures ok { OnOk result (IsPageDone (IsPageOf plan.now.is_document plan.now.table) plan.now.policy name.now (R.left reader.old)
        (R.left reader.new) (Output.written output.old) (Output.written output.new) (Errors.written errors.old)
        (Errors.written errors.new)) }
    ensures err { IfErr result (IsFailed (IsPageOf plan.now.is_document plan.now.table) plan.now.policy (R.left reader.old)
        (R.left reader.new) (Output.written output.old) (Output.written output.new)) }
    ensures told { IfErr result (λ fault. IsPageReported name.now fault (Errors.written errors.old) (Errors.written errors.new)) }
{
    match clean_page(alloc, plan, reader, output) {
        Ok(counts) => {
            tell_counts(errors, name, counts);
            Ok(())
        }
        Err(fault) => {
            report_page(errors, name, fault);
            Err(fault)
        }
    }
}

/// Cleans the page of a file.
fn clean_file<File: Source + Drop, Opens: Opener<File>, Output: Target, Errors: Target>(
    alloc: Global,
    plan: &Plan,
    opener: &Opens,
    name: &str,
    output: &mut Output,
    errors: &mut Errors,
) -> Result<(), NormalFault>
    ensures ok { OnOk result (IsFileDone (Opens.files opener.now) (IsPageOf plan.now.is_document plan.now.table) plan.now.policy name.now
        (Output.written output.old) (Output.written output.new) (Errors.written errors.old) (Errors.written errors.new)) }
    ensures err { IfErr result (IsFileFailed (Opens.files opener.now) (IsPageOf plan.now.is_document plan.now.table) plan.now.policy
        name.now (Output.written output.old) (Output.written output.new) (Errors.written errors.old) (Errors.written errors.new)) }
{
    match opener.open(name) {
        Some(mut file) => clean_one(alloc, plan, name, &mut file, output, errors),
        None => {
            report_page(errors, name, NormalFault::Read);
            Err(NormalFault::Read)
        }
    }
}

/// Cleans the page of each file.
fn clean_files<File: Source + Drop, Opens: Opener<File>, Output: Target, Errors: Target>(
    alloc: Global,
    plan: &Plan,
    asked: &Asked<'_>,
    opener: &Opens,
    output: &mut Output,
    errors: &mut Errors,
) -> Result<(), NormalFault>
    ensures ok { OnOk result (AreDone (Opens.files opener.now) (IsPageOf plan.now.is_document plan.now.table) plan.now.policy
        (map (λ name. name.now) asked.now.files.items)
        (Output.written output.old) (Output.written output.new) (Errors.written errors.old) (Errors.written errors.new)) }
    ensures err { IfErr result (AreEnded (Opens.files opener.now) (IsPageOf plan.now.is_document plan.now.table) plan.now.policy
        (map (λ name. name.now) asked.now.files.items)
        (Output.written output.old) (Output.written output.new) (Errors.written errors.old) (Errors.written errors.new)) }
{
    for name in &asked.files {
        clean_file(alloc, plan, opener, name, output, errors)?;
    }
    Ok(())
}

/// Cleans the pages that are asked for.
fn clean_asked<
    File: Source + Drop,
    Opens: Opener<File>,
    Input: Source,
    Output: Target,
    Errors: Target,
>(
    alloc: Global,
    plan: &Plan,
    asked: &Asked<'_>,
    opener: &Opens,
    input: &mut Input,
    output: &mut Output,
    errors: &mut Errors,
) -> Result<(), NormalFault>
    ensures ok { OnOk result (ArePagesDone (Opens.files opener.now) (IsPageOf plan.now.is_document plan.now.table) plan.now.policy
        (map (λ name. name.now) asked.now.files.items) (Input.left input.old) (Input.left input.new)
        (Output.written output.old) (Output.written output.new) (Errors.written errors.old) (Errors.written errors.new)) }
    ensures err { IfErr result (ArePagesEnded (Opens.files opener.now) (IsPageOf plan.now.is_document plan.now.table) plan.now.policy
        (map (λ name. name.now) asked.now.files.items) (Input.left input.old) (Input.left input.new)
        (Output.written output.old) (Output.written output.new) (Errors.written errors.old) (Errors.written errors.new)) }
{
    if asked.files.is_empty() {
        return clean_one(alloc, plan, "-", input, output, errors);
    }
    clean_files(alloc, plan, asked, opener, output, errors)
}

/// Why there is no table of references: the file has none, or else out of memory.
fn table_fault(fault: ProgramFault) -> CleanFault
    ensures { result ≡ table_fault_of fault }
{
    match fault {
        ProgramFault::Table(fault) => CleanFault::Table(fault),
        ProgramFault::Usage | ProgramFault::Normal(_) => CleanFault::Normal(NormalFault::Memory),
    }
}

/// The table of references in the file of that name, or where no file is named the five names that a written text needs.
fn table_for<File: Source + Drop, Opens: Opener<File>>(
    alloc: Global,
    opener: &Opens,
    name: Option<&str>,
) -> Result<References, CleanFault>
    ensures ok { IfOk result (IsTable (Opens.files opener.now) (named name.entry)) }
    ensures err { IfErr result (LacksTable (Opens.files opener.now) (named name.entry)) }
{
    match table_named(alloc, opener, name) {
        Ok(table) => Ok(table),
        Err(fault) => Err(table_fault(fault)),
    }
}

/// Cleans the files that the words after the command ask for, or else standard input, and writes to standard output what the policy keeps,
/// and to standard error a line for each page: its name, and how many elements, attributes and comments were taken away of it. To open the
/// file that the words may name for the output ([`output_of`]) is the caller's.
///
/// Errors: [`CleanFault::Usage`] where the words ask for nothing that can be done, [`CleanFault::Policy`], [`CleanFault::NeverKept`] and
/// [`CleanFault::Table`], each before any page is read; [`CleanFault::Page`] of the first page that is not read or not written, after
/// which no other is, and which is reported on standard error.
///
/// [`output_of`]: crate::output_of
pub fn clean_pages<
    File: Source + Drop,
    Opens: Opener<File>,
    Input: Source,
    Output: Target,
    Errors: Target,
>(
    alloc: Global,
    words: &[String],
    opener: &Opens,
    input: &mut Input,
    output: &mut Output,
    errors: &mut Errors,
) -> Result<(), CleanFault>
    ensures { IsOutcome (Opens.files opener.now) (map string_bytes words.now) (Input.left input.old) (Input.left input.new)
        (Output.written output.old) (Output.written output.new) (Errors.written errors.old) (Errors.written errors.new) result }
{
    let asked = read_words(alloc, words)?;
    let policy = policy_for(alloc, opener, &asked)?;
    let table = table_for(alloc, opener, asked.table)?;
    let plan = Plan {
        is_document: asked.is_document,
        policy,
        table,
    };
    Ok(clean_asked(alloc, &plan, &asked, opener, input, output, errors)?)
}
