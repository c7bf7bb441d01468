//! What a policy keeps of a page.
ghost use Rattle.std.specs.Prelude.{◌≡◌, ℕ, List, [], Some, IfErr, IfOk, length};
ghost use Rattle.html_clean.specs.Checks.{never_kept, never_kept_in_fragment};
ghost use Rattle.html_clean.specs.Ready.{IsTextAndLinks};
ghost use Rattle.html_clean_document.specs.Clean.{IsCleaned, IsDocumentOf, IsFragmentOf, div_name};
ghost use Rattle.html_ffi.specs.Answers.{Fails};
ghost use Rattle.html_ffi.specs.Calls.{IsCleanDocument, IsCleanFragment, MeansCleaned};
ghost use Rattle.html_ffi.specs.Policies.{FailsToClean, IsDocumentKeptBy, IsFragmentKeptBy, MeansDocumentBy, MeansFragmentBy};

use crate::answer::{Answer, Failure, no_memory};
use crate::page::{COUNTED, Page};
use crate::policy::{policy_for_documents, policy_for_fragments};
use crate::report::FigCleaned;
use crate::room::put_kept;
use crate::table::table_of;
use devices::VecWriter;
use html_clean::{Cleaned, Policy};
use html_clean_document::{clean, clean_fragment};
use html_normal::References;
use std::alloc::Global;

/// A cleaned text, and what was taken away.
type Made = Result<(VecWriter, Cleaned), Failure>;

/// The ready policy.
fn ready_policy(alloc: Global) -> Result<Policy, Failure>
    ensures ok { IfOk result IsTextAndLinks }
    ensures err { IfErr result (λ failure. (file page : List ℕ) → Fails file page failure.answer failure.at) }
{
    match Policy::text_and_links(alloc) {
        Ok(policy) => Ok(policy),
        Err(_) => Err(no_memory()),
    }
}

/// What a policy keeps of a page as a document.
fn kept_of_document(alloc: Global, table: References, page: &[u8], policy: &Policy) -> Made
    ensures ok { IfOk result (λ made. IsCleaned (IsDocumentOf table) policy.now page.now (Some []) (Some []) (Some made.0.written) made.1) }
    ensures err { IfErr result (λ failure. (file : List ℕ) → Fails file page.now failure.answer failure.at) }
{
    let mut writer = VecWriter::new(alloc);
    match clean(
        alloc,
        &mut Page::new(page),
        &mut writer,
        table,
        COUNTED,
        policy,
    ) {
        Ok(counts) => Ok((writer, counts)),
        Err(fault) => Err(Failure::from(fault)),
    }
}

/// What the ready policy keeps of a page as a document.
fn clean_document_text(alloc: Global, file: &[u8], page: &[u8]) -> Made
    ensures ok { IfOk result (λ made. IsCleanDocument file.now page.now made.0.written made.1) }
    ensures err { IfErr result (λ failure. Fails file.now page.now failure.answer failure.at) }
{
    let table = table_of(alloc, file)?;
    let policy = ready_policy(alloc)?;
    let made = kept_of_document(alloc, table, page, &policy)?;
    Ok(made)
}

/// What a policy keeps of a page as a fragment in a `div`.
fn kept_of_fragment(alloc: Global, table: References, page: &[u8], policy: &Policy) -> Made
    ensures ok { IfOk result (λ made. IsCleaned (IsFragmentOf table div_name) policy.now page.now (Some [])
        (Some []) (Some made.0.written) made.1) }
    ensures err { IfErr result (λ failure. (file : List ℕ) → Fails file page.now failure.answer failure.at) }
{
    let mut writer = VecWriter::new(alloc);
    match clean_fragment(
        alloc,
        &mut Page::new(page),
        &mut writer,
        table,
        COUNTED,
        policy,
    ) {
        Ok(counts) => Ok((writer, counts)),
        Err(fault) => Err(Failure::from(fault)),
    }
}

/// What the ready policy keeps of a page as a fragment in a `div`.
fn clean_fragment_text(alloc: Global, file: &[u8], page: &[u8]) -> Made
    ensures ok { IfOk result (λ made. IsCleanFragment file.now page.now made.0.written made.1) }
    ensures err { IfErr result (λ failure. Fails file.now page.now failure.answer failure.at) }
{
    let table = table_of(alloc, file)?;
    let policy = ready_policy(alloc)?;
    let made = kept_of_fragment(alloc, table, page, &policy)?;
    Ok(made)
}

/// Writes what the ready policy keeps of a page as a document to the front of room.
pub(crate) fn clean_document_by(
    alloc: Global,
    file: &[u8],
    page: &[u8],
    output: &mut [u8],
    report: &mut FigCleaned,
) -> Answer
    ensures answer { MeansCleaned IsCleanDocument file.now page.now output.old output.new report.new result }
    ensures same_room { length output.new ≡ length output.old }
{
    put_kept(clean_document_text(alloc, file, page), output, report)
}

/// Writes what the ready policy keeps of a page as a fragment in a `div` to the front of room.
pub(crate) fn clean_fragment_by(
    alloc: Global,
    file: &[u8],
    page: &[u8],
    output: &mut [u8],
    report: &mut FigCleaned,
) -> Answer
    ensures answer { MeansCleaned IsCleanFragment file.now page.now output.old output.new report.new result }
    ensures same_room { length output.new ≡ length output.old }
{
    put_kept(clean_fragment_text(alloc, file, page), output, report)
}

/// What a policy's text keeps of a page as a document.
fn document_kept_by(alloc: Global, file: &[u8], policy: &[u8], page: &[u8]) -> Made
    ensures ok { IfOk result (λ made. IsDocumentKeptBy policy.now file.now page.now made.0.written made.1) }
    ensures err { IfErr result (λ failure. FailsToClean never_kept file.now policy.now page.now failure.answer failure.at) }
{
    let policy = policy_for_documents(alloc, policy)?;
    let table = table_of(alloc, file)?;
    let made = kept_of_document(alloc, table, page, &policy)?;
    Ok(made)
}

/// What a policy's text keeps of a page as a fragment in a `div`.
fn fragment_kept_by(alloc: Global, file: &[u8], policy: &[u8], page: &[u8]) -> Made
    ensures ok { IfOk result (λ made. IsFragmentKeptBy policy.now file.now page.now made.0.written made.1) }
    ensures err { IfErr result (λ failure. FailsToClean never_kept_in_fragment file.now policy.now page.now failure.answer failure.at) }
{
    let policy = policy_for_fragments(alloc, policy)?;
    let table = table_of(alloc, file)?;
    let made = kept_of_fragment(alloc, table, page, &policy)?;
    Ok(made)
}

/// Writes what a policy's text keeps of a page as a document to the front of room.
pub(crate) fn clean_document_with(
    alloc: Global,
    file: &[u8],
    policy: &[u8],
    page: &[u8],
    output: &mut [u8],
    report: &mut FigCleaned,
) -> Answer
    ensures answer { MeansDocumentBy file.now policy.now page.now output.old output.new report.new result }
    ensures same_room { length output.new ≡ length output.old }
{
    put_kept(document_kept_by(alloc, file, policy, page), output, report)
}

/// Writes what a policy's text keeps of a page as a fragment in a `div` to the front of room.
pub(crate) fn clean_fragment_with(
    alloc: Global,
    file: &[u8],
    policy: &[u8],
    page: &[u8],
    output: &mut [u8],
    report: &mut FigCleaned,
) -> Answer
    ensures answer { MeansFragmentBy file.now policy.now page.now output.old output.new report.new result }
    ensures same_room { length output.new ≡ length output.old }
{
    put_kept(fragment_kept_by(alloc, file, policy, page), output, report)
}
