//! What is written of a text by one call: normal text, cleaned text, and the answers about a table and about a content.

use crate::lines::{text_of, yes_or_no};
use crate::settings::references;
use crate::trees::quirks_word;
use devices::{MemReader, VecWriter};
use html_clean::Policy;
use html_clean_document::{clean, clean_fragment};
use html_input::read_table;
use html_names::extract_a_character_encoding_from_a_meta_element;
use html_normal::{Exact, NormalFault, ProgramFault, Report, normalise};
use markup::ParseFault;
use row_format::{Heading, How, Row};
use std::alloc::{AllocError, Global};

/// A reader of a row's text, which reads so many bytes at once; the whole for 0.
fn reader(alloc: Global, row: &Row, piece: usize) -> Result<MemReader, AllocError> {
    let data = row.data(alloc)?;
    let bytes = Vec::from_slice(alloc, data.as_str().as_bytes())?;
    let count = if piece == 0 { 4_096 } else { piece };
    Ok(MemReader::new(bytes, count, None))
}

fn exactly(exact: bool) -> Exact {
    Exact {
        tokenizer: exact,
        tree_builder: exact,
    }
}

/// The report on a document. It has no number of errors, since that number differs where errors are exact.
fn report_words(alloc: Global, report: &Report) -> Result<String, AllocError> {
    let plain = yes_or_no(report.plain);
    let quirks = quirks_word(report.quirks);
    let errors = yes_or_no(report.errors > 0);
    format!(in alloc; "plain={plain} quirks={quirks} errors={errors}")
}

/// What `normalise` writes of a row, or what it reports.
fn normal(alloc: Global, row: &Row, heading: Heading, how: How) -> Result<String, ParseFault> {
    let mut reader = reader(alloc, row, how.piece)?;
    let mut writer = VecWriter::new(alloc);
    let table = references(alloc, row)?;
    let answer = normalise(alloc, &mut reader, &mut writer, table, exactly(how.exact));
    let Ok(report) = answer else {
        return Err(ParseFault::Shape);
    };
    if heading == Heading::Report {
        return Ok(report_words(alloc, &report)?);
    }
    text_of(alloc, writer.written())
}

/// What a policy leaves of a row, as a document or as a fragment.
pub fn cleaned_by(
    alloc: Global,
    row: &Row,
    is_document: bool,
    how: How,
    policy: &Policy,
) -> Result<String, ParseFault> {
    let mut reader = reader(alloc, row, how.piece)?;
    let mut writer = VecWriter::new(alloc);
    let table = references(alloc, row)?;
    let exact = exactly(how.exact);
    let answer = if is_document {
        clean(alloc, &mut reader, &mut writer, table, exact, policy)
    } else {
        clean_fragment(alloc, &mut reader, &mut writer, table, exact, policy)
    };
    if answer.is_err() {
        return Err(ParseFault::Shape);
    }
    text_of(alloc, writer.written())
}

/// What the policy for text and links leaves of a row, as a document or as a fragment.
fn cleaned(alloc: Global, row: &Row, heading: Heading, how: How) -> Result<String, ParseFault> {
    let policy = Policy::text_and_links(alloc)?;
    cleaned_by(
        alloc,
        row,
        heading == Heading::CleanedDocument,
        how,
        &policy,
    )
}

/// The encoding that the content of a `meta` element names.
fn encoding(alloc: Global, row: &Row) -> Result<String, ParseFault> {
    let data = row.data(alloc)?;
    let named = extract_a_character_encoding_from_a_meta_element(data.as_str());
    Ok(String::from_str(alloc, named.unwrap_or("none"))?)
}

/// The status of a fault, and its words.
fn fault_words(alloc: Global, fault: ProgramFault) -> Result<String, AllocError> {
    let status = fault.status();
    format!(in alloc; "{status} {fault}")
}

/// The same of a table of references; that there is none.
fn table_words(alloc: Global, reader: &mut MemReader) -> Result<String, AllocError> {
    match read_table(alloc, reader) {
        Ok(_) => String::from_str(alloc, "none"),
        Err(fault) => fault_words(alloc, ProgramFault::from(fault)),
    }
}

/// Why a table of references is none.
fn fault(alloc: Global, row: &Row, how: How) -> Result<String, ParseFault> {
    let mut reader = reader(alloc, row, how.piece)?;
    Ok(table_words(alloc, &mut reader)?)
}

/// What is seen of a row, under a heading.
pub fn seen(alloc: Global, row: &Row, heading: Heading, how: How) -> Result<String, ParseFault> {
    match heading {
        Heading::Normal | Heading::Report => normal(alloc, row, heading, how),
        Heading::Cleaned | Heading::CleanedDocument => cleaned(alloc, row, heading, how),
        Heading::Encoding => encoding(alloc, row),
        _ => fault(alloc, row, how),
    }
}
