//! The line on standard error, and the status.
ghost use Rattle.std.specs.Prelude.{◌≡◌, ◌++◌, Bool, codes, is_err};
ghost use Rattle.std.specs.Fmt.{decimal};
ghost use Rattle.devices.specs.Devices.{count_after};
ghost use Rattle.html_normal.specs.Lines.{fault_line, plain_word, program_line, quirks_word, report_line, table_line};
ghost use Rattle.html_normal_program.specs.Program.{line_of, status_of_outcome, words_of};
ghost use Rattle.html_normal_program.specs.Streams.{IsPut};

use devices::{DeviceFault, Target, write_whole};
use html_normal::{NormalFault, ProgramFault, Report, TableFault, TableFileFault};
use itoa::Buffer;
use markup::QuirksMode;

/// Writes words.
pub fn put<Errors: Target>(errors: &mut Errors, words: &str) -> Result<(), DeviceFault>
    ensures put { IsPut words.now (Errors.written errors.old) (Errors.written errors.new) (is_err result) }
    ensures counted { Errors.failures errors.new ≡ count_after (is_err result) (Errors.failures errors.old) }
{
    write_whole(errors, words.as_bytes())
}

/// Writes words, and a number after them.
pub fn put_numbered<Errors: Target>(
    errors: &mut Errors,
    words: &str,
    number: u64,
) -> Result<(), DeviceFault>
    ensures put { IsPut (words.now ++ decimal number) (Errors.written errors.old) (Errors.written errors.new) (is_err result) }
    ensures counted { Errors.failures errors.new ≡ count_after (is_err result) (Errors.failures errors.old) }
{
    put(errors, words)?;
    put(errors, Buffer::new().format(number))
}

/// Writes a word after others.
fn put_both<Errors: Target>(errors: &mut Errors, words: &str, word: &str) -> Result<(), DeviceFault>
    ensures put { IsPut (words.now ++ word.now) (Errors.written errors.old) (Errors.written errors.new) (is_err result) }
    ensures counted { Errors.failures errors.new ≡ count_after (is_err result) (Errors.failures errors.old) }
{
    put(errors, words)?;
    put(errors, word)
}

/// Whether a document is plain, in a word.
fn plain_word(plain: bool) -> &'static str
    ensures { result.now ≡ plain_word plain }
{
    if plain { "yes" } else { "no" }
}

/// A quirks mode in a word.
fn quirks_word(quirks: QuirksMode) -> &'static str
    ensures { result.now ≡ quirks_word quirks }
{
    match quirks {
        QuirksMode::NoQuirks => "no",
        QuirksMode::LimitedQuirks => "limited",
        QuirksMode::Quirks => "yes",
    }
}

/// Writes the report on a document.
fn put_report<Errors: Target>(errors: &mut Errors, report: &Report) -> Result<(), DeviceFault>
    ensures put { IsPut (report_line report.now) (Errors.written errors.old) (Errors.written errors.new) (is_err result) }
    ensures counted { Errors.failures errors.new ≡ count_after (is_err result) (Errors.failures errors.old) }
{
    put_both(errors, "plain=", plain_word(report.plain))?;
    put_both(errors, " quirks=", quirks_word(report.quirks))?;
    put_numbered(errors, " errors=", report.errors)
}

/// Writes what is wrong with the table of references.
pub fn put_table_fault<Errors: Target>(
    errors: &mut Errors,
    fault: TableFileFault,
) -> Result<(), DeviceFault>
    ensures put { IsPut (table_line fault) (Errors.written errors.old) (Errors.written errors.new) (is_err result) }
    ensures counted { Errors.failures errors.new ≡ count_after (is_err result) (Errors.failures errors.old) }
{
    match fault {
        TableFileFault::NotUtf8 { at } => {
            put_numbered(errors, "fault: table: not UTF-8 at byte ", at)
        }
        TableFileFault::Read => put(errors, "fault: read"),
        TableFileFault::BadLine(line) => put_numbered(errors, "fault: table: line ", line),
        TableFileFault::Table(TableFault::BadName(row)) => {
            put_numbered(errors, "fault: table: name ", row)
        }
        TableFileFault::Table(TableFault::Duplicate(row)) => {
            put_numbered(errors, "fault: table: duplicate ", row)
        }
        TableFileFault::Table(TableFault::BadValue(row)) => {
            put_numbered(errors, "fault: table: value ", row)
        }
        TableFileFault::Table(TableFault::Memory) | TableFileFault::Memory => {
            put(errors, "fault: memory")
        }
    }
}

/// Writes why a page was not read or not written.
pub fn put_normal_fault<Errors: Target>(
    errors: &mut Errors,
    fault: NormalFault,
) -> Result<(), DeviceFault>
    ensures put { IsPut (fault_line fault) (Errors.written errors.old) (Errors.written errors.new) (is_err result) }
    ensures counted { Errors.failures errors.new ≡ count_after (is_err result) (Errors.failures errors.old) }
{
    match fault {
        NormalFault::NotUtf8 { at } => put_numbered(errors, "fault: not UTF-8 at byte ", at),
        NormalFault::Read => put(errors, "fault: read"),
        NormalFault::Write => put(errors, "fault: write"),
        NormalFault::Memory => put(errors, "fault: memory"),
        NormalFault::Refused => put(errors, "fault: refused"),
    }
}

/// Writes why the program did nothing, or not all.
fn put_fault<Errors: Target>(errors: &mut Errors, fault: ProgramFault) -> Result<(), DeviceFault>
    ensures put { IsPut (program_line fault) (Errors.written errors.old) (Errors.written errors.new) (is_err result) }
    ensures counted { Errors.failures errors.new ≡ count_after (is_err result) (Errors.failures errors.old) }
{
    match fault {
        ProgramFault::Usage => put(errors, "fault: usage: html_normal [TABLE]"),
        ProgramFault::Table(fault) => put_table_fault(errors, fault),
        ProgramFault::Normal(fault) => put_normal_fault(errors, fault),
    }
}

/// Writes the words of an outcome.
fn put_words<Errors: Target>(
    errors: &mut Errors,
    outcome: &Result<Report, ProgramFault>,
) -> Result<(), DeviceFault>
    ensures put { IsPut (words_of outcome.now) (Errors.written errors.old) (Errors.written errors.new) (is_err result) }
    ensures counted { Errors.failures errors.new ≡ count_after (is_err result) (Errors.failures errors.old) }
{
    match outcome {
        Ok(report) => put_report(errors, report),
        Err(fault) => put_fault(errors, *fault),
    }
}

/// Writes the line of an outcome, with its end.
fn put_line<Errors: Target>(
    errors: &mut Errors,
    outcome: &Result<Report, ProgramFault>,
) -> Result<(), DeviceFault>
    ensures put { IsPut (line_of outcome.now) (Errors.written errors.old) (Errors.written errors.new) (is_err result) }
    ensures counted { Errors.failures errors.new ≡ count_after (is_err result) (Errors.failures errors.old) }
{
    put_words(errors, outcome)?;
    put(errors, "\n")
}

/// Writes the line of an outcome to standard error, and answers the status with which the program ends. Where a write fails a beginning
/// of the line is written, and the status is the same.
pub fn tell<Errors: Target>(errors: &mut Errors, outcome: &Result<Report, ProgramFault>) -> u8
    ensures status { result ≡ status_of_outcome outcome.now }
    ensures line { (failed : Bool) × IsPut (line_of outcome.now) (Errors.written errors.old) (Errors.written errors.new) failed
        × (Errors.failures errors.new ≡ count_after failed (Errors.failures errors.old)) }
{
    let _ = put_line(errors, outcome);
    match outcome {
        Ok(_) => 0,
        Err(fault) => fault.status(),
    }
}
