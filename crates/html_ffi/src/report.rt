//! What C gets beside an answer.
ghost use Rattle.std.specs.Prelude.{◌≡◌};
ghost use Rattle.html_ffi.specs.Reports.{cleaned_of, flag_of, nothing_at, nothing_cleaned_at, of_text, quirks_number, report_of};

use html_clean::Cleaned;
use html_normal::Report;
use markup::QuirksMode;

/// The report of a page.
#[repr(C)]
#[derive(Clone, Copy)]
pub struct FigReport {
    /// How many bytes the text has.
    pub length: usize,
    /// How many parse errors there are, at most `u64::MAX`.
    pub errors: u64,
    /// Where the page or the table stops to be UTF-8, or the line or the row of the table that is at fault; else 0.
    pub at: u64,
    /// 0 for no quirks mode, 1 for limited quirks mode, 2 for quirks mode.
    pub quirks: u8,
    /// 1 where the document is plain, else 0.
    pub plain: u8,
}

/// The report of a page that was cleaned.
#[repr(C)]
#[derive(Clone, Copy)]
pub struct FigCleaned {
    /// How many bytes the text has.
    pub length: usize,
    /// Where the page or the policy stops to be UTF-8, or the line of the policy that is at fault; else 0.
    pub at: u64,
    /// Elements that gave way to what stands in them.
    pub unwrapped: u64,
    /// Elements that were dropped with what stands in them.
    pub dropped: u64,
    /// Attributes of elements that were kept.
    pub attributes: u64,
    /// Comments and processing instructions.
    pub comments: u64,
}

/// The report of a page that was decoded.
#[repr(C)]
#[derive(Clone, Copy)]
pub struct FigDecoded {
    /// How many bytes the text has.
    pub length: usize,
    /// How many errors the page has in its encoding, at most `u64::MAX`. Each stands as U+FFFD in the text.
    pub errors: u64,
    /// 0.
    pub at: u64,
    /// The number of the encoding.
    pub encoding: u8,
    /// How it was found out: 0 by a byte order mark, 1 by the label, 2 by a declaration in the page, 3 by nothing.
    pub why: u8,
}

/// A flag of C's.
fn flag(is: bool) -> u8
    ensures { result ≡ flag_of is }
{
    if is { 1 } else { 0 }
}

/// The number of a quirks mode.
fn quirks_number(mode: QuirksMode) -> u8
    ensures { result ≡ quirks_number mode }
{
    match mode {
        QuirksMode::NoQuirks => 0,
        QuirksMode::LimitedQuirks => 1,
        QuirksMode::Quirks => 2,
    }
}

impl FigReport {
    /// The report of a page of which a text was made that has so many bytes.
    pub(crate) fn new(length: usize, report: Report) -> FigReport
        ensures { result ≡ report_of length report }
    {
        FigReport {
            length,
            errors: report.errors,
            at: 0,
            quirks: quirks_number(report.quirks),
            plain: flag(report.plain),
        }
    }

    /// The report of a text of so many bytes that is of no page.
    pub(crate) fn of_text(length: usize) -> FigReport
        ensures { result ≡ of_text length }
    {
        FigReport {
            length,
            errors: 0,
            at: 0,
            quirks: 0,
            plain: 0,
        }
    }

    /// The report of a page of which no text was made, with the place of the fault.
    pub(crate) fn nothing(at: u64) -> FigReport
        ensures { result ≡ nothing_at at }
    {
        FigReport {
            length: 0,
            errors: 0,
            at,
            quirks: 0,
            plain: 0,
        }
    }
}

impl FigCleaned {
    /// The report of a page of which a text was made that has so many bytes.
    pub(crate) fn new(length: usize, counts: Cleaned) -> FigCleaned
        ensures { result ≡ cleaned_of length counts }
    {
        FigCleaned {
            length,
            at: 0,
            unwrapped: counts.unwrapped,
            dropped: counts.dropped,
            attributes: counts.attributes,
            comments: counts.comments,
        }
    }

    /// The report of a page of which no text was made, with the place of the fault.
    pub(crate) fn nothing(at: u64) -> FigCleaned
        ensures { result ≡ nothing_cleaned_at at }
    {
        FigCleaned {
            length: 0,
            at,
            unwrapped: 0,
            dropped: 0,
            attributes: 0,
            comments: 0,
        }
    }
}
