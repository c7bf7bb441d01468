//! The caller's room.
ghost use Rattle.std.specs.Prelude.{◌≡◌, IfErr, IfOk, length};
ghost use Rattle.html_ffi.specs.Answers.{IsPut};
ghost use Rattle.html_ffi.specs.Reports.{cleaned_of, nothing_at, nothing_cleaned_at, report_of};

use crate::answer::{Answer, Failure};
use crate::report::{FigCleaned, FigReport};
use devices::VecWriter;
use html_clean::Cleaned;
use html_normal::Report;

/// Copies a text to the front of room, if it has room for all of it.
pub(crate) fn put_front(output: &mut [u8], text: &[u8]) -> Answer
    ensures { IsPut text.now output.old output.new result }
{
    if text.len() > output.len() {
        return Answer::TooShort;
    }
    output[..text.len()].copy_from_slice(text);
    Answer::Done
}

/// Copies bytes that were made to the front of room, with the report of them; or reports why there are none.
pub(crate) fn put_made(
    made: Result<(Vec<u8>, Report), Failure>,
    output: &mut [u8],
    report: &mut FigReport,
) -> Answer
    ensures report { IfOk made (λ made. report.new ≡ report_of (length made.0.items) made.1) }
    ensures put { IfOk made (λ made. IsPut made.0.items output.old output.new result) }
    ensures none { IfErr made (λ failure. report.new ≡ nothing_at failure.at) }
    ensures answer { IfErr made (λ failure. result ≡ failure.answer) }
    ensures untouched { IfErr made (λ _. output.new ≡ output.old) }
    ensures same_room { length output.new ≡ length output.old }
{
    match made {
        Ok(made) => {
            let bytes = made.0.as_slice();
            *report = FigReport::new(bytes.len(), made.1);
            put_front(output, bytes)
        }
        Err(failure) => {
            *report = FigReport::nothing(failure.at);
            failure.answer
        }
    }
}

/// Copies what was kept of a page to the front of room, with what was taken away; or reports why nothing was.
pub(crate) fn put_kept(
    made: Result<(VecWriter, Cleaned), Failure>,
    output: &mut [u8],
    report: &mut FigCleaned,
) -> Answer
    ensures report { IfOk made (λ made. report.new ≡ cleaned_of (length made.0.written) made.1) }
    ensures put { IfOk made (λ made. IsPut made.0.written output.old output.new result) }
    ensures none { IfErr made (λ failure. report.new ≡ nothing_cleaned_at failure.at) }
    ensures answer { IfErr made (λ failure. result ≡ failure.answer) }
    ensures untouched { IfErr made (λ _. output.new ≡ output.old) }
    ensures same_room { length output.new ≡ length output.old }
{
    match made {
        Ok(made) => {
            let text = made.0.written();
            *report = FigCleaned::new(text.len(), made.1);
            put_front(output, text)
        }
        Err(failure) => {
            *report = FigCleaned::nothing(failure.at);
            failure.answer
        }
    }
}
