//! The normal text of a page.
ghost use Rattle.std.specs.Prelude.{◌≡◌, IfErr, IfOk, length};
ghost use Rattle.html_ffi.specs.Answers.{Fails};
ghost use Rattle.html_ffi.specs.Calls.{IsNormalText, MeansText};

use crate::answer::{Answer, Failure};
use crate::page::{COUNTED, Page};
use crate::report::FigReport;
use crate::room::put_made;
use crate::table::table_of;
use devices::VecWriter;
use html_normal::{Report, normalise};
use std::alloc::Global;

/// A page's normal text, with the report of the page.
fn normal_text(alloc: Global, file: &[u8], page: &[u8]) -> Result<(Vec<u8>, Report), Failure>
    ensures ok { IfOk result (λ made. IsNormalText file.now page.now made.0.items made.1) }
    ensures err { IfErr result (λ failure. Fails file.now page.now failure.answer failure.at) }
{
    let table = table_of(alloc, file)?;
    let mut writer = VecWriter::new(alloc);
    match normalise(alloc, &mut Page::new(page), &mut writer, table, COUNTED) {
        Ok(report) => Ok((writer.into_bytes(), report)),
        Err(fault) => Err(Failure::from(fault)),
    }
}

/// Writes the normal text of a page to the front of room.
pub(crate) fn normalise_by(
    alloc: Global,
    file: &[u8],
    page: &[u8],
    output: &mut [u8],
    report: &mut FigReport,
) -> Answer
    ensures answer { MeansText IsNormalText file.now page.now output.old output.new report.new result }
    ensures same_room { length output.new ≡ length output.old }
{
    put_made(normal_text(alloc, file, page), output, report)
}
