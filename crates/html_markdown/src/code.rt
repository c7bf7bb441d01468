//! Code spans and code blocks.
ghost use Rattle.std.specs.Prelude.{◌≡◌, ◌<◌, ◌≤◌, ◌^◌, ◌==◌, suc, cond, length};
ghost use Rattle.html_markdown.specs.Fence as spec;

use crate::output::Output;
use std::alloc::AllocError;

/// The length of a run after a byte more.
fn run_after(run: usize, byte: u8) -> usize
    requires { run < 2 ^ 63 }
    ensures { result ≡ cond (byte == 96) (suc run) 0 }
{
    if byte == b'`' { run + 1 } else { 0 }
}

/// The length of the longest run of backticks.
fn longest_run(text: &str) -> usize
    ensures exact { result ≡ spec.longest_run text.now }
    ensures fits { result ≤ length text.now }
{
    let mut longest: usize = 0;
    let mut run: usize = 0;
    for &byte in text.as_bytes() {
        run = run_after(run, byte);
        longest = longest.max(run);
    }
    longest
}

/// The length of a fence that is longer than each run of backticks in a text (CommonMark, sections 4.5 and 6.1).
pub(crate) fn fence_of(text: &str) -> usize
    ensures { result ≡ suc (spec.longest_run text.now) }
{
    longest_run(text) + 1
}

/// Whether a code span needs a space at its ends (CommonMark, section 6.1).
fn wants_space(code: &str) -> bool {
    code.starts_with('`') || code.ends_with('`')
}

/// Writes what stands in a code span. In the cell of a table a `|` has a backslash, which belongs to the table.
fn push_code(output: &mut Output, code: &str, in_cell: bool) -> Result<(), AllocError> {
    for character in code.chars() {
        if character == '|' && in_cell {
            output.push('\\')?;
        }
        output.push(character)?;
    }
    Ok(())
}

/// Writes a code span.
pub(crate) fn push_span(output: &mut Output, code: &str, in_cell: bool) -> Result<(), AllocError> {
    let fence = fence_of(code);
    let spaced = wants_space(code);
    output.push_many('`', fence)?;
    if spaced {
        output.push(' ')?;
    }
    push_code(output, code, in_cell)?;
    if spaced {
        output.push(' ')?;
    }
    output.push_many('`', fence)
}
