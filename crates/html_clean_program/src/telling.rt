//! The lines on standard error.
ghost use Rattle.std.specs.Prelude.{◌≡◌, ◌++◌, ◌∷◌, [], Bool, codes, encode_utf8_all, is_err};
ghost use Rattle.std.specs.Fmt.{decimal};
ghost use Rattle.html_normal_program.specs.Streams.{IsPut};
ghost use Rattle.html_clean_program.specs.Lines.{IsPageReported, IsReported, counts_line, counts_words, elements_words, fault_words};
ghost use Rattle.html_clean_program.specs.Lines.{front, others_words, page_fault_words, page_line, place_words, policy_words};
ghost use Rattle.html_clean_program.specs.Lines.{problem_words};

use crate::fault::{CleanFault, has_line, is_other};
use devices::{DeviceFault, Target};
use html_clean::Cleaned;
use html_normal::NormalFault;
use html_normal_program::{put, put_normal_fault, put_numbered, put_table_fault};
use html_policy_text::{PolicyFileFault, Problem};
use markup::Text;

const USAGE: &str =
    "fault: usage: figpliers clean [--policy FILE] [--document] [--element NAME[:ATTRIBUTE,..]] [--attribute NAME] [--beginning TEXT] [--add ELEMENT:NAME=VALUE] [--scheme NAME] [--table FILE] [-o FILE] [FILE].. | --print-policy NAME";

/// Writes how many elements were taken away of a page.
fn put_elements<Errors: Target>(errors: &mut Errors, counts: Cleaned) -> Result<(), DeviceFault>
    ensures put { IsPut (elements_words counts) (Errors.written errors.old) (Errors.written errors.new) (is_err result) }
{
    put_numbered(errors, "unwrapped=", counts.unwrapped)?;
    put_numbered(errors, " dropped=", counts.dropped)
}

/// Writes how many attributes and comments were.
fn put_others<Errors: Target>(errors: &mut Errors, counts: Cleaned) -> Result<(), DeviceFault>
    ensures put { IsPut (others_words counts) (Errors.written errors.old) (Errors.written errors.new) (is_err result) }
{
    put_numbered(errors, " attributes=", counts.attributes)?;
    put_numbered(errors, " comments=", counts.comments)
}

/// Writes how much was taken away of a page.
fn put_counts<Errors: Target>(errors: &mut Errors, counts: Cleaned) -> Result<(), DeviceFault>
    ensures put { IsPut (counts_words counts) (Errors.written errors.old) (Errors.written errors.new) (is_err result) }
{
    put_elements(errors, counts)?;
    put_others(errors, counts)
}

/// Writes the name of a page, and what stands after it.
fn put_front<Errors: Target>(errors: &mut Errors, name: &str) -> Result<(), DeviceFault>
    ensures put { IsPut (front name.now) (Errors.written errors.old) (Errors.written errors.new) (is_err result) }
{
    put(errors, name)?;
    put(errors, ": ")
}

/// Writes the name of a page, and how much was taken away of it.
fn put_named_counts<Errors: Target>(
    errors: &mut Errors,
    name: &str,
    counts: Cleaned,
) -> Result<(), DeviceFault>
    ensures put { IsPut (counts_line name.now counts) (Errors.written errors.old) (Errors.written errors.new) (is_err result) }
{
    put_front(errors, name)?;
    put_counts(errors, counts)
}

/// Writes the same, and the end of the line.
fn put_counts_line<Errors: Target>(
    errors: &mut Errors,
    name: &str,
    counts: Cleaned,
) -> Result<(), DeviceFault>
    ensures put { IsPut (counts_line name.now counts ++ 10 ∷ []) (Errors.written errors.old) (Errors.written errors.new) (is_err result) }
{
    put_named_counts(errors, name, counts)?;
    put(errors, "\n")
}

/// Writes the line that says how much was taken away of the page of that name, or a beginning of it where a write fails.
pub(crate) fn tell_counts<Errors: Target>(errors: &mut Errors, name: &str, counts: Cleaned)
    ensures { (failed : Bool) × IsPut (counts_line name.now counts ++ 10 ∷ []) (Errors.written errors.old) (Errors.written errors.new)
        failed }
{
    let _ = put_counts_line(errors, name, counts);
}

/// Writes why a page was not cleaned.
fn put_page_fault<Errors: Target>(
    errors: &mut Errors,
    fault: NormalFault,
) -> Result<(), DeviceFault>
    ensures put { IsPut (page_fault_words fault) (Errors.written errors.old) (Errors.written errors.new) (is_err result) }
{
    match fault {
        NormalFault::NotUtf8 { at } => put_numbered(errors, "not UTF-8 at byte ", at),
        NormalFault::Read => put(errors, "cannot be read"),
        NormalFault::Write => put(errors, "standard output cannot be written"),
        NormalFault::Memory => put(errors, "no memory was left"),
        NormalFault::Refused => put(errors, "refused"),
    }
}

/// Writes the name of a page, and why it was not cleaned.
fn put_named_fault<Errors: Target>(
    errors: &mut Errors,
    name: &str,
    fault: NormalFault,
) -> Result<(), DeviceFault>
    ensures put { IsPut (page_line name.now fault) (Errors.written errors.old) (Errors.written errors.new) (is_err result) }
{
    put_front(errors, name)?;
    put_page_fault(errors, fault)
}

/// Writes the same, and the end of the line.
fn put_page_line<Errors: Target>(
    errors: &mut Errors,
    name: &str,
    fault: NormalFault,
) -> Result<(), DeviceFault>
    ensures put { IsPut (page_line name.now fault ++ 10 ∷ []) (Errors.written errors.old) (Errors.written errors.new) (is_err result) }
{
    put_named_fault(errors, name, fault)?;
    put(errors, "\n")
}

/// Reports on standard error why the page of that name was not cleaned; a failed write to standard output is not reported: its reader may
/// have closed the pipe, and the caller sees it by the fault.
pub(crate) fn report_page<Errors: Target>(errors: &mut Errors, name: &str, fault: NormalFault)
    ensures { IsPageReported name.now fault (Errors.written errors.old) (Errors.written errors.new) }
{
    if is_other(fault) {
        let _ = put_page_line(errors, name, fault);
    }
}

/// Writes a text.
fn put_text<Errors: Target>(errors: &mut Errors, text: &Text) -> Result<(), DeviceFault>
    ensures put { IsPut (encode_utf8_all text.now) (Errors.written errors.old) (Errors.written errors.new) (is_err result) }
{
    put(errors, text.as_str())
}

/// Writes a file's name, and words after it.
fn put_named<Errors: Target>(
    errors: &mut Errors,
    name: &Text,
    words: &str,
) -> Result<(), DeviceFault>
    ensures put { IsPut (encode_utf8_all name.now ++ words.now) (Errors.written errors.old) (Errors.written errors.new) (is_err result) }
{
    put_text(errors, name)?;
    put(errors, words)
}

/// Writes a file's name, and words and a number after it.
fn put_named_number<Errors: Target>(
    errors: &mut Errors,
    name: &Text,
    words: &str,
    number: u64,
) -> Result<(), DeviceFault>
    ensures put { IsPut (encode_utf8_all name.now ++ (words.now ++ decimal number)) (Errors.written errors.old)
        (Errors.written errors.new) (is_err result) }
{
    put_text(errors, name)?;
    put_numbered(errors, words, number)
}

/// Why a line is refused.
fn problem_words(problem: Problem) -> &'static str
    ensures { result.now ≡ problem_words problem }
{
    match problem {
        Problem::UnknownRule => ": no rule begins with this word",
        Problem::WrongWords => ": the rule takes fewer words, or more",
        Problem::WrongNumber => ": a word is not a number in digits",
    }
}

/// Writes which line of a file is refused, and why.
fn put_line_fault<Errors: Target>(
    errors: &mut Errors,
    name: &Text,
    line: usize,
    problem: Problem,
) -> Result<(), DeviceFault>
    ensures put { IsPut (place_words name.now line ++ problem_words problem) (Errors.written errors.old)
        (Errors.written errors.new) (is_err result) }
{
    put_named_number(errors, name, ":", line as u64)?;
    put(errors, problem_words(problem))
}

/// Writes why a file has no policy.
fn put_policy_fault<Errors: Target>(
    errors: &mut Errors,
    name: &Text,
    fault: PolicyFileFault,
) -> Result<(), DeviceFault>
    ensures put { IsPut (policy_words name.now fault) (Errors.written errors.old) (Errors.written errors.new) (is_err result) }
{
    match fault {
        PolicyFileFault::NotUtf8 { at } => {
            put_named_number(errors, name, ": not UTF-8 at byte ", at)
        }
        PolicyFileFault::Read => put_named(errors, name, ": cannot be read"),
        PolicyFileFault::Line { line, problem } => put_line_fault(errors, name, line, problem),
        PolicyFileFault::Memory => put(errors, "fault: memory"),
    }
}

/// Writes the word that is never kept.
fn put_never_kept<Errors: Target>(errors: &mut Errors, word: &Text) -> Result<(), DeviceFault>
    ensures put { IsPut (codes "fault: never kept: " ++ encode_utf8_all word.now) (Errors.written errors.old)
        (Errors.written errors.new) (is_err result) }
{
    put(errors, "fault: never kept: ")?;
    put_text(errors, word)
}

/// Writes why nothing was cleaned, or not all.
fn put_fault<Errors: Target>(errors: &mut Errors, fault: &CleanFault) -> Result<(), DeviceFault>
    ensures put { IsPut (fault_words fault.now) (Errors.written errors.old) (Errors.written errors.new) (is_err result) }
{
    match fault {
        CleanFault::Usage => put(errors, USAGE),
        CleanFault::NeverKept(word) => put_never_kept(errors, word),
        CleanFault::Policy { file, fault } => put_policy_fault(errors, file, *fault),
        CleanFault::Table(fault) => put_table_fault(errors, *fault),
        CleanFault::Normal(fault) | CleanFault::Page(fault) => put_normal_fault(errors, *fault),
    }
}

/// Writes the line of a fault, with its end.
fn put_line<Errors: Target>(errors: &mut Errors, fault: &CleanFault) -> Result<(), DeviceFault>
    ensures put { IsPut (fault_words fault.now ++ 10 ∷ []) (Errors.written errors.old) (Errors.written errors.new) (is_err result) }
{
    put_fault(errors, fault)?;
    put(errors, "\n")
}

/// Reports on standard error why nothing was cleaned, or not all, by a line, or a beginning of it where a write fails. What went wrong with
/// a page was reported with that page, and a failed write to standard output is not reported.
pub fn report<Errors: Target>(errors: &mut Errors, fault: &CleanFault)
    ensures { IsReported fault.now (Errors.written errors.old) (Errors.written errors.new) }
{
    if has_line(fault) {
        let _ = put_line(errors, fault);
    }
}
