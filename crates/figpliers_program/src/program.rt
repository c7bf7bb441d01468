//! From words to what is written and the status.
ghost use Rattle.std.specs.Prelude.{◌≡◌, ◌≢◌, ◌⊎◌, IfErr, IfOk, map};
ghost use Rattle.std.specs.String.{string_bytes};
ghost use Rattle.clap.specs.Values.{kind_of};
ghost use Rattle.clap.specs.declared.error.kind.ErrorKind.TheVariants.{OutOfMemory};
ghost use Rattle.figpliers.specs.Puts.{told_by};
ghost use Rattle.figpliers_program.specs.Cleaning.{IsOutcome, IsOutputOf};
ghost use Rattle.figpliers_program.specs.Jobs.{IsAnswered, IsOutOfMemory, IsPagesOutcome};
ghost use Rattle.figpliers_program.specs.Rejected.{IsPagesOutput};
ghost use Rattle.figpliers_program.specs.declared.faults.PageFault.TheVariants.{Memory};

use crate::cleaning::{clean, clean_output, clean_words};
use crate::command::{Asked, read_words};
use crate::faults::{PageFault, Verdict, report};
use crate::files::Files;
use crate::jobs::run;
use crate::writing::put;
use clap::Error;
use clap::error::ErrorKind;
use figpliers::{Source, Target, write_whole};
use std::alloc::Global;

/// Writes the text of an error other than out of memory: to standard error, or, of help, to standard output.
fn answer_text<Output: Target, Errors: Target>(
    alloc: Global,
    error: &Error,
    output: &mut Output,
    errors: &mut Errors,
) -> Verdict
    ensures { IsOutOfMemory (told_by Output.written Output.failures output.old) (told_by Output.written Output.failures output.new)
        (Errors.written errors.old) (Errors.written errors.new) result
        ⊎ IsAnswered (kind_of error.now) (told_by Output.written Output.failures output.old)
        (told_by Output.written Output.failures output.new) (Errors.written errors.old) (Errors.written errors.new) result }
{
    let Ok(text) = format!(in alloc; "{error}") else {
        return report(errors, "figpliers", PageFault::Memory);
    };
    if error.use_stderr() {
        let _ = write_whole(errors, text.as_bytes());
        return Verdict::Fault;
    }
    match put(output, text.as_str()) {
        Ok(()) => Verdict::Fine,
        Err(_) => Verdict::Unwritten,
    }
}

/// Writes what is wrong with the words to standard error, or the help that was asked for to standard output.
fn answer<Output: Target, Errors: Target>(
    alloc: Global,
    error: &Error,
    output: &mut Output,
    errors: &mut Errors,
) -> Verdict
    ensures { IsOutOfMemory (told_by Output.written Output.failures output.old) (told_by Output.written Output.failures output.new)
        (Errors.written errors.old) (Errors.written errors.new) result
        ⊎ ((kind_of error.now ≢ OutOfMemory) × IsAnswered (kind_of error.now) (told_by Output.written Output.failures output.old)
        (told_by Output.written Output.failures output.new) (Errors.written errors.old) (Errors.written errors.new) result) }
{
    match error.kind() {
        ErrorKind::OutOfMemory => report(errors, "figpliers", PageFault::Memory),
        _ => answer_text(alloc, error, output, errors),
    }
}

/// The file to write to.
fn output_in(asked: Asked) -> Option<String>
    ensures { result ≡ asked.output }
{
    let Asked { output, .. } = asked;
    output
}

/// The file to write to that words of another command than `clean` name; nothing where they name none, or are rejected.
fn pages_output(alloc: Global, words: &[String]) -> Result<Option<String>, PageFault>
    ensures ok { IfOk result (IsPagesOutput (map string_bytes words.now)) }
    ensures fault { IfErr result (λ fault. fault ≡ Memory) }
{
    match read_words(alloc, words) {
        Ok(asked) => Ok(output_in(asked)),
        Err(error) => match error.kind() {
            ErrorKind::OutOfMemory => Err(PageFault::Memory),
            _ => Ok(None),
        },
    }
}

/// The file to write to that the words name with which the program was started; nothing where they name none, or are rejected.
///
/// Errors: [`PageFault::Memory`].
pub fn output_of(alloc: Global, words: &[String]) -> Result<Option<String>, PageFault>
    ensures ok { IfOk result (IsOutputOf (map string_bytes words.now)) }
    ensures fault { IfErr result (λ fault. fault ≡ Memory) }
{
    match clean_words(words) {
        Some(rest) => clean_output(alloc, rest),
        None => pages_output(alloc, words),
    }
}

/// Does what words of another command than `clean` ask for.
fn obey_pages<
    File: Source + Drop,
    Opens: Files<File>,
    Input: Source,
    Output: Target,
    Errors: Target,
>(
    alloc: Global,
    words: &[String],
    opener: &Opens,
    input: &mut Input,
    output: &mut Output,
    errors: &mut Errors,
) -> Verdict
    ensures { IsPagesOutcome (Opens.files opener.now) (map string_bytes words.now) (Input.left input.old) (Input.left input.new)
        (told_by Output.written Output.failures output.old) (told_by Output.written Output.failures output.new)
        (Errors.written errors.old) (Errors.written errors.new) result }
{
    match read_words(alloc, words) {
        Ok(asked) => run(alloc, &asked, opener, input, output, errors),
        Err(error) => answer(alloc, &error, output, errors),
    }
}

/// Does what the words ask for with which the program was started, the first of which is its name. Files are those that `opener` opens.
///
/// What is printed is written to `output`: to open the file that the words may name for it ([`output_of`]) is the caller's. A failed
/// write to it is not reported on standard error: the verdict is [`Verdict::Unwritten`], and nothing more is read.
pub fn obey<File: Source + Drop, Opens: Files<File>, Input: Source, Output: Target, Errors: Target>(
    alloc: Global,
    words: &[String],
    opener: &Opens,
    input: &mut Input,
    output: &mut Output,
    errors: &mut Errors,
) -> Verdict
    ensures { IsOutcome (Opens.files opener.now) (map string_bytes words.now) (Input.left input.old) (Input.left input.new)
        (told_by Output.written Output.failures output.old) (told_by Output.written Output.failures output.new)
        (Errors.written errors.old) (Errors.written errors.new) result }
{
    match clean_words(words) {
        Some(rest) => clean(alloc, rest, opener, input, output, errors),
        None => obey_pages(alloc, words, opener, input, output, errors),
    }
}
