//! The command `clean`, which reads the words after it itself.
ghost use Rattle.std.specs.Prelude.{◌≡◌, IfErr, IfOk, map, option_map};
ghost use Rattle.std.specs.List.{list_any};
ghost use Rattle.std.specs.String.{string_bytes};
ghost use Rattle.html_clean_program.specs.Words.{output_named};
ghost use Rattle.figpliers_program.specs.Cleaning as spec;
ghost use Rattle.figpliers_program.specs.Cleaning.{IsClean, fault_verdict, stream_verdict};
ghost use Rattle.figpliers_program.specs.declared.faults.PageFault.TheVariants.{Memory};

use crate::command::copied;
use crate::faults::{PageFault, Verdict};
use crate::files::Files;
use figpliers::{NormalFault, Source, Target};
use html_clean_program::{CleanFault, obey, output_of, report};
use std::alloc::Global;

/// Whether a word asks for help or for the version.
fn is_about(word: &str) -> bool
    ensures { result ≡ spec.is_about word.now }
{
    matches!(word, "--help" | "-h" | "--version" | "-V")
}

/// Whether one of some words does.
fn are_about(words: &[String]) -> bool
    ensures { result ≡ list_any (λ word. spec.is_about (string_bytes word)) words.now }
{
    words.iter().any(|word| is_about(word.as_str()))
}

/// The words after `clean`, if that is the command, and none of them asks for help or for the version.
pub fn clean_words(words: &[String]) -> Option<&[String]>
    ensures { option_map (λ rest. map string_bytes rest.now) result ≡ spec.clean_words (map string_bytes words.now) }
{
    let [_, command, rest @ ..] = words else {
        return None;
    };
    if command.as_str() != "clean" {
        return None;
    }
    if are_about(rest) {
        return None;
    }
    Some(rest)
}

/// The file to write to that the words after `clean` name.
pub fn clean_output(alloc: Global, words: &[String]) -> Result<Option<String>, PageFault>
    ensures ok { IfOk result (λ found. option_map string_bytes found ≡ output_named (map string_bytes words.now)) }
    ensures fault { IfErr result (λ fault. fault ≡ Memory) }
{
    match output_of(alloc, words) {
        Ok(Some(name)) => Ok(copied(alloc, name)?),
        Ok(None) => Ok(None),
        Err(_) => Err(PageFault::Memory),
    }
}

/// The verdict on a fault of a page, or of the text of a policy.
fn stream_verdict(fault: NormalFault) -> Verdict
    ensures { result ≡ stream_verdict fault }
{
    match fault {
        NormalFault::Write => Verdict::Unwritten,
        NormalFault::NotUtf8 { .. }
        | NormalFault::Read
        | NormalFault::Memory
        | NormalFault::Refused => Verdict::Fault,
    }
}

/// The verdict on a fault.
fn fault_verdict(fault: &CleanFault) -> Verdict
    ensures { result ≡ fault_verdict fault.now }
{
    match fault {
        CleanFault::Normal(why) | CleanFault::Page(why) => stream_verdict(*why),
        CleanFault::Usage
        | CleanFault::NeverKept(_)
        | CleanFault::Policy { .. }
        | CleanFault::Table(_) => Verdict::Fault,
    }
}

/// Does what the words after `clean` ask for, and reports on standard error why it was not done.
pub fn clean<
    File: Source + Drop,
    Opens: Files<File>,
    Input: Source,
    Output: Target,
    Errors: Target,
>(
    alloc: Global,
    words: &[String],
    opener: &Opens,
    input: &mut Input,
    output: &mut Output,
    errors: &mut Errors,
) -> Verdict
    ensures { IsClean (Opens.files opener.now) (map string_bytes words.now) (Input.left input.old) (Input.left input.new)
        (Output.written output.old) (Output.written output.new) (Errors.written errors.old) (Errors.written errors.new) result }
{
    match obey(alloc, words, opener, input, output, errors) {
        Ok(()) => Verdict::Fine,
        Err(fault) => {
            report(errors, &fault);
            fault_verdict(&fault)
        }
    }
}
