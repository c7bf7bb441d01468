//! Ready policies as text, and the command as a whole.
ghost use Rattle.std.specs.Prelude.{◌≡◌, IfErr, IfOk, map, option_map};
ghost use Rattle.std.specs.String.{string_bytes};
ghost use Rattle.html_normal.specs.declared.fault.NormalFault.TheVariants.{Memory as NoMemory};
ghost use Rattle.html_policy_text.specs.ReadyRules.{ready_named, rules_of_ready};
ghost use Rattle.html_policy_text.specs.Written.{policy_text};
ghost use Rattle.html_clean_program.specs.Printing.{IsObeyed, IsPrinted, IsPrintedBy, printed_name};
ghost use Rattle.html_clean_program.specs.declared.fault.CleanFault.TheVariants.{Normal};

use crate::cleaning::clean_pages;
use crate::fault::CleanFault;
use devices::{Source, Target};
use html_normal::NormalFault;
use html_normal_program::{Opener, put};
use html_policy_text::{Ready, write_policy};
use markup::Text;
use std::alloc::Global;

/// A ready policy as text.
fn ready_text(alloc: Global, ready: Ready) -> Result<Text, CleanFault>
    ensures ok { IfOk result (λ text. text ≡ policy_text (rules_of_ready ready)) }
    ensures err { IfErr result (λ fault. fault ≡ Normal NoMemory) }
{
    let Ok(policy) = ready.policy(alloc) else {
        return Err(CleanFault::Normal(NormalFault::Memory));
    };
    match write_policy(alloc, &policy) {
        Ok(text) => Ok(text),
        Err(_) => Err(CleanFault::Normal(NormalFault::Memory)),
    }
}

/// Writes a ready policy.
fn print_ready<Output: Target>(
    alloc: Global,
    ready: Ready,
    output: &mut Output,
) -> Result<(), CleanFault>
    ensures { IsPrinted ready (Output.written output.old) (Output.written output.new) result }
{
    let text = ready_text(alloc, ready)?;
    match put(output, text.as_str()) {
        Ok(()) => Ok(()),
        Err(_) => Err(CleanFault::Normal(NormalFault::Write)),
    }
}

/// Writes the ready policy of a name.
fn print_policy<Output: Target>(
    alloc: Global,
    name: &str,
    output: &mut Output,
) -> Result<(), CleanFault>
    ensures { IsPrintedBy (ready_named name.now) (Output.written output.old) (Output.written output.new) result }
{
    match Ready::named(name) {
        Some(ready) => print_ready(alloc, ready, output),
        None => Err(CleanFault::Usage),
    }
}

/// The name of the policy that is to be printed, if the words ask for one.
fn printed_name(words: &[String]) -> Option<&str>
    ensures { option_map (λ name. name.now) result ≡ printed_name (map string_bytes words.now) }
{
    match words {
        [option, name] => {
            if option.as_str() == "--print-policy" {
                Some(name.as_str())
            } else {
                None
            }
        }
        _ => None,
    }
}

/// The command: `--print-policy` and the name of a ready policy writes that policy to standard output, as text; any other words are for
/// [`clean_pages`].
///
/// Errors: [`CleanFault::Usage`] where there is no ready policy of that name; out of memory; a failed write.
pub fn obey<
    File: Source + Drop,
    Opens: Opener<File>,
    Input: Source,
    Output: Target,
    Errors: Target,
>(
    alloc: Global,
    words: &[String],
    opener: &Opens,
    input: &mut Input,
    output: &mut Output,
    errors: &mut Errors,
) -> Result<(), CleanFault>
    ensures { IsObeyed (Opens.files opener.now) (map string_bytes words.now) (Input.left input.old) (Input.left input.new)
        (Output.written output.old) (Output.written output.new) (Errors.written errors.old) (Errors.written errors.new) result }
{
    match printed_name(words) {
        Some(name) => print_policy(alloc, name, output),
        None => clean_pages(alloc, words, opener, input, output, errors),
    }
}
