//! Policies as text, which say what cleaning keeps.
ghost use Rattle.std.specs.Prelude.{◌≡◌, ℕ, List, Option, IfErr, IfOk, length};
ghost use Rattle.std.specs.Str.{IsUtf8, IsValidUpTo};
ghost use Rattle.html_clean.specs.Checks.{never_kept, never_kept_in_fragment};
ghost use Rattle.html_policy_text.specs.ReadyRules.{rules_of_ready};
ghost use Rattle.html_policy_text.specs.Written.{policy_text};
ghost use Rattle.html_ffi.specs.Policies.{FailsToClean, FailsToName, IsNamedText, IsPolicyOf, MeansReady, Says};
ghost use Rattle.html_ffi.specs.declared.answer.Answer.TheVariants.{Memory, PolicyNotUtf8};

use crate::answer::{Answer, Failure, no_memory};
use crate::report::FigReport;
use crate::room::put_front;
use html_clean::Policy;
use html_policy_text::{Ready, read_policy, write_policy};
use markup::Text;
use std::alloc::Global;

/// The text of a policy, or the name of a ready one.
fn text_of(bytes: &[u8]) -> Result<&str, Failure>
    ensures ok { IfOk result (λ text. text.now ≡ bytes.now) }
    ensures utf8 { IfOk result (λ _. IsUtf8 bytes.now) }
    ensures answer { IfErr result (λ failure. failure.answer ≡ PolicyNotUtf8) }
    ensures at { IfErr result (λ failure. IsValidUpTo bytes.now failure.at) }
{
    match str::from_utf8(bytes) {
        Ok(text) => Ok(text),
        Err(error) => Err(Failure {
            answer: Answer::PolicyNotUtf8,
            at: error.valid_up_to() as u64,
        }),
    }
}

/// The policy whose rules a text says.
fn read(alloc: Global, bytes: &[u8]) -> Result<Policy, Failure>
    ensures ok { IfOk result (Says bytes.now) }
    ensures err { IfErr result (λ failure. (first : Policy → Option (List ℕ)) (file page : List ℕ)
        → FailsToClean first file bytes.now page failure.answer failure.at) }
{
    let text = text_of(bytes)?;
    match read_policy(alloc, text) {
        Ok(policy) => Ok(policy),
        Err(fault) => Err(Failure::from(fault)),
    }
}

/// That a policy names what is never kept.
const NEVER_KEPT: Failure = Failure {
    answer: Answer::NeverKept,
    at: 0,
};

/// The policy whose rules a text says, to clean documents by.
pub(crate) fn policy_for_documents(alloc: Global, bytes: &[u8]) -> Result<Policy, Failure>
    ensures ok { IfOk result (IsPolicyOf never_kept bytes.now) }
    ensures err { IfErr result (λ failure. (file page : List ℕ) → FailsToClean never_kept file bytes.now page failure.answer failure.at) }
{
    let policy = read(alloc, bytes)?;
    if policy.checked().is_err() {
        return Err(NEVER_KEPT);
    }
    Ok(policy)
}

/// The policy whose rules a text says, to clean fragments by.
pub(crate) fn policy_for_fragments(alloc: Global, bytes: &[u8]) -> Result<Policy, Failure>
    ensures ok { IfOk result (IsPolicyOf never_kept_in_fragment bytes.now) }
    ensures err { IfErr result (λ failure. (file page : List ℕ)
        → FailsToClean never_kept_in_fragment file bytes.now page failure.answer failure.at) }
{
    let policy = read(alloc, bytes)?;
    if policy.checked_for_fragments().is_err() {
        return Err(NEVER_KEPT);
    }
    Ok(policy)
}

/// A ready policy as text.
fn ready_text(alloc: Global, ready: Ready) -> Result<Text, Failure>
    ensures ok { IfOk result (λ text. text ≡ policy_text (rules_of_ready ready)) }
    ensures err { IfErr result (λ failure. failure ≡ record { answer = Memory; at = 0 }) }
{
    let Ok(policy) = ready.policy(alloc) else {
        return Err(no_memory());
    };
    match write_policy(alloc, &policy) {
        Ok(text) => Ok(text),
        Err(_) => Err(no_memory()),
    }
}

/// The ready policy of a name, as text.
fn named_text(alloc: Global, name: &[u8]) -> Result<Text, Failure>
    ensures ok { IfOk result (IsNamedText name.now) }
    ensures err { IfErr result (λ failure. FailsToName name.now failure.answer failure.at) }
{
    let word = text_of(name)?;
    let Some(ready) = Ready::named(word) else {
        return Err(Failure {
            answer: Answer::NoPolicy,
            at: 0,
        });
    };
    let text = ready_text(alloc, ready)?;
    Ok(text)
}

/// Writes the ready policy of a name to the front of room.
pub(crate) fn ready_by(
    alloc: Global,
    name: &[u8],
    output: &mut [u8],
    report: &mut FigReport,
) -> Answer
    ensures answer { MeansReady name.now output.old output.new report.new result }
    ensures same_room { length output.new ≡ length output.old }
{
    match named_text(alloc, name) {
        Ok(made) => {
            let text = made.as_str().as_bytes();
            *report = FigReport::of_text(text.len());
            put_front(output, text)
        }
        Err(failure) => {
            *report = FigReport::nothing(failure.at);
            failure.answer
        }
    }
}
