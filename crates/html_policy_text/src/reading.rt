//! A policy out of a text.
ghost use Rattle.std.specs.Prelude.{◌≡◌, IfErr, IfOk, Ok, OnOk, map};
ghost use Rattle.html_policy_text.specs.PolicyText.{AreLinesRefused, IsApplied, fault_at, lines_of, policy_rules, read_lines, with_line};
ghost use Rattle.html_policy_text.specs.Rules.{no_rules, rules_of};
ghost use Rattle.html_clean.specs.Values.{words_of};
ghost use Rattle.std.specs.Str.{chars};

use crate::rules::{Problem, RuleFault, apply_line};
use html_clean::{Policy, words_of};
use std::alloc::{AllocError, Global};
use thiserror::Error;

/// Why a text is no policy.
#[derive(Clone, Copy, Debug, PartialEq, Eq, Error)]
pub enum PolicyFault {
    /// Out of memory.
    #[error("out of memory")]
    Memory,
    /// A line is refused, the first such one.
    #[error("line {line}: {problem}")]
    Line {
        /// Its number, from 1 on.
        line: usize,
        /// Why.
        problem: Problem,
    },
}

/// A policy that keeps nothing.
pub(crate) fn nothing(alloc: Global) -> Policy
    ensures { rules_of result ≡ no_rules }
{
    Policy {
        kept: Vec::new(alloc),
        dropped: Vec::new(alloc),
        everywhere: Vec::new(alloc),
        beginnings: Vec::new(alloc),
        values: Vec::new(alloc),
        added: Vec::new(alloc),
        urls: Vec::new(alloc),
        schemes: Vec::new(alloc),
        allows_relative: false,
        allows_hosts: false,
    }
}

/// The lines of a text.
pub(crate) fn lines_of(alloc: Global, text: &str) -> Result<Vec<&str>, AllocError>
    ensures { IfOk result (λ lines. map (λ line. chars line.now) lines.items ≡ lines_of (chars text.now)) }
{
    text.split('\n').collect(alloc)
}

/// Takes a line.
fn apply_text(alloc: Global, policy: &mut Policy, line: &str) -> Result<(), RuleFault>
    ensures { IsApplied result (rules_of policy.new) (with_line (rules_of policy.old) (words_of (chars line.now))) }
{
    let Ok(words) = words_of(alloc, line) else {
        return Err(RuleFault::Memory);
    };
    apply_line(alloc, policy, words.as_slice())
}

/// What a line that isn't taken says of the text.
pub(crate) fn fault_at(line: usize, fault: RuleFault) -> PolicyFault
    ensures { result ≡ fault_at line fault }
{
    match fault {
        RuleFault::Memory => PolicyFault::Memory,
        RuleFault::Problem(problem) => PolicyFault::Line { line, problem },
    }
}

/// Takes lines, the first of which is line 1.
fn apply_lines(alloc: Global, policy: &mut Policy, lines: &[&str]) -> Result<(), PolicyFault>
    ensures ok { OnOk result (read_lines 1 (rules_of policy.old) (map (λ line. chars line.now) lines.now) ≡ Ok (rules_of policy.new)) }
    ensures err { IfErr result (AreLinesRefused (read_lines 1 (rules_of policy.old) (map (λ line. chars line.now) lines.now))) }
{
    for (i, line) in lines.iter().enumerate() {
        if let Err(fault) = apply_text(alloc, policy, line) {
            return Err(fault_at(i + 1, fault));
        }
    }
    Ok(())
}

/// Reads a policy that stands in a text, one rule a line: `keep a href`, `drop script`, `attribute lang title`, `beginning data-`,
/// `url data-src`, `scheme https`, `words code class note ^language-`, `one-of * dir ltr rtl`, `add a rel nofollow`, `relative`, `host`.
///
/// A line without words and one that begins with `#` say nothing. A text of no rule keeps nothing. Whether what is named can be kept at
/// all is asked by [`Policy::checked`].
pub fn read_policy(alloc: Global, text: &str) -> Result<Policy, PolicyFault>
    ensures ok { IfOk result (λ policy. policy_rules (chars text.now) ≡ Ok (rules_of policy)) }
    ensures err { IfErr result (AreLinesRefused (policy_rules (chars text.now))) }
{
    let mut policy = nothing(alloc);
    let Ok(lines) = lines_of(alloc, text) else {
        return Err(PolicyFault::Memory);
    };
    apply_lines(alloc, &mut policy, lines.as_slice())?;
    Ok(policy)
}
