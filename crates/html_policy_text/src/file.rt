//! A policy out of a file.
ghost use Rattle.std.specs.Prelude.{◌≡◌, ℕ, List, Some, IfErr, IfOk};
ghost use Rattle.html_policy_text.specs.PolicyFile.{IsPolicyFile, IsPolicyFileFault, line_fault_of, text_fault_of};
ghost use Rattle.html_policy_text.specs.Rules.{rules_of};

use crate::reading::{PolicyFault, read_policy};
use crate::rules::Problem;
use devices::Source;
use html_clean::Policy;
use html_input::{TextFault, read_text};
use std::alloc::Global;
use thiserror::Error;

/// Why a file has no policy.
#[derive(Clone, Copy, Debug, PartialEq, Eq, Error)]
pub enum PolicyFileFault {
    /// The file is not UTF-8; its longest front that is takes `at` bytes.
    #[error("not UTF-8 at byte {at}")]
    NotUtf8 {
        /// The length of that front.
        at: u64,
    },
    /// The file could not be read.
    #[error("cannot be read")]
    Read,
    /// A line is refused, the first such one.
    #[error("line {line}: {problem}")]
    Line {
        /// Its number, from 1 on.
        line: usize,
        /// Why.
        problem: Problem,
    },
    /// Out of memory.
    #[error("out of memory")]
    Memory,
}

impl From<TextFault> for PolicyFileFault {
    ghost from_gives = { λ fault made. made ≡ text_fault_of fault };

    fn from(fault: TextFault) -> PolicyFileFault {
        match fault {
            TextFault::NotUtf8 { at } => PolicyFileFault::NotUtf8 { at },
            TextFault::Read => PolicyFileFault::Read,
            TextFault::Memory => PolicyFileFault::Memory,
        }
    }
}

/// Why a text is no policy, as a fault of the file that has it.
pub(crate) fn line_fault(fault: PolicyFault) -> PolicyFileFault
    ensures { result ≡ line_fault_of fault }
{
    match fault {
        PolicyFault::Memory => PolicyFileFault::Memory,
        PolicyFault::Line { line, problem } => PolicyFileFault::Line { line, problem },
    }
}

/// Reads a file to its end, and the policy that its text says as [`read_policy`] does.
///
/// Bytes that are not UTF-8 are reported first, wherever they stand, and then the first line that is refused.
pub fn read_policy_file<R: Source>(alloc: Global, reader: &mut R) -> Result<Policy, PolicyFileFault>
    ensures ok { IfOk result (λ policy. (whole : List ℕ) → R.left reader.old ≡ Some whole
        → IsPolicyFile whole (R.left reader.new) (rules_of policy)) }
    ensures err { IfErr result (IsPolicyFileFault (R.left reader.old) (R.left reader.new)) }
{
    let text = read_text(alloc, reader)?;
    match read_policy(alloc, text.as_str()) {
        Ok(policy) => Ok(policy),
        Err(fault) => Err(line_fault(fault)),
    }
}
