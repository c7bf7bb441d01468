//! Why nothing was cleaned, or not all.
ghost use Rattle.std.specs.Prelude.{◌≡◌};
ghost use Rattle.html_clean_program.specs.Lines.{has_line, is_other};

use html_normal::{NormalFault, TableFileFault};
use html_policy_text::PolicyFileFault;
use markup::Text;

/// Why nothing was cleaned, or not all.
#[derive(Debug, Drop)]
pub enum CleanFault {
    /// The words ask for nothing that can be done.
    Usage,
    /// The policy names what is never kept.
    NeverKept(Text),
    /// The file with the policy has none.
    Policy {
        /// The file's name.
        file: Text,
        /// Why.
        fault: PolicyFileFault,
    },
    /// The file with the table of references has none.
    Table(TableFileFault),
    /// Out of memory before any page was read, or a ready policy was not written.
    Normal(NormalFault),
    /// A page was not read, not cleaned or not written.
    Page(NormalFault),
}

impl From<NormalFault> for CleanFault {
    ghost use Rattle.html_clean_program.specs.declared.fault.CleanFault.TheVariants.{Page};

    ghost from_gives = { λ fault made. made ≡ Page fault };

    fn from(fault: NormalFault) -> CleanFault {
        CleanFault::Page(fault)
    }
}

/// Whether a fault is another than a failed write to standard output.
pub(crate) fn is_other(fault: NormalFault) -> bool
    ensures { result ≡ is_other fault }
{
    match fault {
        NormalFault::Write => false,
        NormalFault::NotUtf8 { .. }
        | NormalFault::Read
        | NormalFault::Memory
        | NormalFault::Refused => true,
    }
}

/// Whether a fault is still to be reported by a line on standard error: that of a page was, and a failed write to standard output is not.
pub(crate) fn has_line(fault: &CleanFault) -> bool
    ensures { result ≡ has_line fault.now }
{
    match fault {
        CleanFault::Page(_) => false,
        CleanFault::Normal(why) => is_other(*why),
        CleanFault::Usage
        | CleanFault::NeverKept(_)
        | CleanFault::Policy { .. }
        | CleanFault::Table(_) => true,
    }
}
