//! Why a document was not normalised.
ghost use Rattle.std.specs.Prelude.{◌≡◌};
ghost use Rattle.html_normal.specs.Status.{status_of};
ghost use Rattle.html_normal.specs.Faults.{fault_of, input_fault_of, write_fault_of};
ghost use Rattle.html_normal.specs.declared.fault.NormalFault.TheVariants.{Memory};

use html_input::TextFault;
use markup::{ParseFault, SerializeFault};
use std::alloc::{AllocError, AllocFailed};
use std::error::Error;
use std::fmt;

/// Why a document was not normalised.
#[derive(Clone, Copy, Debug, PartialEq, Eq, Hash)]
pub enum NormalFault {
    /// The input is not UTF-8; its longest front that is takes `at` bytes.
    NotUtf8 { at: u64 },
    /// The input could not be read, or has more than `u64::MAX` bytes.
    Read,
    /// The text could not be written to its end.
    Write,
    /// There was not enough memory.
    Memory,
    /// The tree builder refused a token. No text leads to this.
    Refused,
}

impl From<AllocError> for NormalFault {
    ghost from_gives = { λ _ fault. fault ≡ Memory };

    fn from(_error: AllocError) -> NormalFault {
        NormalFault::Memory
    }
}

impl<T: Drop> From<AllocFailed<T>> for NormalFault {
    ghost from_gives = { λ _ fault. fault ≡ Memory };

    fn from(_error: AllocFailed<T>) -> NormalFault {
        NormalFault::Memory
    }
}

impl From<TextFault> for NormalFault {
    ghost from_gives = { λ fault made. made ≡ input_fault_of fault };

    fn from(fault: TextFault) -> NormalFault {
        match fault {
            TextFault::NotUtf8 { at } => NormalFault::NotUtf8 { at },
            TextFault::Read => NormalFault::Read,
            TextFault::Memory => NormalFault::Memory,
        }
    }
}

/// What fails after want of memory fails for want of memory.
impl From<ParseFault> for NormalFault {
    ghost from_gives = { λ fault made. made ≡ fault_of fault };

    fn from(fault: ParseFault) -> NormalFault {
        match fault {
            ParseFault::Memory | ParseFault::Failed => NormalFault::Memory,
            ParseFault::TokenInText | ParseFault::Ended | ParseFault::Shape => NormalFault::Refused,
        }
    }
}

/// Of a serializer that writes a tree only `Memory` and `Write` come.
impl From<SerializeFault> for NormalFault {
    ghost from_gives = { λ fault made. made ≡ write_fault_of fault };

    fn from(fault: SerializeFault) -> NormalFault {
        match fault {
            SerializeFault::Memory => NormalFault::Memory,
            SerializeFault::Write
            | SerializeFault::NoParent
            | SerializeFault::NoElemInfo
            | SerializeFault::Failed => NormalFault::Write,
        }
    }
}

/// The program's line on a document that was not normalised.
impl fmt::Display for NormalFault {
    ghost use Rattle.std.specs.Prelude.{Some};
    ghost use Rattle.html_normal.specs.Lines.{fault_line};

    ghost output = { λ fault. Some (fault_line fault) };

    fn fmt<W: fmt::Write>(&self, f: &mut fmt::Formatter<W>) -> fmt::Result {
        match self {
            NormalFault::NotUtf8 { at } => write!(f, "fault: not UTF-8 at byte {at}"),
            NormalFault::Read => write!(f, "fault: read"),
            NormalFault::Write => write!(f, "fault: write"),
            NormalFault::Memory => write!(f, "fault: memory"),
            NormalFault::Refused => write!(f, "fault: refused"),
        }
    }
}

impl Error for NormalFault {}

impl NormalFault {
    /// The status with which the program ends.
    pub fn status(&self) -> u8
        ensures { result ≡ status_of self.now }
    {
        match self {
            NormalFault::NotUtf8 { .. } => 1,
            NormalFault::Read | NormalFault::Write => 3,
            NormalFault::Memory => 4,
            NormalFault::Refused => 5,
        }
    }
}
