//! Why the program `html_normal` ends without a document, for its line and its status.
ghost use Rattle.std.specs.Prelude.{◌≡◌};
ghost use Rattle.html_normal.specs.Status.{program_status_of};

use crate::fault::NormalFault;
use html_input::TableFileFault;
use html_references::TableFault;
use std::error::Error;
use std::fmt;

/// Why the program did not normalise its input.
#[derive(Clone, Copy, Debug, PartialEq, Eq)]
pub enum ProgramFault {
    /// More than one word stands after the program's name.
    Usage,
    /// The file with the table of references has none.
    Table(TableFileFault),
    /// The document was not normalised.
    Normal(NormalFault),
}

impl From<NormalFault> for ProgramFault {
    ghost use Rattle.html_normal.specs.declared.program.ProgramFault.TheVariants.{Normal};

    ghost from_gives = { λ fault made. made ≡ Normal fault };

    fn from(fault: NormalFault) -> ProgramFault {
        ProgramFault::Normal(fault)
    }
}

impl From<TableFileFault> for ProgramFault {
    ghost use Rattle.html_normal.specs.declared.program.ProgramFault.TheVariants.{Table};

    ghost from_gives = { λ fault made. made ≡ Table fault };

    fn from(fault: TableFileFault) -> ProgramFault {
        ProgramFault::Table(fault)
    }
}

/// The program's line on standard error.
impl fmt::Display for ProgramFault {
    ghost use Rattle.std.specs.Prelude.{Some};
    ghost use Rattle.html_normal.specs.Lines.{program_line};

    ghost output = { λ fault. Some (program_line fault) };

    fn fmt<W: fmt::Write>(&self, f: &mut fmt::Formatter<W>) -> fmt::Result {
        match self {
            ProgramFault::Usage => write!(f, "fault: usage: html_normal [TABLE]"),
            ProgramFault::Table(TableFileFault::NotUtf8 { at }) => {
                write!(f, "fault: table: not UTF-8 at byte {at}")
            }
            ProgramFault::Table(TableFileFault::BadLine(line)) => {
                write!(f, "fault: table: line {line}")
            }
            ProgramFault::Table(TableFileFault::Table(TableFault::BadName(row))) => {
                write!(f, "fault: table: name {row}")
            }
            ProgramFault::Table(TableFileFault::Table(TableFault::Duplicate(row))) => {
                write!(f, "fault: table: duplicate {row}")
            }
            ProgramFault::Table(TableFileFault::Table(TableFault::BadValue(row))) => {
                write!(f, "fault: table: value {row}")
            }
            ProgramFault::Table(TableFileFault::Table(TableFault::Memory)) => {
                write!(f, "fault: memory")
            }
            ProgramFault::Table(TableFileFault::Read) => write!(f, "fault: read"),
            ProgramFault::Table(TableFileFault::Memory) => write!(f, "fault: memory"),
            ProgramFault::Normal(fault) => write!(f, "{fault}"),
        }
    }
}

impl Error for ProgramFault {}

impl ProgramFault {
    /// The status with which the program ends.
    pub fn status(&self) -> u8
        ensures { result ≡ program_status_of self.now }
    {
        match self {
            ProgramFault::Usage => 2,
            ProgramFault::Table(TableFileFault::Read) => 3,
            ProgramFault::Table(TableFileFault::Memory)
            | ProgramFault::Table(TableFileFault::Table(TableFault::Memory)) => 4,
            ProgramFault::Table(_) => 2,
            ProgramFault::Normal(fault) => fault.status(),
        }
    }
}
