//! Tables of references, read from a file.
ghost use Rattle.std.specs.Prelude.{◌≡◌, ℕ, List, Some, IfOk, IfErr};
ghost use Rattle.devices.specs.Devices.{count_after};
ghost use Rattle.html_input.specs.TableFault.{IsTableFile, IsTableFault, is_table_read_fault, row_fault_of, table_fault_of};
ghost use Rattle.html_input.specs.declared.table.TableFileFault.TheVariants.{Memory};

use crate::fault::TextFault;
use crate::lines::rows_of;
use crate::read::read_text;
use devices::Source;
use html_references::{References, TableFault};
use std::alloc::{AllocError, AllocFailed, Global};
use thiserror::Error;

/// Why a file is no table of references.
#[derive(Clone, Copy, Debug, PartialEq, Eq, Error)]
pub enum TableFileFault {
    /// The file is not UTF-8; its longest front that is takes `at` bytes.
    #[error("not UTF-8 at byte {at}")]
    NotUtf8 { at: u64 },
    /// The file could not be read.
    #[error("read")]
    Read,
    /// A line is not a name and one value or two; lines are counted from 1.
    #[error("line {0}")]
    BadLine(u64),
    /// The rows are no table.
    #[error("table: {0:?}")]
    Table(#[from] TableFault),
    /// There was not enough memory.
    #[error("memory")]
    Memory,
}

impl From<AllocError> for TableFileFault {
    ghost from_gives = { λ _ fault. fault ≡ Memory };

    fn from(_error: AllocError) -> TableFileFault {
        TableFileFault::Memory
    }
}

impl<T: Drop> From<AllocFailed<T>> for TableFileFault {
    ghost from_gives = { λ _ fault. fault ≡ Memory };

    fn from(_error: AllocFailed<T>) -> TableFileFault {
        TableFileFault::Memory
    }
}

impl From<TextFault> for TableFileFault {
    ghost from_gives = { λ fault made. made ≡ table_fault_of fault };

    fn from(fault: TextFault) -> TableFileFault {
        match fault {
            TextFault::NotUtf8 { at } => TableFileFault::NotUtf8 { at },
            TextFault::Read => TableFileFault::Read,
            TextFault::Memory => TableFileFault::Memory,
        }
    }
}

/// What is told of rows that are no table.
fn row_fault(fault: TableFault) -> TableFileFault
    ensures { result ≡ row_fault_of fault }
{
    match fault {
        TableFault::Memory => TableFileFault::Memory,
        fault => TableFileFault::Table(fault),
    }
}

/// Reads a table of references: a line for each, of a name, a space, and the number of a character in one to six hexadecimal
/// digits, or of two with a space between.
///
/// A line ends with a line feed, before which a carriage return is dropped; the last may lack it. Bytes that are no text are told
/// first, then the first bad line, then what [`References::new`] says of the rows, which it counts from 1 too.
pub fn read_table<R: Source>(alloc: Global, reader: &mut R) -> Result<References, TableFileFault>
    ensures ok { IfOk result (λ table. (whole : List ℕ) → R.left reader.old ≡ Some whole → IsTableFile whole (R.left reader.new) table) }
    ensures err { IfErr result (IsTableFault (R.left reader.old) (R.left reader.new)) }
    ensures counted { R.failures reader.new ≡ count_after (is_table_read_fault result) (R.failures reader.old) }
    ensures same_references { R.references reader.new ≡ R.references reader.old }
{
    let text = read_text(alloc, reader)?;
    let rows = rows_of(alloc, text.as_str())?;
    match References::new(alloc, rows) {
        Ok(table) => Ok(table),
        Err(fault) => Err(row_fault(fault)),
    }
}
