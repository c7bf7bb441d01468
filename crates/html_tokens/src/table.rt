//! Rows of tables of named character references (HTML Standard, section 13.5).

use markup::Text;
use std::alloc::{AllocError, AllocFailed, Global};
use thiserror::Error;

/// A name without its ampersand, and the one or two characters that it stands for, as their numbers.
#[derive(Debug, Drop)]
pub struct ReferenceRow {
    /// The name, as `amp;`.
    pub name: Text,
    /// The first character.
    pub first: u32,
    /// The second character, of a name that stands for two.
    pub second: Option<u32>,
}

impl ReferenceRow {
    ghost use Rattle.std.specs.Prelude.{◌≡◌, IfOk, IfErr};
    ghost use Rattle.std.specs.Str.{chars};
    ghost use Rattle.std.specs.String.{string_bytes};
    ghost use Rattle.html_tokens.specs.declared.table.TableFault.TheVariants.{Memory};

    /// The row of a name, which keeps the string's memory. Whether it may stand in a table is found out where one is made.
    pub fn new(name: String, first: u32, second: Option<u32>) -> ReferenceRow
        ensures { result ≡ record { name = chars (string_bytes name); first = first; second = second } }
    {
        ReferenceRow {
            name: Text::new(name),
            first,
            second,
        }
    }

    /// A row of its own with the same name and values.
    pub fn copy(&self, alloc: Global) -> Result<ReferenceRow, TableFault>
        ensures ok { IfOk result (λ copied. copied ≡ self.now) }
        ensures fault { IfErr result (λ fault. fault ≡ Memory) }
    {
        let name = String::from_str(alloc, self.name.as_str())?;
        Ok(ReferenceRow::new(name, self.first, self.second))
    }
}

/// Why a table of references was not made. Rows count from 1.
#[derive(Clone, Copy, Debug, PartialEq, Eq, Hash, Error)]
pub enum TableFault {
    /// The name is not letters and digits of ASCII, one at least, with `;` or nothing after them.
    #[error("row {0} has no name of letters and digits")]
    BadName(u64),
    /// An earlier row has the name.
    #[error("row {0} has the name of an earlier row")]
    Duplicate(u64),
    /// A value is 0, or not the number of a character.
    #[error("row {0} has a value that is no character")]
    BadValue(u64),
    /// There was not enough memory.
    #[error("no memory was left")]
    Memory,
}

impl From<AllocError> for TableFault {
    ghost use Rattle.std.specs.Prelude.{◌≡◌};
    ghost use Rattle.html_tokens.specs.declared.table.TableFault.TheVariants.{Memory};

    ghost from_gives = { λ _ fault. fault ≡ Memory };

    fn from(_error: AllocError) -> TableFault {
        TableFault::Memory
    }
}

impl<T: Drop> From<AllocFailed<T>> for TableFault {
    ghost use Rattle.std.specs.Prelude.{◌≡◌};
    ghost use Rattle.html_tokens.specs.declared.table.TableFault.TheVariants.{Memory};

    ghost from_gives = { λ _ fault. fault ≡ Memory };

    fn from(_error: AllocFailed<T>) -> TableFault {
        TableFault::from(AllocError)
    }
}
