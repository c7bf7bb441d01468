//! The table of named character references that the Standard has (HTML Standard, section 13.5), built in.
//!
//! Tests: `pages_tests`.
#![tactic(auto)]

ghost use Rattle.std.specs.Prelude.{◌≡◌, IfErr, IfOk, Ok};
ghost use Rattle.html_input.specs.TableFile.{rows_of};
ghost use Rattle.html_tokens.specs.declared.table.TableFault.TheVariants.{Memory};

mod rows;

use devices::MemReader;
use html_input::{PIECE, read_table};
pub use html_references::{ReferenceRow, References, TableFault};
pub use rows::STANDARD_ROWS;
use std::alloc::Global;

// The table whose rows are the lines of a text. What else is wrong with it is told as want of memory.
fn table_of(alloc: Global, text: &str) -> Result<References, TableFault>
    ensures ok { IfOk result (λ table. rows_of text.now ≡ Ok table) }
    ensures fault { IfErr result (λ fault. fault ≡ Memory) }
{
    let lines = Vec::from_slice(alloc, text.as_bytes())?;
    let mut reader = MemReader::new(lines, PIECE, None);
    match read_table(alloc, &mut reader) {
        Ok(table) => Ok(table),
        Err(_) => Err(TableFault::Memory),
    }
}

/// The table of the Standard: the rows of the lines of [`STANDARD_ROWS`]. It is made anew at each call: who parses many pages makes it
/// once, and copies it.
///
/// Errors: [`TableFault::Memory`]. Nothing else is wrong with these lines; the tests see to that.
pub fn standard(alloc: Global) -> Result<References, TableFault>
    ensures ok { IfOk result (λ table. rows_of STANDARD_ROWS.now ≡ Ok table) }
    ensures fault { IfErr result (λ fault. fault ≡ Memory) }
{
    table_of(alloc, STANDARD_ROWS)
}
