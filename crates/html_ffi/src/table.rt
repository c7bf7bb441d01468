//! The table of references that a file's bytes hold.
ghost use Rattle.std.specs.Prelude.{ℕ, List, [], Some, IfErr, IfOk};
ghost use Rattle.html_input.specs.TableFault.{IsTableFile};
ghost use Rattle.html_ffi.specs.Answers.{Fails};

use crate::answer::Failure;
use crate::page::Page;
use html_normal::{References, read_table};
use std::alloc::Global;

/// The table of references that the bytes of a file hold.
pub(crate) fn table_of(alloc: Global, file: &[u8]) -> Result<References, Failure>
    ensures ok { IfOk result (λ table. IsTableFile file.now (Some []) table) }
    ensures err { IfErr result (λ failure. (page : List ℕ) → Fails file.now page failure.answer failure.at) }
{
    match read_table(alloc, &mut Page::new(file)) {
        Ok(table) => Ok(table),
        Err(fault) => Err(Failure::from(fault)),
    }
}
