//! What is written to standard output.
ghost use Rattle.std.specs.Prelude.{◌≡◌, ◌++◌, IfErr};
ghost use Rattle.figpliers.specs.Puts.{told_by};
ghost use Rattle.figpliers_program.specs.Pages.{ended};
ghost use Rattle.figpliers_program.specs.Printing.{Prints};
ghost use Rattle.figpliers_program.specs.declared.faults.PageFault.TheVariants.{Write};

use crate::faults::PageFault;
use figpliers::{Target, write_whole};
use std::alloc::Global;

/// Writes all of a text.
pub fn put<W: Target>(writer: &mut W, text: &str) -> Result<(), PageFault>
    ensures prints { Prints text.now (told_by W.written W.failures writer.old) result (told_by W.written W.failures writer.new) }
    ensures fault { IfErr result (λ fault. fault ≡ Write) }
{
    match write_whole(writer, text.as_bytes()) {
        Ok(()) => Ok(()),
        Err(_) => Err(PageFault::Write),
    }
}

/// Writes a text, and another one after it.
pub fn put_both<W: Target>(writer: &mut W, text: &str, other: &str) -> Result<(), PageFault>
    ensures { Prints (text.now ++ other.now) (told_by W.written W.failures writer.old) result
        (told_by W.written W.failures writer.new) }
{
    put(writer, text)?;
    put(writer, other)
}

/// Writes a text, and a line feed after it unless it ends with one.
pub fn put_ended<W: Target>(writer: &mut W, text: &str) -> Result<(), PageFault>
    ensures { Prints (ended text.now) (told_by W.written W.failures writer.old) result (told_by W.written W.failures writer.new) }
{
    if text.as_bytes().ends_with(b"\n") {
        put(writer, text)
    } else {
        put_both(writer, text, "\n")
    }
}
