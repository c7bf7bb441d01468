//! Writing texts.
ghost use Rattle.std.specs.Prelude.{◌≡◌, ◌++◌, IfOk};
ghost use Rattle.std.specs.String.{string_bytes};
ghost use Rattle.html_listings.specs.Listings.{file_prefix};
ghost use Rattle.html_serialize.specs.Puts.{told_by};
ghost use Rattle.html_serialize.specs.Serializing.{Writes};

use devices::{Target, write_whole};
use markup::SerializeFault;
use std::alloc::{AllocError, Global};

/// Writes all of a text.
pub(crate) fn put<W: Target>(writer: &mut W, text: &str) -> Result<(), SerializeFault>
    ensures { Writes text.now (told_by W.written W.failures writer.old) result (told_by W.written W.failures writer.new) }
{
    match write_whole(writer, text.as_bytes()) {
        Ok(()) => Ok(()),
        Err(_) => Err(SerializeFault::Write),
    }
}

/// The name of a file before its lines, where it is printed.
pub(crate) fn prefix_of(alloc: Global, is_printed: bool, name: &str) -> Result<String, AllocError>
    ensures { IfOk result (λ prefix. string_bytes prefix ≡ file_prefix is_printed name.now) }
{
    let mut prefix = String::new(alloc);
    if is_printed {
        prefix.push_str(name)?;
        prefix.push_str(":")?;
    }
    Ok(prefix)
}
