//! Bytes go into a writer.
ghost use Rattle.std.specs.Prelude.{◌≡◌, ◌++◌};
ghost use Rattle.html_serialize.specs.Puts.{Puts, joined, told_by};

use markup::SerializeFault;
use markup::devices::{Target, write_whole};

/// Writes all of the bytes, by as many writes as it takes.
#[inline(never)]
fn put_rest<Wr: Target>(writer: &mut Wr, bytes: &[u8]) -> Result<(), SerializeFault>
    ensures puts { Puts (told_by Wr.written Wr.failures writer.old) bytes.now result (told_by Wr.written Wr.failures writer.new) }
    ensures same_references { Wr.references writer.new ≡ Wr.references writer.old }
{
    match write_whole(writer, bytes) {
        Ok(()) => Ok(()),
        Err(_) => Err(SerializeFault::Write),
    }
}

/// Writes all of the bytes. Most writers take them in one write, which costs no loop.
#[inline(always)]
pub(crate) fn put<Wr: Target>(writer: &mut Wr, bytes: &[u8]) -> Result<(), SerializeFault>
    ensures puts { Puts (told_by Wr.written Wr.failures writer.old) bytes.now result (told_by Wr.written Wr.failures writer.new) }
    ensures same_references { Wr.references writer.new ≡ Wr.references writer.old }
{
    if bytes.is_empty() {
        return Ok(());
    }
    match writer.write_some(bytes) {
        Ok(count) => {
            if count == bytes.len() {
                return Ok(());
            }
            if count == 0 {
                return Err(SerializeFault::Write);
            }
            put_rest(writer, &bytes[count..])
        }
        Err(_) => Err(SerializeFault::Write),
    }
}

/// Writes all of the parts, in order.
pub(crate) fn put_all<Wr: Target>(writer: &mut Wr, parts: &[&str]) -> Result<(), SerializeFault>
    ensures puts { Puts (told_by Wr.written Wr.failures writer.old) (joined parts.now) result (told_by Wr.written Wr.failures writer.new) }
    ensures same_references { Wr.references writer.new ≡ Wr.references writer.old }
{
    for part in parts {
        put(writer, part.as_bytes())?;
    }
    Ok(())
}

/// Writes three parts, in order.
pub(crate) fn put_three<'a, Wr: Target>(
    writer: &mut Wr,
    first: &'a str,
    second: &'a str,
    third: &'a str,
) -> Result<(), SerializeFault>
    ensures puts { Puts (told_by Wr.written Wr.failures writer.old) (first.now ++ (second.now ++ third.now)) result
        (told_by Wr.written Wr.failures writer.new) }
    ensures same_references { Wr.references writer.new ≡ Wr.references writer.old }
{
    put_all(writer, &[first, second, third])
}

/// Writes five parts, in order.
pub(crate) fn put_five<'a, Wr: Target>(
    writer: &mut Wr,
    first: &'a str,
    second: &'a str,
    third: &'a str,
    fourth: &'a str,
    fifth: &'a str,
) -> Result<(), SerializeFault>
    ensures puts { Puts (told_by Wr.written Wr.failures writer.old)
        (first.now ++ (second.now ++ (third.now ++ (fourth.now ++ fifth.now)))) result (told_by Wr.written Wr.failures writer.new) }
    ensures same_references { Wr.references writer.new ≡ Wr.references writer.old }
{
    put_all(writer, &[first, second, third, fourth, fifth])
}
