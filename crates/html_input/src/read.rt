//! Reading a text from a source of bytes.
ghost use Rattle.std.specs.Prelude.{◌≡◌, ◌≤◌, length, IfOk, IfErr, IsUtf8, take};
ghost use Rattle.std.specs.Io.KnownBytes.{IsAtEnd, prepend_known};
ghost use Rattle.std.specs.String.{string_bytes};
ghost use Rattle.devices.specs.Devices.{count_after};
ghost use Rattle.html_input.specs.Reading.{IsFront, IsReadFault, StaysAtFault, is_read_fault};

use crate::characters::whole_front;
use crate::fault::TextFault;
use devices::Source;
use std::alloc::Global;

/// The most bytes that one read asks for. The more they are, the fewer tags and characters are cut between two reads.
pub const PIECE: usize = 32_768;

/// The length of the longest front of bytes that begin a text; so much of it is known. An error is that of bytes that begin none.
pub(crate) fn valid_front(bytes: &[u8], known: usize) -> Result<usize, usize>
    requires within { known ≤ length bytes.now }
    requires front { IsUtf8 (take known bytes.now) }
    ensures ok { IfOk result (IsFront bytes.now) }
    ensures err { IfErr result (StaysAtFault bytes.now) }
{
    let known = known + whole_front(&bytes[known..]);
    match str::from_utf8(&bytes[known..]) {
        Ok(_) => Ok(bytes.len()),
        Err(error) => {
            let valid = known + error.valid_up_to();
            match error.error_len() {
                None => Ok(valid),
                Some(_) => Err(valid),
            }
        }
    }
}

/// Reads a text to its end, in reads of at most [`PIECE`] bytes.
///
/// A fault is told as soon as a read shows it.
pub fn read_text<R: Source>(alloc: Global, reader: &mut R) -> Result<String, TextFault>
    ensures ok { IfOk result (λ text. R.left reader.old ≡ prepend_known (string_bytes text) (R.left reader.new)) }
    ensures end { IfOk result (λ text. IsAtEnd (R.left reader.new)) }
    ensures err { IfErr result (IsReadFault (R.left reader.old) (R.left reader.new)) }
    ensures counted { R.failures reader.new ≡ count_after (is_read_fault result) (R.failures reader.old) }
    ensures same_references { R.references reader.new ≡ R.references reader.old }
{
    let mut bytes = Vec::new(alloc);
    let mut valid = 0;
    let mut buffer = [0; PIECE];
    loop {
        let Ok(count) = reader.read_some(&mut buffer) else {
            return Err(TextFault::Read);
        };
        if count == 0 {
            break;
        }
        bytes.extend_from_slice(&buffer[..count])?;
        valid = match valid_front(bytes.as_slice(), valid) {
            Ok(valid) => valid,
            Err(valid) => return Err(TextFault::NotUtf8 { at: valid as u64 }),
        };
    }
    if valid < bytes.len() {
        return Err(TextFault::NotUtf8 { at: valid as u64 });
    }
    Ok(String::from_utf8(bytes).unwrap())
}
