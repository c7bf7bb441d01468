//! Text whose bytes come in pieces.
ghost use Rattle.std.specs.Prelude.{◌+◌, ◌<◌, ◌^◌, length, IfOk, IfErr};
ghost use Rattle.std.specs.String.{string_bytes};
ghost use Rattle.html_input.specs.Reading.{IsFaultAfter, IsSplit};

use crate::fault::TextFault;
use crate::read::valid_front;

/// The text of bytes, and after it those of a character that they cut. In a fault, places count the bytes that stand before.
pub fn split_text(bytes: Vec<u8>, before: u64) -> Result<(String, Vec<u8>), TextFault>
    requires { before + length bytes.items < 2 ^ 64 }
    ensures ok { IfOk result (λ parts. IsSplit bytes.items (string_bytes parts.0) parts.1.items) }
    ensures err { IfErr result (IsFaultAfter before bytes.items) }
{
    let mut bytes = bytes;
    let valid = match valid_front(bytes.as_slice(), 0) {
        Ok(valid) => valid,
        Err(valid) => {
            return Err(TextFault::NotUtf8 {
                at: before + valid as u64,
            });
        }
    };
    let cut = bytes.split_off(valid)?;
    // SAFETY: `valid_front` says that this front is text.
    Ok((unsafe { String::from_utf8_unchecked(bytes) }, cut))
}
