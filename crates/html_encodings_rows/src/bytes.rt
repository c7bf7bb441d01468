//! Bytes that are written as hexadecimal digits.
ghost use Rattle.std.specs.Prelude.{◌<◌};

use std::alloc::{AllocError, Global};

/// A hexadecimal digit; what is none counts as 0.
fn digit(byte: u8) -> u8
    ensures { result < 16 }
{
    match byte {
        b'0'..=b'9' => byte - b'0',
        b'A'..=b'F' => byte - b'A' + 10,
        _ => 0,
    }
}

/// The bytes that pairs of digits stand for.
pub fn bytes_of(alloc: Global, digits: &str) -> Result<Vec<u8>, AllocError> {
    let mut bytes = Vec::new(alloc);
    let mut rest = digits.as_bytes();
    while let [high, low, others @ ..] = rest {
        bytes.push(digit(*high) * 16 + digit(*low))?;
        rest = others;
    }
    Ok(bytes)
}
