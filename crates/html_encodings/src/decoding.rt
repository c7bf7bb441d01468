//! A whole input decoded.
ghost use Rattle.std.specs.Prelude.{IfOk, flat_map};
ghost use Rattle.html_encodings.specs.Decoders.{decoding, IsDecoded};

use crate::decoded::Decoded;
use crate::decoder::Decoder;
use crate::handler::Handler;
use std::alloc::{AllocError, Global};

/// The text of an input.
///
/// A byte order mark is read as any other bytes: [`sniff`](crate::sniff) says how long it is.
pub fn decode<H: Handler + Copy>(
    alloc: Global,
    handler: H,
    bytes: &[u8],
) -> Result<Decoded, AllocError>
    ensures { IfOk result (IsDecoded (decoding H.step H.end handler bytes.now)) }
{
    decode_pieces(alloc, handler, &[bytes])
}

/// The text of an input that lies in pieces, wherever it was cut.
pub fn decode_pieces<H: Handler + Copy>(
    alloc: Global,
    handler: H,
    pieces: &[&[u8]],
) -> Result<Decoded, AllocError>
    ensures { IfOk result (IsDecoded (decoding H.step H.end handler (flat_map (λ piece. piece.now) pieces.now))) }
{
    let mut decoder = Decoder::new(handler);
    let mut text = String::new(alloc);
    for piece in pieces {
        decoder.feed(piece, &mut text)?;
    }
    let errors = decoder.finish(&mut text)?;
    Ok(Decoded { text, errors })
}
