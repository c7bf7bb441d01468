//! A whole input, or a whole page, decoded.
ghost use Rattle.std.specs.Prelude.{◌≡◌, IfOk, drop};
ghost use Rattle.std.specs.Option.{option_copied};
ghost use Rattle.html_encodings.specs.Sniffing.{sniffed};
ghost use Rattle.html_encodings_multibyte.specs.Texts.{IsText};

use crate::every::Every;
use html_encodings::{Decoded, Encoding, Sniffed, sniff};
use std::alloc::{AllocError, Global};

/// The text of an input in an encoding.
///
/// A byte order mark is read as any other bytes: [`decode_page`] leaves it out.
pub fn decode(alloc: Global, encoding: Encoding, bytes: &[u8]) -> Result<Decoded, AllocError>
    ensures { IfOk result (IsText encoding bytes.now) }
{
    html_encodings::decode(alloc, Every::new(encoding), bytes)
}

/// The text of a page, and which encoding it is in: by its byte order mark, which is left out, the label that came with it,
/// a declaration among its first 1,024 bytes, or else the fallback, which for most pages is windows-1252.
pub fn decode_page(
    alloc: Global,
    bytes: &[u8],
    label: Option<&[u8]>,
    fallback: Encoding,
) -> Result<(Decoded, Sniffed), AllocError>
    ensures sniffed { IfOk result (λ page. page.1 ≡ sniffed bytes.now (option_copied label.entry) fallback) }
    ensures text { IfOk result (λ page. IsText page.1.encoding (drop page.1.mark_length bytes.now) page.0) }
{
    let sniffed = sniff(bytes, label, fallback);
    let text = if sniffed.mark_length < bytes.len() {
        &bytes[sniffed.mark_length..]
    } else {
        &[]
    };
    let decoded = decode(alloc, sniffed.encoding, text)?;
    Ok((decoded, sniffed))
}
