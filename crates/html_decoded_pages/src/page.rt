//! Pages in any encoding: their texts, and their documents.
ghost use Rattle.std.specs.Prelude.{◌≡◌, IfErr, IfOk, true, false, option_copied, string_bytes};
ghost use Rattle.html_normal.specs.declared.fault.NormalFault.TheVariants.{Memory};
ghost use Rattle.html_encodings.specs.Sniffing.{sniffed};
ghost use Rattle.html_encodings_multibyte.specs.Texts.{IsText};
ghost use Rattle.html_pages.specs.Pages.{IsPage};
ghost use Rattle.html_decoded_pages.specs.Changing.{is_tentative};
ghost use Rattle.html_decoded_pages.specs.DecodedPages.{IsDecodedDocument, IsDecodedText, IsParsedPage, unmarked};

use crate::changing::is_tentative;
use crate::parsing::{Parsed, parse};
use html_encodings::{Decoded, Encoding, Sniffed};
use html_encodings_multibyte::{decode, decode_page};
use html_forest::Forest;
use html_normal::{Exact, NormalFault, References};
use html_pages::document;
use std::alloc::Global;

// Nobody looks at the errors.
const FEW_ERRORS: Exact = Exact {
    tokenizer: false,
    tree_builder: false,
};

/// What was made of a page, and which encoding it is in.
#[derive(Drop)]
pub struct DecodedPage<T> {
    /// What was made of it: its text, or its document.
    pub content: T,
    /// The encoding in which it is read. Where it is another than what was found before it was parsed, a `meta` says so.
    pub encoding: Encoding,
    /// The encoding that was found before it was parsed, and how.
    pub sniffed: Sniffed,
    /// How many errors the bytes have in the encoding, at most `u64::MAX`. Each stands as U+FFFD in the text.
    pub errors: u64,
}

/// The document of a text that was decoded by an encoding; or the other encoding in which it is to be read.
fn parse_page(
    alloc: Global,
    references: &References,
    text: String,
    encoding: Encoding,
) -> Result<Parsed<Forest>, NormalFault>
    ensures ok { IfOk result (IsParsedPage (IsPage references.now false) references.now (string_bytes text) encoding) }
    ensures fault { IfErr result (λ fault. fault ≡ Memory) }
{
    let Ok(table) = references.copy(alloc) else {
        return Err(NormalFault::Memory);
    };
    let forest = Forest::new(alloc)?;
    parse(alloc, forest, FEW_ERRORS, table, text, encoding)
}

/// The text of a page whose encoding was found, which may give way to another.
fn tentative_text(
    alloc: Global,
    references: &References,
    bytes: &[u8],
    decoded: Decoded,
    sniffed: Sniffed,
) -> Result<DecodedPage<String>, NormalFault>
    requires tentative { is_tentative sniffed.why ≡ true }
    requires text { IsText sniffed.encoding bytes.now decoded }
    ensures ok { IfOk result (IsDecodedText references.now sniffed bytes.now) }
    ensures fault { IfErr result (λ fault. fault ≡ Memory) }
{
    let copy = decoded.text.clone()?;
    let parsed = parse_page(alloc, references, copy, sniffed.encoding)?;
    match parsed {
        Parsed::Whole(_) => Ok(DecodedPage {
            content: decoded.text,
            encoding: sniffed.encoding,
            sniffed,
            errors: decoded.errors,
        }),
        Parsed::Other(encoding) => {
            let again = decode(alloc, encoding, bytes)?;
            Ok(DecodedPage {
                content: again.text,
                encoding,
                sniffed,
                errors: again.errors,
            })
        }
    }
}

/// The document of a page whose encoding was found, which may give way to another.
fn tentative_document(
    alloc: Global,
    references: References,
    bytes: &[u8],
    decoded: Decoded,
    sniffed: Sniffed,
) -> Result<DecodedPage<Forest>, NormalFault>
    requires tentative { is_tentative sniffed.why ≡ true }
    requires text { IsText sniffed.encoding bytes.now decoded }
    ensures ok { IfOk result (IsDecodedDocument references sniffed bytes.now) }
    ensures fault { IfErr result (λ fault. fault ≡ Memory) }
{
    let Decoded { text, errors } = decoded;
    let parsed = parse_page(alloc, &references, text, sniffed.encoding)?;
    match parsed {
        Parsed::Whole(forest) => Ok(DecodedPage {
            content: forest,
            encoding: sniffed.encoding,
            sniffed,
            errors,
        }),
        Parsed::Other(encoding) => {
            let again = decode(alloc, encoding, bytes)?;
            let forest = document(alloc, references, again.text)?;
            Ok(DecodedPage {
                content: forest,
                encoding,
                sniffed,
                errors: again.errors,
            })
        }
    }
}

/// The text of a page: in the encoding of its byte order mark, or of the label that came with it, as in a header of HTTP. Where there is
/// neither, in that which its first 1,024 bytes declare, or else the fallback, which for most pages is windows-1252; and if a `meta` that
/// the parser meets says otherwise, in that one (HTML Standard, sections 13.2.3.2 and 13.2.3.4).
///
/// Errors: [`NormalFault::Memory`].
pub fn decoded_text(
    alloc: Global,
    references: &References,
    bytes: &[u8],
    label: Option<&[u8]>,
    fallback: Encoding,
) -> Result<DecodedPage<String>, NormalFault>
    ensures ok { IfOk result (λ page. let found = sniffed bytes.now (option_copied label.entry) fallback in
        IsDecodedText references.now found (unmarked found bytes.now) page) }
    ensures fault { IfErr result (λ fault. fault ≡ Memory) }
{
    let (decoded, sniffed) = decode_page(alloc, bytes, label, fallback)?;
    if is_tentative(sniffed.why) {
        return tentative_text(alloc, references, bytes, decoded, sniffed);
    }
    Ok(DecodedPage {
        content: decoded.text,
        encoding: sniffed.encoding,
        sniffed,
        errors: decoded.errors,
    })
}

/// The document of a page, in the encoding in which [`decoded_text`] reads it. The page is parsed once, or once more from its front where
/// a `meta` says otherwise.
///
/// Errors: [`NormalFault::Memory`].
pub fn decoded_document(
    alloc: Global,
    references: References,
    bytes: &[u8],
    label: Option<&[u8]>,
    fallback: Encoding,
) -> Result<DecodedPage<Forest>, NormalFault>
    ensures ok { IfOk result (λ page. let found = sniffed bytes.now (option_copied label.entry) fallback in
        IsDecodedDocument references found (unmarked found bytes.now) page) }
    ensures fault { IfErr result (λ fault. fault ≡ Memory) }
{
    let (decoded, sniffed) = decode_page(alloc, bytes, label, fallback)?;
    if is_tentative(sniffed.why) {
        return tentative_document(alloc, references, bytes, decoded, sniffed);
    }
    let forest = document(alloc, references, decoded.text)?;
    Ok(DecodedPage {
        content: forest,
        encoding: sniffed.encoding,
        sniffed,
        errors: decoded.errors,
    })
}
