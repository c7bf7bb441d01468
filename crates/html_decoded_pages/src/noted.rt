//! The documents of pages in any encoding, with their parse errors.
ghost use Rattle.std.specs.Prelude.{◌≡◌, IfErr, IfOk, length, true, option_copied, string_bytes};
ghost use Rattle.html_normal.specs.declared.fault.NormalFault.TheVariants.{Memory};
ghost use Rattle.html_encodings.specs.Sniffing.{sniffed};
ghost use Rattle.html_encodings_multibyte.specs.Texts.{IsText};
ghost use Rattle.html_decoded_pages.specs.Changing.{is_tentative};
ghost use Rattle.html_decoded_pages.specs.DecodedPages.{IsDecodedNoted, IsNotedPage, IsParsedPage, unmarked};

use crate::changing::is_tentative;
use crate::page::DecodedPage;
use crate::parsing::{Parsed, parse_pieces};
use html_encodings::{Decoded, Encoding, Sniffed};
use html_encodings_multibyte::{decode, decode_page};
use html_normal::{NormalFault, References};
use html_pages::{NotedForest, exact_for, noted_document};
use html_places::Pieces;
use std::alloc::Global;

/// The document of a text that was decoded by an encoding; or the other encoding in which it is to be read.
fn parse_noted(
    alloc: Global,
    references: &References,
    text: &str,
    encoding: Encoding,
) -> Result<Parsed<NotedForest>, NormalFault>
    ensures ok { IfOk result (IsParsedPage (IsNotedPage references.now) references.now text.now encoding) }
    ensures fault { IfErr result (λ fault. fault ≡ Memory) }
{
    let Ok(table) = references.copy(alloc) else {
        return Err(NormalFault::Memory);
    };
    let noted = NotedForest::new(alloc)?;
    let exact = exact_for(text);
    let mut pieces = Pieces::new(alloc, text, exact.tokenizer);
    let parsed = parse_pieces(alloc, noted, exact, table, &mut pieces, encoding)?;
    match parsed {
        Parsed::Whole(built) => {
            let placed = pieces.end(built)?;
            Ok(Parsed::Whole(placed))
        }
        Parsed::Other(other) => Ok(Parsed::Other(other)),
    }
}

/// The document of a page whose encoding was found, which may give way to another.
fn tentative_noted(
    alloc: Global,
    references: References,
    bytes: &[u8],
    decoded: Decoded,
    sniffed: Sniffed,
) -> Result<DecodedPage<NotedForest>, NormalFault>
    requires tentative { is_tentative sniffed.why ≡ true }
    requires text { IsText sniffed.encoding bytes.now decoded }
    ensures ok { IfOk result (IsDecodedNoted references sniffed bytes.now) }
    ensures fault { IfErr result (λ fault. fault ≡ Memory) }
{
    let Decoded { text, errors } = decoded;
    let parsed = parse_noted(alloc, &references, text.as_str(), sniffed.encoding)?;
    match parsed {
        Parsed::Whole(noted) => Ok(DecodedPage {
            content: noted,
            encoding: sniffed.encoding,
            sniffed,
            errors,
        }),
        Parsed::Other(encoding) => {
            let again = decode(alloc, encoding, bytes)?;
            let noted = noted_document(alloc, references, again.text)?;
            Ok(DecodedPage {
                content: noted,
                encoding,
                sniffed,
                errors: again.errors,
            })
        }
    }
}

/// The document of a page, with those of its parse errors that could be kept.
fn noted_page(
    alloc: Global,
    references: References,
    bytes: &[u8],
    label: Option<&[u8]>,
    fallback: Encoding,
) -> Result<DecodedPage<NotedForest>, NormalFault>
    ensures ok { IfOk result (λ page. let found = sniffed bytes.now (option_copied label.entry) fallback in
        IsDecodedNoted references found (unmarked found bytes.now) page) }
    ensures fault { IfErr result (λ fault. fault ≡ Memory) }
{
    let (decoded, sniffed) = decode_page(alloc, bytes, label, fallback)?;
    if is_tentative(sniffed.why) {
        return tentative_noted(alloc, references, bytes, decoded, sniffed);
    }
    let noted = noted_document(alloc, references, decoded.text)?;
    Ok(DecodedPage {
        content: noted,
        encoding: sniffed.encoding,
        sniffed,
        errors: decoded.errors,
    })
}

/// The document of a page, as [`decoded_document`](crate::decoded_document) reads it, with the places of its nodes, and with all its
/// parse errors, in the order in which they were found; a place is that in the decoded text. [`DecodedPage::errors`] counts those of the
/// bytes.
///
/// Errors: [`NormalFault::Memory`].
pub fn decoded_noted_document(
    alloc: Global,
    references: References,
    bytes: &[u8],
    label: Option<&[u8]>,
    fallback: Encoding,
) -> Result<DecodedPage<NotedForest>, NormalFault>
    ensures ok { IfOk result (λ page. let found = sniffed bytes.now (option_copied label.entry) fallback in
        IsDecodedNoted references found (unmarked found bytes.now) page) }
    ensures all { IfOk result (λ page. length page.content.errors.items ≡ page.content.forest.errors) }
    ensures fault { IfErr result (λ fault. fault ≡ Memory) }
{
    let page = noted_page(alloc, references, bytes, label, fallback)?;
    if !page.content.is_complete() {
        return Err(NormalFault::Memory);
    }
    Ok(page)
}
