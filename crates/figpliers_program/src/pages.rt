//! Pages from files and from standard input: their bytes, their texts and their documents.
ghost use Rattle.std.specs.Prelude.{◌≡◌, IfErr, IfOk, length, option_copied, option_map, string_bytes};
ghost use Rattle.figpliers_program.specs.Reading.{HasNoText, IsDocumentOf, IsFallback, IsFileRead, IsFileUnread, IsNotRead, IsNotedOf};
ghost use Rattle.figpliers_program.specs.Reading.{IsRead, IsReadFrom, IsTextOf, IsUnread};
ghost use Rattle.figpliers_program.specs.declared.command.Reading.TheVariants.{Utf8};

use crate::command::Reading;
use crate::faults::PageFault;
use crate::files::Files;
use figpliers::{
    Encoding, Forest, NotedForest, References, Source, decoded_document, decoded_noted_document,
    decoded_text, document, document_lossy, noted_document,
};
use std::alloc::Global;
use std::str;

/// How many bytes are asked for a read.
const PIECE: usize = 4096;

/// All bytes that a source has.
fn read_bytes<R: Source>(alloc: Global, reader: &mut R) -> Result<Vec<u8>, PageFault>
    ensures ok { IfOk result (λ bytes. IsReadFrom (R.left reader.old) (R.left reader.new) bytes.items) }
    ensures err { IfErr result IsUnread }
{
    let mut bytes = Vec::new(alloc);
    let mut buffer = [0; PIECE];
    loop {
        let Ok(count) = reader.read_some(&mut buffer) else {
            return Err(PageFault::Read);
        };
        if count == 0 {
            return Ok(bytes);
        }
        bytes.extend_from_slice(&buffer[..count])?;
    }
}

/// The bytes of the page in a file.
fn read_file<File: Source + Drop, Opens: Files<File>>(
    alloc: Global,
    opener: &Opens,
    name: &str,
) -> Result<Vec<u8>, PageFault>
    ensures ok { IfOk result (λ bytes. IsFileRead (Opens.files opener.now name.now) bytes.items) }
    ensures err { IfErr result (IsFileUnread (Opens.files opener.now name.now)) }
{
    match opener.open(name) {
        Some(mut file) => read_bytes(alloc, &mut file),
        None => Err(PageFault::Open {
            why: opener.why(name),
        }),
    }
}

/// The bytes of the page in a file, or of the one on standard input by the name `-`.
pub fn read_page<File: Source + Drop, Opens: Files<File>, Input: Source>(
    alloc: Global,
    opener: &Opens,
    input: &mut Input,
    name: &str,
) -> Result<Vec<u8>, PageFault>
    ensures ok { IfOk result (λ bytes. IsRead (Opens.files opener.now) name.now (Input.left input.old) (Input.left input.new) bytes.items) }
    ensures err { IfErr result (IsNotRead (Opens.files opener.now) name.now (Input.left input.old) (Input.left input.new)) }
{
    if name == "-" {
        return read_bytes(alloc, input);
    }
    read_file(alloc, opener, name)
}

/// The encoding of bytes of which nothing says which it is: UTF-8 where they are in it, as most files are (HTML Standard, section
/// 13.2.3.2).
fn fallback_of(bytes: &[u8]) -> Encoding
    ensures { IsFallback bytes.now result }
{
    match str::from_utf8(bytes) {
        Ok(_) => Encoding::Utf8,
        Err(_) => Encoding::Windows1252,
    }
}

/// A label that may be missing, as bytes.
fn label_bytes(label: &Option<String>) -> Option<&[u8]>
    ensures { option_copied result ≡ option_map string_bytes label.now }
{
    match label {
        Some(label) => Some(label.as_bytes()),
        None => None,
    }
}

/// The text of bytes that are to be UTF-8.
fn utf8_text(bytes: Vec<u8>) -> Result<String, PageFault>
    ensures ok { IfOk result (λ text. string_bytes text ≡ bytes.items) }
    ensures fault { IfErr result (HasNoText Utf8 bytes.items) }
{
    match String::from_utf8(bytes) {
        Ok(text) => Ok(text),
        Err(error) => Err(PageFault::NotUtf8 {
            at: error.utf8_error().valid_up_to() as u64,
        }),
    }
}

/// The text of a page.
pub fn text_of(
    alloc: Global,
    table: &References,
    reading: &Reading,
    bytes: Vec<u8>,
) -> Result<String, PageFault>
    ensures ok { IfOk result (λ text. IsTextOf table.now reading.now bytes.items (string_bytes text)) }
    ensures fault { IfErr result (HasNoText reading.now bytes.items) }
{
    match reading {
        Reading::Utf8 => utf8_text(bytes),
        Reading::Lossy => Ok(String::from_utf8_lossy(alloc, bytes.as_slice())?),
        Reading::Found { label } => {
            let bytes = bytes.as_slice();
            let fallback = fallback_of(bytes);
            let page = decoded_text(alloc, table, bytes, label_bytes(label), fallback)?;
            Ok(page.content)
        }
    }
}

/// The document of a page.
pub fn document_of(
    alloc: Global,
    table: References,
    reading: &Reading,
    bytes: Vec<u8>,
) -> Result<Forest, PageFault>
    ensures ok { IfOk result (IsDocumentOf table reading.now bytes.items) }
    ensures fault { IfErr result (HasNoText reading.now bytes.items) }
{
    match reading {
        Reading::Utf8 => Ok(document(alloc, table, utf8_text(bytes)?)?),
        Reading::Lossy => Ok(document_lossy(alloc, table, bytes.as_slice())?),
        Reading::Found { label } => {
            let bytes = bytes.as_slice();
            let fallback = fallback_of(bytes);
            let page = decoded_document(alloc, table, bytes, label_bytes(label), fallback)?;
            Ok(page.content)
        }
    }
}

/// The document of a page, with its parse errors.
pub fn noted_of(
    alloc: Global,
    table: References,
    reading: &Reading,
    bytes: Vec<u8>,
) -> Result<NotedForest, PageFault>
    ensures ok { IfOk result (IsNotedOf table reading.now bytes.items) }
    ensures all { IfOk result (λ noted. length noted.errors.items ≡ noted.forest.errors) }
    ensures fault { IfErr result (HasNoText reading.now bytes.items) }
{
    match reading {
        Reading::Utf8 => Ok(noted_document(alloc, table, utf8_text(bytes)?)?),
        Reading::Lossy => {
            let text = String::from_utf8_lossy(alloc, bytes.as_slice())?;
            Ok(noted_document(alloc, table, text)?)
        }
        Reading::Found { label } => {
            let bytes = bytes.as_slice();
            let fallback = fallback_of(bytes);
            let page = decoded_noted_document(alloc, table, bytes, label_bytes(label), fallback)?;
            Ok(page.content)
        }
    }
}
