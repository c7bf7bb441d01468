//! Pages in any encoding as UTF-8.
ghost use Rattle.std.specs.Prelude.{◌≡◌, IfErr, IfOk, length};
ghost use Rattle.html_ffi.specs.Answers.{Fails};
ghost use Rattle.html_ffi.specs.Decoding.{IsDecodedBy, MeansDecoded, decoded_report, encoding_number, nothing_decoded, why_number};

use crate::answer::{Answer, Failure, no_memory};
use crate::report::FigDecoded;
use crate::room::put_front;
use crate::table::table_of;
use html_decoded_pages::{DecodedPage, Encoding, Why, decoded_text};
use std::alloc::Global;

/// The number of an encoding.
fn encoding_number(encoding: Encoding) -> u8
    ensures { result ≡ encoding_number encoding }
{
    match encoding {
        Encoding::Big5 => 0,
        Encoding::EucJp => 1,
        Encoding::EucKr => 2,
        Encoding::Gb18030 => 3,
        Encoding::Gbk => 4,
        Encoding::Ibm866 => 5,
        Encoding::Iso2022Jp => 6,
        Encoding::Iso8859_2 => 7,
        Encoding::Iso8859_3 => 8,
        Encoding::Iso8859_4 => 9,
        Encoding::Iso8859_5 => 10,
        Encoding::Iso8859_6 => 11,
        Encoding::Iso8859_7 => 12,
        Encoding::Iso8859_8 => 13,
        Encoding::Iso8859_8I => 14,
        Encoding::Iso8859_10 => 15,
        Encoding::Iso8859_13 => 16,
        Encoding::Iso8859_14 => 17,
        Encoding::Iso8859_15 => 18,
        Encoding::Iso8859_16 => 19,
        Encoding::Koi8R => 20,
        Encoding::Koi8U => 21,
        Encoding::Macintosh => 22,
        Encoding::Replacement => 23,
        Encoding::ShiftJis => 24,
        Encoding::Utf8 => 25,
        Encoding::Utf16be => 26,
        Encoding::Utf16le => 27,
        Encoding::Windows874 => 28,
        Encoding::Windows1250 => 29,
        Encoding::Windows1251 => 30,
        Encoding::Windows1252 => 31,
        Encoding::Windows1253 => 32,
        Encoding::Windows1254 => 33,
        Encoding::Windows1255 => 34,
        Encoding::Windows1256 => 35,
        Encoding::Windows1257 => 36,
        Encoding::Windows1258 => 37,
        Encoding::XMacCyrillic => 38,
        Encoding::XUserDefined => 39,
    }
}

/// The number of how an encoding was found out.
fn why_number(why: Why) -> u8
    ensures { result ≡ why_number why }
{
    match why {
        Why::ByteOrderMark => 0,
        Why::Transport => 1,
        Why::Declaration => 2,
        Why::Fallback => 3,
    }
}

/// The report of a page that was decoded to so many bytes.
fn report_of(length: usize, page: &DecodedPage<String>) -> FigDecoded
    ensures { result ≡ decoded_report length page.now }
{
    FigDecoded {
        length,
        errors: page.errors,
        at: 0,
        encoding: encoding_number(page.encoding),
        why: why_number(page.sniffed.why),
    }
}

/// The report of a page that was not decoded, with the place of the fault.
fn nothing(at: u64) -> FigDecoded
    ensures { result ≡ nothing_decoded at }
{
    FigDecoded {
        length: 0,
        errors: 0,
        at,
        encoding: 0,
        why: 0,
    }
}

/// The text of a page.
fn page_text(
    alloc: Global,
    file: &[u8],
    label: &[u8],
    page: &[u8],
) -> Result<DecodedPage<String>, Failure>
    ensures ok { IfOk result (IsDecodedBy file.now label.now page.now) }
    ensures err { IfErr result (λ failure. Fails file.now page.now failure.answer failure.at) }
{
    let table = table_of(alloc, file)?;
    match decoded_text(alloc, &table, page, Some(label), Encoding::Windows1252) {
        Ok(decoded) => Ok(decoded),
        Err(_) => Err(no_memory()),
    }
}

/// Writes the text of a page to the front of room.
pub(crate) fn decode_by(
    alloc: Global,
    file: &[u8],
    label: &[u8],
    page: &[u8],
    output: &mut [u8],
    report: &mut FigDecoded,
) -> Answer
    ensures answer { MeansDecoded file.now label.now page.now output.old output.new report.new result }
    ensures same_room { length output.new ≡ length output.old }
{
    match page_text(alloc, file, label, page) {
        Ok(made) => {
            let text = made.content.as_str().as_bytes();
            *report = report_of(text.len(), &made);
            put_front(output, text)
        }
        Err(failure) => {
            *report = nothing(failure.at);
            failure.answer
        }
    }
}
