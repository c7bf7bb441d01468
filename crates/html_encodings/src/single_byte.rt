//! Single-byte encodings (Encoding Standard, section 9), and x-user-defined (section 14.5).
ghost use Rattle.std.specs.Prelude.{◌≡◌, slice_index};
ghost use Rattle.html_encodings.specs.SingleByte.{index_of, single_byte_item, user_defined_item};

use crate::emitted::{code_point, entry_item};
use crate::names::Encoding;
use crate::tables;

/// What the bytes from 128 on are in a single-byte encoding; nothing for any other.
#[tactic(auto, unfolding(crate::specs::SingleByte::index_of))]
fn index_of(encoding: Encoding) -> &'static [u16]
    ensures { result.now ≡ index_of encoding }
{
    match encoding {
        Encoding::Ibm866 => &tables::IBM866,
        Encoding::Iso8859_2 => &tables::ISO_8859_2,
        Encoding::Iso8859_3 => &tables::ISO_8859_3,
        Encoding::Iso8859_4 => &tables::ISO_8859_4,
        Encoding::Iso8859_5 => &tables::ISO_8859_5,
        Encoding::Iso8859_6 => &tables::ISO_8859_6,
        Encoding::Iso8859_7 => &tables::ISO_8859_7,
        Encoding::Iso8859_8 => &tables::ISO_8859_8,
        Encoding::Iso8859_8I => &tables::ISO_8859_8,
        Encoding::Iso8859_10 => &tables::ISO_8859_10,
        Encoding::Iso8859_13 => &tables::ISO_8859_13,
        Encoding::Iso8859_14 => &tables::ISO_8859_14,
        Encoding::Iso8859_15 => &tables::ISO_8859_15,
        Encoding::Iso8859_16 => &tables::ISO_8859_16,
        Encoding::Koi8R => &tables::KOI8_R,
        Encoding::Koi8U => &tables::KOI8_U,
        Encoding::Macintosh => &tables::MACINTOSH,
        Encoding::Windows874 => &tables::WINDOWS_874,
        Encoding::Windows1250 => &tables::WINDOWS_1250,
        Encoding::Windows1251 => &tables::WINDOWS_1251,
        Encoding::Windows1252 => &tables::WINDOWS_1252,
        Encoding::Windows1253 => &tables::WINDOWS_1253,
        Encoding::Windows1254 => &tables::WINDOWS_1254,
        Encoding::Windows1255 => &tables::WINDOWS_1255,
        Encoding::Windows1256 => &tables::WINDOWS_1256,
        Encoding::Windows1257 => &tables::WINDOWS_1257,
        Encoding::Windows1258 => &tables::WINDOWS_1258,
        Encoding::XMacCyrillic => &tables::X_MAC_CYRILLIC,
        _ => &[],
    }
}

/// What a byte is in a single-byte encoding.
pub(crate) fn single_byte_item(encoding: Encoding, byte: u8) -> Option<char>
    ensures { result ≡ single_byte_item encoding byte }
{
    if byte < 128 {
        return Some(char::from(byte));
    }
    entry_item(entry_at(index_of(encoding), byte as usize - 128))
}

/// An entry of an index, or 0 where it has none.
pub fn entry_at(index: &[u16], at: usize) -> u16
    ensures { result ≡ slice_index index.now at }
{
    if at < index.len() { index[at] } else { 0 }
}

/// What a byte is in x-user-defined.
pub(crate) fn user_defined_item(byte: u8) -> Option<char>
    ensures { result ≡ user_defined_item byte }
{
    if byte < 128 {
        return Some(char::from(byte));
    }
    code_point(0xF780 + (u32::from(byte) - 128))
}
