//! What bytes are in the states of the ISO-2022-JP decoder.
ghost use Rattle.std.specs.Prelude.{◌≡◌};
ghost use Rattle.html_encodings_multibyte.specs.Iso2022Jp.{ascii_item, roman_item, katakana_item, trail_item};

use crate::indexes::jis0208_item;
use html_encodings::code_point;

pub(crate) fn ascii_item(byte: u8) -> Option<char>
    ensures { result ≡ ascii_item byte }
{
    if byte < 128 && byte != 0x0E && byte != 0x0F {
        Some(char::from(byte))
    } else {
        None
    }
}

pub(crate) fn roman_item(byte: u8) -> Option<char>
    ensures { result ≡ roman_item byte }
{
    match byte {
        0x5C => Some('\u{A5}'),
        0x7E => Some('\u{203E}'),
        _ => ascii_item(byte),
    }
}

pub(crate) fn katakana_item(byte: u8) -> Option<char>
    ensures { result ≡ katakana_item byte }
{
    if byte < 0x21 || byte > 0x5F {
        return None;
    }
    code_point(0xFF61 + (u32::from(byte) - 0x21))
}

pub(crate) fn trail_item(lead: u8, byte: u8) -> Option<char>
    ensures { result ≡ trail_item lead byte }
{
    if byte < 0x21 || byte > 0x7E {
        return None;
    }
    jis0208_item(u32::from(lead).saturating_sub(0x21) * 94 + (u32::from(byte) - 0x21))
}
