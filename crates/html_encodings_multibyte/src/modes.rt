//! What the states of the ISO-2022-JP decoder turn to.
ghost use Rattle.std.specs.Prelude.{◌≡◌};
ghost use Rattle.html_encodings.specs.Emitted.{items};
ghost use Rattle.html_encodings_multibyte.specs.Iso2022Jp.{escaped, held_items};

use crate::iso_2022_jp::Mode;
use html_encodings::Emitted;

/// What an escape turns to.
pub(crate) fn escaped(lead: u8, byte: u8) -> Option<Mode>
    ensures { result ≡ escaped lead byte }
{
    match (lead, byte) {
        (0x28, 0x42) => Some(Mode::Ascii),
        (0x28, 0x4A) => Some(Mode::Roman),
        (0x28, 0x49) => Some(Mode::Katakana),
        (0x24, 0x40) | (0x24, 0x42) => Some(Mode::LeadByte),
        _ => None,
    }
}

/// The end of the input within a character is an error.
pub(crate) fn held_items(mode: Mode) -> Emitted
    ensures { items result ≡ held_items mode }
{
    if mode == Mode::TrailByte {
        Emitted::One(None)
    } else {
        Emitted::Nothing
    }
}
