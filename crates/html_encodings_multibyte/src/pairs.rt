//! Characters of two bytes.
ghost use Rattle.std.specs.Prelude.{◌≡◌};
ghost use Rattle.html_encodings.specs.Emitted.{items};
ghost use Rattle.html_encodings_multibyte.specs.Pairs.{second_items, held_end};

use html_encodings::Emitted;

/// What a second byte emits: a character; or an error, and the byte too where it is ASCII, since that is put back.
pub(crate) fn second(item: Option<char>, byte: u8) -> Emitted
    ensures { items result ≡ second_items item byte }
{
    if item.is_some() {
        return Emitted::One(item);
    }
    if byte < 128 {
        return Emitted::Two(None, Some(char::from(byte)));
    }
    Emitted::One(None)
}

/// The end of the input is an error where a byte is held.
pub(crate) fn held_end(lead: u8) -> Emitted
    ensures { items result ≡ held_end lead }
{
    if lead == 0 {
        Emitted::Nothing
    } else {
        Emitted::One(None)
    }
}
