//! The encoding of a page, once a `meta` names one (HTML Standard, section 13.2.3.4).
ghost use Rattle.std.specs.Prelude.{◌≡◌};
ghost use Rattle.html_decoded_pages.specs.Changing.{changed_to, is_tentative};
ghost use Rattle.html_encodings.specs.Prescan.{mended};

use html_encodings::{Encoding, Why};

/// Whether the confidence in an encoding is tentative, by how it was found out.
pub(crate) fn is_tentative(why: Why) -> bool
    ensures { result ≡ is_tentative why }
{
    match why {
        Why::Declaration | Why::Fallback => true,
        Why::ByteOrderMark | Why::Transport => false,
    }
}

/// The encoding that is taken for a declared one: no declaration that can be read is in UTF-16.
fn mended(encoding: Encoding) -> Encoding
    ensures { result ≡ mended encoding }
{
    match encoding {
        Encoding::Utf16be | Encoding::Utf16le => Encoding::Utf8,
        Encoding::XUserDefined => Encoding::Windows1252,
        _ => encoding,
    }
}

/// The encoding of a page that was read in one, once another is named.
pub(crate) fn changed_to(encoding: Encoding, named: Encoding) -> Encoding
    ensures { result ≡ changed_to encoding named }
{
    match encoding {
        Encoding::Utf16be | Encoding::Utf16le => encoding,
        _ => mended(named),
    }
}
