//! URLs that are the data of a picture.
ghost use Rattle.std.specs.Prelude.{◌≡◌, IfErr, IfOk, map};
ghost use Rattle.std.specs.Str.{chars};
ghost use Rattle.html_clean.specs.Pictures as pictures;
ghost use Rattle.html_clean.specs.Beginnings.{begins_with_one};
ghost use Rattle.markup.specs.declared.fault.ParseFault.TheVariants.{Memory};

use crate::kinds::url_text;
use crate::values::begins_with;
use markup::{LocalName, ParseFault, Text};
use std::alloc::Global;

/// How the URLs of pictures that hold no script begin, in lower case.
const PICTURE_BEGINNINGS: [&str; 10] = [
    "data:image/avif,",
    "data:image/avif;",
    "data:image/gif,",
    "data:image/gif;",
    "data:image/jpeg,",
    "data:image/jpeg;",
    "data:image/png,",
    "data:image/png;",
    "data:image/webp,",
    "data:image/webp;",
];

/// Whether the URL of an attribute of an element may be the data of a picture.
pub(crate) fn is_picture(element: &LocalName, name: &LocalName) -> bool
    ensures { result ≡ pictures.is_picture element.now name.now }
{
    element.is("img") && name.is("src")
}

/// Whether a text begins with one of these.
pub(crate) fn begins_with_any(beginnings: &[&str], text: &str) -> bool
    ensures { result ≡ begins_with_one (map (λ beginning. chars beginning.now) beginnings.now) (chars text.now) }
{
    for beginning in beginnings {
        if begins_with(beginning, text) {
            return true;
        }
    }
    false
}

/// Whether a URL is the data of a picture, of a type that holds no script.
#[tactic(auto, unfolding(crate::specs::Pictures::is_picture_data))]
pub(crate) fn is_picture_data(alloc: Global, url: &str) -> Result<bool, ParseFault>
    ensures ok { IfOk result (λ is. is ≡ pictures.is_picture_data (chars url.now)) }
    ensures fault { IfErr result (λ fault. fault ≡ Memory) }
{
    let text = url_text(alloc, url)?;
    let mut lowered = Text::empty(alloc);
    lowered.push_lowered(text.as_str())?;
    Ok(begins_with_any(&PICTURE_BEGINNINGS, lowered.as_str()))
}
