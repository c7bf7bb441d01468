//! What is passed on of texts.
ghost use Rattle.std.specs.Prelude.{◌≡◌, ◌&&◌, not, IfOk, IfErr};
ghost use Rattle.std.specs.List.{list_all};
ghost use Rattle.std.specs.Str.{chars};
ghost use Rattle.html_clean.specs.Policies.{is_mark, is_plain_character, plain_text, starts_with_mark, text_at};
ghost use Rattle.html_clean.specs.Names.{first_two};
ghost use Rattle.html_round_trip.specs.Slices.Forms.{is_no_text};
ghost use Rattle.html_clean.specs.Policies as policies;
ghost use Rattle.markup.specs.declared.fault.ParseFault.TheVariants.{Memory};

use html_plain::texts::is_plain_text;
use markup::{ParseFault, Text};
use std::alloc::Global;

/// Whether a character is neither U+0000 nor U+000D.
fn is_plain_character(c: char) -> bool
    ensures { result ≡ is_plain_character c }
{
    c != '\0' && c != '\r'
}

/// A text without U+0000 and U+000D, character by character.
fn filtered_text(alloc: Global, text: &str) -> Result<Text, ParseFault>
    ensures ok { IfOk result (λ made. made ≡ plain_text (chars text.now)) }
    ensures fault { IfErr result (λ fault. fault ≡ Memory) }
{
    let mut made = Text::empty(alloc);
    for c in text.chars() {
        if is_plain_character(c) {
            made.push(c)?;
        }
    }
    Ok(made)
}

/// Whether a text has only such characters.
fn is_plain(text: &str) -> bool
    ensures { result ≡ list_all is_plain_character (chars text.now) }
{
    is_no_text(text) || is_plain_text(text)
}

/// A text without U+0000 and U+000D.
pub(crate) fn plain_text(alloc: Global, text: &str) -> Result<Text, ParseFault>
    ensures ok { IfOk result (λ made. made ≡ plain_text (chars text.now)) }
    ensures fault { IfErr result (λ fault. fault ≡ Memory) }
{
    if is_plain(text) {
        return Text::from_str(alloc, text);
    }
    filtered_text(alloc, text)
}

/// Whether a text begins with U+FEFF.
fn starts_with_mark(text: &str) -> bool
    ensures { result ≡ starts_with_mark (chars text.now) }
{
    match text.chars().next() {
        Some(c) => c == '\u{FEFF}',
        None => false,
    }
}

/// Whether all of a text is passed on, in front of which nothing was passed on, or something.
pub(crate) fn is_kept_whole(front: bool, text: &str) -> bool
    ensures { result ≡ (list_all is_plain_character (chars text.now) && not (front && starts_with_mark (chars text.now))) }
{
    is_plain(text) && !(front && starts_with_mark(text))
}

/// Whether a text has no character.
pub(crate) fn is_no_text(text: &str) -> bool
    ensures { result ≡ is_no_text (chars text.now) }
{
    match text.chars().next() {
        Some(_) => false,
        None => true,
    }
}

/// The first two characters of a text.
pub(crate) fn first_two(text: &str) -> Option<(char, char)>
    ensures { result ≡ first_two (chars text.now) }
{
    let mut characters = text.chars();
    let Some(first) = characters.next() else {
        return None;
    };
    let Some(second) = characters.next() else {
        return None;
    };
    Some((first, second))
}

/// Whether a character is put after a text that is not to begin with U+FEFF.
fn may_follow(made: &Text, c: char) -> bool
    ensures { result ≡ not (is_no_text made.now && is_mark c) }
{
    !made.is_empty() || c != '\u{FEFF}'
}

/// A text without U+FEFF at its front.
fn without_marks(alloc: Global, text: &str) -> Result<Text, ParseFault>
    ensures ok { IfOk result (λ made. made ≡ policies.without_marks (chars text.now)) }
    ensures fault { IfErr result (λ fault. fault ≡ Memory) }
{
    let mut made = Text::empty(alloc);
    for c in text.chars() {
        if may_follow(&made, c) {
            made.push(c)?;
        }
    }
    Ok(made)
}

/// What is passed on of a text, in front of which nothing was passed on, or something.
pub(crate) fn text_at(alloc: Global, front: bool, text: &str) -> Result<Text, ParseFault>
    ensures ok { IfOk result (λ made. made ≡ text_at front (chars text.now)) }
    ensures fault { IfErr result (λ fault. fault ≡ Memory) }
{
    let plain = plain_text(alloc, text)?;
    if front {
        return without_marks(alloc, plain.as_str());
    }
    Ok(plain)
}
