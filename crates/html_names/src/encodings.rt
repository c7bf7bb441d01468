//! The encoding that the content of a `meta` element names (HTML Standard, section 2.6.6, "extracting a character encoding from a meta
//! element").
ghost use Rattle.std.specs.Prelude.{◌≡◌, ◌<◌, Some, None, MatchOption, [], length, take, drop, nat_lt, ◌≤◌};
ghost use Rattle.std.specs.Str.{IsCharBoundary, chars};
ghost use Rattle.html_tokens.specs.Characters.{run};
ghost use Rattle.html_rules.specs.Encodings.{is_space, after_charset, after_equals, after_space, encoding_at, encoding_of};
ghost use Rattle.html_names.specs.Stops.{after_character, stops, unquoted_value, up_to};
ghost use Rattle.html_names.specs.Given.{Gives, IsRest};
ghost use Rattle.html_names.specs.declared.encodings.Stop.TheVariants.{ValueEnd};

use crate::any_case;

/// What a run of characters ends before.
#[derive(Clone, Copy)]
enum Stop {
    /// What is not white space.
    Dark,
    /// `"`.
    DoubleQuote,
    /// `'`.
    SingleQuote,
    /// White space or `;`.
    ValueEnd,
}

/// White space: tab, line feed, form feed, carriage return and space.
fn is_space(byte: u8) -> bool
    ensures { result ≡ is_space byte }
{
    byte == b'\t' || byte == b'\n' || byte == 12 || byte == b'\r' || byte == b' '
}

/// Whether a run ends before a byte.
fn stops(stop: Stop, byte: u8) -> bool
    ensures { result ≡ stops stop byte }
{
    match stop {
        Stop::Dark => !is_space(byte),
        Stop::DoubleQuote => byte == b'"',
        Stop::SingleQuote => byte == b'\'',
        Stop::ValueEnd => is_space(byte) || byte == b';',
    }
}

/// The number of bytes before the first that stops.
fn bytes_before(text: &[u8], stop: Stop) -> usize
    ensures { result ≡ run (stops stop) text.now }
{
    for (i, byte) in text.iter().enumerate() {
        if stops(stop, *byte) {
            return i;
        }
    }
    text.len()
}

/// The number of bytes of the characters before the first that stops.
fn run(text: &str, stop: Stop) -> usize
    ensures within { result ≤ length text.now }
    ensures cut { IsCharBoundary text.now result }
    ensures front { chars (take result text.now) ≡ take (run (stops stop) (chars text.now)) (chars text.now) }
    ensures rest { chars (drop result text.now) ≡ drop (run (stops stop) (chars text.now)) (chars text.now) }
    ensures inside { nat_lt result (length text.now) ≡ nat_lt (run (stops stop) (chars text.now)) (length (chars text.now)) }
{
    bytes_before(text.as_bytes(), stop)
}

/// A text after the white space at its front.
fn after_space(text: &str) -> &str
    ensures { chars result.now ≡ after_space (chars text.now) }
{
    &text[run(text, Stop::Dark)..]
}

/// What stands before the first character that stops, if there is one.
fn up_to(text: &str, stop: Stop) -> Option<&str>
    ensures { Gives (up_to (stops stop) (chars text.now)) result }
{
    let n = run(text, stop);
    if n < text.len() {
        Some(&text[..n])
    } else {
        None
    }
}

/// A value without quotes.
fn up_to_value_end(text: &str) -> &str
    ensures { chars result.now ≡ take (run (stops ValueEnd) (chars text.now)) (chars text.now) }
{
    &text[..run(text, Stop::ValueEnd)]
}

/// What stands after a character, if a text begins with it. It is of ASCII.
fn behind(text: &str, character: u8) -> Option<&str>
    requires { character < 128 }
    ensures { Gives (after_character character (chars text.now)) result }
{
    if text.is_empty() {
        return None;
    }
    if text.as_bytes()[0] == character {
        Some(&text[1..])
    } else {
        None
    }
}

/// A value without quotes, if there is any text.
fn unquoted_value(text: &str) -> Option<&str>
    ensures { Gives (unquoted_value (chars text.now)) result }
{
    if text.is_empty() {
        None
    } else {
        Some(up_to_value_end(text))
    }
}

/// The encoding after "=" and white space: a value in quotes, or up to white space or ";".
fn encoding_at(text: &str) -> Option<&str>
    ensures { Gives (encoding_at (chars text.now)) result }
{
    if let Some(rest) = behind(text, b'"') {
        return up_to(rest, Stop::DoubleQuote);
    }
    if let Some(rest) = behind(text, b'\'') {
        return up_to(rest, Stop::SingleQuote);
    }
    unquoted_value(text)
}

/// What stands after "=" and white space, if "=" is next.
fn after_equals(text: &str) -> Option<&str>
    ensures { Gives (after_equals (chars text.now)) result }
{
    let rest = behind(text, b'=')?;
    Some(after_space(rest))
}

/// What stands after "charset" and "=", if a text begins so.
fn after_charset(text: &str) -> Option<&str>
    ensures { Gives (after_charset (chars text.now)) result }
{
    if !any_case::begins(text, "charset") {
        return None;
    }
    after_equals(after_space(&text[7..]))
}

/// What stands after the first character, if there is one.
fn without_first(text: &str) -> Option<&str>
    ensures { MatchOption result (chars text.now ≡ []) (λ rest. IsRest text.now rest.now) }
{
    let first = text.chars().next()?;
    Some(&text[first.len_utf8()..])
}

/// The encoding that the content of a `meta` element names: after the first `charset` in any case that `=` follows, the value in quotes,
/// or up to white space or `;`. Nothing where there is none, or the quote is not closed. It takes no memory.
pub fn extract_a_character_encoding_from_a_meta_element(content: &str) -> Option<&str>
    ensures { Gives (encoding_of (chars content.now)) result }
{
    let mut rest = content;
    while let Some(further) = without_first(rest) {
        if let Some(value) = after_charset(rest) {
            return encoding_at(value);
        }
        rest = further;
    }
    None
}
