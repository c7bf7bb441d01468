//! How a text is read so that all its parse errors are reported.
ghost use Rattle.std.specs.Prelude.{◌≡◌, ◌<◌, ◌≤◌, ℕ, true, false, length, slice_index};
ghost use Rattle.std.specs.List.{list_any};
ghost use Rattle.std.specs.Str.{chars};
ghost use Rattle.html_tokens.specs.Forbidden as forbidden;
ghost use Rattle.html_pages.specs.Forbidden.{may_begin_forbidden};

use html_normal::Exact;
use html_tokenizer_parts::characters::is_forbidden;

/// Whether a control character, other than white space and U+0000, or a noncharacter may begin with a byte.
#[inline(always)]
fn may_begin_forbidden(byte: u8) -> bool
    ensures { result ≡ may_begin_forbidden byte }
{
    !(b' '..=b'~').contains(&byte)
        && byte != b'\n'
        && byte != b'\t'
        && (byte < 0x80 || byte == 0xC2 || byte >= 0xEF)
}

/// The number of bytes of a text before the first with which such a character may begin.
#[inline(always)]
fn harmless_len(text: &str) -> usize
    ensures within { result ≤ length text.now }
    ensures before { (k : ℕ) → k < result → may_begin_forbidden (slice_index text.now k) ≡ false }
    ensures at { result < length text.now → may_begin_forbidden (slice_index text.now result) ≡ true }
{
    let bytes = text.as_bytes();
    for at in 0..bytes.len() {
        if may_begin_forbidden(bytes[at]) {
            return at;
        }
    }
    bytes.len()
}

/// A text from the first character on that may be one of those.
#[inline(always)]
fn from_suspect(text: &str) -> &str
    ensures within { length result.now ≤ length text.now }
    ensures same { list_any forbidden.is_forbidden (chars result.now) ≡ list_any forbidden.is_forbidden (chars text.now) }
{
    let (_harmless, rest) = text.split_at(harmless_len(text));
    rest
}

/// Whether a text has a control character, other than white space and U+0000, or a noncharacter: each is a parse error (HTML Standard,
/// section 13.2.3.5).
fn has_forbidden(text: &str) -> bool
    ensures { result ≡ list_any forbidden.is_forbidden (chars text.now) }
{
    let mut characters = from_suspect(text).chars();
    while let Some(c) = characters.next() {
        if is_forbidden(c) {
            return true;
        }
        characters = from_suspect(characters.as_str()).chars();
    }
    false
}

/// Which reports have to be exact so that all parse errors of a text are reported, each with its own words. Where the text has no control
/// character and no noncharacter (HTML Standard, section 13.2.3.5), the tokenizer need not look for them, and reads several times as fast.
pub fn exact_for(text: &str) -> Exact
    ensures tokenizer { result.tokenizer ≡ list_any forbidden.is_forbidden (chars text.now) }
    ensures tree_builder { result.tree_builder ≡ true }
{
    Exact {
        tokenizer: has_forbidden(text),
        tree_builder: true,
    }
}
