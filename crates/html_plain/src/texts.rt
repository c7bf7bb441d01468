//! The texts of plain documents.
ghost use Rattle.std.specs.Prelude.{◌≡◌, ◌==◌, codes, length};
ghost use Rattle.std.specs.Str.{bytes_eq, chars};
ghost use Rattle.std.specs.List.{list_all};
ghost use Rattle.html_plain.specs.Grammar.{is_comment_character, is_plain_character, is_plain_comment, is_plain_doctype};
ghost use Rattle.html_plain.specs.Grammar.{is_plain_text, is_white, takes_text};

use crate::place::TextKind;
use memchr::memchr2;

/// Whether no character of a text is U+0000 or a carriage return.
pub(crate) fn has_plain_characters(text: &str) -> bool
    ensures { result ≡ list_all is_plain_character (chars text.now) }
{
    memchr2(0, b'\r', text.as_bytes()).is_none()
}

/// Whether all characters of a text are tabs, line feeds, form feeds and spaces.
fn is_white_space(text: &str) -> bool
    ensures { result ≡ list_all is_white (chars text.now) }
{
    text.chars()
        .all(|c| matches!(c, '\t' | '\n' | '\x0C' | ' '))
}

/// Whether a text has no character.
fn is_empty(text: &str) -> bool
    ensures { result ≡ (length (chars text.now) == 0) }
{
    text.is_empty()
}

/// Whether a text may stand in a plain document: it is not empty, and has neither U+0000 nor a carriage return.
pub fn is_plain_text(text: &str) -> bool
    ensures { result ≡ is_plain_text (chars text.now) }
{
    !is_empty(text) && has_plain_characters(text)
}

/// Whether no character of a text is U+0000, a carriage return, a hyphen, `<` or `>`.
fn has_comment_characters(text: &str) -> bool
    ensures { result ≡ list_all is_comment_character (chars text.now) }
{
    text.chars().all(|c| c != '\0' && c != '\r' && c != '-' && c != '<' && c != '>')
}

/// Whether a comment with this text, which may be empty, may stand in a plain document: it has neither U+0000 nor a carriage
/// return, and none of the characters of a comment's ends, `-`, `<` and `>`.
pub fn is_plain_comment(text: &str) -> bool
    ensures { result ≡ is_plain_comment (chars text.now) }
{
    has_comment_characters(text)
}

/// Whether a text is of a kind.
pub fn takes_text(kind: TextKind, text: &str) -> bool
    ensures { result ≡ takes_text kind (chars text.now) }
{
    match kind {
        TextKind::NoText => false,
        TextKind::WhiteSpace => is_white_space(text),
        TextKind::AnyText => true,
    }
}

/// Whether a doctype has the name `html` and nothing else.
pub fn is_plain_doctype(name: &str, public_id: &str, system_id: &str) -> bool
    ensures { result ≡ is_plain_doctype (chars name.now) (chars public_id.now) (chars system_id.now) }
{
    is_html(name) && is_empty(public_id) && is_empty(system_id)
}

/// Whether a text is `html`.
fn is_html(text: &str) -> bool
    ensures { result ≡ bytes_eq (chars text.now) (codes "html") }
{
    text == "html"
}
