//! Characters of markup.
ghost use Rattle.std.specs.Prelude.{◌≡◌, ◌++◌, map, IfErr, OnOk};
ghost use Rattle.std.specs.Char.{to_ascii_lowercase};
ghost use Rattle.std.specs.Str.{chars};
ghost use Rattle.markup.specs.declared.fault.ParseFault.TheVariants.{Memory};
ghost use Rattle.html_tokens.specs.Characters;
ghost use Rattle.html_tokens.specs.Forbidden.{is_forbidden, is_control, is_noncharacter};

use crate::error_code::ErrorCode;
use markup::{LocalName, ParseFault};

/// How many characters a plane has.
const PLANE: u32 = 0x10000;

/// The first of the last two characters of a plane.
const LAST_TWO: u32 = 0xFFFE;

/// What stands in place of a character: U+FFFD for U+0000, else itself.
pub fn shown(c: char) -> char
    ensures { result ≡ Characters.shown c }
{
    if c == '\0' { '\u{FFFD}' } else { c }
}

/// A character of a name, with ASCII letters lowered.
pub fn lowered(c: char) -> char
    ensures { result ≡ Characters.lowered c }
{
    shown(c.to_ascii_lowercase())
}

/// Adds characters to a name, with ASCII letters lowered. On a fault some may have been added.
pub fn push_lowered(name: &mut LocalName, more: &str) -> Result<(), ParseFault>
    ensures ok { OnOk result (name.new ≡ name.old ++ map to_ascii_lowercase (chars more.now)) }
    ensures fault { IfErr result (λ fault. fault ≡ Memory) }
{
    for c in more.chars() {
        name.push(c.to_ascii_lowercase())?;
    }
    Ok(())
}

/// Tab, line feed, form feed or space.
pub fn is_white_space(c: char) -> bool
    ensures { result ≡ Characters.is_white_space c }
{
    c == '\t' || c == '\n' || c == '\x0C' || c == ' '
}

/// White space, `/` or `>`.
pub fn ends_tag_name(c: char) -> bool
    ensures { result ≡ Characters.ends_tag_name c }
{
    is_white_space(c) || c == '/' || c == '>'
}

/// White space or `>`.
pub fn ends_word(c: char) -> bool
    ensures { result ≡ Characters.ends_word c }
{
    is_white_space(c) || c == '>'
}

/// A control character that is no white space, or a noncharacter.
pub fn is_forbidden(c: char) -> bool
    ensures { result ≡ is_forbidden c }
{
    is_control(c) || is_noncharacter(c)
}

/// The error of a control character or a noncharacter in the input.
pub fn forbidden_code(c: char) -> ErrorCode {
    if is_control(c) {
        return ErrorCode::ControlCharacterInInputStream;
    }
    ErrorCode::NoncharacterInInputStream
}

/// A control character that is no white space: U+000A, U+000C and U+000D, tab and U+0000 are none.
fn is_control(c: char) -> bool
    ensures { result ≡ is_control c }
{
    ('\u{1}'..='\u{8}').contains(&c)
        || c == '\u{B}'
        || ('\u{E}'..='\u{1F}').contains(&c)
        || ('\u{7F}'..='\u{9F}').contains(&c)
}

/// U+FDD0 to U+FDEF, and the last two characters of each plane.
fn is_noncharacter(c: char) -> bool
    ensures { result ≡ is_noncharacter c }
{
    ('\u{FDD0}'..='\u{FDEF}').contains(&c) || (c as u32) % PLANE >= LAST_TWO
}
