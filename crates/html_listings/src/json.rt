//! Strings of JSON (RFC 8259, section 7).
ghost use Rattle.std.specs.Prelude.{◌≡◌, ◌++◌, ◌<◌, OnOk};
ghost use Rattle.std.specs.String.{string_bytes};
ghost use Rattle.html_listings.specs.Json.{control_escape, hex_digit, in_string, member, string_of};

use std::alloc::AllocError;

/// The hexadecimal digit of a number below 16.
fn hex_digit(number: u32) -> char
    requires { number < 16 }
    ensures { result ≡ hex_digit number }
{
    let digit = number as u8;
    if digit < 10 {
        (b'0' + digit) as char
    } else {
        (b'a' - 10 + digit) as char
    }
}

/// Adds a control character.
fn push_control(json: &mut String, code: u32) -> Result<(), AllocError>
    requires { code < 32 }
    ensures { OnOk result (string_bytes json.new ≡ string_bytes json.old ++ control_escape code) }
{
    json.push_str("\\u00")?;
    json.push(hex_digit(code / 16))?;
    json.push(hex_digit(code % 16))
}

/// Adds a character.
fn push_char(json: &mut String, c: char) -> Result<(), AllocError>
    ensures { OnOk result (string_bytes json.new ≡ string_bytes json.old ++ in_string c) }
{
    if c == '"' {
        return json.push_str("\\\"");
    }
    if c == '\\' {
        return json.push_str("\\\\");
    }
    if c == '\n' {
        return json.push_str("\\n");
    }
    if c < ' ' {
        return push_control(json, c as u32);
    }
    json.push(c)
}

/// Adds a text as a string.
pub(crate) fn push_string(json: &mut String, text: &str) -> Result<(), AllocError>
    ensures { OnOk result (string_bytes json.new ≡ string_bytes json.old ++ string_of text.now) }
{
    json.push_str("\"")?;
    for c in text.chars() {
        push_char(json, c)?;
    }
    json.push_str("\"")
}

/// Adds what stands before the value of a member of an object, and the value.
#[tactic(auto, unfolding(crate::specs::Json::member))]
pub(crate) fn push_member(json: &mut String, before: &str, text: &str) -> Result<(), AllocError>
    ensures { OnOk result (string_bytes json.new ≡ string_bytes json.old ++ member before.now text.now) }
{
    json.push_str(before)?;
    push_string(json, text)
}
