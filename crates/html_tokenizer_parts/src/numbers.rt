//! Numeric character references (HTML Standard, sections 13.2.5.75 to 13.2.5.80).
ghost use Rattle.std.specs.Prelude.{◌≡◌, ◌≤◌, ◌∷◌, [], ◌++◌, true, false, not, min, length};
ghost use Rattle.std.specs.Option.{is_some, option_map, unwrap_or};
ghost use Rattle.html_tokens.specs.Characters.{run};
ghost use Rattle.html_tokens.specs.Reference;
ghost use Rattle.html_tokenizer_parts.specs.CharRefs.{are_digits, base_of, has_fault, is_faulty_digits, is_faulty_number};
ghost use Rattle.html_tokenizer_parts.specs.CharRefs.{is_faulty_numeric, is_number_front, reference_of, stops};

use crate::characters::is_forbidden;
use crate::error_code::ErrorCode;

/// A reference that was read: the characters that it stands for, and how many it takes after `&`.
#[derive(Clone, Copy)]
pub struct Found {
    /// The first character.
    pub first: char,
    /// The second character, of a name that stands for two.
    pub second: Option<char>,
    /// How many characters stand after `&`.
    pub len: usize,
}

/// The character in place of one of U+0080 to U+009F.
fn replaced(c: char) -> char
    ensures { result ≡ Reference.replaced c Reference.replacements }
{
    match c {
        '\u{80}' => '\u{20AC}',
        '\u{82}' => '\u{201A}',
        '\u{83}' => '\u{0192}',
        '\u{84}' => '\u{201E}',
        '\u{85}' => '\u{2026}',
        '\u{86}' => '\u{2020}',
        '\u{87}' => '\u{2021}',
        '\u{88}' => '\u{02C6}',
        '\u{89}' => '\u{2030}',
        '\u{8A}' => '\u{0160}',
        '\u{8B}' => '\u{2039}',
        '\u{8C}' => '\u{0152}',
        '\u{8E}' => '\u{017D}',
        '\u{91}' => '\u{2018}',
        '\u{92}' => '\u{2019}',
        '\u{93}' => '\u{201C}',
        '\u{94}' => '\u{201D}',
        '\u{95}' => '\u{2022}',
        '\u{96}' => '\u{2013}',
        '\u{97}' => '\u{2014}',
        '\u{98}' => '\u{02DC}',
        '\u{99}' => '\u{2122}',
        '\u{9A}' => '\u{0161}',
        '\u{9B}' => '\u{203A}',
        '\u{9C}' => '\u{0153}',
        '\u{9E}' => '\u{017E}',
        '\u{9F}' => '\u{0178}',
        c => c,
    }
}

/// The character that a number names, or else none.
fn character_of(number: u32) -> Option<char>
    ensures { unwrap_or result 0xFFFD ≡ Reference.numbered number }
{
    match char::from_u32(number) {
        None | Some('\0') => None,
        Some(c) => Some(replaced(c)),
    }
}

/// Whether a byte is no digit of base 16, or else of base 10.
fn stops(hex: bool, byte: u8) -> bool
    ensures { result ≡ stops hex byte }
{
    if hex {
        !byte.is_ascii_hexdigit()
    } else {
        !byte.is_ascii_digit()
    }
}

/// Whether a character is a digit of base 16, or else of base 10.
fn is_digit(hex: bool, c: char) -> bool
    ensures { result ≡ not (stops hex c) }
{
    if hex {
        c.is_ascii_hexdigit()
    } else {
        c.is_ascii_digit()
    }
}

/// Whether digits, with `;` or nothing after them, go on by a character.
fn digits_go_on(hex: bool, digits: &[u8], c: char) -> bool
    requires { are_digits (stops hex) false digits.now ≡ true }
    ensures { result ≡ are_digits (stops hex) false (digits.now ++ c ∷ []) }
{
    if digits.ends_with(b";") {
        return false;
    }
    if is_digit(hex, c) {
        return true;
    }
    if digits.is_empty() {
        return false;
    }
    c == ';'
}

/// Whether a number goes on by a character, after `&#`.
pub fn goes_on(text: &[u8], c: char) -> bool
    requires { is_number_front text.now ≡ true }
    ensures { result ≡ is_number_front (text.now ++ c ∷ []) }
{
    match text {
        [] => c == 'x' || c == 'X' || is_digit(false, c),
        [b'x' | b'X', digits @ ..] => digits_go_on(true, digits, c),
        _ => digits_go_on(false, text, c),
    }
}

/// How many digits stand at the front.
fn digit_run(hex: bool, text: &[u8]) -> usize
    ensures is { result ≡ run (stops hex) text.now }
    ensures within { result ≤ length text.now }
{
    let mut count = 0;
    while count < text.len() && !stops(hex, text[count]) {
        count += 1;
    }
    count
}

/// The value of a digit, of either case.
fn digit(byte: u8) -> u32
    ensures { result ≡ Reference.digit byte }
{
    if byte < b'A' {
        u32::from(byte.saturating_sub(b'0'))
    } else if byte < b'a' {
        u32::from(byte) - 55
    } else {
        u32::from(byte) - 87
    }
}

/// What a digit in base 16, or else 10, is worth in the place before.
fn base_of(hex: bool) -> u32
    ensures { result ≡ base_of hex }
{
    if hex { 16 } else { 10 }
}

/// The number that digits write, or 0x110000 where it is more.
fn number(hex: bool, digits: &[u8]) -> u32
    ensures { result ≡ min (Reference.number (base_of hex) digits.now) 0x110000 }
{
    let base = base_of(hex);
    let mut value = 0;
    for byte in digits {
        value = (value * base + digit(*byte)).min(0x110000);
    }
    value
}

/// The character that digits name, or else none.
fn character_at(hex: bool, digits: &[u8]) -> Option<char>
    ensures { unwrap_or result 0xFFFD ≡ Reference.numbered (Reference.number (base_of hex) digits.now) }
{
    character_of(number(hex, digits))
}

/// How many characters a `;` takes where it stands.
fn semicolon(text: &[u8]) -> usize
    ensures { result ≡ Reference.semicolon text.now }
{
    match text.first() {
        Some(b';') => 1,
        _ => 0,
    }
}

/// Digits after a prefix.
fn digits_at(hex: bool, prefix: usize, text: &[u8]) -> Option<Found>
    requires { prefix ≤ 2 }
    ensures { option_map reference_of result ≡ Reference.numbered_reference
        (Reference.digits_at prefix (base_of hex) (run (stops hex) text.now) text.now) }
{
    let count = digit_run(hex, text);
    if count == 0 {
        return None;
    }
    let character = character_at(hex, &text[..count]);
    Some(Found {
        first: character.unwrap_or('\u{FFFD}'),
        second: None,
        len: prefix + count + semicolon(&text[count..]),
    })
}

/// A numeric reference, after `&#`.
pub fn numeric(text: &[u8]) -> Option<Found>
    ensures { option_map reference_of result ≡ Reference.numbered_reference (Reference.numeric text.now) }
{
    match text {
        [b'x' | b'X', digits @ ..] => digits_at(true, 2, digits),
        _ => digits_at(false, 1, text),
    }
}

/// The error of a reference by its number, if it has one (section 13.2.5.80).
fn number_fault(number: u32) -> Option<ErrorCode>
    ensures { is_some result ≡ is_faulty_number number }
{
    if number > 0x10FFFF {
        return Some(ErrorCode::CharacterReferenceOutsideUnicodeRange);
    }
    match char::from_u32(number) {
        None => Some(ErrorCode::SurrogateCharacterReference),
        Some('\0') => Some(ErrorCode::NullCharacterReference),
        Some(c) => {
            if c != '\r' && !is_forbidden(c) {
                return None;
            }
            if c <= '\u{9F}' {
                return Some(ErrorCode::ControlCharacterReference);
            }
            Some(ErrorCode::NoncharacterCharacterReference)
        }
    }
}

/// The errors of a reference, in the order in which they are told.
#[derive(Clone, Copy)]
pub struct ReferenceFaults {
    /// Whether no `;` ends it.
    pub lacks_semicolon: bool,
    /// The error of what it names, if it has one.
    pub fault: Option<ErrorCode>,
}

/// The errors of digits after a prefix.
fn digits_faults(hex: bool, text: &[u8]) -> ReferenceFaults
    ensures { has_fault result ≡ is_faulty_digits hex text.now }
{
    let count = digit_run(hex, text);
    if count == 0 {
        return ReferenceFaults {
            lacks_semicolon: false,
            fault: Some(ErrorCode::AbsenceOfDigitsInNumericCharacterReference),
        };
    }
    ReferenceFaults {
        lacks_semicolon: semicolon(&text[count..]) == 0,
        fault: number_fault(number(hex, &text[..count])),
    }
}

/// The errors of a numeric reference after `&#`.
pub fn numeric_faults(text: &[u8]) -> ReferenceFaults
    ensures { has_fault result ≡ is_faulty_numeric text.now }
{
    match text {
        [b'x' | b'X', digits @ ..] => digits_faults(true, digits),
        _ => digits_faults(false, text),
    }
}
