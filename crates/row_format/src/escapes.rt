//! Texts with escapes.

use std::alloc::{AllocError, Global};

/// What was read of an escape.
#[derive(Clone, Copy)]
enum Held {
    Nothing,
    Backslash,
    /// `\u{` and digits, by their value.
    Digits(u32),
}

/// A text without the escapes that were read so far.
#[derive(Drop)]
struct Unescaped {
    text: String,
    held: Held,
}

/// The character that a letter stands for after a backslash.
fn character_of(letter: char) -> char {
    match letter {
        'n' => '\n',
        'r' => '\r',
        't' => '\t',
        '0' => '\0',
        _ => letter,
    }
}

impl Unescaped {
    /// Takes a character after a backslash.
    fn take_letter(&mut self, letter: char) -> Result<(), AllocError> {
        if letter == 'u' {
            self.held = Held::Digits(0);
            return Ok(());
        }
        self.held = Held::Nothing;
        self.text.push(character_of(letter))
    }

    /// Takes a brace or a digit.
    fn take_digit(&mut self, value: u32, c: char) -> Result<(), AllocError> {
        if c == '}' {
            self.held = Held::Nothing;
            return self.text.push(char::from_u32(value).unwrap_or('\u{FFFD}'));
        }
        let digit = c.to_digit(16).unwrap_or(0);
        self.held = Held::Digits(value.saturating_mul(16).saturating_add(digit));
        Ok(())
    }

    fn take(&mut self, c: char) -> Result<(), AllocError> {
        match self.held {
            Held::Backslash => self.take_letter(c),
            Held::Digits(value) => self.take_digit(value, c),
            Held::Nothing => {
                if c == '\\' {
                    self.held = Held::Backslash;
                    return Ok(());
                }
                self.text.push(c)
            }
        }
    }
}

/// The text that a text with escapes stands for.
pub fn without_escapes(alloc: Global, escaped: &str) -> Result<String, AllocError> {
    let mut taken = Unescaped {
        text: String::new(alloc),
        held: Held::Nothing,
    };
    for c in escaped.chars() {
        taken.take(c)?;
    }
    Ok(taken.text)
}
