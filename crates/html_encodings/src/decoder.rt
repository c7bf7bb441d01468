//! Decoders of an input that comes in pieces.
ghost use Rattle.std.specs.Prelude.{◌≡◌, ◌∷◌, [], ◌++◌, ◌+◌, ◌-◌, ◌^◌, IfOk, OnOk, OnErr};
ghost use Rattle.std.specs.String.{string_bytes};
ghost use Rattle.html_encodings.specs.Emitted.{items};
ghost use Rattle.html_encodings.specs.Handlers.{reading, utf8_of};
ghost use Rattle.html_encodings.specs.Decoders.{after, decoding, Begins, CopiesRun, ReadsFront};

use crate::ascii::ascii_prefix_len;
use crate::emitted::Emitted;
use crate::handler::Handler;
use std::alloc::{AllocError, Global};

/// Puts a character, or U+FFFD for an error, after a text.
#[tactic(auto, using(crate::proofs::Texts::utf8_of_item))]
fn put(item: Option<char>, text: &mut String) -> Result<(), AllocError>
    ensures ok { OnOk result (string_bytes text.new ≡ string_bytes text.old ++ utf8_of (item ∷ [])) }
    ensures err { OnErr result (string_bytes text.new ≡ string_bytes text.old) }
{
    text.push(item.unwrap_or('\u{FFFD}'))
}

/// Puts what is emitted after a text.
fn put_all(emitted: Emitted, text: &mut String) -> Result<(), AllocError>
    ensures ok { OnOk result (string_bytes text.new ≡ string_bytes text.old ++ utf8_of (items emitted)) }
    ensures err { OnErr result (Begins (string_bytes text.old) (string_bytes text.new)) }
{
    match emitted {
        Emitted::Nothing => {}
        Emitted::One(a) => put(a, text)?,
        Emitted::Two(a, b) => {
            put(a, text)?;
            put(b, text)?;
        }
        Emitted::Three(a, b, c) => {
            put(a, text)?;
            put(b, text)?;
            put(c, text)?;
        }
        Emitted::Four(a, b, c, d) => {
            put(a, text)?;
            put(b, text)?;
            put(c, text)?;
            put(d, text)?;
        }
    }
    Ok(())
}

/// Copies the ASCII bytes in front after a text, and says how many there are.
fn copy_ascii(bytes: &[u8], text: &mut String) -> Result<usize, AllocError>
    ensures ok { IfOk result (CopiesRun bytes.now (string_bytes text.old) (string_bytes text.new)) }
    ensures err { OnErr result (string_bytes text.new ≡ string_bytes text.old) }
{
    let count = ascii_prefix_len(bytes);
    if count != 0 {
        text.push_str(unsafe { std::str::from_utf8_unchecked(&bytes[..count]) })?;
    }
    Ok(count)
}

/// Copies what a handler lets be copied in front, and says how many bytes that are.
fn copy_front<H: Handler>(handler: &H, bytes: &[u8], text: &mut String) -> Result<usize, AllocError>
    ensures ok { IfOk result (ReadsFront H.step handler.now bytes.now (string_bytes text.old) (string_bytes text.new)) }
    ensures err { OnErr result (string_bytes text.new ≡ string_bytes text.old) }
{
    if !handler.copies_ascii() {
        return Ok(0);
    }
    let count = copy_ascii(bytes, text)?;
    Ok(count)
}

/// Reads bytes, and says how many errors there are now.
fn read_bytes<H: Handler>(
    handler: &mut H,
    bytes: &[u8],
    text: &mut String,
    errors: u64,
) -> Result<u64, AllocError>
    ensures ok { IfOk result (λ count. let read = reading H.step handler.old bytes.now in
        record { text = string_bytes text.new; errors = count }
        ≡ after (record { text = string_bytes text.old; errors = errors }) read.written) }
    ensures state { OnOk result (handler.new ≡ (reading H.step handler.old bytes.now).state) }
    ensures err { OnErr result (Begins (string_bytes text.old) (string_bytes text.new)) }
{
    let mut errors = errors;
    let mut rest = bytes;
    'pieces: loop {
        let count = copy_front(handler, rest, text)?;
        let Some((byte, others)) = rest[count..].split_first() else {
            return Ok(errors);
        };
        let emitted = handler.read(*byte);
        errors = errors.saturating_add(emitted.errors());
        put_all(emitted, text)?;
        rest = others;
    }
}

/// A decoder of an input that comes in pieces: what it writes for the pieces is what it writes for the whole.
///
/// A byte order mark is read as any other bytes: [`sniff`](crate::sniff) says how long it is.
#[derive(Clone, Copy)]
pub struct Decoder<H> {
    /// The handler, in the state in which the next piece finds it.
    pub handler: H,
    /// How many errors there were, at most `u64::MAX`. Each stands as U+FFFD in the text.
    pub errors: u64,
}

impl<H: Handler + Copy> Decoder<H> {
    /// A decoder at the start of its input.
    pub fn new(handler: H) -> Decoder<H>
        ensures { result ≡ record { handler = handler; errors = 0 } }
    {
        Decoder { handler, errors: 0 }
    }

    /// Reads a piece, and puts what it is after a text. Where memory is wanting nothing has happened.
    pub fn feed(&mut self, bytes: &[u8], text: &mut String) -> Result<(), AllocError>
        ensures output { OnOk result (record { text = string_bytes text.new; errors = self.new.errors }
            ≡ after (record {
              text = string_bytes text.old;
              errors
                  = self.old.errors;
            }) (reading H.step self.old.handler bytes.now).written) }
        ensures state { OnOk result (self.new.handler ≡ (reading H.step self.old.handler bytes.now).state) }
        ensures err { OnErr result (self.new ≡ self.old) }
        ensures err_text { OnErr result (string_bytes text.new ≡ string_bytes text.old) }
    {
        let mut handler = self.handler;
        let length = text.as_str().len();
        match read_bytes(&mut handler, bytes, text, self.errors) {
            Ok(errors) => {
                self.handler = handler;
                self.errors = errors;
                Ok(())
            }
            Err(error) => {
                text.truncate(length);
                Err(error)
            }
        }
    }

    /// Reads the end of the input, and puts what is still to come after a text. Answers how many errors there were in
    /// all. Where memory is wanting the text is as it was.
    pub fn finish(&self, text: &mut String) -> Result<u64, AllocError>
        ensures ok { IfOk result (λ count. record { text = string_bytes text.new; errors = count }
            ≡ after (record { text = string_bytes text.old; errors = self.now.errors }) (H.end self.now.handler)) }
        ensures err { OnErr result (string_bytes text.new ≡ string_bytes text.old) }
    {
        let length = text.as_str().len();
        let emitted = self.handler.finish();
        match put_all(emitted, text) {
            Ok(()) => Ok(self.errors.saturating_add(emitted.errors())),
            Err(error) => {
                text.truncate(length);
                Err(error)
            }
        }
    }
}
