//! A source that decodes another.
ghost use Rattle.std.specs.Prelude.{◌≡◌, ℕ, List, Some, option_copied, ◌<◌, ◌≤◌, [], ◌++◌, ◌==◌, false, true, not, min, length, take};
ghost use Rattle.std.specs.Prelude.{drop, is_err, None, IfOk, OnErr, OnOk, OnSome, option_map};
ghost use Rattle.std.specs.Io.KnownBytes.{IsAtEnd, prepend_known};
ghost use Rattle.devices.specs.Devices.{TellsBytes, count_after};
ghost use Rattle.html_encodings_multibyte.specs.Every.{every_start};
ghost use Rattle.html_decoded_source.specs.Sources.{IsFound, left_of, text_in};

use crate::front::{front_of, room};
use devices::{DeviceFault, Source};
use html_encodings::{Decoder, Encoding, Sniffed, sniff};
use html_encodings_multibyte::Every;
use std::alloc::{AllocError, Global};
use std::marker::Model;

/// A source of the text of what another source has, in UTF-8: it decodes the other's bytes by an encoding, with U+FFFD for each error. A
/// byte order mark is decoded as any other bytes; in front of a document the parser drops it.
///
/// Contracts state its bytes where they state the other's, and not how often it failed. A read fails if the other's does, or out of memory;
/// it may be tried again.
#[derive(Drop)]
pub struct DecodedSource<R> {
    source: R,
    decoder: Decoder<Every>,
    // Room for a read, of which so many bytes were read and are not decoded.
    buffer: Vec<u8>,
    held: usize,
    // The text that was decoded last, of which so many bytes were given.
    text: String,
    given: usize,
    has_ended: bool,
}

impl<R> Model for DecodedSource<R> {
    ghost use Rattle.std.specs.Prelude.{◌<◌, ◌≤◌, take, drop, vec_len, string_bytes, length};
    ghost use Rattle.html_decoded_source.specs.Sources.{Decoding};

    ghost Value = { Decoding R };

    ghost view = { λ d. record {
      source = d.source;
      handler = d.decoder.handler;
      held = take d.held d.buffer.items;
      waiting = drop d.given (string_bytes d.text);
      has_ended = d.has_ended;
    } };

    ghost invariant = { λ d. ((0 < vec_len d.buffer) × (d.held ≤ vec_len d.buffer)) × (d.given ≤ length (string_bytes d.text)) };
}

impl<R: Source> DecodedSource<R> {
    /// What another source has, decoded by an encoding.
    pub fn new(alloc: Global, source: R, encoding: Encoding) -> Result<DecodedSource<R>, AllocError>
    where
        R: Drop,
        ensures begins { IfOk result (λ made. made ≡ record {
          source = source;
          handler = every_start encoding;
          held = [];
          waiting = [];
          has_ended = false;
        }) }
        ensures left { IfOk result (λ made. left_of R.left made ≡ option_map (text_in encoding) (R.left source)) }
    {
        let buffer = room(alloc)?;
        Ok(DecodedSource {
            source,
            decoder: Decoder::new(Every::new(encoding)),
            buffer,
            held: 0,
            text: String::new(alloc),
            given: 0,
            has_ended: false,
        })
    }

    /// What another source has, decoded by the encoding that is found: by its byte order mark, which is left out, the label that came
    /// with it, a declaration among its first 1,024 bytes, or else the fallback. So much is read at once. It fails where the other source
    /// does, or where memory is wanting.
    pub fn found(
        alloc: Global,
        source: R,
        label: Option<&[u8]>,
        fallback: Encoding,
    ) -> Result<(DecodedSource<R>, Sniffed), DeviceFault>
    where
        R: Drop,
        ensures { IfOk result (λ made. (whole : List ℕ) → R.left source ≡ Some whole
            → IsFound whole (option_copied label.entry) fallback made.1 (left_of R.left made.0)) }
    {
        let mut source = source;
        let (buffer, held) = front_of(alloc, &mut source)?;
        let mut buffer = buffer;
        let sniffed = sniff(&buffer[..held], label, fallback);
        let Ok(buffer) = buffer.split_off(sniffed.mark_length) else {
            return Err(DeviceFault::Device);
        };
        let made = DecodedSource {
            source,
            decoder: Decoder::new(Every::new(sniffed.encoding)),
            buffer,
            held: held.saturating_sub(sniffed.mark_length),
            text: String::new(alloc),
            given: 0,
            has_ended: false,
        };
        Ok((made, sniffed))
    }

    // Decodes what was read.
    fn decode_held(&mut self) -> Result<(), DeviceFault>
        requires open { self.old.has_ended ≡ false }
        ensures same { left_of R.left self.new ≡ left_of R.left self.old }
        ensures source { self.new.source ≡ self.old.source }
    {
        match self.decoder.feed(&self.buffer[..self.held], &mut self.text) {
            Ok(()) => {
                self.held = 0;
                Ok(())
            }
            Err(_) => Err(DeviceFault::Device),
        }
    }

    // Decodes the end.
    fn decode_end(&mut self) -> Result<(), DeviceFault>
        requires open { self.old.has_ended ≡ false }
        requires none { self.old.held ≡ [] }
        requires end { IsAtEnd (R.left self.old.source) }
        ensures same { left_of R.left self.new ≡ left_of R.left self.old }
        ensures source { self.new.source ≡ self.old.source }
    {
        match self.decoder.finish(&mut self.text) {
            Ok(_) => {
                self.has_ended = true;
                Ok(())
            }
            Err(_) => Err(DeviceFault::Device),
        }
    }

    // Forgets the text that was given.
    fn forget(&mut self)
        requires { self.old.waiting ≡ [] }
        ensures { self.new ≡ self.old }
    {
        self.text.clear();
        self.given = 0;
    }

    // Reads of the other source, where nothing is held, and decodes what it gave, or the end.
    fn refill(&mut self) -> Result<(), DeviceFault>
        requires open { self.old.has_ended ≡ false }
        requires waits { self.old.waiting ≡ [] }
        ensures same { left_of R.left self.new ≡ left_of R.left self.old }
        ensures references { R.references self.new.source ≡ R.references self.old.source }
    {
        self.forget();
        if self.held == 0 {
            self.held = self.source.read_some(&mut self.buffer)?;
        }
        if self.held == 0 {
            return self.decode_end();
        }
        self.decode_held()
    }

    // Whether text waits.
    fn has_text(&self) -> bool
        ensures { result ≡ not (length self.now.waiting == 0) }
    {
        self.given < self.text.len()
    }

    // Reads on until text waits, or nothing is left.
    fn fill(&mut self) -> Result<(), DeviceFault>
        ensures same { left_of R.left self.new ≡ left_of R.left self.old }
        ensures references { R.references self.new.source ≡ R.references self.old.source }
        ensures ok { OnOk result (self.new.waiting ≡ [] → self.new.has_ended ≡ true) }
    {
        for _ in 0..u64::MAX {
            if self.has_ended || self.has_text() {
                return Ok(());
            }
            self.refill()?;
        }
        Err(DeviceFault::Device)
    }

    // Gives of the text that waits as much as there is room for.
    fn give(&mut self, buffer: &mut [u8]) -> usize
        ensures within { result ≤ length buffer.old }
        ensures moved { self.old.waiting ≡ take result buffer.new ++ self.new.waiting }
        ensures rest { drop result buffer.new ≡ drop result buffer.old }
        ensures all { result ≡ min (length buffer.old) (length self.old.waiting) }
        ensures same { self.new ≡ record self.old { waiting = self.new.waiting } }
    {
        let waiting = &self.text.as_bytes()[self.given..];
        let count = buffer.len().min(waiting.len());
        buffer[..count].copy_from_slice(&waiting[..count]);
        self.given += count;
        count
    }
}

impl<R: Source> Source for DecodedSource<R> {
    ghost left = { λ d. left_of R.left d };

    ghost failures = { λ _. None };

    ghost references = { λ d. R.references d.source };

    fn read_some(&mut self, buffer: &mut [u8]) -> Result<usize, DeviceFault> {
        self.fill()?;
        Ok(self.give(buffer))
    }
}
