//! Handlers: the decoders of the Encoding Standard, one byte at a time.
ghost use Rattle.std.specs.Prelude.{◌≡◌, ℕ, List, Option, IsTrue};
ghost use Rattle.html_encodings.specs.Emitted.{items, Does};
ghost use Rattle.html_encodings.specs.Handlers.{Step, CopiesAscii};

use crate::emitted::Emitted;

/// A decoder's handler, with its state (Encoding Standard, section 4).
pub trait Handler {
    /// What it makes of a byte.
    ghost step: { Self → ℕ → Step Self };

    /// What it writes at the end of the input.
    ghost end: { Self → List (Option ℕ) };

    /// Reads one byte.
    fn read(&mut self, byte: u8) -> Emitted
        ensures { Does (step self.old byte) result self.new };

    /// Reads the end of the input.
    fn finish(&self) -> Emitted
        ensures { items result ≡ end self.now };

    /// Whether ASCII bytes may be copied as they are.
    fn copies_ascii(&self) -> bool
        ensures { IsTrue result → CopiesAscii step self.now };
}
