//! A text of few bytes, which lie in the value itself.
ghost use Rattle.std.specs.Prelude.{◌≡◌, ◌+◌, ◌<◌, ◌≤◌, ◌++◌, ◌∷◌, [], length, nat_le};
ghost use Rattle.std.specs.Str.{IsUtf8};

use std::marker::Model;

// How many bytes there are at most: four fifths of the texts and values of real pages have at most 22.
const ROOM: usize = 30;

/// A text of at most 30 bytes. A contract sees the list of them.
#[derive(Drop)]
pub(crate) struct ShortText {
    cells: [u8; 30],
    len: u8,
}

impl Model for ShortText {
    ghost use Rattle.std.specs.Prelude.{◌≤◌, List, ℕ, take};
    ghost use Rattle.std.specs.Str.{IsUtf8};

    ghost Value = { List ℕ };

    ghost view = { λ s. take s.len s.cells };

    ghost invariant = { λ s. (s.len ≤ 30) × ∥ IsUtf8 (take s.len s.cells) ∥₁ };
}

impl ShortText {
    /// No bytes.
    pub(crate) fn new() -> ShortText
        ensures { result ≡ [] }
    {
        ShortText {
            cells: [0; 30],
            len: 0,
        }
    }

    /// The same bytes.
    pub(crate) fn copy(&self) -> ShortText
        ensures { result ≡ self.now }
    {
        ShortText {
            cells: self.cells,
            len: self.len,
        }
    }

    /// The text, lent.
    pub(crate) fn as_str(&self) -> &str
        ensures value { result.now ≡ self.now }
        ensures fits { length result.now ≤ 30 }
    {
        unsafe { str::from_utf8_unchecked(&self.cells[..self.len as usize]) }
    }

    /// Whether so many bytes more fit.
    pub(crate) fn has_room(&self, more: usize) -> bool
        ensures { result ≡ nat_le (length self.now + more) 30 }
    {
        more <= ROOM - self.len as usize
    }

    /// Adds an ASCII character at the end.
    pub(crate) fn push_ascii(&mut self, character: u8)
        requires ascii { character < 128 }
        requires room { length self.old + 1 ≤ 30 }
        ensures last { self.new ≡ self.old ++ character ∷ [] }
        ensures utf8 { IsUtf8 self.old }
    {
        let len = self.len;
        self.cells[len as usize] = character;
        self.len = len + 1;
    }

    /// Adds characters at the end.
    pub(crate) fn push_str(&mut self, more: &str)
        requires { length self.old + length more.now ≤ 30 }
        ensures last { self.new ≡ self.old ++ more.now }
        ensures utf8 { IsUtf8 self.old }
    {
        let len = self.len as usize;
        let end = len + more.len();
        self.cells[len..end].copy_from_slice(more.as_bytes());
        self.len = end as u8;
    }

    /// Drops the bytes.
    pub(crate) fn clear(&mut self)
        ensures { self.new ≡ [] }
    {
        self.len = 0;
    }
}
