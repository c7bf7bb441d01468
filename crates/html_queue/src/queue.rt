ghost use Rattle.std.specs.Prelude.{◌≡◌, ◌+◌, ◌++◌, [], ◌∷◌, length, IfOk, OnOk, OnErr, IsOkUnless, MatchOption, slice_get};
ghost use Rattle.std.specs.Prelude.{◌==◌, ◌≢◌, ℕ, Bool, true, Some, encode_utf8_all, take};
ghost use Rattle.std.specs.Str.{chars, IsAscii, IsCharBoundary};
ghost use Rattle.std.specs.String.{string_bytes};
ghost use Rattle.markup.specs.declared.fault.ParseFault.TheVariants.{Memory};
ghost use Rattle.html_queue.specs.Queue.{Takes, Passes, Pops};
ghost use Rattle.html_queue.specs.Begins.{begins, Computes, RefusesAbove};

use crate::begins::begins_by;
use crate::cursor::Cursor;
use crate::set::{SetResult, SmallCharSet};
use markup::ParseFault;
use markup::count::Count;
use std::marker::Model;
use std::mem;

/// The characters that wait to be read, the first one first.
///
/// Text goes in by [`push_back`](BufferQueue::push_back) and
/// [`push_front`](BufferQueue::push_front), which take over the `String` or copy it into the text
/// that is held, in the memory of the allocator that this text came with.
///
/// A contract sees the list of characters and, beside it, how many characters were taken since
/// `new`. That number is there for proofs alone: no call reads it, and it takes no byte.
#[derive(Drop)]
pub struct BufferQueue {
    cursor: Cursor,
    taken: Count,
}

const _: () = prove!(mem::size_of::<BufferQueue>() == mem::size_of::<Cursor>());

impl Model for BufferQueue {
    ghost use Rattle.html_queue.specs.Queue.{Queue};
    ghost use Rattle.std.specs.Str.{chars};

    ghost Value = { Queue };

    ghost view = { λ q. record { characters = chars q.cursor; taken = q.taken.count } };
}

impl BufferQueue {
    /// An empty queue.
    pub fn new() -> BufferQueue
        ensures { result ≡ record { characters = []; taken = 0 } }
    {
        BufferQueue {
            cursor: Cursor::new(),
            taken: Count::new(),
        }
    }

    /// Whether no character waits.
    pub fn is_empty(&self) -> bool
        ensures { result ≡ (length self.now.characters == 0) }
    {
        self.cursor.as_str().is_empty()
    }

    /// The first character, which stays in the queue.
    pub fn peek(&self) -> Option<char>
        ensures { result ≡ slice_get self.now.characters 0 }
    {
        self.cursor.as_str().chars().next()
    }

    /// All that waits, lent, as one text.
    pub fn as_str(&self) -> &str
        ensures { result.now ≡ encode_utf8_all self.now.characters }
    {
        Cursor::as_str(&self.cursor)
    }

    /// Takes so many bytes of what waits, where a character ends.
    pub fn skip(&mut self, width: usize)
        requires { IsCharBoundary (encode_utf8_all self.old.characters) width }
        ensures { Takes (chars (take width (encode_utf8_all self.old.characters))) self.old self.new }
    {
        let waiting = self.cursor.as_str();
        self.taken.add(waiting[..width].as_bytes());
        self.cursor.skip(width);
    }

    /// Takes the first character. `None` where the queue is empty.
    pub fn next(&mut self) -> Option<char>
        ensures { MatchOption result ((self.old.characters ≡ []) × (self.new ≡ self.old)) (λ c. Takes (c ∷ []) self.old self.new) }
    {
        let rest = self.cursor.as_str();
        if rest.is_empty() {
            return None;
        }
        let byte = rest.as_bytes()[0];
        if byte < 128 {
            self.cursor.skip(1);
            self.taken.add_one();
            return Some(byte as char);
        }
        let c = rest.chars().next()?;
        self.cursor.skip(c.len_utf8());
        self.taken.add_one();
        Some(c)
    }

    /// Puts a text after all that waits. Text that was taken before may be let go here, so a long
    /// stream holds little more than what still waits.
    pub fn push_back(&mut self, text: String) -> Result<(), ParseFault>
        ensures ok { OnOk result (self.new ≡ record self.old { characters = self.old.characters ++ chars (string_bytes text) }) }
        ensures err { OnErr result (self.new ≡ self.old) }
        ensures fault { IsOkUnless result Memory }
    {
        self.cursor.push_back(text)?;
        Ok(())
    }

    /// Puts a text before all that waits. A text that was just taken is put back with no copy.
    pub fn push_front(&mut self, text: String) -> Result<(), ParseFault>
        ensures ok { OnOk result (self.new ≡ record self.old { characters = chars (string_bytes text) ++ self.old.characters }) }
        ensures err { OnErr result (self.new ≡ self.old) }
        ensures fault { IsOkUnless result Memory }
    {
        self.cursor.push_front(text)?;
        Ok(())
    }

    /// Takes one character of the set, or all characters before the first that is in the set,
    /// whichever is not empty. `None` where the queue is empty.
    pub fn pop_except_from(&mut self, set: SmallCharSet) -> Result<Option<SetResult>, ParseFault>
        ensures ok { IfOk result (Pops set.bits self.old self.new) }
        ensures err { OnErr result (self.new ≡ self.old) }
        ensures fault { IsOkUnless result Memory }
    {
        let rest = self.cursor.as_str();
        if rest.is_empty() {
            return Ok(None);
        }
        let width = set.nonmember_prefix_len(rest);
        if width == 0 {
            let c = rest.as_bytes()[0] as char;
            self.cursor.skip(1);
            self.taken.add_one();
            return Ok(Some(SetResult::FromSet(c)));
        }
        let run = self.cursor.copy_front(width)?;
        self.taken.add(rest[..width].as_bytes());
        self.cursor.skip(width);
        Ok(Some(SetResult::NotFromSet(run)))
    }

    /// Takes the pattern where the queue begins with it, byte by byte under `eq`: `Some(true)`.
    /// `Some(false)` at the first byte that differs, and `None` where the queue ends before that.
    /// These two take nothing.
    ///
    /// The pattern is of ASCII alone, and `eq`, which is passed a byte of the queue and one of the
    /// pattern, refuses every byte of the queue above 7F.
    pub fn eat<F: Fn(&u8, &u8) -> bool>(&mut self, pattern: &str, eq: F) -> Option<bool>
        requires callable { F.IsAlwaysCallable eq }
        requires ascii { IsAscii pattern.now }
        requires refuses { RefusesAbove (F.post eq) }
        ensures answer { (same : ℕ → ℕ → Bool) → Computes (F.post eq) same → result ≡ begins same self.old.characters pattern.now }
        ensures eaten { result ≡ Some true → Passes (length pattern.now) self.old self.new }
        ensures kept { result ≢ Some true → self.new ≡ self.old }
    {
        let found = begins_by(self.cursor.as_str().as_bytes(), pattern.as_bytes(), eq);
        if found == Some(true) {
            self.cursor.skip(pattern.len());
            self.taken.add(pattern.as_bytes());
        }
        found
    }

    /// Exchanges two queues.
    pub fn swap_with(&mut self, other: &mut BufferQueue)
        ensures here { self.new ≡ other.old }
        ensures there { other.new ≡ self.old }
    {
        mem::swap(self, other);
    }

    /// Puts the other's characters in place of these, which are let go.
    pub fn replace_with(&mut self, other: BufferQueue)
        // What was taken from either counts.
        ensures { self.new ≡ record { characters = other.characters; taken = self.old.taken + other.taken } }
    {
        let BufferQueue { cursor, taken } = other;
        self.cursor = cursor;
        self.taken.add_all(&taken);
    }
}
