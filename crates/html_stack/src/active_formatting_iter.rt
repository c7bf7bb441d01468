//! The entries since the last marker.
ghost use Rattle.std.specs.Prelude.{◌≡◌};

use crate::entries::FormatEntry;
use html_tokens::Tag;

/// The entries since the last marker, the newest first, each with its place in the list. It has ended at the marker, also where it is asked
/// again.
#[derive(Drop)]
pub struct ActiveFormattingIter<'a, Handle> {
    entries: &'a [FormatEntry<Handle>],
}

impl<'a, Handle> ActiveFormattingIter<'a, Handle> {
    /// Over entries that are lent, the oldest first.
    pub(crate) fn new(entries: &'a [FormatEntry<Handle>]) -> ActiveFormattingIter<'a, Handle>
        ensures { result.entries.now ≡ entries.now }
    {
        ActiveFormattingIter { entries }
    }
}

impl<'a, Handle> Iterator for ActiveFormattingIter<'a, Handle> {
    ghost use Rattle.std.specs.Prelude.{length};
    ghost use Rattle.std.specs.Iterator.{at_most};
    ghost use Rattle.html_stack.specs.Entries.{GivesEntry};

    type Item = (usize, &'a Handle, &'a Tag);

    ghost next_gives = { GivesEntry };

    ghost remaining = { λ s. at_most (length s.entries.now) };

    fn next(&mut self) -> Option<(usize, &'a Handle, &'a Tag)> {
        let (last, front) = self.entries.split_last()?;
        match last {
            FormatEntry::Element(handle, tag) => {
                self.entries = front;
                Some((front.len(), handle, tag))
            }
            FormatEntry::Marker => None,
        }
    }
}
