//! Entries leave the list, or give way to others (HTML Standard, section 13.2.4.3).
ghost use Rattle.std.specs.Prelude.{◌≢◌, Some, insert, vec_len, vec_capacity, ◌≡◌, ◌<◌, ◌≤◌, ℕ, length, slice_index_or};
ghost use Rattle.std.specs.Prelude.{slice_set, remove, MatchOption};
ghost use Rattle.html_rules.specs.Adoption.{listed_as};
ghost use Rattle.html_tokens.specs.declared.tags.Tag.{Tag};
ghost use Rattle.html_rules.specs.Formatting.{is_equiv_modulo_attr_order, with_room, without_entry};
ghost use Rattle.html_stack.specs.Found.{IsRoom, renamed};
ghost use Rattle.html_stack.specs.Adopting.{IsRelisted};
ghost use Rattle.html_stack.specs.Stacks.{entries_of};

use crate::entries::FormatEntry;
use crate::formatting::positions;
use html_tokens::Tag;
use markup::TreeSink;

/// The newest entry of an element leaves the list, if it has one.
pub(crate) fn unlist<Sink: TreeSink>(
    sink: &Sink,
    entries: &mut Vec<FormatEntry<Sink::Handle>>,
    node: &Sink::Handle,
)
    ensures { entries_of Sink.node entries.new.items ≡ without_entry (Sink.node node.now) (entries_of Sink.node entries.old.items) }
{
    if let Some(i) = positions::in_list(sink, entries.as_slice(), node) {
        drop(entries.remove(i));
    }
}

/// The entry at a place stands for another element from now on, if it is no marker.
pub(crate) fn rename<Handle: Copy>(
    entries: &mut Vec<FormatEntry<Handle>>,
    place: usize,
    node: Handle,
)
    requires { place < length entries.old.items }
    ensures { (d : FormatEntry Handle) → entries.new.items ≡ slice_set entries.old.items place
        (renamed node (slice_index_or entries.old.items place d)) }
{
    let entry = &mut entries[place];
    if let FormatEntry::Element(handle, _) = entry {
        *handle = node;
    }
}

/// Whether two tags are equal up to the order of their attributes.
fn are_equal(tag: &Tag, other: &Tag) -> bool
    ensures { result ≡ is_equiv_modulo_attr_order tag.now other.now }
{
    tag.equiv_modulo_attr_order(other)
}

/// A place, if it was counted three times or more.
fn if_three(count: usize, place: usize) -> Option<usize>
    ensures { MatchOption result (count < 3) (λ i. (3 ≤ count) × (i ≡ place)) }
{
    if count < 3 { None } else { Some(place) }
}

/// The place of the entry that makes room for another one with this tag: of those since the last marker that are equal to it the earliest,
/// where there are three or more.
pub(crate) fn without_room<Handle>(entries: &[FormatEntry<Handle>], tag: &Tag) -> Option<usize>
    ensures { (node : Handle → ℕ) → MatchOption result
        (with_room tag.now (entries_of node entries.now) ≡ entries_of node entries.now) (IsRoom node tag.now entries.now) }
{
    let mut count: usize = 0;
    let mut earliest = 0;
    let mut i = entries.len();
    while i > 0 {
        i -= 1;
        match &entries[i] {
            FormatEntry::Marker => return if_three(count, earliest),
            FormatEntry::Element(_, other) => {
                if are_equal(tag, other) {
                    count += 1;
                    earliest = i;
                }
            }
        }
    }
    if_three(count, earliest)
}

/// Where three or more entries since the last marker are equal to a tag, the earliest of them leaves.
pub(crate) fn make_room<Sink: TreeSink>(entries: &mut Vec<FormatEntry<Sink::Handle>>, tag: &Tag)
    ensures { entries_of Sink.node entries.new.items ≡ with_room tag.now (entries_of Sink.node entries.old.items) }
{
    if let Some(i) = without_room(entries.as_slice(), tag) {
        drop(entries.remove(i));
    }
}

/// Puts an entry at a place, where there is room for it.
fn put_back<Handle: Copy>(
    entries: &mut Vec<FormatEntry<Handle>>,
    place: usize,
    entry: FormatEntry<Handle>,
)
    requires place { place ≤ length entries.old.items }
    requires room { vec_len entries.old < vec_capacity entries.old }
    ensures { entries.new.items ≡ insert entries.old.items place entry }
{
    drop(entries.insert(place, entry));
}

/// The entry of the formatting element stands for another element from now on. It comes just after that of a copy, where there is one.
pub(crate) fn relist<Sink: TreeSink>(
    sink: &Sink,
    entries: &mut Vec<FormatEntry<Sink::Handle>>,
    formatting_element: &Sink::Handle,
    new: Sink::Handle,
    first: Option<Sink::Handle>,
)
    ensures { (number : ℕ) (tag : Tag) → listed_as (Sink.node formatting_element.now)
        (entries_of Sink.node entries.old.items) ≡ Some (record { number = number; tag = tag })
        → Sink.node new ≢ Sink.node formatting_element.now → IsRelisted Sink.node (Sink.node formatting_element.now)
        (Sink.node new) tag first (entries_of Sink.node entries.old.items) (entries_of Sink.node entries.new.items) }
{
    let Some(from) = positions::in_list(sink, entries.as_slice(), formatting_element) else {
        return;
    };
    rename(entries, from, new);
    let Some(first) = first else {
        return;
    };
    let entry = entries.remove(from);
    match positions::in_list(sink, entries.as_slice(), &first) {
        None => drop(entry),
        Some(place) => put_back(entries, place + 1, entry),
    }
}
