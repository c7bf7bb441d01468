//! Walks from the current node back. Elements are lent as they lie, the root first.
ghost use Rattle.std.specs.Prelude.{◌≡◌, ◌<◌, ◌≤◌, [], ℕ, MatchOption, None, Some, length, slice_index_or, take};
ghost use Rattle.std.specs.List.{list_all};
ghost use Rattle.markup.specs.KnownNames.{names};
ghost use Rattle.html_rules.specs.Formatting.{after_marker};
ghost use Rattle.html_rules.specs.Stack.{finds_generic, in_scope, item_name, left_below, left_from};
ghost use Rattle.html_rules.specs.State.{current_is, current_number, is_in};
ghost use Rattle.html_stack.specs.Stacks.{entries_of, entry_of, is_mark, opens_of};
ghost use Rattle.html_stack.specs.Wanted.{IsOfHtml, IsWanted, passes};

use crate::entries::{FormatEntry, OpenElement};
use crate::wanted::{Wanted, is_wanted};
use html_rules::TagSet;
use markup::KnownName;

/// Whether a wanted element is open, up to and with the first of a scope's bounds.
pub(crate) fn is_in_scope<Handle>(
    elements: &[OpenElement<Handle>],
    scope: TagSet,
    wanted: Wanted<'_>,
) -> bool
    requires { IsWanted wanted }
    ensures { (node : Handle → ℕ) → result ≡ in_scope scope (passes wanted.entry) (opens_of node elements.now) }
{
    let mut i = elements.len();
    while i > 0 {
        i -= 1;
        let element = &elements[i];
        if is_wanted(wanted, element) {
            return true;
        }
        if element.name.is_in(scope) {
            return false;
        }
    }
    false
}

/// The same for an element of a set.
#[inline(always)]
pub(crate) fn is_set_in_scope<Handle>(
    elements: &[OpenElement<Handle>],
    scope: TagSet,
    set: TagSet,
) -> bool
    ensures { (node : Handle → ℕ) → result ≡ in_scope scope (is_in set) (opens_of node elements.now) }
{
    let mut i = elements.len();
    while i > 0 {
        i -= 1;
        let element = &elements[i];
        if element.name.is_in(set) {
            return true;
        }
        if element.name.is_in(scope) {
            return false;
        }
    }
    false
}

/// Whether the current node is wanted.
pub(crate) fn is_last<Handle>(elements: &[OpenElement<Handle>], wanted: Wanted<'_>) -> bool
    requires { IsWanted wanted }
    ensures { (node : Handle → ℕ) → result ≡ current_is (passes wanted.entry) (opens_of node elements.now) }
{
    let count = elements.len();
    if count == 0 {
        return false;
    }
    is_wanted(wanted, &elements[count - 1])
}

/// The node of the current element.
pub(crate) fn last<Handle: Copy>(elements: &[OpenElement<Handle>]) -> Handle
    requires { 0 < length elements.now }
    ensures { (node : Handle → ℕ) → node result ≡ current_number (opens_of node elements.now) }
{
    elements[elements.len() - 1].handle
}

/// How many elements were opened before the last that is wanted.
pub(crate) fn count_below<Handle>(elements: &[OpenElement<Handle>], wanted: Wanted<'_>) -> usize
    requires { IsWanted wanted }
    ensures within { result ≤ length elements.now }
    ensures left { (node : Handle → ℕ) → opens_of node (take result elements.now) ≡ left_below (passes wanted.entry)
        (opens_of node elements.now) }
{
    let mut i = elements.len();
    while i > 0 {
        i -= 1;
        if is_wanted(wanted, &elements[i]) {
            return i;
        }
    }
    0
}

/// How many elements there are up to and with the last that is wanted.
pub(crate) fn count_from<Handle>(elements: &[OpenElement<Handle>], wanted: Wanted<'_>) -> usize
    requires { IsWanted wanted }
    ensures within { result ≤ length elements.now }
    ensures left { (node : Handle → ℕ) → opens_of node (take result elements.now) ≡ left_from (passes wanted.entry)
        (opens_of node elements.now) }
{
    let mut i = elements.len();
    while i > 0 {
        if is_wanted(wanted, &elements[i - 1]) {
            return i;
        }
        i -= 1;
    }
    0
}

/// Whether an entry is a marker.
fn is_marker<Handle>(entry: &FormatEntry<Handle>) -> bool
    ensures { (node : Handle → ℕ) → result ≡ is_mark (entry_of node entry.now) }
{
    match entry {
        FormatEntry::Marker => true,
        FormatEntry::Element(_, _) => false,
    }
}

/// How many entries there are before the last marker; none where there is no marker.
pub(crate) fn count_to_marker<Handle>(entries: &[FormatEntry<Handle>]) -> usize
    ensures within { result ≤ length entries.now }
    ensures left { (node : Handle → ℕ) → entries_of node (take result entries.now) ≡ after_marker (entries_of node entries.now) }
{
    let mut i = entries.len();
    while i > 0 {
        i -= 1;
        if is_marker(&entries[i]) {
            return i;
        }
    }
    0
}

/// Whether a wanted element is open and no special one stands before it.
pub(crate) fn finds_generic<Handle>(elements: &[OpenElement<Handle>], wanted: Wanted<'_>) -> bool
    requires { IsWanted wanted }
    ensures { (node : Handle → ℕ) → result ≡ finds_generic (passes wanted.entry) (opens_of node elements.now) }
{
    let mut i = elements.len();
    while i > 0 {
        i -= 1;
        let element = &elements[i];
        if is_wanted(wanted, element) {
            return true;
        }
        if element.name.is_in(TagSet::SpecialTag) {
            return false;
        }
    }
    false
}

/// The nearest item, if no special element other than `address`, `div` and `p` stands before it.
pub(crate) fn item<Handle>(elements: &[OpenElement<Handle>], items: TagSet) -> Option<KnownName>
    requires { IsOfHtml items }
    ensures { (node : Handle → ℕ) → MatchOption result (item_name items (opens_of node elements.now) ≡ None)
        (λ known. (known.place < length names)
        × (item_name items (opens_of node elements.now) ≡ Some (slice_index_or names known.place []))) }
{
    let mut i = elements.len();
    while i > 0 {
        i -= 1;
        let element = &elements[i];
        if element.name.is_in(items) {
            return element.name.known_html();
        }
        if element.name.is_in(TagSet::SpecialTag) && !element.name.is_in(TagSet::AddressDivP) {
            return None;
        }
    }
    None
}

/// Whether all elements are in a set.
pub(crate) fn are_all_in<Handle>(elements: &[OpenElement<Handle>], set: TagSet) -> bool
    ensures { (node : Handle → ℕ) → result ≡ list_all (is_in set) (opens_of node elements.now) }
{
    let mut i = elements.len();
    while i > 0 {
        i -= 1;
        if !elements[i].name.is_in(set) {
            return false;
        }
    }
    true
}
