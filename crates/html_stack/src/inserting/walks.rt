//! Walks over the open elements where something is put. Elements are lent as they lie, the root first.
ghost use Rattle.std.specs.Prelude.{◌≡◌, ◌≤◌, ℕ, length, take};
ghost use Rattle.html_rules.specs.Stack.{has_open, root_number};
ghost use Rattle.html_rules.specs.State.{current_number};
ghost use Rattle.html_stack.specs.Stacks.{opens_of};

use crate::entries::OpenElement;
use html_rules::TagSet;

/// The root; the document, where nothing is open.
pub(crate) fn root_or<Handle: Copy>(elements: &[OpenElement<Handle>], document: Handle) -> Handle
    ensures { (node : Handle → ℕ) → node document ≡ 0 → node result ≡ root_number (opens_of node elements.now) }
{
    let count = elements.len();
    if count == 0 {
        document
    } else {
        elements[0].handle
    }
}

/// The element that was opened just before the one at a place; the document before the root.
pub(crate) fn before<Handle: Copy>(
    elements: &[OpenElement<Handle>],
    place: usize,
    document: Handle,
) -> Handle
    requires { place ≤ length elements.now }
    ensures { (node : Handle → ℕ) → node document ≡ 0 → node result ≡ current_number (opens_of node (take place elements.now)) }
{
    if place == 0 {
        document
    } else {
        elements[place - 1].handle
    }
}

/// Whether an element of a set is open.
pub(crate) fn has_open<Handle>(elements: &[OpenElement<Handle>], set: TagSet) -> bool
    ensures { (node : Handle → ℕ) → result ≡ has_open set (opens_of node elements.now) }
{
    let mut i = elements.len();
    while i > 0 {
        i -= 1;
        if elements[i].name.is_in(set) {
            return true;
        }
    }
    false
}
