//! Formatting elements over a forest: listed, opened again, taken out of the stack.
ghost use Rattle.html_rules_laws.specs.Soundness.{IsStanding};

use crate::inserting::{started, tag};
use html_forest::Forest;
use html_stack::{ElementClass, FormatEntry, Stack, TagSet};
use markup::{Attributes, ParseFault, TreeSink};
use std::alloc::Global;

// A formatting element of this name is inserted and listed; `|` is a marker.
fn list(
    alloc: Global,
    forest: &mut Forest,
    stack: &mut Stack<Forest>,
    name: &str,
) -> Result<(), ParseFault>
    requires { IsStanding forest.old stack.old.open_elems stack.old.active_formatting }
    ensures { IsStanding forest.new stack.new.open_elems stack.new.active_formatting }
{
    if name == "|" {
        return stack.push_marker();
    }
    let tag = tag(alloc, name, Attributes::new(alloc))?;
    let class = ElementClass::html(&tag.name);
    stack.create_formatting_element_for(forest, class, tag, false)?;
    Ok(())
}

// Formatting elements of these names.
fn list_each(
    alloc: Global,
    forest: &mut Forest,
    stack: &mut Stack<Forest>,
    names: &[&str],
) -> Result<(), ParseFault>
    requires { IsStanding forest.old stack.old.open_elems stack.old.active_formatting }
    ensures { IsStanding forest.new stack.new.open_elems stack.new.active_formatting }
{
    for name in names {
        list(alloc, forest, stack, name)?;
    }
    Ok(())
}

// All but the root leave the stack.
fn close_all(_forest: &Forest, stack: &mut Stack<Forest>)
    requires { IsStanding _forest.now stack.old.open_elems stack.old.active_formatting }
    ensures { IsStanding _forest.now stack.new.open_elems stack.new.active_formatting }
{
    stack.pop_until_current(TagSet::Html);
}

// How many entries are listed after these; no error is told.
fn has_entries(alloc: Global, names: &[&str], entries: usize) -> Result<bool, ParseFault> {
    let (mut forest, mut stack) = started(alloc)?;
    list_each(alloc, &mut forest, &mut stack, names)?;
    Ok(stack.active_formatting().len() == entries && forest.error_count() == 0)
}

#[test]
fn the_earliest_of_three_equal_entries_makes_room(rt: HostRuntime) {
    let rows: &[(&[&str], usize)] = &[
        (&["b", "b", "b"], 3),
        (&["b", "b", "b", "b"], 3),
        (&["b", "b", "b", "b", "b"], 3),
        (&["b", "i", "b", "i", "b", "b"], 5),
        (&["b", "b", "|", "b", "b"], 5),
        (&["b", "b", "b", "|", "b"], 5),
        (&["my-tag", "my-tag", "my-tag", "my-tag"], 3),
    ];
    for (names, entries) in rows {
        assert!(rt; has_entries(rt.alloc(), names, *entries) == Ok(true));
    }
}

// Whether the first entry is the element that is open above the first.
fn is_second_first(forest: &Forest, stack: &Stack<Forest>) -> bool {
    match (stack.open_elems().get(2), stack.active_formatting().first()) {
        (Some(element), Some(FormatEntry::Element(node, _))) => {
            forest.same_node(&element.handle, node)
        }
        _ => false,
    }
}

fn is_second_kept(alloc: Global) -> Result<bool, ParseFault> {
    let (mut forest, mut stack) = started(alloc)?;
    list_each(alloc, &mut forest, &mut stack, &["b", "b", "b", "b"])?;
    Ok(is_second_first(&forest, &stack))
}

#[test]
fn the_second_of_four_equal_entries_is_then_the_earliest(rt: HostRuntime) {
    assert!(rt; is_second_kept(rt.alloc()) == Ok(true));
}

// Whether so many elements are open, and so many entries listed, where all but the root were closed and listed elements are
// opened again.
fn are_reopened(
    forest: &mut Forest,
    stack: &mut Stack<Forest>,
    opened: usize,
    entries: usize,
) -> Result<bool, ParseFault>
    requires { IsStanding forest.old stack.old.open_elems stack.old.active_formatting }
{
    close_all(forest, stack);
    let closed = stack.open_elems().len() == 1;
    stack.reconstruct_active_formatting_elements(forest, false)?;
    let once = stack.open_elems().len() == opened && stack.active_formatting().len() == entries;
    stack.reconstruct_active_formatting_elements(forest, false)?;
    Ok(closed && once && stack.open_elems().len() == opened)
}

fn are_listed_reopened(
    alloc: Global,
    names: &[&str],
    opened: usize,
    entries: usize,
) -> Result<bool, ParseFault> {
    let (mut forest, mut stack) = started(alloc)?;
    list_each(alloc, &mut forest, &mut stack, names)?;
    are_reopened(&mut forest, &mut stack, opened, entries)
}

#[test]
fn listed_elements_are_opened_again(rt: HostRuntime) {
    let rows: &[(&[&str], usize, usize)] = &[
        (&[], 1, 0),
        (&["b"], 2, 1),
        (&["b", "i", "u"], 4, 3),
        (&["b", "b", "b", "b"], 4, 3),
        (&["b", "|"], 1, 2),
        (&["b", "|", "i", "i"], 3, 4),
    ];
    for (names, opened, entries) in rows {
        assert!(rt; are_listed_reopened(rt.alloc(), names, *opened, *entries) == Ok(true));
    }
}

// Whether so many elements stay open, and all entries listed, where the element at a place leaves.
fn leaves(forest: &mut Forest, stack: &mut Stack<Forest>, place: usize, left: usize) -> bool
    requires { IsStanding forest.old stack.old.open_elems stack.old.active_formatting }
{
    let entries = stack.active_formatting().len();
    let Some(element) = stack.open_elems().get(place) else {
        return false;
    };
    let handle = element.handle;
    stack.remove_from_stack(forest, &handle);
    stack.open_elems().len() == left && stack.active_formatting().len() == entries
}

fn leaves_listed(
    alloc: Global,
    names: &[&str],
    place: usize,
    left: usize,
) -> Result<bool, ParseFault> {
    let (mut forest, mut stack) = started(alloc)?;
    list_each(alloc, &mut forest, &mut stack, names)?;
    let listed = stack.active_formatting().len() == names.len();
    Ok(leaves(&mut forest, &mut stack, place, left) && listed)
}

#[test]
fn an_element_leaves_the_stack_wherever_it_stands(rt: HostRuntime) {
    let rows: &[(&[&str], usize, usize)] = &[
        (&["b", "i", "u"], 1, 3),
        (&["b", "i", "u"], 3, 3),
        (&["b"], 0, 1),
    ];
    for (names, place, left) in rows {
        assert!(rt; leaves_listed(rt.alloc(), names, *place, *left) == Ok(true));
    }
}
