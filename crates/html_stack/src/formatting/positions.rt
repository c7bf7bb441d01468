//! Where a node is in the list and among the open elements. Both are lent as they lie, the oldest first.
ghost use Rattle.std.specs.Prelude.{◌≡◌, ◌≤◌, Some, drop, false, length, IfSome, MatchOption, None};
ghost use Rattle.std.specs.List.{list_any};
ghost use Rattle.markup.specs.Forest.{data_of, element_name};
ghost use Rattle.html_rules.specs.Adoption.{furthest_block, is_number};
ghost use Rattle.html_rules.specs.Formatting.{is_listed, last_named, stands_for};
ghost use Rattle.html_rules.specs.Names.{Html, element_name_of};
ghost use Rattle.html_rules.specs.Stack.{is_open};
ghost use Rattle.html_rules.specs.State.{is_in};
ghost use Rattle.html_rules_laws.specs.Soundness.{AreOpened};
ghost use Rattle.html_stack.specs.Found.{IsFurthest, IsLastNamed, IsNewest};
ghost use Rattle.html_stack.specs.Noted.{IsNoted, named};
ghost use Rattle.html_stack.specs.Stacks.{entries_of, entry_of, open_of, opens_of};

use crate::depths::Depths;
use crate::entries::{FormatEntry, OpenElement};
use html_rules::TagSet;
use markup::{LocalName, TreeSink};
use std::alloc::Global;

/// Whether an entry stands for a node.
fn stands_for<Sink: TreeSink>(
    sink: &Sink,
    entry: &FormatEntry<Sink::Handle>,
    node: &Sink::Handle,
) -> bool
    ensures { result ≡ stands_for (Sink.node node.now) (entry_of Sink.node entry.now) }
{
    match entry {
        FormatEntry::Element(handle, _) => sink.same_node(handle, node),
        FormatEntry::Marker => false,
    }
}

/// The place of a node in the list; of its newest entry, if it has more than one.
pub(crate) fn in_list<Sink: TreeSink>(
    sink: &Sink,
    entries: &[FormatEntry<Sink::Handle>],
    node: &Sink::Handle,
) -> Option<usize>
    ensures { MatchOption result (is_listed (Sink.node node.now) (entries_of Sink.node entries.now) ≡ false)
        (IsNewest (entry_of Sink.node) (stands_for (Sink.node node.now)) entries.now) }
{
    let mut i = entries.len();
    while i > 0 {
        i -= 1;
        if stands_for(sink, &entries[i], node) {
            return Some(i);
        }
    }
    None
}

/// The place of a node among the open elements, of which those from a place on are others.
fn on_stack_below<Sink: TreeSink>(
    sink: &Sink,
    elements: &[OpenElement<Sink::Handle>],
    reach: usize,
    node: &Sink::Handle,
) -> Option<usize>
    requires within { reach ≤ length elements.now }
    requires beyond { list_any (is_number (Sink.node node.now)) (opens_of Sink.node (drop reach elements.now)) ≡ false }
    ensures { MatchOption result (is_open (Sink.node node.now) (opens_of Sink.node elements.now) ≡ false)
        (IsNewest (open_of Sink.node) (is_number (Sink.node node.now)) elements.now) }
{
    let mut i = reach;
    while i > 0 {
        i -= 1;
        let element = &elements[i];
        if sink.same_node(&element.handle, node) {
            return Some(i);
        }
    }
    None
}

/// The place of a node among the open elements, of which notes are kept. Where it is known to be an HTML element of a name, it is looked
/// for from the last open one of that name on.
pub(crate) fn on_stack<Sink: TreeSink>(
    alloc: Global,
    sink: &Sink,
    elements: &[OpenElement<Sink::Handle>],
    depths: &Depths,
    node: &Sink::Handle,
    name: Option<&LocalName>,
) -> Option<usize>
    requires name { IfSome name (λ name. element_name (data_of (Sink.forest sink.now) (Sink.node node.now))
        ≡ Some (element_name_of Html name.now)) }
    requires opened { AreOpened (Sink.forest sink.now) (opens_of Sink.node elements.now) }
    requires noted { IsNoted (named elements.now) depths.now }
    ensures { MatchOption result (is_open (Sink.node node.now) (opens_of Sink.node elements.now) ≡ false)
        (IsNewest (open_of Sink.node) (is_number (Sink.node node.now)) elements.now) }
{
    let count = elements.len();
    match name {
        Some(name) => {
            let reach = depths.reach_html_named(alloc, count, name);
            on_stack_below(sink, elements, reach, node)
        }
        None => on_stack_below(sink, elements, count, node),
    }
}

/// The place of the last entry since the last marker that was made for a tag of this name.
pub(crate) fn last_named<Sink: TreeSink>(
    entries: &[FormatEntry<Sink::Handle>],
    name: &LocalName,
) -> Option<usize>
    ensures { MatchOption result (last_named name.now (entries_of Sink.node entries.now) ≡ None)
        (IsLastNamed Sink.node name.now entries.now) }
{
    let mut i = entries.len();
    while i > 0 {
        i -= 1;
        match &entries[i] {
            FormatEntry::Marker => return None,
            FormatEntry::Element(_, tag) => {
                if tag.name == *name {
                    return Some(i);
                }
            }
        }
    }
    None
}

/// The place of the special element that was opened first ("furthest block").
pub(crate) fn furthest_block<Sink: TreeSink>(
    elements: &[OpenElement<Sink::Handle>],
) -> Option<usize>
    ensures { MatchOption result (furthest_block (opens_of Sink.node elements.now) ≡ None) (IsFurthest Sink.node elements.now) }
{
    for (i, element) in elements.iter().enumerate() {
        if element.name.is_in(TagSet::SpecialTag) {
            return Some(i);
        }
    }
    None
}
