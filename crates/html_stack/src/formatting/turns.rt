//! One turn of the adoption agency, with a formatting element (HTML Standard, section 13.2.6.4.7).
ghost use Rattle.std.specs.Prelude.{◌≡◌, ◌<◌, ◌≤◌, None, false, length, slice_index_or, take, true, IfErr, IfOk, MatchOption, OnErr};
ghost use Rattle.markup.specs.Forest.{node_count};
ghost use Rattle.markup.specs.declared.fault.ParseFault.TheVariants.{Memory};
ghost use Rattle.html_tokens.specs.declared.tags.Tag.{Tag};
ghost use Rattle.html_rules.specs.Adoption.{is_number};
ghost use Rattle.html_rules.specs.Formatting.{last_named};
ghost use Rattle.html_rules.specs.Stack.{in_scope, is_open};
ghost use Rattle.html_rules.specs.State.{current_is};
ghost use Rattle.html_rules.specs.declared.tag_set.TagSet.TheVariants.{DefaultScope};
ghost use Rattle.html_rules_laws.specs.Soundness.{IsStanding};
ghost use Rattle.html_stack.specs.Adopting.{IsFormatting, IsListedAt, IsTurnOf, told};
ghost use Rattle.html_stack.specs.Found.{IsNewest};
ghost use Rattle.html_stack.specs.Noted.{IsNoted, named};
ghost use Rattle.html_stack.specs.Stacks.{entries_of, open_of, opens_of};
ghost use Rattle.html_stack.specs.declared.entries.FormatEntry.TheVariants.{Element, Marker};

use crate::depths::Depths;
use crate::entries::{FormatEntry, OpenElement};
use crate::formatting::adopting::adopt;
use crate::formatting::listing::unlist;
use crate::formatting::opening::tag_at;
use crate::formatting::positions::{furthest_block, last_named, on_stack};
use crate::inserting::walks::has_open;
use html_rules::{Rules, TagSet};
use markup::{LocalName, ParseFault, TreeSink};
use std::alloc::Global;
use std::borrow::CowStr;

/// A listed element.
#[derive(Clone, Copy)]
pub(crate) struct FormattingElement<Handle> {
    /// The place of its entry.
    pub(crate) place: usize,
    /// Its node.
    pub(crate) node: Handle,
}

/// The element that an entry stands for; none for a marker.
fn node_at<Handle: Copy>(entries: &[FormatEntry<Handle>], place: usize) -> Option<Handle>
    requires { place < length entries.now }
    ensures { MatchOption result (slice_index_or entries.now place Marker ≡ Marker)
        (λ node. (tag : Tag) × (slice_index_or entries.now place Marker ≡ Element node tag)) }
{
    match &entries[place] {
        FormatEntry::Marker => None,
        FormatEntry::Element(handle, _) => Some(*handle),
    }
}

/// The element of the last entry since the last marker that was made for a tag of this name ("formatting element").
pub(crate) fn formatting_element<Sink: TreeSink>(
    entries: &[FormatEntry<Sink::Handle>],
    name: &LocalName,
) -> Option<FormattingElement<Sink::Handle>>
    ensures { MatchOption result (last_named name.now (entries_of Sink.node entries.now) ≡ None)
        (λ found. (tag : Tag) × IsFormatting Sink.node name.now entries.now found.place found.node tag) }
{
    let place = last_named::<Sink>(entries, name)?;
    let node = node_at(entries, place)?;
    Some(FormattingElement { place, node })
}

/// Whether a node is the current one.
fn is_current<Sink: TreeSink>(
    sink: &Sink,
    elements: &[OpenElement<Sink::Handle>],
    node: &Sink::Handle,
) -> bool
    ensures { result ≡ current_is (is_number (Sink.node node.now)) (opens_of Sink.node elements.now) }
{
    let count = elements.len();
    if count == 0 {
        return false;
    }
    sink.same_node(&elements[count - 1].handle, node)
}

/// An error, if a node is not the current one.
fn report_unless_current<Sink: TreeSink>(
    sink: &mut Sink,
    elements: &[OpenElement<Sink::Handle>],
    node: &Sink::Handle,
)
    ensures { Sink.forest sink.new ≡ told (Sink.node node.now) (opens_of Sink.node elements.now) (Sink.forest sink.old) }
{
    if !is_current(sink, elements, node) {
        sink.parse_error(CowStr::Borrowed(
            "elements are open within the formatting element that ends",
        ));
    }
}

/// A turn whose formatting element is open and in scope; whether another turn follows. Where there is a furthest block, the tag of the
/// formatting element is copied, and the sink is told that the element has left the stack.
fn turn_open<Sink: TreeSink>(
    alloc: Global,
    sink: &mut Sink,
    elements: &mut Vec<OpenElement<Sink::Handle>>,
    entries: &mut Vec<FormatEntry<Sink::Handle>>,
    formatting: FormattingElement<Sink::Handle>,
    from: usize,
    foster: bool,
    rules: Rules,
) -> Result<bool, ParseFault>
    requires listed { (tag : Tag) × IsListedAt Sink.node entries.old.items formatting.place formatting.node tag }
    requires opened { IsNewest (open_of Sink.node) (is_number (Sink.node formatting.node)) elements.old.items from }
    requires scope { in_scope DefaultScope (is_number (Sink.node formatting.node)) (opens_of Sink.node elements.old.items) ≡ true }
    requires standing { IsStanding (Sink.forest sink.old) (opens_of Sink.node elements.old.items) (entries_of Sink.node entries.old.items) }
    ensures ok { IfOk result (λ goes_on. IsTurnOf foster rules (Sink.node formatting.node) goes_on (Sink.forest sink.old)
        (opens_of Sink.node elements.old.items) (entries_of Sink.node entries.old.items) (Sink.forest sink.new)
        (opens_of Sink.node elements.new.items) (entries_of Sink.node entries.new.items)) }
    ensures kept { OnErr result (IsStanding (Sink.forest sink.new) (opens_of Sink.node elements.new.items)
        (entries_of Sink.node entries.new.items)) }
    ensures grows { node_count (Sink.forest sink.old) ≤ node_count (Sink.forest sink.new) }
    ensures below { take from elements.new.items ≡ take from elements.old.items }
    ensures fault { IfErr result (λ fault. fault ≡ Memory) }
{
    report_unless_current(sink, elements.as_slice(), &formatting.node);
    let Some(block) = furthest_block::<Sink>(&elements.as_slice()[from + 1..]) else {
        elements.truncate(from);
        unlist(sink, entries, &formatting.node);
        return Ok(false);
    };
    let Some(tag) = tag_at(alloc, entries.as_slice(), formatting.place)? else {
        return Ok(false);
    };
    adopt(
        alloc,
        rules,
        sink,
        elements,
        entries,
        from,
        from + 1 + block,
        tag,
        foster,
    )?;
    sink.pop(&formatting.node);
    Ok(true)
}

/// A turn with a formatting element, which stands at a place of the stack, if it is open; whether another turn follows. Where the element
/// is not open, its entry leaves the list; where it is not in scope, nothing is done.
fn turn_placed<Sink: TreeSink>(
    alloc: Global,
    sink: &mut Sink,
    elements: &mut Vec<OpenElement<Sink::Handle>>,
    entries: &mut Vec<FormatEntry<Sink::Handle>>,
    formatting: FormattingElement<Sink::Handle>,
    place: Option<usize>,
    foster: bool,
    rules: Rules,
) -> Result<bool, ParseFault>
    requires listed { (tag : Tag) × IsListedAt Sink.node entries.old.items formatting.place formatting.node tag }
    requires place { MatchOption place
        (is_open (Sink.node formatting.node) (opens_of Sink.node elements.old.items) ≡ false)
        (IsNewest (open_of Sink.node) (is_number (Sink.node formatting.node)) elements.old.items) }
    requires standing { IsStanding (Sink.forest sink.old) (opens_of Sink.node elements.old.items) (entries_of Sink.node entries.old.items) }
    ensures ok { IfOk result (λ goes_on. IsTurnOf foster rules (Sink.node formatting.node) goes_on (Sink.forest sink.old)
        (opens_of Sink.node elements.old.items) (entries_of Sink.node entries.old.items) (Sink.forest sink.new)
        (opens_of Sink.node elements.new.items) (entries_of Sink.node entries.new.items)) }
    ensures kept { OnErr result (IsStanding (Sink.forest sink.new) (opens_of Sink.node elements.new.items)
        (entries_of Sink.node entries.new.items)) }
    ensures grows { node_count (Sink.forest sink.old) ≤ node_count (Sink.forest sink.new) }
    ensures below { MatchOption place (elements.new.items ≡ elements.old.items)
        (λ from. take from elements.new.items ≡ take from elements.old.items) }
    ensures fault { IfErr result (λ fault. fault ≡ Memory) }
{
    let Some(from) = place else {
        sink.parse_error(CowStr::Borrowed("the formatting element that ends is not open"));
        unlist(sink, entries, &formatting.node);
        return Ok(false);
    };
    if has_open(&elements.as_slice()[from + 1..], TagSet::DefaultScope) {
        sink.parse_error(CowStr::Borrowed("the formatting element that ends is not in scope"));
        return Ok(false);
    }
    turn_open(
        alloc, sink, elements, entries, formatting, from, foster, rules,
    )
}

/// The place of a listed element among the open elements, of which notes are kept, if it is open.
fn place_of<Sink: TreeSink>(
    alloc: Global,
    sink: &Sink,
    elements: &[OpenElement<Sink::Handle>],
    depths: &Depths,
    entries: &[FormatEntry<Sink::Handle>],
    formatting: FormattingElement<Sink::Handle>,
) -> Option<usize>
    requires listed { (tag : Tag) × IsListedAt Sink.node entries.now formatting.place formatting.node tag }
    requires noted { IsNoted (named elements.now) depths.now }
    requires standing { IsStanding (Sink.forest sink.now) (opens_of Sink.node elements.now) (entries_of Sink.node entries.now) }
    ensures { MatchOption result (is_open (Sink.node formatting.node) (opens_of Sink.node elements.now) ≡ false)
        (IsNewest (open_of Sink.node) (is_number (Sink.node formatting.node)) elements.now) }
{
    let name = match &entries[formatting.place] {
        FormatEntry::Marker => None,
        FormatEntry::Element(_, tag) => Some(&tag.name),
    };
    on_stack(alloc, sink, elements, depths, &formatting.node, name)
}

/// A turn with a formatting element; whether another turn follows. Where the element is not open, its entry leaves the list; where it is
/// not in scope, nothing is done. The stack is gone through from the current node back up to the element, and once more between the two.
pub(crate) fn turn_listed<Sink: TreeSink>(
    alloc: Global,
    sink: &mut Sink,
    elements: &mut Vec<OpenElement<Sink::Handle>>,
    depths: &mut Depths,
    entries: &mut Vec<FormatEntry<Sink::Handle>>,
    formatting: FormattingElement<Sink::Handle>,
    foster: bool,
    rules: Rules,
) -> Result<bool, ParseFault>
    requires listed { (tag : Tag) × IsListedAt Sink.node entries.old.items formatting.place formatting.node tag }
    requires noted { IsNoted (named elements.old.items) depths.old }
    requires standing { IsStanding (Sink.forest sink.old) (opens_of Sink.node elements.old.items) (entries_of Sink.node entries.old.items) }
    ensures ok { IfOk result (λ goes_on. IsTurnOf foster rules (Sink.node formatting.node) goes_on (Sink.forest sink.old)
        (opens_of Sink.node elements.old.items) (entries_of Sink.node entries.old.items) (Sink.forest sink.new)
        (opens_of Sink.node elements.new.items) (entries_of Sink.node entries.new.items)) }
    ensures kept { OnErr result (IsStanding (Sink.forest sink.new) (opens_of Sink.node elements.new.items)
        (entries_of Sink.node entries.new.items)) }
    ensures grows { node_count (Sink.forest sink.old) ≤ node_count (Sink.forest sink.new) }
    ensures noted { IsNoted (named elements.new.items) depths.new }
    ensures fault { IfErr result (λ fault. fault ≡ Memory) }
{
    let place = place_of(
        alloc,
        sink,
        elements.as_slice(),
        depths,
        entries.as_slice(),
        formatting,
    );
    depths.cut_to(place);
    let goes_on = turn_placed(
        alloc, sink, elements, entries, formatting, place, foster, rules,
    );
    depths.follow(alloc, elements.as_slice());
    goes_on
}
