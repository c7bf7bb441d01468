//! One turn of the adoption agency, where there is a furthest block (HTML Standard, section 13.2.6.4.7).
ghost use Rattle.std.specs.Prelude.{◌≡◌, ◌<◌, ◌≤◌, ◌∷◌, [], List, length, slice_index_or, take, IfErr, MatchOption, OnErr, OnOk};
ghost use Rattle.markup.specs.Forest.{node_count};
ghost use Rattle.markup.specs.declared.fault.ParseFault.TheVariants.{Memory};
ghost use Rattle.html_rules.specs.State.{State};
ghost use Rattle.html_rules_laws.specs.Soundness.{IsStanding};
ghost use Rattle.html_stack.specs.Adopting.{IsTurn, turned, with_all};
ghost use Rattle.html_stack.specs.Stacks.{entries_of, open_of, opens_of};
ghost use Rattle.html_stack.specs.declared.entries.OpenElement.{OpenElement};

use crate::entries::{FormatEntry, OpenElement};
use crate::formatting::copies::{copy_between, copy_under};
use crate::formatting::listing::relist;
use crate::formatting::moves::restack;
use crate::formatting::placing::{place_before, put_last};
use html_rules::Rules;
use html_tokens::Tag;
use markup::{ParseFault, TreeSink};
use std::alloc::Global;

/// The node of the first copy, if there is one.
fn first_of<Handle: Copy>(copies: &[OpenElement<Handle>]) -> Option<Handle>
    ensures { MatchOption result (copies.now ≡ [])
        (λ first. (x : OpenElement Handle) × (xs : List (OpenElement Handle)) × (copies.now ≡ x ∷ xs) × (first ≡ x.handle)) }
{
    if copies.is_empty() {
        None
    } else {
        Some(copies[0].handle)
    }
}

/// The elements between the formatting element and the furthest block are gone through, the last node of that walk is put at the place for
/// the element before the formatting element, and a new element takes the children of the block. The list and the stack are left as the
/// rules have it. Of the stack nothing is copied but handles.
pub(crate) fn adopt<Sink: TreeSink>(
    alloc: Global,
    rules: Rules,
    sink: &mut Sink,
    elements: &mut Vec<OpenElement<Sink::Handle>>,
    entries: &mut Vec<FormatEntry<Sink::Handle>>,
    from: usize,
    to: usize,
    tag: Tag,
    foster: bool,
) -> Result<(), ParseFault>
    requires order { from < to }
    requires within { to < length elements.old.items }
    requires standing { IsStanding (Sink.forest sink.old) (opens_of Sink.node elements.old.items) (entries_of Sink.node entries.old.items) }
    requires turn { (d : OpenElement Sink.Handle) → IsTurn Sink.node elements.old.items
        (entries_of Sink.node entries.old.items) from to tag d }
    ensures ok { OnOk result ((s : State) (d : OpenElement Sink.Handle) → s.foster_parenting ≡ foster → s.opts.rules ≡ rules
        → with_all s (Sink.forest sink.new) (opens_of Sink.node elements.new.items)
        (entries_of Sink.node entries.new.items) ≡ turned
        (with_all s (Sink.forest sink.old) (opens_of Sink.node elements.old.items)
        (entries_of Sink.node entries.old.items))
        (record { number = Sink.node (slice_index_or elements.old.items from d).handle; tag = tag })
        (open_of Sink.node (slice_index_or elements.old.items to d))) }
    ensures kept { OnErr result (IsStanding (Sink.forest sink.new) (opens_of Sink.node elements.new.items)
        (entries_of Sink.node entries.new.items)) }
    ensures grows { node_count (Sink.forest sink.old) ≤ node_count (Sink.forest sink.new) }
    ensures below { take from elements.new.items ≡ take from elements.old.items }
    ensures fault { IfErr result (λ fault. fault ≡ Memory) }
{
    let formatting_element = elements[from].handle;
    let block = elements[to].handle;
    let copies = copy_between(
        alloc,
        rules,
        sink,
        entries,
        &elements.as_slice()[from + 1..to],
        &elements[to],
    )?;
    let point = place_before(sink, elements.as_slice(), from, foster);
    put_last(sink, point, copies.last)?;
    let copy = copy_under(alloc, rules, sink, tag, &block)?;
    let first = first_of(copies.elements.as_slice());
    relist(sink, entries, &formatting_element, copy.handle, first);
    restack(elements, from, to, copies.elements, copy);
    Ok(())
}
