//! The walk of the adoption agency: elements between the formatting element and the furthest block are replaced by copies (HTML Standard,
//! section 13.2.6.4.7).
ghost use Rattle.std.specs.Prelude.{◌≡◌, ◌≤◌, [], IfErr, IfOk, OnErr, OnOk};
ghost use Rattle.markup.specs.Forest.{IsParent, Last, node_count, put, remove, reparent_children};
ghost use Rattle.markup.specs.Named.{IsTree};
ghost use Rattle.markup.specs.declared.fault.ParseFault.TheVariants.{Memory};
ghost use Rattle.html_rules.specs.Adoption.{copy_if, listed_as, opened_for, walk, with_copy};
ghost use Rattle.html_rules_laws.specs.Soundness.{AreListed, IsOpened};
ghost use Rattle.html_stack.specs.Adopting.{IsMovable, KeepsStanding, adopted, walk_of, wrapped};
ghost use Rattle.html_stack.specs.Inserting.{IsNew, LeavesStanding, MakesNext};
ghost use Rattle.html_stack.specs.Stacks.{entries_of, open_of, opens_of};

use crate::entries::{FormatEntry, OpenElement};
use crate::formatting::opening::tag_at;
use crate::formatting::{listing, positions};
use crate::inserting::new_element::NewElement;
use html_names::ElementClass;
use html_rules::Rules;
use html_tokens::Tag;
use markup::{NodeOrText, ParseFault, TreeSink};
use std::alloc::Global;

/// What the walk has come to.
#[derive(Drop)]
pub(crate) struct Copies<Handle> {
    /// The copies, the first one first.
    pub(crate) elements: Vec<OpenElement<Handle>>,
    /// The last copy, or the furthest block.
    pub(crate) last: Handle,
    /// The rules by whose sets they are asked.
    pub(crate) rules: Rules,
}

/// Makes an element that takes a node as its child.
fn wrap<Sink: TreeSink>(
    sink: &mut Sink,
    element: NewElement,
    last: &Sink::Handle,
) -> Result<Sink::Handle, ParseFault>
    requires new { IsNew element }
    requires last { IsMovable (Sink.forest sink.old) (Sink.node last.now) }
    ensures named { MakesNext Sink.node (Sink.forest sink.old) result }
    ensures ok { OnOk result (Sink.forest sink.new ≡ wrapped (Sink.forest sink.old) element (Sink.node last.now)) }
    ensures kept { OnErr result (LeavesStanding (Sink.forest sink.old) (Sink.forest sink.new)) }
    ensures grows { node_count (Sink.forest sink.old) ≤ node_count (Sink.forest sink.new) }
    ensures fault { IfErr result (λ fault. fault ≡ Memory) }
{
    let made = element.create(sink)?;
    sink.remove_from_parent(last);
    sink.append(&made, NodeOrText::AppendNode(*last))?;
    Ok(made)
}

/// Makes the element that a tag makes, which takes a node as its child, to be opened.
fn copy_over<Sink: TreeSink>(
    alloc: Global,
    rules: Rules,
    sink: &mut Sink,
    tag: Tag,
    last: &Sink::Handle,
) -> Result<OpenElement<Sink::Handle>, ParseFault>
    requires { IsMovable (Sink.forest sink.old) (Sink.node last.now) }
    ensures opened { IfOk result (λ copy. open_of Sink.node copy ≡ opened_for rules (Sink.forest sink.old) tag) }
    ensures ok { OnOk result (Sink.forest sink.new ≡ put
        (remove (with_copy (Sink.forest sink.old) tag) (Sink.node last.now))
        (Last (node_count (Sink.forest sink.old))) (Sink.node last.now)) }
    ensures kept { OnErr result (LeavesStanding (Sink.forest sink.old) (Sink.forest sink.new)) }
    ensures grows { node_count (Sink.forest sink.old) ≤ node_count (Sink.forest sink.new) }
    ensures fault { IfErr result (λ fault. fault ≡ Memory) }
{
    let element = NewElement::for_tag(ElementClass::html(&tag.name), tag);
    let name = element.open_name(alloc, rules)?;
    let handle = wrap(sink, element, last)?;
    Ok(OpenElement { handle, name })
}

/// An element is replaced by a copy, if it is listed.
fn copy_node<Sink: TreeSink>(
    alloc: Global,
    sink: &mut Sink,
    entries: &mut Vec<FormatEntry<Sink::Handle>>,
    copies: &mut Copies<Sink::Handle>,
    node: &Sink::Handle,
) -> Result<(), ParseFault>
    requires { IsMovable (Sink.forest sink.old) (Sink.node copies.old.last) }
    ensures ok { OnOk result (walk_of Sink.node (Sink.forest sink.new) entries.new.items copies.new ≡ copy_if
        (listed_as (Sink.node node.now) (entries_of Sink.node entries.old.items))
        (walk_of Sink.node (Sink.forest sink.old) entries.old.items copies.old)) }
    ensures kept { OnErr result (KeepsStanding (Sink.forest sink.old) (entries_of Sink.node entries.old.items)
        (Sink.forest sink.new) (entries_of Sink.node entries.new.items)) }
    ensures grows { node_count (Sink.forest sink.old) ≤ node_count (Sink.forest sink.new) }
    ensures fault { IfErr result (λ fault. fault ≡ Memory) }
{
    let Some(place) = positions::in_list(sink, entries.as_slice(), node) else {
        return Ok(());
    };
    copies.elements.reserve(1)?;
    let Some(tag) = tag_at(alloc, entries.as_slice(), place)? else {
        return Ok(());
    };
    let copy = copy_over(alloc, copies.rules, sink, tag, &copies.last)?;
    let handle = copy.handle;
    listing::rename(entries, place, handle);
    copies.elements.push_reserved(copy);
    copies.last = handle;
    Ok(())
}

/// The elements between the formatting element and the furthest block are gone through, from the block back: the first three are replaced
/// by copies, where they are listed, and the others leave the list.
pub(crate) fn copy_between<Sink: TreeSink>(
    alloc: Global,
    rules: Rules,
    sink: &mut Sink,
    entries: &mut Vec<FormatEntry<Sink::Handle>>,
    elements: &[OpenElement<Sink::Handle>],
    block: &OpenElement<Sink::Handle>,
) -> Result<Copies<Sink::Handle>, ParseFault>
    requires tree { IsTree (Sink.forest sink.old) }
    requires listed { AreListed (Sink.forest sink.old) (entries_of Sink.node entries.old.items) }
    requires block { IsOpened (Sink.forest sink.old) (open_of Sink.node block.now) }
    ensures ok { IfOk result (λ copies. walk_of Sink.node (Sink.forest sink.new) entries.new.items copies ≡ walk 3
        (opens_of Sink.node elements.now)
        (record {
          forest = Sink.forest sink.old;
          active_formatting = entries_of Sink.node entries.old.items;
          copies = [];
          last_node = Sink.node block.now.handle;
          rules = rules;
        })) }
    ensures kept { OnErr result (KeepsStanding (Sink.forest sink.old) (entries_of Sink.node entries.old.items)
        (Sink.forest sink.new) (entries_of Sink.node entries.new.items)) }
    ensures grows { node_count (Sink.forest sink.old) ≤ node_count (Sink.forest sink.new) }
    ensures fault { IfErr result (λ fault. fault ≡ Memory) }
{
    let mut copies = Copies {
        elements: Vec::new(alloc),
        last: block.handle,
        rules,
    };
    let mut left: usize = 3;
    let mut i = elements.len();
    while i > 0 {
        i -= 1;
        let element = &elements[i];
        if left == 0 {
            listing::unlist(sink, entries, &element.handle);
        } else {
            left -= 1;
            copy_node(alloc, sink, entries, &mut copies, &element.handle)?;
        }
    }
    Ok(copies)
}

/// Makes an element that takes the children of a node, and becomes its only child.
fn adopt_children<Sink: TreeSink>(
    sink: &mut Sink,
    element: NewElement,
    block: &Sink::Handle,
) -> Result<Sink::Handle, ParseFault>
    requires new { IsNew element }
    requires block { IsMovable (Sink.forest sink.old) (Sink.node block.now) }
    requires parent { IsParent (Sink.forest sink.old) (Sink.node block.now) }
    ensures named { MakesNext Sink.node (Sink.forest sink.old) result }
    ensures ok { OnOk result (Sink.forest sink.new ≡ adopted (Sink.forest sink.old) element (Sink.node block.now)) }
    ensures kept { OnErr result (LeavesStanding (Sink.forest sink.old) (Sink.forest sink.new)) }
    ensures grows { node_count (Sink.forest sink.old) ≤ node_count (Sink.forest sink.new) }
    ensures fault { IfErr result (λ fault. fault ≡ Memory) }
{
    let made = element.create(sink)?;
    sink.reparent_children(block, &made)?;
    sink.append(block, NodeOrText::AppendNode(made))?;
    Ok(made)
}

/// Makes the element that a tag makes, which takes the children of a node and becomes its only child, to be opened.
pub(crate) fn copy_under<Sink: TreeSink>(
    alloc: Global,
    rules: Rules,
    sink: &mut Sink,
    tag: Tag,
    block: &Sink::Handle,
) -> Result<OpenElement<Sink::Handle>, ParseFault>
    requires block { IsMovable (Sink.forest sink.old) (Sink.node block.now) }
    requires parent { IsParent (Sink.forest sink.old) (Sink.node block.now) }
    ensures opened { IfOk result (λ copy. open_of Sink.node copy ≡ opened_for rules (Sink.forest sink.old) tag) }
    ensures ok { OnOk result (Sink.forest sink.new ≡ put (reparent_children (with_copy (Sink.forest sink.old) tag)
        (Sink.node block.now) (node_count (Sink.forest sink.old))) (Last (Sink.node block.now)) (node_count (Sink.forest sink.old))) }
    ensures kept { OnErr result (LeavesStanding (Sink.forest sink.old) (Sink.forest sink.new)) }
    ensures grows { node_count (Sink.forest sink.old) ≤ node_count (Sink.forest sink.new) }
    ensures fault { IfErr result (λ fault. fault ≡ Memory) }
{
    let element = NewElement::for_tag(ElementClass::html(&tag.name), tag);
    let name = element.open_name(alloc, rules)?;
    let handle = adopt_children(sink, element, block)?;
    Ok(OpenElement { handle, name })
}
