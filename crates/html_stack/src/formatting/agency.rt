//! The adoption agency (HTML Standard, section 13.2.6.4.7, "the adoption agency algorithm"), and the start tag that it is asked for first.
ghost use Rattle.std.specs.Prelude.{◌≡◌, ◌≤◌, ◌&&◌, codes, not, true, IfErr, IfOk, OnOk};
ghost use Rattle.markup.specs.Forest.{node_count};
ghost use Rattle.markup.specs.declared.fault.ParseFault.TheVariants.{Memory};
ghost use Rattle.html_names.specs.Classes.{IsClassOf};
ghost use Rattle.html_rules.specs.Adoption.{adoption_agency, adoption_turn, adoption_turns, handle_misnested_a_tags};
ghost use Rattle.html_rules.specs.Formatting.{is_listed};
ghost use Rattle.html_rules.specs.Names.{Html};
ghost use Rattle.html_rules.specs.State.{State, current_is, current_number, is_named};
ghost use Rattle.html_stack.specs.Adopting.{IsCurrentNewest, came_to};
ghost use Rattle.html_stack.specs.Stacks.{entries_of, joined, opens_of, PerformsWith, StandsIn};

use crate::entries::{FormatEntry, OpenElement};
use crate::formatting::positions::in_list;
use crate::formatting::turns::{formatting_element, turn_listed};
use crate::stack::Stack;
use crate::walks;
use crate::wanted::Wanted;
use html_names::ElementClass;
use markup::{LocalName, ParseFault, TreeSink};
use std::borrow::CowStr;

/// Whether the newest entry is that of the current node, and was made for a tag of this name: an end tag of that name ends just this
/// element.
#[inline(always)]
fn is_current_newest<Sink: TreeSink>(
    sink: &Sink,
    elements: &[OpenElement<Sink::Handle>],
    entries: &[FormatEntry<Sink::Handle>],
    name: &LocalName,
) -> bool
    ensures { result ≡ true → IsCurrentNewest name.now (opens_of Sink.node elements.now) (entries_of Sink.node entries.now) }
{
    match (elements.last(), entries.last()) {
        (Some(element), Some(FormatEntry::Element(handle, tag))) => {
            sink.same_node(&element.handle, handle) && tag.name == *name
        }
        _ => false,
    }
}

impl<Sink: TreeSink> Stack<Sink> {
    /// Whether the current node is an HTML element of a name, and is not listed. The name comes with its class.
    fn is_current_unlisted(&self, sink: &Sink, class: ElementClass, name: &LocalName) -> bool
        requires { IsClassOf Html name.now class }
        ensures { result ≡ (current_is (is_named name.now) self.now.open_elems
            && not (is_listed (current_number self.now.open_elems) self.now.active_formatting)) }
    {
        if !self.current_is(Wanted::Named(class, name)) {
            return false;
        }
        let node = walks::last(self.open_elems.as_slice());
        in_list(sink, self.active_formatting.as_slice(), &node).is_none()
    }

    /// One turn of the adoption agency; whether another follows.
    fn adoption_turn(
        &mut self,
        sink: &mut Sink,
        class: ElementClass,
        name: &LocalName,
        foster: bool,
    ) -> Result<bool, ParseFault>
        requires class { IsClassOf Html name.now class }
        requires standing { StandsIn (Sink.forest sink.old) self.old }
        ensures ok { IfOk result (λ goes_on. (s : State) → s.foster_parenting ≡ foster
            → came_to goes_on (joined s self.new (Sink.forest sink.new)) ≡ adoption_turn name.now
            (joined s self.old (Sink.forest sink.old))) }
        ensures kept { StandsIn (Sink.forest sink.new) self.new }
        ensures grows { node_count (Sink.forest sink.old) ≤ node_count (Sink.forest sink.new) }
        ensures fault { IfErr result (λ fault. fault ≡ Memory) }
    {
        let rules = self.rules();
        let Some(formatting) = formatting_element::<Sink>(self.active_formatting.as_slice(), name)
        else {
            self.process_end_tag_in_body(sink, class, name);
            return Ok(false);
        };
        turn_listed(
            self.allocator(),
            sink,
            &mut self.open_elems,
            &mut self.depths,
            &mut self.active_formatting,
            formatting,
            foster,
            rules,
        )
    }

    /// Eight turns at most.
    fn adoption_turns(
        &mut self,
        sink: &mut Sink,
        class: ElementClass,
        name: &LocalName,
        foster: bool,
    ) -> Result<(), ParseFault>
        requires class { IsClassOf Html name.now class }
        requires standing { StandsIn (Sink.forest sink.old) self.old }
        ensures ok { OnOk result (PerformsWith foster (adoption_turns 8 name.now) self.old self.new
            (Sink.forest sink.old) (Sink.forest sink.new)) }
        ensures kept { StandsIn (Sink.forest sink.new) self.new }
        ensures grows { node_count (Sink.forest sink.old) ≤ node_count (Sink.forest sink.new) }
        ensures fault { IfErr result (λ fault. fault ≡ Memory) }
    {
        let mut left: usize = 8;
        while left > 0 {
            left -= 1;
            if !self.adoption_turn(sink, class, name, foster)? {
                return Ok(());
            }
        }
        Ok(())
    }

    /// What an end tag of a formatting element does, and a start tag that such an element ends at ("the adoption agency algorithm", HTML
    /// Standard, section 13.2.6.4.7). The name comes with its class. The sink is told of a current node that is popped without a turn; of
    /// elements that turns take from the stack it is told as by "any other end tag" alone. There are eight turns at most. Each copies,
    /// for the elements that it makes, the tag of the formatting element, once, and those of up to three elements that were opened
    /// between it and the furthest block; without a furthest block nothing is copied. The time of a turn grows with the number of
    /// elements opened since the formatting element, times the number of entries. On [`ParseFault::Memory`], the only fault, some turns,
    /// or a part of one, may have been done.
    pub fn adoption_agency(
        &mut self,
        sink: &mut Sink,
        class: ElementClass,
        name: &LocalName,
        foster: bool,
    ) -> Result<(), ParseFault>
        requires class { IsClassOf Html name.now class }
        requires standing { StandsIn (Sink.forest sink.old) self.old }
        ensures ok { OnOk result (PerformsWith foster (adoption_agency name.now) self.old self.new
            (Sink.forest sink.old) (Sink.forest sink.new)) }
        ensures kept { StandsIn (Sink.forest sink.new) self.new }
        ensures grows { node_count (Sink.forest sink.old) ≤ node_count (Sink.forest sink.new) }
        ensures fault { IfErr result (λ fault. fault ≡ Memory) }
    {
        if is_current_newest(
            sink,
            self.open_elems.as_slice(),
            self.active_formatting.as_slice(),
            name,
        ) {
            self.drop_current();
            self.drop_newest();
            return Ok(());
        }
        self.adopt_in_turns(sink, class, name, foster)
    }

    /// The same, where nothing is known of the current node.
    #[inline(never)]
    fn adopt_in_turns(
        &mut self,
        sink: &mut Sink,
        class: ElementClass,
        name: &LocalName,
        foster: bool,
    ) -> Result<(), ParseFault>
        requires class { IsClassOf Html name.now class }
        requires standing { StandsIn (Sink.forest sink.old) self.old }
        ensures ok { OnOk result (PerformsWith foster (adoption_agency name.now) self.old self.new
            (Sink.forest sink.old) (Sink.forest sink.new)) }
        ensures kept { StandsIn (Sink.forest sink.new) self.new }
        ensures grows { node_count (Sink.forest sink.old) ≤ node_count (Sink.forest sink.new) }
        ensures fault { IfErr result (λ fault. fault ≡ Memory) }
    {
        if self.is_current_unlisted(sink, class, name) {
            drop(self.pop(sink));
            return Ok(());
        }
        self.adoption_turns(sink, class, name, foster)
    }

    /// Ends the `a` that is listed since the last marker, if there is one: an error, the adoption agency for `a`, and then the element
    /// leaves the list and the stack, and the sink is told (HTML Standard, section 13.2.6.4.7, a start tag `a`). Where no `a` is listed
    /// the list is gone through up to the last marker, and nothing else is done. On [`ParseFault::Memory`], the only fault, a part of
    /// that may have been done.
    pub fn handle_misnested_a_tags(
        &mut self,
        sink: &mut Sink,
        foster: bool,
    ) -> Result<(), ParseFault>
        requires standing { StandsIn (Sink.forest sink.old) self.old }
        ensures ok { OnOk result (PerformsWith foster handle_misnested_a_tags self.old self.new
            (Sink.forest sink.old) (Sink.forest sink.new)) }
        ensures kept { StandsIn (Sink.forest sink.new) self.new }
        ensures grows { node_count (Sink.forest sink.old) ≤ node_count (Sink.forest sink.new) }
        ensures fault { IfErr result (λ fault. fault ≡ Memory) }
    {
        let name = LocalName::from_str(self.allocator(), "a")?;
        self.end_misnested_a(sink, &name, foster)
    }

    /// The same, where the name `a` is lent.
    fn end_misnested_a(
        &mut self,
        sink: &mut Sink,
        name: &LocalName,
        foster: bool,
    ) -> Result<(), ParseFault>
        requires name { name.now ≡ codes "a" }
        requires standing { StandsIn (Sink.forest sink.old) self.old }
        ensures ok { OnOk result (PerformsWith foster handle_misnested_a_tags self.old self.new
            (Sink.forest sink.old) (Sink.forest sink.new)) }
        ensures kept { StandsIn (Sink.forest sink.new) self.new }
        ensures grows { node_count (Sink.forest sink.old) ≤ node_count (Sink.forest sink.new) }
        ensures fault { IfErr result (λ fault. fault ≡ Memory) }
    {
        let Some(misnested) = formatting_element::<Sink>(self.active_formatting.as_slice(), name)
        else {
            return Ok(());
        };
        sink.parse_error(CowStr::Borrowed("an a is open where another begins"));
        self.adoption_agency(sink, ElementClass::html(name), name, foster)?;
        self.unlist(sink, &misnested.node);
        self.remove_named(sink, &misnested.node, Some(name));
        Ok(())
    }
}
