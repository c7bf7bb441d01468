//! Formatting elements are inserted and listed, and listed ones are opened again (HTML Standard, section 13.2.4.3).
ghost use Rattle.std.specs.Prelude.{◌≡◌, ◌++◌, ◌∷◌, ◌<◌, ◌≤◌, [], ℕ, List, length, take, drop, true, IfErr, IfOk, OnErr, OnOk};
ghost use Rattle.std.specs.List.{list_all};
ghost use Rattle.markup.specs.declared.fault.ParseFault.TheVariants.{Memory};
ghost use Rattle.html_names.specs.Classes.{IsClassOf};
ghost use Rattle.html_tokens.specs.declared.tags.Tag.{Tag};
ghost use Rattle.html_rules.specs.Formatting.{create_formatting_element_for, reconstruct_active_formatting_elements};
ghost use Rattle.html_rules.specs.Names.{Html};
ghost use Rattle.html_rules.specs.State.{Element as Listed, Entry};
ghost use Rattle.html_rules_laws.specs.Soundness.{AreListed, AreOpened, IsStanding};
ghost use Rattle.html_stack.specs.Found.{IsTagAt};
ghost use Rattle.html_stack.specs.Noted.{IsNoted, named};
ghost use Rattle.html_stack.specs.Reopening.{IsAgain, IsDivided, IsSaidAt, IsSettled, waits};
ghost use Rattle.html_stack.specs.Stacks.{entries_of, entry_of, opens_of, PerformsWith, StandsIn};
ghost use Rattle.html_stack.specs.Inserting.{MakesNext};

use crate::depths::Depths;
use crate::entries::{FormatEntry, OpenElement};
use crate::formatting::{listing, positions};
use crate::stack::Stack;
use html_names::ElementClass;
use html_tokens::Tag;
use markup::{ParseFault, TreeSink};
use std::alloc::Global;

/// Whether the element of an entry is to be opened again: it is not open.
fn waits<Sink: TreeSink>(
    alloc: Global,
    sink: &Sink,
    elements: &[OpenElement<Sink::Handle>],
    depths: &Depths,
    entry: &FormatEntry<Sink::Handle>,
) -> bool
    requires opened { AreOpened (Sink.forest sink.now) (opens_of Sink.node elements.now) }
    requires listed { AreListed (Sink.forest sink.now) (entry_of Sink.node entry.now ∷ []) }
    requires noted { IsNoted (named elements.now) depths.now }
    ensures { result ≡ waits (opens_of Sink.node elements.now) (entry_of Sink.node entry.now) }
{
    match entry {
        FormatEntry::Marker => false,
        FormatEntry::Element(handle, tag) => {
            positions::on_stack(alloc, sink, elements, depths, handle, Some(&tag.name)).is_none()
        }
    }
}

/// Whether the newest entry, if there is one, is a marker or that of the current node, so that nothing is to be opened again.
#[inline(always)]
fn is_newest_settled<Sink: TreeSink>(
    sink: &Sink,
    elements: &[OpenElement<Sink::Handle>],
    entries: &[FormatEntry<Sink::Handle>],
) -> bool
    ensures { result ≡ true → IsSettled (opens_of Sink.node elements.now) (entries_of Sink.node entries.now) }
{
    match entries.last() {
        None => true,
        Some(FormatEntry::Marker) => true,
        Some(FormatEntry::Element(handle, _)) => match elements.last() {
            None => false,
            Some(element) => sink.same_node(&element.handle, handle),
        },
    }
}

/// How many entries there are up to and with the last that does not wait.
#[inline(never)]
fn count_settled<Sink: TreeSink>(
    alloc: Global,
    sink: &Sink,
    elements: &[OpenElement<Sink::Handle>],
    depths: &Depths,
    entries: &[FormatEntry<Sink::Handle>],
) -> usize
    requires standing { IsStanding (Sink.forest sink.now) (opens_of Sink.node elements.now) (entries_of Sink.node entries.now) }
    requires noted { IsNoted (named elements.now) depths.now }
    ensures within { result ≤ length entries.now }
    ensures wait { list_all (waits (opens_of Sink.node elements.now)) (entries_of Sink.node (drop result entries.now)) ≡ true }
    ensures stay { IsSettled (opens_of Sink.node elements.now) (entries_of Sink.node (take result entries.now)) }
{
    let mut i = entries.len();
    while i > 0 {
        if !waits(alloc, sink, elements, depths, &entries[i - 1]) {
            return i;
        }
        i -= 1;
    }
    0
}

/// A tag of its own with the parts of that of an entry; none for a marker.
pub(crate) fn tag_at<Handle>(
    alloc: Global,
    entries: &[FormatEntry<Handle>],
    place: usize,
) -> Result<Option<Tag>, ParseFault>
    requires { place < length entries.now }
    ensures tag { IfOk result (IsTagAt entries.now place) }
    ensures fault { IfErr result (λ fault. fault ≡ Memory) }
{
    match &entries[place] {
        FormatEntry::Marker => Ok(None),
        FormatEntry::Element(_, tag) => Ok(Some(tag.copy(alloc)?)),
    }
}

impl<Sink: TreeSink> Stack<Sink> {
    /// Inserts the HTML element that a tag makes, opens it, and lists it with the tag (HTML Standard, section 13.2.4.3, "push onto the list
    /// of active formatting elements"). The tag's name comes with its class. Before it, where three or more entries since the last marker
    /// are equal to the tag, up to the order of attributes, the earliest of them leaves. The element and its entry need attributes of
    /// their own, so the tag is copied once; its name and attributes are moved to the element. On [`ParseFault::Memory`], the only fault,
    /// the element may have been made, or inserted without being listed, and the earliest entry may have left. Time grows with the number
    /// of entries since the marker.
    pub fn create_formatting_element_of(
        &mut self,
        sink: &mut Sink,
        class: &ElementClass,
        tag: &mut Tag,
        foster: bool,
    ) -> Result<Sink::Handle, ParseFault>
        requires class { IsClassOf Html tag.old.name class.now }
        requires standing { StandsIn (Sink.forest sink.old) self.old }
        ensures named { MakesNext Sink.node (Sink.forest sink.old) result }
        ensures ok { OnOk result (PerformsWith foster (create_formatting_element_for tag.old) self.old self.new
            (Sink.forest sink.old) (Sink.forest sink.new)) }
        ensures kept { StandsIn (Sink.forest sink.new) self.new }
        ensures fault { IfErr result (λ fault. fault ≡ Memory) }
    {
        let own = tag.copy(self.allocator())?;
        self.make_room(tag);
        let made = self.insert_element_of(sink, class, tag, foster, None)?;
        self.list(made, own)?;
        Ok(made)
    }

    /// The same for a tag that is handed on.
    #[inline(always)]
    pub fn create_formatting_element_for(
        &mut self,
        sink: &mut Sink,
        class: ElementClass,
        tag: Tag,
        foster: bool,
    ) -> Result<Sink::Handle, ParseFault>
        requires class { IsClassOf Html tag.name class }
        requires standing { StandsIn (Sink.forest sink.old) self.old }
        ensures named { MakesNext Sink.node (Sink.forest sink.old) result }
        ensures ok { OnOk result (PerformsWith foster (create_formatting_element_for tag) self.old self.new
            (Sink.forest sink.old) (Sink.forest sink.new)) }
        ensures kept { StandsIn (Sink.forest sink.new) self.new }
        ensures fault { IfErr result (λ fault. fault ≡ Memory) }
    {
        let mut tag = tag;
        self.create_formatting_element_of(sink, &class, &mut tag, foster)
    }

    /// Lists an element with the tag that it was made for.
    fn list(&mut self, element: Sink::Handle, tag: Tag) -> Result<(), ParseFault>
        ensures ok { OnOk result (self.new ≡ record self.old {
          active_formatting = Listed (Sink.node element) tag ∷
              self.old.active_formatting;
        }) }
        ensures err { OnErr result (self.new ≡ self.old) }
        ensures fault { IfErr result (λ fault. fault ≡ Memory) }
    {
        self.active_formatting
            .push(FormatEntry::Element(element, tag))?;
        Ok(())
    }

    /// How many entries stay as they are where elements are opened again: those up to and with the last that is a marker or open.
    #[inline(always)]
    fn settled(&self, sink: &Sink) -> usize
        requires { StandsIn (Sink.forest sink.now) self.now }
        ensures { IsDivided self.now.open_elems self.now.active_formatting result }
    {
        if is_newest_settled(
            sink,
            self.open_elems.as_slice(),
            self.active_formatting.as_slice(),
        ) {
            return self.listed();
        }
        count_settled(
            self.allocator(),
            sink,
            self.open_elems.as_slice(),
            &self.depths,
            self.active_formatting.as_slice(),
        )
    }

    /// How many entries there are.
    fn listed(&self) -> usize
        ensures { result ≡ length self.now.active_formatting }
    {
        self.active_formatting.len()
    }

    /// The entry at a place stands for another element from now on.
    fn relist_at(&mut self, place: usize, element: Sink::Handle)
        requires { place < length self.old.active_formatting }
        ensures { (newer older : List Entry) (n : ℕ) (tag : Tag) → self.old.active_formatting ≡ newer
            ++ Listed n tag ∷ older → length older ≡ place → self.new ≡ record self.old
            { active_formatting = newer ++ Listed (Sink.node element) tag ∷ older } }
    {
        listing::rename(&mut self.active_formatting, place, element);
    }

    /// A tag of its own with the parts of that of an entry; none for a marker.
    pub(crate) fn tag_again(&self, place: usize) -> Result<Option<Tag>, ParseFault>
        requires { place < length self.now.active_formatting }
        ensures said { IfOk result (IsSaidAt self.now.active_formatting place) }
        ensures fault { IfErr result (λ fault. fault ≡ Memory) }
    {
        let alloc = *self.active_formatting.allocator();
        tag_at(alloc, self.active_formatting.as_slice(), place)
    }

    /// The element of an entry is inserted again, and the entry stands for the new one.
    #[inline(never)]
    fn open_again(&mut self, sink: &mut Sink, place: usize, foster: bool) -> Result<(), ParseFault>
        requires place { place < length self.old.active_formatting }
        requires standing { StandsIn (Sink.forest sink.old) self.old }
        ensures ok { OnOk result ((newer older : List Entry) (n : ℕ) (tag : Tag)
            → self.old.active_formatting ≡ newer ++ Listed n tag ∷ older → length older ≡ place
            → IsAgain foster self.old self.new (Sink.forest sink.old) (Sink.forest sink.new) newer tag older) }
        ensures kept { StandsIn (Sink.forest sink.new) self.new }
        ensures fault { IfErr result (λ fault. fault ≡ Memory) }
    {
        let Some(tag) = self.tag_again(place)? else {
            return Ok(());
        };
        let class = ElementClass::html(&tag.name);
        let made = self.insert_element_for(sink, class, tag, foster, None)?;
        self.relist_at(place, made);
        Ok(())
    }

    /// "Reconstruct the active formatting elements" (HTML Standard, section 13.2.4.3): the elements of the entries after the last one that
    /// is a marker or open are inserted again, in order, and the entries stand for the new ones. Each of these takes a copy of its tag's
    /// name and attributes, since its entry keeps the tag. On [`ParseFault::Memory`], the only fault, some of them, the first ones, may
    /// have been inserted. Each entry that is looked at is looked for among the open elements; where nothing has to be opened, that is
    /// one.
    #[inline(always)]
    pub fn reconstruct_active_formatting_elements(
        &mut self,
        sink: &mut Sink,
        foster: bool,
    ) -> Result<(), ParseFault>
        requires { StandsIn (Sink.forest sink.old) self.old }
        ensures ok { OnOk result (PerformsWith foster reconstruct_active_formatting_elements self.old self.new
            (Sink.forest sink.old) (Sink.forest sink.new)) }
        ensures kept { StandsIn (Sink.forest sink.new) self.new }
        ensures fault { IfErr result (λ fault. fault ≡ Memory) }
    {
        let settled = self.settled(sink);
        let listed = self.listed();
        for place in settled..listed {
            self.open_again(sink, place, foster)?;
        }
        Ok(())
    }
}
