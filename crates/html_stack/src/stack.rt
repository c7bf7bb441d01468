//! The stack of open elements, the list of active formatting elements and the stack of template insertion modes.
ghost use Rattle.std.specs.Prelude.{◌≡◌, ◌||◌, [], ◌∷◌, IfErr, OnOk, OnErr, MatchOption, ◌<◌, length, reverse, take};
ghost use Rattle.markup.specs.declared.fault.ParseFault.TheVariants.{Memory};

use crate::active_formatting_iter::ActiveFormattingIter;
use crate::depths::Depths;
use crate::entries::{FormatEntry, OpenElement};
use crate::signs::Sign;
use crate::wanted::Wanted;
use crate::{resetting, walks};
use html_names::{ElementClass, ElementName};
use html_rules::{InsertionMode, Rules, TagSet};
use html_tokens::Tag;
use markup::{LocalName, ParseFault, TreeSink};
use std::alloc::Global;
use std::marker::Model;

/// The open elements, the active formatting elements and the template insertion modes over a sink's nodes. A contract sees the three
/// lists as the rules do, the newest first.
#[derive(Drop)]
pub struct Stack<Sink: TreeSink> {
    pub(crate) open_elems: Vec<OpenElement<Sink::Handle>>,
    pub(crate) active_formatting: Vec<FormatEntry<Sink::Handle>>,
    template_modes: Vec<InsertionMode>,
    rules: Rules,
    // What is noted of the open elements, where they are many.
    pub(crate) depths: Depths,
}

impl<Sink: TreeSink> Model for Stack<Sink> {
    ghost use Rattle.std.specs.Prelude.{reverse};
    ghost use Rattle.html_stack.specs.Stacks.{Stacked, opens_of, entries_of};
    ghost use Rattle.html_stack.specs.Noted.{IsNoted, named};

    ghost Value = { Stacked };

    ghost view = { λ s. record {
      open_elems = opens_of Sink.node s.open_elems.items;
      active_formatting = entries_of Sink.node s.active_formatting.items;
      template_modes = reverse s.template_modes.items;
      rules = s.rules;
    } };

    ghost invariant = { λ s. IsNoted (named s.open_elems.items) s.depths };
}

impl<Sink: TreeSink> Stack<Sink> {
    ghost use Rattle.html_stack.specs.Stacks.{Stacked, entries_of, open_of, opens_of};
    ghost use Rattle.std.specs.Prelude.{is_some};
    ghost use Rattle.html_rules.specs.Names.{Html};
    ghost use Rattle.html_rules.specs.Reset.{current_template_mode, reset_insertion_mode};
    ghost use Rattle.html_rules.specs.State.{State};
    ghost use Rattle.html_stack.specs.Modes.{IsContext};
    ghost use Rattle.markup.specs.TreeLaws.{with_errors};
    ghost use Rattle.html_stack.specs.ForeignEnds.{ends_foreign_by};
    ghost use Rattle.html_rules.specs.Formatting.{after_marker};
    ghost use Rattle.html_rules.specs.Stack.{finds_generic, in_scope, left_below, left_by_implied, left_from, nothing, without_current};
    ghost use Rattle.html_rules_laws.specs.Soundness.{AreOpened};
    ghost use Rattle.html_stack.specs.Wanted.{IsWanted, closes, passes};
    ghost use Rattle.html_rules.specs.declared.tag_set.TagSet.TheVariants.{BodyEnd, CursoryImpliedEnd};
    ghost use Rattle.std.specs.List.{list_all};
    ghost use Rattle.html_rules.specs.State.{Element, Marker as Mark, current_is, current_number, is_in, is_named, named_in};
    ghost use Rattle.html_names.specs.Classes.{IsClassOf};
    ghost use Rattle.html_stack.specs.Noted.{IsBeyond, bears};

    /// Nothing is open or listed. The lists grow in the memory of `alloc`.
    pub fn new(alloc: Global, rules: Rules) -> Stack<Sink>
        ensures { result ≡ record { open_elems = []; active_formatting = []; template_modes = []; rules = rules } }
    {
        Stack {
            open_elems: Vec::new(alloc),
            active_formatting: Vec::new(alloc),
            template_modes: Vec::new(alloc),
            rules,
            depths: Depths::new(alloc),
        }
    }

    /// The rules by whose sets open elements are asked.
    pub fn rules(&self) -> Rules
        ensures { result ≡ self.now.rules }
    {
        self.rules
    }

    /// What the lists grow in.
    pub(crate) fn allocator(&self) -> Global {
        *self.open_elems.allocator()
    }

    /// The open elements, lent, the root first.
    pub fn open_elems(&self) -> &[OpenElement<Sink::Handle>]
        ensures { opens_of Sink.node result.now ≡ self.now.open_elems }
    {
        self.open_elems.as_slice()
    }

    /// The entries of the list, lent, the oldest first.
    pub fn active_formatting(&self) -> &[FormatEntry<Sink::Handle>]
        ensures { entries_of Sink.node result.now ≡ self.now.active_formatting }
    {
        self.active_formatting.as_slice()
    }

    /// The template insertion modes, lent, the oldest first.
    pub fn template_modes(&self) -> &[InsertionMode]
        ensures { reverse result.now ≡ self.now.template_modes }
    {
        self.template_modes.as_slice()
    }

    /// Opens an element.
    #[inline(always)]
    pub fn push(&mut self, element: OpenElement<Sink::Handle>) -> Result<(), ParseFault>
        ensures ok { OnOk result (self.new ≡ record self.old { open_elems = open_of Sink.node element ∷ self.old.open_elems }) }
        ensures err { OnErr result (self.new ≡ self.old) }
        ensures fault { IfErr result (λ fault. fault ≡ Memory) }
    {
        self.open_elems.push(element)?;
        let alloc = *self.open_elems.allocator();
        self.depths.follow(alloc, self.open_elems.as_slice());
        Ok(())
    }

    /// Puts a marker into the list.
    pub fn push_marker(&mut self) -> Result<(), ParseFault>
        ensures ok { OnOk result (self.new ≡ record self.old { active_formatting = Mark ∷ self.old.active_formatting }) }
        ensures err { OnErr result (self.new ≡ self.old) }
        ensures fault { IfErr result (λ fault. fault ≡ Memory) }
    {
        self.active_formatting.push(FormatEntry::Marker)?;
        Ok(())
    }

    /// Lists the current node, with the tag that it was made for.
    pub fn list_current(&mut self, tag: Tag) -> Result<(), ParseFault>
        requires { 0 < length self.old.open_elems }
        ensures ok { OnOk result (self.new ≡ record self.old
            { active_formatting = Element (current_number self.old.open_elems) tag ∷ self.old.active_formatting }) }
        ensures err { OnErr result (self.new ≡ self.old) }
        ensures fault { IfErr result (λ fault. fault ≡ Memory) }
    {
        let handle = walks::last(self.open_elems.as_slice());
        self.active_formatting
            .push(FormatEntry::Element(handle, tag))?;
        Ok(())
    }

    /// Makes a template insertion mode the current one.
    pub fn push_template_mode(&mut self, mode: InsertionMode) -> Result<(), ParseFault>
        ensures ok { OnOk result (self.new ≡ record self.old { template_modes = mode ∷ self.old.template_modes }) }
        ensures err { OnErr result (self.new ≡ self.old) }
        ensures fault { IfErr result (λ fault. fault ≡ Memory) }
    {
        self.template_modes.push(mode)?;
        Ok(())
    }

    /// Takes the current template insertion mode away.
    pub fn pop_template_mode(&mut self) -> Option<InsertionMode>
        ensures { MatchOption result ((self.old.template_modes ≡ []) × (self.new ≡ self.old))
            (λ mode. (self.old.template_modes ≡ mode ∷ self.new.template_modes)
            × (self.new ≡ record self.old { template_modes = self.new.template_modes })) }
    {
        self.template_modes.pop()
    }

    /// The open elements up to the last that passes one of two tests, or more.
    pub(crate) fn reached(&self, one: Sign, other: Sign) -> &[OpenElement<Sink::Handle>]
        ensures { IsBeyond (λ x. bears one x || bears other x) (opens_of Sink.node result.now) self.now.open_elems }
    {
        let open = self.open_elems.as_slice();
        let reach = self.depths.reach(open.len(), one, other);
        &open[..reach]
    }

    /// The open elements up to the last that passes a test or is HTML's of a name, or more.
    fn reached_named(&self, sign: Sign, name: &LocalName) -> &[OpenElement<Sink::Handle>]
        ensures { IsBeyond (λ x. bears sign x || named_in x.namespace x.name name.now) (opens_of Sink.node result.now) self.now.open_elems }
    {
        let open = self.open_elems.as_slice();
        let reach = self
            .depths
            .reach_named(self.allocator(), open.len(), sign, name);
        &open[..reach]
    }

    /// Whether an element of a set is open, up to and with the first of a scope's bounds ("has an element in the specific scope", HTML
    /// Standard, section 13.2.4.2). Time grows with the number of elements up to there.
    #[inline(always)]
    pub fn in_scope(&self, scope: TagSet, set: TagSet) -> bool
        ensures { result ≡ in_scope scope (is_in set) self.now.open_elems }
    {
        let open = self.reached(Sign::In(scope), Sign::In(set));
        walks::is_set_in_scope(open, scope, set)
    }

    /// The same for HTML elements of a name, which comes with its class.
    pub fn in_scope_named(&self, scope: TagSet, class: ElementClass, name: &LocalName) -> bool
        requires { IsClassOf Html name.now class }
        ensures { result ≡ in_scope scope (is_named name.now) self.now.open_elems }
    {
        let open = self.reached_named(Sign::In(scope), name);
        walks::is_in_scope(open, scope, Wanted::Named(class, name))
    }

    /// Elements are popped until one of a set was popped. The sink is not told.
    pub fn pop_until(&mut self, set: TagSet)
        ensures { self.new ≡ record self.old { open_elems = left_below (is_in set) self.old.open_elems } }
    {
        let left = walks::count_below(self.open_elems.as_slice(), Wanted::In(set));
        self.depths.cut(left);
        self.open_elems.truncate(left);
    }

    /// Elements are popped until an HTML element of a name was popped; the name comes with its class. The sink is not told.
    pub fn pop_until_named(&mut self, class: ElementClass, name: &LocalName)
        requires { IsClassOf Html name.now class }
        ensures { self.new ≡ record self.old { open_elems = left_below (is_named name.now) self.old.open_elems } }
    {
        let left = walks::count_below(self.open_elems.as_slice(), Wanted::Named(class, name));
        self.depths.cut(left);
        self.open_elems.truncate(left);
    }

    /// Elements are popped until the current node is in a set ("clear the stack back to" a context, sections 13.2.6.4.9 and following).
    /// The sink is not told.
    pub fn pop_until_current(&mut self, set: TagSet)
        ensures { self.new ≡ record self.old { open_elems = left_from (is_in set) self.old.open_elems } }
    {
        let left = walks::count_from(self.open_elems.as_slice(), Wanted::In(set));
        self.depths.cut(left);
        self.open_elems.truncate(left);
    }

    /// Whether foreign content ends at the current node. By the Standard, HTML may stand in some of MathML's `annotation-xml`.
    fn ends_foreign(&self, sink: &Sink) -> bool
        requires { AreOpened (Sink.forest sink.now) self.now.open_elems }
        ensures { result ≡ current_is (ends_foreign_by self.now.rules (Sink.integration_point (with_errors 0 (Sink.forest sink.now))))
            self.now.open_elems }
    {
        if self.current_is(Wanted::EndsForeign) {
            return true;
        }
        match (self.rules, self.open_elems.last()) {
            (Rules::Standard, Some(element)) => {
                element.name.is_in(TagSet::AnnotationXml)
                    && sink.is_mathml_annotation_xml_integration_point(&element.handle)
            }
            _ => false,
        }
    }

    /// Elements are popped until foreign content ends: until the current node is HTML's, or HTML may stand in it (HTML Standard, section
    /// 13.2.6.5). The sink is told of each.
    pub fn pop_foreign(&mut self, sink: &mut Sink)
        requires { AreOpened (Sink.forest sink.old) self.old.open_elems }
        ensures left { self.new ≡ record self.old {
          open_elems = left_from (ends_foreign_by self.old.rules
              (Sink.integration_point (with_errors 0 (Sink.forest sink.old)))) self.old.open_elems;
        } }
        ensures same { Sink.forest sink.new ≡ Sink.forest sink.old }
    {
        while !self.open_elems.is_empty() && !self.ends_foreign(sink) {
            drop(self.pop(sink));
        }
    }

    /// The elements that were opened first stay, so many. The sink is not told.
    pub fn truncate(&mut self, count: usize)
        ensures { self.new ≡ record self.old { open_elems = reverse (take count (reverse self.old.open_elems)) } }
    {
        self.depths.cut(count);
        self.open_elems.truncate(count);
    }

    /// Entries leave the list from its end, up to and with the last marker ("clear the list of active formatting elements up to the last
    /// marker", HTML Standard, section 13.2.4.3).
    pub fn clear_active_formatting_to_marker(&mut self)
        ensures { self.new ≡ record self.old { active_formatting = after_marker self.old.active_formatting } }
    {
        let left = walks::count_to_marker(self.active_formatting.as_slice());
        self.active_formatting.truncate(left);
    }

    /// The entries since the last marker, the newest first.
    pub fn active_formatting_end_to_marker(&self) -> ActiveFormattingIter<'_, Sink::Handle>
        ensures { entries_of Sink.node result.entries.now ≡ self.now.active_formatting }
    {
        ActiveFormattingIter::new(self.active_formatting.as_slice())
    }

    /// Whether the current node is wanted.
    pub(crate) fn current_is(&self, wanted: Wanted<'_>) -> bool
        requires { IsWanted wanted }
        ensures { result ≡ current_is (passes wanted.entry) self.now.open_elems }
    {
        walks::is_last(self.open_elems.as_slice(), wanted)
    }

    /// Pops the current node, and tells the sink. Nothing is popped where nothing is open.
    pub fn pop(&mut self, sink: &mut Sink) -> Option<OpenElement<Sink::Handle>>
        requires { AreOpened (Sink.forest sink.old) self.old.open_elems }
        ensures popped { MatchOption result (self.old.open_elems ≡ [])
            (λ element. self.old.open_elems ≡ open_of Sink.node element ∷ self.new.open_elems) }
        ensures rest { self.new ≡ record self.old { open_elems = without_current self.old.open_elems } }
        ensures same { Sink.forest sink.new ≡ Sink.forest sink.old }
    {
        let element = self.open_elems.pop()?;
        self.depths.cut(self.open_elems.len());
        sink.pop(&element.handle);
        Some(element)
    }

    /// Pops the current node. The sink is not told.
    #[inline(always)]
    pub(crate) fn drop_current(&mut self)
        ensures { self.new ≡ record self.old { open_elems = without_current self.old.open_elems } }
    {
        drop(self.open_elems.pop());
        self.depths.cut(self.open_elems.len());
    }

    /// Pops all elements, the current node first, and tells the sink of each.
    pub fn pop_all(&mut self, sink: &mut Sink)
        requires { AreOpened (Sink.forest sink.old) self.old.open_elems }
        ensures left { self.new ≡ record self.old { open_elems = [] } }
        ensures same { Sink.forest sink.new ≡ Sink.forest sink.old }
    {
        while !self.open_elems.is_empty() {
            drop(self.pop(sink));
        }
    }

    /// Whether the end tag of the current node is implied, and it is not excepted.
    fn current_is_implied(&self, implied: TagSet, except: Wanted<'_>) -> bool
        requires { IsWanted except }
        ensures { result ≡ current_is (closes implied (passes except.entry)) self.now.open_elems }
    {
        self.current_is(Wanted::In(implied)) && !self.current_is(except)
    }

    /// Pops elements whose end tags are implied, up to one that is excepted, and tells the sink of each.
    #[inline(never)]
    fn close_each_implied(&mut self, sink: &mut Sink, implied: TagSet, except: Wanted<'_>)
        requires wanted { IsWanted except }
        requires opened { AreOpened (Sink.forest sink.old) self.old.open_elems }
        ensures left { self.new ≡ record self.old { open_elems = left_by_implied implied (passes except.entry) self.old.open_elems } }
        ensures same { Sink.forest sink.new ≡ Sink.forest sink.old }
    {
        while self.current_is_implied(implied, except) {
            drop(self.pop(sink));
        }
    }

    /// The same. Mostly there is none.
    #[inline(always)]
    pub(crate) fn close_implied(&mut self, sink: &mut Sink, implied: TagSet, except: Wanted<'_>)
        requires wanted { IsWanted except }
        requires opened { AreOpened (Sink.forest sink.old) self.old.open_elems }
        ensures left { self.new ≡ record self.old { open_elems = left_by_implied implied (passes except.entry) self.old.open_elems } }
        ensures same { Sink.forest sink.new ≡ Sink.forest sink.old }
    {
        if self.current_is(Wanted::In(implied)) {
            self.close_each_implied(sink, implied, except);
        }
    }

    /// Pops elements whose end tags are implied, and tells the sink of each ("generate implied end tags", HTML Standard, section 13.2.6.3;
    /// thoroughly, by that set).
    pub fn generate_implied_end_tags(&mut self, sink: &mut Sink, implied: TagSet)
        requires { AreOpened (Sink.forest sink.old) self.old.open_elems }
        ensures left { self.new ≡ record self.old { open_elems = left_by_implied implied nothing self.old.open_elems } }
        ensures same { Sink.forest sink.new ≡ Sink.forest sink.old }
    {
        self.close_implied(sink, implied, Wanted::Nothing);
    }

    /// The same, except for HTML elements of a name, which comes with its class.
    pub fn generate_implied_end_except(
        &mut self,
        sink: &mut Sink,
        class: ElementClass,
        name: &LocalName,
    )
        requires name { IsClassOf Html name.now class }
        requires opened { AreOpened (Sink.forest sink.old) self.old.open_elems }
        ensures left { self.new ≡ record self.old
            { open_elems = left_by_implied CursoryImpliedEnd (is_named name.now) self.old.open_elems } }
        ensures same { Sink.forest sink.new ≡ Sink.forest sink.old }
    {
        self.close_implied(sink, TagSet::CursoryImpliedEnd, Wanted::Named(class, name));
    }

    /// The same, except for elements of a set.
    pub fn generate_implied_end_except_in(&mut self, sink: &mut Sink, set: TagSet)
        requires { AreOpened (Sink.forest sink.old) self.old.open_elems }
        ensures left { self.new ≡ record self.old { open_elems = left_by_implied CursoryImpliedEnd (is_in set) self.old.open_elems } }
        ensures same { Sink.forest sink.new ≡ Sink.forest sink.old }
    {
        self.close_implied(sink, TagSet::CursoryImpliedEnd, Wanted::In(set));
    }

    /// Elements are popped until one that is wanted was popped. The sink is not told.
    pub(crate) fn pop_until_wanted(&mut self, wanted: Wanted<'_>)
        requires { IsWanted wanted }
        ensures { self.new ≡ record self.old { open_elems = left_below (passes wanted.entry) self.old.open_elems } }
    {
        let left = walks::count_below(self.open_elems.as_slice(), wanted);
        self.depths.cut(left);
        self.open_elems.truncate(left);
    }

    /// Whether an HTML element of a name is open and no special element stands before it. The name comes with its class.
    pub(crate) fn finds_generic(&self, class: ElementClass, name: &LocalName) -> bool
        requires { IsClassOf Html name.now class }
        ensures { result ≡ finds_generic (is_named name.now) self.now.open_elems }
    {
        let open = self.reached_named(Sign::In(TagSet::SpecialTag), name);
        walks::finds_generic(open, Wanted::Named(class, name))
    }

    /// Whether all open elements may be open where the body ends.
    pub(crate) fn all_end_with_body(&self) -> bool
        ensures { result ≡ list_all (is_in BodyEnd) self.now.open_elems }
    {
        let open = self.reached(Sign::BarsBodyEnd, Sign::BarsBodyEnd);
        walks::are_all_in(open, TagSet::BodyEnd)
    }

    /// The mode that the open elements ask for ("reset the insertion mode appropriately", HTML Standard, section 13.2.4.1): with the
    /// current template insertion mode, by whether there is a head element, and in a fragment by its context.
    pub fn reset_insertion_mode(
        &self,
        has_head: bool,
        context: Option<&ElementName>,
    ) -> InsertionMode
        ensures { (s : State) → s.open_elems ≡ self.now.open_elems → s.template_modes ≡ self.now.template_modes
            → is_some s.head_elem ≡ has_head → IsContext s.context_elem context.entry → result ≡ (reset_insertion_mode s).mode }
    {
        let template_mode = self.current_template_mode();
        let open = self.reached(Sign::AsksMode, Sign::AsksMode);
        resetting::mode_of_open(open, template_mode, has_head, context)
    }

    /// The current template insertion mode; "in body" where there is none.
    fn current_template_mode(&self) -> InsertionMode
        ensures { result ≡ current_template_mode self.now.template_modes }
    {
        match self.template_modes.last() {
            Some(mode) => *mode,
            None => InsertionMode::InBody,
        }
    }
}
