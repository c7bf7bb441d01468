//! Elements are inserted (HTML Standard, section 13.2.6.1, "insert a foreign element" and "insert an HTML element").
ghost use Rattle.std.specs.Prelude.{◌≡◌, ◌∷◌, ◌≤◌, [], codes, IfErr, IfSome, OnOk, Some};
ghost use Rattle.std.specs.List.{list_any};
ghost use Rattle.std.specs.Prelude.{◌&&◌};
ghost use Rattle.std.specs.Str.{bytes_eq};
ghost use Rattle.markup.specs.Forest.{IsNode, node_count};
ghost use Rattle.markup.specs.Named.{IsTree};
ghost use Rattle.markup.specs.declared.fault.ParseFault.TheVariants.{Memory};
ghost use Rattle.html_names.specs.Classes.{IsClassOf};
ghost use Rattle.html_rules.specs.Names.{Html};
ghost use Rattle.html_rules.specs.Places.{insert_and_pop_element_for, insert_element_for, insert_phantom};
ghost use Rattle.html_stack.specs.Inserting.{element_for, inserted, IsNew, IsPoint, LeavesStanding, MakesNext, opened_as, with_put};
ghost use Rattle.html_stack.specs.Stacks.{PerformsWith, StandsIn};

use crate::entries::{InsertionPoint, OpenElement, PushFlag};
use crate::inserting::creating::flags_of;
use crate::inserting::new_element::NewElement;
use crate::inserting::places::insert_at;
use crate::stack::Stack;
use html_names::{ElementClass, ElementName};
use html_rules::TagSet;
use html_tokens::Tag;
use markup::{
    Attribute, Attributes, KnownNamespace, LocalName, Namespace, NodeOrText, ParseFault, TreeSink,
};

/// Whether an attribute says to which form the element belongs.
#[tactic(auto, unfolding(markup::specs::Namespaces::name_of))]
fn has_form_attribute(attributes: &[Attribute]) -> bool
    ensures { result ≡ list_any (λ attribute. bytes_eq attribute.name.ns [] && bytes_eq attribute.name.local
        (codes "form")) attributes.now }
{
    attributes.iter().any(|a| a.name.ns.is_known(KnownNamespace::NoNamespace)
        && a.name.local.is("form"))
}

/// Tells the sink of the form to which a new element belongs, if there is one, and of the nodes that say where the element is put.
fn report_owner<Sink: TreeSink>(
    sink: &mut Sink,
    made: &Sink::Handle,
    owner: Option<Sink::Handle>,
    point: InsertionPoint<Sink::Handle>,
)
    requires made { IsNode (Sink.forest sink.old) (Sink.node made.now) }
    requires owner { IfSome owner (λ form. IsNode (Sink.forest sink.old) (Sink.node form)) }
    ensures { Sink.forest sink.new ≡ Sink.forest sink.old }
{
    let Some(form) = owner else {
        return;
    };
    let (node, previous) = match point {
        InsertionPoint::LastChild(node) | InsertionPoint::BeforeSibling(node) => (node, None),
        InsertionPoint::TableFosterParenting {
            element,
            prev_element,
        } => (element, Some(prev_element)),
    };
    sink.associate_with_form(made, &form, (&node, previous.as_ref()));
}

/// Tells the sink of a script that has started.
fn report_started<Sink: TreeSink>(sink: &mut Sink, made: &Sink::Handle, already_started: bool)
    requires { IsNode (Sink.forest sink.old) (Sink.node made.now) }
    ensures { Sink.forest sink.new ≡ Sink.forest sink.old }
{
    if already_started {
        sink.mark_script_already_started(made);
    }
}

/// Makes an element and puts it at a place.
fn put_element<Sink: TreeSink>(
    sink: &mut Sink,
    element: NewElement,
    point: InsertionPoint<Sink::Handle>,
    owner: Option<Sink::Handle>,
) -> Result<Sink::Handle, ParseFault>
    requires class { IsNew element }
    requires tree { IsTree (Sink.forest sink.old) }
    requires point { IsPoint Sink.node (Sink.forest sink.old) point }
    requires owner { IfSome owner (λ form. IsNode (Sink.forest sink.old) (Sink.node form)) }
    ensures named { MakesNext Sink.node (Sink.forest sink.old) result }
    ensures ok { OnOk result (Sink.forest sink.new ≡ with_put Sink.node point (Sink.forest sink.old) element) }
    ensures kept { LeavesStanding (Sink.forest sink.old) (Sink.forest sink.new) }
    ensures grows { node_count (Sink.forest sink.old) ≤ node_count (Sink.forest sink.new) }
    ensures fault { IfErr result (λ fault. fault ≡ Memory) }
{
    let already_started = element.already_started;
    let made = element.create(sink)?;
    report_started(sink, &made, already_started);
    report_owner(sink, &made, owner, point);
    insert_at(sink, point, NodeOrText::AppendNode(made))?;
    Ok(made)
}

/// Makes the HTML element of a tag, whose name and attributes are moved to it, and puts it at a place.
#[inline(always)]
fn put_tag<Sink: TreeSink>(
    sink: &mut Sink,
    class: &ElementClass,
    tag: &mut Tag,
    point: InsertionPoint<Sink::Handle>,
    owner: Option<Sink::Handle>,
) -> Result<Sink::Handle, ParseFault>
    requires class { IsClassOf Html tag.old.name class.now }
    requires tree { IsTree (Sink.forest sink.old) }
    requires point { IsPoint Sink.node (Sink.forest sink.old) point }
    requires owner { IfSome owner (λ form. IsNode (Sink.forest sink.old) (Sink.node form)) }
    ensures named { MakesNext Sink.node (Sink.forest sink.old) result }
    ensures ok { OnOk result (Sink.forest sink.new ≡ with_put Sink.node point (Sink.forest sink.old) (element_for class.now tag.old)) }
    ensures kept { LeavesStanding (Sink.forest sink.old) (Sink.forest sink.new) }
    ensures grows { node_count (Sink.forest sink.old) ≤ node_count (Sink.forest sink.new) }
    ensures fault { IfErr result (λ fault. fault ≡ Memory) }
{
    let flags = flags_of(*class, tag.attrs.as_slice(), tag.had_duplicate_attributes);
    let made = sink.create_html_element(tag.name.take(), tag.attrs.take(), flags)?;
    report_owner(sink, &made, owner, point);
    insert_at(sink, point, NodeOrText::AppendNode(made))?;
    Ok(made)
}

impl<Sink: TreeSink> Stack<Sink> {
    /// The form to which a new element of a class belongs, if there is one.
    fn owner_of(
        &self,
        class: &ElementClass,
        attributes: &[Attribute],
        form: Option<Sink::Handle>,
    ) -> Option<Sink::Handle>
        ensures { IfSome result (λ owner. form ≡ Some owner) }
    {
        let form = form?;
        if !class.is_in(TagSet::FormAssociatable) || self.has_open(TagSet::Template) {
            return None;
        }
        if class.is_in(TagSet::Listed) && has_form_attribute(attributes) {
            return None;
        }
        Some(form)
    }

    /// Makes an element, puts it at a place and opens it.
    #[inline(always)]
    pub(crate) fn put_and_open(
        &mut self,
        sink: &mut Sink,
        element: NewElement,
        point: InsertionPoint<Sink::Handle>,
        owner: Option<Sink::Handle>,
    ) -> Result<Sink::Handle, ParseFault>
        requires class { IsNew element }
        requires standing { StandsIn (Sink.forest sink.old) self.old }
        requires point { IsPoint Sink.node (Sink.forest sink.old) point }
        requires owner { IfSome owner (λ form. IsNode (Sink.forest sink.old) (Sink.node form)) }
        ensures named { MakesNext Sink.node (Sink.forest sink.old) result }
        ensures ok { OnOk result (Sink.forest sink.new ≡ with_put Sink.node point (Sink.forest sink.old) element) }
        ensures opened { OnOk result
            (self.new ≡ record self.old { open_elems = opened_as self.old.rules (Sink.forest sink.old) element ∷ self.old.open_elems }) }
        ensures kept { StandsIn (Sink.forest sink.new) self.new }
        ensures grows { node_count (Sink.forest sink.old) ≤ node_count (Sink.forest sink.new) }
        ensures fault { IfErr result (λ fault. fault ≡ Memory) }
    {
        let name = element.open_name(self.allocator(), self.rules())?;
        let handle = put_element(sink, element, point, owner)?;
        self.push(OpenElement { handle, name })?;
        Ok(handle)
    }

    /// Makes an element, puts it at the appropriate place, and opens it or not (HTML Standard, section 13.2.6.1, "insert a foreign
    /// element"). An element that belongs to a form is told of with it, before it is put. On [`ParseFault::Memory`], the only fault, the
    /// element may have been made, and put, without being opened. Beside what the sink does this costs what the place costs; a name that is
    /// not known is copied where the element is opened.
    pub fn insert_element(
        &mut self,
        sink: &mut Sink,
        push: PushFlag,
        element: NewElement,
        foster: bool,
        form: Option<Sink::Handle>,
    ) -> Result<Sink::Handle, ParseFault>
        requires class { IsNew element }
        requires standing { StandsIn (Sink.forest sink.old) self.old }
        requires form { IfSome form (λ owner. IsNode (Sink.forest sink.old) (Sink.node owner)) }
        ensures named { MakesNext Sink.node (Sink.forest sink.old) result }
        ensures ok { OnOk result (PerformsWith foster (inserted push element) self.old self.new
            (Sink.forest sink.old) (Sink.forest sink.new)) }
        ensures kept { StandsIn (Sink.forest sink.new) self.new }
        ensures grows { node_count (Sink.forest sink.old) ≤ node_count (Sink.forest sink.new) }
        ensures fault { IfErr result (λ fault. fault ≡ Memory) }
    {
        let point = self.current_place(sink, foster);
        let owner = self.owner_of(&element.class, element.attrs.as_slice(), form);
        match push {
            PushFlag::Push => self.put_and_open(sink, element, point, owner),
            PushFlag::NoPush => put_element(sink, element, point, owner),
        }
    }

    /// Makes the HTML element of a tag, puts it at a place and opens it.
    #[inline(always)]
    fn put_tag_and_open(
        &mut self,
        sink: &mut Sink,
        class: &ElementClass,
        tag: &mut Tag,
        point: InsertionPoint<Sink::Handle>,
        owner: Option<Sink::Handle>,
    ) -> Result<Sink::Handle, ParseFault>
        requires class { IsClassOf Html tag.old.name class.now }
        requires standing { StandsIn (Sink.forest sink.old) self.old }
        requires point { IsPoint Sink.node (Sink.forest sink.old) point }
        requires owner { IfSome owner (λ form. IsNode (Sink.forest sink.old) (Sink.node form)) }
        ensures named { MakesNext Sink.node (Sink.forest sink.old) result }
        ensures ok { OnOk result (Sink.forest sink.new ≡ with_put Sink.node point (Sink.forest sink.old) (element_for class.now tag.old)) }
        ensures opened { OnOk result (self.new ≡ record self.old
            { open_elems = opened_as self.old.rules (Sink.forest sink.old) (element_for class.now tag.old) ∷ self.old.open_elems }) }
        ensures kept { StandsIn (Sink.forest sink.new) self.new }
        ensures grows { node_count (Sink.forest sink.old) ≤ node_count (Sink.forest sink.new) }
        ensures fault { IfErr result (λ fault. fault ≡ Memory) }
    {
        let html = Namespace::from_known(KnownNamespace::Html);
        let name = ElementName::with_class(
            self.allocator(),
            self.rules(),
            *class,
            &html,
            &tag.name,
        )?;
        let handle = put_tag(sink, class, tag, point, owner)?;
        self.push(OpenElement { handle, name })?;
        Ok(handle)
    }

    /// Inserts the HTML element that a tag makes, whose name and attributes are moved to it, and opens it ("insert an HTML element"). The
    /// tag's name comes with its class. Nothing is copied but, for the stack, a name that is not known.
    pub fn insert_element_of(
        &mut self,
        sink: &mut Sink,
        class: &ElementClass,
        tag: &mut Tag,
        foster: bool,
        form: Option<Sink::Handle>,
    ) -> Result<Sink::Handle, ParseFault>
        requires class { IsClassOf Html tag.old.name class.now }
        requires standing { StandsIn (Sink.forest sink.old) self.old }
        requires form { IfSome form (λ owner. IsNode (Sink.forest sink.old) (Sink.node owner)) }
        ensures named { MakesNext Sink.node (Sink.forest sink.old) result }
        ensures ok { OnOk result (PerformsWith foster (insert_element_for tag.old) self.old self.new
            (Sink.forest sink.old) (Sink.forest sink.new)) }
        ensures kept { StandsIn (Sink.forest sink.new) self.new }
        ensures grows { node_count (Sink.forest sink.old) ≤ node_count (Sink.forest sink.new) }
        ensures fault { IfErr result (λ fault. fault ≡ Memory) }
    {
        let point = self.current_place(sink, foster);
        let owner = self.owner_of(class, tag.attrs.as_slice(), form);
        self.put_tag_and_open(sink, class, tag, point, owner)
    }

    /// The same without opening it ("insert an HTML element" and "immediately pop the current node off the stack").
    pub fn insert_and_pop_element_of(
        &mut self,
        sink: &mut Sink,
        class: &ElementClass,
        tag: &mut Tag,
        foster: bool,
        form: Option<Sink::Handle>,
    ) -> Result<Sink::Handle, ParseFault>
        requires class { IsClassOf Html tag.old.name class.now }
        requires standing { StandsIn (Sink.forest sink.old) self.old }
        requires form { IfSome form (λ owner. IsNode (Sink.forest sink.old) (Sink.node owner)) }
        ensures named { MakesNext Sink.node (Sink.forest sink.old) result }
        ensures ok { OnOk result (PerformsWith foster (insert_and_pop_element_for tag.old) self.old self.new
            (Sink.forest sink.old) (Sink.forest sink.new)) }
        ensures kept { StandsIn (Sink.forest sink.new) self.new }
        ensures grows { node_count (Sink.forest sink.old) ≤ node_count (Sink.forest sink.new) }
        ensures fault { IfErr result (λ fault. fault ≡ Memory) }
    {
        let point = self.current_place(sink, foster);
        let owner = self.owner_of(class, tag.attrs.as_slice(), form);
        put_tag(sink, class, tag, point, owner)
    }

    /// Inserts the HTML element that a tag makes, and opens it ("insert an HTML element"). The tag's name comes with its class. Nothing of
    /// the tag is copied but, for the stack, a name that is not known.
    #[inline(always)]
    pub fn insert_element_for(
        &mut self,
        sink: &mut Sink,
        class: ElementClass,
        tag: Tag,
        foster: bool,
        form: Option<Sink::Handle>,
    ) -> Result<Sink::Handle, ParseFault>
        requires class { IsClassOf Html tag.name class }
        requires standing { StandsIn (Sink.forest sink.old) self.old }
        requires form { IfSome form (λ owner. IsNode (Sink.forest sink.old) (Sink.node owner)) }
        ensures named { MakesNext Sink.node (Sink.forest sink.old) result }
        ensures ok { OnOk result (PerformsWith foster (insert_element_for tag) self.old self.new
            (Sink.forest sink.old) (Sink.forest sink.new)) }
        ensures kept { StandsIn (Sink.forest sink.new) self.new }
        ensures grows { node_count (Sink.forest sink.old) ≤ node_count (Sink.forest sink.new) }
        ensures fault { IfErr result (λ fault. fault ≡ Memory) }
    {
        let mut tag = tag;
        self.insert_element_of(sink, &class, &mut tag, foster, form)
    }

    /// The same for a script in a fragment: the sink is told that it has started, before it is put, so that it is never run (HTML Standard,
    /// section 13.2.6.4.4).
    pub fn insert_started_script(
        &mut self,
        sink: &mut Sink,
        class: ElementClass,
        tag: Tag,
        foster: bool,
    ) -> Result<Sink::Handle, ParseFault>
        requires class { IsClassOf Html tag.name class }
        requires standing { StandsIn (Sink.forest sink.old) self.old }
        ensures named { MakesNext Sink.node (Sink.forest sink.old) result }
        ensures ok { OnOk result (PerformsWith foster (insert_element_for tag) self.old self.new
            (Sink.forest sink.old) (Sink.forest sink.new)) }
        ensures kept { StandsIn (Sink.forest sink.new) self.new }
        ensures grows { node_count (Sink.forest sink.old) ≤ node_count (Sink.forest sink.new) }
        ensures fault { IfErr result (λ fault. fault ≡ Memory) }
    {
        let element = NewElement::started_script(class, tag);
        self.insert_element(sink, PushFlag::Push, element, foster, None)
    }

    /// The same without opening it ("insert an HTML element" and "immediately pop the current node off the stack").
    #[inline(always)]
    pub fn insert_and_pop_element_for(
        &mut self,
        sink: &mut Sink,
        class: ElementClass,
        tag: Tag,
        foster: bool,
        form: Option<Sink::Handle>,
    ) -> Result<Sink::Handle, ParseFault>
        requires class { IsClassOf Html tag.name class }
        requires standing { StandsIn (Sink.forest sink.old) self.old }
        requires form { IfSome form (λ owner. IsNode (Sink.forest sink.old) (Sink.node owner)) }
        ensures named { MakesNext Sink.node (Sink.forest sink.old) result }
        ensures ok { OnOk result (PerformsWith foster (insert_and_pop_element_for tag) self.old self.new
            (Sink.forest sink.old) (Sink.forest sink.new)) }
        ensures kept { StandsIn (Sink.forest sink.new) self.new }
        ensures grows { node_count (Sink.forest sink.old) ≤ node_count (Sink.forest sink.new) }
        ensures fault { IfErr result (λ fault. fault ≡ Memory) }
    {
        let mut tag = tag;
        self.insert_and_pop_element_of(sink, &class, &mut tag, foster, form)
    }

    /// Inserts an HTML element of a name that no tag gave, without attributes, and opens it.
    pub fn insert_phantom(
        &mut self,
        sink: &mut Sink,
        name: LocalName,
        foster: bool,
        form: Option<Sink::Handle>,
    ) -> Result<Sink::Handle, ParseFault>
        requires standing { StandsIn (Sink.forest sink.old) self.old }
        requires form { IfSome form (λ owner. IsNode (Sink.forest sink.old) (Sink.node owner)) }
        ensures named { MakesNext Sink.node (Sink.forest sink.old) result }
        ensures ok { OnOk result (PerformsWith foster (insert_phantom name) self.old self.new (Sink.forest sink.old)
            (Sink.forest sink.new)) }
        ensures kept { StandsIn (Sink.forest sink.new) self.new }
        ensures grows { node_count (Sink.forest sink.old) ≤ node_count (Sink.forest sink.new) }
        ensures fault { IfErr result (λ fault. fault ≡ Memory) }
    {
        let element = NewElement::html(name, Attributes::new(self.allocator()));
        self.insert_element(sink, PushFlag::Push, element, foster, form)
    }
}
