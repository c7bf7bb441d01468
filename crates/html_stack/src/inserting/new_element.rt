//! An element that is to be made.
ghost use Rattle.std.specs.Prelude.{◌≡◌, ◌≤◌, false, IfErr, IfOk, OnErr, OnOk};
ghost use Rattle.markup.specs.Forest.{node_count};
ghost use Rattle.markup.specs.declared.fault.ParseFault.TheVariants.{Memory};
ghost use Rattle.html_names.specs.Classes.{IsClassOf};
ghost use Rattle.html_rules.specs.Names.{Html, namespace_of};
ghost use Rattle.html_stack.specs.Inserting.{IsFor, IsNew, MakesNext, with_made};

use crate::inserting::creating;
use html_names::{ElementClass, ElementName, ElementNamespace};
use html_rules::Rules;
use html_tokens::Tag;
use markup::{Attributes, KnownNamespace, LocalName, Namespace, ParseFault, QualName, TreeSink};
use std::alloc::Global;

/// An element that is to be made: its namespace and its name, with the class of the two, and its attributes.
#[derive(Debug, Drop)]
pub struct NewElement {
    /// The namespace.
    pub namespace: Namespace,
    /// The name.
    pub name: LocalName,
    /// The class of the namespace and the name.
    pub class: ElementClass,
    /// The attributes.
    pub attrs: Attributes,
    /// Whether the tag named an attribute twice.
    pub had_duplicate_attributes: bool,
    /// Whether it is a script that has started, so that it is never run.
    pub already_started: bool,
}

impl NewElement {
    /// The HTML element that a tag makes; the tag's name comes with its class. Nothing is copied.
    pub fn for_tag(class: ElementClass, tag: Tag) -> NewElement
        requires { IsClassOf Html tag.name class }
        ensures of { IsFor Html tag.name tag.attrs tag.had_duplicate_attributes result }
        ensures is { IsNew result }
    {
        NewElement {
            namespace: Namespace::from_known(KnownNamespace::Html),
            name: tag.name,
            class,
            attrs: tag.attrs,
            had_duplicate_attributes: tag.had_duplicate_attributes,
            already_started: false,
        }
    }

    /// The same for the tag of a script that is told of as started.
    pub(crate) fn started_script(class: ElementClass, tag: Tag) -> NewElement
        requires { IsClassOf Html tag.name class }
        ensures of { IsFor Html tag.name tag.attrs tag.had_duplicate_attributes result }
        ensures is { IsNew result }
    {
        let mut element = NewElement::for_tag(class, tag);
        element.already_started = true;
        element
    }

    /// An HTML element with these attributes, none of which a tag named twice. Its name is looked up.
    pub fn html(name: LocalName, attrs: Attributes) -> NewElement
        ensures of { IsFor Html name attrs false result }
        ensures is { IsNew result }
    {
        let class = ElementClass::html(&name);
        NewElement {
            namespace: Namespace::from_known(KnownNamespace::Html),
            name,
            class,
            attrs,
            had_duplicate_attributes: false,
            already_started: false,
        }
    }

    /// The name of the element, once it is open. It is copied where it is not known.
    pub(crate) fn open_name(&self, alloc: Global, rules: Rules) -> Result<ElementName, ParseFault>
        requires { IsNew self.now }
        ensures ok { IfOk result (λ name. name ≡ record { namespace = namespace_of self.now.namespace; name = self.now.name; rules = rules }) }
        ensures fault { IfErr result (λ fault. fault ≡ Memory) }
    {
        ElementName::with_class(alloc, rules, self.class, &self.namespace, &self.name)
    }

    /// Makes the element, which stands nowhere yet. On [`ParseFault::Memory`], the only fault, the tree is as it was.
    pub fn create<Sink: TreeSink>(self, sink: &mut Sink) -> Result<Sink::Handle, ParseFault>
        requires { IsNew self }
        ensures named { MakesNext Sink.node (Sink.forest sink.old) result }
        ensures ok { OnOk result (Sink.forest sink.new ≡ with_made (Sink.forest sink.old) self) }
        ensures err { OnErr result (Sink.forest sink.new ≡ Sink.forest sink.old) }
        ensures grows { node_count (Sink.forest sink.old) ≤ node_count (Sink.forest sink.new) }
        ensures fault { IfErr result (λ fault. fault ≡ Memory) }
    {
        let NewElement {
            namespace,
            name,
            class,
            attrs,
            had_duplicate_attributes,
            ..
        } = self;
        let flags = creating::flags_of(class, attrs.as_slice(), had_duplicate_attributes);
        match class.namespace {
            ElementNamespace::Html => sink.create_html_element(name, attrs, flags),
            _ => sink.create_element(QualName::new(None, namespace, name), attrs, flags),
        }
    }
}
