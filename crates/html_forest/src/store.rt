//! The names, the attributes and the characters of nodes, those of each kind end to end.
ghost use Rattle.std.specs.Prelude.{◌≡◌, ◌≤◌, ◌<◌, ◌+◌, ◌++◌, ◌^◌, IfOk, IfErr, IfSome, cond, Some, None, length, vec_len, slice_range};
ghost use Rattle.std.specs.Str.{chars};
ghost use Rattle.std.specs.String.{string_bytes};
ghost use Rattle.markup.specs.Forest.{template_of, with_missing};
ghost use Rattle.markup.specs.Forest.NodeData.{Comment, Doctype as DoctypeNode, Element, ProcessingInstruction, Text as TextNode};
ghost use Rattle.markup.specs.Names.{html_name};
ghost use Rattle.markup.specs.declared.fault.ParseFault.TheVariants.{Memory};
ghost use Rattle.html_forest.specs.Entries.{IsGrown, IsMade, IsNameAt, IsRange, IsStored, attributes_in, data_in, name_in, text_in};
ghost use Rattle.html_forest.specs.Views.{attributes, characters, contents_in, data_view};

use crate::entry::{Doctype, Entry, Instruction, OwnElement};
use crate::names;
use crate::node::{AttributesRef, NodeData, NodeId, TextRef};
use markup::{
    Attribute, Attributes, ElementFlags, KnownNamespace, LocalName, Namespace, ParseFault,
    QualName, Text,
};
use std::alloc::Global;

// So many attributes are found without an index, and lie in the store.
const FEW: usize = 16;

// The most bytes of a text in the store, and the most names.
const MOST: usize = 4294967295;

/// What nodes are made of. What is in it stays, and more comes after it.
#[derive(Debug, Drop)]
pub(crate) struct Store {
    // The names of elements, mostly each once.
    pub names: Vec<QualName>,
    // Where in it names are that came lately.
    pub recent: Vec<u32>,
    pub attributes: Vec<Attribute>,
    pub texts: String,
}

/// A value in memory of its own.
fn boxed<T: Drop>(alloc: Global, value: T) -> Result<Box<T>, ParseFault>
    ensures ok { IfOk result (λ made. made.value ≡ value) }
    ensures fault { IfErr result (λ fault. fault ≡ Memory) }
{
    match Box::new(alloc, value) {
        Ok(made) => Ok(made),
        Err(_) => Err(ParseFault::Memory),
    }
}

/// A list of its own with the same attributes.
fn copied(alloc: Global, attributes: &[Attribute]) -> Result<Attributes, ParseFault>
    ensures ok { IfOk result (λ made. made ≡ attributes.now) }
    ensures fault { IfErr result (λ fault. fault ≡ Memory) }
{
    let mut list = Vec::with_capacity(alloc, attributes.len())?;
    for attribute in attributes {
        list.push_reserved(attribute.copy(alloc)?);
    }
    Ok(Attributes::from_vec(list))
}

impl Store {
    /// A store with nothing in it.
    pub(crate) fn new(alloc: Global) -> Result<Store, ParseFault>
        ensures { IfErr result (λ fault. fault ≡ Memory) }
    {
        Ok(Store {
            names: Vec::new(alloc),
            recent: names::none(alloc)?,
            attributes: Vec::new(alloc),
            texts: String::new(alloc),
        })
    }

    /// What it grows in.
    fn allocator(&self) -> Global {
        *self.texts.allocator()
    }

    /// The characters at a place, lent.
    #[inline(always)]
    fn characters(&self, at: usize, len: usize) -> TextRef<'_>
        requires { IsRange (string_bytes self.now.texts) at len }
        ensures { characters result ≡ text_in self.now at len }
    {
        TextRef::new(&self.texts.as_str()[at..at + len])
    }

    /// The attributes at a place, lent.
    #[inline(always)]
    fn attributes(&self, at: usize, count: usize) -> AttributesRef<'_>
        requires { at + count ≤ vec_len self.now.attributes }
        ensures { attributes result ≡ attributes_in self.now at count }
    {
        AttributesRef::new(&self.attributes[at..at + count])
    }

    /// A name, lent.
    pub(crate) fn name(&self, place: u32) -> &QualName
        requires { place < vec_len self.now.names }
        ensures { result.now ≡ name_in self.now place }
    {
        &self.names[place as usize]
    }

    /// What a node is that has this entry, lent. The contents of a template are the node after it.
    #[inline(always)]
    pub(crate) fn data<'a>(&'a self, entry: &'a Entry, id: NodeId) -> NodeData<'a>
        requires stored { IsStored self.now entry.now }
        requires number { id + 1 < 2 ^ 64 }
        ensures data { data_view result ≡ data_in self.now entry.now }
        ensures contents { contents_in result ≡ cond (template_of (data_in self.now entry.now)) (Some (id + 1)) None }
    {
        match entry {
            Entry::Document => NodeData::Document,
            Entry::Contents => NodeData::Contents,
            Entry::Doctype(parts) => NodeData::Doctype {
                name: TextRef::new(parts.name.as_str()),
                public_id: TextRef::new(parts.public_id.as_str()),
                system_id: TextRef::new(parts.system_id.as_str()),
            },
            Entry::Text { len, at } => NodeData::Text(self.characters(*at, *len as usize)),
            Entry::OwnText(text) => NodeData::Text(TextRef::new(text.as_str())),
            Entry::Comment { len, at } => NodeData::Comment(self.characters(*at, *len as usize)),
            Entry::OwnComment(text) => NodeData::Comment(TextRef::new(text.as_str())),
            Entry::ProcessingInstruction(parts) => NodeData::ProcessingInstruction {
                target: TextRef::new(parts.target.as_str()),
                text: TextRef::new(parts.text.as_str()),
            },
            Entry::Element {
                count,
                template,
                integration_point,
                name,
                at,
            } => NodeData::Element {
                name: self.name(*name),
                attrs: self.attributes(*at, *count as usize),
                template_contents: after_if(*template, id),
                integration_point: *integration_point,
            },
            Entry::OwnElement {
                template,
                integration_point,
                element,
            } => NodeData::Element {
                name: &element.name,
                attrs: AttributesRef::new(element.attrs.as_slice()),
                template_contents: after_if(*template, id),
                integration_point: *integration_point,
            },
        }
    }

    /// Keeps characters.
    fn put_characters(&mut self, text: &str) -> Result<usize, ParseFault>
        ensures grown { IsGrown self.old self.new }
        ensures range { IfOk result (λ at. IsRange (string_bytes self.new.texts) at (length text.now)) }
        ensures ok { IfOk result (λ at. text_in self.new at (length text.now) ≡ chars text.now) }
        ensures fault { IfErr result (λ fault. fault ≡ Memory) }
    {
        let at = self.texts.as_str().len();
        self.texts.push_str(text)?;
        Ok(at)
    }

    /// The entry of a text.
    pub(crate) fn text(&mut self, text: Text) -> Result<Entry, ParseFault>
        ensures grown { IsGrown self.old self.new }
        ensures made { IfOk result (λ entry. IsMade self.new entry (TextNode text)) }
        ensures fault { IfErr result (λ fault. fault ≡ Memory) }
    {
        let len = text.as_str().len();
        if len > MOST {
            return Ok(Entry::OwnText(boxed(self.allocator(), text)?));
        }
        let at = self.put_characters(text.as_str())?;
        Ok(Entry::Text {
            len: len as u32,
            at,
        })
    }

    /// The entry of a comment.
    pub(crate) fn comment(&mut self, text: Text) -> Result<Entry, ParseFault>
        ensures grown { IsGrown self.old self.new }
        ensures made { IfOk result (λ entry. IsMade self.new entry (Comment text)) }
        ensures fault { IfErr result (λ fault. fault ≡ Memory) }
    {
        let len = text.as_str().len();
        if len > MOST {
            return Ok(Entry::OwnComment(boxed(self.allocator(), text)?));
        }
        let at = self.put_characters(text.as_str())?;
        Ok(Entry::Comment {
            len: len as u32,
            at,
        })
    }

    /// The entry of a processing instruction.
    pub(crate) fn instruction(&self, target: Text, text: Text) -> Result<Entry, ParseFault>
        ensures made { IfOk result (λ entry. IsMade self.now entry (ProcessingInstruction target text)) }
        ensures fault { IfErr result (λ fault. fault ≡ Memory) }
    {
        let parts = Instruction { target, text };
        Ok(Entry::ProcessingInstruction(boxed(self.allocator(), parts)?))
    }

    /// The entry of a doctype.
    pub(crate) fn doctype(
        &self,
        name: Text,
        public_id: Text,
        system_id: Text,
    ) -> Result<Entry, ParseFault>
        ensures made { IfOk result (λ entry. IsMade self.now entry (DoctypeNode name public_id system_id)) }
        ensures fault { IfErr result (λ fault. fault ≡ Memory) }
    {
        let parts = Doctype {
            name,
            public_id,
            system_id,
        };
        Ok(Entry::Doctype(boxed(self.allocator(), parts)?))
    }

    /// The entry of an element that has its name and attributes for itself.
    fn own_element(
        &self,
        name: QualName,
        attrs: Attributes,
        flags: ElementFlags,
    ) -> Result<Entry, ParseFault>
        ensures made { IfOk result
            (λ entry. IsMade self.now entry (Element name attrs flags.template flags.mathml_annotation_xml_integration_point)) }
        ensures fault { IfErr result (λ fault. fault ≡ Memory) }
    {
        let element = boxed(self.allocator(), OwnElement { name, attrs })?;
        Ok(Entry::OwnElement {
            template: flags.template,
            integration_point: flags.mathml_annotation_xml_integration_point,
            element,
        })
    }

    /// The entry of an element of a name that is in the store.
    fn named_element(
        &mut self,
        name: u32,
        attrs: Attributes,
        flags: ElementFlags,
    ) -> Result<Entry, ParseFault>
        requires name { name < vec_len self.old.names }
        requires few { length attrs ≤ 16 }
        ensures grown { IsGrown self.old self.new }
        ensures made { IfOk result
            (λ entry. IsMade self.new entry
            (Element (name_in self.old name) attrs flags.template flags.mathml_annotation_xml_integration_point)) }
        ensures fault { IfErr result (λ fault. fault ≡ Memory) }
    {
        let at = self.attributes.len();
        let mut list = attrs.into_vec();
        let count = list.len() as u8;
        self.attributes.append(&mut list)?;
        Ok(Entry::Element {
            count,
            template: flags.template,
            integration_point: flags.mathml_annotation_xml_integration_point,
            name,
            at,
        })
    }

    /// Keeps a name, which there are not too many of.
    fn put_name(&mut self, name: QualName, slot: usize) -> Result<u32, ParseFault>
        requires room { vec_len self.old.names ≤ 4294967295 }
        requires slot { slot ≤ 1020 }
        ensures grown { IsGrown self.old self.new }
        ensures there { IfOk result (λ place. place < vec_len self.new.names) }
        ensures ok { IfOk result (λ place. name_in self.new place ≡ name) }
        ensures fault { IfErr result (λ fault. fault ≡ Memory) }
    {
        let place = self.names.len() as u32;
        self.names.push(name)?;
        names::note(&mut self.recent, slot, place);
        Ok(place)
    }

    /// The entry of an element.
    pub(crate) fn element(
        &mut self,
        name: QualName,
        attrs: Attributes,
        flags: ElementFlags,
    ) -> Result<Entry, ParseFault>
        ensures grown { IsGrown self.old self.new }
        ensures made { IfOk result
            (λ entry. IsMade self.new entry (Element name attrs flags.template flags.mathml_annotation_xml_integration_point)) }
        ensures fault { IfErr result (λ fault. fault ≡ Memory) }
    {
        if attrs.len() > FEW || self.names.len() > MOST {
            return self.own_element(name, attrs, flags);
        }
        let slot = names::slot(&name);
        match names::find(&self.names, &self.recent, &name, slot) {
            Some(place) => self.named_element(place, attrs, flags),
            None => {
                let place = self.put_name(name, slot)?;
                self.named_element(place, attrs, flags)
            }
        }
    }

    /// The place of the name of an HTML element, if it is a known name and came before.
    fn find_html(&self, name: &LocalName) -> Option<u32>
        ensures { IfSome result (λ place. IsNameAt self.now.names.items place (html_name name.now)) }
    {
        let slot = names::html_slot(name)?;
        names::find_html(&self.names, &self.recent, name, slot)
    }

    /// The entry of an element of HTML.
    pub(crate) fn html_element(
        &mut self,
        name: LocalName,
        attrs: Attributes,
        flags: ElementFlags,
    ) -> Result<Entry, ParseFault>
        ensures grown { IsGrown self.old self.new }
        ensures made { IfOk result
            (λ entry. IsMade self.new entry (Element (html_name name) attrs flags.template flags.mathml_annotation_xml_integration_point)) }
        ensures fault { IfErr result (λ fault. fault ≡ Memory) }
    {
        if attrs.len() <= FEW {
            if let Some(place) = self.find_html(&name) {
                return self.named_element(place, attrs, flags);
            }
        }
        self.new_html_element(name, attrs, flags)
    }

    /// The entry of an element of HTML whose name is looked for among all.
    #[inline(never)]
    #[tactic(auto, unfolding(markup::specs::Names::html_namespace, markup::specs::Namespaces::name_of))]
    fn new_html_element(
        &mut self,
        name: LocalName,
        attrs: Attributes,
        flags: ElementFlags,
    ) -> Result<Entry, ParseFault>
        ensures grown { IsGrown self.old self.new }
        ensures made { IfOk result
            (λ entry. IsMade self.new entry (Element (html_name name) attrs flags.template flags.mathml_annotation_xml_integration_point)) }
        ensures fault { IfErr result (λ fault. fault ≡ Memory) }
    {
        let slot = names::html_slot(&name);
        let html = Namespace::from_known(KnownNamespace::Html);
        let entry = self.element(QualName::new(None, html, name), attrs, flags)?;
        if let (Some(slot), Some(place)) = (slot, entry.name()) {
            names::note_html(&mut self.recent, slot, place);
        }
        Ok(entry)
    }

    /// The entry of a text with more at its end: where it is if it is the last, and else for itself.
    pub(crate) fn joined(&mut self, len: u32, at: usize, more: &Text) -> Result<Entry, ParseFault>
        requires { IsRange (string_bytes self.old.texts) at len }
        ensures grown { IsGrown self.old self.new }
        ensures made { IfOk result (λ entry. IsMade self.new entry (TextNode (text_in self.old at len ++ more.now))) }
        ensures fault { IfErr result (λ fault. fault ≡ Memory) }
    {
        let len = len as usize;
        let more_len = more.as_str().len();
        if at + len == self.texts.as_str().len() && more_len <= MOST - len {
            self.texts.push_str(more.as_str())?;
            return Ok(Entry::Text {
                len: (len + more_len) as u32,
                at,
            });
        }
        self.moved(len, at, more)
    }

    /// The entry of a text for itself, with more at its end.
    fn moved(&self, len: usize, at: usize, more: &Text) -> Result<Entry, ParseFault>
        requires { IsRange (string_bytes self.now.texts) at len }
        ensures made { IfOk result (λ entry. IsMade self.now entry (TextNode (text_in self.now at len ++ more.now))) }
        ensures fault { IfErr result (λ fault. fault ≡ Memory) }
    {
        let mut text = Text::from_str(self.allocator(), self.characters(at, len).as_str())?;
        text.append(more)?;
        Ok(Entry::OwnText(boxed(self.allocator(), text)?))
    }

    /// The name and the attributes of an element for itself, with those of others whose name it lacks.
    pub(crate) fn own(
        &self,
        name: u32,
        at: usize,
        count: u8,
        others: Attributes,
    ) -> Result<Box<OwnElement>, ParseFault>
        requires name { name < vec_len self.now.names }
        requires attributes { at + count ≤ vec_len self.now.attributes }
        ensures name { IfOk result (λ own. own.value.name ≡ name_in self.now name) }
        ensures attributes { IfOk result (λ own. own.value.attrs ≡ with_missing (attributes_in self.now at count) others) }
        ensures fault { IfErr result (λ fault. fault ≡ Memory) }
    {
        let alloc = self.allocator();
        let mut attrs = copied(alloc, self.attributes(at, count as usize).as_slice())?;
        attrs.add_missing(others)?;
        let name = self.name(name).copy(alloc)?;
        boxed(alloc, OwnElement { name, attrs })
    }
}

// The node after a template.
fn after_if(template: bool, id: NodeId) -> Option<NodeId>
    requires { id + 1 < 2 ^ 64 }
    ensures { result ≡ cond template (Some (id + 1)) None }
{
    if template {
        Some(NodeId::new(id.number() + 1))
    } else {
        None
    }
}
