//! Actions that put an element.
ghost use Rattle.std.specs.Prelude.{◌≡◌, IfErr, IfOk, None, codes};
ghost use Rattle.std.specs.List.{list_any};
ghost use Rattle.markup.specs.declared.fault.ParseFault.TheVariants.{Memory};
ghost use Rattle.html_rules.specs.Choice.{choose};
ghost use Rattle.html_rules.specs.Conditions.{is_nonempty};
ghost use Rattle.html_rules.specs.Names as named;
ghost use Rattle.html_rules.specs.Names.{Html};
ghost use Rattle.html_rules.specs.Renames.{adjust_attributes};
ghost use Rattle.html_rules.specs.Table as table;
ghost use Rattle.html_rules.specs.Tokens.{is_shadow_mode};
ghost use Rattle.html_modes.specs.Tables.{namespace_of};
ghost use Rattle.html_faithful.specs.Harmless.{does, opens, provided};
ghost use Rattle.html_faithful_judge.specs.Mades.{made_as};
ghost use Rattle.html_faithful_judge.specs.Tokens.{IsStart, token_of};

use crate::made::{Change, Made, Put};
use crate::tokens::{Content, NamedToken};
use html_modes::Foreign;
use html_names::{ElementNamespace, adjust_attributes, adjust_tag_name};
use html_tokens::{Tag, TagKind};
use markup::{Attribute, Attributes, KnownNamespace, LocalName, Namespace, ParseFault};
use std::alloc::Global;

/// Whether an attribute asks for a shadow root.
fn is_shadow_mode(attribute: &Attribute) -> bool
    ensures { result ≡ is_shadow_mode attribute.now }
{
    attribute.name.local.is("shadowrootmode")
        && (attribute.value.is("open") || attribute.value.is("closed"))
}

/// Whether one of a tag's attributes asks for a shadow root.
fn asks_shadow_root(tag: &Tag) -> bool
    ensures { result ≡ list_any is_shadow_mode tag.now.attrs }
{
    tag.attrs.as_slice().iter().any(|a| is_shadow_mode(a))
}

/// The namespace of `math` or `svg`.
#[tactic(auto, unfolding(markup::specs::Names::html_namespace, markup::specs::Namespaces::name_of, html_rules::specs::Names::mathml_namespace, html_rules::specs::Names::svg_namespace))]
fn foreign_namespace(namespace: Foreign) -> Namespace
    ensures { named.namespace_of result ≡ namespace_of namespace }
{
    match namespace {
        Foreign::MathMl => Namespace::from_known(KnownNamespace::MathMl),
        Foreign::Svg => Namespace::from_known(KnownNamespace::Svg),
    }
}

/// The namespace of HTML.
#[tactic(auto, unfolding(markup::specs::Names::html_namespace, markup::specs::Namespaces::name_of, html_rules::specs::Names::mathml_namespace, html_rules::specs::Names::svg_namespace))]
pub(crate) fn html_namespace() -> Namespace
    ensures { named.namespace_of result ≡ Html }
{
    Namespace::from_known(KnownNamespace::Html)
}

/// The name `html`.
fn html_name(alloc: Global) -> Result<LocalName, ParseFault>
    ensures ok { IfOk result (λ name. name ≡ codes "html") }
    ensures fault { IfErr result (λ fault. fault ≡ Memory) }
{
    LocalName::from_str(alloc, "html")
}

impl<'a> NamedToken<'a> {
    /// The tag, where it is a start tag that does not close itself.
    fn start_tag(&self) -> Option<&'a Tag>
        ensures { IsStart (token_of self.now.content) result }
    {
        match self.content {
            Content::Tag(tag) => {
                if tag.kind == TagKind::EndTag || tag.self_closing {
                    None
                } else {
                    Some(tag)
                }
            }
            _ => None,
        }
    }
}

impl Made {
    /// The root is put for a tag, where nothing is open.
    fn opens_root(&mut self, alloc: Global, tag: &Tag) -> Result<bool, ParseFault>
        ensures ok { IfOk result (λ goes_on. choose (is_nonempty (made_as self.old).spot.path) (λ _. None)
            (λ _. opens Html (codes "html") tag.now.attrs (made_as self.old)) ≡ provided goes_on (made_as self.new)) }
        ensures fault { IfErr result (λ fault. fault ≡ Memory) }
    {
        if self.spot.is_any_open() {
            return Ok(false);
        }
        let name = html_name(alloc)?;
        let attributes = tag.attrs.copy(alloc)?;
        self.opens(alloc, html_namespace(), name, attributes)
    }

    /// The root is put for a token, where nothing is open.
    pub(crate) fn create_root(
        &mut self,
        alloc: Global,
        token: &NamedToken<'_>,
    ) -> Result<bool, ParseFault>
        ensures ok { IfOk result (λ goes_on. does table.CreateRoot (token_of token.now.content) (made_as self.old)
            ≡ provided goes_on (made_as self.new)) }
        ensures fault { IfErr result (λ fault. fault ≡ Memory) }
    {
        match token.start_tag() {
            Some(tag) => self.opens_root(alloc, tag),
            None => Ok(false),
        }
    }

    /// An HTML element is put for a tag, and opened.
    fn opens_html(&mut self, alloc: Global, tag: &Tag) -> Result<bool, ParseFault>
        ensures ok { IfOk result (λ goes_on. opens Html tag.now.name tag.now.attrs (made_as self.old)
            ≡ provided goes_on (made_as self.new)) }
        ensures fault { IfErr result (λ fault. fault ≡ Memory) }
    {
        let name = tag.name.copy(alloc)?;
        let attributes = tag.attrs.copy(alloc)?;
        self.opens(alloc, html_namespace(), name, attributes)
    }

    /// An element is put for a token, and opened.
    pub(crate) fn insert_element(
        &mut self,
        alloc: Global,
        token: &NamedToken<'_>,
    ) -> Result<bool, ParseFault>
        ensures ok { IfOk result (λ goes_on. does table.InsertElement (token_of token.now.content) (made_as self.old)
            ≡ provided goes_on (made_as self.new)) }
        ensures fault { IfErr result (λ fault. fault ≡ Memory) }
    {
        match token.start_tag() {
            Some(tag) => self.opens_html(alloc, tag),
            None => Ok(false),
        }
    }

    /// The same, and it is listed.
    pub(crate) fn insert_formatting(
        &mut self,
        alloc: Global,
        token: &NamedToken<'_>,
    ) -> Result<bool, ParseFault>
        ensures ok { IfOk result (λ goes_on. does table.InsertFormatting (token_of token.now.content) (made_as self.old)
            ≡ provided goes_on (made_as self.new)) }
        ensures fault { IfErr result (λ fault. fault ≡ Memory) }
    {
        match token.start_tag() {
            Some(tag) => Ok(self.opens_html(alloc, tag)? && self.changes(Change::EntryPushed)),
            None => Ok(false),
        }
    }

    /// A template is put for a token that asks for no shadow root, and opened.
    pub(crate) fn insert_template(
        &mut self,
        alloc: Global,
        token: &NamedToken<'_>,
    ) -> Result<bool, ParseFault>
        ensures ok { IfOk result (λ goes_on. does table.InsertTemplate (token_of token.now.content) (made_as self.old)
            ≡ provided goes_on (made_as self.new)) }
        ensures fault { IfErr result (λ fault. fault ≡ Memory) }
    {
        match token.start_tag() {
            Some(tag) => {
                if asks_shadow_root(tag) {
                    return Ok(false);
                }
                self.opens_html(alloc, tag)
            }
            None => Ok(false),
        }
    }

    /// An element is put for a token, and is not opened.
    pub(crate) fn insert_void(
        &mut self,
        alloc: Global,
        token: &NamedToken<'_>,
    ) -> Result<bool, ParseFault>
        ensures ok { IfOk result (λ goes_on. does table.InsertVoid (token_of token.now.content) (made_as self.old)
            ≡ provided goes_on (made_as self.new)) }
        ensures fault { IfErr result (λ fault. fault ≡ Memory) }
    {
        match token.start_tag() {
            Some(tag) => {
                let name = tag.name.copy(alloc)?;
                let attributes = tag.attrs.copy(alloc)?;
                Ok(self.puts(Put::Element {
                    namespace: html_namespace(),
                    name,
                    attributes,
                    opened: false,
                }))
            }
            None => Ok(false),
        }
    }

    /// `math` or `svg` is put for a token, and opened.
    pub(crate) fn enter_foreign(
        &mut self,
        alloc: Global,
        namespace: Foreign,
        token: &NamedToken<'_>,
    ) -> Result<bool, ParseFault>
        ensures ok { IfOk result (λ goes_on. does (table.EnterForeign (namespace_of namespace)) (token_of token.now.content)
            (made_as self.old) ≡ provided goes_on (made_as self.new)) }
        ensures fault { IfErr result (λ fault. fault ≡ Memory) }
    {
        match token.start_tag() {
            Some(tag) => {
                let name = tag.name.copy(alloc)?;
                self.opens_foreign(alloc, foreign_namespace(namespace), name, tag)
            }
            None => Ok(false),
        }
    }

    /// An element of a namespace is put for a tag, with its attributes adjusted, and opened.
    fn opens_foreign(
        &mut self,
        alloc: Global,
        namespace: Namespace,
        name: LocalName,
        tag: &Tag,
    ) -> Result<bool, ParseFault>
        ensures ok { IfOk result (λ goes_on. opens (named.namespace_of namespace) name
            (adjust_attributes (named.namespace_of namespace) tag.now.attrs)
            (made_as self.old) ≡ provided goes_on (made_as self.new)) }
        ensures fault { IfErr result (λ fault. fault ≡ Memory) }
    {
        let kind = ElementNamespace::of(&namespace);
        let attributes = adjust_attributes(alloc, kind, tag.attrs.copy(alloc)?)?;
        self.opens(alloc, namespace, name, attributes)
    }

    /// An element is put for a token in the namespace of the current node, and opened.
    pub(crate) fn insert_foreign(
        &mut self,
        alloc: Global,
        token: &NamedToken<'_>,
    ) -> Result<bool, ParseFault>
        ensures ok { IfOk result (λ goes_on. does table.InsertForeign (token_of token.now.content) (made_as self.old)
            ≡ provided goes_on (made_as self.new)) }
        ensures fault { IfErr result (λ fault. fault ≡ Memory) }
    {
        match (token.start_tag(), self.spot.as_stack().open_elems().last()) {
            (Some(tag), Some(node)) => {
                let namespace = node.name.namespace(alloc)?;
                let name = adjust_tag_name(alloc, node.name.kind(), tag.name.copy(alloc)?)?;
                self.opens_foreign(alloc, namespace, name, tag)
            }
            _ => Ok(false),
        }
    }
}
