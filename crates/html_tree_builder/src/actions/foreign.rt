//! Elements of foreign content, and templates (HTML Standard, sections 13.2.6.4.4 and 13.2.6.5).
ghost use Rattle.std.specs.Prelude.{◌≡◌, IfErr, OnOk};
ghost use Rattle.markup.specs.declared.fault.ParseFault.TheVariants.{Memory};
ghost use Rattle.html_modes.specs.Tables.{namespace_of};
ghost use Rattle.html_rules.specs.Actions.{for_tag};
ghost use Rattle.html_rules.specs.ForeignContent.{close_foreign, enter_foreign, foreign_start, is_foreign, pop_foreign};
ghost use Rattle.html_rules.specs.Names as names;
ghost use Rattle.html_rules.specs.Templates.{insert_template};
ghost use Rattle.html_stack.specs.Dispatching.{HasShape, IsShaped};
ghost use Rattle.html_tree_builder.specs.States.{built, Changes, Performs, Stands};
ghost use Rattle.html_tree_builder.specs.Told.{IsTold, token_of};

use crate::construction::{Construction, lent};
use crate::told::{Content, NamedToken};
use html_modes::Foreign;
use html_stack::TokenShape;
use html_tokens::{Tag, TagKind};
use markup::{KnownNamespace, LocalName, Namespace, ParseFault, TreeSink};

/// The namespace.
#[tactic(auto, unfolding(markup::specs::Namespaces::name_of, markup::specs::Names::html_namespace, html_rules::specs::Names::mathml_namespace, html_rules::specs::Names::svg_namespace))]
fn own_namespace(namespace: Foreign) -> Namespace
    ensures { names.namespace_of result ≡ namespace_of namespace }
{
    match namespace {
        Foreign::MathMl => Namespace::from_known(KnownNamespace::MathMl),
        Foreign::Svg => Namespace::from_known(KnownNamespace::Svg),
    }
}

impl<'a> NamedToken<'a> {
    /// What decides which rules take it.
    fn shape(&self) -> TokenShape<'a>
        requires { IsTold self.now }
        ensures shaped { IsShaped result }
        ensures shape { HasShape (token_of self.now.content) result }
    {
        match self.content {
            Content::Tag(tag) => match tag.kind {
                TagKind::StartTag => TokenShape::StartTag(self.class, self.name),
                TagKind::EndTag => TokenShape::Other,
            },
            Content::Characters(_) => TokenShape::Text,
            Content::Null => TokenShape::Text,
            Content::Comment(_) => TokenShape::Other,
            Content::Doctype(_) => TokenShape::Other,
            Content::EndOfFile => TokenShape::EndOfFile,
        }
    }
}

impl<Sink: TreeSink> Construction<Sink> {
    /// Whether the rules of foreign content hold for a token.
    pub(crate) fn is_foreign(&self, sink: &Sink, told: &NamedToken<'_>) -> bool
        requires told { IsTold told.now }
        requires stands { Stands (Sink.forest sink.now) self.now }
        ensures { result ≡ is_foreign (built Sink.TreeSink self.now (Sink.forest sink.now)) (token_of told.now.content) }
    {
        self.stack
            .is_foreign(sink, lent(&self.context_elem), told.shape())
    }

    /// A template is inserted for a tag, or becomes a shadow root.
    #[inline(never)]
    pub(crate) fn insert_template(
        &mut self,
        sink: &mut Sink,
        told: &NamedToken<'_>,
    ) -> Result<(), ParseFault>
        requires told { IsTold told.now }
        requires stands { Stands (Sink.forest sink.old) self.old }
        ensures ok { OnOk result (built Sink.TreeSink self.new (Sink.forest sink.new) ≡ for_tag insert_template
            (token_of told.now.content) (built Sink.TreeSink self.old (Sink.forest sink.old))) }
        ensures fault { IfErr result (λ fault. fault ≡ Memory) }
    {
        let Content::Tag(tag) = told.content else {
            return Ok(());
        };
        let tag = tag.copy(self.alloc)?;
        self.stack.insert_template(
            sink,
            lent(&self.context_elem),
            told.class,
            tag,
            self.foster_parenting,
            self.form_elem,
        )?;
        Ok(())
    }

    /// The elements leave that an end tag closes, if it closes any.
    pub(crate) fn close_foreign(&mut self, name: &LocalName)
        ensures { Changes (close_foreign name.now) self.old self.new }
    {
        self.stack.close_foreign(name);
    }

    /// A `math` or an `svg` element is inserted for a tag.
    #[inline(never)]
    pub(crate) fn enter_foreign(
        &mut self,
        sink: &mut Sink,
        namespace: Foreign,
        told: &NamedToken<'_>,
    ) -> Result<(), ParseFault>
        requires stands { Stands (Sink.forest sink.old) self.old }
        ensures ok { OnOk result (Performs
            (for_tag (enter_foreign (namespace_of namespace)) (token_of told.now.content)) self.old self.new
            (Sink.forest sink.old) (Sink.forest sink.new)) }
        ensures fault { IfErr result (λ fault. fault ≡ Memory) }
    {
        let Content::Tag(tag) = told.content else {
            return Ok(());
        };
        let tag = tag.copy(self.alloc)?;
        self.stack.enter_foreign(
            sink,
            own_namespace(namespace),
            tag,
            self.foster_parenting,
            self.form_elem,
        )?;
        Ok(())
    }

    /// An element is inserted in the namespace of the adjusted current node.
    #[inline(never)]
    pub(crate) fn insert_foreign(&mut self, sink: &mut Sink, tag: Tag) -> Result<(), ParseFault>
        requires stands { Stands (Sink.forest sink.old) self.old }
        ensures ok { OnOk result (Performs (foreign_start tag) self.old self.new (Sink.forest sink.old) (Sink.forest sink.new)) }
        ensures fault { IfErr result (λ fault. fault ≡ Memory) }
    {
        self.stack.foreign_start(
            sink,
            lent(&self.context_elem),
            tag,
            self.foster_parenting,
            self.form_elem,
        )?;
        Ok(())
    }

    /// Elements are popped until foreign content ends.
    #[tactic(auto, unfolding(html_rules::specs::ForeignContent::pop_foreign, html_rules::specs::Stack::pop_until_current))]
    pub(crate) fn pop_foreign(&mut self, sink: &mut Sink)
        requires stands { Stands (Sink.forest sink.old) self.old }
        ensures { built Sink.TreeSink self.new (Sink.forest sink.new) ≡ pop_foreign (built Sink.TreeSink self.old (Sink.forest sink.old)) }
    {
        self.stack.pop_foreign(sink);
    }
}
