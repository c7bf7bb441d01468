//! Which rules take a token ("tree construction dispatcher", HTML Standard, section 13.2.6).
ghost use Rattle.std.specs.Prelude.{◌≡◌, IfSome};
ghost use Rattle.markup.specs.Forest.{IsNode};
ghost use Rattle.markup.specs.TreeLaws.{with_errors};
ghost use Rattle.html_tokens.specs.declared.token.Token.{Token};
ghost use Rattle.html_rules.specs.ForeignContent.{is_foreign};
ghost use Rattle.html_rules.specs.State.{State, adjusted_by};
ghost use Rattle.html_rules_laws.specs.Soundness.{AreOpened};
ghost use Rattle.html_stack.specs.Answering.{answers_of};
ghost use Rattle.html_stack.specs.Dispatching.{HasShape, IsShaped, is_foreign_for, is_html_for};
ghost use Rattle.html_stack.specs.Inserting.{context_of};
ghost use Rattle.html_stack.specs.Stacks.{open_of, opens_of};

use crate::entries::OpenElement;
use crate::foreign::adjusted;
use crate::stack::Stack;
use html_names::ElementClass;
use html_rules::TagSet;
use markup::{LocalName, TreeSink};

/// What decides of a token which rules take it.
#[derive(Clone, Copy)]
pub enum TokenShape<'a> {
    /// Text, or U+0000.
    Text,
    /// A start tag, with its name and the class of that.
    StartTag(ElementClass, &'a LocalName),
    /// The end of the input.
    EndOfFile,
    /// Any other.
    Other,
}

/// Whether a token goes by HTML's rules in an element, even if that is none of HTML's: text and tags where text or HTML may stand. Of
/// MathML's `annotation-xml` the sink is asked.
fn is_html_for<Sink: TreeSink>(
    sink: &Sink,
    element: &OpenElement<Sink::Handle>,
    shape: TokenShape<'_>,
) -> bool
    requires shape { IsShaped shape }
    requires node { IsNode (Sink.forest sink.now) (Sink.node element.now.handle) }
    ensures { result ≡ is_html_for (Sink.integration_point (with_errors 0 (Sink.forest sink.now))
        (Sink.node element.now.handle)) (open_of Sink.node element.now) shape.entry }
{
    match shape {
        TokenShape::Text => {
            element.name.is_in(TagSet::MathmlTextIntegrationPoint)
                || element.name.is_in(TagSet::SvgHtmlIntegrationPoint)
                || element.name.is_in(TagSet::AnnotationXml)
                    && sink.is_mathml_annotation_xml_integration_point(&element.handle)
        }
        TokenShape::StartTag(class, _) => {
            element.name.is_in(TagSet::MathmlTextIntegrationPoint)
                && !class.is_in(TagSet::MglyphMalignmark)
                || element.name.is_in(TagSet::SvgHtmlIntegrationPoint)
                || element.name.is_in(TagSet::AnnotationXml)
                    && (class.is_in(TagSet::Svg)
                        || sink.is_mathml_annotation_xml_integration_point(&element.handle))
        }
        TokenShape::EndOfFile => true,
        TokenShape::Other => false,
    }
}

/// Whether the rules of foreign content hold for a token, by the adjusted current node.
fn is_foreign_for<Sink: TreeSink>(
    sink: &Sink,
    elements: &[OpenElement<Sink::Handle>],
    context: Option<&OpenElement<Sink::Handle>>,
    shape: TokenShape<'_>,
) -> bool
    requires shape { IsShaped shape }
    requires opened { AreOpened (Sink.forest sink.now) (opens_of Sink.node elements.now) }
    requires context { IfSome (context_of Sink.node context) (λ x. IsNode (Sink.forest sink.now) x.number) }
    ensures { result ≡ is_foreign_for (Sink.integration_point (with_errors 0 (Sink.forest sink.now)))
        (adjusted_by (context_of Sink.node context.entry) (opens_of Sink.node elements.now)) shape.entry }
{
    match adjusted(elements, context) {
        None => false,
        Some(node) => !node.name.is_html() && !is_html_for(sink, node, shape),
    }
}

impl<Sink: TreeSink> Stack<Sink> {
    /// Whether the rules of foreign content hold for a token of that shape; the context is that of a fragment. It costs the same however
    /// many elements are open.
    pub fn is_foreign(
        &self,
        sink: &Sink,
        context: Option<&OpenElement<Sink::Handle>>,
        shape: TokenShape<'_>,
    ) -> bool
        requires shape { IsShaped shape }
        requires opened { AreOpened (Sink.forest sink.now) self.now.open_elems }
        requires context { IfSome (context_of Sink.node context) (λ x. IsNode (Sink.forest sink.now) x.number) }
        ensures { (s : State) (t : Token) → s.forest ≡ Sink.forest sink.now → s.open_elems ≡ self.now.open_elems
            → s.context_elem ≡ context_of Sink.node context.entry → s.answers ≡ answers_of Sink.integration_point
            Sink.allows_shadow_roots Sink.attaches_shadow → HasShape t shape.entry → result ≡ is_foreign s t }
    {
        is_foreign_for(sink, self.open_elems(), context, shape)
    }
}
