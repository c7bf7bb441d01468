//! New elements, with what is known of them by their names (HTML Standard, section 13.2.6.1).
ghost use Rattle.std.specs.Prelude.{◌≡◌, ℕ, List, false, IfErr, OnErr, OnOk};
ghost use Rattle.std.specs.List.{list_any};
ghost use Rattle.markup.specs.Forest.{create_element};
ghost use Rattle.markup.specs.declared.fault.ParseFault.TheVariants.{Memory};
ghost use Rattle.html_names.specs.Classes.{IsClassOf};
ghost use Rattle.html_rules.specs.Names.{Namespace, encodes_html, flags_of, namespace_of};
ghost use Rattle.html_stack.specs.Inserting.{MakesNext};

use html_names::{ElementClass, equals_any_case};
use html_rules::TagSet;
use markup::{Attribute, Attributes, ElementFlags, KnownNamespace, ParseFault, QualName, TreeSink};

/// Whether an attribute says that HTML stands in the element.
#[tactic(auto, unfolding(markup::specs::Namespaces::name_of))]
fn encodes_html(attribute: &Attribute) -> bool
    ensures { result ≡ encodes_html attribute.now }
{
    attribute.name.ns.is_known(KnownNamespace::NoNamespace)
        && attribute.name.local.is("encoding")
        && (equals_any_case(attribute.value.as_str(), "text/html")
            || equals_any_case(attribute.value.as_str(), "application/xhtml+xml"))
}

/// Whether one of the attributes says that HTML stands in the element.
#[inline(never)]
fn encode_html(attributes: &[Attribute]) -> bool
    ensures { result ≡ list_any encodes_html attributes.now }
{
    attributes.iter().any(|attribute| encodes_html(attribute))
}

/// What is told of a new element of a class.
#[inline(always)]
pub(crate) fn flags_of(
    class: ElementClass,
    attributes: &[Attribute],
    had_duplicate_attributes: bool,
) -> ElementFlags
    ensures { (namespace : Namespace) (name : List ℕ) → IsClassOf namespace name class
        → result ≡ flags_of namespace name attributes.now had_duplicate_attributes }
{
    ElementFlags {
        template: class.is_in(TagSet::Template),
        mathml_annotation_xml_integration_point: class.is_in(TagSet::AnnotationXml)
            && encode_html(attributes),
        had_duplicate_attributes,
    }
}

/// A new element, which stands nowhere yet. Its flags follow from its name: whether it is a template, and whether HTML may stand in it
/// though it is MathML's `annotation-xml` (HTML Standard, section 13.2.6). The name is looked up once. On [`ParseFault::Memory`], the only
/// fault, the tree is as it was.
pub fn create_element<Sink: TreeSink>(
    sink: &mut Sink,
    name: QualName,
    attributes: Attributes,
) -> Result<Sink::Handle, ParseFault>
    ensures named { MakesNext Sink.node (Sink.forest sink.old) result }
    ensures ok { OnOk result (Sink.forest sink.new ≡ create_element (Sink.forest sink.old) name attributes
        (flags_of (namespace_of name.ns) name.local attributes false)) }
    ensures err { OnErr result (Sink.forest sink.new ≡ Sink.forest sink.old) }
    ensures fault { IfErr result (λ fault. fault ≡ Memory) }
{
    create_element_with_flags(sink, name, attributes, false)
}

/// The same, for a tag that may have named an attribute twice.
pub fn create_element_with_flags<Sink: TreeSink>(
    sink: &mut Sink,
    name: QualName,
    attributes: Attributes,
    had_duplicate_attributes: bool,
) -> Result<Sink::Handle, ParseFault>
    ensures named { MakesNext Sink.node (Sink.forest sink.old) result }
    ensures ok { OnOk result (Sink.forest sink.new ≡ create_element (Sink.forest sink.old) name attributes
        (flags_of (namespace_of name.ns) name.local attributes had_duplicate_attributes)) }
    ensures err { OnErr result (Sink.forest sink.new ≡ Sink.forest sink.old) }
    ensures fault { IfErr result (λ fault. fault ≡ Memory) }
{
    let class = ElementClass::named(&name.ns, &name.local);
    let flags = flags_of(class, attributes.as_slice(), had_duplicate_attributes);
    sink.create_element(name, attributes, flags)
}
