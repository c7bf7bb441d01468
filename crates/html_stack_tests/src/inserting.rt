//! Elements, text and comments that are put into a forest.
ghost use Rattle.std.specs.Prelude.{IfOk};
ghost use Rattle.html_rules_laws.specs.Soundness.{IsStanding};

use html_forest::{Forest, ForestNode};
use html_rules::Rules;
use html_serialize::{SerializeOpts, serialize};
use html_stack::{ElementClass, NewElement, Stack, TagSet};
use html_tokens::{Doctype, Tag, TagKind};
use markup::devices::MemWriter;
use markup::{
    Attribute, Attributes, KnownNamespace, LocalName, Namespace, ParseFault, QualName, Text,
    TreeSink,
};
use std::alloc::Global;

// A call of the stack.
#[derive(Clone, Copy)]
pub(crate) enum Call<'a> {
    // The element of a tag, opened.
    Element(&'a str),
    // The same with foster parenting.
    Fostered(&'a str),
    // The same, not opened.
    Void(&'a str),
    // An element without a tag.
    Phantom(&'a str),
    // An element that is put nowhere.
    Loose(&'a str),
    // Text; with foster parenting.
    Text(&'a str),
    FosteredText(&'a str),
    // Comments: at the appropriate place, in the document, in the root.
    Comment(&'a str),
    ToDocument(&'a str),
    ToRoot(&'a str),
    // The doctype.
    Doctype(&'a str),
    // An element of SVG, with an attribute; one that closes itself; one in foreign content.
    Svg(&'a str),
    ClosedSvg(&'a str),
    Foreign(&'a str),
    // A template with this mode of a shadow root.
    Template(&'a str),
    // Attributes for the root and for the body.
    RootAttribute(&'a str),
    BodyAttribute(&'a str),
    // The body leaves.
    RemoveBody,
    // Back to an element of a set.
    BackTo(TagSet),
}

// An attribute of this name and value.
pub(crate) fn attribute(alloc: Global, name: &str, value: &str) -> Result<Attributes, ParseFault> {
    let local = LocalName::from_str(alloc, name)?;
    let attribute = Attribute {
        name: QualName::new(None, Namespace::none(), local),
        value: Text::from_str(alloc, value)?,
    };
    let mut attrs = Attributes::new(alloc);
    attrs.push(attribute)?;
    Ok(attrs)
}

pub(crate) fn tag(alloc: Global, name: &str, attrs: Attributes) -> Result<Tag, ParseFault> {
    Ok(Tag {
        kind: TagKind::StartTag,
        name: LocalName::from_str(alloc, name)?,
        self_closing: false,
        attrs,
        had_duplicate_attributes: false,
    })
}

// The root is open.
pub(crate) fn started(alloc: Global) -> Result<(Forest, Stack<Forest>), ParseFault>
    ensures { IfOk result (λ made. IsStanding made.0 made.1.open_elems made.1.active_formatting) }
{
    let mut forest = Forest::new(alloc)?;
    let mut stack = Stack::new(alloc, Rules::Html5ever);
    stack.create_root(&mut forest, Attributes::new(alloc))?;
    Ok((forest, stack))
}

// An element of HTML.
pub(crate) fn insert(
    alloc: Global,
    forest: &mut Forest,
    stack: &mut Stack<Forest>,
    name: &str,
    foster: bool,
) -> Result<(), ParseFault>
    requires { IsStanding forest.old stack.old.open_elems stack.old.active_formatting }
    ensures { IsStanding forest.new stack.new.open_elems stack.new.active_formatting }
{
    let tag = tag(alloc, name, Attributes::new(alloc))?;
    let class = ElementClass::html(&tag.name);
    stack.insert_element_for(forest, class, tag, foster, None)?;
    Ok(())
}

// One that is not opened.
fn insert_void(
    alloc: Global,
    forest: &mut Forest,
    stack: &mut Stack<Forest>,
    name: &str,
) -> Result<(), ParseFault>
    requires { IsStanding forest.old stack.old.open_elems stack.old.active_formatting }
    ensures { IsStanding forest.new stack.new.open_elems stack.new.active_formatting }
{
    let tag = tag(alloc, name, Attributes::new(alloc))?;
    let class = ElementClass::html(&tag.name);
    stack.insert_and_pop_element_for(forest, class, tag, false, None)?;
    Ok(())
}

// One that no tag made.
fn insert_new(
    alloc: Global,
    forest: &mut Forest,
    stack: &mut Stack<Forest>,
    name: &str,
    is_put: bool,
) -> Result<(), ParseFault>
    requires { IsStanding forest.old stack.old.open_elems stack.old.active_formatting }
    ensures { IsStanding forest.new stack.new.open_elems stack.new.active_formatting }
{
    let name = LocalName::from_str(alloc, name)?;
    if is_put {
        stack.insert_phantom(forest, name, false, None)?;
    } else {
        let element = NewElement::html(name, Attributes::new(alloc));
        stack.open_element(forest, element)?;
    }
    Ok(())
}

// An element of foreign content; of SVG, or where one is open.
fn insert_foreign(
    alloc: Global,
    forest: &mut Forest,
    stack: &mut Stack<Forest>,
    name: &str,
    enters: bool,
    self_closing: bool,
) -> Result<(), ParseFault>
    requires { IsStanding forest.old stack.old.open_elems stack.old.active_formatting }
    ensures { IsStanding forest.new stack.new.open_elems stack.new.active_formatting }
{
    let mut tag = tag(alloc, name, attribute(alloc, "viewbox", "0")?)?;
    tag.self_closing = self_closing;
    if enters {
        let svg = Namespace::from_known(KnownNamespace::Svg);
        stack.enter_foreign(forest, svg, tag, false, None)
    } else {
        stack.foreign_start(forest, None, tag, false, None)
    }
}

// A template with this mode of a shadow root.
pub(crate) fn insert_template(
    alloc: Global,
    forest: &mut Forest,
    stack: &mut Stack<Forest>,
    mode: &str,
) -> Result<(), ParseFault>
    requires { IsStanding forest.old stack.old.open_elems stack.old.active_formatting }
    ensures { IsStanding forest.new stack.new.open_elems stack.new.active_formatting }
{
    let tag = tag(alloc, "template", attribute(alloc, "shadowrootmode", mode)?)?;
    let class = ElementClass::html(&tag.name);
    stack.insert_template(forest, None, class, tag, false, None)
}

// Back to an element of a set.
pub(crate) fn back_to(_forest: &Forest, stack: &mut Stack<Forest>, set: TagSet)
    requires { IsStanding _forest.now stack.old.open_elems stack.old.active_formatting }
    ensures { IsStanding _forest.now stack.new.open_elems stack.new.active_formatting }
{
    stack.pop_until_current(set);
}

// A doctype of this name.
fn put_doctype(
    alloc: Global,
    forest: &mut Forest,
    stack: &Stack<Forest>,
    name: &str,
) -> Result<(), ParseFault>
    requires { IsStanding forest.old stack.now.open_elems stack.now.active_formatting }
    ensures { IsStanding forest.new stack.now.open_elems stack.now.active_formatting }
{
    let doctype = Doctype {
        name: Some(Text::from_str(alloc, name)?),
        public_id: None,
        system_id: None,
        force_quirks: false,
    };
    stack.append_doctype_to_document(forest, doctype)
}

// One call.
pub(crate) fn make(
    alloc: Global,
    forest: &mut Forest,
    stack: &mut Stack<Forest>,
    call: Call<'_>,
) -> Result<(), ParseFault>
    requires { IsStanding forest.old stack.old.open_elems stack.old.active_formatting }
    ensures { IsStanding forest.new stack.new.open_elems stack.new.active_formatting }
{
    match call {
        Call::Element(name) => insert(alloc, forest, stack, name, false),
        Call::Fostered(name) => insert(alloc, forest, stack, name, true),
        Call::Void(name) => insert_void(alloc, forest, stack, name),
        Call::Phantom(name) => insert_new(alloc, forest, stack, name, true),
        Call::Loose(name) => insert_new(alloc, forest, stack, name, false),
        Call::Svg(name) => insert_foreign(alloc, forest, stack, name, true, false),
        Call::ClosedSvg(name) => insert_foreign(alloc, forest, stack, name, true, true),
        Call::Foreign(name) => insert_foreign(alloc, forest, stack, name, false, false),
        Call::Template(mode) => insert_template(alloc, forest, stack, mode),
        Call::Doctype(name) => put_doctype(alloc, forest, stack, name),
        Call::RemoveBody => {
            stack.remove_body(forest);
            Ok(())
        }
        Call::BackTo(set) => {
            back_to(forest, stack, set);
            Ok(())
        }
        other => put(alloc, forest, stack, other),
    }
}

// What is no element.
fn put(
    alloc: Global,
    forest: &mut Forest,
    stack: &Stack<Forest>,
    call: Call<'_>,
) -> Result<(), ParseFault>
    requires { IsStanding forest.old stack.now.open_elems stack.now.active_formatting }
    ensures { IsStanding forest.new stack.now.open_elems stack.now.active_formatting }
{
    match call {
        Call::Text(text) => stack.append_text(forest, Text::from_str(alloc, text)?, false),
        Call::FosteredText(text) => stack.append_text(forest, Text::from_str(alloc, text)?, true),
        Call::Comment(text) => stack.append_comment(forest, Text::from_str(alloc, text)?, false),
        Call::ToDocument(text) => stack.append_comment_to_doc(forest, Text::from_str(alloc, text)?),
        Call::ToRoot(text) => stack.append_comment_to_html(forest, Text::from_str(alloc, text)?),
        Call::RootAttribute(name) => {
            stack.add_attributes_to_root(forest, attribute(alloc, name, "1")?)
        }
        Call::BodyAttribute(name) => {
            stack.add_attributes_to_body(forest, attribute(alloc, name, "1")?)
        }
        _ => Ok(()),
    }
}

// All of these calls.
fn make_each(
    alloc: Global,
    forest: &mut Forest,
    stack: &mut Stack<Forest>,
    calls: &[Call<'_>],
) -> Result<(), ParseFault>
    requires { IsStanding forest.old stack.old.open_elems stack.old.active_formatting }
{
    for call in calls {
        make(alloc, forest, stack, *call)?;
    }
    Ok(())
}

// Whether the forest is this document, which is short, so that writing it fails only for want of memory.
pub(crate) fn is_written(
    alloc: Global,
    forest: &mut Forest,
    document: &str,
) -> Result<bool, ParseFault> {
    let id = forest.get_document();
    let mut writer = MemWriter::new(alloc, 1_000, usize::MAX, None, false)?;
    let node = ForestNode { forest, id };
    if serialize(alloc, &mut writer, &node, SerializeOpts::default()).is_err() {
        return Err(ParseFault::Memory);
    }
    Ok(writer.written() == document.as_bytes())
}

// Whether this is written where all of these calls are made after the root.
fn is_made(alloc: Global, calls: &[Call<'_>], document: &str) -> Result<bool, ParseFault> {
    let (mut forest, mut stack) = started(alloc)?;
    make_each(alloc, &mut forest, &mut stack, calls)?;
    is_written(alloc, &mut forest, document)
}

/// Calls after the root, and what is written then.
pub(crate) const ROWS: &[(&[Call<'static>], &str)] = &[
    (&[], "<html></html>"),
    (
        &[
            Call::Element("body"),
            Call::Element("p"),
            Call::Text("a"),
            Call::Text("b"),
        ],
        "<html><body><p>ab</p></body></html>",
    ),
    (
        &[
            Call::Phantom("body"),
            Call::Void("br"),
            Call::Text("x"),
            Call::Comment("c"),
        ],
        "<html><body><br>x<!--c--></body></html>",
    ),
    (
        &[
            Call::Element("body"),
            Call::ToRoot("r"),
            Call::ToDocument("d"),
            Call::Doctype("html"),
        ],
        "<html><body></body><!--r--></html><!--d--><!DOCTYPE html>",
    ),
    (
        &[
            Call::Element("body"),
            Call::Element("table"),
            Call::FosteredText("x"),
            Call::Text("y"),
        ],
        "<html><body>x<table>y</table></body></html>",
    ),
    (
        &[
            Call::Element("body"),
            Call::Element("table"),
            Call::Element("tbody"),
            Call::Element("tr"),
            Call::Fostered("b"),
            Call::FosteredText("x"),
        ],
        "<html><body><b>x</b><table><tbody><tr></tr></tbody></table></body></html>",
    ),
    (
        &[
            Call::Element("body"),
            Call::Element("table"),
            Call::Element("td"),
            Call::FosteredText("x"),
        ],
        "<html><body><table><td>x</td></table></body></html>",
    ),
    (
        &[
            Call::Element("body"),
            Call::Element("template"),
            Call::Text("x"),
        ],
        "<html><body><template>x</template></body></html>",
    ),
    (
        &[
            Call::Element("table"),
            Call::Element("template"),
            Call::Element("tr"),
            Call::FosteredText("x"),
        ],
        "<html><table><template><tr></tr>x</template></table></html>",
    ),
    (
        &[
            Call::Element("body"),
            Call::Loose("table"),
            Call::FosteredText("x"),
        ],
        "<html><body>x</body></html>",
    ),
    (
        &[
            Call::Element("body"),
            Call::Element("tbody"),
            Call::FosteredText("x"),
        ],
        "<html><body><tbody></tbody></body>x</html>",
    ),
    (
        &[
            Call::Element("body"),
            Call::RootAttribute("a"),
            Call::BodyAttribute("b"),
            Call::BodyAttribute("b"),
        ],
        "<html a=\"1\"><body b=\"1\"></body></html>",
    ),
    (
        &[
            Call::Element("head"),
            Call::BodyAttribute("b"),
            Call::RemoveBody,
        ],
        "<html><head></head></html>",
    ),
    (
        &[
            Call::Element("body"),
            Call::Text("a"),
            Call::RemoveBody,
            Call::Element("frameset"),
        ],
        "<html><frameset></frameset></html>",
    ),
    (
        &[
            Call::Svg("svg"),
            Call::ClosedSvg("circle"),
            Call::Foreign("foreignobject"),
            Call::Text("a"),
        ],
        "<html><svg viewBox=\"0\"><circle viewBox=\"0\"></circle><foreignObject viewBox=\"0\">a</foreignObject></svg></html>",
    ),
    (
        &[
            Call::Element("body"),
            Call::Svg("svg"),
            Call::BackTo(TagSet::Body),
            Call::Foreign("foreignobject"),
        ],
        "<html><body><svg viewBox=\"0\"></svg><foreignobject viewbox=\"0\"></foreignobject></body></html>",
    ),
    (
        &[Call::Template("open"), Call::Text("a")],
        "<html><template shadowrootmode=\"open\">a</template></html>",
    ),
    (
        &[
            Call::Element("body"),
            Call::Template("closed"),
            Call::Element("p"),
            Call::Text("a"),
        ],
        "<html><body><template shadowrootmode=\"closed\"><p>a</p></template></body></html>",
    ),
];

#[test]
fn nodes_are_put_where_they_belong(rt: HostRuntime) {
    for (calls, document) in ROWS {
        assert!(rt;
            is_made(rt.alloc(), calls, document) == Ok(true),
            "{document}"
        );
    }
}
