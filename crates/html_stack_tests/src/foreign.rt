//! Foreign content: which rules take a token, end tags, and templates that may become shadow roots.
ghost use Rattle.std.specs.Prelude.{IfSome};
ghost use Rattle.markup.specs.Forest.{IsNode};
ghost use Rattle.html_rules_laws.specs.Soundness.{IsStanding};
ghost use Rattle.html_stack.specs.Inserting.{context_of};

use crate::inserting::{attribute, insert, insert_template, is_written, started, tag};
use crate::stack::{self, name_of};
use html_forest::{Forest, NodeId};
use html_rules::Rules;
use html_stack::{ElementClass, OpenElement, Stack, TokenShape};
use markup::{Attributes, KnownNamespace, LocalName, Namespace, ParseFault, Text, TreeSink};
use std::alloc::Global;

// An element that is opened.
#[derive(Clone, Copy)]
enum Opened<'a> {
    Html(&'a str),
    Svg(&'a str),
    MathMl(&'a str),
    // One of MathML, in which HTML is encoded.
    Encoded(&'a str),
}

// An element of foreign content.
fn enter(
    alloc: Global,
    forest: &mut Forest,
    stack: &mut Stack<Forest>,
    namespace: KnownNamespace,
    name: &str,
    attributes: Attributes,
) -> Result<(), ParseFault>
    requires { IsStanding forest.old stack.old.open_elems stack.old.active_formatting }
    ensures { IsStanding forest.new stack.new.open_elems stack.new.active_formatting }
{
    let tag = tag(alloc, name, attributes)?;
    stack.enter_foreign(forest, Namespace::from_known(namespace), tag, false, None)
}

// An element of MathML, in which HTML is encoded.
fn encoded(
    alloc: Global,
    forest: &mut Forest,
    stack: &mut Stack<Forest>,
    name: &str,
) -> Result<(), ParseFault>
    requires { IsStanding forest.old stack.old.open_elems stack.old.active_formatting }
    ensures { IsStanding forest.new stack.new.open_elems stack.new.active_formatting }
{
    let attributes = attribute(alloc, "encoding", "Text/HTML")?;
    enter(
        alloc,
        forest,
        stack,
        KnownNamespace::MathMl,
        name,
        attributes,
    )
}

fn open(
    alloc: Global,
    forest: &mut Forest,
    stack: &mut Stack<Forest>,
    element: Opened<'_>,
) -> Result<(), ParseFault>
    requires { IsStanding forest.old stack.old.open_elems stack.old.active_formatting }
    ensures { IsStanding forest.new stack.new.open_elems stack.new.active_formatting }
{
    match element {
        Opened::Html(name) => insert(alloc, forest, stack, name, false),
        Opened::Svg(name) => {
            enter(
                alloc,
                forest,
                stack,
                KnownNamespace::Svg,
                name,
                Attributes::new(alloc),
            )
        }
        Opened::MathMl(name) => {
            enter(
                alloc,
                forest,
                stack,
                KnownNamespace::MathMl,
                name,
                Attributes::new(alloc),
            )
        }
        Opened::Encoded(name) => encoded(alloc, forest, stack, name),
    }
}

// These elements.
fn open_each(
    alloc: Global,
    forest: &mut Forest,
    stack: &mut Stack<Forest>,
    elements: &[Opened<'_>],
) -> Result<(), ParseFault>
    requires { IsStanding forest.old stack.old.open_elems stack.old.active_formatting }
    ensures { IsStanding forest.new stack.new.open_elems stack.new.active_formatting }
{
    for element in elements {
        open(alloc, forest, stack, *element)?;
    }
    Ok(())
}

// A token: text, the start tag of a name, an end tag, or the end of the input.
#[derive(Clone, Copy)]
enum Given {
    Text,
    P,
    Svg,
    Mglyph,
    Malignmark,
    End,
    EndOfFile,
}

// Whether the rules of foreign content hold for a start tag.
fn is_start_foreign(
    alloc: Global,
    forest: &Forest,
    stack: &Stack<Forest>,
    context: Option<&OpenElement<NodeId>>,
    name: &str,
) -> Result<bool, ParseFault>
    requires standing { IsStanding forest.now stack.now.open_elems stack.now.active_formatting }
    requires context { IfSome (context_of (λ id. id) context) (λ x. IsNode forest.now x.number) }
{
    let name = LocalName::from_str(alloc, name)?;
    let class = ElementClass::html(&name);
    Ok(stack.is_foreign(forest, context, TokenShape::StartTag(class, &name)))
}

// Whether the rules of foreign content hold for a token; the context is that of a fragment.
fn is_foreign(
    alloc: Global,
    forest: &Forest,
    stack: &Stack<Forest>,
    context: Option<&OpenElement<NodeId>>,
    given: Given,
) -> Result<bool, ParseFault>
    requires standing { IsStanding forest.now stack.now.open_elems stack.now.active_formatting }
    requires context { IfSome (context_of (λ id. id) context) (λ x. IsNode forest.now x.number) }
{
    match given {
        Given::Text => Ok(stack.is_foreign(forest, context, TokenShape::Text)),
        Given::P => is_start_foreign(alloc, forest, stack, context, "p"),
        Given::Svg => is_start_foreign(alloc, forest, stack, context, "svg"),
        Given::Mglyph => is_start_foreign(alloc, forest, stack, context, "mglyph"),
        Given::Malignmark => is_start_foreign(alloc, forest, stack, context, "malignmark"),
        Given::End => Ok(stack.is_foreign(forest, context, TokenShape::Other)),
        Given::EndOfFile => Ok(stack.is_foreign(forest, context, TokenShape::EndOfFile)),
    }
}

// The same, with a context of this namespace and name.
fn is_foreign_in_context(
    alloc: Global,
    forest: &mut Forest,
    stack: &Stack<Forest>,
    namespace: KnownNamespace,
    name: &str,
    given: Given,
) -> Result<bool, ParseFault>
    requires { IsStanding forest.old stack.now.open_elems stack.now.active_formatting }
{
    let context = OpenElement {
        handle: forest.get_document(),
        name: name_of(alloc, namespace, name)?,
    };
    is_foreign(alloc, forest, stack, Some(&context), given)
}

// The same, with these elements in the root.
fn is_foreign_in(
    alloc: Global,
    elements: &[Opened<'_>],
    namespace: KnownNamespace,
    name: &str,
    given: Given,
) -> Result<bool, ParseFault> {
    let (mut forest, mut stack) = started(alloc)?;
    open_each(alloc, &mut forest, &mut stack, elements)?;
    is_foreign_in_context(alloc, &mut forest, &stack, namespace, name, given)
}

// Whether the rules of foreign content hold for each token as is said beside it.
fn are_told(
    alloc: Global,
    forest: &Forest,
    stack: &Stack<Forest>,
    tokens: &[(Given, bool)],
) -> Result<bool, ParseFault>
    requires { IsStanding forest.now stack.now.open_elems stack.now.active_formatting }
{
    for (given, want) in tokens {
        if is_foreign(alloc, forest, stack, None, *given)? != *want {
            return Ok(false);
        }
    }
    Ok(true)
}

// The same, with these elements in the root.
fn are_told_in(
    alloc: Global,
    elements: &[Opened<'_>],
    tokens: &[(Given, bool)],
) -> Result<bool, ParseFault> {
    let (mut forest, mut stack) = started(alloc)?;
    open_each(alloc, &mut forest, &mut stack, elements)?;
    are_told(alloc, &forest, &stack, tokens)
}

#[test]
fn foreign_content_takes_its_tokens(rt: HostRuntime) {
    let rows: &[(&[Opened<'_>], &[(Given, bool)])] = &[
        (&[], &[(Given::Text, false), (Given::P, false)]),
        (
            &[Opened::Svg("svg")],
            &[
                (Given::Text, true),
                (Given::P, true),
                (Given::End, true),
                (Given::EndOfFile, false),
            ],
        ),
        (
            &[Opened::Svg("svg"), Opened::Svg("foreignObject")],
            &[
                (Given::Text, false),
                (Given::Mglyph, false),
                (Given::End, true),
                (Given::EndOfFile, false),
            ],
        ),
        (
            &[Opened::Svg("svg"), Opened::Svg("mi")],
            &[(Given::Text, true), (Given::P, true)],
        ),
        (
            &[Opened::MathMl("math"), Opened::MathMl("mi")],
            &[
                (Given::Text, false),
                (Given::P, false),
                (Given::Mglyph, true),
                (Given::Malignmark, true),
                (Given::End, true),
            ],
        ),
        (
            &[Opened::MathMl("math"), Opened::MathMl("annotation-xml")],
            &[
                (Given::Text, true),
                (Given::Svg, false),
                (Given::P, true),
                (Given::End, true),
            ],
        ),
        (
            &[Opened::MathMl("math"), Opened::Encoded("annotation-xml")],
            &[
                (Given::Text, false),
                (Given::Svg, false),
                (Given::P, false),
                (Given::End, true),
                (Given::EndOfFile, false),
            ],
        ),
        (
            &[Opened::Svg("svg"), Opened::Svg("desc"), Opened::Html("p")],
            &[(Given::Text, false), (Given::End, false)],
        ),
    ];
    for (elements, tokens) in rows {
        assert!(rt; are_told_in(rt.alloc(), elements, tokens) == Ok(true));
    }
}

#[test]
fn fragments_begin_in_their_context(rt: HostRuntime) {
    const HTML: KnownNamespace = KnownNamespace::Html;
    const SVG: KnownNamespace = KnownNamespace::Svg;
    const MATH: KnownNamespace = KnownNamespace::MathMl;
    // What is open in the root, the context, a token, and whether the rules of foreign content hold for it.
    let rows: &[(&[Opened<'_>], KnownNamespace, &str, Given, bool)] = &[
        (&[], SVG, "svg", Given::P, true),
        (&[], SVG, "svg", Given::Text, true),
        (&[], SVG, "svg", Given::End, true),
        (&[], SVG, "svg", Given::EndOfFile, false),
        (&[], SVG, "desc", Given::P, false),
        (&[], SVG, "desc", Given::End, true),
        (&[], MATH, "mi", Given::Text, false),
        (&[], MATH, "mi", Given::Mglyph, true),
        (&[], MATH, "math", Given::Text, true),
        (&[], HTML, "div", Given::P, false),
        (&[], HTML, "svg", Given::End, false),
        (&[Opened::Html("p")], SVG, "svg", Given::P, false),
        (&[Opened::Svg("svg")], HTML, "div", Given::P, true),
    ];
    for (elements, namespace, name, given, want) in rows {
        let told = is_foreign_in(rt.alloc(), elements, *namespace, name, *given);
        assert!(rt; told == Ok(*want));
    }
}

// Opens elements of these namespaces and names.
fn open_foreign(
    alloc: Global,
    forest: &mut Forest,
    stack: &mut Stack<Forest>,
    elements: &[(KnownNamespace, &str)],
) -> Result<(), ParseFault> {
    for (namespace, name) in elements {
        stack::open(alloc, forest, stack, *namespace, name)?;
    }
    Ok(())
}

// Whether the rules of the mode take the end tag of a name, whether it is an error, and how many elements stay.
fn close(
    alloc: Global,
    stack: &mut Stack<Forest>,
    name: &str,
) -> Result<(bool, bool, usize), ParseFault> {
    let name = LocalName::from_str(alloc, name)?;
    let as_in_mode = stack.ends_in_html(&name);
    let is_error = stack.is_foreign_end_error(&name);
    stack.close_foreign(&name);
    Ok((as_in_mode, is_error, stack.open_elems().len()))
}

// The same where these elements are open.
fn close_in(
    alloc: Global,
    elements: &[(KnownNamespace, &str)],
    name: &str,
) -> Result<(bool, bool, usize), ParseFault> {
    let mut forest = Forest::new(alloc)?;
    let mut stack = Stack::new(alloc, Rules::Html5ever);
    open_foreign(alloc, &mut forest, &mut stack, elements)?;
    close(alloc, &mut stack, name)
}

#[test]
fn end_tags_close_foreign_elements(rt: HostRuntime) {
    const HTML: KnownNamespace = KnownNamespace::Html;
    const SVG: KnownNamespace = KnownNamespace::Svg;
    // What is open, the end tag; whether the rules of the mode take it, whether it is an error, how many elements stay.
    let rows: &[(&[(KnownNamespace, &str)], &str, bool, bool, usize)] = &[
        (
            &[(HTML, "html"), (SVG, "svg"), (SVG, "foreignObject")],
            "foreignobject",
            false,
            false,
            2,
        ),
        (
            &[(HTML, "html"), (SVG, "svg"), (SVG, "g"), (SVG, "g")],
            "SVG",
            false,
            true,
            1,
        ),
        (
            &[(HTML, "html"), (SVG, "svg"), (SVG, "my-Tag"), (SVG, "g")],
            "MY-tag",
            false,
            true,
            2,
        ),
        (
            &[(HTML, "html"), (HTML, "body"), (SVG, "svg")],
            "p",
            true,
            true,
            3,
        ),
        (
            &[(HTML, "html"), (HTML, "p"), (SVG, "svg"), (SVG, "g")],
            "p",
            true,
            true,
            4,
        ),
        (
            &[(HTML, "html"), (SVG, "svg"), (HTML, "p")],
            "P",
            false,
            false,
            2,
        ),
        (
            &[(HTML, "html"), (SVG, "svg"), (SVG, "g")],
            "html",
            false,
            true,
            3,
        ),
        (&[(SVG, "svg"), (SVG, "\u{212A}")], "k", false, true, 2),
        (&[(SVG, "svg")], "svg", false, false, 1),
        (&[(SVG, "svg")], "g", false, false, 1),
        (&[], "svg", false, false, 0),
    ];
    for &(elements, name, as_in_mode, is_error, left) in rows {
        let want = Ok((as_in_mode, is_error, left));
        assert!(rt; close_in(rt.alloc(), elements, name) == want);
    }
}

// Inserts a template with this mode of a shadow root and a text, and says how many elements are open between.
fn insert_with_text(
    alloc: Global,
    forest: &mut Forest,
    stack: &mut Stack<Forest>,
    mode: &str,
) -> Result<usize, ParseFault>
    requires { IsStanding forest.old stack.old.open_elems stack.old.active_formatting }
{
    insert_template(alloc, forest, stack, mode)?;
    let open = stack.open_elems().len();
    stack.append_text(forest, Text::from_str(alloc, "a")?, false)?;
    Ok(open)
}

// Whether the template is opened in these elements, and this is written then.
fn is_inserted(
    alloc: Global,
    elements: &[Opened<'_>],
    mode: &str,
    want: &str,
) -> Result<bool, ParseFault> {
    let (mut forest, mut stack) = started(alloc)?;
    open_each(alloc, &mut forest, &mut stack, elements)?;
    let open = insert_with_text(alloc, &mut forest, &mut stack, mode)?;
    Ok(open == elements.len().saturating_add(2) && is_written(alloc, &mut forest, want)?)
}

#[test]
fn templates_are_inserted(rt: HostRuntime) {
    let rows: &[(&[Opened<'_>], &str, &str)] = &[
        (
            &[],
            "open",
            "<html><template shadowrootmode=\"open\">a</template></html>",
        ),
        (
            &[Opened::Html("div")],
            "open",
            "<html><div><template shadowrootmode=\"open\">a</template></div></html>",
        ),
        (
            &[Opened::Html("div")],
            "closed",
            "<html><div><template shadowrootmode=\"closed\">a</template></div></html>",
        ),
        (
            &[Opened::Html("div")],
            "Open",
            "<html><div><template shadowrootmode=\"Open\">a</template></div></html>",
        ),
    ];
    for &(elements, mode, want) in rows {
        assert!(rt; is_inserted(rt.alloc(), elements, mode, want) == Ok(true));
    }
}
