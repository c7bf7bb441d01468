//! The adoption agency over a forest.
ghost use Rattle.html_rules_laws.specs.Soundness.{IsStanding};

use crate::inserting::{back_to, insert, is_written, started, tag};
use html_forest::{Forest, NodeId};
use html_stack::{ElementClass, FormatEntry, OpenElement, Stack, TagSet};
use markup::{Attributes, LocalName, ParseFault, Text, TreeSink};
use std::alloc::Global;

// A step of the tree builder.
#[derive(Clone, Copy)]
pub(crate) enum Step<'a> {
    // An element is opened.
    Element(&'a str),
    // A formatting element is opened and listed; with foster parenting.
    Listed(&'a str),
    FosteredListed(&'a str),
    // Text.
    Text(&'a str),
    // A marker is listed.
    Marker,
    // Listed elements are opened again.
    Reconstruct,
    // Elements are popped up to one of a set.
    BackTo(TagSet),
    // The adoption agency for a name; with foster parenting.
    Adopt(&'a str),
    FosteredAdopt(&'a str),
    // The `a` that is listed ends.
    EndA,
}

// A formatting element.
fn list(
    alloc: Global,
    forest: &mut Forest,
    stack: &mut Stack<Forest>,
    name: &str,
    foster: bool,
) -> Result<(), ParseFault>
    requires { IsStanding forest.old stack.old.open_elems stack.old.active_formatting }
    ensures { IsStanding forest.new stack.new.open_elems stack.new.active_formatting }
{
    let tag = tag(alloc, name, Attributes::new(alloc))?;
    let class = ElementClass::html(&tag.name);
    stack.create_formatting_element_for(forest, class, tag, foster)?;
    Ok(())
}

// The adoption agency for a name.
fn adopt(
    alloc: Global,
    forest: &mut Forest,
    stack: &mut Stack<Forest>,
    name: &str,
    foster: bool,
) -> Result<(), ParseFault>
    requires { IsStanding forest.old stack.old.open_elems stack.old.active_formatting }
    ensures { IsStanding forest.new stack.new.open_elems stack.new.active_formatting }
{
    let name = LocalName::from_str(alloc, name)?;
    stack.adoption_agency(forest, ElementClass::html(&name), &name, foster)
}

// A marker.
fn mark(_forest: &Forest, stack: &mut Stack<Forest>) -> Result<(), ParseFault>
    requires { IsStanding _forest.now stack.old.open_elems stack.old.active_formatting }
    ensures { IsStanding _forest.now stack.new.open_elems stack.new.active_formatting }
{
    stack.push_marker()
}

// Text.
fn write(
    alloc: Global,
    forest: &mut Forest,
    stack: &Stack<Forest>,
    text: &str,
) -> Result<(), ParseFault>
    requires { IsStanding forest.old stack.now.open_elems stack.now.active_formatting }
    ensures { IsStanding forest.new stack.now.open_elems stack.now.active_formatting }
{
    stack.append_text(forest, Text::from_str(alloc, text)?, false)
}

// One step.
pub(crate) fn take(
    alloc: Global,
    forest: &mut Forest,
    stack: &mut Stack<Forest>,
    step: Step<'_>,
) -> Result<(), ParseFault>
    requires { IsStanding forest.old stack.old.open_elems stack.old.active_formatting }
    ensures { IsStanding forest.new stack.new.open_elems stack.new.active_formatting }
{
    match step {
        Step::Element(name) => insert(alloc, forest, stack, name, false),
        Step::Listed(name) => list(alloc, forest, stack, name, false),
        Step::FosteredListed(name) => list(alloc, forest, stack, name, true),
        Step::Text(text) => write(alloc, forest, stack, text),
        Step::Marker => mark(forest, stack),
        Step::Reconstruct => stack.reconstruct_active_formatting_elements(forest, false),
        Step::BackTo(set) => {
            back_to(forest, stack, set);
            Ok(())
        }
        Step::Adopt(name) => adopt(alloc, forest, stack, name, false),
        Step::FosteredAdopt(name) => adopt(alloc, forest, stack, name, true),
        Step::EndA => stack.handle_misnested_a_tags(forest, false),
    }
}

// All of these steps.
fn take_each(
    alloc: Global,
    forest: &mut Forest,
    stack: &mut Stack<Forest>,
    steps: &[Step<'_>],
) -> Result<(), ParseFault>
    requires { IsStanding forest.old stack.old.open_elems stack.old.active_formatting }
    ensures { IsStanding forest.new stack.new.open_elems stack.new.active_formatting }
{
    for step in steps {
        take(alloc, forest, stack, *step)?;
    }
    Ok(())
}

// Whether an open element has this name.
fn is_named(alloc: Global, element: &OpenElement<NodeId>, name: &str) -> Result<bool, ParseFault> {
    let name = LocalName::from_str(alloc, name)?;
    Ok(element.name.is_named(ElementClass::html(&name), &name))
}

// Whether elements of these names are open, the root first.
fn are_open(alloc: Global, stack: &Stack<Forest>, names: &[&str]) -> Result<bool, ParseFault> {
    for (element, name) in stack.open_elems().iter().zip(names) {
        if !is_named(alloc, element, name)? {
            return Ok(false);
        }
    }
    Ok(stack.open_elems().len() == names.len())
}

// The name of what is listed; `|` is a marker.
fn listed_name(entry: &FormatEntry<NodeId>) -> &str {
    match entry {
        FormatEntry::Element(_, tag) => tag.name.as_str(),
        FormatEntry::Marker => "|",
    }
}

// Whether elements of these names are listed, the oldest first; `|` is a marker.
fn are_listed(stack: &Stack<Forest>, names: &[&str]) -> bool {
    for (entry, name) in stack.active_formatting().iter().zip(names) {
        if listed_name(entry) != *name {
            return false;
        }
    }
    stack.active_formatting().len() == names.len()
}

// The steps, the document, what is open, what is listed, and how many errors there are.
pub(crate) type Row<'a> = (&'a [Step<'a>], &'a str, &'a [&'a str], &'a [&'a str], u64);

// Whether the steps of a row lead to what it says, in a body.
fn leads_in(
    alloc: Global,
    forest: &mut Forest,
    stack: &mut Stack<Forest>,
    row: &Row<'_>,
) -> Result<bool, ParseFault>
    requires { IsStanding forest.old stack.old.open_elems stack.old.active_formatting }
{
    let (steps, document, open, listed, errors) = *row;
    insert(alloc, forest, stack, "body", false)?;
    take_each(alloc, forest, stack, steps)?;
    Ok(
        is_written(alloc, forest, document)?
            && are_open(alloc, stack, open)?
            && are_listed(stack, listed)
            && forest.error_count() == errors,
    )
}

fn leads(alloc: Global, row: &Row<'_>) -> Result<bool, ParseFault> {
    let (mut forest, mut stack) = started(alloc)?;
    leads_in(alloc, &mut forest, &mut stack, row)
}

/// Rows in which the agency moves what is misnested.
pub(crate) const MISNESTED: &[Row<'static>] = &[
    (
        &[
            Step::Listed("b"),
            Step::Text("1"),
            Step::Element("p"),
            Step::Text("2"),
            Step::Adopt("b"),
        ],
        "<html><body><b>1</b><p><b>2</b></p></body></html>",
        &["html", "body", "p"],
        &[],
        1,
    ),
    (
        &[
            Step::Listed("b"),
            Step::Text("1"),
            Step::Element("p"),
            Step::Text("2"),
            Step::Adopt("b"),
            Step::Reconstruct,
            Step::Text("3"),
        ],
        "<html><body><b>1</b><p><b>2</b>3</p></body></html>",
        &["html", "body", "p"],
        &[],
        1,
    ),
    (
        &[
            Step::Element("p"),
            Step::Text("1"),
            Step::Listed("b"),
            Step::Text("2"),
            Step::Listed("i"),
            Step::Text("3"),
            Step::Adopt("b"),
            Step::Reconstruct,
            Step::Text("4"),
            Step::Adopt("i"),
            Step::Reconstruct,
            Step::Text("5"),
        ],
        "<html><body><p>1<b>2<i>3</i></b><i>4</i>5</p></body></html>",
        &["html", "body", "p"],
        &[],
        1,
    ),
    (
        &[
            Step::Element("p"),
            Step::Text("1"),
            Step::Listed("s"),
            Step::Text("2"),
            Step::Listed("b"),
            Step::Text("3"),
            Step::BackTo(TagSet::Body),
            Step::Reconstruct,
            Step::Text("4"),
            Step::Adopt("s"),
            Step::Reconstruct,
            Step::Text("5"),
            Step::Adopt("b"),
        ],
        "<html><body><p>1<s>2<b>3</b></s></p><s><b>4</b></s><b>5</b></body></html>",
        &["html", "body"],
        &[],
        1,
    ),
    (
        &[
            Step::Listed("a"),
            Step::Text("1"),
            Step::Element("div"),
            Step::Text("2"),
            Step::Element("div"),
            Step::Text("3"),
            Step::Adopt("a"),
            Step::Text("4"),
        ],
        "<html><body><a>1</a><div><a>2</a><div><a>3</a>4</div></div></body></html>",
        &["html", "body", "div", "div"],
        &[],
        2,
    ),
    (
        &[
            Step::Listed("b"),
            Step::Listed("b"),
            Step::Listed("a"),
            Step::Element("p"),
            Step::Adopt("a"),
        ],
        "<html><body><b><b><a></a><p><a></a></p></b></b></body></html>",
        &["html", "body", "b", "b", "p"],
        &["b", "b"],
        1,
    ),
    (
        &[
            Step::Listed("b"),
            Step::Listed("a"),
            Step::Listed("b"),
            Step::Element("p"),
            Step::Adopt("a"),
        ],
        "<html><body><b><a><b></b></a><b><p><a></a></p></b></b></body></html>",
        &["html", "body", "b", "b", "p"],
        &["b", "b"],
        1,
    ),
    (
        &[
            Step::Listed("a"),
            Step::Listed("b"),
            Step::Listed("b"),
            Step::Element("p"),
            Step::Adopt("a"),
        ],
        "<html><body><a><b><b></b></b></a><b><b><p><a></a></p></b></b></body></html>",
        &["html", "body", "b", "b", "p"],
        &["b", "b"],
        1,
    ),
];

#[test]
fn misnested_elements_are_adopted(rt: HostRuntime) {
    for row in MISNESTED {
        assert!(rt; leads(rt.alloc(), row) == Ok(true));
    }
}

/// Rows in which elements are copied, three at most.
pub(crate) const COPIED: &[Row<'static>] = &[
    (
        &[
            Step::Listed("b"),
            Step::Listed("i"),
            Step::Listed("em"),
            Step::Listed("code"),
            Step::Listed("u"),
            Step::Element("p"),
            Step::Text("x"),
            Step::Adopt("b"),
        ],
        "<html><body><b><i><em><code><u></u></code></em></i></b><em><code><u><p><b>x</b></p></u></code></em></body></html>",
        &["html", "body", "em", "code", "u", "p"],
        &["em", "code", "u"],
        1,
    ),
    (
        &[
            Step::Element("div"),
            Step::Listed("a"),
            Step::Listed("b"),
            Step::Listed("u"),
            Step::Listed("i"),
            Step::Listed("code"),
            Step::Element("div"),
            Step::Adopt("a"),
        ],
        "<html><body><div><a><b><u><i><code></code></i></u></b></a><u><i><code><div><a></a></div></code></i></u></div></body></html>",
        &["html", "body", "div", "u", "i", "code", "div"],
        &["u", "i", "code"],
        1,
    ),
    (
        &[
            Step::Listed("b"),
            Step::Listed("em"),
            Step::Element("foo"),
            Step::Element("foo"),
            Step::Element("aside"),
            Step::Adopt("b"),
        ],
        "<html><body><b><em><foo><foo></foo></foo></em></b><em><aside><b></b></aside></em></body></html>",
        &["html", "body", "em", "aside"],
        &["em"],
        1,
    ),
    (
        &[
            Step::Listed("b"),
            Step::Listed("em"),
            Step::Element("foo"),
            Step::Element("foo"),
            Step::Element("foo"),
            Step::Element("aside"),
            Step::Adopt("b"),
        ],
        "<html><body><b><em><foo><foo><foo></foo></foo></foo></em></b><aside><b></b></aside></body></html>",
        &["html", "body", "aside"],
        &[],
        1,
    ),
];

#[test]
fn three_elements_are_copied(rt: HostRuntime) {
    for row in COPIED {
        assert!(rt; leads(rt.alloc(), row) == Ok(true));
    }
}

/// Rows that show where the agency ends.
pub(crate) const ENDING: &[Row<'static>] = &[
    (
        &[
            Step::Element("div"),
            Step::Listed("a"),
            Step::Listed("b"),
            Step::Element("div"),
            Step::Element("div"),
            Step::Element("div"),
            Step::Element("div"),
            Step::Element("div"),
            Step::Element("div"),
            Step::Element("div"),
            Step::Element("div"),
            Step::Element("div"),
            Step::Element("div"),
            Step::Adopt("a"),
        ],
        "<html><body><div><a><b></b></a><b><div><a></a><div><a></a><div><a></a><div><a></a><div><a></a><div><a></a><div><a></a><div><a><div><div></div></div></a></div></div></div></div></div></div></div></div></b></div></body></html>",
        &[
            "html", "body", "div", "b", "div", "div", "div", "div", "div", "div", "div", "div",
            "a", "div", "div",
        ],
        &["b", "a"],
        8,
    ),
    (
        &[
            Step::Element("p"),
            Step::Listed("b"),
            Step::Text("x"),
            Step::BackTo(TagSet::Body),
            Step::Adopt("b"),
        ],
        "<html><body><p><b>x</b></p></body></html>",
        &["html", "body"],
        &[],
        1,
    ),
    (
        &[Step::Listed("b"), Step::Element("table"), Step::Adopt("b")],
        "<html><body><b><table></table></b></body></html>",
        &["html", "body", "b", "table"],
        &["b"],
        1,
    ),
    (
        &[Step::Element("b"), Step::Text("x"), Step::Adopt("b")],
        "<html><body><b>x</b></body></html>",
        &["html", "body"],
        &[],
        0,
    ),
    (
        &[
            Step::Listed("b"),
            Step::Marker,
            Step::Element("b"),
            Step::Adopt("b"),
        ],
        "<html><body><b><b></b></b></body></html>",
        &["html", "body", "b"],
        &["b", "|"],
        0,
    ),
    (
        &[
            Step::Listed("b"),
            Step::Marker,
            Step::Element("p"),
            Step::Adopt("b"),
        ],
        "<html><body><b><p></p></b></body></html>",
        &["html", "body", "b", "p"],
        &["b", "|"],
        1,
    ),
    (
        &[Step::Element("b"), Step::Element("i"), Step::Adopt("b")],
        "<html><body><b><i></i></b></body></html>",
        &["html", "body"],
        &[],
        1,
    ),
    (
        &[
            Step::Listed("b"),
            Step::Listed("i"),
            Step::Text("x"),
            Step::Adopt("b"),
        ],
        "<html><body><b><i>x</i></b></body></html>",
        &["html", "body"],
        &["i"],
        1,
    ),
    (
        &[
            Step::Listed("my-tag"),
            Step::Element("p"),
            Step::Adopt("my-tag"),
        ],
        "<html><body><my-tag></my-tag><p><my-tag></my-tag></p></body></html>",
        &["html", "body", "p"],
        &[],
        1,
    ),
];

#[test]
fn the_adoption_agency_ends(rt: HostRuntime) {
    for row in ENDING {
        assert!(rt; leads(rt.alloc(), row) == Ok(true));
    }
}

/// Rows with foster parenting.
pub(crate) const FOSTERED: &[Row<'static>] = &[
    (
        &[
            Step::Element("table"),
            Step::FosteredListed("a"),
            Step::Text("1"),
            Step::Element("p"),
            Step::Text("2"),
            Step::FosteredAdopt("a"),
        ],
        "<html><body><a>1</a><p><a>2</a></p><table></table></body></html>",
        &["html", "body", "table", "p"],
        &[],
        1,
    ),
    (
        &[
            Step::Element("table"),
            Step::FosteredListed("a"),
            Step::Text("1"),
            Step::Element("p"),
            Step::Text("2"),
            Step::Adopt("a"),
        ],
        "<html><body><a>1</a><table><p><a>2</a></p></table></body></html>",
        &["html", "body", "table", "p"],
        &[],
        1,
    ),
    (
        &[
            Step::Element("template"),
            Step::Listed("a"),
            Step::Element("p"),
            Step::FosteredAdopt("a"),
        ],
        "<html><body><template><a></a><p><a></a></p></template></body></html>",
        &["html", "body", "template", "p"],
        &[],
        1,
    ),
];

#[test]
fn adopted_elements_are_fostered(rt: HostRuntime) {
    for row in FOSTERED {
        assert!(rt; leads(rt.alloc(), row) == Ok(true));
    }
}

/// Rows in which an `a` ends another.
pub(crate) const ENDED_BY_A: &[Row<'static>] = &[
    (
        &[
            Step::Listed("a"),
            Step::Text("0"),
            Step::Listed("b"),
            Step::Text("1"),
            Step::EndA,
            Step::Reconstruct,
            Step::Listed("a"),
            Step::Text("2"),
        ],
        "<html><body><a>0<b>1</b></a><b><a>2</a></b></body></html>",
        &["html", "body", "b", "a"],
        &["b", "a"],
        2,
    ),
    (
        &[
            Step::Listed("a"),
            Step::Text("1"),
            Step::Element("div"),
            Step::Text("2"),
            Step::EndA,
            Step::Listed("a"),
            Step::Text("3"),
        ],
        "<html><body><a>1</a><div><a>2</a><a>3</a></div></body></html>",
        &["html", "body", "div", "a"],
        &["a"],
        2,
    ),
    (
        &[
            Step::Listed("a"),
            Step::Element("table"),
            Step::EndA,
            Step::FosteredListed("a"),
        ],
        "<html><body><a><a></a><table></table></a></body></html>",
        &["html", "body", "table", "a"],
        &["a"],
        2,
    ),
    (
        &[
            Step::Element("p"),
            Step::Listed("a"),
            Step::Text("1"),
            Step::BackTo(TagSet::Body),
            Step::EndA,
        ],
        "<html><body><p><a>1</a></p></body></html>",
        &["html", "body"],
        &[],
        2,
    ),
    (
        &[Step::Listed("a"), Step::Marker, Step::EndA],
        "<html><body><a></a></body></html>",
        &["html", "body", "a"],
        &["a", "|"],
        0,
    ),
    (
        &[Step::Listed("b"), Step::EndA],
        "<html><body><b></b></body></html>",
        &["html", "body", "b"],
        &["b"],
        0,
    ),
];

#[test]
fn an_a_ends_where_another_begins(rt: HostRuntime) {
    for row in ENDED_BY_A {
        assert!(rt; leads(rt.alloc(), row) == Ok(true));
    }
}
