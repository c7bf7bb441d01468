//! The stack of open elements and the list of active formatting elements, over a forest.

ghost use Rattle.html_rules_laws.specs.Soundness.{IsStanding};

use crate::inserting::tag;
use html_forest::Forest;
use html_rules::Rules;
use html_stack::{
    ElementClass, ElementName, InsertionMode, NewElement, OpenElement, Stack, TagSet,
};
use markup::{Attributes, KnownNamespace, LocalName, Namespace, ParseFault, Text, TreeSink};
use std::alloc::Global;

/// The name of an element.
pub(crate) fn name_of(
    alloc: Global,
    namespace: KnownNamespace,
    name: &str,
) -> Result<ElementName, ParseFault> {
    let local = LocalName::from_str(alloc, name)?;
    ElementName::new(
        alloc,
        Rules::Html5ever,
        &Namespace::from_known(namespace),
        &local,
    )
}

/// A new node of the forest, opened as an element of this name.
pub(crate) fn open(
    alloc: Global,
    forest: &mut Forest,
    stack: &mut Stack<Forest>,
    namespace: KnownNamespace,
    name: &str,
) -> Result<(), ParseFault> {
    let handle = forest.create_comment(Text::from_str(alloc, name)?)?;
    let name = name_of(alloc, namespace, name)?;
    stack.push(OpenElement { handle, name })
}

// HTML elements of these names are opened.
fn open_each(
    alloc: Global,
    forest: &mut Forest,
    stack: &mut Stack<Forest>,
    names: &[&str],
) -> Result<(), ParseFault> {
    for name in names {
        open(alloc, forest, stack, KnownNamespace::Html, name)?;
    }
    Ok(())
}

// HTML elements of these names are open.
fn opened(alloc: Global, forest: &mut Forest, names: &[&str]) -> Result<Stack<Forest>, ParseFault> {
    let mut stack = Stack::new(alloc, Rules::Html5ever);
    open_each(alloc, forest, &mut stack, names)?;
    Ok(stack)
}

// Whether an element of this name is in scope.
fn has_in_scope(
    alloc: Global,
    stack: &Stack<Forest>,
    scope: TagSet,
    name: &str,
) -> Result<bool, ParseFault> {
    let name = LocalName::from_str(alloc, name)?;
    Ok(stack.in_scope_named(scope, ElementClass::html(&name), &name))
}

// The same where elements of these names are open.
fn is_in_scope(
    alloc: Global,
    names: &[&str],
    scope: TagSet,
    name: &str,
) -> Result<bool, ParseFault> {
    let mut forest = Forest::new(alloc)?;
    let stack = opened(alloc, &mut forest, names)?;
    has_in_scope(alloc, &stack, scope, name)
}

#[test]
fn scopes_end_at_their_bounds(rt: HostRuntime) {
    let rows: &[(&[&str], TagSet, &str, bool)] = &[
        (&["html", "body", "p"], TagSet::DefaultScope, "p", true),
        (
            &["html", "body", "p", "button"],
            TagSet::DefaultScope,
            "p",
            true,
        ),
        (
            &["html", "body", "p", "button"],
            TagSet::ButtonScope,
            "p",
            false,
        ),
        (
            &["html", "p", "table", "tr", "td"],
            TagSet::DefaultScope,
            "p",
            false,
        ),
        (
            &["html", "p", "table", "tr", "td"],
            TagSet::DefaultScope,
            "td",
            true,
        ),
        (
            &["html", "table", "tr", "p"],
            TagSet::TableScope,
            "tr",
            true,
        ),
        (
            &["html", "table", "template", "p"],
            TagSet::TableScope,
            "table",
            false,
        ),
        (
            &["html", "ul", "li", "ul"],
            TagSet::ListItemScope,
            "li",
            false,
        ),
        (
            &["html", "my-tag", "b"],
            TagSet::DefaultScope,
            "my-tag",
            true,
        ),
        (
            &["html", "my-tag", "b"],
            TagSet::DefaultScope,
            "my-other",
            false,
        ),
        (&["html"], TagSet::DefaultScope, "html", true),
        (&[], TagSet::DefaultScope, "html", false),
    ];
    for (names, scope, name, want) in rows {
        assert!(rt; is_in_scope(rt.alloc(), names, *scope, name) == Ok(*want));
    }
}

// Whether a heading is in scope until an element of SVG that bounds one scope and not the other is opened.
fn is_heading_found(
    alloc: Global,
    forest: &mut Forest,
    stack: &mut Stack<Forest>,
) -> Result<bool, ParseFault> {
    let found = stack.in_scope(TagSet::DefaultScope, TagSet::HeadingTag)
        && !stack.in_scope(TagSet::DefaultScope, TagSet::TdTh);
    open(alloc, forest, stack, KnownNamespace::Svg, "desc")?;
    Ok(
        found
            && !stack.in_scope(TagSet::DefaultScope, TagSet::HeadingTag)
            && stack.in_scope(TagSet::TableScope, TagSet::HeadingTag),
    )
}

fn is_heading_in_scope(alloc: Global) -> Result<bool, ParseFault> {
    let mut forest = Forest::new(alloc)?;
    let mut stack = opened(alloc, &mut forest, &["html", "body", "h2", "b"])?;
    is_heading_found(alloc, &mut forest, &mut stack)
}

#[test]
fn sets_are_looked_for_in_scope(rt: HostRuntime) {
    assert!(rt; is_heading_in_scope(rt.alloc()) == Ok(true));
}

// Whether this many elements stay open after each way to leave.
fn leave(alloc: Global, stack: &mut Stack<Forest>) -> Result<bool, ParseFault> {
    stack.pop_until(TagSet::TdTh);
    let without_cell = stack.open_elems().len() == 5;
    stack.pop_until_current(TagSet::TableScope);
    let back_to_table = stack.open_elems().len() == 3;
    let body = LocalName::from_str(alloc, "body")?;
    stack.pop_until_named(ElementClass::html(&body), &body);
    let without_body = stack.open_elems().len() == 1;
    stack.truncate(4);
    Ok(without_cell && back_to_table && without_body && stack.open_elems().len() == 1)
}

const CELL: &[&str] = &["html", "body", "table", "tbody", "tr", "td"];

fn leave_cell(alloc: Global) -> Result<bool, ParseFault> {
    let mut forest = Forest::new(alloc)?;
    let mut stack = opened(alloc, &mut forest, CELL)?;
    leave(alloc, &mut stack)
}

// How many elements stay open where a stack is cut off.
fn cut_off(alloc: Global, count: usize) -> Result<usize, ParseFault> {
    let mut forest = Forest::new(alloc)?;
    let mut stack = opened(alloc, &mut forest, CELL)?;
    stack.truncate(count);
    Ok(stack.open_elems().len())
}

#[test]
fn elements_leave_the_stack(rt: HostRuntime) {
    assert!(rt; leave_cell(rt.alloc()) == Ok(true));
    assert!(rt; cut_off(rt.alloc(), 2) == Ok(2));
}

// Lists the current element by a tag of this name.
fn list(alloc: Global, stack: &mut Stack<Forest>, name: &str) -> Result<(), ParseFault> {
    let tag = tag(alloc, name, Attributes::new(alloc))?;
    if stack.open_elems().is_empty() {
        return Ok(());
    }
    stack.list_current(tag)
}

// Lists two elements after a marker, the second of which is opened first.
fn list_two(
    alloc: Global,
    forest: &mut Forest,
    stack: &mut Stack<Forest>,
) -> Result<(), ParseFault> {
    stack.push_marker()?;
    list(alloc, stack, "b")?;
    open(alloc, forest, stack, KnownNamespace::Html, "i")?;
    list(alloc, stack, "i")
}

fn has_body(stack: &Stack<Forest>) -> bool {
    match stack.open_elems().get(1) {
        Some(body) => body.name.is_in(TagSet::Body),
        None => false,
    }
}

// Whether each entry after the marker has its place and its tag.
fn are_at_their_places(stack: &Stack<Forest>) -> bool {
    for (place, _, tag) in stack.active_formatting_end_to_marker() {
        if !((place == 2 && tag.name.is("i")) || (place == 1 && tag.name.is("b"))) {
            return false;
        }
    }
    true
}

fn come_newest_first(stack: &Stack<Forest>) -> bool {
    let mut entries = stack.active_formatting_end_to_marker();
    matches!(entries.next(), Some((2, _, _)))
        && matches!(entries.next(), Some((1, _, _)))
        && entries.next().is_none()
        && entries.next().is_none()
}

fn come_until_cleared(alloc: Global) -> Result<bool, ParseFault> {
    let mut forest = Forest::new(alloc)?;
    let mut stack = opened(alloc, &mut forest, &["html", "body", "b"])?;
    list_two(alloc, &mut forest, &mut stack)?;
    let come = has_body(&stack) && are_at_their_places(&stack) && come_newest_first(&stack);
    stack.clear_active_formatting_to_marker();
    Ok(come && stack.active_formatting().is_empty())
}

#[test]
fn entries_since_the_marker_come_newest_first(rt: HostRuntime) {
    assert!(rt; come_until_cleared(rt.alloc()) == Ok(true));
}

fn are_stacked(stack: &mut Stack<Forest>) -> Result<bool, ParseFault> {
    stack.push_template_mode(InsertionMode::InTemplate)?;
    stack.push_template_mode(InsertionMode::InTable)?;
    Ok(
        stack.template_modes().len() == 2
            && stack.pop_template_mode() == Some(InsertionMode::InTable)
            && stack.pop_template_mode() == Some(InsertionMode::InTemplate)
            && stack.pop_template_mode() == None,
    )
}

fn are_modes_stacked(alloc: Global) -> Result<bool, ParseFault> {
    let mut stack: Stack<Forest> = Stack::new(alloc, Rules::Html5ever);
    are_stacked(&mut stack)
}

#[test]
fn template_modes_are_a_stack(rt: HostRuntime) {
    assert!(rt; are_modes_stacked(rt.alloc()) == Ok(true));
}

// The name of the context of a fragment.
fn context_of(alloc: Global, name: Option<&str>) -> Result<Option<ElementName>, ParseFault> {
    match name {
        Some(name) => Ok(Some(name_of(alloc, KnownNamespace::Html, name)?)),
        None => Ok(None),
    }
}

// The mode that a stack asks for, with the mode "in table" as that of a template.
fn mode_of(
    stack: &mut Stack<Forest>,
    has_head: bool,
    context: Option<&ElementName>,
) -> Result<InsertionMode, ParseFault> {
    stack.push_template_mode(InsertionMode::InTable)?;
    Ok(stack.reset_insertion_mode(has_head, context))
}

// The same where elements of these names are open.
fn mode_in_context(
    alloc: Global,
    names: &[&str],
    has_head: bool,
    context: Option<&ElementName>,
) -> Result<InsertionMode, ParseFault> {
    let mut forest = Forest::new(alloc)?;
    let mut stack = opened(alloc, &mut forest, names)?;
    mode_of(&mut stack, has_head, context)
}

fn mode_in(
    alloc: Global,
    names: &[&str],
    has_head: bool,
    context: Option<&str>,
) -> Result<InsertionMode, ParseFault> {
    let context = context_of(alloc, context)?;
    mode_in_context(alloc, names, has_head, context.as_ref())
}

#[test]
fn the_insertion_mode_is_reset(rt: HostRuntime) {
    let rows: &[(&[&str], bool, Option<&str>, InsertionMode)] = &[
        (&["html"], false, None, InsertionMode::BeforeHead),
        (&["html"], true, None, InsertionMode::AfterHead),
        (&["html", "head"], true, None, InsertionMode::InHead),
        (&["html", "body", "div"], true, None, InsertionMode::InBody),
        (
            &["html", "body", "table", "b"],
            true,
            None,
            InsertionMode::InTable,
        ),
        (
            &["html", "table", "tbody", "tr", "td"],
            true,
            None,
            InsertionMode::InCell,
        ),
        (
            &["html", "table", "tbody", "tr"],
            true,
            None,
            InsertionMode::InRow,
        ),
        (
            &["html", "table", "tfoot"],
            true,
            None,
            InsertionMode::InTableBody,
        ),
        (
            &["html", "table", "caption"],
            true,
            None,
            InsertionMode::InCaption,
        ),
        (
            &["html", "table", "colgroup"],
            true,
            None,
            InsertionMode::InColumnGroup,
        ),
        (
            &["html", "template", "p"],
            true,
            None,
            InsertionMode::InTable,
        ),
        (&["html", "frameset"], true, None, InsertionMode::InFrameset),
        (&["html"], false, Some("td"), InsertionMode::InBody),
        (&["html"], false, Some("head"), InsertionMode::InBody),
        (&["html"], false, Some("tr"), InsertionMode::InRow),
        (&["html"], false, Some("template"), InsertionMode::InTable),
        (&["html", "td"], false, Some("tr"), InsertionMode::InCell),
        (&[], false, None, InsertionMode::InBody),
    ];
    for &(names, has_head, context, want) in rows {
        assert!(rt; mode_in(rt.alloc(), names, has_head, context) == Ok(want));
    }
}

// How many elements stay open where one of this name ends, and how many errors there are.
fn close(
    alloc: Global,
    forest: &mut Forest,
    stack: &mut Stack<Forest>,
    name: &str,
) -> Result<(usize, u64), ParseFault> {
    let name = LocalName::from_str(alloc, name)?;
    stack.expect_to_close(forest, ElementClass::html(&name), &name);
    Ok((stack.open_elems().len(), forest.error_count()))
}

fn closed(alloc: Global, names: &[&str], name: &str) -> Result<(usize, u64), ParseFault> {
    let mut forest = Forest::new(alloc)?;
    let mut stack = opened(alloc, &mut forest, names)?;
    close(alloc, &mut forest, &mut stack, name)
}

#[test]
fn what_is_left_open_is_an_error(rt: HostRuntime) {
    let rows: &[(&[&str], &str, usize, u64)] = &[
        (&["html", "body", "p"], "p", 2, 0),
        (&["html", "body", "p", "b"], "p", 2, 1),
        (&["html", "body", "my-tag", "my-other"], "my-tag", 2, 1),
        (&["html", "body"], "p", 0, 1),
    ];
    for (names, name, left, errors) in rows {
        assert!(rt; closed(rt.alloc(), names, name) == Ok((*left, *errors)));
    }
}

// How many errors there are where the body ends.
fn errors_at_end(alloc: Global, names: &[&str]) -> Result<u64, ParseFault> {
    let mut forest = Forest::new(alloc)?;
    let stack = opened(alloc, &mut forest, names)?;
    stack.check_body_end(&mut forest);
    Ok(forest.error_count())
}

#[test]
fn the_end_of_the_body_is_checked(rt: HostRuntime) {
    let rows: &[(&[&str], u64)] = &[
        (&["html", "body", "li", "p"], 0),
        (&["html", "body", "b", "p"], 1),
        (&["html", "body", "rb"], 1),
    ];
    for (names, errors) in rows {
        assert!(rt; errors_at_end(rt.alloc(), names) == Ok(*errors));
    }
}

// An end tag where one element that stands nowhere is open.
fn end(
    alloc: Global,
    forest: &mut Forest,
    stack: &mut Stack<Forest>,
    open: &str,
    end: &str,
) -> Result<(), ParseFault>
    requires { IsStanding forest.old stack.old.open_elems stack.old.active_formatting }
{
    let name = LocalName::from_str(alloc, open)?;
    let element = NewElement::html(name, Attributes::new(alloc));
    stack.open_element(forest, element)?;
    let end = LocalName::from_str(alloc, end)?;
    stack.any_other_end_tag(forest, ElementClass::html(&end), &end);
    Ok(())
}

// What the end tag leaves open, and how many errors there are.
fn ended(alloc: Global, open: &str, tag: &str) -> Result<(usize, u64), ParseFault> {
    let mut forest = Forest::new(alloc)?;
    let mut stack = Stack::new(alloc, Rules::Html5ever);
    end(alloc, &mut forest, &mut stack, open, tag)?;
    Ok((stack.open_elems().len(), forest.error_count()))
}

#[test]
fn end_tags_are_dropped_where_nothing_special_is_open(rt: HostRuntime) {
    let rows: &[(&str, &str, (usize, u64))] = &[
        ("b", "b", (0, 0)),
        ("b", "i", (1, 1)),
        ("option", "option", (0, 0)),
        ("my-tag", "option", (1, 1)),
    ];
    for (open, end, want) in rows {
        assert!(rt; ended(rt.alloc(), open, end) == Ok(*want));
    }
}
