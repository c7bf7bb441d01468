//! The insertion mode that the open elements ask for (HTML Standard, section 13.2.4.1, "reset the insertion mode appropriately").
ghost use Rattle.std.specs.Prelude.{◌≡◌, ℕ, is_some};
ghost use Rattle.html_rules.specs.Reset.{mode_of_context, mode_of_html, mode_of_open};
ghost use Rattle.html_rules.specs.State.{State};
ghost use Rattle.html_stack.specs.Modes.{IsContext, Knows, MayAsk, named_open};
ghost use Rattle.html_stack.specs.Stacks.{opens_of};

use crate::entries::OpenElement;
use html_names::ElementName;
use html_rules::{InsertionMode, TagSet};

/// The mode that `html` asks for.
fn mode_of_html(has_head: bool) -> InsertionMode
    ensures { (s : State) → is_some s.head_elem ≡ has_head → mode_of_html s.head_elem ≡ result }
{
    if has_head {
        InsertionMode::AfterHead
    } else {
        InsertionMode::BeforeHead
    }
}

/// The mode that an element asks for wherever it stands, if it does.
fn own_mode(
    name: &ElementName,
    template_mode: InsertionMode,
    has_head: bool,
) -> Option<InsertionMode>
    ensures { (s : State) (number : ℕ) → Knows s template_mode has_head → MayAsk s (named_open number name.now) result }
{
    if name.is_in(TagSet::Tr) {
        Some(InsertionMode::InRow)
    } else if name.is_in(TagSet::TbodyTfootThead) {
        Some(InsertionMode::InTableBody)
    } else if name.is_in(TagSet::Caption) {
        Some(InsertionMode::InCaption)
    } else if name.is_in(TagSet::Colgroup) {
        Some(InsertionMode::InColumnGroup)
    } else if name.is_in(TagSet::Table) {
        Some(InsertionMode::InTable)
    } else if name.is_in(TagSet::Template) {
        Some(template_mode)
    } else if name.is_in(TagSet::Body) {
        Some(InsertionMode::InBody)
    } else if name.is_in(TagSet::Frameset) {
        Some(InsertionMode::InFrameset)
    } else if name.is_in(TagSet::Html) {
        Some(mode_of_html(has_head))
    } else {
        None
    }
}

/// The mode that the context of a fragment asks for in the root's place; outside of fragments, that of the root.
fn mode_of_context(
    context: Option<&ElementName>,
    template_mode: InsertionMode,
    has_head: bool,
) -> InsertionMode
    ensures { (s : State) → Knows s template_mode has_head → IsContext s.context_elem context.entry
        → mode_of_context s s.context_elem ≡ result }
{
    match context {
        None => mode_of_html(has_head),
        Some(name) => match own_mode(name, template_mode, has_head) {
            Some(mode) => mode,
            None => InsertionMode::InBody,
        },
    }
}

/// The mode that the open elements ask for, from the current node back.
pub(crate) fn mode_of_open<Handle>(
    elements: &[OpenElement<Handle>],
    template_mode: InsertionMode,
    has_head: bool,
    context: Option<&ElementName>,
) -> InsertionMode
    ensures { (node : Handle → ℕ) (s : State) → Knows s template_mode has_head
        → IsContext s.context_elem context.entry → mode_of_open s (opens_of node elements.now) ≡ result }
{
    let mut i = elements.len();
    while i > 0 {
        i -= 1;
        let element = &elements[i];
        if element.name.is_in(TagSet::TdTh) {
            return InsertionMode::InCell;
        }
        if element.name.is_in(TagSet::Head) {
            return InsertionMode::InHead;
        }
        if element.name.is_in(TagSet::Html) {
            return mode_of_context(context, template_mode, has_head);
        }
        if let Some(mode) = own_mode(&element.name, template_mode, has_head) {
            return mode;
        }
    }
    InsertionMode::InBody
}
