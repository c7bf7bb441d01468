//! The elements of a page that a text of selectors selects, in one call.
//!
//! Tests: `selectors_tests`.
#![tactic(auto)]

ghost use Rattle.std.specs.Prelude.{IfErr, IfOk};
ghost use Rattle.std.specs.Str.{chars};
ghost use Rattle.html_select.specs.Found.{IsFound};
ghost use Rattle.html_selector_text.specs.Grammar.{parsed};
ghost use Rattle.html_selector_text.specs.Results.{Fails};

pub mod rows;

use html_forest::{Forest, NodeId};
use html_selector_text::{Selector, SelectorError};
use html_selectors::select_all;
use std::alloc::Global;

/// The elements below a node that a text of selectors selects (Selectors Level 4), in tree order, as `querySelectorAll` does. `:scope` is
/// that node, or where it is no element the first element in it.
///
/// A text that is used more than once is better parsed once ([`Selector::parse`]), and a page that is asked more than once has its
/// [`Index`](html_selectors::Index).
///
/// Errors: [`SelectorError::Syntax`] where the text is no selector, with the place; [`SelectorError::Memory`].
pub fn select(
    alloc: Global,
    forest: &Forest,
    top: NodeId,
    text: &str,
) -> Result<Vec<NodeId>, SelectorError>
    ensures ok { IfOk result (λ found. IsFound (chars text.now) forest.now top found.items) }
    ensures err { IfErr result (λ error. Fails error (parsed (chars text.now))) }
{
    let selector = Selector::parse(alloc, text)?;
    Ok(select_all(alloc, forest, top, &selector)?)
}
