//! The elements that selectors select, one by one.
ghost use Rattle.std.specs.Prelude.{◌≡◌, IfErr, IfOk, filter};
ghost use Rattle.std.specs.Iterator.{YieldsFirst};
ghost use Rattle.markup.specs.declared.fault.ParseFault.TheVariants.{Memory};
ghost use Rattle.html_nodes.specs.Below.{below};
ghost use Rattle.html_selector_matching.specs.Selects.{is_any, scope_of};

use crate::asked::Asked;
use crate::direct::are_direct;
use crate::page_index::Index;
use html_forest::{Forest, NodeId};
use html_nodes::{Descendants, nodes_below};
use html_selector_matching::scope_of;
use markup::ParseFault;
use selectors::Selectors;
use std::alloc::Global;
use std::marker::Model;

/// The elements below a node that selectors select, one by one, in tree order. A contract sees the list of those that are left.
#[derive(Drop)]
pub struct Selected<'a> {
    asked: Asked<'a>,
    nodes: Descendants<'a>,
}

impl<'a> Model for Selected<'a> {
    ghost use Rattle.std.specs.Prelude.{List, ℕ, filter};
    ghost use Rattle.html_selector_matching.specs.Selects.{is_any};

    ghost Value = { List ℕ };

    ghost view = { λ s. filter (is_any s.asked.selectors.now s.asked.forest.now s.asked.scope) s.nodes };
}

// The next of some nodes that is selected.
fn next_selected(asked: &Asked<'_>, nodes: &mut Descendants<'_>) -> Option<NodeId>
    ensures { YieldsFirst (filter (is_any asked.now.selectors.now asked.now.forest.now asked.now.scope))
        nodes.old result nodes.new }
{
    while let Some(id) = nodes.next() {
        if asked.is_selected(id) {
            return Some(id);
        }
    }
    None
}

impl<'a> Iterator for Selected<'a> {
    ghost use Rattle.std.specs.Iterator.{YieldsFirst, item_count};

    type Item = NodeId;

    ghost next_gives = { YieldsFirst (λ rest. rest) };

    ghost remaining = { item_count (λ rest. rest) };

    fn next(&mut self) -> Option<NodeId> {
        next_selected(&self.asked, &mut self.nodes)
    }
}

impl<'f> Index<'f> {
    /// The elements below a node that are selected, one by one, in tree order. `:scope` is as for [`select_all`](Index::select_all).
    ///
    /// Each element is looked at when it is asked for, and none after the last, where the selectors ask nothing but elements, their parents
    /// and the elements just before them: types, ids, classes, attributes (without `*=`), `:root`, `:scope`, `:empty`, `:is()` and `:not()`
    /// of these, joined by `>` and `+`. Other selectors are searched in the whole page by this call, in the time of
    /// [`select_all`](Index::select_all).
    ///
    /// Errors: [`ParseFault::Memory`].
    pub fn select_each<'a>(
        &'a self,
        top: NodeId,
        selectors: &'a Selectors,
    ) -> Result<Selected<'a>, ParseFault>
        ensures ok { IfOk result (λ each. each
            ≡ filter (is_any selectors.now self.now.forest.now (scope_of self.now.forest.now top)) (below self.now.forest.now top)) }
        ensures fault { IfErr result (λ fault. fault ≡ Memory) }
    {
        let nodes = nodes_below(self.forest, top);
        let asked = Asked::new(self, scope_of(self.forest, top), selectors)?;
        Ok(Selected { asked, nodes })
    }
}

/// The elements below a node that are selected, one by one, in tree order, by an [`Index`] that is made for it where one is needed.
/// `:scope` is as for [`select_all`](crate::select_all); what is looked at when is as for [`Index::select_each`].
///
/// Errors: [`ParseFault::Memory`].
pub fn select_each<'a>(
    alloc: Global,
    forest: &'a Forest,
    top: NodeId,
    selectors: &'a Selectors,
) -> Result<Selected<'a>, ParseFault>
    ensures ok { IfOk result (λ each. each
        ≡ filter (is_any selectors.now forest.now (scope_of forest.now top)) (below forest.now top)) }
    ensures fault { IfErr result (λ fault. fault ≡ Memory) }
{
    let scope = scope_of(forest, top);
    let nodes = nodes_below(forest, top);
    if are_direct(selectors) {
        let asked = Asked::directly(alloc, forest, scope, selectors);
        return Ok(Selected { asked, nodes });
    }
    let index = Index::new(alloc, forest)?;
    let asked = Asked::new(&index, scope, selectors)?;
    Ok(Selected { asked, nodes })
}
