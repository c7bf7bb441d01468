//! What is asked of one element after the other.
ghost use Rattle.std.specs.Prelude.{◌≡◌, ℕ, IfErr, IfOk, false, true};
ghost use Rattle.markup.specs.declared.fault.ParseFault.TheVariants.{Memory};
ghost use Rattle.html_selector_matching.specs.Selects as selects;
ghost use Rattle.html_selectors.specs.Columns.{at};
ghost use Rattle.html_selectors.specs.Direct as direct;

use crate::column::is_in;
use crate::direct::{are_direct, is_any};
use crate::page_index::Index;
use crate::selecting::selected;
use html_forest::{Forest, NodeId};
use markup::ParseFault;
use selectors::Selectors;
use std::alloc::Global;

/// Selectors, the page and the scope in which they are asked. Where they are not direct, the column of what they select is there.
#[derive(Drop)]
pub(crate) struct Asked<'a> {
    pub forest: &'a Forest,
    pub scope: NodeId,
    pub selectors: &'a Selectors,
    is_direct: bool,
    column: Vec<bool>,
    ghost alone: { is_direct ≡ true → direct.are_direct selectors.now ≡ true },
    ghost found: { is_direct ≡ false → (n : ℕ) → at column.items n ≡ selects.is_any selectors.now forest.now scope n },
}

impl<'a> Asked<'a> {
    /// Selectors that are asked without an index: direct ones.
    pub fn directly(
        alloc: Global,
        forest: &'a Forest,
        scope: NodeId,
        selectors: &'a Selectors,
    ) -> Asked<'a>
        requires { direct.are_direct selectors.now ≡ true }
        ensures forest { result.forest.now ≡ forest.now }
        ensures scope { result.scope ≡ scope }
        ensures selectors { result.selectors.now ≡ selectors.now }
    {
        Asked {
            forest,
            scope,
            selectors,
            is_direct: true,
            column: Vec::new(alloc),
        }
    }

    // Selectors that the page is searched for.
    fn searched(
        index: &Index<'a>,
        scope: NodeId,
        selectors: &'a Selectors,
    ) -> Result<Asked<'a>, ParseFault>
        ensures forest { IfOk result (λ asked. asked.forest.now ≡ index.now.forest.now) }
        ensures scope { IfOk result (λ asked. asked.scope ≡ scope) }
        ensures selectors { IfOk result (λ asked. asked.selectors.now ≡ selectors.now) }
        ensures fault { IfErr result (λ fault. fault ≡ Memory) }
    {
        let column = selected(index, scope, selectors)?;
        Ok(Asked {
            forest: index.forest,
            scope,
            selectors,
            is_direct: false,
            column,
        })
    }

    /// Any selectors, by the index of a page.
    pub fn new(
        index: &Index<'a>,
        scope: NodeId,
        selectors: &'a Selectors,
    ) -> Result<Asked<'a>, ParseFault>
        ensures forest { IfOk result (λ asked. asked.forest.now ≡ index.now.forest.now) }
        ensures scope { IfOk result (λ asked. asked.scope ≡ scope) }
        ensures selectors { IfOk result (λ asked. asked.selectors.now ≡ selectors.now) }
        ensures fault { IfErr result (λ fault. fault ≡ Memory) }
    {
        if are_direct(selectors) {
            let forest = index.forest;
            return Ok(Asked::directly(index.alloc, forest, scope, selectors));
        }
        Asked::searched(index, scope, selectors)
    }

    /// Whether the selectors select a node.
    pub fn is_selected(&self, id: NodeId) -> bool
        ensures { result ≡ selects.is_any self.now.selectors.now self.now.forest.now self.now.scope id }
    {
        if self.is_direct {
            is_any(self.forest, self.scope, id, self.selectors)
        } else {
            is_in(self.column.as_slice(), id)
        }
    }
}
