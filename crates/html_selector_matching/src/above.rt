//! The nodes above a node, one by one.
ghost use Rattle.std.specs.Prelude.{◌≡◌};
ghost use Rattle.html_selector_matching.specs.Around.{above};

use html_forest::{Forest, NodeId};
use std::marker::Model;

/// The nodes above a node, its parent first (DOM Standard, section 1.1, ancestors). A contract sees the list of those that are left.
#[derive(Drop)]
pub struct Above<'a> {
    forest: &'a Forest,
    next: Option<NodeId>,
}

impl<'a> Model for Above<'a> {
    ghost use Rattle.std.specs.Prelude.{List, ℕ};
    ghost use Rattle.html_selector_matching.specs.Around.{line};

    ghost Value = { List ℕ };

    ghost view = { λ a. line a.forest.now a.next };
}

impl<'a> Iterator for Above<'a> {
    ghost use Rattle.std.specs.Iterator.{YieldsFirst, item_count};

    type Item = NodeId;

    ghost next_gives = { YieldsFirst (λ rest. rest) };

    ghost remaining = { item_count (λ rest. rest) };

    fn next(&mut self) -> Option<NodeId> {
        match self.next {
            Some(id) => {
                self.forest.keeps();
                self.next = self.forest.parent(id);
                Some(id)
            }
            None => None,
        }
    }
}

/// The nodes above a node, its parent first.
pub fn nodes_above(forest: &Forest, id: NodeId) -> Above<'_>
    ensures { result ≡ above forest.now id }
{
    Above {
        forest,
        next: forest.parent(id),
    }
}
