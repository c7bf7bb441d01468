//! Changes of the nodes, one at a time. They know nothing of what makes a forest.
ghost use Rattle.std.specs.Prelude.{◌≡◌, ◌+◌, ◌<◌, ℕ, ◌∷◌, ◌++◌, [], Some, None, IfSome, slice_set, vec_len};
ghost use Rattle.std.specs.Vec.{vec_capacity};
ghost use Rattle.html_forest.specs.Links.{adopted, before_set, after_set, emptied, ended_by, led_by, link_at, moved_after};
ghost use Rattle.html_forest.specs.Links.{moved_to, no_links, placed, unplaced};
ghost use Rattle.html_forest.specs.Views.{entries_of, links_of, walk_from, IsWalk};

use crate::entry::Entry;
use crate::link::{Link, Links};
use crate::node::{Node, NodeId};
use std::alloc::Global;

/// Adds a node that stands nowhere.
pub fn add_node(nodes: &mut Vec<Node>, entry: Entry)
    requires { vec_len nodes.old < vec_capacity nodes.old }
    ensures entries { entries_of nodes.new.items ≡ entries_of nodes.old.items ++ entry ∷ [] }
    ensures links { links_of nodes.new.items ≡ links_of nodes.old.items ++ no_links ∷ [] }
    ensures len { vec_len nodes.new ≡ vec_len nodes.old + 1 }
    ensures capacity { vec_capacity nodes.new ≡ vec_capacity nodes.old }
{
    nodes.push_reserved(Node {
        entry,
        links: Links {
            parent: Link::none(),
            previous: Link::none(),
            next: Link::none(),
            first: Link::none(),
            last: Link::none(),
        },
    });
}

/// The neighbours of a node.
pub fn links(nodes: &Vec<Node>, at: NodeId) -> Links
    requires { at < vec_len nodes.now }
    ensures { result ≡ link_at (links_of nodes.now.items) at }
{
    nodes[at.number()].links
}

/// Gives a node other neighbours.
fn set_links(nodes: &mut Vec<Node>, at: NodeId, links: Links)
    requires { at < vec_len nodes.old }
    ensures entries { entries_of nodes.new.items ≡ entries_of nodes.old.items }
    ensures links { links_of nodes.new.items ≡ slice_set (links_of nodes.old.items) at links }
    ensures len { vec_len nodes.new ≡ vec_len nodes.old }
{
    nodes[at.number()].links = links;
}

/// Notes what stands after a node, or else first in its parent.
fn set_after(nodes: &mut Vec<Node>, parent: NodeId, previous: Option<NodeId>, to: Link)
    requires parent { parent < vec_len nodes.old }
    requires previous { IfSome previous (λ id. id < vec_len nodes.old) }
    ensures entries { entries_of nodes.new.items ≡ entries_of nodes.old.items }
    ensures links { (n : ℕ) → link_at (links_of nodes.new.items) n ≡ after_set parent previous to n (link_at (links_of nodes.old.items) n) }
    ensures len { vec_len nodes.new ≡ vec_len nodes.old }
{
    match previous {
        Some(id) => {
            let mut changed = links(nodes, id);
            changed.next = to;
            set_links(nodes, id, changed);
        }
        None => {
            let mut changed = links(nodes, parent);
            changed.first = to;
            set_links(nodes, parent, changed);
        }
    }
}

/// Notes what stands before a node, or else last in its parent.
fn set_before(nodes: &mut Vec<Node>, parent: NodeId, next: Option<NodeId>, to: Link)
    requires parent { parent < vec_len nodes.old }
    requires next { IfSome next (λ id. id < vec_len nodes.old) }
    ensures entries { entries_of nodes.new.items ≡ entries_of nodes.old.items }
    ensures links { (n : ℕ) → link_at (links_of nodes.new.items) n ≡ before_set parent next to n (link_at (links_of nodes.old.items) n) }
    ensures len { vec_len nodes.new ≡ vec_len nodes.old }
{
    match next {
        Some(id) => {
            let mut changed = links(nodes, id);
            changed.previous = to;
            set_links(nodes, id, changed);
        }
        None => {
            let mut changed = links(nodes, parent);
            changed.last = to;
            set_links(nodes, parent, changed);
        }
    }
}

/// Notes under which parent a node stands, and between which neighbours.
fn set_place(nodes: &mut Vec<Node>, child: NodeId, parent: Link, previous: Link, next: Link)
    requires { child < vec_len nodes.old }
    ensures entries { entries_of nodes.new.items ≡ entries_of nodes.old.items }
    ensures links { (n : ℕ) → link_at (links_of nodes.new.items) n ≡ moved_to child parent previous next n
        (link_at (links_of nodes.old.items) n) }
    ensures len { vec_len nodes.new ≡ vec_len nodes.old }
{
    let mut changed = links(nodes, child);
    changed.parent = parent;
    changed.previous = previous;
    changed.next = next;
    set_links(nodes, child, changed);
}

/// Puts a node under a parent, between two neighbours.
pub fn link_between(
    nodes: &mut Vec<Node>,
    parent: NodeId,
    previous: Option<NodeId>,
    next: Option<NodeId>,
    child: NodeId,
)
    requires parent { parent < vec_len nodes.old }
    requires previous { IfSome previous (λ id. id < vec_len nodes.old) }
    requires next { IfSome next (λ id. id < vec_len nodes.old) }
    requires child { child < vec_len nodes.old }
    ensures entries { entries_of nodes.new.items ≡ entries_of nodes.old.items }
    ensures links { (n : ℕ) → link_at (links_of nodes.new.items) n ≡ placed parent previous next child n
        (link_at (links_of nodes.old.items) n) }
    ensures len { vec_len nodes.new ≡ vec_len nodes.old }
{
    let above = Link::new(Some(parent));
    let before = Link::new(previous);
    let behind = Link::new(next);
    set_place(nodes, child, above, before, behind);
    set_before(nodes, parent, behind.node(), Link::new(Some(child)));
    set_after(nodes, parent, before.node(), Link::new(Some(child)));
}

/// Takes a node out of its parent, from between its neighbours.
pub fn unlink(nodes: &mut Vec<Node>, parent: NodeId, child: NodeId)
    requires parent { parent < vec_len nodes.old }
    requires child { child < vec_len nodes.old }
    requires previous { IfSome (link_at (links_of nodes.old.items) child).previous (λ id. id < vec_len nodes.old) }
    requires next { IfSome (link_at (links_of nodes.old.items) child).next (λ id. id < vec_len nodes.old) }
    ensures entries { entries_of nodes.new.items ≡ entries_of nodes.old.items }
    ensures links { (n : ℕ) → link_at (links_of nodes.new.items) n ≡ unplaced parent
        (link_at (links_of nodes.old.items) child).previous (link_at (links_of nodes.old.items) child).next child n
        (link_at (links_of nodes.old.items) n) }
    ensures len { vec_len nodes.new ≡ vec_len nodes.old }
{
    let Links { previous, next, .. } = links(nodes, child);
    set_place(nodes, child, Link::none(), Link::none(), Link::none());
    set_before(nodes, parent, next.node(), previous);
    set_after(nodes, parent, previous.node(), next);
}

/// Notes under which parent some nodes stand that are next to one another, from `first` on.
fn adopt(nodes: &mut Vec<Node>, first: Option<NodeId>, parent: NodeId)
    requires first { IsWalk nodes.old.items first }
    requires parent { parent < vec_len nodes.old }
    ensures entries { entries_of nodes.new.items ≡ entries_of nodes.old.items }
    ensures links { (n : ℕ) → link_at (links_of nodes.new.items) n ≡ adopted parent
        (walk_from nodes.old.items first) n (link_at (links_of nodes.old.items) n) }
    ensures len { vec_len nodes.new ≡ vec_len nodes.old }
{
    let mut at = first;
    while let Some(child) = at {
        let mut changed = links(nodes, child);
        at = changed.next.node();
        changed.parent = Link::new(Some(parent));
        set_links(nodes, child, changed);
    }
}

/// Notes that a node has no children.
fn set_childless(nodes: &mut Vec<Node>, parent: NodeId)
    requires { parent < vec_len nodes.old }
    ensures entries { entries_of nodes.new.items ≡ entries_of nodes.old.items }
    ensures links { (n : ℕ) → link_at (links_of nodes.new.items) n ≡ emptied parent n (link_at (links_of nodes.old.items) n) }
    ensures len { vec_len nodes.new ≡ vec_len nodes.old }
{
    let mut changed = links(nodes, parent);
    changed.first = Link::none();
    changed.last = Link::none();
    set_links(nodes, parent, changed);
}

/// Notes which child of a node is its last.
fn set_last(nodes: &mut Vec<Node>, parent: NodeId, last: Link)
    requires { parent < vec_len nodes.old }
    ensures entries { entries_of nodes.new.items ≡ entries_of nodes.old.items }
    ensures links { (n : ℕ) → link_at (links_of nodes.new.items) n ≡ ended_by parent last n (link_at (links_of nodes.old.items) n) }
    ensures len { vec_len nodes.new ≡ vec_len nodes.old }
{
    let mut changed = links(nodes, parent);
    changed.last = last;
    set_links(nodes, parent, changed);
}

/// Notes what stands before a node.
fn set_previous(nodes: &mut Vec<Node>, child: NodeId, previous: Link)
    requires { child < vec_len nodes.old }
    ensures entries { entries_of nodes.new.items ≡ entries_of nodes.old.items }
    ensures links { (n : ℕ) → link_at (links_of nodes.new.items) n ≡ led_by child previous n (link_at (links_of nodes.old.items) n) }
    ensures len { vec_len nodes.new ≡ vec_len nodes.old }
{
    let mut changed = links(nodes, child);
    changed.previous = previous;
    set_links(nodes, child, changed);
}

/// Moves all children of one node, in order, after those of another one.
pub fn move_children(nodes: &mut Vec<Node>, from: NodeId, to: NodeId)
    requires from { from < vec_len nodes.old }
    requires to { to < vec_len nodes.old }
    requires walk { IsWalk nodes.old.items (link_at (links_of nodes.old.items) from).first }
    requires first { IfSome (link_at (links_of nodes.old.items) from).first (λ id. id < vec_len nodes.old) }
    requires tail { IfSome (link_at (links_of nodes.old.items) to).last (λ id. id < vec_len nodes.old) }
    ensures entries { entries_of nodes.new.items ≡ entries_of nodes.old.items }
    ensures links { (n : ℕ) → link_at (links_of nodes.new.items) n ≡ moved_after from to
        (link_at (links_of nodes.old.items) to).last (link_at (links_of nodes.old.items) from).first
        (link_at (links_of nodes.old.items) from).last
        (walk_from nodes.old.items (link_at (links_of nodes.old.items) from).first) n (link_at (links_of nodes.old.items) n) }
    ensures len { vec_len nodes.new ≡ vec_len nodes.old }
{
    let Links { first, last, .. } = links(nodes, from);
    let Links { last: tail, .. } = links(nodes, to);
    if let Some(head) = first.node() {
        adopt(nodes, first.node(), to);
        set_after(nodes, to, tail.node(), first);
        set_previous(nodes, head, tail);
        set_last(nodes, to, last);
        set_childless(nodes, from);
    }
}
