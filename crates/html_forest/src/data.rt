//! Changes of what nodes are. They know nothing of what makes a forest.
ghost use Rattle.std.specs.Prelude.{◌≡◌, ◌<◌, OnOk, OnErr, IfOk, IfErr, is_some, vec_len};
ghost use Rattle.markup.specs.Forest.{text_of, with_attributes};
ghost use Rattle.markup.specs.declared.fault.ParseFault.TheVariants.{Memory};
ghost use Rattle.html_forest.specs.Entries.{AreStored, IsGrown, IsMade, IsStored, data_in, joined_data};
ghost use Rattle.html_forest.specs.Views.{about_at, about_with, abouts_of, entries_of, joined_abouts, links_of};

use crate::entry::Entry;
use crate::node::{Node, NodeId};
use crate::store::Store;
use markup::{Attributes, ParseFault, Text};
use std::alloc::Global;

/// Adds text at the end of a text, and says whether it is one.
fn join_entry(entry: &mut Entry, store: &mut Store, more: &Text) -> Result<bool, ParseFault>
    requires { IsStored store.old entry.old }
    ensures grown { IsGrown store.old store.new }
    ensures joined { IfOk result (λ joined. joined ≡ is_some (text_of (data_in store.old entry.old))) }
    ensures ok { OnOk result (IsMade store.new entry.new (joined_data more.now (data_in store.old entry.old))) }
    ensures err { OnErr result (entry.new ≡ entry.old) }
    ensures fault { IfErr result (λ fault. fault ≡ Memory) }
{
    match entry {
        Entry::Text { len, at } => {
            let joined = store.joined(*len, *at, more)?;
            *entry = joined;
            Ok(true)
        }
        Entry::OwnText(text) => {
            text.append(more)?;
            Ok(true)
        }
        _ => Ok(false),
    }
}

/// Adds text at the end of a text node, and says whether it is one.
pub fn join_text(
    nodes: &mut Vec<Node>,
    store: &mut Store,
    at: NodeId,
    more: &Text,
) -> Result<bool, ParseFault>
    requires there { at < vec_len nodes.old }
    requires stored { AreStored store.old (entries_of nodes.old.items) }
    ensures joined { IfOk result (λ joined. joined ≡ is_some (text_of (about_at (abouts_of store.old nodes.old.items) at))) }
    ensures ok { OnOk result (abouts_of store.new nodes.new.items ≡ joined_abouts
        (abouts_of store.old nodes.old.items) at more.now (text_of (about_at (abouts_of store.old nodes.old.items) at))) }
    ensures err { OnErr result (abouts_of store.new nodes.new.items ≡ abouts_of store.old nodes.old.items) }
    ensures fault { IfErr result (λ fault. fault ≡ Memory) }
    ensures stored { AreStored store.new (entries_of nodes.new.items) }
    ensures links { links_of nodes.new.items ≡ links_of nodes.old.items }
    ensures len { vec_len nodes.new ≡ vec_len nodes.old }
{
    let node = &mut nodes[at.number()];
    join_entry(&mut node.entry, store, more)
}

/// Gives an element, in order, those of the attributes whose name it lacks.
fn add_to_entry(entry: &mut Entry, store: &Store, others: Attributes) -> Result<(), ParseFault>
    requires { IsStored store.now entry.old }
    ensures ok { OnOk result (IsMade store.now entry.new (with_attributes (data_in store.now entry.old) others)) }
    ensures err { OnErr result (entry.new ≡ entry.old) }
    ensures fault { IfErr result (λ fault. fault ≡ Memory) }
{
    match entry {
        Entry::Element {
            count,
            template,
            integration_point,
            name,
            at,
        } => {
            let element = store.own(*name, *at, *count, others)?;
            let own = Entry::OwnElement {
                template: *template,
                integration_point: *integration_point,
                element,
            };
            *entry = own;
            Ok(())
        }
        Entry::OwnElement { element, .. } => {
            element.attrs.add_missing(others)?;
            Ok(())
        }
        _ => Ok(()),
    }
}

/// Gives an element node, in order, those of the attributes whose name it lacks.
pub fn add_attributes(
    nodes: &mut Vec<Node>,
    store: &Store,
    at: NodeId,
    others: Attributes,
) -> Result<(), ParseFault>
    requires there { at < vec_len nodes.old }
    requires stored { AreStored store.now (entries_of nodes.old.items) }
    ensures ok { OnOk result (abouts_of store.now nodes.new.items ≡ about_with (abouts_of store.now nodes.old.items)
        at (with_attributes (about_at (abouts_of store.now nodes.old.items) at) others)) }
    ensures err { OnErr result (abouts_of store.now nodes.new.items ≡ abouts_of store.now nodes.old.items) }
    ensures fault { IfErr result (λ fault. fault ≡ Memory) }
    ensures stored { AreStored store.now (entries_of nodes.new.items) }
    ensures links { links_of nodes.new.items ≡ links_of nodes.old.items }
    ensures len { vec_len nodes.new ≡ vec_len nodes.old }
{
    let node = &mut nodes[at.number()];
    add_to_entry(&mut node.entry, store, others)
}
