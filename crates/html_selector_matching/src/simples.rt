//! What is asked of one element alone.
ghost use Rattle.std.specs.Prelude.{◌≡◌, ◌==◌, ℕ, List, codes, encode_utf8_all, length, map};
ghost use Rattle.std.specs.Char.{to_ascii_lowercase};
ghost use Rattle.std.specs.List.{list_all, list_any};
ghost use Rattle.std.specs.Str.{chars};
ghost use Rattle.markup.specs.Forest.{children_of, data_of, element_name, parent_of};
ghost use Rattle.html_nodes.specs.Looks as looks;
ghost use Rattle.html_nodes.specs.Looks.{attribute_of};
ghost use Rattle.html_selector_matching.specs.Simples as simples;
ghost use Rattle.html_selector_matching.specs.Simples.{counts, has_attribute, is_it, is_quirky, passes_value};
ghost use Rattle.selectors.specs.Compare.{has_word, same};

use crate::names::{
    asked_of, has_value_word, is_html, is_insensitive, is_local, is_value, local_of, value_holds,
};
use crate::places::{is_nth, place_of};
use html_forest::{Forest, NodeData, NodeId};
use html_nodes::{attribute_of, attributes_of, element_name};
use markup::{Attribute, KnownNamespace, LocalName, Namespace, QualName, QuirksMode, Text};
use selectors::{AttributeTest, Name, NamespaceTest, Nth, Simple};

fn is_named(forest: &Forest, id: NodeId, wanted: &Name) -> bool
    ensures { result ≡ simples.is_named (element_name (data_of forest.now id)) wanted.now }
{
    match element_name(forest, id) {
        Some(name) => local_of(name) == asked_of(is_html(name), wanted),
        None => false,
    }
}

/// Whether an element has one of two names: the one that HTML's elements are asked for, or the one that others are.
pub fn is_named_by(forest: &Forest, id: NodeId, written: &LocalName, lowered: &LocalName) -> bool
    ensures { (wanted : List ℕ) → written.now ≡ wanted → lowered.now ≡ map to_ascii_lowercase wanted
        → result ≡ simples.is_named (element_name (data_of forest.now id)) wanted }
{
    match element_name(forest, id) {
        Some(name) => {
            if is_html(name) {
                is_local(&name.local, lowered)
            } else {
                is_local(&name.local, written)
            }
        }
        None => false,
    }
}

fn is_in_namespace(forest: &Forest, id: NodeId, wanted: KnownNamespace) -> bool
    ensures { result ≡ simples.is_in_namespace (element_name (data_of forest.now id)) wanted }
{
    match element_name(forest, id) {
        Some(name) => name.ns.is_known(wanted),
        None => false,
    }
}

fn is_quirky(forest: &Forest) -> bool
    ensures { result ≡ is_quirky forest.now.quirks }
{
    match forest.quirks() {
        QuirksMode::Quirks => true,
        QuirksMode::LimitedQuirks => false,
        QuirksMode::NoQuirks => false,
    }
}

fn has_id(forest: &Forest, id: NodeId, wanted: &Text) -> bool
    ensures { result ≡ passes_value (attribute_of forest.now id (codes "id"))
        (λ value. same (is_quirky forest.now.quirks) value (encode_utf8_all wanted.now)) }
{
    let insensitive = is_quirky(forest);
    match attribute_of(forest, id, "id") {
        Some(value) => is_value(insensitive, value, wanted),
        None => false,
    }
}

fn is_of_class(forest: &Forest, id: NodeId, wanted: &Text) -> bool
    ensures { result ≡ passes_value (attribute_of forest.now id (codes "class"))
        (λ value. has_word (is_quirky forest.now.quirks) value (encode_utf8_all wanted.now)) }
{
    let insensitive = is_quirky(forest);
    match attribute_of(forest, id, "class") {
        Some(value) => has_value_word(insensitive, value, wanted),
        None => false,
    }
}

pub(crate) fn is_in(test: NamespaceTest, namespace: &Namespace) -> bool
    ensures { result ≡ simples.is_in test namespace.now }
{
    match test {
        NamespaceTest::Any => true,
        NamespaceTest::Only(wanted) => namespace.is_known(wanted),
    }
}

fn is_attribute(html: bool, test: &AttributeTest, attribute: &Attribute) -> bool
    ensures { result ≡ simples.is_attribute html test.now attribute.now }
{
    is_in(test.namespace, &attribute.name.ns)
        && local_of(&attribute.name) == asked_of(html, &test.name)
        && value_holds(
            test.operator,
            is_insensitive(test.case, html, &test.name),
            &attribute.value,
            &test.value,
        )
}

fn is_among(html: bool, attributes: &[Attribute], test: &AttributeTest) -> bool
    ensures { result ≡ list_any (simples.is_attribute html test.now) attributes.now }
{
    for attribute in attributes {
        if is_attribute(html, test, attribute) {
            return true;
        }
    }
    false
}

fn has_attribute(forest: &Forest, id: NodeId, test: &AttributeTest) -> bool
    ensures { result ≡ has_attribute (element_name (data_of forest.now id))
        (looks.attributes_of (data_of forest.now id)) test.now }
{
    match element_name(forest, id) {
        Some(name) => is_among(is_html(name), attributes_of(forest, id), test),
        None => false,
    }
}

fn is_root(forest: &Forest, id: NodeId) -> bool
    ensures { result ≡ is_it (parent_of forest.now id) 0 }
{
    match forest.parent(id) {
        Some(parent) => parent == forest.document(),
        None => false,
    }
}

fn has_no_characters(text: &str) -> bool
    ensures { result ≡ (length (chars text.now) == 0) }
{
    text.is_empty()
}

fn is_nothing(forest: &Forest, id: NodeId) -> bool
    ensures { result ≡ simples.is_nothing (data_of forest.now id) }
{
    match forest.node(id) {
        Some(NodeData::Element { .. }) => false,
        Some(NodeData::Text(text)) => has_no_characters(text.as_str()),
        _ => true,
    }
}

fn is_empty(forest: &Forest, id: NodeId) -> bool
    ensures { result ≡ list_all (λ child. simples.is_nothing (data_of forest.now child)) (children_of forest.now id) }
{
    for child in forest.children(id) {
        if !is_nothing(forest, child) {
            return false;
        }
    }
    true
}

fn is_nth_of_type(forest: &Forest, id: NodeId, nth: &Nth) -> bool
    ensures { result ≡ simples.is_nth nth.now
        (simples.place_of (counts forest.now (element_name (data_of forest.now id))) nth.now.from_end forest.now id) }
{
    let name = element_name(forest, id);
    is_nth(nth, place_of(forest, id, name, nth.from_end))
}

/// Whether an element is as one simple selector asks.
pub fn is_simple(forest: &Forest, scope: NodeId, id: NodeId, simple: &Simple) -> bool
    ensures { result ≡ simples.is_simple forest.now scope id simple.now }
{
    match simple {
        Simple::Type(wanted) => is_named(forest, id, wanted),
        Simple::Namespace(wanted) => is_in_namespace(forest, id, *wanted),
        Simple::Id(wanted) => has_id(forest, id, wanted),
        Simple::Class(wanted) => is_of_class(forest, id, wanted),
        Simple::Attribute(test) => has_attribute(forest, id, test),
        Simple::Root => is_root(forest, id),
        Simple::Scope => id == scope,
        Simple::Empty => is_empty(forest, id),
        Simple::NthChild(nth) => is_nth(nth, place_of(forest, id, None, nth.from_end)),
        Simple::NthOfType(nth) => is_nth_of_type(forest, id, nth),
    }
}
