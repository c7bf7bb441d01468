//! What a selector is.

use crate::name::Name;
use markup::{KnownNamespace, Text};

/// How the elements on the two sides of a combinator stand to each other (Selectors Level 4, section 15).
#[derive(Clone, Copy, Debug, PartialEq, Eq)]
pub enum Combinator {
    /// The right one stands somewhere in the left one, `a b`.
    Descendant,
    /// The left one is the parent of the right one, `a > b`.
    Child,
    /// The right one is the next element after the left one, under the same parent, `a + b`.
    NextSibling,
    /// The right one stands after the left one, under the same parent, `a ~ b`.
    SubsequentSibling,
}

/// What is asked of the value of an attribute (section 6.1 and 6.2).
#[derive(Clone, Copy, Debug, PartialEq, Eq)]
pub enum Operator {
    /// Any value, `[a]`.
    Present,
    /// The wanted value, `[a=b]`.
    Equal,
    /// Words parted by white space, of which one is wanted, `[a~=b]`.
    Word,
    /// The wanted value, or this with a hyphen and more behind it, `[a|=b]`.
    Hyphen,
    /// A value that begins with the wanted one, `[a^=b]`.
    Prefix,
    /// A value that ends with the wanted one, `[a$=b]`.
    Suffix,
    /// A value that has the wanted one somewhere, `[a*=b]`.
    Substring,
}

/// How the values of an attribute are compared (section 6.3).
#[derive(Clone, Copy, Debug, PartialEq, Eq)]
pub enum CaseSensitivity {
    /// As HTML has it for that attribute (HTML Standard, section 4.16.2).
    AsHtml,
    /// ASCII letters of two cases are the same, `[a=b i]`.
    Insensitive,
    /// ASCII letters of two cases differ, `[a=b s]`.
    Sensitive,
}

/// The namespace that is asked for (section 5.3 and 6.4).
#[derive(Clone, Copy, Debug, PartialEq, Eq)]
pub enum NamespaceTest {
    /// Any, or none, `*|a`.
    Any,
    /// That one, `svg|a`.
    Only(KnownNamespace),
}

/// What is asked of an attribute (section 6).
#[derive(Drop, Debug)]
pub struct AttributeTest {
    pub namespace: NamespaceTest,
    pub name: Name,
    pub operator: Operator,
    pub value: Text,
    pub case: CaseSensitivity,
}

/// Numbers counted from 1 (An+B, CSS Syntax Level 3, section 6): `first`, and from there on each that is a number of steps further; or,
/// where it descends, from there back. With a step of 0 it is `first` alone.
#[derive(Clone, Copy, Debug, PartialEq, Eq)]
pub struct Nth {
    pub first: u32,
    pub step: u32,
    pub descends: bool,
    /// Whether siblings are counted from the last one.
    pub from_end: bool,
}

/// A simple selector that has no selectors in it (sections 5 to 14).
#[derive(Drop, Debug)]
pub enum Simple {
    /// An element of that name, `a`.
    Type(Name),
    /// An element in that namespace, as the prefix of `svg|a` asks.
    Namespace(KnownNamespace),
    /// An element with that `id`, `#a`.
    Id(Text),
    /// An element of that class, `.a`.
    Class(Text),
    /// An element with such an attribute, `[a=b]`.
    Attribute(AttributeTest),
    /// The root element of the document, `:root`.
    Root,
    /// The element that the search is about, `:scope`.
    Scope,
    /// An element without elements and characters right in it, `:empty`.
    Empty,
    /// An element at such a place among all elements under its parent, `:nth-child(2n+1)`, `:last-child`.
    NthChild(Nth),
    /// An element at such a place among those of its name, `:nth-of-type(2n+1)`, `:last-of-type`.
    NthOfType(Nth),
}

/// Tests that name other selectors, all of which an element is to pass.
#[cycle(selectors)]
#[derive(Drop, Debug)]
pub enum Tests {
    Nothing,
    /// One of these selects the element, `:is()` and `:where()`.
    Is(Box<Selectors>, Box<Tests>),
    /// None of these selects the element, `:not()`.
    Not(Box<Selectors>, Box<Tests>),
    /// This selects an element, from this one on, `:has()`.
    Has(Box<Relative>, Box<Tests>),
    /// The element is selected, and stands at such a place among those under its parent that are, `:nth-child(2n+1 of a)`.
    NthOf(Nth, Box<Selectors>, Box<Tests>),
}

/// All that is asked of one element (section 3.1).
#[cycle(selectors)]
#[derive(Drop, Debug)]
pub struct Compound {
    pub simples: Vec<Simple>,
    pub tests: Tests,
}

/// Compound selectors joined by combinators (section 3.1). The last one is asked of the element itself.
#[cycle(selectors)]
#[derive(Drop, Debug)]
pub enum Complex {
    Alone(Compound),
    /// What stands on the left of the last combinator, and the compound selector on its right.
    Beside(Box<Complex>, Combinator, Compound),
}

/// What is asked of elements that stand to a given one as the first combinator says (section 3.1, relative selectors).
#[cycle(selectors)]
#[derive(Drop, Debug)]
pub enum Relative {
    To(Combinator, Compound),
    /// The compound selector after the first combinator, and what is asked from that element on.
    Then(Combinator, Compound, Box<Relative>),
}

/// A list of selectors, which selects what one of them does (section 4.1).
#[cycle(selectors)]
#[derive(Drop, Debug)]
pub enum Selectors {
    Nothing,
    Or(Box<Complex>, Box<Selectors>),
}
