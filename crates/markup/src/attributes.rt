//! The attributes of elements and tags.
ghost use Rattle.std.specs.Prelude.{◌≡◌, ◌==◌, ◌++◌, ◌∷◌, ◌+◌, ◌≤◌, [], length, take, vec_len, IfOk, IfErr, OnOk, OnErr, true};
ghost use Rattle.std.specs.List.{list_all, list_any};
ghost use Rattle.std.specs.Vec.{vec_capacity};
ghost use Rattle.markup.specs.AttributeIndex.{FitsIndex};
ghost use Rattle.markup.specs.Attributes.{are_distinct, count_of, have_same_counts};
ghost use Rattle.markup.specs.Equality.{attribute_eq};
ghost use Rattle.markup.specs.Forest.{with_missing};
ghost use Rattle.markup.specs.declared.fault.ParseFault.TheVariants.{Memory};

use crate::attribute_index::{self, AttributeIndex, MANY};
use crate::fault::ParseFault;
use crate::names::{LocalName, QualName};
use crate::text::Text;
use std::alloc::Global;
use std::fmt::{self, Debug};
use std::marker::Model;
use std::mem;

/// A name with its value.
#[derive(Debug, Drop, PartialEq, Eq, PartialOrd, Ord, Hash)]
pub struct Attribute {
    /// The name.
    pub name: QualName,
    /// The value, with its references read.
    pub value: Text,
}

impl Attribute {
    /// An attribute of its own with the same name and value.
    pub fn copy(&self, alloc: Global) -> Result<Attribute, ParseFault>
        ensures ok { IfOk result (λ copied. copied ≡ self.now) }
        ensures fault { IfErr result (λ fault. fault ≡ Memory) }
    {
        Ok(Attribute {
            name: self.name.copy(alloc)?,
            value: self.value.copy(alloc)?,
        })
    }
}

/// Attributes in their order. A contract sees the list of them.
#[derive(Drop)]
pub struct Attributes {
    list: Vec<Attribute>,
    // Where they are, once there are many.
    index: Option<Box<AttributeIndex>>,
}

impl Model for Attributes {
    ghost use Rattle.std.specs.Prelude.{List};
    ghost use Rattle.markup.specs.declared.attributes.Attribute.{Attribute};

    ghost Value = { List Attribute };

    ghost use Rattle.markup.specs.AttributeIndex.{FitsIndex};

    ghost view = { λ a. a.list.items };

    ghost invariant = { λ a. FitsIndex a.index a.list.items };
}

impl Attributes {
    ghost use Rattle.std.specs.Prelude.{IsTrue, IsPermutation, ◌↔◌};
    ghost use Rattle.markup.specs.Attributes.{has_local_name};
    ghost use Rattle.markup.specs.Names.{has_attribute};

    /// No attributes. The list grows in the memory of `alloc`.
    pub fn new(alloc: Global) -> Attributes
        ensures { result ≡ [] }
    {
        Attributes {
            list: Vec::new(alloc),
            index: None,
        }
    }

    /// The attributes of a vector, which keeps its memory and its allocator.
    pub fn from_vec(list: Vec<Attribute>) -> Attributes
        ensures { result ≡ list.items }
    {
        Attributes { list, index: None }
    }

    /// Gives the vector back, with its memory.
    pub fn into_vec(self) -> Vec<Attribute>
        ensures { result.items ≡ self }
    {
        let Attributes { list, index: _ } = self;
        list
    }

    /// The attributes in their order, lent.
    pub fn as_slice(&self) -> &[Attribute]
        ensures { result.now ≡ self.now }
    {
        self.list.as_slice()
    }

    /// How many attributes there are.
    pub fn len(&self) -> usize
        ensures { result ≡ length self.now }
    {
        self.list.len()
    }

    /// Whether there is no attribute.
    pub fn is_empty(&self) -> bool
        ensures { result ≡ (length self.now == 0) }
    {
        self.list.is_empty()
    }

    /// Moves the attributes out with their memory, and leaves none.
    pub fn take(&mut self) -> Attributes
        ensures taken { result ≡ self.old }
        ensures left { self.new ≡ [] }
    {
        let alloc = *self.list.allocator();
        mem::replace(self, Attributes::new(alloc))
    }

    /// Adds an attribute at the end.
    #[inline(always)]
    pub fn push(&mut self, attribute: Attribute) -> Result<(), ParseFault>
        ensures ok { OnOk result (self.new ≡ self.old ++ attribute ∷ []) }
        ensures err { OnErr result (self.new ≡ self.old) }
        ensures fault { IfErr result (λ fault. fault ≡ Memory) }
    {
        self.list.reserve(1)?;
        if self.index.is_none() && self.list.len() < MANY {
            self.list.push_reserved(attribute);
        } else {
            self.index = put_last(&mut self.list, self.index.take(), attribute)?;
        }
        Ok(())
    }

    /// Whether an attribute has this local name, in any namespace. Time grows with the logarithm of the number of attributes.
    pub fn has_local_name(&self, name: &LocalName) -> bool
        ensures { result ≡ has_local_name name.now self.now }
    {
        attribute_index::has_local_name(&self.index, self.list.as_slice(), name)
    }

    /// Whether an attribute has this name, its prefix and namespace included.
    pub fn has(&self, name: &QualName) -> bool
        ensures { result ≡ has_attribute name.now self.now }
    {
        attribute_index::has(&self.index, self.list.as_slice(), name)
    }

    /// Adds, in order, those of others whose name is missing.
    pub fn add_missing(&mut self, others: Attributes) -> Result<(), ParseFault>
        ensures ok { OnOk result (self.new ≡ with_missing self.old others) }
        ensures err { OnErr result (self.new ≡ self.old) }
        ensures fault { IfErr result (λ fault. fault ≡ Memory) }
    {
        let others = others.into_vec();
        self.list.reserve(others.len())?;
        let length = self.list.len();
        match put_missing(&mut self.list, self.index.take(), others) {
            Ok(index) => {
                self.index = index;
                Ok(())
            }
            Err(fault) => {
                self.list.truncate(length);
                Err(fault)
            }
        }
    }

    /// Whether two lists are the same in some order.
    pub fn is_permutation(&self, other: &Attributes) -> bool
        ensures { IsTrue result ↔ IsPermutation self.now other.now }
    {
        self.len() == other.len() && self.has_same_counts(other)
    }

    // Whether each attribute is as often in the other list, which is as long.
    fn has_same_counts(&self, other: &Attributes) -> bool
        ensures { result ≡ have_same_counts self.now other.now }
    {
        if self.are_known_distinct() && other.are_known_distinct() {
            are_all_in(self.as_slice(), other)
        } else {
            has_same_counts(self.as_slice(), other.as_slice())
        }
    }

    // Whether an index says that no local name comes twice.
    fn are_known_distinct(&self) -> bool
        ensures { IsTrue result → are_distinct self.now ≡ true }
    {
        match &self.index {
            Some(index) => index.are_distinct,
            None => false,
        }
    }

    // Whether an attribute is in the list.
    fn contains(&self, attribute: &Attribute) -> bool
        ensures { result ≡ list_any (attribute_eq attribute.now) self.now }
    {
        attribute_index::contains(&self.index, self.list.as_slice(), attribute)
    }

    /// A list of its own with the same attributes.
    pub fn copy(&self, alloc: Global) -> Result<Attributes, ParseFault>
        ensures ok { IfOk result (λ copied. copied ≡ self.now) }
        ensures fault { IfErr result (λ fault. fault ≡ Memory) }
    {
        let mut list = Vec::with_capacity(alloc, self.list.len())?;
        for attribute in self.as_slice() {
            list.push_reserved(attribute.copy(alloc)?);
        }
        let index = attribute_index::of(alloc, list.as_slice())?;
        Ok(Attributes { list, index })
    }
}

// Puts an attribute after others, which have room for it.
fn put_last(
    list: &mut Vec<Attribute>,
    index: Option<Box<AttributeIndex>>,
    attribute: Attribute,
) -> Result<Option<Box<AttributeIndex>>, ParseFault>
    requires room { vec_len list.old + 1 ≤ vec_capacity list.old }
    requires fits { FitsIndex index list.old.items }
    ensures last { OnOk result (list.new.items ≡ list.old.items ++ attribute ∷ []) }
    ensures err { OnErr result (list.new.items ≡ list.old.items) }
    ensures room { vec_capacity list.new ≡ vec_capacity list.old }
    ensures fits { IfOk result (λ index. FitsIndex index list.new.items) }
    ensures fault { IfErr result (λ fault. fault ≡ Memory) }
{
    let alloc = *list.allocator();
    let index = attribute_index::grown(index, alloc, list.as_slice(), &attribute.name.local)?;
    list.push_reserved(attribute);
    Ok(index)
}

// Puts after attributes, in order, those of others whose name they lack. There is room for all of them. After an error some may be there.
fn put_missing(
    list: &mut Vec<Attribute>,
    mut index: Option<Box<AttributeIndex>>,
    others: Vec<Attribute>,
) -> Result<Option<Box<AttributeIndex>>, ParseFault>
    requires room { vec_len list.old + vec_len others ≤ vec_capacity list.old }
    requires fits { FitsIndex index list.old.items }
    ensures missing { OnOk result (list.new.items ≡ with_missing list.old.items others.items) }
    ensures err { OnErr result (take (vec_len list.old) list.new.items ≡ list.old.items) }
    ensures fits { IfOk result (λ index. FitsIndex index list.new.items) }
    ensures fault { IfErr result (λ fault. fault ≡ Memory) }
{
    for attribute in others {
        if attribute_index::has(&index, list.as_slice(), &attribute.name) {
            drop(attribute);
        } else {
            index = put_last(list, index, attribute)?;
        }
    }
    Ok(index)
}

// Whether each attribute is in the other list.
fn are_all_in(attributes: &[Attribute], other: &Attributes) -> bool
    ensures { result ≡ list_all (λ attribute. list_any (attribute_eq attribute) other.now) attributes.now }
{
    attributes.iter().all(|attribute| other.contains(attribute))
}

// How often an attribute is in a list.
fn count(attributes: &[Attribute], attribute: &Attribute) -> usize
    ensures { result ≡ count_of attribute.now attributes.now }
{
    attributes
        .iter()
        .filter(|other| attribute == *other)
        .count()
}

// Whether each attribute of the first list is as often in the second, each counted.
fn has_same_counts(first: &[Attribute], second: &[Attribute]) -> bool
    ensures { result ≡ have_same_counts first.now second.now }
{
    first.iter().all(|attribute| count(first, attribute) == count(second, attribute))
}

impl Debug for Attributes {
    fn fmt<W: fmt::Write>(&self, f: &mut fmt::Formatter<W>) -> fmt::Result {
        Debug::fmt(self.as_slice(), f)
    }
}

impl PartialEq for Attributes {
    ghost use Rattle.std.specs.Cmp.{partial_equiv_from_equiv};
    ghost use Rattle.std.specs.Cmp.Lexicographic.{pointwise};
    ghost use Rattle.markup.specs.Equality.{attribute_eq, attribute_lists_equivalence};

    ghost eq = { pointwise attribute_eq };

    ghost laws = { partial_equiv_from_equiv attribute_lists_equivalence };

    fn eq(&self, other: &Attributes) -> bool {
        self.as_slice() == other.as_slice()
    }
}

impl Eq for Attributes {
    ghost use Rattle.markup.specs.Equality.{attribute_lists_equivalence};

    ghost laws = { attribute_lists_equivalence };
}
