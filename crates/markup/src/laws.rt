//! What `==`, the order and the hashes of names and texts mean, as contracts.
ghost use Rattle.std.specs.Prelude.{◌≡◌, ◌↔◌, IsTrue};
ghost use Rattle.std.specs.List.{fold};
ghost use Rattle.std.specs.Ordering.{ordering_reverse};
ghost use Rattle.std.specs.declared.cmp.Ordering.TheVariants.{Less, Equal};

use crate::attributes::{Attribute, Attributes};
use crate::names::{ExpandedName, LocalName, Namespace, Prefix, QualName};
use crate::text::Text;
use std::cmp::Ordering;
use std::hash::{Hash, Hasher};

/// A type whose `==` is equality of what its values stand for.
pub trait EqualByValue: Eq {
    ghost use Rattle.std.specs.Prelude.{◌≡◌, ◌↔◌, IsTrue};

    ghost Seen: { Type 0 };

    /// What a value stands for: the characters of a text, and the parts of a name.
    ghost seen: { Self → Seen };

    ghost by_value: { (a b : Self) → IsTrue (Self.eq a b) ↔ (seen a ≡ seen b) };
}

/// Whether two values are equal.
pub fn is_equal<T: EqualByValue>(a: &T, b: &T) -> bool
    ensures by_value { IsTrue result ↔ (T.seen a.now ≡ T.seen b.now) }
    ensures reflexive { IsTrue (T.eq a.now a.now) }
    ensures symmetric { T.eq b.now a.now ≡ result }
    ensures transitive { (c : T) → IsTrue result → IsTrue (T.eq b.now c) → IsTrue (T.eq a.now c) }
{
    a == b
}

/// Which of two values comes first.
pub fn compare<T: EqualByValue + Ord>(a: &T, b: &T) -> Ordering
    ensures value { result ≡ T.cmp a.now b.now }
    ensures agrees { (result ≡ Equal) ↔ (T.seen a.now ≡ T.seen b.now) }
    ensures antisymmetric { T.cmp b.now a.now ≡ ordering_reverse result }
    ensures transitive { (c : T) → result ≡ Less → T.cmp b.now c ≡ Less → T.cmp a.now c ≡ Less }
{
    a.cmp(b)
}

/// Feeds a value to a hash function.
pub fn feed<T: EqualByValue + Hash, H: Hasher>(value: &T, state: &mut H)
    ensures fed { state.new ≡ fold H.write state.old (T.hash_input value.now) }
    ensures alike { (other : T) → T.seen value.now ≡ T.seen other → T.hash_input value.now ≡ T.hash_input other }
{
    value.hash(state);
}

impl EqualByValue for Text {
    ghost use Rattle.std.specs.Prelude.{List, ℕ};
    ghost use Rattle.markup.specs.Equality.{texts_by_value};

    ghost Seen = { List ℕ };

    ghost seen = { λ text. text };

    ghost by_value = { texts_by_value };
}

impl EqualByValue for LocalName {
    ghost use Rattle.std.specs.Prelude.{List, ℕ};
    ghost use Rattle.markup.specs.Equality.{texts_by_value};

    ghost Seen = { List ℕ };

    ghost seen = { λ name. name };

    ghost by_value = { texts_by_value };
}

impl EqualByValue for Namespace {
    ghost use Rattle.std.specs.Prelude.{List, ℕ};
    ghost use Rattle.markup.specs.Equality.{texts_by_value};

    ghost Seen = { List ℕ };

    ghost seen = { λ ns. ns };

    ghost by_value = { texts_by_value };
}

impl EqualByValue for Prefix {
    ghost use Rattle.std.specs.Prelude.{List, ℕ};
    ghost use Rattle.markup.specs.Equality.{texts_by_value};

    ghost Seen = { List ℕ };

    ghost seen = { λ prefix. prefix };

    ghost by_value = { texts_by_value };
}

impl EqualByValue for QualName {
    ghost use Rattle.markup.specs.declared.names.QualName.{QualName};
    ghost use Rattle.markup.specs.Equality.{names_by_value};

    ghost Seen = { QualName };

    ghost seen = { λ name. name };

    ghost by_value = { names_by_value };
}

// An expanded name lends its parts, and stands for both.
impl<'a> EqualByValue for ExpandedName<'a> {
    ghost use Rattle.std.specs.Prelude.{List, ℕ};
    ghost use Rattle.markup.specs.Equality.{parts_by_value};

    ghost Seen = { List ℕ × List ℕ };

    ghost seen = { λ name. (name.ns.now, name.local.now) };

    ghost by_value = { λ a b. parts_by_value (a.ns.now, a.local.now) (b.ns.now, b.local.now) };
}

impl EqualByValue for Attribute {
    ghost use Rattle.markup.specs.declared.attributes.Attribute.{Attribute};
    ghost use Rattle.markup.specs.Equality.{attributes_by_value};

    ghost Seen = { Attribute };

    ghost seen = { λ attribute. attribute };

    ghost by_value = { attributes_by_value };
}

impl EqualByValue for Attributes {
    ghost use Rattle.std.specs.Prelude.{List};
    ghost use Rattle.markup.specs.declared.attributes.Attribute.{Attribute};
    ghost use Rattle.markup.specs.Equality.{attribute_lists_by_value};

    ghost Seen = { List Attribute };

    ghost seen = { λ attributes. attributes };

    ghost by_value = { attribute_lists_by_value };
}
