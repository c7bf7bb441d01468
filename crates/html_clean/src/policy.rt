//! What is kept of a document.
ghost use Rattle.std.specs.Prelude.{◌≡◌, ◌++◌, ◌∷◌, [], map, option_map, IfOk, IfErr, OnOk, OnErr};
ghost use Rattle.std.specs.Str.{chars};
ghost use Rattle.html_clean.specs.Ready.{addition_parts, rule_names, value_rule_parts};
ghost use Rattle.markup.specs.declared.fault.ParseFault.TheVariants.{Memory};

use markup::{LocalName, ParseFault, Text};
use std::alloc::Global;

/// An HTML element that is kept, with the attributes that it may have beside those of every element.
#[derive(Drop)]
pub struct Rule {
    /// The element's name.
    pub element: LocalName,
    /// The names of attributes.
    pub attributes: Vec<LocalName>,
}

/// Where in a value the names of elements are that get a prefix.
#[derive(Clone, Copy, Debug, PartialEq, Eq)]
pub enum IdForm {
    /// The value is a name, as that of `id`, `name` and `for`.
    Name,
    /// It is of names between ASCII whitespace, as that of `headers` and `aria-labelledby`.
    Names,
    /// It is a URL, as that of `href` and `usemap`: where it is `#` and a name alone, the name gets the prefix.
    Link,
}

/// What the value of an attribute may be.
#[derive(Drop)]
pub enum Allowed {
    /// One of these texts, which stand in lower case; the case of ASCII letters in the value does not matter.
    OneOf(Vec<Text>),
    /// Words between ASCII whitespace, as in `class`. Others are taken out, and where none is left the attribute is not kept.
    Words {
        /// Words that are kept.
        words: Vec<Text>,
        /// Beginnings of words that are kept, such as `language-`.
        beginnings: Vec<Text>,
    },
    /// A number in ASCII digits, from the least to the most. One of more than 32 bits counts as the greatest of 32 bits.
    Number {
        /// The least.
        least: u32,
        /// The most.
        most: u32,
    },
    /// A URL of one of these schemes, or without one. They are in place of the policy's schemes for this attribute, and given as those
    /// are: in lower case, without the colon. The attribute's value is a URL, as if [`Policy::urls`] named it.
    Schemes(Vec<Text>),
    /// Names of elements that begin with a prefix, so that they are none of the page's own. A name that doesn't begin so gets the prefix
    /// in front. An attribute whose value is empty is not kept.
    Prefixed {
        /// Where the names are in the value.
        form: IdForm,
        /// The prefix, such as `user-content-`.
        prefix: Text,
    },
    /// A URL that is loaded through a proxy, as that of a picture, so that only the proxy learns who looks at it. One by `http` or `https`,
    /// or with a host and no scheme, gives way to the prefix and to itself, percent-encoded; then the scheme is the prefix's. Others stay
    /// as they are. The attribute's value is a URL, as if [`Policy::urls`] named it; it is for one URL, not for a `srcset`.
    Proxied {
        /// The prefix, such as `https://proxy.example/?url=`.
        prefix: Text,
    },
    /// A URL that is absolute, so that it can be shown on another page than it is from: one without a scheme is taken relative to a base
    /// (URL Standard, section 4.4), if it can be. The attribute's value is a URL, as if [`Policy::urls`] named it; it is for one URL, not
    /// for a `srcset`.
    Absolute {
        /// The base, such as `https://blog.example/2026/`.
        base: Text,
    },
}

/// A rule for the values of an attribute that is kept.
#[derive(Drop)]
pub struct ValueRule {
    /// The element whose attribute it is for; each element's, if there is none.
    pub element: Option<LocalName>,
    /// The attribute's name.
    pub attribute: LocalName,
    /// What its value may be.
    pub allowed: Allowed,
}

/// An attribute that an element is given, in place of its own of that name.
#[derive(Drop)]
pub struct Addition {
    /// The element's name.
    pub element: LocalName,
    /// The attribute's name.
    pub name: LocalName,
    /// The attribute's value.
    pub value: Text,
}

/// What is kept of a document. An element that is neither kept nor dropped gives way to what stands in it.
///
/// Some names are never kept, whatever the policy says: elements that are none of HTML's, or whose text isn't escaped, or that say
/// something of the whole page; attributes of events, those that have styles, documents or lists of URLs but `srcset`, `code` and
/// `xmlns`.
/// [`Policy::checked`] reports a policy that has one.
#[derive(Drop)]
pub struct Policy {
    /// Elements that are kept.
    pub kept: Vec<Rule>,
    /// Names of elements, of whatever namespace, that are dropped with all that stands in them, unless they are kept.
    pub dropped: Vec<LocalName>,
    /// Attributes that each element may have.
    pub everywhere: Vec<LocalName>,
    /// Beginnings of the names of attributes that each element may have, such as `data-`.
    pub beginnings: Vec<Text>,
    /// Rules for values. An attribute is kept where its value meets each rule that is for it.
    pub values: Vec<ValueRule>,
    /// Attributes that are added, before those that are kept; of one name for an element the first. No attribute is added that is
    /// never kept, or whose value is a URL.
    pub added: Vec<Addition>,
    /// Attributes whose values are URLs, beside those of HTML that have one.
    pub urls: Vec<LocalName>,
    /// The schemes that a URL may have, in lower case, where no rule for values lists those of its attribute; `javascript`, `vbscript`
    /// and `data` are never kept.
    pub schemes: Vec<Text>,
    /// Whether a URL may be relative to the page, without a host of its own.
    pub allows_relative: bool,
    /// Whether a URL may begin with two slashes, and so have a host and no scheme.
    pub allows_hosts: bool,
}

/// The names of these texts.
pub(crate) fn names_of(alloc: Global, list: &[&str]) -> Result<Vec<LocalName>, ParseFault>
    ensures ok { IfOk result (λ names. names.items ≡ map (λ name. chars name.now) list.now) }
    ensures fault { IfErr result (λ fault. fault ≡ Memory) }
{
    let mut names = Vec::with_capacity(alloc, list.len())?;
    for name in list {
        names.push(LocalName::from_str(alloc, name)?)?;
    }
    Ok(names)
}

impl Rule {
    /// A rule for an element, with these attributes.
    pub fn new(alloc: Global, element: &str, attributes: &[&str]) -> Result<Rule, ParseFault>
        ensures ok { IfOk result (λ rule. rule_names rule ≡ (chars element.now, map (λ name. chars name.now) attributes.now)) }
        ensures fault { IfErr result (λ fault. fault ≡ Memory) }
    {
        Ok(Rule {
            element: LocalName::from_str(alloc, element)?,
            attributes: names_of(alloc, attributes)?,
        })
    }
}

impl Policy {
    /// Keeps an element besides, with these attributes. After `Memory` the policy is as it was.
    pub fn keep(
        &mut self,
        alloc: Global,
        element: &str,
        attributes: &[&str],
    ) -> Result<(), ParseFault>
        ensures ok { OnOk result (map rule_names self.new.kept.items ≡ map rule_names self.old.kept.items
            ++ (chars element.now, map (λ name. chars name.now) attributes.now) ∷ []) }
        ensures same { self.new ≡ record self.old { kept = self.new.kept } }
        ensures refused { OnErr result (self.new.kept.items ≡ self.old.kept.items) }
        ensures fault { IfErr result (λ fault. fault ≡ Memory) }
    {
        self.kept.push(Rule::new(alloc, element, attributes)?)?;
        Ok(())
    }

    /// Keeps the attributes of each element whose names begin with a text, such as `data-`. After `Memory` the policy is as it was.
    pub fn keep_beginning(&mut self, alloc: Global, beginning: &str) -> Result<(), ParseFault>
        ensures ok { OnOk result (self.new.beginnings.items ≡ self.old.beginnings.items ++ chars beginning.now ∷ []) }
        ensures same { self.new ≡ record self.old { beginnings = self.new.beginnings } }
        ensures refused { OnErr result (self.new.beginnings.items ≡ self.old.beginnings.items) }
        ensures fault { IfErr result (λ fault. fault ≡ Memory) }
    {
        self.beginnings.push(Text::from_str(alloc, beginning)?)?;
        Ok(())
    }

    /// Gives an element an attribute, in place of its own of that name: `add(alloc, "a", "rel", "nofollow")`. After `Memory` the policy
    /// is as it was.
    pub fn add(
        &mut self,
        alloc: Global,
        element: &str,
        name: &str,
        value: &str,
    ) -> Result<(), ParseFault>
        ensures ok { OnOk result (map addition_parts self.new.added.items ≡ map addition_parts self.old.added.items
            ++ (chars element.now, (chars name.now, chars value.now)) ∷ []) }
        ensures same { self.new ≡ record self.old { added = self.new.added } }
        ensures refused { OnErr result (self.new.added.items ≡ self.old.added.items) }
        ensures fault { IfErr result (λ fault. fault ≡ Memory) }
    {
        self.added.push(Addition {
            element: LocalName::from_str(alloc, element)?,
            name: LocalName::from_str(alloc, name)?,
            value: Text::from_str(alloc, value)?,
        })?;
        Ok(())
    }

    /// Limits the values of an attribute, of one element or of each: it is kept only where its value is allowed. After `Memory` the
    /// policy is as it was.
    pub fn limit(
        &mut self,
        alloc: Global,
        element: Option<&str>,
        attribute: &str,
        allowed: Allowed,
    ) -> Result<(), ParseFault>
        ensures ok { OnOk result (map value_rule_parts self.new.values.items ≡ map value_rule_parts self.old.values.items
            ++ (option_map (λ name. chars name.now) element.entry, (chars attribute.now, allowed)) ∷ []) }
        ensures same { self.new ≡ record self.old { values = self.new.values } }
        ensures refused { OnErr result (self.new.values.items ≡ self.old.values.items) }
        ensures fault { IfErr result (λ fault. fault ≡ Memory) }
    {
        let element = match element {
            Some(name) => Some(LocalName::from_str(alloc, name)?),
            None => None,
        };
        self.values.push(ValueRule {
            element,
            attribute: LocalName::from_str(alloc, attribute)?,
            allowed,
        })?;
        Ok(())
    }
}
