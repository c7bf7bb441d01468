//! Whether each word of a policy can be kept.
ghost use Rattle.std.specs.Prelude.{◌≡◌, None, Some, IfOk, IfErr, IfSome, IfNone};
ghost use Rattle.std.specs.Str.{chars};
ghost use Rattle.html_clean.specs.Checks as checks;
ghost use Rattle.html_clean.specs.Checks.{changed_list, never_kept, never_kept_in_fragment, page_element, unsafe_addition, unsafe_attribute};
ghost use Rattle.html_clean.specs.Checks.{unsafe_beginning, unsafe_element, unsafe_in_limit, unsafe_in_limits, unsafe_in_rules};
ghost use Rattle.html_clean.specs.Checks.{unsafe_scheme};

use crate::attributes::has_url;
use crate::names::{
    is_fragment_name, is_safe_attribute, is_safe_beginning, is_safe_name, is_safe_scheme,
};
use crate::pictures::is_picture;
use crate::policy::{Addition, Allowed, Policy, Rule, ValueRule};
use markup::{LocalName, Text};

/// The first element of rules that is never kept.
fn unsafe_element(rules: &[Rule]) -> Option<&LocalName>
    ensures some { IfSome result (λ name. unsafe_element rules.now ≡ Some name.now) }
    ensures none { IfNone result (unsafe_element rules.now ≡ None) }
{
    for rule in rules {
        if !is_safe_name(&rule.element) {
            return Some(&rule.element);
        }
    }
    None
}

/// The first attribute that is never kept.
fn unsafe_attribute(names: &[LocalName]) -> Option<&LocalName>
    ensures some { IfSome result (λ name. unsafe_attribute names.now ≡ Some name.now) }
    ensures none { IfNone result (unsafe_attribute names.now ≡ None) }
{
    for name in names {
        if !is_safe_attribute(name) {
            return Some(name);
        }
    }
    None
}

/// The first attribute of rules that is never kept.
fn unsafe_in_rules(rules: &[Rule]) -> Option<&LocalName>
    ensures some { IfSome result (λ name. unsafe_in_rules rules.now ≡ Some name.now) }
    ensures none { IfNone result (unsafe_in_rules rules.now ≡ None) }
{
    for rule in rules {
        if let Some(name) = unsafe_attribute(&rule.attributes) {
            return Some(name);
        }
    }
    None
}

/// Whether a scheme may be listed: among those of pictures also `data`.
fn may_be_listed(pictures: bool, scheme: &Text) -> bool
    ensures { result ≡ checks.may_be_listed pictures scheme.now }
{
    is_safe_scheme(scheme) || (pictures && scheme.is("data"))
}

/// The first scheme that is never kept, of pictures or of others.
fn unsafe_scheme(pictures: bool, schemes: &[Text]) -> Option<&Text>
    ensures some { IfSome result (λ scheme. unsafe_scheme pictures schemes.now ≡ Some scheme.now) }
    ensures none { IfNone result (unsafe_scheme pictures schemes.now ≡ None) }
{
    for scheme in schemes {
        if !may_be_listed(pictures, scheme) {
            return Some(scheme);
        }
    }
    None
}

/// The first scheme of what is allowed that is never kept, of pictures or of others.
fn unsafe_in_limit(pictures: bool, allowed: &Allowed) -> Option<&Text>
    ensures some { IfSome result (λ scheme. unsafe_in_limit pictures allowed.now ≡ Some scheme.now) }
    ensures none { IfNone result (unsafe_in_limit pictures allowed.now ≡ None) }
{
    match allowed {
        Allowed::Schemes(schemes) => unsafe_scheme(pictures, schemes),
        _ => None,
    }
}

/// Whether a rule is for the URLs of pictures alone.
fn is_of_pictures(rule: &ValueRule) -> bool
    ensures { result ≡ checks.is_of_pictures rule.now.element rule.now.attribute }
{
    match &rule.element {
        Some(element) => is_picture(element, &rule.attribute),
        None => false,
    }
}

/// The first scheme that rules for values list and that is never kept.
fn unsafe_in_limits(rules: &[ValueRule]) -> Option<&Text>
    ensures some { IfSome result (λ scheme. unsafe_in_limits rules.now ≡ Some scheme.now) }
    ensures none { IfNone result (unsafe_in_limits rules.now ≡ None) }
{
    for rule in rules {
        if let Some(scheme) = unsafe_in_limit(is_of_pictures(rule), &rule.allowed) {
            return Some(scheme);
        }
    }
    None
}

/// Whether a rule changes a URL.
fn changes_url(allowed: &Allowed) -> bool
    ensures { result ≡ checks.changes_url allowed.now }
{
    matches!(allowed, Allowed::Proxied { .. } | Allowed::Absolute { .. })
}

/// Whether it is for an attribute that has a list of them besides.
fn changes_list(rule: &ValueRule) -> bool
    ensures { result ≡ checks.changes_list rule.now }
{
    rule.attribute.is("srcset") && changes_url(&rule.allowed)
}

/// The attribute of the first such rule.
fn changed_list(rules: &[ValueRule]) -> Option<&LocalName>
    ensures some { IfSome result (λ name. changed_list rules.now ≡ Some name.now) }
    ensures none { IfNone result (changed_list rules.now ≡ None) }
{
    for rule in rules {
        if changes_list(rule) {
            return Some(&rule.attribute);
        }
    }
    None
}

/// The first text with which no attribute's name that may be kept begins.
fn unsafe_beginning(texts: &[Text]) -> Option<&Text>
    ensures some { IfSome result (λ text. unsafe_beginning texts.now ≡ Some text.now) }
    ensures none { IfNone result (unsafe_beginning texts.now ≡ None) }
{
    for text in texts {
        if !is_safe_beginning(text) {
            return Some(text);
        }
    }
    None
}

/// The first attribute that is never added.
fn unsafe_addition<'a>(policy: &'a Policy, added: &'a [Addition]) -> Option<&'a LocalName>
    ensures some { IfSome result (λ name. unsafe_addition policy.now added.now ≡ Some name.now) }
    ensures none { IfNone result (unsafe_addition policy.now added.now ≡ None) }
{
    for addition in added {
        if !is_safe_attribute(&addition.name) || has_url(policy, &addition.name) {
            return Some(&addition.name);
        }
    }
    None
}

/// The first element of rules that is one of the page itself.
fn page_element(rules: &[Rule]) -> Option<&LocalName>
    ensures some { IfSome result (λ name. page_element rules.now ≡ Some name.now) }
    ensures none { IfNone result (page_element rules.now ≡ None) }
{
    for rule in rules {
        if !is_fragment_name(&rule.element) {
            return Some(&rule.element);
        }
    }
    None
}

impl Policy {
    /// Whether each element, attribute and scheme that the policy names can be kept, or else the first that never is: of elements, then of
    /// the attributes of rules, of the attributes of all elements, of the beginnings of names, of attributes that are added, of schemes,
    /// then of those that rules for values list. An attribute that is added has no URL as its value. A scheme has to be in lower case and
    /// without its colon, and is none of `javascript`, `vbscript` and `data`; but a rule for `src` of `img` may list `data`. No rule may
    /// load a `srcset` through a proxy or make it absolute, since it has a list of URLs.
    pub fn checked(&self) -> Result<(), &str>
        ensures ok { IfOk result (λ _. never_kept self.now ≡ None) }
        ensures err { IfErr result (λ word. never_kept self.now ≡ Some (chars word.now)) }
    {
        if let Some(name) = unsafe_element(&self.kept) {
            return Err(name.as_str());
        }
        if let Some(name) = unsafe_in_rules(&self.kept) {
            return Err(name.as_str());
        }
        if let Some(name) = unsafe_attribute(&self.everywhere) {
            return Err(name.as_str());
        }
        if let Some(text) = unsafe_beginning(&self.beginnings) {
            return Err(text.as_str());
        }
        if let Some(name) = unsafe_addition(self, &self.added) {
            return Err(name.as_str());
        }
        if let Some(scheme) = unsafe_scheme(false, &self.schemes) {
            return Err(scheme.as_str());
        }
        if let Some(scheme) = unsafe_in_limits(&self.values) {
            return Err(scheme.as_str());
        }
        match changed_list(&self.values) {
            Some(name) => Err(name.as_str()),
            None => Ok(()),
        }
    }

    /// The same for a policy by which fragments are cleaned, which keeps no `html`, `head` and `body`: in a page that the fragment is put
    /// into, their tags would give attributes to the page's own elements (HTML Standard, section 13.2.6.4.7).
    pub fn checked_for_fragments(&self) -> Result<(), &str>
        ensures ok { IfOk result (λ _. never_kept_in_fragment self.now ≡ None) }
        ensures err { IfErr result (λ word. never_kept_in_fragment self.now ≡ Some (chars word.now)) }
    {
        match page_element(&self.kept) {
            Some(name) => Err(name.as_str()),
            None => self.checked(),
        }
    }
}
