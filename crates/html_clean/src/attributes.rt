//! Which attributes are kept.
ghost use Rattle.std.specs.Prelude.{◌≡◌, ◌&&◌, IfOk, IfErr, OnOk, codes, is_none};
ghost use Rattle.std.specs.List.{list_all};
ghost use Rattle.html_clean.specs.Pictures.{is_picture_data};
ghost use Rattle.html_clean.specs.Policies.{added_attributes, adds, allows_pictures, are_kept_urls, attribute_of, gives, has_url};
ghost use Rattle.html_clean.specs.Policies.{is_allowed_scheme, is_in_rule, is_kept_kind, is_kept_url, is_named_for};
ghost use Rattle.html_clean.specs.Policies.{is_safe_attribute_name, kept_after, kept_with};
ghost use Rattle.html_clean.specs.Policies.{plain_text, with_addition};
ghost use Rattle.html_clean.specs.Values.{meets_all, meets_scheme, value_left};
ghost use Rattle.html_clean.specs.Notes.{is_kept_value};
ghost use Rattle.html_round_trip.specs.Slices.Forms.{is_no_text};
ghost use Rattle.markup.specs.Trees.{is_among};
ghost use Rattle.markup.specs.declared.fault.ParseFault.TheVariants.{Memory};

use crate::elements::is_among;
use crate::kinds::{UrlKind, url_kind};
use crate::names::{is_safe_attribute, is_unsafe_scheme, is_url_attribute};
use crate::notes::{Notes, Verdict};
use crate::pictures::{is_picture, is_picture_data};
use crate::policy::{Addition, Policy, Rule};
use crate::texts::plain_text;
use crate::values::{
    are_schemes_limited, begins_with_one, is_made_url, is_text_among, meets_all, meets_schemes,
    value_left,
};
use html_srcset::candidates;
use markup::{
    Attribute, Attributes, KnownNamespace, LocalName, Namespace, ParseFault, QualName, Text,
};
use std::alloc::Global;

/// Whether a name has neither a prefix nor a namespace.
pub(crate) fn is_unprefixed(name: &QualName) -> bool
    ensures { result ≡ (is_none name.now.prefix && is_no_text name.now.ns) }
{
    name.prefix.is_none() && name.ns.is_known(KnownNamespace::NoNamespace)
}

/// Whether it may be kept besides.
pub(crate) fn is_safe_attribute_name(name: &QualName) -> bool
    ensures { result ≡ is_safe_attribute_name name.now }
{
    is_safe_attribute(&name.local) && is_unprefixed(name)
}

/// Whether a rule gives an element an attribute of that name.
fn gives(rule: &Rule, element: &LocalName, name: &LocalName) -> bool
    ensures { result ≡ gives element.now name.now rule.now }
{
    *element == rule.element && is_among(name, &rule.attributes)
}

/// Whether one of these rules does.
fn is_in_rule(rules: &[Rule], element: &LocalName, name: &LocalName) -> bool
    ensures { result ≡ is_in_rule rules.now element.now name.now }
{
    rules.iter().any(|rule| gives(rule, element, name))
}

/// Whether an element may have an attribute of that name.
pub(crate) fn is_named_for(policy: &Policy, element: &LocalName, name: &LocalName) -> bool
    ensures { result ≡ is_named_for policy.now element.now name.now }
{
    is_among(name, &policy.everywhere)
        || is_in_rule(&policy.kept, element, name)
        || begins_with_one(&policy.beginnings, name.as_str())
}

/// Whether the value of an attribute of that name is a URL.
pub(crate) fn has_url(policy: &Policy, name: &LocalName) -> bool
    ensures { result ≡ has_url policy.now name.now }
{
    is_url_attribute(name) || is_among(name, &policy.urls) || is_made_url(&policy.values, name)
}

/// Whether the URL of an attribute of an element may have a scheme.
fn is_allowed_scheme(policy: &Policy, element: &LocalName, name: &LocalName, scheme: &Text) -> bool
    ensures { result ≡ is_allowed_scheme policy.now element.now name.now scheme.now }
{
    if are_schemes_limited(&policy.values, element, name) {
        meets_schemes(&policy.values, element, name, scheme)
    } else {
        is_text_among(scheme, &policy.schemes)
    }
}

/// Whether a URL of this kind is kept in an attribute of an element.
fn is_kept_kind(policy: &Policy, element: &LocalName, name: &LocalName, kind: &UrlKind) -> bool
    ensures { result ≡ is_kept_kind policy.now element.now name.now kind.now }
{
    match kind {
        UrlKind::HasScheme(scheme) => {
            is_allowed_scheme(policy, element, name, scheme) && !is_unsafe_scheme(scheme)
        }
        UrlKind::HasHost => policy.allows_hosts,
        UrlKind::IsRelative => policy.allows_relative,
    }
}

/// Whether each rule that limits the schemes of an attribute lists `data`.
fn list_data(
    alloc: Global,
    policy: &Policy,
    element: &LocalName,
    name: &LocalName,
) -> Result<bool, ParseFault>
    ensures ok { IfOk result (λ list. list ≡ list_all (meets_scheme element.now name.now (codes "data")) policy.now.values.items) }
    ensures fault { IfErr result (λ fault. fault ≡ Memory) }
{
    let data = Text::from_str(alloc, "data")?;
    Ok(meets_schemes(&policy.values, element, name, &data))
}

/// Whether the URL of an attribute of an element may be the data of a picture.
fn allows_pictures(
    alloc: Global,
    policy: &Policy,
    element: &LocalName,
    name: &LocalName,
) -> Result<bool, ParseFault>
    ensures ok { IfOk result (λ allows. allows ≡ allows_pictures policy.now element.now name.now) }
    ensures fault { IfErr result (λ fault. fault ≡ Memory) }
{
    if !is_picture(element, name) || !are_schemes_limited(&policy.values, element, name) {
        return Ok(false);
    }
    list_data(alloc, policy, element, name)
}

/// Whether a URL is kept as the data of a picture.
fn is_kept_picture(
    alloc: Global,
    policy: &Policy,
    element: &LocalName,
    name: &LocalName,
    url: &Text,
) -> Result<bool, ParseFault>
    ensures ok { IfOk result (λ kept. kept ≡ (allows_pictures policy.now element.now name.now && is_picture_data url.now)) }
    ensures fault { IfErr result (λ fault. fault ≡ Memory) }
{
    if !allows_pictures(alloc, policy, element, name)? {
        return Ok(false);
    }
    is_picture_data(alloc, url.as_str())
}

/// Whether a URL is kept in an attribute of an element.
fn is_kept_url(
    alloc: Global,
    policy: &Policy,
    element: &LocalName,
    name: &LocalName,
    url: &Text,
) -> Result<bool, ParseFault>
    ensures ok { IfOk result (λ kept. kept ≡ is_kept_url policy.now element.now name.now url.now) }
    ensures fault { IfErr result (λ fault. fault ≡ Memory) }
{
    let kind = url_kind(alloc, url.as_str())?;
    if is_kept_kind(policy, element, name, &kind) {
        return Ok(true);
    }
    is_kept_picture(alloc, policy, element, name, url)
}

/// Whether each of some URLs is kept in an attribute of an element.
fn are_kept(
    alloc: Global,
    policy: &Policy,
    element: &LocalName,
    name: &LocalName,
    urls: &[Text],
) -> Result<bool, ParseFault>
    ensures ok { IfOk result (λ kept. kept ≡ list_all (is_kept_url policy.now element.now name.now) urls.now) }
    ensures fault { IfErr result (λ fault. fault ≡ Memory) }
{
    for url in urls {
        if !is_kept_url(alloc, policy, element, name, url)? {
            return Ok(false);
        }
    }
    Ok(true)
}

/// Whether each URL of an attribute's value is kept.
fn are_kept_urls(
    alloc: Global,
    policy: &Policy,
    element: &LocalName,
    name: &LocalName,
    value: &Text,
) -> Result<bool, ParseFault>
    ensures ok { IfOk result (λ kept. kept ≡ are_kept_urls policy.now element.now name.now value.now) }
    ensures fault { IfErr result (λ fault. fault ≡ Memory) }
{
    if !name.is("srcset") {
        return is_kept_url(alloc, policy, element, name, value);
    }
    let urls = candidates(alloc, value.as_str())?;
    are_kept(alloc, policy, element, name, &urls)
}

/// Whether an attribute of an element on which there is this verdict is kept with this value.
fn is_kept_value(
    alloc: Global,
    policy: &Policy,
    verdict: Verdict,
    element: &LocalName,
    name: &LocalName,
    value: &Text,
) -> Result<bool, ParseFault>
    ensures ok { IfOk result (λ kept. kept ≡ is_kept_value policy.now verdict element.now name.now value.now) }
    ensures fault { IfErr result (λ fault. fault ≡ Memory) }
{
    match verdict {
        Verdict::Refused => Ok(false),
        Verdict::Kept => Ok(true),
        Verdict::KeptByUrl => are_kept_urls(alloc, policy, element, name, value),
    }
}

/// What the rules for values leave of the value of an attribute, without U+0000 and U+000D.
fn left_value(
    alloc: Global,
    policy: &Policy,
    element: &LocalName,
    attribute: &Attribute,
) -> Result<Text, ParseFault>
    ensures ok { IfOk result (λ left. left ≡ plain_text
        (value_left policy.now.values.items element.now attribute.now.name.local attribute.now.value)) }
    ensures fault { IfErr result (λ fault. fault ≡ Memory) }
{
    if policy.values.is_empty() {
        return plain_text(alloc, attribute.value.as_str());
    }
    let value = attribute.value.copy(alloc)?;
    let left = value_left(alloc, &policy.values, element, &attribute.name.local, value)?;
    plain_text(alloc, left.as_str())
}

/// Whether an attribute on which there is this verdict is kept with this value, which has to meet the rules for values besides.
fn is_value_kept(
    alloc: Global,
    policy: &Policy,
    verdict: Verdict,
    element: &LocalName,
    name: &LocalName,
    value: &Text,
) -> Result<bool, ParseFault>
    ensures ok { IfOk result (λ kept. kept ≡ (is_kept_value policy.now verdict element.now name.now value.now
        && meets_all policy.now.values.items element.now name.now value.now)) }
    ensures fault { IfErr result (λ fault. fault ≡ Memory) }
{
    if !is_kept_value(alloc, policy, verdict, element, name, value)? {
        return Ok(false);
    }
    meets_all(alloc, &policy.values, element, name, value)
}

/// Adds what is left of an attribute, if it is kept and none of its name was. The name is judged before the value is copied.
fn add(
    alloc: Global,
    notes: &mut Notes,
    element: &LocalName,
    kept: &mut Attributes,
    attribute: &Attribute,
) -> Result<(), ParseFault>
    ensures ok { OnOk result (kept.new ≡ kept_with notes.old element.now kept.old attribute.now) }
    ensures fault { IfErr result (λ fault. fault ≡ Memory) }
    ensures same { notes.new ≡ notes.old }
{
    let verdict = notes.verdict(element, &attribute.name);
    let name = &attribute.name.local;
    if verdict == Verdict::Refused || kept.has_local_name(name) {
        return Ok(());
    }
    let value = left_value(alloc, notes.policy(), element, attribute)?;
    if is_value_kept(alloc, notes.policy(), verdict, element, name, &value)? {
        kept.push(Attribute {
            name: attribute.name.copy(alloc)?,
            value,
        })?;
    }
    Ok(())
}

/// Whether a policy adds an attribute to an element.
fn adds(policy: &Policy, element: &LocalName, addition: &Addition) -> bool
    ensures { result ≡ adds policy.now element.now addition.now }
{
    *element == addition.element
        && is_safe_attribute(&addition.name)
        && !has_url(policy, &addition.name)
}

/// The attribute that is added.
fn attribute_of(alloc: Global, addition: &Addition) -> Result<Attribute, ParseFault>
    ensures ok { IfOk result (λ attribute. attribute ≡ attribute_of addition.now) }
    ensures fault { IfErr result (λ fault. fault ≡ Memory) }
{
    Ok(Attribute {
        name: QualName::new(None, Namespace::none(), addition.name.copy(alloc)?),
        value: plain_text(alloc, addition.value.as_str())?,
    })
}

/// Adds an attribute that a policy adds, if none of its name was.
fn add_addition(
    alloc: Global,
    policy: &Policy,
    element: &LocalName,
    added: &mut Attributes,
    addition: &Addition,
) -> Result<(), ParseFault>
    ensures ok { OnOk result (added.new ≡ with_addition policy.now element.now added.old addition.now) }
    ensures fault { IfErr result (λ fault. fault ≡ Memory) }
{
    if adds(policy, element, addition) && !added.has_local_name(&addition.name) {
        added.push(attribute_of(alloc, addition)?)?;
    }
    Ok(())
}

/// The attributes that a policy adds to an element.
pub(crate) fn added_attributes(
    alloc: Global,
    policy: &Policy,
    element: &LocalName,
) -> Result<Attributes, ParseFault>
    ensures ok { IfOk result (λ added. added ≡ added_attributes policy.now element.now) }
    ensures fault { IfErr result (λ fault. fault ≡ Memory) }
{
    let mut added = Attributes::new(alloc);
    for addition in &policy.added {
        add_addition(alloc, policy, element, &mut added, addition)?;
    }
    Ok(added)
}

/// Attributes, and after them those of an element that are kept.
pub(crate) fn kept_after(
    alloc: Global,
    notes: &mut Notes,
    element: &LocalName,
    added: Attributes,
    attributes: &[Attribute],
) -> Result<Attributes, ParseFault>
    ensures ok { IfOk result (λ kept. kept ≡ kept_after notes.old element.now added attributes.now) }
    ensures fault { IfErr result (λ fault. fault ≡ Memory) }
    ensures same { notes.new ≡ notes.old }
{
    let mut kept = added;
    for attribute in attributes {
        add(alloc, notes, element, &mut kept, attribute)?;
    }
    Ok(kept)
}
