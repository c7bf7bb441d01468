//! Which values attributes may have.
ghost use Rattle.std.specs.Prelude.{◌≡◌, ◌&&◌, ◌||◌, cond, not, map, true, false, IfOk, IfErr, IfSome, IfNone, OnOk};
ghost use Rattle.std.specs.Char.{is_ascii_digit, to_ascii_lowercase};
ghost use Rattle.std.specs.List.{fold, list_all, list_any};
ghost use Rattle.std.specs.Str.{chars};
ghost use Rattle.html_clean.specs.Limits.{limit_of};
ghost use Rattle.html_clean.specs.Limits.Limit.{Absolute, Parts, Prefixed, Proxied, Schemes, Texts};
ghost use Rattle.html_clean.specs.Beginnings.{begins_with, begins_with_one};
ghost use Rattle.html_clean.specs.Values.{allowed_words, allows, allows_scheme, is_allowed_word};
ghost use Rattle.html_clean.specs.Values.{is_for_element, is_of_schemes, is_of_urls, limits_schemes, makes_url, meets_scheme};
ghost use Rattle.html_clean.specs.Values.{is_number_within, is_rule_for, left_of, meets_all, value_left};
ghost use Rattle.html_clean.specs.Values.{with_digit, with_word};
ghost use Rattle.html_round_trip.specs.Slices.Forms.{is_no_text};
ghost use Rattle.markup.specs.Trees.{is_among};
ghost use Rattle.markup.specs.declared.fault.ParseFault.TheVariants.{Memory};

use crate::bases::absolute;
use crate::ids::prefixed;
use crate::policy::{Allowed, IdForm, ValueRule};
use crate::proxies::proxied;
use crate::ready::texts_of;
use crate::texts::is_no_text;
use crate::words::{push_word, words_of};
use markup::{LocalName, ParseFault, Text};
use std::alloc::Global;

/// Whether a text begins with another.
pub(crate) fn begins_with(beginning: &str, text: &str) -> bool
    ensures { result ≡ begins_with (chars beginning.now) (chars text.now) }
{
    let mut rest = text.chars();
    for c in beginning.chars() {
        match rest.next() {
            Some(d) if c == d => {}
            _ => return false,
        }
    }
    true
}

/// Whether a text begins with one of these.
pub(crate) fn begins_with_one(beginnings: &[Text], text: &str) -> bool
    ensures { result ≡ begins_with_one beginnings.now (chars text.now) }
{
    beginnings
        .iter()
        .any(|beginning| begins_with(beginning.as_str(), text))
}

/// Whether a text is one of these.
pub(crate) fn is_text_among(text: &Text, texts: &[Text]) -> bool
    ensures { result ≡ is_among text.now texts.now }
{
    texts.iter().any(|other| *text == *other)
}

/// Whether a word is one of these, or begins with one of those.
fn is_allowed_word(words: &[Text], beginnings: &[Text], word: &Text) -> bool
    ensures { result ≡ is_allowed_word words.now beginnings.now word.now }
{
    is_text_among(word, words) || begins_with_one(beginnings, word.as_str())
}

/// Puts a word that is allowed after a text; another is left out.
fn push_allowed(
    words: &[Text],
    beginnings: &[Text],
    made: &mut Text,
    word: &Text,
) -> Result<(), ParseFault>
    ensures ok { OnOk result (made.new ≡ cond (is_allowed_word words.now beginnings.now word.now) (with_word made.old word.now) made.old) }
    ensures fault { IfErr result (λ fault. fault ≡ Memory) }
{
    if !is_allowed_word(words, beginnings, word) {
        return Ok(());
    }
    push_word(made, word)
}

/// The words of a value that are allowed, with a space between each two.
fn allowed_words(
    alloc: Global,
    words: &[Text],
    beginnings: &[Text],
    value: &str,
) -> Result<Text, ParseFault>
    ensures ok { IfOk result (λ made. made ≡ allowed_words words.now beginnings.now (chars value.now)) }
    ensures fault { IfErr result (λ fault. fault ≡ Memory) }
{
    let list = words_of(alloc, value)?;
    let mut made = Text::empty(alloc);
    for word in &list {
        push_allowed(words, beginnings, &mut made, word)?;
    }
    Ok(made)
}

/// A number and a digit after it, as far as 32 bits go.
fn with_digit(n: u32, c: char) -> u32
    ensures { result ≡ with_digit n c }
{
    n.saturating_mul(10)
        .saturating_add((c as u32).saturating_sub(48))
}

/// The number that a text is in ASCII digits, if it is of these alone: 0 of none, and the greatest of 32 bits of one that is greater.
pub fn number(text: &str) -> Option<u32>
    ensures some { IfSome result (λ n. n ≡ fold with_digit 0 (chars text.now)) }
    ensures digits { IfSome result (λ _. list_all is_ascii_digit (chars text.now) ≡ true) }
    ensures none { IfNone result (list_all is_ascii_digit (chars text.now) ≡ false) }
{
    let mut n: u32 = 0;
    for c in text.chars() {
        if !c.is_ascii_digit() {
            return None;
        }
        n = with_digit(n, c);
    }
    Some(n)
}

/// Whether a text is a number in digits, from the least to the most.
fn is_number_within(least: u32, most: u32, text: &str) -> bool
    ensures { result ≡ is_number_within least most (chars text.now) }
{
    if is_no_text(text) {
        return false;
    }
    match number(text) {
        Some(n) => least <= n && n <= most,
        None => false,
    }
}

/// Whether a text with its ASCII letters lowered is one of these.
fn is_lowered_among(alloc: Global, text: &Text, texts: &[Text]) -> Result<bool, ParseFault>
    ensures ok { IfOk result (λ is. is ≡ is_among (map to_ascii_lowercase text.now) texts.now) }
    ensures fault { IfErr result (λ fault. fault ≡ Memory) }
{
    let mut lowered = Text::empty(alloc);
    lowered.push_lowered(text.as_str())?;
    Ok(is_text_among(&lowered, texts))
}

/// What is left of a value.
fn left_of(alloc: Global, allowed: &Allowed, value: Text) -> Result<Text, ParseFault>
    ensures ok { IfOk result (λ left. left ≡ left_of allowed.now value) }
    ensures fault { IfErr result (λ fault. fault ≡ Memory) }
{
    match allowed {
        Allowed::Words { words, beginnings } => {
            allowed_words(alloc, words, beginnings, value.as_str())
        }
        Allowed::Prefixed { form, prefix } => {
            prefixed(alloc, *form, prefix.as_str(), value.as_str())
        }
        Allowed::Proxied { prefix } => proxied(alloc, prefix.as_str(), value.as_str()),
        Allowed::Absolute { base } => absolute(alloc, base.as_str(), value.as_str()),
        _ => Ok(value),
    }
}

/// Whether a value is allowed.
fn allows(alloc: Global, allowed: &Allowed, value: &Text) -> Result<bool, ParseFault>
    ensures ok { IfOk result (λ is. is ≡ allows allowed.now value.now) }
    ensures fault { IfErr result (λ fault. fault ≡ Memory) }
{
    match allowed {
        Allowed::OneOf(texts) => is_lowered_among(alloc, value, texts),
        Allowed::Words { words, beginnings } => {
            let left = allowed_words(alloc, words, beginnings, value.as_str())?;
            Ok(!is_no_text(value.as_str()) && left == *value)
        }
        Allowed::Number { least, most } => Ok(is_number_within(*least, *most, value.as_str())),
        Allowed::Schemes(_) => Ok(true),
        Allowed::Prefixed { form, prefix } => {
            let left = prefixed(alloc, *form, prefix.as_str(), value.as_str())?;
            Ok(!is_no_text(value.as_str()) && left == *value)
        }
        Allowed::Proxied { prefix } => {
            let left = proxied(alloc, prefix.as_str(), value.as_str())?;
            Ok(left == *value)
        }
        Allowed::Absolute { base } => {
            let left = absolute(alloc, base.as_str(), value.as_str())?;
            Ok(left == *value)
        }
    }
}

/// Whether a rule for one element, or for all, is for an element.
fn is_for_element(of: &Option<LocalName>, element: &LocalName) -> bool
    ensures { result ≡ is_for_element of.now element.now }
{
    match of {
        Some(name) => *element == *name,
        None => true,
    }
}

/// Whether a rule is for an attribute of an element.
fn is_rule_for(rule: &ValueRule, element: &LocalName, name: &LocalName) -> bool
    ensures { result ≡ is_rule_for element.now name.now rule.now }
{
    *name == rule.attribute && is_for_element(&rule.element, element)
}

/// Whether a value meets each rule that is for its attribute.
pub(crate) fn meets_all(
    alloc: Global,
    rules: &[ValueRule],
    element: &LocalName,
    name: &LocalName,
    value: &Text,
) -> Result<bool, ParseFault>
    ensures ok { IfOk result (λ is. is ≡ meets_all rules.now element.now name.now value.now) }
    ensures fault { IfErr result (λ fault. fault ≡ Memory) }
{
    for rule in rules {
        if is_rule_for(rule, element, name) && !allows(alloc, &rule.allowed, value)? {
            return Ok(false);
        }
    }
    Ok(true)
}

/// What rules that are for an attribute leave of its value, one after the other.
pub(crate) fn value_left(
    alloc: Global,
    rules: &[ValueRule],
    element: &LocalName,
    name: &LocalName,
    value: Text,
) -> Result<Text, ParseFault>
    ensures ok { IfOk result (λ left. left ≡ value_left rules.now element.now name.now value) }
    ensures fault { IfErr result (λ fault. fault ≡ Memory) }
{
    let mut left = value;
    for rule in rules {
        if is_rule_for(rule, element, name) {
            left = left_of(alloc, &rule.allowed, left)?;
        }
    }
    Ok(left)
}

/// Whether it is schemes that are limited.
fn is_of_schemes(allowed: &Allowed) -> bool
    ensures { result ≡ is_of_schemes allowed.now }
{
    match allowed {
        Allowed::Schemes(_) => true,
        _ => false,
    }
}

/// Whether a scheme is allowed.
fn allows_scheme(allowed: &Allowed, scheme: &Text) -> bool
    ensures { result ≡ allows_scheme allowed.now scheme.now }
{
    match allowed {
        Allowed::Schemes(schemes) => is_text_among(scheme, schemes),
        _ => true,
    }
}

/// Whether a rule makes the value that it is for a URL.
fn is_of_urls(allowed: &Allowed) -> bool
    ensures { result ≡ is_of_urls allowed.now }
{
    matches!(
        allowed,
        Allowed::Schemes(_) | Allowed::Proxied { .. } | Allowed::Absolute { .. }
    )
}

/// Whether a rule makes an attribute a URL, on whatever element.
fn makes_url(rule: &ValueRule, name: &LocalName) -> bool
    ensures { result ≡ makes_url name.now rule.now }
{
    *name == rule.attribute && is_of_urls(&rule.allowed)
}

/// Whether a rule limits the schemes of an attribute of an element.
fn limits_schemes(rule: &ValueRule, element: &LocalName, name: &LocalName) -> bool
    ensures { result ≡ limits_schemes element.now name.now rule.now }
{
    is_rule_for(rule, element, name) && is_of_schemes(&rule.allowed)
}

/// Whether a scheme meets a rule, if that is for its attribute.
fn meets_scheme(rule: &ValueRule, element: &LocalName, name: &LocalName, scheme: &Text) -> bool
    ensures { result ≡ meets_scheme element.now name.now scheme.now rule.now }
{
    !is_rule_for(rule, element, name) || allows_scheme(&rule.allowed, scheme)
}

/// Whether one of some rules makes an attribute a URL, on whatever element.
pub(crate) fn is_made_url(rules: &[ValueRule], name: &LocalName) -> bool
    ensures { result ≡ list_any (makes_url name.now) rules.now }
{
    rules.iter().any(|rule| makes_url(rule, name))
}

/// Whether one of some rules limits the schemes of an attribute of an element.
pub(crate) fn are_schemes_limited(
    rules: &[ValueRule],
    element: &LocalName,
    name: &LocalName,
) -> bool
    ensures { result ≡ list_any (limits_schemes element.now name.now) rules.now }
{
    rules.iter().any(|rule| limits_schemes(rule, element, name))
}

/// Whether a scheme meets each rule that is for its attribute.
pub(crate) fn meets_schemes(
    rules: &[ValueRule],
    element: &LocalName,
    name: &LocalName,
    scheme: &Text,
) -> bool
    ensures { result ≡ list_all (meets_scheme element.now name.now scheme.now) rules.now }
{
    rules
        .iter()
        .all(|rule| meets_scheme(rule, element, name, scheme))
}

impl Allowed {
    /// One of these texts, which stand in lower case.
    pub fn one_of(alloc: Global, texts: &[&str]) -> Result<Allowed, ParseFault>
        ensures ok { IfOk result (λ allowed. limit_of allowed ≡ Texts (map (λ text. chars text.now) texts.now)) }
        ensures fault { IfErr result (λ fault. fault ≡ Memory) }
    {
        Ok(Allowed::OneOf(texts_of(alloc, texts)?))
    }

    /// URLs of these schemes, in lower case and without the colon: `Allowed::schemes(alloc, &["https", "mailto"])`.
    pub fn schemes(alloc: Global, schemes: &[&str]) -> Result<Allowed, ParseFault>
        ensures ok { IfOk result (λ allowed. limit_of allowed ≡ Schemes (map (λ scheme. chars scheme.now) schemes.now)) }
        ensures fault { IfErr result (λ fault. fault ≡ Memory) }
    {
        Ok(Allowed::Schemes(texts_of(alloc, schemes)?))
    }

    /// Words, and beginnings of words: `Allowed::words(alloc, &["note"], &["language-"])`.
    pub fn words(alloc: Global, words: &[&str], beginnings: &[&str]) -> Result<Allowed, ParseFault>
        ensures ok { IfOk result (λ allowed. limit_of allowed ≡ Parts
            (map (λ word. chars word.now) words.now) (map (λ beginning. chars beginning.now) beginnings.now)) }
        ensures fault { IfErr result (λ fault. fault ≡ Memory) }
    {
        Ok(Allowed::Words {
            words: texts_of(alloc, words)?,
            beginnings: texts_of(alloc, beginnings)?,
        })
    }

    /// Names with a prefix: `Allowed::prefixed(alloc, IdForm::Name, "user-content-")`.
    pub fn prefixed(alloc: Global, form: IdForm, prefix: &str) -> Result<Allowed, ParseFault>
        ensures ok { IfOk result (λ allowed. limit_of allowed ≡ Prefixed form (chars prefix.now)) }
        ensures fault { IfErr result (λ fault. fault ≡ Memory) }
    {
        Ok(Allowed::Prefixed {
            form,
            prefix: Text::from_str(alloc, prefix)?,
        })
    }

    /// URLs through a proxy: `Allowed::proxied(alloc, "https://proxy.example/?url=")`.
    pub fn proxied(alloc: Global, prefix: &str) -> Result<Allowed, ParseFault>
        ensures ok { IfOk result (λ allowed. limit_of allowed ≡ Proxied (chars prefix.now)) }
        ensures fault { IfErr result (λ fault. fault ≡ Memory) }
    {
        Ok(Allowed::Proxied {
            prefix: Text::from_str(alloc, prefix)?,
        })
    }

    /// URLs that are absolute: `Allowed::absolute(alloc, "https://blog.example/2026/")`.
    pub fn absolute(alloc: Global, base: &str) -> Result<Allowed, ParseFault>
        ensures ok { IfOk result (λ allowed. limit_of allowed ≡ Absolute (chars base.now)) }
        ensures fault { IfErr result (λ fault. fault ≡ Memory) }
    {
        Ok(Allowed::Absolute {
            base: Text::from_str(alloc, base)?,
        })
    }
}
