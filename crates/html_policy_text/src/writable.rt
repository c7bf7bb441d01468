//! Whether a policy can be written as text.
ghost use Rattle.std.specs.Prelude.{◌≡◌, [], IfErr, IfOk, map};
ghost use Rattle.std.specs.List.{list_all};
ghost use Rattle.std.specs.Str.{chars};
ghost use Rattle.html_clean.specs.Ready.{addition_parts, rule_names};
ghost use Rattle.markup.specs.declared.fault.ParseFault.TheVariants.{Memory};
ghost use Rattle.html_clean.specs.Limits.{limit_of, limit_parts};
ghost use Rattle.html_policy_text.specs.Rules.{rules_of};
ghost use Rattle.html_policy_text.specs.Written.{are_lists_writable, is_addition_writable, is_limit_writable, is_rule_writable, is_solid};
ghost use Rattle.html_policy_text.specs.Written.{is_target_writable, is_value, is_value_rule_writable, is_whole, is_word, is_writable};

use crate::limits::after_mark;
use html_clean::{Addition, Allowed, Policy, Rule, ValueRule, joined, words_of};
use markup::{LocalName, ParseFault, Text};
use std::alloc::Global;

/// Whether a text has no white space.
fn is_solid(text: &str) -> bool
    ensures { result ≡ list_all is_solid (chars text.now) }
{
    text.chars().all(|c| !c.is_ascii_whitespace())
}

/// Whether a text is a word of a line.
fn is_word(text: &Text) -> bool
    ensures { result ≡ is_word text.now }
{
    !text.is_empty() && is_solid(text.as_str())
}

/// Whether a name is a word of a line.
fn is_name_word(name: &LocalName) -> bool
    ensures { result ≡ is_word name.now }
{
    !name.is_empty() && is_solid(name.as_str())
}

/// Whether each of some texts is a word of a line.
fn are_words(texts: &[Text]) -> bool
    ensures { result ≡ list_all is_word texts.now }
{
    texts.iter().all(|text| is_word(text))
}

/// Whether each of some names is a word of a line.
fn are_name_words(names: &[LocalName]) -> bool
    ensures { result ≡ list_all is_word names.now }
{
    names.iter().all(|name| is_name_word(name))
}

/// Whether a rule for an element can be written.
fn is_rule_writable(rule: &Rule) -> bool
    ensures { result ≡ is_rule_writable (rule_names rule.now) }
{
    is_name_word(&rule.element) && are_name_words(&rule.attributes)
}

/// Whether each of some rules for elements can be written.
fn are_rules_writable(rules: &[Rule]) -> bool
    ensures { result ≡ list_all is_rule_writable (map rule_names rules.now) }
{
    for rule in rules {
        if !is_rule_writable(rule) {
            return false;
        }
    }
    true
}

/// Whether the element that a rule is for can be written.
fn is_target_writable(target: &Option<LocalName>) -> bool
    ensures { result ≡ is_target_writable target.now }
{
    match target {
        Some(name) => is_name_word(name) && !name.is("*"),
        None => true,
    }
}

/// Whether a word can be written as one that is kept whole.
fn is_whole(word: &Text) -> bool
    ensures { result ≡ is_whole word.now }
{
    is_word(word) && after_mark(word.as_str()).is_none()
}

/// Whether each of some words can.
fn are_whole(words: &[Text]) -> bool
    ensures { result ≡ list_all is_whole words.now }
{
    words.iter().all(|word| is_whole(word))
}

/// Whether no beginning of words has white space.
fn are_solid(beginnings: &[Text]) -> bool
    ensures { result ≡ list_all (list_all is_solid) beginnings.now }
{
    beginnings
        .iter()
        .all(|beginning| is_solid(beginning.as_str()))
}

/// Whether what is allowed can be written.
fn is_limit_writable(allowed: &Allowed) -> bool
    ensures { result ≡ is_limit_writable (limit_of allowed.now) }
{
    match allowed {
        Allowed::OneOf(texts) => are_words(texts),
        Allowed::Words { words, beginnings } => are_whole(words) && are_solid(beginnings),
        // Always so of 32 bits; the definition is of all numbers.
        Allowed::Number { least, most } => *least <= u32::MAX && *most <= u32::MAX,
        Allowed::Schemes(schemes) => are_words(schemes),
        Allowed::Prefixed { prefix, .. } | Allowed::Proxied { prefix } => is_word(prefix),
        Allowed::Absolute { base } => is_word(base),
    }
}

/// Whether a rule for values can be written.
fn is_value_rule_writable(rule: &ValueRule) -> bool
    ensures { result ≡ is_value_rule_writable (limit_parts rule.now) }
{
    is_target_writable(&rule.element)
        && is_name_word(&rule.attribute)
        && is_limit_writable(&rule.allowed)
}

/// Whether each of some rules for values can be written.
fn are_value_rules_writable(rules: &[ValueRule]) -> bool
    ensures { result ≡ list_all is_value_rule_writable (map limit_parts rules.now) }
{
    for rule in rules {
        if !is_value_rule_writable(rule) {
            return false;
        }
    }
    true
}

/// Whether a value is of words with a space between each two.
fn is_value(alloc: Global, value: &Text) -> Result<bool, ParseFault>
    ensures ok { IfOk result (λ is. is ≡ is_value value.now) }
    ensures fault { IfErr result (λ fault. fault ≡ Memory) }
{
    let words = words_of(alloc, value.as_str())?;
    Ok(joined(alloc, words.as_slice())? == *value)
}

/// Whether an attribute that is added can be written.
fn is_addition_writable(alloc: Global, addition: &Addition) -> Result<bool, ParseFault>
    ensures ok { IfOk result (λ is. is ≡ is_addition_writable (addition_parts addition.now)) }
    ensures fault { IfErr result (λ fault. fault ≡ Memory) }
{
    if !is_name_word(&addition.element) || !is_name_word(&addition.name) {
        return Ok(false);
    }
    is_value(alloc, &addition.value)
}

/// Whether each of some attributes that are added can be written.
fn are_additions_writable(alloc: Global, added: &[Addition]) -> Result<bool, ParseFault>
    ensures ok { IfOk result (λ are. are ≡ list_all is_addition_writable (map addition_parts added.now)) }
    ensures fault { IfErr result (λ fault. fault ≡ Memory) }
{
    for addition in added {
        if !is_addition_writable(alloc, addition)? {
            return Ok(false);
        }
    }
    Ok(true)
}

/// Whether the lists of names of a policy can be written.
fn are_lists_writable(policy: &Policy) -> bool
    ensures { result ≡ are_lists_writable (rules_of policy.now) }
{
    (are_rules_writable(&policy.kept)
        && (are_name_words(&policy.dropped) && are_name_words(&policy.everywhere)))
        && (are_words(&policy.beginnings)
            && (are_name_words(&policy.urls) && are_words(&policy.schemes)))
}

/// Whether a policy can be written.
pub(crate) fn is_writable(alloc: Global, policy: &Policy) -> Result<bool, ParseFault>
    ensures ok { IfOk result (λ is. is ≡ is_writable (rules_of policy.now)) }
    ensures fault { IfErr result (λ fault. fault ≡ Memory) }
{
    if !are_lists_writable(policy) || !are_value_rules_writable(&policy.values) {
        return Ok(false);
    }
    are_additions_writable(alloc, &policy.added)
}
