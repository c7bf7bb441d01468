//! Rules that add to a list of a policy.
ghost use Rattle.std.specs.Prelude.{◌≡◌, ◌++◌, ◌∷◌, [], IfErr, IfOk, OnOk, map, true};
ghost use Rattle.html_clean.specs.Ready.{rule_names};
ghost use Rattle.markup.specs.declared.fault.ParseFault.TheVariants.{Memory};
ghost use Rattle.html_policy_text.specs.PolicyText.{IsApplied};
ghost use Rattle.html_policy_text.specs.Rules.{if_none, if_some, rules_of, with_kept};

use crate::rules::{Problem, RuleFault, or_memory};
use html_clean::{Policy, Rule};
use markup::{LocalName, ParseFault, Text};
use std::alloc::Global;

/// Puts the names of words after others.
fn push_names(alloc: Global, names: &mut Vec<LocalName>, words: &[Text]) -> Result<(), ParseFault>
    ensures ok { OnOk result (names.new.items ≡ names.old.items ++ words.now) }
    ensures fault { IfErr result (λ fault. fault ≡ Memory) }
{
    for word in words {
        names.push(LocalName::from_str(alloc, word.as_str())?)?;
    }
    Ok(())
}

/// Puts words after others.
pub(crate) fn push_texts(
    alloc: Global,
    texts: &mut Vec<Text>,
    words: &[Text],
) -> Result<(), ParseFault>
    ensures ok { OnOk result (texts.new.items ≡ texts.old.items ++ words.now) }
    ensures fault { IfErr result (λ fault. fault ≡ Memory) }
{
    for word in words {
        texts.push(word.copy(alloc)?)?;
    }
    Ok(())
}

/// Keeps an element with attributes.
fn keep_element(
    alloc: Global,
    policy: &mut Policy,
    element: &Text,
    attributes: &[Text],
) -> Result<(), ParseFault>
    ensures ok { OnOk result (rules_of policy.new ≡ record (rules_of policy.old) {
      kept = map rule_names policy.old.kept.items ++ (element.now, attributes.now) ∷ [];
    }) }
    ensures fault { IfErr result (λ fault. fault ≡ Memory) }
{
    let mut names = Vec::new(alloc);
    push_names(alloc, &mut names, attributes)?;
    policy.kept.push(Rule {
        element: LocalName::from_str(alloc, element.as_str())?,
        attributes: names,
    })?;
    Ok(())
}

/// `keep`, an element and its attributes.
pub(crate) fn keep(alloc: Global, policy: &mut Policy, words: &[Text]) -> Result<(), RuleFault>
    ensures { IsApplied result (rules_of policy.new) (with_kept (rules_of policy.old) words.now) }
{
    let Some((element, attributes)) = words.split_first() else {
        return Err(RuleFault::Problem(Problem::WrongWords));
    };
    or_memory(keep_element(alloc, policy, element, attributes))
}

/// `drop`, names of elements.
pub(crate) fn drop_names(
    alloc: Global,
    policy: &mut Policy,
    words: &[Text],
) -> Result<(), RuleFault>
    ensures { IsApplied result (rules_of policy.new)
        (if_some words.now (record (rules_of policy.old) { dropped = policy.old.dropped.items ++ words.now })) }
{
    if words.is_empty() {
        return Err(RuleFault::Problem(Problem::WrongWords));
    }
    or_memory(push_names(alloc, &mut policy.dropped, words))
}

/// `attribute`, names of attributes.
pub(crate) fn keep_attributes(
    alloc: Global,
    policy: &mut Policy,
    words: &[Text],
) -> Result<(), RuleFault>
    ensures { IsApplied result (rules_of policy.new)
        (if_some words.now (record (rules_of policy.old) { everywhere = policy.old.everywhere.items ++ words.now })) }
{
    if words.is_empty() {
        return Err(RuleFault::Problem(Problem::WrongWords));
    }
    or_memory(push_names(alloc, &mut policy.everywhere, words))
}

/// `beginning`, beginnings of names of attributes.
pub(crate) fn keep_beginnings(
    alloc: Global,
    policy: &mut Policy,
    words: &[Text],
) -> Result<(), RuleFault>
    ensures { IsApplied result (rules_of policy.new)
        (if_some words.now (record (rules_of policy.old) { beginnings = policy.old.beginnings.items ++ words.now })) }
{
    if words.is_empty() {
        return Err(RuleFault::Problem(Problem::WrongWords));
    }
    or_memory(push_texts(alloc, &mut policy.beginnings, words))
}

/// `url`, names of attributes whose values are URLs.
pub(crate) fn name_urls(alloc: Global, policy: &mut Policy, words: &[Text]) -> Result<(), RuleFault>
    ensures { IsApplied result (rules_of policy.new)
        (if_some words.now (record (rules_of policy.old) { urls = policy.old.urls.items ++ words.now })) }
{
    if words.is_empty() {
        return Err(RuleFault::Problem(Problem::WrongWords));
    }
    or_memory(push_names(alloc, &mut policy.urls, words))
}

/// `scheme`, schemes of URLs.
pub(crate) fn allow_schemes(
    alloc: Global,
    policy: &mut Policy,
    words: &[Text],
) -> Result<(), RuleFault>
    ensures { IsApplied result (rules_of policy.new)
        (if_some words.now (record (rules_of policy.old) { schemes = policy.old.schemes.items ++ words.now })) }
{
    if words.is_empty() {
        return Err(RuleFault::Problem(Problem::WrongWords));
    }
    or_memory(push_texts(alloc, &mut policy.schemes, words))
}

/// `relative`: URLs may be relative to the page.
pub(crate) fn allow_relative(policy: &mut Policy, words: &[Text]) -> Result<(), RuleFault>
    ensures { IsApplied result (rules_of policy.new) (if_none words.now (record (rules_of policy.old) { relative = true })) }
{
    if !words.is_empty() {
        return Err(RuleFault::Problem(Problem::WrongWords));
    }
    policy.allows_relative = true;
    Ok(())
}

/// `host`: URLs may begin with two slashes.
pub(crate) fn allow_hosts(policy: &mut Policy, words: &[Text]) -> Result<(), RuleFault>
    ensures { IsApplied result (rules_of policy.new) (if_none words.now (record (rules_of policy.old) { hosts = true })) }
{
    if !words.is_empty() {
        return Err(RuleFault::Problem(Problem::WrongWords));
    }
    policy.allows_hosts = true;
    Ok(())
}
