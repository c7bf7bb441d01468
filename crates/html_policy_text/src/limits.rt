//! Rules for values, and attributes that are added.
ghost use Rattle.std.specs.Prelude.{◌≡◌, ◌++◌, IfErr, IfOk, IfNone, IfSome, None, Ok, Some, OnOk, option_map};
ghost use Rattle.std.specs.Str.{chars};
ghost use Rattle.html_clean.specs.Limits.{limit_of};
ghost use Rattle.html_clean.specs.Limits.Limit.{Parts, Schemes, Texts};
ghost use Rattle.markup.specs.declared.fault.ParseFault.TheVariants.{Memory};
ghost use Rattle.html_policy_text.specs.PolicyText.{IsApplied, IsRefused};
ghost use Rattle.html_policy_text.specs.Rules.{after_mark, base_by, beginning_if, bounds, limit_by, number_of, numbers_by, prefix_by};
ghost use Rattle.html_policy_text.specs.Rules.{proxy_by, rules_of, target_of, whole_if, whole_words, with_added, with_limit};
ghost use Rattle.html_policy_text.specs.Rules.{word_beginnings};

use crate::lists::push_texts;
use crate::rules::{LimitKind, Problem, RuleFault, or_memory};
use html_clean::{Allowed, IdForm, Policy, after_sign, joined, number};
use markup::{ParseFault, Text};
use std::alloc::Global;

/// The element that a word names, or none where it stands for all.
fn target_of(word: &Text) -> Option<&str>
    ensures { option_map (λ name. chars name.now) result ≡ target_of word.now }
{
    if word.is("*") {
        None
    } else {
        Some(word.as_str())
    }
}

/// What follows "^" in front of a word.
pub(crate) fn after_mark(word: &str) -> Option<&str>
    ensures some { IfSome result (λ rest. after_mark (chars word.now) ≡ Some (chars rest.now)) }
    ensures none { IfNone result (after_mark (chars word.now) ≡ None) }
{
    after_sign('^', word)
}

/// Puts a word among the words, or among the beginnings.
fn push_part(
    alloc: Global,
    words: &mut Vec<Text>,
    beginnings: &mut Vec<Text>,
    word: &Text,
) -> Result<(), ParseFault>
    ensures words { OnOk result (words.new.items ≡ words.old.items ++ whole_if (after_mark word.now) word.now) }
    ensures beginnings { OnOk result (beginnings.new.items ≡ beginnings.old.items ++ beginning_if (after_mark word.now)) }
    ensures fault { IfErr result (λ fault. fault ≡ Memory) }
{
    match after_mark(word.as_str()) {
        Some(beginning) => beginnings.push(Text::from_str(alloc, beginning)?)?,
        None => words.push(word.copy(alloc)?)?,
    }
    Ok(())
}

/// The words that are kept, and the beginnings of words.
fn parts_of(alloc: Global, list: &[Text]) -> Result<Allowed, ParseFault>
    ensures ok { IfOk result (λ allowed. limit_of allowed ≡ Parts (whole_words list.now) (word_beginnings list.now)) }
    ensures fault { IfErr result (λ fault. fault ≡ Memory) }
{
    let mut words = Vec::new(alloc);
    let mut beginnings = Vec::new(alloc);
    for word in list {
        push_part(alloc, &mut words, &mut beginnings, word)?;
    }
    Ok(Allowed::Words { words, beginnings })
}

/// The texts of which a value has to be one.
fn texts_of(alloc: Global, list: &[Text]) -> Result<Allowed, ParseFault>
    ensures ok { IfOk result (λ allowed. limit_of allowed ≡ Texts list.now) }
    ensures fault { IfErr result (λ fault. fault ≡ Memory) }
{
    let mut texts = Vec::new(alloc);
    push_texts(alloc, &mut texts, list)?;
    Ok(Allowed::OneOf(texts))
}

/// The schemes that a URL may have.
fn schemes_of(alloc: Global, list: &[Text]) -> Result<Allowed, ParseFault>
    ensures ok { IfOk result (λ allowed. limit_of allowed ≡ Schemes list.now) }
    ensures fault { IfErr result (λ fault. fault ≡ Memory) }
{
    let mut schemes = Vec::new(alloc);
    push_texts(alloc, &mut schemes, list)?;
    Ok(Allowed::Schemes(schemes))
}

/// The number that a word is in digits.
fn number_of(word: &Text) -> Option<u32>
    ensures { result ≡ number_of word.now }
{
    number(word.as_str())
}

/// A number from the least to the most.
fn bounds(least: Option<u32>, most: Option<u32>) -> Result<Allowed, RuleFault>
    ensures ok { IfOk result (λ allowed. bounds least most ≡ Ok (limit_of allowed)) }
    ensures err { IfErr result (λ fault. IsRefused fault (bounds least most)) }
{
    match (least, most) {
        (Some(least), Some(most)) => Ok(Allowed::Number { least, most }),
        _ => Err(RuleFault::Problem(Problem::WrongNumber)),
    }
}

/// A number from the first of two words to the second.
fn numbers_of(words: &[Text]) -> Result<Allowed, RuleFault>
    ensures ok { IfOk result (λ allowed. numbers_by words.now ≡ Ok (limit_of allowed)) }
    ensures err { IfErr result (λ fault. IsRefused fault (numbers_by words.now)) }
{
    let Some((least, after)) = words.split_first() else {
        return Err(RuleFault::Problem(Problem::WrongWords));
    };
    let Some((most, more)) = after.split_first() else {
        return Err(RuleFault::Problem(Problem::WrongWords));
    };
    if !more.is_empty() {
        return Err(RuleFault::Problem(Problem::WrongWords));
    }
    bounds(number_of(least), number_of(most))
}

/// Names with a prefix, by the only word.
fn prefix_of(alloc: Global, form: IdForm, words: &[Text]) -> Result<Allowed, RuleFault>
    ensures ok { IfOk result (λ allowed. prefix_by form words.now ≡ Ok (limit_of allowed)) }
    ensures err { IfErr result (λ fault. IsRefused fault (prefix_by form words.now)) }
{
    let Some((prefix, more)) = words.split_first() else {
        return Err(RuleFault::Problem(Problem::WrongWords));
    };
    if !more.is_empty() {
        return Err(RuleFault::Problem(Problem::WrongWords));
    }
    or_memory(Allowed::prefixed(alloc, form, prefix.as_str()))
}

/// URLs through a proxy, by the only word.
fn proxy_of(alloc: Global, words: &[Text]) -> Result<Allowed, RuleFault>
    ensures ok { IfOk result (λ allowed. proxy_by words.now ≡ Ok (limit_of allowed)) }
    ensures err { IfErr result (λ fault. IsRefused fault (proxy_by words.now)) }
{
    let Some((prefix, more)) = words.split_first() else {
        return Err(RuleFault::Problem(Problem::WrongWords));
    };
    if !more.is_empty() {
        return Err(RuleFault::Problem(Problem::WrongWords));
    }
    or_memory(Allowed::proxied(alloc, prefix.as_str()))
}

/// URLs that are absolute, by the only word.
fn base_of(alloc: Global, words: &[Text]) -> Result<Allowed, RuleFault>
    ensures ok { IfOk result (λ allowed. base_by words.now ≡ Ok (limit_of allowed)) }
    ensures err { IfErr result (λ fault. IsRefused fault (base_by words.now)) }
{
    let Some((base, more)) = words.split_first() else {
        return Err(RuleFault::Problem(Problem::WrongWords));
    };
    if !more.is_empty() {
        return Err(RuleFault::Problem(Problem::WrongWords));
    }
    or_memory(Allowed::absolute(alloc, base.as_str()))
}

/// What a value may be, by the words of a rule.
fn allowed_of(alloc: Global, kind: LimitKind, words: &[Text]) -> Result<Allowed, RuleFault>
    ensures ok { IfOk result (λ allowed. limit_by kind words.now ≡ Ok (limit_of allowed)) }
    ensures err { IfErr result (λ fault. IsRefused fault (limit_by kind words.now)) }
{
    match kind {
        LimitKind::Words => or_memory(parts_of(alloc, words)),
        LimitKind::OneOf => or_memory(texts_of(alloc, words)),
        LimitKind::Schemes => or_memory(schemes_of(alloc, words)),
        LimitKind::Number => numbers_of(words),
        LimitKind::Prefix(form) => prefix_of(alloc, form, words),
        LimitKind::Proxy => proxy_of(alloc, words),
        LimitKind::Base => base_of(alloc, words),
    }
}

/// A rule for values: an element or `*`, an attribute, and what its value may be.
pub(crate) fn limit(
    alloc: Global,
    policy: &mut Policy,
    kind: LimitKind,
    words: &[Text],
) -> Result<(), RuleFault>
    ensures { IsApplied result (rules_of policy.new) (with_limit kind (rules_of policy.old) words.now) }
{
    let Some((element, after)) = words.split_first() else {
        return Err(RuleFault::Problem(Problem::WrongWords));
    };
    let Some((attribute, list)) = after.split_first() else {
        return Err(RuleFault::Problem(Problem::WrongWords));
    };
    let allowed = allowed_of(alloc, kind, list)?;
    or_memory(policy.limit(alloc, target_of(element), attribute.as_str(), allowed))
}

/// `add`, an element, an attribute, and the words of its value.
pub(crate) fn add(alloc: Global, policy: &mut Policy, words: &[Text]) -> Result<(), RuleFault>
    ensures { IsApplied result (rules_of policy.new) (with_added (rules_of policy.old) words.now) }
{
    let Some((element, after)) = words.split_first() else {
        return Err(RuleFault::Problem(Problem::WrongWords));
    };
    let Some((name, value)) = after.split_first() else {
        return Err(RuleFault::Problem(Problem::WrongWords));
    };
    let Ok(value) = joined(alloc, value) else {
        return Err(RuleFault::Memory);
    };
    or_memory(policy.add(alloc, element.as_str(), name.as_str(), value.as_str()))
}
