//! What a rule more makes of a policy.
ghost use Rattle.std.specs.Prelude.{◌≡◌};
ghost use Rattle.std.specs.Str.{chars};
ghost use Rattle.html_policy_text.specs.PolicyText.{IsApplied, is_comment, or_memory, with_line};
ghost use Rattle.html_policy_text.specs.Rules.{keyword_of, rules_of, with_rule};

use crate::limits::{add, limit};
use crate::lists;
use html_clean::{IdForm, Policy};
use markup::{ParseFault, Text};
use std::alloc::Global;
use thiserror::Error;

/// The word that a rule begins with.
#[derive(Clone, Copy, Debug, PartialEq, Eq)]
pub(crate) enum Keyword {
    /// `keep`
    Keep,
    /// `drop`
    Drop,
    /// `attribute`
    Attribute,
    /// `beginning`
    Beginning,
    /// `url`
    Url,
    /// `scheme`
    Scheme,
    /// A rule for values.
    Values(LimitKind),
    /// `add`
    Add,
    /// `relative`
    Relative,
    /// `host`
    Host,
}

/// What a rule for values says of them.
#[derive(Clone, Copy, Debug, PartialEq, Eq)]
pub(crate) enum LimitKind {
    /// `words`
    Words,
    /// `one-of`
    OneOf,
    /// `schemes-for`
    Schemes,
    /// `number`
    Number,
    /// `prefix`, `prefix-words` or `prefix-link`
    Prefix(IdForm),
    /// `proxy`
    Proxy,
    /// `base`
    Base,
}

/// Why a line is refused.
#[derive(Clone, Copy, Debug, PartialEq, Eq, Error)]
pub enum Problem {
    /// No rule begins with its first word.
    #[error("no rule begins with this word")]
    UnknownRule,
    /// Its rule takes fewer words, or more.
    #[error("the rule takes fewer words, or more")]
    WrongWords,
    /// A word is not a number in digits.
    #[error("a word is not a number in digits")]
    WrongNumber,
}

/// Why a rule isn't taken.
#[derive(Clone, Copy, Debug, PartialEq, Eq, Error)]
pub enum RuleFault {
    /// Out of memory.
    #[error("out of memory")]
    Memory,
    /// The rule is refused.
    #[error("{0}")]
    Problem(Problem),
}

/// The same answer, as that of a rule.
pub(crate) fn or_memory<T>(answer: Result<T, ParseFault>) -> Result<T, RuleFault>
    ensures { result ≡ or_memory answer }
{
    match answer {
        Ok(made) => Ok(made),
        Err(_) => Err(RuleFault::Memory),
    }
}

/// The rule that a word begins.
fn keyword_of(word: &Text) -> Option<Keyword>
    ensures { result ≡ keyword_of word.now }
{
    if word.is("keep") {
        Some(Keyword::Keep)
    } else if word.is("drop") {
        Some(Keyword::Drop)
    } else if word.is("attribute") {
        Some(Keyword::Attribute)
    } else if word.is("beginning") {
        Some(Keyword::Beginning)
    } else if word.is("url") {
        Some(Keyword::Url)
    } else if word.is("scheme") {
        Some(Keyword::Scheme)
    } else if word.is("words") {
        Some(Keyword::Values(LimitKind::Words))
    } else if word.is("one-of") {
        Some(Keyword::Values(LimitKind::OneOf))
    } else if word.is("schemes-for") {
        Some(Keyword::Values(LimitKind::Schemes))
    } else if word.is("number") {
        Some(Keyword::Values(LimitKind::Number))
    } else if word.is("prefix") {
        Some(Keyword::Values(LimitKind::Prefix(IdForm::Name)))
    } else if word.is("prefix-words") {
        Some(Keyword::Values(LimitKind::Prefix(IdForm::Names)))
    } else if word.is("prefix-link") {
        Some(Keyword::Values(LimitKind::Prefix(IdForm::Link)))
    } else if word.is("proxy") {
        Some(Keyword::Values(LimitKind::Proxy))
    } else if word.is("base") {
        Some(Keyword::Values(LimitKind::Base))
    } else if word.is("add") {
        Some(Keyword::Add)
    } else if word.is("relative") {
        Some(Keyword::Relative)
    } else if word.is("host") {
        Some(Keyword::Host)
    } else {
        None
    }
}

/// Takes a rule, by the words after its first.
fn apply_rule(
    alloc: Global,
    policy: &mut Policy,
    keyword: Option<Keyword>,
    words: &[Text],
) -> Result<(), RuleFault>
    ensures { IsApplied result (rules_of policy.new) (with_rule keyword (rules_of policy.old) words.now) }
{
    match keyword {
        None => Err(RuleFault::Problem(Problem::UnknownRule)),
        Some(Keyword::Keep) => lists::keep(alloc, policy, words),
        Some(Keyword::Drop) => lists::drop_names(alloc, policy, words),
        Some(Keyword::Attribute) => lists::keep_attributes(alloc, policy, words),
        Some(Keyword::Beginning) => lists::keep_beginnings(alloc, policy, words),
        Some(Keyword::Url) => lists::name_urls(alloc, policy, words),
        Some(Keyword::Scheme) => lists::allow_schemes(alloc, policy, words),
        Some(Keyword::Values(kind)) => limit(alloc, policy, kind, words),
        Some(Keyword::Add) => add(alloc, policy, words),
        Some(Keyword::Relative) => lists::allow_relative(policy, words),
        Some(Keyword::Host) => lists::allow_hosts(policy, words),
    }
}

/// Whether a word begins a comment.
fn is_comment(word: &str) -> bool
    ensures { result ≡ is_comment (chars word.now) }
{
    match word.chars().next() {
        Some(c) => c == '#',
        None => false,
    }
}

/// Takes a line, as words.
pub(crate) fn apply_line(
    alloc: Global,
    policy: &mut Policy,
    words: &[Text],
) -> Result<(), RuleFault>
    ensures { IsApplied result (rules_of policy.new) (with_line (rules_of policy.old) words.now) }
{
    let Some((first, rest)) = words.split_first() else {
        return Ok(());
    };
    if is_comment(first.as_str()) {
        return Ok(());
    }
    apply_rule(alloc, policy, keyword_of(first), rest)
}
