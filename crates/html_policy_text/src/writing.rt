//! A policy as text.
ghost use Rattle.std.specs.Prelude.{◌≡◌, ◌++◌, ◌∷◌, [], List, ℕ, IfErr, IfOk, Ok, OnOk, codes, map};
ghost use Rattle.std.specs.Fmt.{decimal};
ghost use Rattle.std.specs.Str.{chars};
ghost use Rattle.html_clean.specs.Ready.{addition_parts, rule_names};
ghost use Rattle.markup.specs.declared.fault.ParseFault.TheVariants.{Memory};
ghost use Rattle.html_policy_text.specs.PolicyText.{policy_rules};
ghost use Rattle.html_clean.specs.Limits.{limit_of, limit_parts};
ghost use Rattle.html_clean.specs.Limits.Limit.{Prefixed};
ghost use Rattle.html_policy_text.specs.Rules.{rules_of};
ghost use Rattle.html_policy_text.specs.Written.{IsUnwritten, addition_text, flag_text, is_writable, limit_keyword, limit_text};
ghost use Rattle.html_policy_text.specs.Written.{limit_words};
ghost use Rattle.html_policy_text.specs.Written.{line_of, list_text, marked, policy_text, rule_text, spaced, target_word, texts_of};

use crate::writable::is_writable;
use html_clean::{Addition, Allowed, IdForm, Policy, Rule, ValueRule, words_of};
use markup::{LocalName, ParseFault, Text};
use std::alloc::Global;
use thiserror::Error;

/// Why a policy is not written as text.
#[derive(Clone, Copy, Debug, PartialEq, Eq, Error)]
pub enum WriteFault {
    /// Out of memory.
    #[error("out of memory")]
    Memory,
    /// A name or a value of the policy can't stand in a line: it is empty, has white space, or would be read as something else.
    #[error("a name or a value can't be written")]
    Unwritable,
}

/// Writes a space, and a word.
pub(crate) fn push_spaced(text: &mut Text, word: &str) -> Result<(), ParseFault>
    ensures ok { OnOk result (text.new ≡ text.old ++ 32 ∷ chars word.now) }
    ensures fault { IfErr result (λ fault. fault ≡ Memory) }
{
    text.push(' ')?;
    text.push_str(word)
}

/// Writes a space before each of some words.
fn push_words(text: &mut Text, words: &[Text]) -> Result<(), ParseFault>
    ensures ok { OnOk result (text.new ≡ text.old ++ spaced words.now) }
    ensures fault { IfErr result (λ fault. fault ≡ Memory) }
{
    for word in words {
        push_spaced(text, word.as_str())?;
    }
    Ok(())
}

/// Writes a space before each of some names.
fn push_names(text: &mut Text, names: &[LocalName]) -> Result<(), ParseFault>
    ensures ok { OnOk result (text.new ≡ text.old ++ spaced names.now) }
    ensures fault { IfErr result (λ fault. fault ≡ Memory) }
{
    for name in names {
        push_spaced(text, name.as_str())?;
    }
    Ok(())
}

/// Writes a line for a list of words, if there is one.
fn write_words(text: &mut Text, keyword: &str, words: &[Text]) -> Result<(), ParseFault>
    ensures ok { OnOk result (text.new ≡ text.old ++ list_text (chars keyword.now) words.now) }
    ensures fault { IfErr result (λ fault. fault ≡ Memory) }
{
    if words.is_empty() {
        return Ok(());
    }
    text.push_str(keyword)?;
    push_words(text, words)?;
    text.push('\n')
}

/// Writes a line for a list of names, if there is one.
fn write_names(text: &mut Text, keyword: &str, names: &[LocalName]) -> Result<(), ParseFault>
    ensures ok { OnOk result (text.new ≡ text.old ++ list_text (chars keyword.now) names.now) }
    ensures fault { IfErr result (λ fault. fault ≡ Memory) }
{
    if names.is_empty() {
        return Ok(());
    }
    text.push_str(keyword)?;
    push_names(text, names)?;
    text.push('\n')
}

/// Writes a line of one word for what is so.
fn write_flag(text: &mut Text, keyword: &str, flag: bool) -> Result<(), ParseFault>
    ensures ok { OnOk result (text.new ≡ text.old ++ flag_text (chars keyword.now) flag) }
    ensures fault { IfErr result (λ fault. fault ≡ Memory) }
{
    if !flag {
        return Ok(());
    }
    text.push_str(keyword)?;
    text.push('\n')
}

/// Writes the line of an element that is kept.
fn write_rule(text: &mut Text, rule: &Rule) -> Result<(), ParseFault>
    ensures ok { OnOk result (text.new ≡ text.old ++ rule_text (rule_names rule.now)) }
    ensures fault { IfErr result (λ fault. fault ≡ Memory) }
{
    text.push_str("keep")?;
    push_spaced(text, rule.element.as_str())?;
    push_names(text, &rule.attributes)?;
    text.push('\n')
}

/// Writes the lines of all elements that are kept.
fn write_rules(text: &mut Text, rules: &[Rule]) -> Result<(), ParseFault>
    ensures ok { OnOk result (text.new ≡ text.old ++ texts_of rule_text (map rule_names rules.now)) }
    ensures fault { IfErr result (λ fault. fault ≡ Memory) }
{
    for rule in rules {
        write_rule(text, rule)?;
    }
    Ok(())
}

/// The word of an element, or of all.
fn target_word(target: &Option<LocalName>) -> &str
    ensures { chars result.now ≡ target_word target.now }
{
    match target {
        Some(name) => name.as_str(),
        None => "*",
    }
}

/// The first word of a rule for names with a prefix.
fn prefix_keyword(form: IdForm) -> &'static str
    ensures { (prefix : List ℕ) → chars result.now ≡ limit_keyword (Prefixed form prefix) }
{
    match form {
        IdForm::Name => "prefix",
        IdForm::Names => "prefix-words",
        IdForm::Link => "prefix-link",
    }
}

/// The first word of a rule for values.
fn limit_keyword(allowed: &Allowed) -> &'static str
    ensures { chars result.now ≡ limit_keyword (limit_of allowed.now) }
{
    match allowed {
        Allowed::OneOf(_) => "one-of",
        Allowed::Words { .. } => "words",
        Allowed::Number { .. } => "number",
        Allowed::Schemes(_) => "schemes-for",
        Allowed::Prefixed { form, .. } => prefix_keyword(*form),
        Allowed::Proxied { .. } => "proxy",
        Allowed::Absolute { .. } => "base",
    }
}

/// Writes a space and the sign of beginnings before each of some.
fn push_beginnings(text: &mut Text, beginnings: &[Text]) -> Result<(), ParseFault>
    ensures ok { OnOk result (text.new ≡ text.old ++ spaced (map marked beginnings.now)) }
    ensures fault { IfErr result (λ fault. fault ≡ Memory) }
{
    for beginning in beginnings {
        text.push(' ')?;
        text.push('^')?;
        text.push_str(beginning.as_str())?;
    }
    Ok(())
}

/// Writes words and beginnings of words, each after a space.
fn push_parts(text: &mut Text, words: &[Text], beginnings: &[Text]) -> Result<(), ParseFault>
    ensures ok { OnOk result (text.new ≡ text.old ++ spaced (words.now ++ map marked beginnings.now)) }
    ensures fault { IfErr result (λ fault. fault ≡ Memory) }
{
    push_words(text, words)?;
    push_beginnings(text, beginnings)
}

/// Writes a number in digits, after a space.
fn push_number(alloc: Global, text: &mut Text, n: u32) -> Result<(), ParseFault>
    ensures ok { OnOk result (text.new ≡ text.old ++ 32 ∷ decimal n) }
    ensures fault { IfErr result (λ fault. fault ≡ Memory) }
{
    let digits = n.to_string(alloc)?;
    push_spaced(text, digits.as_str())
}

/// Writes two numbers, each after a space.
fn push_numbers(alloc: Global, text: &mut Text, least: u32, most: u32) -> Result<(), ParseFault>
    ensures ok { OnOk result (text.new ≡ text.old ++ spaced (decimal least ∷ decimal most ∷ [])) }
    ensures fault { IfErr result (λ fault. fault ≡ Memory) }
{
    push_number(alloc, text, least)?;
    push_number(alloc, text, most)
}

/// Writes one word, after a space.
fn push_one(text: &mut Text, word: &Text) -> Result<(), ParseFault>
    ensures ok { OnOk result (text.new ≡ text.old ++ spaced (word.now ∷ [])) }
    ensures fault { IfErr result (λ fault. fault ≡ Memory) }
{
    push_spaced(text, word.as_str())
}

/// Writes what a value may be, each word after a space.
fn push_allowed(alloc: Global, text: &mut Text, allowed: &Allowed) -> Result<(), ParseFault>
    ensures ok { OnOk result (text.new ≡ text.old ++ spaced (limit_words (limit_of allowed.now))) }
    ensures fault { IfErr result (λ fault. fault ≡ Memory) }
{
    match allowed {
        Allowed::OneOf(texts) => push_words(text, texts),
        Allowed::Words { words, beginnings } => push_parts(text, words, beginnings),
        Allowed::Number { least, most } => push_numbers(alloc, text, *least, *most),
        Allowed::Schemes(schemes) => push_words(text, schemes),
        Allowed::Prefixed { prefix, .. } => push_one(text, prefix),
        Allowed::Proxied { prefix } => push_one(text, prefix),
        Allowed::Absolute { base } => push_one(text, base),
    }
}

/// Writes the line of a rule for values.
fn write_limit(alloc: Global, text: &mut Text, rule: &ValueRule) -> Result<(), ParseFault>
    ensures ok { OnOk result (text.new ≡ text.old ++ limit_text (limit_parts rule.now)) }
    ensures fault { IfErr result (λ fault. fault ≡ Memory) }
{
    text.push_str(limit_keyword(&rule.allowed))?;
    push_spaced(text, target_word(&rule.element))?;
    push_spaced(text, rule.attribute.as_str())?;
    push_allowed(alloc, text, &rule.allowed)?;
    text.push('\n')
}

/// Writes the lines of all rules for values.
fn write_limits(alloc: Global, text: &mut Text, rules: &[ValueRule]) -> Result<(), ParseFault>
    ensures ok { OnOk result (text.new ≡ text.old ++ texts_of limit_text (map limit_parts rules.now)) }
    ensures fault { IfErr result (λ fault. fault ≡ Memory) }
{
    for rule in rules {
        write_limit(alloc, text, rule)?;
    }
    Ok(())
}

/// Writes the line of an attribute that is added, with the words of its value.
fn write_addition(text: &mut Text, addition: &Addition, words: &[Text]) -> Result<(), ParseFault>
    ensures ok { OnOk result (text.new ≡ text.old
        ++ line_of (codes "add") (addition.now.element ∷ (addition.now.name ∷ words.now))) }
    ensures fault { IfErr result (λ fault. fault ≡ Memory) }
{
    text.push_str("add")?;
    push_spaced(text, addition.element.as_str())?;
    push_spaced(text, addition.name.as_str())?;
    push_words(text, words)?;
    text.push('\n')
}

/// Writes the lines of all attributes that are added.
fn write_additions(alloc: Global, text: &mut Text, added: &[Addition]) -> Result<(), ParseFault>
    ensures ok { OnOk result (text.new ≡ text.old ++ texts_of addition_text (map addition_parts added.now)) }
    ensures fault { IfErr result (λ fault. fault ≡ Memory) }
{
    for addition in added {
        let words = words_of(alloc, addition.value.as_str())?;
        write_addition(text, addition, words.as_slice())?;
    }
    Ok(())
}

/// Writes the lines of a policy.
fn write_lines(alloc: Global, policy: &Policy) -> Result<Text, ParseFault>
    ensures ok { IfOk result (λ text. text ≡ policy_text (rules_of policy.now)) }
    ensures fault { IfErr result (λ fault. fault ≡ Memory) }
{
    let mut text = Text::empty(alloc);
    write_rules(&mut text, &policy.kept)?;
    write_names(&mut text, "drop", &policy.dropped)?;
    write_names(&mut text, "attribute", &policy.everywhere)?;
    write_words(&mut text, "beginning", &policy.beginnings)?;
    write_limits(alloc, &mut text, &policy.values)?;
    write_additions(alloc, &mut text, &policy.added)?;
    write_names(&mut text, "url", &policy.urls)?;
    write_words(&mut text, "scheme", &policy.schemes)?;
    write_flag(&mut text, "relative", policy.allows_relative)?;
    write_flag(&mut text, "host", policy.allows_hosts)?;
    Ok(text)
}

/// Writes a policy as text, one rule a line, from which [`read_policy`](crate::read_policy) reads the same rules.
///
/// Errors: [`WriteFault::Unwritable`] where a name is empty or has white space, an element that a rule for values is for is called `*`,
/// a word of such a rule begins with `^`, or the value of an attribute that is added is not of words with a space between each two; out
/// of memory.
pub fn write_policy(alloc: Global, policy: &Policy) -> Result<Text, WriteFault>
    ensures ok { IfOk result (λ text. text ≡ policy_text (rules_of policy.now)) }
    ensures read { IfOk result (λ text. policy_rules text ≡ Ok (rules_of policy.now)) }
    ensures err { IfErr result (IsUnwritten (is_writable (rules_of policy.now))) }
{
    let Ok(writable) = is_writable(alloc, policy) else {
        return Err(WriteFault::Memory);
    };
    if !writable {
        return Err(WriteFault::Unwritable);
    }
    match write_lines(alloc, policy) {
        Ok(text) => Ok(text),
        Err(_) => Err(WriteFault::Memory),
    }
}
