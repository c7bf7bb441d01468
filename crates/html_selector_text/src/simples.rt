//! What a compound selector begins with, as far as there are no selectors in it (Selectors Level 4, sections 5 to 14).
ghost use Rattle.std.specs.Prelude.{◌≡◌, ◌++◌, ℕ, IfOk, IfErr, OnOk, IsTrue};
ghost use Rattle.std.specs.Str.{bytes_eq};
ghost use Rattle.std.specs.Option.{option_copied};
ghost use Rattle.markup.specs.Plain.{is_plain};
ghost use Rattle.markup.specs.declared.fault.ParseFault.TheVariants.{Memory};
ghost use Rattle.html_selector_text.specs.Simples as defined;
ghost use Rattle.html_selector_text.specs.Reading.{ident_of};
ghost use Rattle.html_selector_text.specs.Results.{Gives};

use crate::fault::{SelectorError, SyntaxFault};
use crate::nth::nth;
use crate::reading::{closes, ident, is_delim, past, past_close, past_spaces, place, wrong};
use crate::scanning::is_word;
use crate::tokens::{Token, TokenKind};
use markup::{KnownNamespace, ParseFault, Text};
use selectors::{AttributeTest, CaseSensitivity, Name, NamespaceTest, Nth, Operator, Simple};
use std::alloc::Global;

/// How a list of selectors is read.
#[derive(Clone, Copy)]
pub(crate) enum ListKind {
    /// Each is to be a selector.
    Plain,
    /// Those that are none are left out.
    Forgiving,
    /// Each is to be a relative selector.
    Relative,
}

/// What is asked with selectors.
#[derive(Clone, Copy)]
pub(crate) enum Test {
    Is,
    Not,
    NthOf(Nth),
}

/// A pseudo-class that stands for a selector of other parts.
#[derive(Clone, Copy)]
pub(crate) enum Meaning {
    Link,
    Checked,
    Disabled,
    Enabled,
    Required,
    Optional,
}

/// A pseudo-class with arguments.
#[derive(Clone, Copy)]
pub(crate) enum FunctionName {
    /// `:is()` and `:where()`.
    MatchesAny,
    /// `:not()`.
    MatchesNone,
    Has,
    /// `:nth-child()` and its kin: whether siblings of the same type are counted, and whether from the last one.
    NthClass(bool, bool),
}

/// A part of a compound selector behind its type.
#[derive(Drop)]
pub(crate) enum Part {
    /// None stands here.
    Nothing,
    One(Simple),
    Two(Simple, Simple),
    /// A pseudo-class whose selectors are read next.
    List(Test, ListKind),
    Stands(Meaning),
}

fn name_of(alloc: Global, name: &Name) -> Result<Name, ParseFault>
    ensures ok { IfOk result (λ made. made ≡ name.now) }
    ensures fault { IfErr result (λ fault. fault ≡ Memory) }
{
    Name::new(alloc, name.written().copy(alloc)?)
}

fn is_same(name: &Name, word: &str) -> bool
    requires { IsTrue (is_plain word.now) }
    ensures { result ≡ bytes_eq name.now word.now }
{
    name.written().is(word)
}

// NAMESPACES

fn known_prefix(name: &Name) -> Option<KnownNamespace>
    ensures { result ≡ defined.known_prefix name.now }
{
    if is_same(name, "html") {
        Some(KnownNamespace::Html)
    } else if is_same(name, "svg") {
        Some(KnownNamespace::Svg)
    } else if is_same(name, "math") || is_same(name, "mathml") {
        Some(KnownNamespace::MathMl)
    } else if is_same(name, "xlink") {
        Some(KnownNamespace::XLink)
    } else if is_same(name, "xml") {
        Some(KnownNamespace::Xml)
    } else if is_same(name, "xmlns") {
        Some(KnownNamespace::Xmlns)
    } else {
        None
    }
}

// Whether a bar stands here that begins no operator.
fn at_bar(tokens: &[Token]) -> bool
    ensures { result ≡ defined.at_bar tokens.now }
{
    is_delim(tokens, '|') && !is_delim(past(tokens, 1), '=')
}

// The namespace of a name, if one is given, and what follows.
#[tactic(auto, unfolding(crate::specs::Simples::prefix))]
fn prefix(tokens: &[Token]) -> Result<(Option<NamespaceTest>, &[Token]), SelectorError>
    ensures { Gives (λ x. (x.0, x.1.now)) result (defined.prefix tokens.now) }
{
    if at_bar(tokens) {
        return Ok((
            Some(NamespaceTest::Only(KnownNamespace::NoNamespace)),
            past(tokens, 1),
        ));
    }
    if is_delim(tokens, '*') && at_bar(past(tokens, 1)) {
        return Ok((Some(NamespaceTest::Any), past(tokens, 2)));
    }
    let Some(name) = ident(tokens) else {
        return Ok((None, tokens));
    };
    if !at_bar(past(tokens, 1)) {
        return Ok((None, tokens));
    }
    match known_prefix(name) {
        Some(known) => Ok((Some(NamespaceTest::Only(known)), past(tokens, 2))),
        None => Err(wrong(SyntaxFault::UnknownPrefix, tokens)),
    }
}

// TYPE SELECTORS

fn push_namespace(
    namespace: Option<NamespaceTest>,
    simples: &mut Vec<Simple>,
) -> Result<(), SelectorError>
    ensures { Gives (λ _. simples.new.items) result (Ok (simples.old.items ++ defined.namespace_simples namespace)) }
{
    if let Some(NamespaceTest::Only(known)) = namespace {
        simples.push(Simple::Namespace(known))?;
    }
    Ok(())
}

// The simple selectors of a type selector or of `*`, if one stands first, and what follows.
#[tactic(auto, unfolding(crate::specs::Simples::type_selector))]
pub(crate) fn type_selector(
    alloc: Global,
    tokens: &[Token],
) -> Result<(Vec<Simple>, &[Token]), SelectorError>
    ensures { Gives (λ x. (x.0.items, x.1.now)) result (defined.type_selector tokens.now) }
{
    let (namespace, rest) = prefix(tokens)?;
    let mut simples = Vec::new(alloc);
    if is_delim(rest, '*') {
        push_namespace(namespace, &mut simples)?;
        return Ok((simples, past(rest, 1)));
    }
    match ident(rest) {
        Some(name) => {
            push_namespace(namespace, &mut simples)?;
            simples.push(Simple::Type(name_of(alloc, name)?))?;
            Ok((simples, past(rest, 1)))
        }
        None => match namespace {
            Some(_) => Err(wrong(SyntaxFault::NoName, rest)),
            None => Ok((simples, rest)),
        },
    }
}

// ATTRIBUTE SELECTORS

fn operator_sign(tokens: &[Token]) -> Option<Operator>
    ensures { result ≡ defined.operator_sign tokens.now }
{
    if is_delim(tokens, '~') {
        Some(Operator::Word)
    } else if is_delim(tokens, '|') {
        Some(Operator::Hyphen)
    } else if is_delim(tokens, '^') {
        Some(Operator::Prefix)
    } else if is_delim(tokens, '$') {
        Some(Operator::Suffix)
    } else if is_delim(tokens, '*') {
        Some(Operator::Substring)
    } else {
        None
    }
}

// An operator, and what follows it.
#[tactic(auto, unfolding(crate::specs::Simples::operator_of))]
fn operator(tokens: &[Token]) -> Result<(Operator, &[Token]), SelectorError>
    ensures { Gives (λ x. (x.0, x.1.now)) result (defined.operator_of tokens.now) }
{
    if is_delim(tokens, '=') {
        return Ok((Operator::Equal, past(tokens, 1)));
    }
    let Some(operator) = operator_sign(tokens) else {
        return Err(wrong(SyntaxFault::NoOperator, tokens));
    };
    if is_delim(past(tokens, 1), '=') {
        Ok((operator, past(tokens, 2)))
    } else {
        Err(wrong(SyntaxFault::NoOperator, tokens))
    }
}

// The name of an attribute, and what follows it.
fn attribute_name(alloc: Global, tokens: &[Token]) -> Result<(Name, &[Token]), SelectorError>
    ensures { Gives (λ x. (x.0, x.1.now)) result (defined.named (ident_of tokens.now) tokens.now) }
{
    match ident(tokens) {
        Some(name) => Ok((name_of(alloc, name)?, past(tokens, 1))),
        None => Err(wrong(SyntaxFault::NoName, tokens)),
    }
}

fn value_kind(kind: &TokenKind) -> Option<&Text>
    ensures { option_copied result ≡ defined.value_kind kind.now }
{
    match kind {
        TokenKind::Ident(name) => Some(name.written()),
        TokenKind::Str(text) => Some(text),
        _ => None,
    }
}

fn value_of(tokens: &[Token]) -> Option<&Text>
    ensures { option_copied result ≡ defined.value_of tokens.now }
{
    match tokens.split_first() {
        Some((token, _)) => value_kind(&token.kind),
        None => None,
    }
}

// A wanted value, and what follows it.
fn value(alloc: Global, tokens: &[Token]) -> Result<(Text, &[Token]), SelectorError>
    ensures { Gives (λ x. (x.0, x.1.now)) result (defined.valued (defined.value_of tokens.now) tokens.now) }
{
    match value_of(tokens) {
        Some(text) => Ok((text.copy(alloc)?, past(tokens, 1))),
        None => Err(wrong(SyntaxFault::NoValue, tokens)),
    }
}

// `i` or `s` behind a value, and what follows.
fn case_of(tokens: &[Token]) -> Result<(CaseSensitivity, &[Token]), SelectorError>
    ensures { Gives (λ x. (x.0, x.1.now)) result (defined.case_named (ident_of tokens.now) tokens.now) }
{
    let Some(name) = ident(tokens) else {
        return Ok((CaseSensitivity::AsHtml, tokens));
    };
    if is_word(name, "i") {
        Ok((CaseSensitivity::Insensitive, past(tokens, 1)))
    } else if is_word(name, "s") {
        Ok((CaseSensitivity::Sensitive, past(tokens, 1)))
    } else {
        Err(wrong(SyntaxFault::NoBracket, tokens))
    }
}

fn namespace_or_none(namespace: Option<NamespaceTest>) -> NamespaceTest
    ensures { result ≡ defined.namespace_or_none namespace }
{
    match namespace {
        Some(namespace) => namespace,
        None => NamespaceTest::Only(KnownNamespace::NoNamespace),
    }
}

// An attribute selector behind the name of its attribute, with an operator, and what follows it.
#[tactic(auto, unfolding(crate::specs::Simples::compared))]
fn compared(
    alloc: Global,
    namespace: NamespaceTest,
    name: Name,
    tokens: &[Token],
) -> Result<(AttributeTest, &[Token]), SelectorError>
    ensures { Gives (λ x. (x.0, x.1.now)) result (defined.compared namespace name tokens.now) }
{
    let (operator, rest) = operator(tokens)?;
    let (value, rest) = value(alloc, past_spaces(rest))?;
    let (case, rest) = case_of(past_spaces(rest))?;
    let rest = past_spaces(rest);
    if !closes(rest, ']') {
        return Err(wrong(SyntaxFault::NoBracket, rest));
    }
    let test = AttributeTest {
        namespace,
        name,
        operator,
        value,
        case,
    };
    Ok((test, past_close(rest)))
}

// An attribute selector behind its first bracket, and what follows its last one.
#[tactic(auto, unfolding(crate::specs::Simples::attribute))]
fn attribute(alloc: Global, tokens: &[Token]) -> Result<(AttributeTest, &[Token]), SelectorError>
    ensures { Gives (λ x. (x.0, x.1.now)) result (defined.attribute tokens.now) }
{
    let (namespace, rest) = prefix(past_spaces(tokens))?;
    let (name, rest) = attribute_name(alloc, rest)?;
    let rest = past_spaces(rest);
    if !closes(rest, ']') {
        return compared(alloc, namespace_or_none(namespace), name, rest);
    }
    let test = AttributeTest {
        namespace: namespace_or_none(namespace),
        name,
        operator: Operator::Present,
        value: Text::empty(alloc),
        case: CaseSensitivity::AsHtml,
    };
    Ok((test, past_close(rest)))
}

// PSEUDO-CLASSES

fn first(from_end: bool) -> Nth
    ensures { result ≡ defined.first from_end }
{
    Nth {
        first: 1,
        step: 0,
        descends: false,
        from_end,
    }
}

fn plain_class(name: &Name) -> Part
    ensures { result ≡ defined.plain_class name.now }
{
    if is_word(name, "root") {
        Part::One(Simple::Root)
    } else if is_word(name, "scope") {
        Part::One(Simple::Scope)
    } else if is_word(name, "empty") {
        Part::One(Simple::Empty)
    } else if is_word(name, "first-child") {
        Part::One(Simple::NthChild(first(false)))
    } else if is_word(name, "last-child") {
        Part::One(Simple::NthChild(first(true)))
    } else if is_word(name, "only-child") {
        Part::Two(
            Simple::NthChild(first(false)),
            Simple::NthChild(first(true)),
        )
    } else if is_word(name, "first-of-type") {
        Part::One(Simple::NthOfType(first(false)))
    } else if is_word(name, "last-of-type") {
        Part::One(Simple::NthOfType(first(true)))
    } else if is_word(name, "only-of-type") {
        Part::Two(
            Simple::NthOfType(first(false)),
            Simple::NthOfType(first(true)),
        )
    } else {
        Part::Nothing
    }
}

fn meaning_of(name: &Name) -> Option<Meaning>
    ensures { result ≡ defined.meaning_of name.now }
{
    if is_word(name, "link") || is_word(name, "any-link") {
        Some(Meaning::Link)
    } else if is_word(name, "checked") {
        Some(Meaning::Checked)
    } else if is_word(name, "disabled") {
        Some(Meaning::Disabled)
    } else if is_word(name, "enabled") {
        Some(Meaning::Enabled)
    } else if is_word(name, "required") {
        Some(Meaning::Required)
    } else if is_word(name, "optional") {
        Some(Meaning::Optional)
    } else {
        None
    }
}

// Whether a name is that of a pseudo-element which may be written with one colon.
fn unknown<'a>(name: &Name, tokens: &'a [Token]) -> Result<(Part, &'a [Token]), SelectorError>
    ensures { Gives (λ x. (x.0, x.1.now)) result (defined.unknown name.now tokens.now) }
{
    if is_word(name, "before")
        || is_word(name, "after")
        || is_word(name, "first-line")
        || is_word(name, "first-letter")
    {
        Err(wrong(SyntaxFault::PseudoElement, tokens))
    } else {
        Err(wrong(SyntaxFault::UnknownPseudoClass, tokens))
    }
}

// A pseudo-class without arguments, and what follows it.
#[tactic(auto, unfolding(crate::specs::Simples::class_named))]
fn class_named<'a>(name: &Name, tokens: &'a [Token]) -> Result<(Part, &'a [Token]), SelectorError>
    ensures { Gives (λ x. (x.0, x.1.now)) result (defined.class_named name.now tokens.now) }
{
    match plain_class(name) {
        Part::Nothing => match meaning_of(name) {
            Some(meaning) => Ok((Part::Stands(meaning), past(tokens, 1))),
            None => unknown(name, tokens),
        },
        part => Ok((part, past(tokens, 1))),
    }
}

/// Whether `of` is the first of these tokens, in any case.
pub(crate) fn is_of(tokens: &[Token]) -> bool
    ensures { result ≡ defined.is_of (ident_of tokens.now) }
{
    match ident(tokens) {
        Some(name) => is_word(name, "of"),
        None => false,
    }
}

fn nth_behind(of_type: bool, nth: Nth, tokens: &[Token]) -> Result<(Part, &[Token]), SelectorError>
    ensures { Gives (λ x. (x.0, x.1.now)) result (defined.nth_behind of_type nth tokens.now) }
{
    if closes(tokens, ')') {
        let simple = if of_type {
            Simple::NthOfType(nth)
        } else {
            Simple::NthChild(nth)
        };
        return Ok((Part::One(simple), past_close(tokens)));
    }
    if !of_type && is_of(tokens) {
        return Ok((
            Part::List(Test::NthOf(nth), ListKind::Plain),
            past(tokens, 1),
        ));
    }
    Err(wrong(SyntaxFault::NoParenthesis, tokens))
}

// `:nth-child()` and its kin, and what follows An+B.
#[tactic(auto, unfolding(crate::specs::Simples::nth_class))]
fn nth_class(
    alloc: Global,
    of_type: bool,
    from_end: bool,
    tokens: &[Token],
) -> Result<(Part, &[Token]), SelectorError>
    ensures { Gives (λ x. (x.0, x.1.now)) result (defined.nth_class of_type from_end tokens.now) }
{
    let (nth, rest) = nth(alloc, place(tokens), past_spaces(past(tokens, 1)))?;
    let nth = Nth { from_end, ..nth };
    nth_behind(of_type, nth, past_spaces(rest))
}

/// The pseudo-class with arguments of that name.
pub(crate) fn function_of(name: &Name) -> Option<FunctionName>
    ensures { result ≡ defined.function_of name.now }
{
    if is_word(name, "is") || is_word(name, "where") {
        Some(FunctionName::MatchesAny)
    } else if is_word(name, "not") {
        Some(FunctionName::MatchesNone)
    } else if is_word(name, "has") {
        Some(FunctionName::Has)
    } else if is_word(name, "nth-child") {
        Some(FunctionName::NthClass(false, false))
    } else if is_word(name, "nth-last-child") {
        Some(FunctionName::NthClass(false, true))
    } else if is_word(name, "nth-of-type") {
        Some(FunctionName::NthClass(true, false))
    } else if is_word(name, "nth-last-of-type") {
        Some(FunctionName::NthClass(true, true))
    } else {
        None
    }
}

// A pseudo-class with arguments, and what follows as far as they are no selectors.
#[tactic(auto, unfolding(crate::specs::Simples::function_named))]
fn function_named<'a>(
    alloc: Global,
    in_has: bool,
    name: &Name,
    tokens: &'a [Token],
) -> Result<(Part, &'a [Token]), SelectorError>
    ensures { Gives (λ x. (x.0, x.1.now)) result (defined.function_named in_has name.now tokens.now) }
{
    let Some(function) = function_of(name) else {
        return Err(wrong(SyntaxFault::UnknownPseudoClass, tokens));
    };
    let rest = past(tokens, 1);
    match function {
        FunctionName::MatchesAny => Ok((Part::List(Test::Is, ListKind::Forgiving), rest)),
        FunctionName::MatchesNone => Ok((Part::List(Test::Not, ListKind::Plain), rest)),
        FunctionName::Has => {
            if in_has {
                Err(wrong(SyntaxFault::HasInHas, rest))
            } else {
                Ok((Part::List(Test::Is, ListKind::Relative), rest))
            }
        }
        FunctionName::NthClass(of_type, from_end) => nth_class(alloc, of_type, from_end, tokens),
    }
}

// A pseudo-class behind its colon, and what follows as far as it has no selectors.
#[tactic(auto, unfolding(crate::specs::Simples::pseudo))]
fn pseudo(alloc: Global, in_has: bool, tokens: &[Token]) -> Result<(Part, &[Token]), SelectorError>
    ensures { Gives (λ x. (x.0, x.1.now)) result (defined.pseudo in_has tokens.now) }
{
    let Some((token, _)) = tokens.split_first() else {
        return Err(wrong(SyntaxFault::NoName, tokens));
    };
    match &token.kind {
        TokenKind::Ident(name) => class_named(name, tokens),
        TokenKind::Function(name) => function_named(alloc, in_has, name, tokens),
        _ => {
            if is_delim(tokens, ':') {
                Err(wrong(SyntaxFault::PseudoElement, tokens))
            } else {
                Err(wrong(SyntaxFault::NoName, tokens))
            }
        }
    }
}

// PARTS

fn class_selector(alloc: Global, tokens: &[Token]) -> Result<(Part, &[Token]), SelectorError>
    ensures { Gives (λ x. (x.0, x.1.now)) result (defined.class_selector (ident_of tokens.now) tokens.now) }
{
    match ident(tokens) {
        Some(name) => {
            let class = Simple::Class(name.written().copy(alloc)?);
            Ok((Part::One(class), past(tokens, 1)))
        }
        None => Err(wrong(SyntaxFault::NoName, tokens)),
    }
}

#[tactic(auto, unfolding(crate::specs::Simples::attribute_part))]
fn attribute_part(alloc: Global, tokens: &[Token]) -> Result<(Part, &[Token]), SelectorError>
    ensures { Gives (λ x. (x.0, x.1.now)) result (defined.attribute_part tokens.now) }
{
    let (test, rest) = attribute(alloc, tokens)?;
    Ok((Part::One(Simple::Attribute(test)), rest))
}

fn part_of_sign(
    alloc: Global,
    in_has: bool,
    tokens: &[Token],
) -> Result<(Part, &[Token]), SelectorError>
    ensures { Gives (λ x. (x.0, x.1.now)) result (defined.part_of_sign in_has tokens.now) }
{
    if is_delim(tokens, '.') {
        class_selector(alloc, past(tokens, 1))
    } else if is_delim(tokens, '[') {
        attribute_part(alloc, past(tokens, 1))
    } else if is_delim(tokens, ':') {
        pseudo(alloc, in_has, past(tokens, 1))
    } else {
        Ok((Part::Nothing, tokens))
    }
}

/// A part of a compound selector behind its type, and what follows as far as it has no selectors.
#[tactic(auto, unfolding(crate::specs::Simples::next_part))]
pub(crate) fn next_part(
    alloc: Global,
    in_has: bool,
    tokens: &[Token],
) -> Result<(Part, &[Token]), SelectorError>
    ensures { Gives (λ x. (x.0, x.1.now)) result (defined.next_part in_has tokens.now) }
{
    let Some((token, _)) = tokens.split_first() else {
        return Ok((Part::Nothing, &[]));
    };
    match &token.kind {
        TokenKind::Hash(name, is_id) => {
            if *is_id {
                let id = Simple::Id(name.copy(alloc)?);
                Ok((Part::One(id), past(tokens, 1)))
            } else {
                Ok((Part::Nothing, tokens))
            }
        }
        _ => part_of_sign(alloc, in_has, tokens),
    }
}
