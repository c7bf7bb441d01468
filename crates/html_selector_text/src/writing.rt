//! Selectors as text (CSSOM, "Serializing selectors").
ghost use Rattle.std.specs.Prelude.{◌≡◌, ◌++◌, ◌+◌, ◌<◌, ◌∷◌, [], IfErr, IfOk, OnOk, IsTrue, codes, cond, flat_map};
ghost use Rattle.std.specs.Str.{chars};
ghost use Rattle.std.specs.String.{string_bytes};
ghost use Rattle.markup.specs.Plain.{is_plain};
ghost use Rattle.markup.specs.declared.fault.ParseFault.TheVariants.{Memory};
ghost use Rattle.html_selector_text.specs.Written as defined;
ghost use Rattle.html_selector_text.specs.Trees.{list_tree, complex_tree, relative_tree, tests_tree};

use crate::characters::characters;
use markup::{KnownNamespace, ParseFault, Text};
use selectors::{
    AttributeTest, CaseSensitivity, Combinator, Complex, Compound, NamespaceTest, Nth, Operator,
    Relative, Selectors, Simple, Tests,
};
use std::alloc::Global;

// Adds a text that is of ASCII alone.
#[tactic(auto, using(crate::proofs::Texts::plain_chars))]
fn push_plain(text: &mut Text, more: &str) -> Result<(), ParseFault>
    requires { IsTrue (is_plain more.now) }
    ensures ok { OnOk result (text.new ≡ text.old ++ more.now) }
    ensures fault { IfErr result (λ fault. fault ≡ Memory) }
{
    text.push_str(more)
}

// IDENTIFIERS, STRINGS AND NUMBERS

fn hex_digit(n: u32) -> char
    requires { n < 16 }
    ensures { result ≡ defined.hex_digit n }
{
    char::from_digit(n, 16).unwrap_or('0')
}

fn push_code_point(text: &mut Text, c: char) -> Result<(), ParseFault>
    requires { c < 128 }
    ensures ok { OnOk result (text.new ≡ text.old ++ defined.as_code_point c) }
    ensures fault { IfErr result (λ fault. fault ≡ Memory) }
{
    let code = c as u32;
    text.push('\\')?;
    if code >= 16 {
        text.push(hex_digit(code / 16))?;
        text.push(hex_digit(code % 16))?;
    } else {
        text.push(hex_digit(code))?;
    }
    text.push(' ')
}

fn is_control(c: char) -> bool
    ensures { result ≡ defined.is_control c }
{
    c < ' ' || c == '\u{7F}'
}

fn push_later(text: &mut Text, c: char) -> Result<(), ParseFault>
    ensures ok { OnOk result (text.new ≡ text.old ++ defined.later_character c) }
    ensures fault { IfErr result (λ fault. fault ≡ Memory) }
{
    if c == '\0' {
        return text.push('\u{FFFD}');
    }
    if is_control(c) {
        return push_code_point(text, c);
    }
    if c >= '\u{80}' || c.is_ascii_alphanumeric() || c == '-' || c == '_' {
        return text.push(c);
    }
    text.push('\\')?;
    text.push(c)
}

fn push_digit_or_later(text: &mut Text, c: char) -> Result<(), ParseFault>
    ensures ok { OnOk result (text.new ≡ text.old ++ defined.digit_or_later c) }
    ensures fault { IfErr result (λ fault. fault ≡ Memory) }
{
    if c.is_ascii_digit() {
        push_code_point(text, c)
    } else {
        push_later(text, c)
    }
}

fn push_string_character(text: &mut Text, c: char) -> Result<(), ParseFault>
    ensures ok { OnOk result (text.new ≡ text.old ++ defined.string_character c) }
    ensures fault { IfErr result (λ fault. fault ≡ Memory) }
{
    if c == '\0' {
        return text.push('\u{FFFD}');
    }
    if is_control(c) {
        return push_code_point(text, c);
    }
    if c == '"' || c == '\\' {
        text.push('\\')?;
    }
    text.push(c)
}

// A character of a string in quotes, or of an identifier behind its beginning.
fn push_character(text: &mut Text, quoted: bool, c: char) -> Result<(), ParseFault>
    ensures ok { OnOk result (text.new ≡ text.old ++ cond quoted defined.string_character defined.later_character c) }
    ensures fault { IfErr result (λ fault. fault ≡ Memory) }
{
    if quoted {
        push_string_character(text, c)
    } else {
        push_later(text, c)
    }
}

fn push_characters(text: &mut Text, quoted: bool, rest: &[char]) -> Result<(), ParseFault>
    ensures ok { OnOk result (text.new
        ≡ text.old ++ flat_map (cond quoted defined.string_character defined.later_character) rest.now) }
    ensures fault { IfErr result (λ fault. fault ≡ Memory) }
{
    let mut left = rest;
    while let [c, others @ ..] = left {
        push_character(text, quoted, *c)?;
        left = others;
    }
    Ok(())
}

fn push_behind_hyphen(text: &mut Text, rest: &[char]) -> Result<(), ParseFault>
    ensures ok { OnOk result (text.new ≡ text.old ++ defined.behind_hyphen rest.now) }
    ensures fault { IfErr result (λ fault. fault ≡ Memory) }
{
    let Some((c, others)) = rest.split_first() else {
        return Ok(());
    };
    push_digit_or_later(text, *c)?;
    push_characters(text, false, others)
}

#[tactic(auto, unfolding(crate::specs::Written::identifier))]
fn push_identifier(alloc: Global, text: &mut Text, name: &Text) -> Result<(), ParseFault>
    ensures ok { OnOk result (text.new ≡ text.old ++ defined.identifier name.now) }
    ensures fault { IfErr result (λ fault. fault ≡ Memory) }
{
    let chars = characters(alloc, name.as_str())?;
    let Some((c, others)) = chars.as_slice().split_first() else {
        return Ok(());
    };
    if *c != '-' {
        push_digit_or_later(text, *c)?;
        return push_characters(text, false, others);
    }
    if others.is_empty() {
        text.push('\\')?;
        return text.push('-');
    }
    text.push('-')?;
    push_behind_hyphen(text, others)
}

#[tactic(auto, unfolding(crate::specs::Written::quoted))]
fn push_quoted(alloc: Global, text: &mut Text, value: &Text) -> Result<(), ParseFault>
    ensures ok { OnOk result (text.new ≡ text.old ++ defined.quoted value.now) }
    ensures fault { IfErr result (λ fault. fault ≡ Memory) }
{
    let chars = characters(alloc, value.as_str())?;
    text.push('"')?;
    push_characters(text, true, chars.as_slice())?;
    text.push('"')
}

fn decimal_digit(n: u32) -> char
    requires { n < 10 }
    ensures { result ≡ 48 + n }
{
    char::from_digit(n, 10).unwrap_or('0')
}

fn push_decimal_in(text: &mut Text, count: u8, n: u32) -> Result<(), ParseFault>
    ensures ok { OnOk result (text.new ≡ text.old ++ defined.decimal_in count n) }
    ensures fault { IfErr result (λ fault. fault ≡ Memory) }
{
    if count == 0 {
        return Ok(());
    }
    if n < 10 {
        return text.push(decimal_digit(n));
    }
    push_decimal_in(text, count - 1, n / 10)?;
    text.push(decimal_digit(n % 10))
}

#[tactic(auto, unfolding(crate::specs::Written::decimal))]
fn push_decimal(text: &mut Text, n: u32) -> Result<(), ParseFault>
    ensures ok { OnOk result (text.new ≡ text.old ++ defined.decimal n) }
    ensures fault { IfErr result (λ fault. fault ≡ Memory) }
{
    push_decimal_in(text, 10, n)
}

// AN+B

fn push_step(text: &mut Text, nth: Nth) -> Result<(), ParseFault>
    ensures ok { OnOk result (text.new ≡ text.old ++ defined.step_text nth) }
    ensures fault { IfErr result (λ fault. fault ≡ Memory) }
{
    if nth.descends {
        text.push('-')?;
    }
    if nth.step != 1 {
        push_decimal(text, nth.step)?;
    }
    text.push('n')
}

#[tactic(auto, unfolding(crate::specs::Written::nth_text))]
fn push_nth(text: &mut Text, nth: Nth) -> Result<(), ParseFault>
    ensures ok { OnOk result (text.new ≡ text.old ++ defined.nth_text nth) }
    ensures fault { IfErr result (λ fault. fault ≡ Memory) }
{
    if nth.step == 0 {
        return push_decimal(text, nth.first);
    }
    push_step(text, nth)?;
    if nth.first == 0 {
        return Ok(());
    }
    text.push('+')?;
    push_decimal(text, nth.first)
}

// SIMPLE SELECTORS

fn prefix_text(known: KnownNamespace) -> &'static str
    ensures value { result.now ≡ defined.prefix_text known }
    ensures plain { IsTrue (is_plain result.now) }
{
    match known {
        KnownNamespace::Html => "html|",
        KnownNamespace::MathMl => "math|",
        KnownNamespace::Svg => "svg|",
        KnownNamespace::XLink => "xlink|",
        KnownNamespace::Xml => "xml|",
        KnownNamespace::Xmlns => "xmlns|",
        KnownNamespace::NoNamespace => "|",
    }
}

fn push_attribute_prefix(text: &mut Text, namespace: NamespaceTest) -> Result<(), ParseFault>
    ensures ok { OnOk result (text.new ≡ text.old ++ defined.attribute_prefix namespace) }
    ensures fault { IfErr result (λ fault. fault ≡ Memory) }
{
    match namespace {
        NamespaceTest::Any => push_plain(text, "*|"),
        NamespaceTest::Only(KnownNamespace::NoNamespace) => Ok(()),
        NamespaceTest::Only(known) => push_plain(text, prefix_text(known)),
    }
}

fn operator_text(operator: Operator) -> &'static str
    ensures value { result.now ≡ defined.operator_text operator }
    ensures plain { IsTrue (is_plain result.now) }
{
    match operator {
        Operator::Present => "",
        Operator::Equal => "=",
        Operator::Word => "~=",
        Operator::Hyphen => "|=",
        Operator::Prefix => "^=",
        Operator::Suffix => "$=",
        Operator::Substring => "*=",
    }
}

fn case_text(case: CaseSensitivity) -> &'static str
    ensures value { result.now ≡ defined.case_text case }
    ensures plain { IsTrue (is_plain result.now) }
{
    match case {
        CaseSensitivity::AsHtml => "",
        CaseSensitivity::Insensitive => " i",
        CaseSensitivity::Sensitive => " s",
    }
}

fn is_present(operator: Operator) -> bool
    ensures { result ≡ defined.is_present operator }
{
    match operator {
        Operator::Present => true,
        _ => false,
    }
}

fn push_value(alloc: Global, text: &mut Text, test: &AttributeTest) -> Result<(), ParseFault>
    ensures ok { OnOk result (text.new ≡ text.old ++ defined.value_text test.now) }
    ensures fault { IfErr result (λ fault. fault ≡ Memory) }
{
    if is_present(test.operator) {
        return Ok(());
    }
    push_plain(text, operator_text(test.operator))?;
    push_quoted(alloc, text, &test.value)?;
    push_plain(text, case_text(test.case))
}

#[tactic(auto, unfolding(crate::specs::Written::attribute_text))]
fn push_attribute(alloc: Global, text: &mut Text, test: &AttributeTest) -> Result<(), ParseFault>
    ensures ok { OnOk result (text.new ≡ text.old ++ defined.attribute_text test.now) }
    ensures fault { IfErr result (λ fault. fault ≡ Memory) }
{
    push_plain(text, "[")?;
    push_attribute_prefix(text, test.namespace)?;
    push_identifier(alloc, text, test.name.written())?;
    push_value(alloc, text, test)?;
    push_plain(text, "]")
}

fn nth_name(from_end: bool) -> &'static str
    ensures value { result.now ≡ defined.nth_name from_end }
    ensures plain { IsTrue (is_plain result.now) }
{
    if from_end { ":nth-last-" } else { ":nth-" }
}

fn first_name(from_end: bool) -> &'static str
    ensures value { result.now ≡ defined.first_name from_end }
    ensures plain { IsTrue (is_plain result.now) }
{
    if from_end { ":last-" } else { ":first-" }
}

fn push_nth_class(text: &mut Text, kind: &str, nth: Nth) -> Result<(), ParseFault>
    requires { IsTrue (is_plain kind.now) }
    ensures ok { OnOk result (text.new ≡ text.old ++ defined.nth_class_text kind.now nth) }
    ensures fault { IfErr result (λ fault. fault ≡ Memory) }
{
    if nth.first == 1 && nth.step == 0 {
        push_plain(text, first_name(nth.from_end))?;
        return push_plain(text, kind);
    }
    push_plain(text, nth_name(nth.from_end))?;
    push_plain(text, kind)?;
    push_plain(text, "(")?;
    push_nth(text, nth)?;
    push_plain(text, ")")
}

fn push_simple(alloc: Global, text: &mut Text, simple: &Simple) -> Result<(), ParseFault>
    ensures ok { OnOk result (text.new ≡ text.old ++ defined.simple_text simple.now) }
    ensures fault { IfErr result (λ fault. fault ≡ Memory) }
{
    match simple {
        Simple::Type(name) => push_identifier(alloc, text, name.written()),
        Simple::Namespace(known) => push_plain(text, prefix_text(*known)),
        Simple::Id(name) => {
            push_plain(text, "#")?;
            push_identifier(alloc, text, name)
        }
        Simple::Class(name) => {
            push_plain(text, ".")?;
            push_identifier(alloc, text, name)
        }
        Simple::Attribute(test) => push_attribute(alloc, text, test),
        Simple::Root => push_plain(text, ":root"),
        Simple::Scope => push_plain(text, ":scope"),
        Simple::Empty => push_plain(text, ":empty"),
        Simple::NthChild(nth) => push_nth_class(text, "child", *nth),
        Simple::NthOfType(nth) => push_nth_class(text, "of-type", *nth),
    }
}

fn is_type_kind(simple: &Simple) -> bool
    ensures { result ≡ defined.is_type_kind simple.now }
{
    match simple {
        Simple::Type(_) => true,
        _ => false,
    }
}

fn is_type(simples: &[Simple]) -> bool
    ensures { result ≡ defined.is_type simples.now }
{
    match simples.split_first() {
        Some((simple, _)) => is_type_kind(simple),
        None => false,
    }
}

fn is_prefix(simple: &Simple) -> bool
    ensures { result ≡ defined.is_prefix simple.now }
{
    match simple {
        Simple::Namespace(_) => true,
        _ => false,
    }
}

// A simple selector, with `*` where it is a prefix without a name behind it.
fn push_one(
    alloc: Global,
    text: &mut Text,
    simple: &Simple,
    others: &[Simple],
) -> Result<(), ParseFault>
    ensures ok { OnOk result (text.new ≡ text.old ++ defined.one_text simple.now others.now) }
    ensures fault { IfErr result (λ fault. fault ≡ Memory) }
{
    push_simple(alloc, text, simple)?;
    if is_prefix(simple) && !is_type(others) {
        return push_plain(text, "*");
    }
    Ok(())
}

fn push_simples(alloc: Global, text: &mut Text, simples: &[Simple]) -> Result<(), ParseFault>
    ensures ok { OnOk result (text.new ≡ text.old ++ defined.simples_text simples.now) }
    ensures fault { IfErr result (λ fault. fault ≡ Memory) }
{
    let mut left = simples;
    while let [simple, others @ ..] = left {
        push_one(alloc, text, simple, others)?;
        left = others;
    }
    Ok(())
}

// SELECTORS

fn combinator_text(first: bool, combinator: Combinator) -> &'static str
    ensures value { result.now ≡ defined.combinator_text first combinator }
    ensures plain { IsTrue (is_plain result.now) }
{
    match (first, combinator) {
        (true, Combinator::Descendant) => "",
        (true, Combinator::Child) => "> ",
        (true, Combinator::NextSibling) => "+ ",
        (true, Combinator::SubsequentSibling) => "~ ",
        (false, Combinator::Descendant) => " ",
        (false, Combinator::Child) => " > ",
        (false, Combinator::NextSibling) => " + ",
        (false, Combinator::SubsequentSibling) => " ~ ",
    }
}

fn has_no_tests(tests: &Tests) -> bool
    ensures { result ≡ defined.has_no_tests (tests_tree tests.now) }
{
    match tests {
        Tests::Nothing => true,
        _ => false,
    }
}

fn is_has_alone(tests: &Tests) -> bool
    ensures { result ≡ defined.is_has_alone (tests_tree tests.now) }
{
    match tests {
        Tests::Has(_, others) => has_no_tests(others),
        _ => false,
    }
}

fn asks_has(complex: &Complex) -> bool
    ensures { result ≡ defined.asks_has (complex_tree complex.now) }
{
    match complex {
        Complex::Alone(compound) => compound.simples.is_empty() && is_has_alone(&compound.tests),
        Complex::Beside(_, _, _) => false,
    }
}

fn all_ask_has(selectors: &Selectors) -> bool
    ensures { result ≡ defined.all_ask_has (list_tree selectors.now) }
{
    let mut left = selectors;
    while let Selectors::Or(one, others) = left {
        if !asks_has(one) {
            return false;
        }
        left = others;
    }
    true
}

fn is_none(selectors: &Selectors) -> bool
    ensures { result ≡ defined.is_none (list_tree selectors.now) }
{
    match selectors {
        Selectors::Nothing => true,
        Selectors::Or(_, _) => false,
    }
}

fn is_has(selectors: &Selectors) -> bool
    ensures { result ≡ defined.is_has (list_tree selectors.now) }
{
    !is_none(selectors) && all_ask_has(selectors)
}

// What stands before the selectors of `:nth-child(.. of ..)`.
fn push_nth_opening(text: &mut Text, nth: Nth) -> Result<(), ParseFault>
    ensures ok { OnOk result (text.new ≡ text.old
        ++ (((defined.nth_name nth.from_end ++ codes "child(") ++ defined.nth_text nth) ++ codes " of ")) }
    ensures fault { IfErr result (λ fault. fault ≡ Memory) }
{
    push_plain(text, nth_name(nth.from_end))?;
    push_plain(text, "child(")?;
    push_nth(text, nth)?;
    push_plain(text, " of ")
}

#[cycle(writing)]
fn push_compound(
    alloc: Global,
    text: &mut Text,
    in_has: bool,
    compound: &Compound,
) -> Result<(), ParseFault>
    ensures ok { OnOk result (text.new ≡ text.old ++ defined.compound_text compound.now.simples.items (tests_tree compound.now.tests)
        (defined.tests_text in_has (tests_tree compound.now.tests))) }
    ensures fault { IfErr result (λ fault. fault ≡ Memory) }
{
    if compound.simples.is_empty() && has_no_tests(&compound.tests) {
        return push_plain(text, "*");
    }
    push_simples(alloc, text, compound.simples.as_slice())?;
    push_tests(alloc, text, in_has, &compound.tests)
}

#[cycle(writing)]
fn push_list(
    alloc: Global,
    text: &mut Text,
    in_has: bool,
    selectors: &Selectors,
) -> Result<(), ParseFault>
    ensures ok { OnOk result (text.new ≡ text.old ++ defined.list_text in_has (list_tree selectors.now)) }
    ensures fault { IfErr result (λ fault. fault ≡ Memory) }
{
    match selectors {
        Selectors::Nothing => Ok(()),
        Selectors::Or(one, others) => {
            push_list(alloc, text, in_has, others)?;
            if !is_none(others) {
                push_plain(text, ", ")?;
            }
            push_complex(alloc, text, in_has, one)
        }
    }
}

#[cycle(writing)]
fn push_complex(
    alloc: Global,
    text: &mut Text,
    in_has: bool,
    complex: &Complex,
) -> Result<(), ParseFault>
    ensures ok { OnOk result (text.new ≡ text.old ++ defined.complex_text in_has (complex_tree complex.now)) }
    ensures fault { IfErr result (λ fault. fault ≡ Memory) }
{
    match complex {
        Complex::Alone(compound) => push_compound(alloc, text, in_has, compound),
        Complex::Beside(left, combinator, compound) => {
            push_complex(alloc, text, false, left)?;
            push_plain(text, combinator_text(false, *combinator))?;
            push_compound(alloc, text, false, compound)
        }
    }
}

#[cycle(writing)]
fn push_relative(
    alloc: Global,
    text: &mut Text,
    first: bool,
    relative: &Relative,
) -> Result<(), ParseFault>
    ensures ok { OnOk result (text.new ≡ text.old ++ defined.relative_text first (relative_tree relative.now)) }
    ensures fault { IfErr result (λ fault. fault ≡ Memory) }
{
    match relative {
        Relative::To(combinator, compound) => {
            push_plain(text, combinator_text(first, *combinator))?;
            push_compound(alloc, text, false, compound)
        }
        Relative::Then(combinator, compound, rest) => {
            push_plain(text, combinator_text(first, *combinator))?;
            push_compound(alloc, text, false, compound)?;
            push_relative(alloc, text, false, rest)
        }
    }
}

#[cycle(writing)]
fn push_tests(alloc: Global, text: &mut Text, in_has: bool, tests: &Tests) -> Result<(), ParseFault>
    ensures ok { OnOk result (text.new ≡ text.old ++ defined.tests_text in_has (tests_tree tests.now)) }
    ensures fault { IfErr result (λ fault. fault ≡ Memory) }
{
    match tests {
        Tests::Nothing => Ok(()),
        Tests::Is(selectors, others) => {
            push_tests(alloc, text, false, others)?;
            let has = is_has(selectors);
            push_plain(text, if has { ":has(" } else { ":is(" })?;
            push_list(alloc, text, has, selectors)?;
            push_plain(text, ")")
        }
        Tests::Not(selectors, others) => {
            push_tests(alloc, text, false, others)?;
            push_plain(text, ":not(")?;
            push_list(alloc, text, false, selectors)?;
            push_plain(text, ")")
        }
        Tests::Has(relative, others) => {
            push_tests(alloc, text, false, others)?;
            push_plain(text, if in_has { "" } else { ":has(" })?;
            push_relative(alloc, text, true, relative)?;
            push_plain(text, if in_has { "" } else { ")" })
        }
        Tests::NthOf(nth, selectors, others) => {
            push_tests(alloc, text, false, others)?;
            push_nth_opening(text, *nth)?;
            push_list(alloc, text, false, selectors)?;
            push_plain(text, ")")
        }
    }
}

/// The text of selectors, as the CSSOM serializes them: `:is(a, b) > [c="d"]`.
///
/// What `parse` makes the same is written the same: `:where()` as `:is()`, `:nth-child(1)` as `:first-child`, `*|a` as `a`, and the
/// pseudo-classes that stand for selectors as those selectors.
#[tactic(auto, unfolding(crate::specs::Written::written))]
pub fn to_text(alloc: Global, selectors: &Selectors) -> Result<String, ParseFault>
    ensures ok { IfOk result (λ text. chars (string_bytes text) ≡ defined.written (list_tree selectors.now)) }
    ensures fault { IfErr result (λ fault. fault ≡ Memory) }
{
    let mut text = Text::empty(alloc);
    push_list(alloc, &mut text, false, selectors)?;
    text.into_string()
}
