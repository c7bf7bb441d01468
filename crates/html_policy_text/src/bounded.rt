//! A policy with bounds on what may be left of a page, out of a text and as one.
ghost use Rattle.std.specs.Prelude.{◌≡◌, ◌≤◌, ◌++◌, ℕ, List, Ok, Some, IfErr, IfNone, IfOk, IfSome, OnOk, false, map, true};
ghost use Rattle.std.specs.Char.{is_ascii_digit};
ghost use Rattle.std.specs.List.{fold, list_all};
ghost use Rattle.std.specs.Str.{chars};
ghost use Rattle.html_clean.specs.Values.{words_of};
ghost use Rattle.markup.specs.declared.fault.ParseFault.TheVariants.{Memory};
ghost use Rattle.html_policy_text.specs.Bounded as spec;
ghost use Rattle.html_policy_text.specs.Bounded.{AreInRange, AreRefused, IsBoundedFile, IsBoundedFileFault, IsTaken, bound_named};
ghost use Rattle.html_policy_text.specs.Bounded.{bound_text};
ghost use Rattle.html_policy_text.specs.Bounded.{bounded_of, bounded_rules, bounded_text, bounds_by, bounds_text};
ghost use Rattle.html_policy_text.specs.Bounded.{no_bounds, nothing_said, read_bounded, with_bound, with_bounded_line, with_digit};
ghost use Rattle.html_policy_text.specs.Bounded.{no_bound};
ghost use Rattle.html_policy_text.specs.Rules.{rules_of};
ghost use Rattle.html_policy_text.specs.Written.{IsUnwritten, is_writable};

use crate::file::{PolicyFileFault, line_fault};
use crate::reading::{PolicyFault, fault_at, lines_of, nothing};
use crate::rules::{Problem, RuleFault, apply_line};
use crate::writing::{WriteFault, push_spaced, write_policy};
use devices::Source;
use html_clean::{Bound, Bounds, Policy, words_of};
use html_input::read_text;
use markup::{ParseFault, Text};
use std::alloc::Global;

/// A policy, and how much may be left of a page that is cleaned by it. A bound of `u64::MAX` is none.
#[derive(Drop)]
pub struct BoundedPolicy {
    /// What is kept.
    pub policy: Policy,
    /// How much of it may be left.
    pub bounds: Bounds,
}

impl BoundedPolicy {
    /// A policy without a bound.
    pub fn unbounded(policy: Policy) -> BoundedPolicy
        ensures policy { rules_of result.policy ≡ rules_of policy }
        ensures bounds { result.bounds ≡ no_bounds }
    {
        BoundedPolicy {
            policy,
            bounds: Bounds {
                depth: u64::MAX,
                elements: u64::MAX,
                bytes: u64::MAX,
            },
        }
    }

    /// Takes one rule more, as it stands in a line of a policy's text.
    pub fn apply(&mut self, alloc: Global, line: &str) -> Result<(), RuleFault>
        ensures { IsTaken result (bounded_of self.new) (with_bounded_line (bounded_of self.old) (words_of (chars line.now))) }
    {
        let Ok(words) = words_of(alloc, line) else {
            return Err(RuleFault::Memory);
        };
        apply_words(alloc, self, words.as_slice())
    }
}

/// The bound that a word is the name of.
fn bound_named(word: &Text) -> Option<Bound>
    ensures { result ≡ bound_named word.now }
{
    if word.is("max-depth") {
        Some(Bound::Depth)
    } else if word.is("max-elements") {
        Some(Bound::Elements)
    } else if word.is("max-bytes") {
        Some(Bound::Bytes)
    } else {
        None
    }
}

/// A number and a digit after it, as far as 64 bits go.
fn with_digit(n: u64, c: char) -> u64
    ensures { result ≡ with_digit n c }
{
    n.saturating_mul(10)
        .saturating_add(u64::from(c as u32).saturating_sub(48))
}

/// The number that a text is in ASCII digits, if it is of these alone; `u64::MAX` of one that is greater.
fn number(text: &str) -> Option<u64>
    ensures some { IfSome result (λ n. n ≡ fold with_digit 0 (chars text.now)) }
    ensures digits { IfSome result (λ _. list_all is_ascii_digit (chars text.now) ≡ true) }
    ensures none { IfNone result (list_all is_ascii_digit (chars text.now) ≡ false) }
{
    let mut n: u64 = 0;
    for c in text.chars() {
        if !c.is_ascii_digit() {
            return None;
        }
        n = with_digit(n, c);
    }
    Some(n)
}

/// The number that a word is in digits.
fn number_of(word: &Text) -> Option<u64>
    ensures { result ≡ spec.number_of word.now }
{
    number(word.as_str())
}

/// Sets a bound.
fn set(bounds: &mut Bounds, bound: Bound, n: u64)
    ensures { bounds.new ≡ with_bound bound n bounds.old }
{
    match bound {
        Bound::Depth => bounds.depth = n,
        Bound::Elements => bounds.elements = n,
        Bound::Bytes => bounds.bytes = n,
    }
}

/// Sets a bound to the number that the only word is.
fn take_bound(bounds: &mut Bounds, bound: Bound, words: &[Text]) -> Result<(), RuleFault>
    ensures { IsTaken result bounds.new (bounds_by bound bounds.old words.now) }
{
    let Some((word, more)) = words.split_first() else {
        return Err(RuleFault::Problem(Problem::WrongWords));
    };
    if !more.is_empty() {
        return Err(RuleFault::Problem(Problem::WrongWords));
    }
    match number_of(word) {
        Some(n) => {
            set(bounds, bound, n);
            Ok(())
        }
        None => Err(RuleFault::Problem(Problem::WrongNumber)),
    }
}

/// Takes a line, as words.
fn apply_words(alloc: Global, bounded: &mut BoundedPolicy, words: &[Text]) -> Result<(), RuleFault>
    ensures { IsTaken result (bounded_of bounded.new) (with_bounded_line (bounded_of bounded.old) words.now) }
{
    let Some((first, rest)) = words.split_first() else {
        return Ok(());
    };
    match bound_named(first) {
        Some(bound) => take_bound(&mut bounded.bounds, bound, rest),
        None => apply_line(alloc, &mut bounded.policy, words),
    }
}

/// Takes lines, the first of which is line 1.
fn apply_lines(
    alloc: Global,
    bounded: &mut BoundedPolicy,
    lines: &[&str],
) -> Result<(), PolicyFault>
    ensures ok { OnOk result (read_bounded 1 (bounded_of bounded.old) (map (λ line. chars line.now) lines.now)
        ≡ Ok (bounded_of bounded.new)) }
    ensures err { IfErr result (AreRefused (read_bounded 1 (bounded_of bounded.old) (map (λ line. chars line.now) lines.now))) }
{
    for (i, line) in lines.iter().enumerate() {
        if let Err(fault) = bounded.apply(alloc, line) {
            return Err(fault_at(i + 1, fault));
        }
    }
    Ok(())
}

/// Reads a policy that stands in a text as [`read_policy`](crate::read_policy) does, and bounds beside it: `max-depth 100`,
/// `max-elements 10000`, `max-bytes 1000000`, those of [`Bounds`]. What the text does not bound is not bounded.
pub fn read_bounded_policy(alloc: Global, text: &str) -> Result<BoundedPolicy, PolicyFault>
    ensures ok { IfOk result (λ bounded. bounded_rules (chars text.now) ≡ Ok (bounded_of bounded)) }
    ensures err { IfErr result (AreRefused (bounded_rules (chars text.now))) }
{
    let mut bounded = BoundedPolicy::unbounded(nothing(alloc));
    let Ok(lines) = lines_of(alloc, text) else {
        return Err(PolicyFault::Memory);
    };
    apply_lines(alloc, &mut bounded, lines.as_slice())?;
    Ok(bounded)
}

/// Reads a file to its end, and the policy and the bounds that its text says as [`read_bounded_policy`] does.
///
/// Bytes that are not UTF-8 are reported first, wherever they stand, and then the first line that is refused.
pub fn read_bounded_policy_file<R: Source>(
    alloc: Global,
    reader: &mut R,
) -> Result<BoundedPolicy, PolicyFileFault>
    ensures ok { IfOk result (λ bounded. (whole : List ℕ) → R.left reader.old ≡ Some whole
        → IsBoundedFile whole (R.left reader.new) (bounded_of bounded)) }
    ensures err { IfErr result (IsBoundedFileFault (R.left reader.old) (R.left reader.new)) }
{
    let text = read_text(alloc, reader)?;
    match read_bounded_policy(alloc, text.as_str()) {
        Ok(bounded) => Ok(bounded),
        Err(fault) => Err(line_fault(fault)),
    }
}

/// Writes the line of a bound, if there is one.
fn write_bound(alloc: Global, text: &mut Text, keyword: &str, n: u64) -> Result<(), ParseFault>
    ensures ok { OnOk result (text.new ≡ text.old ++ bound_text (chars keyword.now) n) }
    ensures range { n ≤ no_bound }
    ensures fault { IfErr result (λ fault. fault ≡ Memory) }
{
    if n == u64::MAX {
        return Ok(());
    }
    let digits = n.to_string(alloc)?;
    text.push_str(keyword)?;
    push_spaced(text, digits.as_str())?;
    text.push('\n')
}

/// Writes the lines of bounds, and a text after them.
fn write_bounds(alloc: Global, bounds: &Bounds, after: &Text) -> Result<Text, ParseFault>
    ensures ok { IfOk result (λ text. text ≡ bounds_text bounds.now ++ after.now) }
    ensures range { IfOk result (λ _. AreInRange bounds.now) }
    ensures fault { IfErr result (λ fault. fault ≡ Memory) }
{
    let mut text = Text::empty(alloc);
    write_bound(alloc, &mut text, "max-depth", bounds.depth)?;
    write_bound(alloc, &mut text, "max-elements", bounds.elements)?;
    write_bound(alloc, &mut text, "max-bytes", bounds.bytes)?;
    text.push_str(after.as_str())?;
    Ok(text)
}

/// Writes a policy and its bounds as text, from which [`read_bounded_policy`] reads the same. Errors are those of [`write_policy`].
pub fn write_bounded_policy(alloc: Global, bounded: &BoundedPolicy) -> Result<Text, WriteFault>
    ensures ok { IfOk result (λ text. text ≡ bounded_text (bounded_of bounded.now)) }
    ensures read { IfOk result (λ text. bounded_rules text ≡ Ok (bounded_of bounded.now)) }
    ensures err { IfErr result (IsUnwritten (is_writable (rules_of bounded.now.policy))) }
{
    match write_policy(alloc, &bounded.policy) {
        Ok(rules) => match write_bounds(alloc, &bounded.bounds, &rules) {
            Ok(text) => Ok(text),
            Err(_) => Err(WriteFault::Memory),
        },
        Err(fault) => Err(fault),
    }
}
