//! Attributes whose values have another text somewhere, found in time that grows with the length of both, whatever their case.
ghost use Rattle.std.specs.Prelude.{◌≡◌, ◌&&◌, ℕ, List, IfErr, IfOk, OnOk, encode_utf8_all, map, true};
ghost use Rattle.std.specs.Char.{to_ascii_lowercase};
ghost use Rattle.std.specs.List.{list_any};
ghost use Rattle.std.specs.Str.{bytes_eq};
ghost use Rattle.markup.specs.Forest.{data_of, element_name};
ghost use Rattle.markup.specs.declared.fault.ParseFault.TheVariants.{Memory};
ghost use Rattle.html_nodes.specs.Looks as looks;
ghost use Rattle.html_selector_matching.specs.Simples as simples;
ghost use Rattle.html_selector_matching.specs.Simples.{asked_of, has_attribute};
ghost use Rattle.selectors.specs.Compare as compare;
ghost use Rattle.selectors.specs.declared.selector.Operator.TheVariants.{Substring};

use crate::names::{
    asked_of, has_bytes, has_substring, is_html, is_insensitive, local_of, spelled, value_holds,
};
use crate::simples::is_in;
use html_forest::{Forest, NodeId};
use html_nodes::{attributes_of, element_name};
use markup::{Attribute, ParseFault, Text};
use selectors::{AttributeTest, Operator};

/// Puts a text, with ASCII letters in lower case, in the place of what a buffer holds.
pub fn lower(text: &Text, buffer: &mut Vec<u8>) -> Result<(), ParseFault>
    ensures ok { OnOk result (buffer.new.items ≡ map to_ascii_lowercase (encode_utf8_all text.now)) }
    ensures fault { IfErr result (λ fault. fault ≡ Memory) }
{
    buffer.clear();
    let bytes = spelled(text).as_bytes();
    for byte in bytes {
        buffer.push(byte.to_ascii_lowercase())?;
    }
    Ok(())
}

// Whether a value has a text somewhere, whatever their case; `lowered` is that text in lower case.
fn has_lowered(value: &Text, lowered: &[u8], buffer: &mut Vec<u8>) -> Result<bool, ParseFault>
    ensures ok { IfOk result (λ has. (wanted : List ℕ) → lowered.now ≡ map to_ascii_lowercase wanted
        → has ≡ compare.holds Substring true (encode_utf8_all value.now) wanted) }
    ensures fault { IfErr result (λ fault. fault ≡ Memory) }
{
    if lowered.is_empty() {
        return Ok(false);
    }
    lower(value, buffer)?;
    Ok(has_bytes(buffer.as_slice(), lowered))
}

// Whether a value is as asked; `lowered` is the wanted one in lower case.
fn value_holds_by(
    test: &AttributeTest,
    insensitive: bool,
    value: &Text,
    lowered: &[u8],
    buffer: &mut Vec<u8>,
) -> Result<bool, ParseFault>
    requires { lowered.now ≡ map to_ascii_lowercase (encode_utf8_all test.now.value) }
    ensures ok { IfOk result (λ is. is
        ≡ compare.holds test.now.operator insensitive (encode_utf8_all value.now) (encode_utf8_all test.now.value)) }
    ensures fault { IfErr result (λ fault. fault ≡ Memory) }
{
    match test.operator {
        Operator::Substring => {
            if insensitive {
                has_lowered(value, lowered, buffer)
            } else {
                Ok(has_substring(
                    false,
                    spelled(value).as_bytes(),
                    spelled(&test.value).as_bytes(),
                ))
            }
        }
        _ => Ok(value_holds(test.operator, insensitive, value, &test.value)),
    }
}

// Whether an attribute has the name that is asked for.
fn is_asked(html: bool, test: &AttributeTest, attribute: &Attribute) -> bool
    ensures { result ≡ (simples.is_in test.now.namespace attribute.now.name.ns
        && bytes_eq (encode_utf8_all attribute.now.name.local) (asked_of html test.now.name)) }
{
    is_in(test.namespace, &attribute.name.ns)
        && local_of(&attribute.name) == asked_of(html, &test.name)
}

fn is_attribute_by(
    html: bool,
    test: &AttributeTest,
    attribute: &Attribute,
    lowered: &[u8],
    buffer: &mut Vec<u8>,
) -> Result<bool, ParseFault>
    requires { lowered.now ≡ map to_ascii_lowercase (encode_utf8_all test.now.value) }
    ensures ok { IfOk result (λ is. is ≡ simples.is_attribute html test.now attribute.now) }
    ensures fault { IfErr result (λ fault. fault ≡ Memory) }
{
    if !is_asked(html, test, attribute) {
        return Ok(false);
    }
    let insensitive = is_insensitive(test.case, html, &test.name);
    value_holds_by(test, insensitive, &attribute.value, lowered, buffer)
}

fn is_among_by(
    html: bool,
    attributes: &[Attribute],
    test: &AttributeTest,
    lowered: &[u8],
    buffer: &mut Vec<u8>,
) -> Result<bool, ParseFault>
    requires { lowered.now ≡ map to_ascii_lowercase (encode_utf8_all test.now.value) }
    ensures ok { IfOk result (λ is. is ≡ list_any (simples.is_attribute html test.now) attributes.now) }
    ensures fault { IfErr result (λ fault. fault ≡ Memory) }
{
    for attribute in attributes {
        if is_attribute_by(html, test, attribute, lowered, buffer)? {
            return Ok(true);
        }
    }
    Ok(false)
}

/// Whether an element has an attribute as asked; `lowered` is the wanted value in lower case, and the buffer has room for values.
///
/// Errors: [`ParseFault::Memory`].
pub fn has_attribute_by(
    forest: &Forest,
    id: NodeId,
    test: &AttributeTest,
    lowered: &[u8],
    buffer: &mut Vec<u8>,
) -> Result<bool, ParseFault>
    requires { lowered.now ≡ map to_ascii_lowercase (encode_utf8_all test.now.value) }
    ensures ok { IfOk result (λ has. has ≡ has_attribute (element_name (data_of forest.now id))
        (looks.attributes_of (data_of forest.now id)) test.now) }
    ensures fault { IfErr result (λ fault. fault ≡ Memory) }
{
    match element_name(forest, id) {
        Some(name) => is_among_by(
            is_html(name),
            attributes_of(forest, id),
            test,
            lowered,
            buffer,
        ),
        None => Ok(false),
    }
}
