//! Attributes in an image.
ghost use Rattle.std.specs.Prelude.{◌≡◌, ◌+◌, ◌++◌, IfOk, OnOk, encode_utf8_all, length};
ghost use Rattle.std.specs.Str.{chars};
ghost use Rattle.html_tree_image.specs.Image.{all_attribute_texts, attribute_numbers, attribute_records, attribute_texts, name_bytes};
ghost use Rattle.html_tree_image.specs.Image.{prefix_bytes, words};

use crate::words::{number_of, push_words};
use markup::{Attribute, Prefix, QualName};
use std::alloc::AllocError;

// Adds a text; answers how many bytes it has.
pub(crate) fn push_text(texts: &mut Vec<u8>, text: &str) -> Result<usize, AllocError>
    ensures length { IfOk result (λ n. n ≡ length (encode_utf8_all (chars text.now))) }
    ensures text { OnOk result (texts.new.items ≡ texts.old.items ++ encode_utf8_all (chars text.now)) }
    ensures grown { OnOk result (length texts.new.items ≡ length texts.old.items + length (encode_utf8_all (chars text.now))) }
{
    texts.extend_from_slice(text.as_bytes())?;
    Ok(text.len())
}

// Adds what stands before the local name; answers how many bytes it has.
fn push_prefix(texts: &mut Vec<u8>, prefix: &Option<Prefix>) -> Result<usize, AllocError>
    ensures length { IfOk result (λ n. n ≡ length (prefix_bytes prefix.now)) }
    ensures text { OnOk result (texts.new.items ≡ texts.old.items ++ prefix_bytes prefix.now) }
{
    let Some(prefix) = prefix else {
        return Ok(0);
    };
    let at = texts.len();
    push_text(texts, prefix.as_str())?;
    texts.push(b':')?;
    Ok(texts.len() - at)
}

// Adds the qualified name of an attribute; answers how many bytes its prefix has, and how many it has in all.
fn push_name(texts: &mut Vec<u8>, name: &QualName) -> Result<(usize, usize), AllocError>
    ensures prefix { IfOk result (λ n. n.0 ≡ length (prefix_bytes name.now.prefix)) }
    ensures length { IfOk result (λ n. n.1 ≡ length (name_bytes name.now)) }
    ensures text { OnOk result (texts.new.items ≡ texts.old.items ++ name_bytes name.now) }
    ensures grown { OnOk result (length texts.new.items ≡ length texts.old.items + length (name_bytes name.now)) }
{
    let at = texts.len();
    let prefix = push_prefix(texts, &name.prefix)?;
    push_text(texts, name.local.as_str())?;
    Ok((prefix, texts.len() - at))
}

// Adds an attribute: its texts, and its record.
fn push_attribute(
    records: &mut Vec<u8>,
    texts: &mut Vec<u8>,
    attribute: &Attribute,
) -> Result<(), AllocError>
    ensures texts { OnOk result (texts.new.items ≡ texts.old.items ++ attribute_texts attribute.now) }
    ensures record { OnOk result (records.new.items ≡ records.old.items
        ++ words (attribute_numbers (length texts.old.items) attribute.now)) }
{
    let at = texts.len();
    let (prefix, name) = push_name(texts, &attribute.name)?;
    let value_at = texts.len();
    let value = push_text(texts, attribute.value.as_str())?;
    let namespace = number_of(&attribute.name.ns);
    push_words(records, &[at, name, value_at, value, namespace, prefix])?;
    Ok(())
}

// Adds the attributes of an element.
pub(crate) fn push_attributes(
    records: &mut Vec<u8>,
    texts: &mut Vec<u8>,
    attributes: &[Attribute],
) -> Result<(), AllocError>
    ensures texts { OnOk result (texts.new.items ≡ texts.old.items ++ all_attribute_texts attributes.now) }
    ensures records { OnOk result (records.new.items ≡ records.old.items ++ attribute_records (length texts.old.items) attributes.now) }
{
    for attribute in attributes {
        push_attribute(records, texts, attribute)?;
    }
    Ok(())
}
