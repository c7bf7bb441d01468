//! Worked values of texts, names and attributes, each public call on the way.

use crate::see;
use crate::tokens::tags::{attribute, attributes};
use markup::{
    Attribute, Attributes, KnownNamespace, LocalName, Namespace, ParseFault, Prefix, QualName,
    Text, namespaces,
};
use std::alloc::{AllocError, Global};

fn text(alloc: Global, characters: &str) -> Result<Text, ParseFault> {
    Ok(Text::new(String::from_str(alloc, characters)?))
}

fn prefix(alloc: Global, characters: &str) -> Result<Prefix, AllocError> {
    Ok(Prefix::new(String::from_str(alloc, characters)?))
}

// A start, what is added to it, and what stands there then.
const GROWN: &[(&str, &str, &str)] = &[
    ("", "", ""),
    ("", "a", "a"),
    ("ab", "", "ab"),
    ("é", "\u{10000}b", "é\u{10000}b"),
    ("twenty-four bytes in all", "", "twenty-four bytes in all"),
    ("twenty-four bytes in all", "é", "twenty-four bytes in allé"),
    (
        "thirty bytes with their spaces",
        "",
        "thirty bytes with their spaces",
    ),
    (
        "thirty bytes with their spaces",
        "é",
        "thirty bytes with their spacesé",
    ),
    (
        "with more than twenty-four bytes",
        ", and more",
        "with more than twenty-four bytes, and more",
    ),
];

/// By what a text grows.
enum By {
    /// A text.
    Text,
    /// The characters of a text.
    Characters,
    /// A text of its own kind.
    Own,
    /// A text in small letters, once all that stood there is replaced by `X`.
    Lowered,
}

fn push_characters(made: &mut Text, more: &str) -> Result<(), ParseFault> {
    for character in more.chars() {
        made.push(character)?;
    }
    Ok(())
}

fn push_own(alloc: Global, made: &mut Text, more: &str) -> Result<(), ParseFault> {
    made.append(&Text::from_str(alloc, more)?)
}

fn replace_lowered(made: &mut Text, more: &str) -> Result<(), ParseFault> {
    made.clear();
    made.push_str("X")?;
    made.push_lowered(more)
}

fn grow(alloc: Global, made: &mut Text, by: &By, more: &str) -> Result<(), ParseFault> {
    match by {
        By::Text => made.push_str(more),
        By::Characters => push_characters(made, more),
        By::Own => push_own(alloc, made, more),
        By::Lowered => replace_lowered(made, more),
    }
}

// Whether a text that was made grows so to a whole.
fn grows(alloc: Global, made: Result<Text, ParseFault>, by: &By, more: &str, whole: &str) -> bool {
    match made {
        Ok(mut made) => grow(alloc, &mut made, by, more).is_ok() && made.as_str() == whole,
        Err(_) => false,
    }
}

// Whether a text grows so by a text, by its characters, and by a text of its own. It is made anew for each.
fn is_grown(alloc: Global, row: &(&str, &str, &str)) -> bool {
    grows(alloc, Text::from_str(alloc, row.0), &By::Text, row.1, row.2)
        && grows(alloc, text(alloc, row.0), &By::Characters, row.1, row.2)
        && grows(alloc, text(alloc, row.0), &By::Own, row.1, row.2)
}

#[test]
fn texts_grow_at_their_end(rt: HostRuntime) {
    for row in GROWN {
        see(&rt, is_grown(rt.alloc(), row), row.2);
    }
}

// What is added after `X`, and what of it stands there.
const LOWERED: &[(&str, &str)] = &[
    ("", "X"),
    ("div", "Xdiv"),
    ("DiV", "Xdiv"),
    ("@AZ[", "X@az["),
    ("ÀB", "XÀb"),
    (
        "A name with More than twenty-four BYTES",
        "Xa name with more than twenty-four bytes",
    ),
];

fn is_lowered(alloc: Global, row: &(&str, &str)) -> bool {
    grows(
        alloc,
        Text::from_str(alloc, "let go"),
        &By::Lowered,
        row.0,
        row.1,
    )
}

#[test]
fn texts_are_lowered_at_their_end(rt: HostRuntime) {
    for row in LOWERED {
        see(&rt, is_lowered(rt.alloc(), row), row.1);
    }
}

const SHORT: &str = "a text of twenty-four by";

const MORE: &str = "tes and as many again, and then some more";

const LONG: &str = "a text of twenty-four bytes and as many again, and then some more";

// Whether a short text grows, or stands as it did where memory was refused.
fn grows_or_stands(short: &mut Text) -> bool {
    match short.push_str(MORE) {
        Ok(()) => short.as_str() == LONG,
        Err(fault) => fault == ParseFault::Memory && short.as_str() == SHORT,
    }
}

fn is_whole_or_unchanged(alloc: Global) -> bool {
    match text(alloc, SHORT) {
        Ok(mut short) => grows_or_stands(&mut short),
        Err(_) => false,
    }
}

// The same of an empty list to which an attribute comes.
fn takes_one_or_stands(list: &mut Attributes, first: Attribute) -> bool {
    match list.push(first) {
        Ok(()) => list.len() == 1 && !list.is_empty(),
        Err(fault) => fault == ParseFault::Memory && list.is_empty(),
    }
}

fn is_longer_or_unchanged(alloc: Global) -> bool {
    match attribute(alloc, ("id", "x")) {
        Ok(first) => takes_one_or_stands(&mut Attributes::new(alloc), first),
        Err(_) => false,
    }
}

#[test]
fn a_refused_text_or_list_is_unchanged(rt: HostRuntime) {
    assert!(rt; is_whole_or_unchanged(rt.alloc()));
    assert!(rt; is_longer_or_unchanged(rt.alloc()));
}

// The names of numbered attributes.
const NUMBERED: &[&str] = &[
    "a0", "a1", "a2", "a3", "a4", "a5", "a6", "a7", "a8", "a9", "a10", "a11", "a12", "a13", "a14",
    "a15", "a16", "a17", "a18", "a19", "a20", "a21", "a22", "a23", "a24", "a25", "a26", "a27",
    "a28", "a29", "a30", "a31", "a32", "a33", "a34", "a35", "a36", "a37", "a38", "a39",
];

// Attributes of these names, with this value, are put after others.
fn push_named(
    alloc: Global,
    list: &mut Attributes,
    names: &[&'static str],
    value: &'static str,
) -> Result<(), ParseFault> {
    for &name in names {
        list.push(attribute(alloc, (name, value))?)?;
    }
    Ok(())
}

// So many attributes `a0`, `a1` and so on, with this value, are put after others.
fn push_numbered(
    alloc: Global,
    list: &mut Attributes,
    count: usize,
    value: &'static str,
) -> Result<(), ParseFault> {
    match NUMBERED.get(..count) {
        Some(names) => push_named(alloc, list, names, value),
        None => Err(ParseFault::Shape),
    }
}

fn have_value(attributes: &[Attribute], value: &str) -> bool {
    for attribute in attributes {
        if attribute.value.as_str() != value {
            return false;
        }
    }
    true
}

// Whether so many attributes have the value `x`, and all others, so many in all, the value `y`.
fn are_filled(list: &Attributes, has: usize, count: usize) -> bool {
    match list.as_slice().split_at_checked(has) {
        Some((first, others)) => {
            have_value(first, "x") && have_value(others, "y") && list.len() == count
        }
        None => false,
    }
}

// How many attributes there are, how many come, and how many there are then. From the seventeenth on places are kept.
const MISSING: &[(&str, usize, usize, usize)] = &[
    ("none to none", 0, 0, 0),
    ("three to none", 0, 3, 3),
    ("five to three", 3, 5, 5),
    ("five to twenty", 20, 5, 20),
    ("forty to five", 5, 40, 40),
];

// Of so many attributes `a0`, `a1` and so on, those that are missing are added.
fn add_numbered(alloc: Global, list: &mut Attributes, count: usize) -> Result<(), ParseFault> {
    let mut coming = Attributes::new(alloc);
    push_numbered(alloc, &mut coming, count, "y")?;
    list.add_missing(coming)
}

// Whether those that are missing are added to a list that was empty.
fn are_added(alloc: Global, list: &mut Attributes, row: &(&str, usize, usize, usize)) -> bool {
    push_numbered(alloc, list, row.1, "x").is_ok()
        && add_numbered(alloc, list, row.2).is_ok()
        && are_filled(list, row.1, row.3)
}

#[test]
fn missing_attributes_are_added(rt: HostRuntime) {
    for row in MISSING {
        see(
            &rt,
            are_added(rt.alloc(), &mut Attributes::new(rt.alloc()), row),
            row.0,
        );
    }
}

/// The known namespaces, their prefixes and their texts.
const KNOWN: &[(KnownNamespace, &str, &str)] = &[
    (KnownNamespace::NoNamespace, "", ""),
    (KnownNamespace::Html, "html", "http://www.w3.org/1999/xhtml"),
    (
        KnownNamespace::MathMl,
        "mathml",
        "http://www.w3.org/1998/Math/MathML",
    ),
    (KnownNamespace::Svg, "svg", "http://www.w3.org/2000/svg"),
    (
        KnownNamespace::XLink,
        "xlink",
        "http://www.w3.org/1999/xlink",
    ),
    (
        KnownNamespace::Xml,
        "xml",
        "http://www.w3.org/XML/1998/namespace",
    ),
    (
        KnownNamespace::Xmlns,
        "xmlns",
        "http://www.w3.org/2000/xmlns/",
    ),
];

// Whether the copy of a prefix equals another, which is this text.
fn is_prefix_copied(alloc: Global, made: &Prefix, other: &Prefix, characters: &str) -> bool {
    let Ok(copied) = made.copy(alloc) else {
        return false;
    };
    copied == *other && copied.as_str() == characters
}

// Whether a prefix of a known namespace is the prefix of a text, and so is its copy.
fn is_usual(alloc: Global, known: KnownNamespace, want: &str) -> bool {
    let Ok(other) = prefix(alloc, want) else {
        return false;
    };
    let made = Prefix::from_known(known);
    made == other && is_prefix_copied(alloc, &made, &other, want)
}

fn is_known(alloc: Global, row: &(KnownNamespace, &str, &str)) -> bool {
    is_usual(alloc, row.0, row.1) && Namespace::from_known(row.0).as_str() == row.2
}

#[test]
fn known_namespaces_have_their_prefixes_and_texts(rt: HostRuntime) {
    for row in KNOWN {
        see(&rt, is_known(rt.alloc(), row), row.2);
    }
}

// The prefixes, namespaces and local names of names that are copied below.
const NAMES: &[[&str; 3]] = &[
    ["", "", ""],
    ["href", "href", "href"],
    ["Ünïcode", "Ünïcode", "Ünïcode"],
    ["xlink", namespaces::XLINK, "href"],
];

fn is_text_copied(alloc: Global, made: &Text, characters: &str) -> bool {
    match made.copy(alloc) {
        Ok(copied) => copied.as_str() == characters,
        Err(_) => false,
    }
}

fn is_local_name_copied(alloc: Global, made: &LocalName, characters: &str) -> bool {
    match made.copy(alloc) {
        Ok(copied) => copied.as_str() == characters,
        Err(_) => false,
    }
}

fn is_namespace_copied(alloc: Global, made: &Namespace, characters: &str) -> bool {
    match made.copy(alloc) {
        Ok(copied) => copied.as_str() == characters,
        Err(_) => false,
    }
}

fn is_prefix_of(alloc: Global, made: &Option<Prefix>, characters: &str) -> bool {
    match made {
        Some(made) => is_prefix_copied(alloc, made, made, characters),
        None => false,
    }
}

// A name once more, by the calls that take its characters.
fn name_again(alloc: Global, name: &LocalName) -> Result<String, ParseFault> {
    let again = LocalName::from_str(alloc, name.as_str())?;
    Text::from_str(alloc, again.as_str())?.into_string()
}

// A text once more, by the calls that take it or its characters.
fn again(alloc: Global, characters: &str) -> Result<String, ParseFault> {
    let name = LocalName::from_text(Text::from_str(alloc, characters)?);
    name_again(alloc, &name)
}

fn is_same_again(alloc: Global, characters: &str) -> bool {
    match again(alloc, characters) {
        Ok(whole) => whole.as_str() == characters,
        Err(_) => false,
    }
}

// The name of a prefix, a namespace and a local name.
fn qualified(alloc: Global, words: &[&str; 3]) -> Result<QualName, AllocError> {
    let before = String::from_str(alloc, words[0])?;
    let ns = String::from_str(alloc, words[1])?;
    let local = String::from_str(alloc, words[2])?;
    Ok(QualName::new(
        Some(Prefix::new(before)),
        Namespace::new(ns),
        LocalName::new(local),
    ))
}

fn is_name_copied(alloc: Global, name: &QualName) -> bool {
    match name.copy(alloc) {
        Ok(copied) => copied == *name,
        Err(_) => false,
    }
}

// Whether a name is copied, and so is each of its parts.
fn are_parts_copied(alloc: Global, name: &QualName, words: &[&str; 3]) -> bool {
    is_name_copied(alloc, name)
        && is_prefix_of(alloc, &name.prefix, words[0])
        && is_namespace_copied(alloc, &name.ns, words[1])
        && is_local_name_copied(alloc, &name.local, words[2])
}

fn is_copied(alloc: Global, words: &[&str; 3]) -> bool {
    match qualified(alloc, words) {
        Ok(name) => are_parts_copied(alloc, &name, words) && is_same_again(alloc, words[2]),
        Err(_) => false,
    }
}

fn two_attributes(alloc: Global) -> Result<Attributes, ParseFault> {
    attributes(alloc, &[("id", "x"), ("class", "a b")])
}

fn is_list_copied(alloc: Global, list: &Attributes) -> bool {
    match list.copy(alloc) {
        Ok(copied) => copied == *list,
        Err(_) => false,
    }
}

fn are_two_copied(alloc: Global) -> bool {
    match two_attributes(alloc) {
        Ok(list) => is_list_copied(alloc, &list),
        Err(_) => false,
    }
}

#[test]
fn copies_equal_their_source(rt: HostRuntime) {
    for words in NAMES {
        see(&rt, is_copied(rt.alloc(), words), words[0]);
    }
}

// Whether the two attributes without the second are the first alone.
fn is_first_alone(alloc: Global) -> bool {
    let Ok(list) = two_attributes(alloc) else {
        return false;
    };
    let mut vector = list.into_vec();
    drop(vector.pop());
    is_first(Attributes::from_vec(vector).as_slice())
}

fn is_first(attributes: &[Attribute]) -> bool {
    match attributes {
        [first] => first.name.local.as_str() == "id" && first.value.as_str() == "x",
        _ => false,
    }
}

#[test]
fn attributes_are_copied_and_are_a_vector(rt: HostRuntime) {
    assert!(rt; are_two_copied(rt.alloc()));
    assert!(rt; is_first_alone(rt.alloc()));
}

// The place of a name in the table of known names, if it stands there.
fn place_of(name: &LocalName) -> Option<usize> {
    match name.known() {
        Some(known) => Some(usize::from(known.place)),
        None => None,
    }
}

fn is_at(alloc: Global, row: &(&str, Option<usize>)) -> bool {
    match LocalName::from_str(alloc, row.0) {
        Ok(made) => place_of(&made) == row.1,
        Err(_) => false,
    }
}

// Texts, and their places in the table of known names, if they are known.
const PLACES: &[(&str, Option<usize>)] = &[
    ("a", Some(0)),
    ("abbr", Some(1)),
    ("altGlyph", Some(16)),
    ("altglyph", Some(19)),
    ("zoomAndPan", Some(624)),
    ("zoomandpan", Some(625)),
    ("", None),
    ("A", None),
    ("aa", None),
    ("divx", None),
    ("di", None),
    ("zzz", None),
    ("dív", None),
];

#[test]
fn known_names_are_found_in_their_table(rt: HostRuntime) {
    for row in PLACES {
        see(&rt, is_at(rt.alloc(), row), row.0);
    }
}

const FAULTS: &[(ParseFault, u8, &str)] = &[
    (ParseFault::Memory, 1, "memory"),
    (ParseFault::TokenInText, 2, "token in text"),
    (ParseFault::Ended, 3, "ended"),
    (ParseFault::Shape, 4, "shape"),
    (ParseFault::Failed, 5, "failed"),
];

#[test]
fn faults_have_their_numbers(rt: HostRuntime) {
    for row in FAULTS {
        see(&rt, row.0 as u8 == row.1, row.2);
    }
    assert!(rt; ParseFault::from(AllocError) == ParseFault::Memory);
}
