//! The attributes of a tag that is looked through for a declaration (HTML Standard, section 13.2.3.2).
ghost use Rattle.std.specs.Prelude.{◌≡◌, ◌<◌, ◌++◌, length, take, drop};
ghost use Rattle.html_encodings.specs.declared.scanning.Class.TheVariants.{Name};
ghost use Rattle.std.specs.Option.{option_copied};
ghost use Rattle.html_encodings.specs.Scanning.{front, past};
ghost use Rattle.html_encodings.specs.Prescan.{attribute, attribute_after, attribute_from, value_after, tag_from, if_named, heeding};
ghost use Rattle.html_encodings.specs.Attributes.{attribute_view, attempt_view, meta_view, tag_view};

use crate::scanning::{Class, after, front, front_len, past};

/// An attribute, with its letters as they stand.
#[derive(Clone, Copy)]
pub(crate) struct Attribute<'a> {
    pub name: &'a [u8],
    pub value: &'a [u8],
}

/// An attribute if there is one, and what is left. Where nothing is left the bytes have run out.
#[derive(Clone, Copy)]
pub(crate) struct Attempt<'a> {
    pub attribute: Option<Attribute<'a>>,
    pub rest: &'a [u8],
}

/// What the attributes of a `meta` have to say, each by its first value.
#[derive(Clone, Copy)]
pub(crate) struct Meta<'a> {
    pub http_equiv: Option<&'a [u8]>,
    pub content: Option<&'a [u8]>,
    pub charset: Option<&'a [u8]>,
}

/// What is declared in a tag, and what is left behind it.
#[derive(Clone, Copy)]
pub(crate) struct Tag<'a> {
    pub meta: Meta<'a>,
    pub rest: &'a [u8],
}

/// "value", behind `=` and white space.
fn value_after<'a>(name: &'a [u8], bytes: &'a [u8]) -> Attempt<'a>
    ensures { attempt_view result ≡ value_after name.now bytes.now }
{
    let Some((first, others)) = bytes.split_first() else {
        return Attempt {
            attribute: None,
            rest: bytes,
        };
    };
    if *first == b'"' || *first == b'\'' {
        let value = front(others, Class::Not(*first));
        return Attempt {
            attribute: Some(Attribute { name, value }),
            rest: after(past(others, Class::Not(*first)), 1),
        };
    }
    let value = front(bytes, Class::Value);
    Attempt {
        attribute: Some(Attribute { name, value }),
        rest: past(bytes, Class::Value),
    }
}

/// What follows a name and white space.
fn attribute_after<'a>(name: &'a [u8], bytes: &'a [u8]) -> Attempt<'a>
    ensures { attempt_view result ≡ attribute_after name.now bytes.now }
{
    let Some((next, others)) = bytes.split_first() else {
        return Attempt {
            attribute: None,
            rest: bytes,
        };
    };
    if *next == b'=' {
        return value_after(name, past(others, Class::Space));
    }
    Attempt {
        attribute: Some(Attribute { name, value: &[] }),
        rest: bytes,
    }
}

#[tactic(auto, using(crate::proofs::Scans::take_one_more), unfolding(crate::specs::Scanning::front))]
/// The name in front, which has the first byte, whatever that is.
fn name_of(bytes: &[u8]) -> &[u8]
    requires { 0 < length bytes.now }
    ensures { result.now ≡ take 1 bytes.now ++ front Name (drop 1 bytes.now) }
{
    let count = front_len(&bytes[1..], Class::Name);
    &bytes[..1 + count]
}

/// "Get an attribute".
fn get_attribute(bytes: &[u8]) -> Attempt<'_>
    ensures { attempt_view result ≡ attribute bytes.now }
{
    let bytes = past(bytes, Class::SpaceOrSlash);
    let Some((first, others)) = bytes.split_first() else {
        return Attempt {
            attribute: None,
            rest: bytes,
        };
    };
    if *first == b'>' {
        return Attempt {
            attribute: None,
            rest: bytes,
        };
    }
    attribute_after(
        name_of(bytes),
        past(past(others, Class::Name), Class::Space),
    )
}

/// The value so far, or that of an attribute of this name.
fn if_named<'a>(name: &[u8], attribute: Attribute<'a>, value: Option<&'a [u8]>) -> Option<&'a [u8]>
    ensures { option_copied result ≡ if_named name.now (attribute_view attribute.entry) (option_copied value.entry) }
{
    if value.is_none() && attribute.name.eq_ignore_ascii_case(name) {
        return Some(attribute.value);
    }
    value
}

impl<'a> Meta<'a> {
    /// The same after one attribute more.
    fn heeding(self, attribute: Attribute<'a>) -> Meta<'a>
        ensures { meta_view result ≡ heeding (meta_view self.entry) (attribute_view attribute.entry) }
    {
        Meta {
            http_equiv: if_named(b"http-equiv", attribute, self.http_equiv),
            content: if_named(b"content", attribute, self.content),
            charset: if_named(b"charset", attribute, self.charset),
        }
    }
}

/// Gets attributes until there is none.
pub(crate) fn tag_from(bytes: &[u8]) -> Tag<'_>
    ensures { tag_view result ≡ tag_from bytes.now }
{
    let mut meta = Meta {
        http_equiv: None,
        content: None,
        charset: None,
    };
    let mut rest = bytes;
    for count in 0..bytes.len() {
        let got = get_attribute(rest);
        rest = got.rest;
        match got.attribute {
            None => return Tag { meta, rest },
            Some(attribute) => meta = meta.heeding(attribute),
        }
    }
    Tag { meta, rest }
}
