//! Names of elements with a prefix.
ghost use Rattle.std.specs.Prelude.{◌≡◌, ◌∷◌, ◌&&◌, not, [], map, IfErr, IfNone, IfOk, IfSome, None, Some};
ghost use Rattle.std.specs.Str.{chars};
ghost use Rattle.html_clean.specs.Beginnings as beginnings;
ghost use Rattle.html_clean.specs.Values as values;
ghost use Rattle.html_clean.specs.Values.{joined_after, link_by};
ghost use Rattle.html_clean.specs.Urls as urls;
ghost use Rattle.html_round_trip.specs.Slices.Forms.{is_no_text};
ghost use Rattle.markup.specs.declared.fault.ParseFault.TheVariants.{Memory};

use crate::kinds::url_text;
use crate::policy::IdForm;
use crate::texts::is_no_text;
use crate::values::begins_with;
use crate::words::{push_word, words_of};
use markup::{ParseFault, Text};
use std::alloc::Global;

/// Whether a name gets a prefix in front: it is not empty, and doesn't begin so.
fn lacks_prefix(prefix: &str, name: &str) -> bool
    ensures { result ≡ (not (is_no_text (chars name.now)) && not (beginnings.begins_with (chars prefix.now) (chars name.now))) }
{
    !is_no_text(name) && !begins_with(prefix, name)
}

/// A name with a prefix.
fn with_prefix(alloc: Global, prefix: &str, name: &str) -> Result<Text, ParseFault>
    ensures ok { IfOk result (λ made. made ≡ values.with_prefix (chars prefix.now) (chars name.now)) }
    ensures fault { IfErr result (λ fault. fault ≡ Memory) }
{
    if !lacks_prefix(prefix, name) {
        return Text::from_str(alloc, name);
    }
    let mut made = Text::from_str(alloc, prefix)?;
    made.push_str(name)?;
    Ok(made)
}

/// Names between ASCII whitespace, each with a prefix.
fn names_with_prefix(alloc: Global, prefix: &str, value: &str) -> Result<Text, ParseFault>
    ensures ok { IfOk result (λ made. made ≡ joined_after []
        (map (values.with_prefix (chars prefix.now)) (values.words_of (chars value.now)))) }
    ensures fault { IfErr result (λ fault. fault ≡ Memory) }
{
    let names = words_of(alloc, value)?;
    let mut made = Text::empty(alloc);
    for name in &names {
        let whole = with_prefix(alloc, prefix, name.as_str())?;
        push_word(&mut made, &whole)?;
    }
    Ok(made)
}

/// What follows a sign in front of a text.
pub fn after_sign(sign: char, text: &str) -> Option<&str>
    ensures some { IfSome result (λ rest. values.after_sign sign (chars text.now) ≡ Some (chars rest.now)) }
    ensures none { IfNone result (values.after_sign sign (chars text.now) ≡ None) }
{
    let mut characters = text.chars();
    match characters.next() {
        Some(c) if c == sign => Some(characters.as_str()),
        _ => None,
    }
}

/// `#`, and a name with a prefix.
fn link(alloc: Global, prefix: &str, name: &str) -> Result<Text, ParseFault>
    ensures ok { IfOk result (λ made. made ≡ 35 ∷ values.with_prefix (chars prefix.now) (chars name.now)) }
    ensures fault { IfErr result (λ fault. fault ≡ Memory) }
{
    let named = with_prefix(alloc, prefix, name)?;
    let mut made = Text::empty(alloc);
    made.push('#')?;
    made.push_str(named.as_str())?;
    Ok(made)
}

/// A URL, in which a name that stands alone gets a prefix.
fn link_with_prefix(alloc: Global, prefix: &str, url: &str) -> Result<Text, ParseFault>
    ensures ok { IfOk result (λ made. made ≡ link_by (chars prefix.now) (chars url.now)
        (values.after_sign 35 (urls.url_text (chars url.now)))) }
    ensures fault { IfErr result (λ fault. fault ≡ Memory) }
{
    let text = url_text(alloc, url)?;
    match after_sign('#', text.as_str()) {
        Some(name) => link(alloc, prefix, name),
        None => Text::from_str(alloc, url),
    }
}

/// A value in which names of elements have a prefix.
pub(crate) fn prefixed(
    alloc: Global,
    form: IdForm,
    prefix: &str,
    value: &str,
) -> Result<Text, ParseFault>
    ensures ok { IfOk result (λ made. made ≡ values.prefixed form (chars prefix.now) (chars value.now)) }
    ensures fault { IfErr result (λ fault. fault ≡ Memory) }
{
    match form {
        IdForm::Name => with_prefix(alloc, prefix, value),
        IdForm::Names => names_with_prefix(alloc, prefix, value),
        IdForm::Link => link_with_prefix(alloc, prefix, value),
    }
}
