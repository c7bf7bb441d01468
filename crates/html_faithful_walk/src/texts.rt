//! Texts and comments, which are put where they stand.
ghost use Rattle.std.specs.Prelude.{◌≡◌, [], IfErr, IfOk, option_map};
ghost use Rattle.std.specs.Str.{chars};
ghost use Rattle.markup.specs.declared.fault.ParseFault.TheVariants.{Memory};
ghost use Rattle.html_faithful.specs.Spots.{Spot as HarmlessSpot};
ghost use Rattle.html_faithful.specs.Walk.{begins_with_line_feed, comment_put, is_current, is_plain, is_text, is_text_put, text_put};
ghost use Rattle.html_faithful.specs.Walk.{text_walked, waits_at};
ghost use Rattle.html_rules.specs.ForeignContent.{is_html_element};
ghost use Rattle.html_rules.specs.State.{current_is};
ghost use Rattle.html_faithful_judge.specs.Mades.{made_as, put_as};
ghost use Rattle.html_faithful_judge.specs.Spots.{spot_of};
ghost use Rattle.html_faithful_walk.specs.Steps.{is_character_walked, is_comment_made, is_text_made, parent_of, spot_if, takes_any_text};
ghost use Rattle.html_faithful_walk.specs.Steps.{takes_comment, takes_comments, takes_text, takes_white, takes_white_text};

use crate::checks::is_kept_open;
use crate::parents::Parent;
use crate::svg::takes_svg;
use html_faithful_judge::is_kept;
use html_faithful_judge::made::{Made, Put};
use html_faithful_judge::spot::Spot;
use html_faithful_judge::tokens::{Content, NamedToken, is_white};
use html_names::ElementClass;
use html_rules::{InsertionMode, TagSet};
use markup::{LocalName, ParseFault};
use std::alloc::Global;

/// Whether nothing was closed, and no line feed is dropped.
fn is_plain(made: &Made) -> bool
    ensures { result ≡ is_plain (made_as made.now) }
{
    !made.closed && !made.drops_line_feed
}

/// Whether what was put for a comment stands in its parent, which was the current node or was not, and nothing else was done.
fn is_comment_put(made: &Made, parent: Parent, current: bool, no_name: &LocalName) -> bool
    requires { no_name.now ≡ [] }
    ensures { (p : HarmlessSpot) → current ≡ is_current (parent_of parent) p
        → result ≡ is_comment_made (parent_of parent) p (made_as made.now) }
{
    if !(parent.holds(current, &made.put) && is_plain(made)) {
        return false;
    }
    is_kept_open(made, no_name)
}

/// A comment is put; answers whether it is put in its parent, and nothing else is done.
pub(crate) fn put_comment(
    made: &mut Made,
    alloc: Global,
    parent: Parent,
    text: &str,
) -> Result<bool, ParseFault>
    ensures ok { IfOk result (λ goes_on. comment_put (parent_of parent) (chars text.now) (spot_of made.old.spot)
        ≡ spot_if goes_on (spot_of made.new.spot)) }
    ensures fault { IfErr result (λ fault. fault ≡ Memory) }
{
    let current = parent.is_current(&made.spot);
    if !current {
        return put_comment_by_rows(made, alloc, parent, current, text);
    }
    if takes_comment(&made.spot) {
        return Ok(true);
    }
    put_comment_by_rows(made, alloc, parent, current, text)
}

/// The same, by the rows that it takes, where its parent is the current node or is not.
fn put_comment_by_rows(
    made: &mut Made,
    alloc: Global,
    parent: Parent,
    current: bool,
    text: &str,
) -> Result<bool, ParseFault>
    requires { current ≡ is_current (parent_of parent) (spot_of made.old.spot) }
    ensures ok { IfOk result (λ goes_on. comment_put (parent_of parent) (chars text.now) (spot_of made.old.spot)
        ≡ spot_if goes_on (spot_of made.new.spot)) }
    ensures fault { IfErr result (λ fault. fault ≡ Memory) }
{
    let no_name = LocalName::empty(alloc);
    let token = NamedToken {
        content: Content::Comment(text),
        name: &no_name,
        class: ElementClass::html(&no_name),
    };
    if !made.take(alloc, &token)? {
        return Ok(false);
    }
    Ok(is_comment_put(made, parent, current, &no_name))
}

/// Whether a text was put in the current node.
fn is_text_put(put: &Option<Put>) -> bool
    ensures { result ≡ is_text_put (option_map put_as put.now) }
{
    match put {
        Some(Put::TextHere) => true,
        _ => false,
    }
}

/// Whether a character was put in the current node, and nothing else was done.
fn is_character_put(made: &Made, no_name: &LocalName) -> bool
    requires { no_name.now ≡ [] }
    ensures { (p : HarmlessSpot) → result ≡ is_text_made p (made_as made.now) }
{
    if !(is_text_put(&made.put) && is_plain(made)) {
        return false;
    }
    is_kept_open(made, no_name)
}

/// Whether the current node is HTML's.
pub(crate) fn is_in_html(spot: &Spot) -> bool
    ensures { result ≡ current_is is_html_element spot.now.stack.open_elems }
{
    match spot.as_stack().open_elems().last() {
        Some(element) => element.name.is_html(),
        None => false,
    }
}

/// Whether every text is put in the current node in a mode, and changes nothing else: as in the body, once no frameset may come.
fn takes_text(mode: InsertionMode, frameset_ok: bool) -> bool
    ensures { result ≡ takes_text mode frameset_ok }
{
    match mode {
        InsertionMode::Text => true,
        InsertionMode::InBody | InsertionMode::InCell | InsertionMode::InCaption => !frameset_ok,
        _ => false,
    }
}

/// Whether every text is put in the current node, and changes nothing else.
fn takes_any_text(spot: &Spot) -> bool
    ensures { result ≡ takes_any_text (spot_of spot.now) }
{
    if is_in_html(spot) {
        takes_text(spot.mode, spot.frameset_ok)
    } else {
        !spot.frameset_ok && takes_svg(spot)
    }
}

/// Whether white space is put in the current node in a mode, and changes nothing else.
fn takes_white(mode: InsertionMode) -> bool
    ensures { result ≡ takes_white mode }
{
    matches!(
        mode,
        InsertionMode::InHead
            | InsertionMode::AfterHead
            | InsertionMode::InBody
            | InsertionMode::InCaption
            | InsertionMode::InColumnGroup
            | InsertionMode::InCell
    )
}

/// Whether a text is white space that is put in the current node, and changes nothing else.
fn takes_white_text(text: &str, spot: &Spot) -> bool
    ensures { result ≡ takes_white_text (chars text.now) (spot_of spot.now) }
{
    (is_in_html(spot) && takes_white(spot.mode)) && is_white(text)
}

/// Whether a comment is put in the current node in a mode, and changes nothing else.
fn takes_comments(mode: InsertionMode) -> bool
    ensures { result ≡ takes_comments mode }
{
    matches!(
        mode,
        InsertionMode::BeforeHead
            | InsertionMode::InHead
            | InsertionMode::AfterHead
            | InsertionMode::InBody
            | InsertionMode::InTable
            | InsertionMode::InCaption
            | InsertionMode::InColumnGroup
            | InsertionMode::InTableBody
            | InsertionMode::InRow
            | InsertionMode::InCell
    )
}

/// Whether a comment is put in the current node, and changes nothing else.
fn takes_comment(spot: &Spot) -> bool
    ensures { result ≡ takes_comment (spot_of spot.now) }
{
    is_in_html(spot) && takes_comments(spot.mode)
}

/// A character is put in the current node; answers whether it is, and nothing else is done. The name is empty.
fn put_character(
    made: &mut Made,
    alloc: Global,
    c: char,
    no_name: &LocalName,
) -> Result<bool, ParseFault>
    requires { no_name.now ≡ [] }
    ensures ok { IfOk result (λ goes_on. is_character_walked c (spot_of made.old.spot) (spot_of made.new.spot) goes_on) }
    ensures fault { IfErr result (λ fault. fault ≡ Memory) }
{
    if takes_any_text(&made.spot) {
        return Ok(true);
    }
    let token = NamedToken {
        content: Content::Character(c),
        name: no_name,
        class: ElementClass::html(no_name),
    };
    if !made.take(alloc, &token)? {
        return Ok(false);
    }
    Ok(is_character_put(made, no_name))
}

/// A text is put in the current node, character by character.
fn walk_text(
    made: &mut Made,
    alloc: Global,
    text: &str,
    no_name: &LocalName,
) -> Result<bool, ParseFault>
    requires { no_name.now ≡ [] }
    ensures ok { IfOk result (λ goes_on. text_walked (chars text.now) (spot_of made.old.spot) ≡ spot_if goes_on (spot_of made.new.spot)) }
    ensures fault { IfErr result (λ fault. fault ≡ Memory) }
{
    if takes_any_text(&made.spot) {
        return Ok(true);
    }
    if takes_white_text(text, &made.spot) {
        return Ok(true);
    }
    let mut goes_on = true;
    for c in text.chars() {
        if goes_on {
            goes_on = put_character(made, alloc, c, no_name)?;
        }
    }
    Ok(goes_on)
}

/// Whether white space waits here, as it does in the parts of a table (HTML Standard, section 13.2.6.4.10).
fn waits_at(spot: &Spot) -> bool
    ensures { result ≡ waits_at (spot_of spot.now) }
{
    matches!(
        spot.mode,
        InsertionMode::InTable | InsertionMode::InTableBody | InsertionMode::InRow
    ) && spot.current_is(TagSet::FosterTarget)
}

/// A text is put in the current node; answers whether it is.
pub(crate) fn put_text(made: &mut Made, alloc: Global, text: &str) -> Result<bool, ParseFault>
    ensures ok { IfOk result (λ goes_on. text_put (chars text.now) (spot_of made.old.spot) ≡ spot_if goes_on (spot_of made.new.spot)) }
    ensures fault { IfErr result (λ fault. fault ≡ Memory) }
{
    if waits_at(&made.spot) {
        if !is_white(text) {
            return Ok(false);
        }
        made.spot.orig_mode = None;
        return Ok(true);
    }
    let no_name = LocalName::empty(alloc);
    walk_text(made, alloc, text, &no_name)
}

/// Whether a text begins with a line feed.
pub(crate) fn begins_with_line_feed(text: &str) -> bool
    ensures { result ≡ begins_with_line_feed (chars text.now) }
{
    match text.chars().next() {
        Some(c) => c == '\n',
        None => false,
    }
}

/// Whether a text may stand here: it is not empty, stands beside no other, and does not begin with a line feed that is dropped.
pub(crate) fn is_text(after_text: bool, drops: bool, text: &str) -> bool
    ensures { result ≡ is_text after_text drops (chars text.now) }
{
    !after_text
        && text.chars().next().is_some()
        && is_kept(text)
        && !(drops && begins_with_line_feed(text))
}
