//! Which row of a mode is the first that is for a tag. It is noted for each kind of tags and each family of names, which
//! are those in the same sets, so that who looks for the row of a tag begins there.
ghost use Rattle.std.specs.Prelude.{◌≡◌, ◌<◌, IfSome, length};
ghost use Rattle.markup.specs.KnownNames.{names};
ghost use Rattle.html_rules.specs.Rules.{rows};
ghost use Rattle.html_modes.specs.FirstRows.{rows_before, sets_of};
ghost use Rattle.html_modes.specs.NotedRows.{IsFamily, end_places, places, start_places};
ghost use Rattle.html_modes.specs.declared.first_places.TheConstants.{FAMILIES};

use crate::first_places as place;
use html_rules::InsertionMode;
use html_tokens::TagKind;
use markup::KnownName;

/// The families of known names, lent.
fn families() -> &'static [u8]
    ensures { result.now ≡ FAMILIES }
{
    &place::FAMILIES
}

/// The family of a name, if it is known; else that of the names that are in no set.
fn family_of(name: Option<KnownName>) -> usize
    requires { IfSome name (λ known. known.place < length names) }
    ensures { IsFamily result (sets_of name) }
{
    match name {
        Some(known) => usize::from(families()[usize::from(known.place)]),
        None => 0,
    }
}

/// The place of the first row of a mode for start tags, for each family of names.
fn start_places(mode: InsertionMode) -> &'static [u8]
    ensures { result.now ≡ start_places mode }
{
    match mode {
        InsertionMode::Initial => &place::INITIAL_FOR_START,
        InsertionMode::BeforeHtml => &place::BEFORE_HTML_FOR_START,
        InsertionMode::BeforeHead => &place::BEFORE_HEAD_FOR_START,
        InsertionMode::InHead => &place::IN_HEAD_FOR_START,
        InsertionMode::InHeadNoscript => &place::IN_HEAD_NOSCRIPT_FOR_START,
        InsertionMode::AfterHead => &place::AFTER_HEAD_FOR_START,
        InsertionMode::InBody => &place::IN_BODY_FOR_START,
        InsertionMode::Text => &place::TEXT_FOR_START,
        InsertionMode::InTable => &place::IN_TABLE_FOR_START,
        InsertionMode::InTableText => &place::IN_TABLE_TEXT_FOR_START,
        InsertionMode::InCaption => &place::IN_CAPTION_FOR_START,
        InsertionMode::InColumnGroup => &place::IN_COLUMN_GROUP_FOR_START,
        InsertionMode::InTableBody => &place::IN_TABLE_BODY_FOR_START,
        InsertionMode::InRow => &place::IN_ROW_FOR_START,
        InsertionMode::InCell => &place::IN_CELL_FOR_START,
        InsertionMode::InTemplate => &place::IN_TEMPLATE_FOR_START,
        InsertionMode::AfterBody => &place::AFTER_BODY_FOR_START,
        InsertionMode::InFrameset => &place::IN_FRAMESET_FOR_START,
        InsertionMode::AfterFrameset => &place::AFTER_FRAMESET_FOR_START,
        InsertionMode::AfterAfterBody => &place::AFTER_AFTER_BODY_FOR_START,
        InsertionMode::AfterAfterFrameset => &place::AFTER_AFTER_FRAMESET_FOR_START,
    }
}

/// The place of the first row of a mode for end tags, for each family of names.
fn end_places(mode: InsertionMode) -> &'static [u8]
    ensures { result.now ≡ end_places mode }
{
    match mode {
        InsertionMode::Initial => &place::INITIAL_FOR_END,
        InsertionMode::BeforeHtml => &place::BEFORE_HTML_FOR_END,
        InsertionMode::BeforeHead => &place::BEFORE_HEAD_FOR_END,
        InsertionMode::InHead => &place::IN_HEAD_FOR_END,
        InsertionMode::InHeadNoscript => &place::IN_HEAD_NOSCRIPT_FOR_END,
        InsertionMode::AfterHead => &place::AFTER_HEAD_FOR_END,
        InsertionMode::InBody => &place::IN_BODY_FOR_END,
        InsertionMode::Text => &place::TEXT_FOR_END,
        InsertionMode::InTable => &place::IN_TABLE_FOR_END,
        InsertionMode::InTableText => &place::IN_TABLE_TEXT_FOR_END,
        InsertionMode::InCaption => &place::IN_CAPTION_FOR_END,
        InsertionMode::InColumnGroup => &place::IN_COLUMN_GROUP_FOR_END,
        InsertionMode::InTableBody => &place::IN_TABLE_BODY_FOR_END,
        InsertionMode::InRow => &place::IN_ROW_FOR_END,
        InsertionMode::InCell => &place::IN_CELL_FOR_END,
        InsertionMode::InTemplate => &place::IN_TEMPLATE_FOR_END,
        InsertionMode::AfterBody => &place::AFTER_BODY_FOR_END,
        InsertionMode::InFrameset => &place::IN_FRAMESET_FOR_END,
        InsertionMode::AfterFrameset => &place::AFTER_FRAMESET_FOR_END,
        InsertionMode::AfterAfterBody => &place::AFTER_AFTER_BODY_FOR_END,
        InsertionMode::AfterAfterFrameset => &place::AFTER_AFTER_FRAMESET_FOR_END,
    }
}

/// The place of the first row of a mode for tags of a kind, for each family of names.
fn places(mode: InsertionMode, kind: TagKind) -> &'static [u8]
    ensures { result.now ≡ places kind mode }
{
    match kind {
        TagKind::StartTag => start_places(mode),
        TagKind::EndTag => end_places(mode),
    }
}

/// How many rows of a mode come before the first that is for a tag of a kind with that name, if it is known, or with one that is not known.
pub fn rows_before(mode: InsertionMode, kind: TagKind, name: Option<KnownName>) -> usize
    requires { IfSome name (λ known. known.place < length names) }
    ensures { result ≡ rows_before kind (sets_of name) (rows mode) }
{
    usize::from(places(mode, kind)[family_of(name)])
}
