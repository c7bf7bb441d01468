//! The "in head noscript" insertion mode (HTML Standard, section 13.2.6.4.5).
ghost use Rattle.std.specs.Prelude.{◌≡◌};
ghost use Rattle.html_rules.specs.Modes.InHeadNoscript.{in_head_noscript};
ghost use Rattle.html_modes.specs.Tables.{rows_of};

use crate::table::Action::{Nothing, ParseError, Pop, SwitchTo};
use crate::table::Class::{AnyEndTag, AnythingElse, Comment, EndTags, StartTags, WhiteSpace};
use crate::table::Conclusion::{Done, Reprocess, Using};
use crate::table::{Row, row};
use html_rules::{InsertionMode, TagSet};

const IN_HEAD_NOSCRIPT: &[Row] = &[
    row!(
        StartTags(TagSet::Html),
        [Nothing],
        Using(InsertionMode::InBody)
    ),
    row!(
        EndTags(TagSet::Noscript),
        [Pop, SwitchTo(InsertionMode::InHead)],
        Done
    ),
    row!(WhiteSpace, [Nothing], Using(InsertionMode::InHead)),
    row!(Comment, [Nothing], Using(InsertionMode::InHead)),
    row!(
        StartTags(TagSet::NoscriptContent),
        [Nothing],
        Using(InsertionMode::InHead)
    ),
    row!(
        EndTags(TagSet::Br),
        [ParseError, Pop],
        Reprocess(InsertionMode::InHead)
    ),
    row!(StartTags(TagSet::HeadNoscript), [ParseError], Done),
    row!(AnyEndTag, [ParseError], Done),
    row!(
        AnythingElse,
        [ParseError, Pop],
        Reprocess(InsertionMode::InHead)
    ),
];

/// The rows.
pub(crate) fn rows() -> &'static [Row]
    ensures { rows_of result.now ≡ in_head_noscript }
{
    IN_HEAD_NOSCRIPT
}
