//! Texts, and what is left of them.
ghost use Rattle.std.specs.Prelude.{◌≡◌, [], MatchOption};
ghost use Rattle.std.specs.Str.{chars};
ghost use Rattle.html_rules.specs.Step.{after_line_feed};
ghost use Rattle.html_tree_builder.specs.Texts.{IsSplit};

/// The first character of a text, and what stands after it.
pub(crate) fn split_first(text: &str) -> Option<(&str, &str)>
    ensures { MatchOption result (chars text.now ≡ []) (λ parts. IsSplit text.now parts.0.now parts.1.now) }
{
    let first = text.chars().next()?;
    Some(text.split_at(first.len_utf8()))
}

/// A text after the line feed at its front, if that is to be dropped.
pub(crate) fn after_line_feed(ignore_lf: bool, text: &str) -> &str
    ensures { chars result.now ≡ after_line_feed ignore_lf (chars text.now) }
{
    if !ignore_lf {
        return text;
    }
    if text.is_empty() {
        return text;
    }
    if text.as_bytes()[0] == b'\n' {
        &text[1..]
    } else {
        text
    }
}
