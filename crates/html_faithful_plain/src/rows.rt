//! Worked rows of page templates, computed by the check.
ghost use Rattle.html_faithful_plain.specs.TemplateRows.{AreTemplatesChecked};

/// Templates that pass the check, and templates that don't: with a hole in a script, in `pre`, in the `type` of an `input`, for blocks in a
/// paragraph.
pub fn templates_are_checked()
    ensures { AreTemplatesChecked }
{}
