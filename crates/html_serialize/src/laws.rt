//! Laws of what is written.
ghost use Rattle.html_serialize.specs.Laws.{AreEscapesApart, AreEscapesHarmless};

/// Escaped text has no `<` and no `>`, and in the value of an attribute no `"`.
pub fn escapes_are_harmless()
    ensures { AreEscapesHarmless }
{}

/// Different texts have different escapes, in text and in values.
pub fn escapes_are_apart()
    ensures { AreEscapesApart }
{}
