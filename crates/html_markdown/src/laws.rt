//! What descriptions of images and fences are to a reader of Markdown.
ghost use Rattle.html_markdown.specs.Laws.{AreDescriptionsReadBack, AreFencesLonger};

/// A reader makes of a description the text that it describes, and finds no markup in it.
pub fn descriptions_are_read_back()
    ensures { AreDescriptionsReadBack }
{}

/// A fence is longer than each run of backticks in its text.
pub fn fences_are_longer()
    ensures { AreFencesLonger }
{}
