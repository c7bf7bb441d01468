//! Laws of plain documents. Each function's contract is one law.
ghost use Rattle.html_faithful_plain.specs.Plain.{ArePlainDocumentsFaithful};
ghost use Rattle.html_faithful_plain.specs.PlainHoles.{ArePlainTreesAlike};
ghost use Rattle.html_faithful_plain.specs.Template.{AreTemplatesFilled};

/// Each plain document is faithful, written where scripts run or do not.
pub fn plain_documents_are_faithful()
    ensures { ArePlainDocumentsFaithful }
{}

/// In a hole of a page template for flow content, or for a line, any plain trees are like any others, so that a page is as faithful with
/// these as with those.
pub fn plain_trees_are_alike()
    ensures { ArePlainTreesAlike }
{}

/// A page template with any number of holes is checked once. Then, whatever is put into them, the page is faithful: texts and values of
/// attributes without U+0000 and U+000D, and plain trees.
pub fn templates_are_filled()
    ensures { AreTemplatesFilled }
{}
