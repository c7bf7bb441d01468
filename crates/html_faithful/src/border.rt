//! Pairs of bodies at the border of faithful documents, computed by the check: blocks in a paragraph, links in links, items, forms,
//! tables, line feeds first in `pre`, raw text, comments, names, foreign content, templates and void elements.
ghost use Rattle.html_faithful.specs.Border.{AreFirstInside, AreFirstOutside, AreMoreInside, AreMoreOutside};

/// The first of each pair is faithful.
pub fn bodies_are_first_inside()
    ensures { AreFirstInside }
{}

/// So are these.
pub fn bodies_are_more_inside()
    ensures { AreMoreInside }
{}

/// The second of each pair is not.
pub fn bodies_are_first_outside()
    ensures { AreFirstOutside }
{}

/// Nor are these.
pub fn bodies_are_more_outside()
    ensures { AreMoreOutside }
{}
