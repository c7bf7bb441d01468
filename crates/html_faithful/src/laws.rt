//! Laws of faithful trees. Each function's contract is one law.
ghost use Rattle.html_faithful.specs.Around.{AreTreesPlanted};
ghost use Rattle.html_faithful.specs.Begins.{DoDocumentsBegin};
ghost use Rattle.html_faithful.specs.Faces.{AreConditionsSeen, AreRowsSeen, IsForeignSeen};
ghost use Rattle.html_faithful.specs.Holes.{AreAttributesAlike, AreHolesFilled, AreTextsAlike};
ghost use Rattle.html_faithful.specs.Keeping.{AreSpotsKept};
ghost use Rattle.html_faithful.specs.Listing.{AreListsHarmless, AreListsKept};
ghost use Rattle.html_faithful.specs.Numbers.{AreNumbersKept};
ghost use Rattle.html_faithful.specs.Planted.{AreDocumentsPlanted};
ghost use Rattle.html_faithful.specs.Planting.{ArePlantedTreesShown};
ghost use Rattle.html_faithful.specs.Pointing.{ArePointsGiven};
ghost use Rattle.html_faithful.specs.Steps.{AreActionsFollowed};
ghost use Rattle.html_faithful.specs.Tags.{AreTagsFollowed};
ghost use Rattle.html_faithful.specs.Texts.{AreTextsFollowed};
ghost use Rattle.html_faithful.specs.Turns.{AreTokensFollowed, AreTokensFollowedWithin};
ghost use Rattle.html_faithful.specs.Values.{AreValuesAlike};
ghost use Rattle.html_faithful.specs.Waiting.{DoesWhiteSpaceWait};
ghost use Rattle.html_faithful.specs.Ways.{ArePathsFollowed};

/// A condition of a row holds in a state exactly if it holds at the spot where the state stands.
pub fn conditions_are_seen()
    ensures { AreConditionsSeen }
{}

/// The rules meet the same row.
pub fn rows_are_seen()
    ensures { AreRowsSeen }
{}

/// And by the rules of foreign content or not.
pub fn foreign_content_is_seen()
    ensures { IsForeignSeen }
{}

/// An action that does no harm at a spot does to a state that stands there just what was made of it.
pub fn actions_are_followed()
    ensures { AreActionsFollowed }
{}

/// Where the list is that of the path, nothing is opened again, and the adoption agency only closes the current node.
pub fn lists_are_harmless()
    ensures { AreListsHarmless }
{}

/// A token of which something is made at a spot is settled so by the rules, in each state that stands there.
pub fn tokens_are_followed()
    ensures { AreTokensFollowed }
{}

/// The list is that of the path where elements are opened and closed, if it was before.
pub fn lists_are_kept()
    ensures { AreListsKept }
{}

/// The state after the doctype stands at the first spot.
pub fn documents_begin()
    ensures { DoDocumentsBegin }
{}

/// Between tokens what is asked of the form element pointer and of the list follows from what is open.
pub fn points_are_given()
    ensures { ArePointsGiven }
{}

/// Open elements have numbers of nodes that are there, no two the same, also once another is opened.
pub fn numbers_are_kept()
    ensures { AreNumbersKept }
{}

/// The path of the spot that comes of a token has one element more, one less, or is as before.
pub fn paths_are_followed()
    ensures { ArePathsFollowed }
{}

/// What is asked of a state at a spot between tokens holds again after each token that keeps the list and the form pointer those of
/// the path.
pub fn spots_are_kept()
    ensures { AreSpotsKept }
{}

/// At a spot where an element is faithful its start tag puts and opens just that element, its end tag closes it, and as much is
/// asked of the state again.
pub fn tags_are_followed()
    ensures { AreTagsFollowed }
{}

/// A text that is faithful at a spot is put in the current node, character by character, and as much is asked of the state again.
pub fn texts_are_followed()
    ensures { AreTextsFollowed }
{}

/// From a state at a spot the tokens of trees that are faithful there put just those trees where they stand, in the document, in the root
/// or deeper, and leave a state at the spot where the walk ends, once white space was put that waits in a table.
pub fn trees_are_planted()
    ensures { AreTreesPlanted }
{}

/// What follows the doctype of a document is put just there, if it is faithful.
pub fn documents_are_planted()
    ensures { AreDocumentsPlanted }
{}

/// Four turns are enough for such a token.
pub fn tokens_are_followed_within()
    ensures { AreTokensFollowedWithin }
{}

/// Trees that are planted come last in their place, nothing else changes, and they are the trees of the new nodes there.
pub fn planted_trees_are_shown()
    ensures { ArePlantedTreesShown }
{}

/// White space in a part of a table waits, and is put before the next tag or comment, to which nothing else is done (HTML Standard, section
/// 13.2.6.4.10).
pub fn white_space_waits()
    ensures { DoesWhiteSpaceWait }
{}

/// A page template is judged once: with a value in a hole that is like another there, a document is as faithful as with the other.
/// Values are alike if they lead from the spot of the hole to one spot.
pub fn holes_are_filled()
    ensures { AreHolesFilled }
{}

/// In a hole for text any text is like any other; in raw text, as of `script` and `style`, where nothing is escaped, only if both come
/// back as they are written, or neither.
pub fn texts_are_alike()
    ensures { AreTextsAlike }
{}

/// An element with some attributes is like the same element with others with which its start tag is taken alike.
pub fn attributes_are_alike()
    ensures { AreAttributesAlike }
{}

/// So it is with other values of these attributes, whatever they are, but for `type` of an `input`, as far as it is `hidden`, and
/// `shadowrootmode`: a value that is put into an attribute needs no judging.
pub fn values_are_alike()
    ensures { AreValuesAlike }
{}
