//! What nodes stand in.
ghost use Rattle.std.specs.Prelude.{◌≡◌, codes, option_map};
ghost use Rattle.std.specs.Str.{bytes_eq};
ghost use Rattle.html_faithful.specs.Spots.{Spot as HarmlessSpot};
ghost use Rattle.html_faithful.specs.Walk.{below, is_current, may_stay, stands};
ghost use Rattle.html_faithful_judge.specs.Mades.{put_as};
ghost use Rattle.html_faithful_judge.specs.Spots.{spot_of};
ghost use Rattle.html_faithful_walk.specs.Steps.{parent_of};

use crate::names::stays_open;
use html_faithful_judge::made::Put;
use html_faithful_judge::spot::Spot;
use html_rules::TagSet;
use markup::QualName;

/// What nodes stand in.
#[derive(Clone, Copy, Debug)]
pub(crate) enum Parent {
    /// The document.
    Document,
    /// The root.
    Root,
    /// The current node.
    Current,
}

impl Parent {
    /// What the children of an element stand in that stands in this.
    pub(crate) fn below(self) -> Parent
        ensures { parent_of result ≡ below (parent_of self) }
    {
        match self {
            Parent::Document => Parent::Root,
            Parent::Root => Parent::Current,
            Parent::Current => Parent::Current,
        }
    }

    /// Whether this is the current node. A body that ended is still that.
    pub(crate) fn is_current(self, spot: &Spot) -> bool
        ensures { result ≡ is_current (parent_of self) (spot_of spot.now) }
    {
        match self {
            Parent::Document => !spot.is_any_open(),
            Parent::Root => spot.is_root_alone() && !spot.as_stack().has_open(TagSet::Template),
            Parent::Current => true,
        }
    }

    /// Whether what was put stands in this, which was the current node or was not.
    pub(crate) fn holds(self, current: bool, put: &Option<Put>) -> bool
        ensures { (p : HarmlessSpot) → current ≡ is_current (parent_of self) p
            → result ≡ stands (parent_of self) p (option_map put_as put.now) }
    {
        match (put, self) {
            (Some(Put::CommentHere), _) => current,
            (Some(Put::InRoot), Parent::Root) => true,
            (Some(Put::InDocument), Parent::Document) => true,
            _ => false,
        }
    }

    /// Whether an element may stand in this: `html` stands in the document, and `body` in the root.
    pub(crate) fn may_hold(self, name: &QualName) -> bool
        ensures { result ≡ may_stay (parent_of self) name.now }
    {
        match self {
            Parent::Document => name.local.is("html"),
            Parent::Root => true,
            Parent::Current => !stays_open(name),
        }
    }
}
