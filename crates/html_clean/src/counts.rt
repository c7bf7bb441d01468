//! What cleaning took away, counted.
ghost use Rattle.std.specs.Prelude.{◌≡◌, ◌-◌};
ghost use Rattle.html_clean.specs.Counts.{comment_counted, counted_up, start_counted};

use crate::elements::Fate;

/// What cleaning took away, counted by kind; each number stops at `u64::MAX`. What stands in an element that was dropped isn't counted.
#[derive(Clone, Copy, Debug, Default, PartialEq, Eq, Hash)]
pub struct Cleaned {
    /// Elements that gave way to what stands in them.
    pub unwrapped: u64,
    /// Elements that were dropped with what stands in them.
    pub dropped: u64,
    /// Attributes of elements that were kept.
    pub attributes: u64,
    /// Comments and processing instructions.
    pub comments: u64,
}

/// A number, and so many more.
fn counted_up(count: u64, more: u64) -> u64
    ensures { result ≡ counted_up count more }
{
    count.saturating_add(more)
}

impl Cleaned {
    /// The same, after the start tag of an element that lost so many attributes.
    pub(crate) fn start_counted(self, hidden: bool, fate: Fate, lost: u64) -> Cleaned
        ensures { result ≡ start_counted hidden fate lost self }
    {
        if hidden {
            return self;
        }
        match fate {
            Fate::Kept => Cleaned {
                attributes: counted_up(self.attributes, lost),
                ..self
            },
            Fate::Dropped => Cleaned {
                dropped: counted_up(self.dropped, 1),
                ..self
            },
            Fate::Unwrapped => Cleaned {
                unwrapped: counted_up(self.unwrapped, 1),
                ..self
            },
        }
    }

    /// The same, after a comment or a processing instruction.
    pub(crate) fn comment_counted(self, hidden: bool) -> Cleaned
        ensures { result ≡ comment_counted hidden self }
    {
        if hidden {
            return self;
        }
        Cleaned {
            comments: counted_up(self.comments, 1),
            ..self
        }
    }
}
