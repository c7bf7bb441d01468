//! Places in a text, and how far a text was gone through.
ghost use Rattle.std.specs.Prelude.{◌≡◌, []};
ghost use Rattle.std.specs.Str.{chars};
ghost use Rattle.html_places.specs.Places.{is_before};
ghost use Rattle.html_places.specs.Fronts.{IsFront, next_place, passed, passed_all, stays};

/// A place in a text: before one of its characters, or at its end. U+000D, U+000A and both as one end a line (HTML Standard, section
/// 13.2.3.5); a byte order mark at the front of the text takes no column.
#[derive(Clone, Copy, Debug, PartialEq, Eq)]
pub struct Place {
    /// The line, counted from 1.
    pub line: u64,
    /// The column, counted from 1 in characters.
    pub column: u64,
}

impl Place {
    /// Whether it is before another.
    pub fn is_before(self, other: Place) -> bool
        ensures { result ≡ is_before self other }
    {
        self.line < other.line || self.line == other.line && self.column < other.column
    }
}

/// How far a text was gone through.
#[derive(Clone, Copy)]
pub(crate) struct Front {
    /// The place after what was gone through.
    pub(crate) place: Place,
    /// Whether that is anything.
    has_begun: bool,
    /// Whether that ends with U+000D.
    is_return: bool,
}

/// The place after a character that stays there, or that ends a line or does not.
fn next_place(place: Place, stays: bool, ends_line: bool) -> Place
    ensures { result ≡ next_place stays ends_line place }
{
    if stays {
        place
    } else if ends_line {
        Place {
            line: place.line.saturating_add(1),
            column: 1,
        }
    } else {
        Place {
            line: place.line,
            column: place.column.saturating_add(1),
        }
    }
}

impl Front {
    /// Before the text.
    pub(crate) fn new() -> Front
        ensures { IsFront [] result }
    {
        Front {
            place: Place { line: 1, column: 1 },
            has_begun: false,
            is_return: false,
        }
    }

    /// Whether a character stands at the place before it: the second of a line end, and a byte order mark at the front.
    fn stays_at(&self, c: char) -> bool
        ensures { result ≡ stays self.now.has_begun self.now.is_return c }
    {
        if c == '\n' {
            self.is_return
        } else {
            c == '\u{FEFF}' && !self.has_begun
        }
    }

    /// Goes past a character.
    fn pass(&mut self, c: char)
        ensures { self.new ≡ passed self.old c }
    {
        let stays = self.stays_at(c);
        self.place = next_place(self.place, stays, c == '\n' || c == '\r');
        self.has_begun = true;
        self.is_return = c == '\r';
    }

    /// Whether what was gone through ends with U+000D.
    pub(crate) fn is_return(&self) -> bool {
        self.is_return
    }

    /// Goes past the characters of a text.
    pub(crate) fn pass_all(&mut self, text: &str)
        ensures { self.new ≡ passed_all self.old (chars text.now) }
    {
        for c in text.chars() {
            self.pass(c);
        }
    }
}
