//! The ways in which a row is run, and what is compared.
ghost use Rattle.std.specs.Prelude.{◌≡◌};
ghost use Rattle.std.specs.Str.{bytes_eq};

/// How a row is run: with all parse errors, or with those that are reported by default; and in pieces of how many characters, where 0 is
/// the whole text at once.
#[derive(Clone, Copy)]
pub struct How {
    pub exact: bool,
    pub piece: usize,
}

impl How {
    /// In words.
    pub fn words(self) -> &'static str {
        match (self.exact, self.piece) {
            (false, 0) => "read whole",
            (false, 1) => "read in single characters",
            (false, _) => "read in threes",
            (true, 0) => "read whole, with all errors",
            (true, 1) => "read in single characters, with all errors",
            (true, _) => "read in threes, with all errors",
        }
    }
}

/// Each way in which a row is run.
pub const HOWS: &[How] = &[
    How {
        exact: false,
        piece: 0,
    },
    How {
        exact: false,
        piece: 1,
    },
    How {
        exact: false,
        piece: 3,
    },
    How {
        exact: true,
        piece: 0,
    },
    How {
        exact: true,
        piece: 1,
    },
    How {
        exact: true,
        piece: 3,
    },
];

/// Whether what is seen is what is expected.
pub fn is_as_expected(expected: &str, seen: &str) -> bool
    ensures { result ≡ bytes_eq expected.now seen.now }
{
    expected == seen
}
