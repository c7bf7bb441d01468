//! How many rows were run, and how many of them differ.
ghost use Rattle.std.specs.Prelude.{◌≡◌, ◌<◌, ◌≤◌, IsTrue};

/// How many rows were run, and how many of them differ.
#[derive(Drop)]
pub struct Counts {
    pub rows: u64,
    pub different: u64,
}

impl Counts {
    /// No row was run.
    pub fn new() -> Counts
        ensures rows { result.rows ≡ 0 }
        ensures different { result.different ≡ 0 }
    {
        Counts {
            rows: 0,
            different: 0,
        }
    }

    /// Counts a row, which differs or not.
    pub fn count(&mut self, differs: bool)
        ensures counted { IsTrue differs → 0 < self.new.different }
        ensures kept { self.old.different ≤ self.new.different }
    {
        self.rows = self.rows.saturating_add(1);
        if differs {
            self.different = self.different.saturating_add(1);
        }
    }

    /// The exit status of a program that ran them: 0 where no row differs, 1 where one does, 2 where there is no row.
    pub fn status(&self) -> u8
        ensures there { result ≡ 0 → 0 < self.now.rows }
        ensures alike { result ≡ 0 → self.now.different ≡ 0 }
    {
        if self.rows == 0 {
            2
        } else if self.different > 0 {
            1
        } else {
            0
        }
    }
}
