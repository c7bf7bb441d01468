//! How many documents are judged faithful, and how many are read back.
use std::fmt;

/// What was counted.
#[derive(Default, Drop)]
pub struct Counts {
    /// All documents.
    pub all: u64,
    /// Those that are judged faithful.
    pub faithful: u64,
    /// Those that are read back.
    pub read_back: u64,
    /// Those that are judged faithful, but are not read back.
    pub wrong: u64,
    /// Those that are read back, but are not judged faithful.
    pub missed: u64,
}

fn more(count: u64, is: bool) -> u64 {
    count.saturating_add(u64::from(is))
}

impl Counts {
    /// One more document.
    pub fn take(&mut self, faithful: bool, read_back: bool) {
        self.all = more(self.all, true);
        self.faithful = more(self.faithful, faithful);
        self.read_back = more(self.read_back, read_back);
        self.wrong = more(self.wrong, faithful && !read_back);
        self.missed = more(self.missed, read_back && !faithful);
    }
}

impl fmt::Display for Counts {
    fn fmt<W: fmt::Write>(&self, f: &mut fmt::Formatter<W>) -> fmt::Result {
        write!(
            f,
            "{} documents, {} judged faithful, {} read back; {} judged faithful but not read back, {} read back but not judged faithful",
            self.all, self.faithful, self.read_back, self.wrong, self.missed
        )
    }
}
