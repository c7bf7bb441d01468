//! How many attributes of a tag repeat one before them.

use std::marker::Model;

/// How many attributes of the tag that is read repeat one before them, beyond the first that does. That a tag has such is
/// kept with it, and nothing but the number of errors goes by how many they are: so a contract sees nothing of the number.
#[derive(Drop)]
pub struct Repeats {
    count: u64,
}

impl Model for Repeats {
    ghost Value = { Unit {0} };

    ghost view = { λ _. tt };
}

impl Repeats {
    /// None yet.
    pub fn none() -> Repeats {
        Repeats { count: 0 }
    }

    /// One more.
    pub fn add(&mut self) {
        self.count = self.count.saturating_add(1);
    }

    /// How many they are.
    pub fn count(&self) -> u64 {
        self.count
    }
}
