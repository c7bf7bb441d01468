//! Places of rows by a hash of their names, which are tried before a search.

use crate::references::ReferenceRow;
use std::alloc::{AllocError, Global};

// Where rows may stand. Nothing is claimed of it: of names with one hash the last has the slot, and the others are searched.
#[derive(Debug, Drop)]
pub struct Hints {
    // By hash, the place of a row, or 0. A power of two of them, at least four times as many as there are rows.
    slots: Vec<u16>,
}

// A number that few names share, by the first bytes of a name.
fn hash_of(name: &[u8]) -> usize {
    let mut hash: u32 = 0;
    for byte in &name[..name.len().min(40)] {
        hash = hash.wrapping_mul(31).wrapping_add(u32::from(*byte));
    }
    (hash ^ hash >> 15) as usize
}

// How many slots there are for so many rows.
fn slot_count(rows: usize) -> usize {
    (4 * rows.min(0x10000))
        .checked_next_power_of_two()
        .unwrap_or(1)
}

impl Hints {
    // Hints to the places of these rows, but for those past 65535.
    pub fn new(alloc: Global, rows: &[ReferenceRow]) -> Result<Hints, AllocError> {
        let count = slot_count(rows.len());
        let mut slots = Vec::with_capacity(alloc, count)?;
        slots.resize(count, 0)?;
        let mut hints = Hints { slots };
        for (place, row) in rows.iter().enumerate() {
            hints.note(row.name.as_str().as_bytes(), place);
        }
        Ok(hints)
    }

    // Hints of their own to the same places.
    pub fn copy(&self, alloc: Global) -> Result<Hints, AllocError> {
        let slots = Vec::from_slice(alloc, &self.slots)?;
        Ok(Hints { slots })
    }

    // The slot of a name, or a number past all slots.
    #[inline(always)]
    fn slot_of(&self, name: &[u8]) -> usize {
        hash_of(name) & self.slots.len().wrapping_sub(1)
    }

    // Notes where a name stands.
    fn note(&mut self, name: &[u8], place: usize) {
        let slot = self.slot_of(name);
        if let (Ok(place), Some(noted)) = (u16::try_from(place), self.slots.get_mut(slot)) {
            *noted = place;
        }
    }

    // A place that may be that of a name.
    pub fn place_of(&self, name: &[u8]) -> usize {
        match self.slots.get(self.slot_of(name)) {
            Some(place) => usize::from(*place),
            None => 0,
        }
    }
}
