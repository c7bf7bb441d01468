//! The words with which the program was started.
use figpliers_program::PageFault;
use std::env::{Env, FillError};

/// How many bytes a word's first room has, as a power of two.
const FIRST_ROOM: u32 = 8;

/// How many bytes a word's last room has, as a power of two.
const LAST_ROOM: u32 = 32;

/// The word at a place, with U+FFFD for what is not UTF-8, as where it names a file; nothing after the last word.
fn word_at(rt: &HostRuntime, place: usize) -> Result<Option<String>, PageFault> {
    let mut room: Vec<u8> = Vec::new(rt.alloc());
    for power in FIRST_ROOM..LAST_ROOM {
        room.resize(1 << power, 0)?;
        match rt.arg(place, room.as_mut_slice()) {
            Ok(length) => {
                let word = String::from_utf8_lossy(rt.alloc(), &room[..length])?;
                return Ok(Some(word));
            }
            Err(FillError::NotPresent) => return Ok(None),
            Err(FillError::TooLong) => {}
        }
    }
    Err(PageFault::Memory)
}

/// The words, the first of which is the program's name.
pub fn words(rt: &HostRuntime) -> Result<Vec<String>, PageFault> {
    let mut words = Vec::new(rt.alloc());
    for place in 0..usize::MAX {
        let Some(word) = word_at(rt, place)? else {
            break;
        };
        if words.push(word).is_err() {
            return Err(PageFault::Memory);
        }
    }
    Ok(words)
}
