//! Tests of writes that are gathered.

use crate::see;
use devices::{MemWriter, write_whole};
use gathered_writes::Gathered;
use std::alloc::Global;

// Which write of two bytes at most fails, texts and whether they are taken, whether what is held is then handed on, and what was written.
const ROWS: &[(Option<u64>, &[(&str, bool)], bool, &str)] = &[
    (
        None,
        &[("ab", true), ("cd", true), ("e", true), ("fghij", true)],
        true,
        "abcdefghij",
    ),
    (None, &[("", true), ("abcdefgh", true)], true, "abcdefgh"),
    (
        Some(1),
        &[("ab", true), ("cde", false), ("c", true)],
        true,
        "abc",
    ),
    (Some(2), &[("abcd", true), ("e", false)], true, "abcd"),
    (Some(2), &[("abcd", true)], false, "ab"),
    (Some(1), &[("abcde", false), ("fg", true)], true, "fg"),
];

// Whether texts are taken, or are not, before what is held is handed on.
fn are_taken(
    alloc: Global,
    writer: &mut MemWriter,
    texts: &[(&str, bool)],
    is_flushed: bool,
) -> bool {
    let Ok(mut gathered) = Gathered::new(alloc, writer, 4) else {
        return false;
    };
    for (text, is_taken) in texts {
        if write_whole(&mut gathered, text.as_bytes()).is_ok() != *is_taken {
            return false;
        }
    }
    gathered.flush().is_ok() == is_flushed
}

fn is_gathered(alloc: Global, row: &(Option<u64>, &[(&str, bool)], bool, &str)) -> bool {
    let Ok(mut writer) = MemWriter::new(alloc, 20, 2, row.0, false) else {
        return false;
    };
    are_taken(alloc, &mut writer, row.1, row.2) && writer.written() == row.3.as_bytes()
}

#[test]
fn writes_are_gathered(rt: HostRuntime) {
    for row in ROWS {
        see(&rt, is_gathered(rt.alloc(), row), row.3);
    }
}
