//! Tests of the devices, and callers that their contracts serve.

mod callers;

use crate::see;
use callers::{Keeper, ReadFault, put_by_loan, read_whole};
use devices::{
    DeviceFault, MemReader, MemWriter, Source, StdSource, StdTarget, Target, write_whole,
};
use std::alloc::{AllocError, Global};
use std::io::Cursor;

const FAULT: Result<usize, DeviceFault> = Err(DeviceFault::Device);

fn read_once<S: Source>(source: &mut S, buffer: &mut [u8]) -> Result<usize, DeviceFault> {
    source.read_some(buffer)
}

fn write_once<T: Target>(target: &mut T, bytes: &[u8]) -> Result<usize, DeviceFault> {
    target.write_some(bytes)
}

fn five_bytes(alloc: Global) -> Result<Vec<u8>, AllocError> {
    Vec::from_slice(alloc, b"abcde")
}

// The most bytes a call, and what four reads of "abcde" into a buffer of three bytes leave there.
const READS: &[(usize, [&[u8; 3]; 4])] = &[
    (1, [b"a..", b"b..", b"c..", b"d.."]),
    (2, [b"ab.", b"cd.", b"e..", b"..."]),
    (9, [b"abc", b"de.", b"...", b"..."]),
];

// Whether a read leaves this.
fn reads(reader: &mut MemReader, given: &[u8; 3]) -> bool {
    let mut buffer = *b"...";
    read_once(reader, &mut buffer).is_ok() && buffer == *given
}

fn reads_each(alloc: Global, row: &(usize, [&[u8; 3]; 4])) -> bool {
    if row.0 == 0 {
        return false;
    }
    match five_bytes(alloc) {
        Ok(bytes) => are_read(&mut MemReader::new(bytes, row.0, None), &row.1),
        Err(_) => false,
    }
}

// Whether reads leave these.
fn are_read(reader: &mut MemReader, wanted: &[&[u8; 3]; 4]) -> bool {
    for given in wanted {
        if !reads(reader, *given) {
            return false;
        }
    }
    true
}

fn reads_nothing(reader: &mut MemReader) -> bool {
    read_once(reader, &mut []) == Ok(0)
        && read_once(reader, &mut []) == FAULT
        && read_once(reader, &mut [0; 2]) == Ok(1)
}

fn five_are_not_read(alloc: Global) -> bool {
    let Ok(bytes) = five_bytes(alloc) else {
        return false;
    };
    reads_nothing(&mut MemReader::new(bytes, 1, Some(2)))
}

#[test]
fn reads_once_a_call(rt: HostRuntime) {
    for row in READS {
        assert!(rt; reads_each(rt.alloc(), row), "{}", row.0);
    }
    assert!(rt; five_are_not_read(rt.alloc()));
}

// The call that fails, whether the reading comes to it, and what the calls after it give: as if it had not been made.
const FAILED: &[(Option<u64>, bool, &str)] = &[
    (Some(1), true, "abcde"),
    (Some(2), true, "cde"),
    (Some(3), true, "e"),
    (Some(4), true, ""),
    (None, false, "abcde"),
    (Some(0), false, "abcde"),
    (Some(5), false, "abcde"),
];

// Whether the rest of a reader is this.
fn has_left(alloc: Global, reader: &mut MemReader, rest: &str) -> bool {
    let Ok(bytes) = read_whole(alloc, reader) else {
        return false;
    };
    bytes.as_slice() == rest.as_bytes()
}

// Whether a reader refuses to read.
fn fails(alloc: Global, reader: &mut MemReader) -> bool {
    matches!(read_whole(alloc, reader), Err(ReadFault::Read))
}

fn fails_once(alloc: Global, row: &(Option<u64>, bool, &str)) -> bool {
    let Ok(bytes) = five_bytes(alloc) else {
        return false;
    };
    let mut reader = MemReader::new(bytes, 2, row.0);
    (!row.1 || fails(alloc, &mut reader)) && has_left(alloc, &mut reader, row.2)
}

#[test]
fn reads_fail_once_or_never(rt: HostRuntime) {
    for row in FAILED {
        see(&rt, fails_once(rt.alloc(), row), row.2);
    }
}

/// What is asked of a writer.
enum Asked {
    /// That three writes of "abc" answer this.
    Thrice(&'static [Result<usize, DeviceFault>]),
    /// That a write of nothing answers this, that nothing is then written in whole, and "a" after it, or not.
    Nothing(Result<usize, DeviceFault>, bool),
    /// That "abcde" is written in whole, or is not.
    Whole(bool),
}

/// Room and the most bytes a call, which call fails and whether by 0, what is asked, and what stands then.
type Row = ((usize, usize), (Option<u64>, bool), Asked, &'static str);

const WRITES: &[Row] = &[
    (
        (7, 1),
        (None, false),
        Asked::Thrice(&[Ok(1), Ok(1), Ok(1)]),
        "aaa",
    ),
    (
        (7, 2),
        (None, true),
        Asked::Thrice(&[Ok(2), Ok(2), Ok(2)]),
        "ababab",
    ),
    (
        (7, 9),
        (None, false),
        Asked::Thrice(&[Ok(3), Ok(3), Ok(1)]),
        "abcabca",
    ),
    (
        (4, 9),
        (None, true),
        Asked::Thrice(&[Ok(3), Ok(1), FAULT]),
        "abca",
    ),
    (
        (0, 9),
        (None, false),
        Asked::Thrice(&[FAULT, FAULT, FAULT]),
        "",
    ),
    (
        (7, 2),
        (Some(0), false),
        Asked::Thrice(&[Ok(2), Ok(2), Ok(2)]),
        "ababab",
    ),
    (
        (7, 2),
        (Some(1), false),
        Asked::Thrice(&[FAULT, Ok(2), Ok(2)]),
        "abab",
    ),
    (
        (7, 2),
        (Some(2), false),
        Asked::Thrice(&[Ok(2), FAULT, Ok(2)]),
        "abab",
    ),
    (
        (7, 2),
        (Some(3), true),
        Asked::Thrice(&[Ok(2), Ok(2), Ok(0)]),
        "abab",
    ),
    (
        (7, 2),
        (Some(4), true),
        Asked::Thrice(&[Ok(2), Ok(2), Ok(2)]),
        "ababab",
    ),
];

const EMPTY: &[Row] = &[
    ((1, 1), (None, false), Asked::Nothing(Ok(0), true), "a"),
    ((0, 1), (None, false), Asked::Nothing(Ok(0), false), ""),
    ((1, 1), (Some(1), true), Asked::Nothing(Ok(0), true), "a"),
    ((1, 1), (Some(1), false), Asked::Nothing(FAULT, true), "a"),
];

const WHOLE: &[Row] = &[
    ((5, 2), (Some(4), false), Asked::Whole(true), "abcde"),
    ((5, 2), (Some(4), true), Asked::Whole(true), "abcde"),
    ((5, 2), (Some(3), false), Asked::Whole(false), "abcd"),
    ((5, 2), (Some(3), true), Asked::Whole(false), "abcd"),
    ((5, 2), (Some(2), false), Asked::Whole(false), "ab"),
    ((5, 2), (Some(2), true), Asked::Whole(false), "ab"),
    ((5, 2), (Some(1), false), Asked::Whole(false), ""),
    ((5, 2), (Some(1), true), Asked::Whole(false), ""),
    ((4, 2), (Some(4), false), Asked::Whole(false), "abcd"),
    ((4, 2), (Some(4), true), Asked::Whole(false), "abcd"),
    ((0, 2), (Some(4), false), Asked::Whole(false), ""),
    ((0, 2), (Some(4), true), Asked::Whole(false), ""),
];

const TABLES: &[&[Row]] = &[WRITES, EMPTY, WHOLE];

// Whether writes of "abc" answer so.
fn writes_each(writer: &mut MemWriter, answers: &[Result<usize, DeviceFault>]) -> bool {
    for answer in answers {
        if write_once(&mut *writer, b"abc") != *answer {
            return false;
        }
    }
    true
}

fn writes_nothing(writer: &mut MemWriter, answer: &Result<usize, DeviceFault>) -> bool {
    write_once(&mut *writer, b"") == *answer && write_whole(&mut *writer, b"").is_ok()
}

fn answers(writer: &mut MemWriter, asked: &Asked) -> bool {
    match asked {
        Asked::Thrice(answers) => writes_each(writer, answers),
        Asked::Nothing(answer, has_room) => {
            writes_nothing(writer, answer) && write_once(writer, b"a").is_ok() == *has_room
        }
        Asked::Whole(has_room) => write_whole(writer, b"abcde").is_ok() == *has_room,
    }
}

fn is_written(alloc: Global, row: &Row) -> bool {
    let (room, piece) = row.0;
    let (fail_at, zero) = row.1;
    if piece == 0 {
        return false;
    }
    match MemWriter::new(alloc, room, piece, fail_at, zero) {
        Ok(mut writer) => { answers(&mut writer, &row.2) && writer.written() == row.3.as_bytes() }
        Err(_) => false,
    }
}

#[test]
fn writes_once_nothing_and_the_whole(rt: HostRuntime) {
    for &rows in TABLES {
        for row in rows {
            see(&rt, is_written(rt.alloc(), row), row.3);
        }
    }
}

fn is_put(writer: &mut MemWriter) -> bool {
    put_by_loan(&mut *writer, b"abc").is_ok() && put_by_loan(&mut &mut *writer, b"def").is_ok()
}

fn is_kept(keeper: &mut Keeper<MemWriter>) -> bool {
    keeper.put(b"ghi").is_ok()
        && keeper.put(b"j").is_err()
        && keeper.inner.written() == b"abcdefghi".as_slice()
}

fn is_lent(alloc: Global) -> bool {
    let Ok(mut writer) = MemWriter::new(alloc, 9, 2, None, false) else {
        return false;
    };
    is_put(&mut writer) && is_kept(&mut Keeper { inner: writer })
}

#[test]
fn writes_through_loans(rt: HostRuntime) {
    assert!(rt; is_lent(rt.alloc()));
}

// Whether the rest of a source is this.
fn is_rest(alloc: Global, source: &mut StdSource<Cursor<&[u8]>>, rest: &[u8]) -> bool {
    let Ok(bytes) = read_whole(alloc, &mut &mut *source) else {
        return false;
    };
    bytes.as_slice() == rest
}

fn is_wrapped_read(alloc: Global) -> bool {
    let mut source = StdSource::new(Cursor::new(b"abcde".as_slice()));
    let mut buffer = [0; 2];
    read_once(&mut source, &mut buffer) == Ok(2)
        && buffer == *b"ab"
        && is_rest(alloc, &mut source, b"cde")
        && source.into_inner().position() == 5
}

fn is_wrapped_write() -> bool {
    let mut target = StdTarget::new(Cursor::new([0; 4]));
    let first = write_once(&mut target, b"abc");
    let second = write_once(&mut target, b"def");
    let third = write_whole(&mut target, b"g");
    let flushed = target.flush();
    first == Ok(3)
        && second == Ok(1)
        && third.is_err()
        && flushed.is_ok()
        && target.into_inner().into_inner() == *b"abcd"
}

#[test]
fn wraps_readers_and_writers(rt: HostRuntime) {
    assert!(rt; is_wrapped_read(rt.alloc()));
    assert!(rt; is_wrapped_write());
}
