//! Documents, faults and devices, as tables on the public calls.
ghost use Rattle.std.specs.Prelude.{◌<◌};

use devices::{MemReader, MemWriter};
use html_normal::{
    Exact, NormalFault, ProgramFault, References, Report, TableFault, TableFileFault, normalise,
    read_table,
};
use markup::QuirksMode;
use std::alloc::{AllocError, Global};

// How a document is read and written.
#[derive(Clone, Copy)]
pub(crate) struct Devices {
    pub(crate) read: usize,
    pub(crate) write: usize,
    pub(crate) read_fails: Option<u64>,
    pub(crate) write_fails: Option<u64>,
    pub(crate) zero: bool,
    pub(crate) room: usize,
}

pub(crate) const WHOLE: Devices = Devices {
    read: 4096,
    write: 4096,
    read_fails: None,
    write_fails: None,
    zero: false,
    room: 1000,
};

const BY_BYTE: Devices = Devices {
    read: 1,
    write: 1,
    read_fails: None,
    write_fails: None,
    zero: false,
    room: 1000,
};

// What a normalisation answers, and what it wrote.
#[derive(Drop)]
struct Outcome {
    answer: Result<Report, NormalFault>,
    written: Vec<u8>,
}

pub(crate) fn reader_of(
    alloc: Global,
    bytes: &[u8],
    on: &Devices,
) -> Result<MemReader, AllocError> {
    let bytes = Vec::from_slice(alloc, bytes)?;
    Ok(MemReader::new(bytes, on.read.max(1), on.read_fails))
}

fn writer_of(alloc: Global, on: &Devices) -> Result<MemWriter, AllocError> {
    MemWriter::new(alloc, on.room, on.write.max(1), on.write_fails, on.zero)
}

fn outcome_of(
    alloc: Global,
    reader: &mut MemReader,
    writer: &mut MemWriter,
    exact: Exact,
) -> Result<Outcome, AllocError> {
    let Ok(five) = References::five(alloc) else {
        return Err(AllocError);
    };
    let answer = normalise(alloc, reader, writer, five, exact);
    let written = Vec::from_slice(alloc, writer.written())?;
    Ok(Outcome { answer, written })
}

fn normal(alloc: Global, bytes: &[u8], on: &Devices, exact: Exact) -> Result<Outcome, AllocError> {
    let mut reader = reader_of(alloc, bytes, on)?;
    let mut writer = writer_of(alloc, on)?;
    outcome_of(alloc, &mut reader, &mut writer, exact)
}

/// Whether bytes are answered so, and written as these.
pub(crate) fn is_normal(
    alloc: Global,
    bytes: &[u8],
    on: &Devices,
    exact: Exact,
    answer: Result<Report, NormalFault>,
    written: &[u8],
) -> Result<bool, AllocError> {
    let seen = normal(alloc, bytes, on, exact)?;
    Ok(seen.answer == answer && seen.written.as_slice() == written)
}

pub(crate) fn plain(errors: u64) -> Result<Report, NormalFault> {
    Ok(Report {
        plain: true,
        quirks: QuirksMode::NoQuirks,
        errors,
    })
}

// Bytes after `<!DOCTYPE html><p>`, and how many bytes are text.
const NO_TEXT: &[(&[u8], u64)] = &[
    (b"\xff", 18),
    (b"\xc3\xff", 18),
    (b"a\xc3", 19),
    (b"a\xe2\x82", 19),
    (b"\xe2\x82\xac\xe2\x82a", 21),
    (b"\xf0\x9f\x98", 18),
    (b"\xed\xa0\x80", 18),
    (b"ab\xf5", 20),
];

/// Whether bytes are refused where they are no text, and nothing is written.
fn is_no_text(alloc: Global, bytes: &[u8], at: u64, read: usize) -> Result<bool, AllocError> {
    let mut input = Vec::from_slice(alloc, b"<!DOCTYPE html><p>")?;
    input.extend_from_slice(bytes)?;
    let on = Devices { read, ..WHOLE };
    let answer = Err(NormalFault::NotUtf8 { at });
    is_normal(alloc, input.as_slice(), &on, Exact::default(), answer, b"")
}

#[test]
fn bytes_that_are_no_text(rt: HostRuntime) {
    for &(bytes, at) in NO_TEXT {
        for read in [1, 2, 3, 18, 19, 4096] {
            assert!(rt;
                matches!(is_no_text(rt.alloc(), bytes, at, read), Ok(true)),
                "by {read}"
            );
        }
    }
}

/// Whether a document is plain, without an error, and written so.
fn is_plain(alloc: Global, input: &[u8], on: &Devices, written: &str) -> Result<bool, AllocError> {
    is_normal(
        alloc,
        input,
        on,
        Exact::default(),
        plain(0),
        written.as_bytes(),
    )
}

#[test]
fn characters_cut_at_each_place(rt: HostRuntime) {
    let input = "<!DOCTYPE html><p>é€😀";
    let want = "<!DOCTYPE html><html><head></head><body><p>é€😀</p></body></html>";
    for read in 1..30usize {
        let on = Devices { read, ..WHOLE };
        let found = is_plain(rt.alloc(), input.as_bytes(), &on, want);
        assert!(rt; matches!(found, Ok(true)), "by {read}");
    }
}

/// Whether a read that fails is told, and nothing is written; 18 bytes by fives are four reads and the end.
fn is_read(alloc: Global, fail_at: u64) -> Result<bool, AllocError> {
    let on = Devices {
        read: 5,
        read_fails: Some(fail_at),
        ..WHOLE
    };
    let seen = normal(alloc, b"<!DOCTYPE html>abc", &on, Exact::default())?;
    Ok(if fail_at < 6 {
        seen.answer == Err(NormalFault::Read) && seen.written.is_empty()
    } else {
        seen.answer == plain(0) && !seen.written.is_empty()
    })
}

#[test]
fn readers_that_fail(rt: HostRuntime) {
    for fail_at in 1..7u64 {
        assert!(rt;
            matches!(is_read(rt.alloc(), fail_at), Ok(true)),
            "at {fail_at}"
        );
    }
}

/// Whether a fault is answered where the second read fails, and nothing is written.
fn is_fault(alloc: Global, input: &[u8], fault: NormalFault) -> Result<bool, AllocError> {
    let on = Devices {
        read_fails: Some(2),
        ..WHOLE
    };
    is_normal(alloc, input, &on, Exact::default(), Err(fault), b"")
}

#[test]
fn bytes_at_fault_are_told_before_a_failed_read(rt: HostRuntime) {
    // bytes that begin no text, or end within a character, and then a read that fails
    let rows: &[(&[u8], NormalFault)] = &[
        (b"\xFF", NormalFault::NotUtf8 { at: 0 }),
        (b"<p>\xFF", NormalFault::NotUtf8 { at: 3 }),
        (b"\xC3", NormalFault::Read),
        (b"<p>", NormalFault::Read),
    ];
    for &(input, fault) in rows {
        assert!(rt; matches!(is_fault(rt.alloc(), input, fault), Ok(true)));
    }
}

const SHORT: &[u8] = b"<!DOCTYPE html>a";

const SHORT_WHOLE: &str = "<!DOCTYPE html><html><head></head><body>a</body></html>";

/// Whether a beginning is written where a write failed, and else the whole, which takes more than 6 writes and fewer than 50.
fn is_begun(seen: &Outcome, fail_at: u64) -> bool {
    let written = seen.written.as_slice();
    if written.len() < SHORT_WHOLE.len() {
        seen.answer == Err(NormalFault::Write)
            && fail_at < 50
            && SHORT_WHOLE.as_bytes().starts_with(written)
    } else {
        seen.answer == plain(0) && fail_at > 6 && written == SHORT_WHOLE.as_bytes()
    }
}

fn is_written_up_to(alloc: Global, fail_at: u64, zero: bool) -> Result<bool, AllocError> {
    let on = Devices {
        write: 10,
        write_fails: Some(fail_at),
        zero,
        ..WHOLE
    };
    let seen = normal(alloc, SHORT, &on, Exact::default())?;
    Ok(is_begun(&seen, fail_at))
}

fn fills_its_room(alloc: Global, room: usize) -> Result<bool, AllocError> {
    let on = Devices { room, ..WHOLE };
    let seen = normal(alloc, SHORT, &on, Exact::default())?;
    Ok(seen.answer == Err(NormalFault::Write) && seen.written.len() == room)
}

#[test]
fn writers_that_fail(rt: HostRuntime) {
    // a write or more for each tag and text, none of more than ten bytes
    for zero in [false, true] {
        for fail_at in 1..60u64 {
            let found = is_written_up_to(rt.alloc(), fail_at, zero);
            assert!(rt; matches!(found, Ok(true)), "at {fail_at}");
        }
    }
    assert!(rt; matches!(fills_its_room(rt.alloc(), 20), Ok(true)));
}

const ITEMS: &str = "<!DOCTYPE html><html><head></head><body>a<p>b</p><p></p>c</body></html>";

/// Whether all is written, or memory was refused and a beginning is.
fn is_whole_or_refused(seen: &Outcome) -> bool {
    let written = seen.written.as_slice();
    if written.len() < ITEMS.len() {
        seen.answer == Err(NormalFault::Memory) && ITEMS.as_bytes().starts_with(written)
    } else {
        seen.answer == plain(1) && written == ITEMS.as_bytes()
    }
}

fn is_normal_or_refused(alloc: Global) -> Result<bool, AllocError> {
    let input = b"<!DOCTYPE html> a<p>b</p></p>c";
    let seen = normal(alloc, input, &BY_BYTE, Exact::default())?;
    Ok(is_whole_or_refused(&seen))
}

// With ample memory this is a document like any other; where one allocation is refused, a beginning was written, or nothing.
#[test]
fn memory_that_is_refused(rt: HostRuntime) {
    assert!(rt; !matches!(is_normal_or_refused(rt.alloc()), Ok(false)));
}

/// Whether the program says this line of a fault, and ends with this status.
fn is_line(alloc: Global, fault: ProgramFault, line: &str, status: u8) -> Result<bool, AllocError> {
    let told = fault.to_string(alloc)?;
    Ok(told.as_str() == line && fault.status() == status)
}

const LINES: &[(ProgramFault, &str, u8)] = &[
    (ProgramFault::Usage, "fault: usage: html_normal [TABLE]", 2),
    (
        ProgramFault::Normal(NormalFault::NotUtf8 { at: 18 }),
        "fault: not UTF-8 at byte 18",
        1,
    ),
    (ProgramFault::Normal(NormalFault::Read), "fault: read", 3),
    (ProgramFault::Normal(NormalFault::Write), "fault: write", 3),
    (
        ProgramFault::Normal(NormalFault::Memory),
        "fault: memory",
        4,
    ),
    (
        ProgramFault::Normal(NormalFault::Refused),
        "fault: refused",
        5,
    ),
];

/// Whether the program says this line of a document.
fn is_report(alloc: Global, report: Report, line: &str) -> Result<bool, AllocError> {
    let told = report.to_string(alloc)?;
    Ok(told.as_str() == line)
}

const REPORTS: &[(Report, &str)] = &[
    (
        Report {
            plain: true,
            quirks: QuirksMode::NoQuirks,
            errors: 0,
        },
        "plain=yes quirks=no errors=0",
    ),
    (
        Report {
            plain: false,
            quirks: QuirksMode::LimitedQuirks,
            errors: 1,
        },
        "plain=no quirks=limited errors=1",
    ),
    (
        Report {
            plain: false,
            quirks: QuirksMode::Quirks,
            errors: u64::MAX,
        },
        "plain=no quirks=yes errors=18446744073709551615",
    ),
];

#[test]
fn lines_and_statuses(rt: HostRuntime) {
    for &(fault, line, status) in LINES {
        assert!(rt;
            matches!(is_line(rt.alloc(), fault, line, status), Ok(true)),
            "{line}"
        );
    }
    for &(report, line) in REPORTS {
        assert!(rt;
            matches!(is_report(rt.alloc(), report, line), Ok(true)),
            "{line}"
        );
    }
}

/// The table of a file.
fn table(
    alloc: Global,
    file: &[u8],
    on: &Devices,
) -> Result<Result<References, TableFileFault>, AllocError> {
    let mut reader = reader_of(alloc, file, on)?;
    Ok(read_table(alloc, &mut reader))
}

/// Whether a file has no table, and the program says this of it.
fn is_no_table(
    alloc: Global,
    file: &[u8],
    on: &Devices,
    line: &str,
    status: u8,
) -> Result<bool, AllocError> {
    match table(alloc, file, on)? {
        Ok(_) => Ok(false),
        Err(fault) => is_line(alloc, ProgramFault::from(fault), line, status),
    }
}

#[test]
fn tables_that_are_none(rt: HostRuntime) {
    // a file, and the program's line and status
    let rows: &[(&[u8], &str, u8)] = &[
        (b"x 41\n\xFF", "fault: table: not UTF-8 at byte 5", 2),
        (b"x 41\n\xC3", "fault: table: not UTF-8 at byte 5", 2),
    ];
    for &(file, line, status) in rows {
        for on in [&WHOLE, &BY_BYTE] {
            let found = is_no_table(rt.alloc(), file, on, line, status);
            assert!(rt; matches!(found, Ok(true)), "{line}");
        }
    }
}

/// Whether a table that cannot be read is told so.
fn is_unreadable(alloc: Global) -> Result<bool, AllocError> {
    let on = Devices {
        read_fails: Some(1),
        ..WHOLE
    };
    match table(alloc, b"x 41", &on)? {
        Ok(_) => Ok(false),
        Err(fault) => Ok(fault == TableFileFault::Read && ProgramFault::from(fault).status() == 3),
    }
}

#[test]
fn tables_that_cannot_be_read(rt: HostRuntime) {
    assert!(rt; matches!(is_unreadable(rt.alloc()), Ok(true)));
}

#[test]
fn lines_of_tables(rt: HostRuntime) {
    let rows: &[(TableFileFault, &str, u8)] = &[
        (TableFileFault::Read, "fault: read", 3),
        (TableFileFault::Memory, "fault: memory", 4),
        (
            TableFileFault::Table(TableFault::Memory),
            "fault: memory",
            4,
        ),
    ];
    for &(fault, line, status) in rows {
        let found = is_line(rt.alloc(), ProgramFault::from(fault), line, status);
        assert!(rt; matches!(found, Ok(true)), "{line}");
    }
}
