//! Devices that fail at each call, and a deep page.

use crate::tests::{Devices, WHOLE, is_normal, plain, reader_of};
use devices::{MemReader, StdTarget};
use html_normal::{Exact, NormalFault, References, Report, TableFileFault, normalise, read_table};
use std::alloc::{AllocError, Global};
use std::io::{self, ErrorKind, Write};

/// A page with references and a table, of which each byte takes a read, and the end another.
const PAGE: &str = "<!DOCTYPE html><p>&lt;&amp;<table> <tr><td>1&nbsp;</table>";

/// What is written of it, without an error. Each byte takes a write.
const WRITTEN: &str =
    "<!DOCTYPE html><html><head></head><body><p>&lt;&amp;</p><table> <tbody><tr><td>1&nbsp;</td></tr></tbody></table></body></html>";

/// One byte a read and a write.
const BYTES: Devices = Devices {
    read: 1,
    write: 1,
    ..WHOLE
};

/// Whether the page is answered so, and this front of its text is written.
fn is_page(
    alloc: Global,
    on: &Devices,
    answer: Result<Report, NormalFault>,
    count: usize,
) -> Result<bool, AllocError> {
    let (front, _) = WRITTEN.split_at_checked(count).unwrap_or((WRITTEN, ""));
    is_normal(
        alloc,
        PAGE.as_bytes(),
        on,
        Exact::default(),
        answer,
        front.as_bytes(),
    )
}

/// Whether the read of this number fails, and nothing is written, where there is such a read.
fn is_read_up_to(alloc: Global, call: usize) -> Result<bool, AllocError> {
    let on = Devices {
        read_fails: Some(call as u64),
        ..BYTES
    };
    if call <= PAGE.len() + 1 {
        is_page(alloc, &on, Err(NormalFault::Read), 0)
    } else {
        is_page(alloc, &on, plain(0), WRITTEN.len())
    }
}

#[test]
fn each_read_fails_once(rt: HostRuntime) {
    for call in 1..=PAGE.len() + 2 {
        assert!(rt;
            matches!(is_read_up_to(rt.alloc(), call), Ok(true)),
            "{call}"
        );
    }
}

/// Whether the write after so many bytes fails, and just these are written, where there is such a write.
fn is_written_up_to(alloc: Global, count: usize, zero: bool) -> Result<bool, AllocError> {
    let on = Devices {
        write_fails: Some((count as u64).saturating_add(1)),
        zero,
        ..BYTES
    };
    if count < WRITTEN.len() {
        is_page(alloc, &on, Err(NormalFault::Write), count)
    } else {
        is_page(alloc, &on, plain(0), WRITTEN.len())
    }
}

#[test]
fn each_write_fails_once(rt: HostRuntime) {
    for count in 0..=WRITTEN.len() + 1 {
        for zero in [false, true] {
            let found = is_written_up_to(rt.alloc(), count, zero);
            assert!(rt; matches!(found, Ok(true)), "{count}");
        }
    }
}

/// Whether a short page fails to be written, after these bytes.
fn is_stopped(alloc: Global, on: &Devices, written: &[u8]) -> Result<bool, AllocError> {
    is_normal(
        alloc,
        b"<!DOCTYPE html><p>a<br>b",
        on,
        Exact::default(),
        Err(NormalFault::Write),
        written,
    )
}

/// A writer of which each write is interrupted.
#[derive(Drop)]
struct Interrupted {
    writes: usize,
}

impl Write for Interrupted {
    fn write(&mut self, _buf: &[u8]) -> io::Result<usize> {
        self.writes = self.writes.saturating_add(1);
        Err(io::Error::from(ErrorKind::Interrupted))
    }

    fn flush(&mut self) -> io::Result<()> {
        Ok(())
    }
}

/// Whether an interrupted write is a fault at once.
fn is_interrupted(alloc: Global) -> Result<bool, AllocError> {
    let mut reader = reader_of(alloc, b"<!DOCTYPE html><p>a<br>b", &WHOLE)?;
    let mut writer = StdTarget::new(Interrupted { writes: 0 });
    let Ok(five) = References::five(alloc) else {
        return Err(AllocError);
    };
    let answer = normalise(alloc, &mut reader, &mut writer, five, Exact::default());
    Ok(answer == Err(NormalFault::Write) && writer.into_inner().writes == 1)
}

#[test]
fn writers_stop_early(rt: HostRuntime) {
    let full = Devices { room: 10, ..WHOLE };
    assert!(rt; matches!(is_stopped(rt.alloc(), &full, b"<!DOCTYPE "), Ok(true)));
    for zero in [false, true] {
        let on = Devices {
            write_fails: Some(1),
            zero,
            ..WHOLE
        };
        assert!(rt; matches!(is_stopped(rt.alloc(), &on, b""), Ok(true)));
    }
    assert!(rt; matches!(is_interrupted(rt.alloc()), Ok(true)));
}

/// A table of references, of which each byte takes a read, and the end another.
const TABLE: &[u8] = b"amp; 26\nx 41 42";

/// Whether the read of this number fails, where there is such a read, and else the table is read.
fn is_table_up_to(alloc: Global, call: usize) -> Result<bool, AllocError> {
    let on = Devices {
        read_fails: Some(call as u64),
        ..BYTES
    };
    let mut reader: MemReader = reader_of(alloc, TABLE, &on)?;
    Ok(match read_table(alloc, &mut reader) {
        Ok(_) => call > TABLE.len() + 1,
        Err(fault) => call <= TABLE.len() + 1 && fault == TableFileFault::Read,
    })
}

#[test]
fn each_read_of_a_table_fails_once(rt: HostRuntime) {
    for call in 1..=TABLE.len() + 2 {
        assert!(rt;
            matches!(is_table_up_to(rt.alloc(), call), Ok(true)),
            "{call}"
        );
    }
}

/// How many divisions stand one in another.
const DEPTH: usize = 10_000;

/// Whether a page is plain, with so many errors, and written so, where so many bytes are read and written at once.
fn is_deep(
    alloc: Global,
    input: &str,
    piece: usize,
    errors: u64,
    written: &str,
) -> Result<bool, AllocError> {
    let on = Devices {
        read: piece,
        write: piece,
        room: written.len(),
        ..WHOLE
    };
    is_normal(
        alloc,
        input.as_bytes(),
        &on,
        Exact::default(),
        plain(errors),
        written.as_bytes(),
    )
}

/// Whether divisions that are not closed are closed at the end, with one error, and with none when they are read again.
fn is_closed(alloc: Global) -> Result<bool, AllocError> {
    let starts = "<div>".repeat(alloc, DEPTH)?;
    let ends = "</div>".repeat(alloc, DEPTH)?;
    let input = format!(in alloc; "<!DOCTYPE html>{starts}")?;
    let written = format!(in alloc;
        "<!DOCTYPE html><html><head></head><body>{starts}{ends}</body></html>"
    )?;
    Ok(
        written.len() == 110_054
            && is_deep(alloc, input.as_str(), 4096, 1, written.as_str())?
            && is_deep(alloc, written.as_str(), 1, 0, written.as_str())?,
    )
}

#[test]
fn deep_pages(rt: HostRuntime) {
    assert!(rt; matches!(is_closed(rt.alloc()), Ok(true)));
}
