//! The program `html_normal`: what it writes to standard output and to standard error, and its status, by its words, a file and its input.

ghost use Rattle.std.specs.Prelude.{None};

use devices::{MemReader, MemWriter};
use html_normal_program::{Opener, normalised, tell};
use std::alloc::{AllocError, Global};

/// A disk with one file, of which a read may fail.
#[derive(Drop)]
struct Disk {
    alloc: Global,
    name: &'static str,
    bytes: &'static [u8],
    fails_at: Option<u64>,
}

impl Opener<MemReader> for Disk {
    ghost files = { λ _ _. None };

    fn open(&self, name: &str) -> Option<MemReader> {
        if name != self.name {
            return None;
        }
        let Ok(bytes) = Vec::from_slice(self.alloc, self.bytes) else {
            return None;
        };
        Some(MemReader::new(bytes, 7, self.fails_at))
    }
}

/// A run of the program: its words, what the file `t` has, standard input, and which call of a stream fails.
struct Run {
    words: &'static [&'static str],
    file: &'static [u8],
    file_fails: Option<u64>,
    input: &'static [u8],
    input_fails: Option<u64>,
    output_fails: Option<u64>,
    errors_fail: Option<u64>,
}

/// No word, and nothing fails.
const PLAIN: Run = Run {
    words: &[],
    file: b"",
    file_fails: None,
    input: b"",
    input_fails: None,
    output_fails: None,
    errors_fail: None,
};

/// What is written to standard output, the line on standard error, and the status.
type Seen = (&'static str, &'static str, u8);

const ROWS: &[(Run, Seen)] = &[
    (
        Run {
            input: b"<!DOCTYPE html><p>a&lt;&eacute;",
            ..PLAIN
        },
        (
            "<!DOCTYPE html><html><head></head><body><p>a&lt;&amp;eacute;</p></body></html>",
            "plain=yes quirks=no errors=1\n",
            0,
        ),
    ),
    (
        Run {
            words: &["t"],
            file: b"eacute; E9\nlt; 3C\n",
            input: b"<!DOCTYPE html>&eacute;&lt;&gt;",
            ..PLAIN
        },
        (
            "<!DOCTYPE html><html><head></head><body>\u{e9}&lt;&amp;gt;</body></html>",
            "plain=yes quirks=no errors=1\n",
            0,
        ),
    ),
    (
        Run {
            input: b"<p>a<table><p>b",
            ..PLAIN
        },
        (
            "<html><head></head><body><p>a<p>b</p><table></table></p></body></html>",
            "plain=no quirks=yes errors=4\n",
            0,
        ),
    ),
    (
        Run {
            input: b"<!DOCTYPE html PUBLIC \"-//W3C//DTD XHTML 1.0 Transitional//EN\" \"x\">a",
            ..PLAIN
        },
        (
            "<!DOCTYPE html><html><head></head><body>a</body></html>",
            "plain=no quirks=limited errors=1\n",
            0,
        ),
    ),
    (
        Run {
            words: &["t", "u"],
            ..PLAIN
        },
        ("", "fault: usage: html_normal [TABLE]\n", 2),
    ),
    (
        Run {
            words: &["none"],
            ..PLAIN
        },
        ("", "fault: read\n", 3),
    ),
    (
        Run {
            words: &["t"],
            file: b"lt; 3C",
            file_fails: Some(1),
            ..PLAIN
        },
        ("", "fault: read\n", 3),
    ),
    (
        Run {
            words: &["t"],
            file: b"lt; 3C\n\xFF",
            ..PLAIN
        },
        ("", "fault: table: not UTF-8 at byte 7\n", 2),
    ),
    (
        Run {
            words: &["t"],
            file: b"lt; 3C\nlt;\n",
            ..PLAIN
        },
        ("", "fault: table: line 2\n", 2),
    ),
    (
        Run {
            words: &["t"],
            file: b"l! 3C\n",
            ..PLAIN
        },
        ("", "fault: table: name 1\n", 2),
    ),
    (
        Run {
            words: &["t"],
            file: b"lt; 3C\nlt; 3E\n",
            ..PLAIN
        },
        ("", "fault: table: duplicate 2\n", 2),
    ),
    (
        Run {
            words: &["t"],
            file: b"lt; D800\n",
            ..PLAIN
        },
        ("", "fault: table: value 1\n", 2),
    ),
    (
        Run {
            input: b"ab\xFF",
            ..PLAIN
        },
        ("", "fault: not UTF-8 at byte 2\n", 1),
    ),
    (
        Run {
            input: b"ab",
            input_fails: Some(1),
            ..PLAIN
        },
        ("", "fault: read\n", 3),
    ),
    (
        Run {
            input: b"<!DOCTYPE html>a",
            output_fails: Some(1),
            ..PLAIN
        },
        ("", "fault: write\n", 3),
    ),
    (
        Run {
            input: b"ab\xFF",
            errors_fail: Some(1),
            ..PLAIN
        },
        ("", "", 1),
    ),
];

/// Whether a run of the program is seen so.
fn is_seen(alloc: Global, run: &Run, seen: &Seen) -> Result<bool, AllocError> {
    let mut words = Vec::new(alloc);
    for &word in run.words {
        words.push(String::from_str(alloc, word)?)?;
    }
    let disk = Disk {
        alloc,
        name: "t",
        bytes: run.file,
        fails_at: run.file_fails,
    };
    let mut input = MemReader::new(Vec::from_slice(alloc, run.input)?, 3, run.input_fails);
    let mut output = MemWriter::new(alloc, 200, 5, run.output_fails, false)?;
    let mut errors = MemWriter::new(alloc, 200, 4, run.errors_fail, false)?;
    let outcome = normalised(alloc, words.as_slice(), &disk, &mut input, &mut output);
    let status = tell(&mut errors, &outcome);
    Ok(
        output.written() == seen.0.as_bytes()
            && errors.written() == seen.1.as_bytes()
            && status == seen.2,
    )
}

#[test]
fn runs_of_the_program(rt: HostRuntime) {
    for (run, seen) in ROWS {
        assert!(rt;
            matches!(is_seen(rt.alloc(), run, seen), Ok(true)),
            "{}",
            seen.1
        );
    }
}
