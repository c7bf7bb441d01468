//! Runs of the command `clean`, and its help.

use crate::runs::{Disk, PLAIN, Run, Seen, assert_seen, output_is, words_of};
use devices::{MemReader, MemWriter};
use figpliers_program::obey;
use std::alloc::{AllocError, Global};
use std::str;

/// The command `clean`.
const CLEANING: &[(Run, Seen)] = &[
    (
        Run {
            words: &["clean", "--policy", "site.policy"],
            input: b"<p onclick=x>One <b>and</b> <a href=\"javascript:x\">two</a><script>alert(1)</script> &amp; <a href=three>three</a></p><!-- four -->",
            ..PLAIN
        },
        (
            "<p>One <b>and</b> <a rel=\"nofollow noopener\">two</a> &amp; <a rel=\"nofollow noopener\" href=\"three\">three</a></p>",
            "-: unwrapped=0 dropped=1 attributes=2 comments=1\n",
            0,
        ),
    ),
    (
        Run {
            words: &["clean", "-o", "x", "b.html", "--attribute", "id", "a.html"],
            ..PLAIN
        },
        (
            "<p id=\"b\">three</p><p>one <a href=\"x\">two</a></p>",
            "b.html: unwrapped=0 dropped=0 attributes=0 comments=0\na.html: unwrapped=0 dropped=1 attributes=0 comments=0\n",
            0,
        ),
    ),
    (
        Run {
            words: &["clean", "--print-policy", "text-alone"],
            input: b"not read",
            ..PLAIN
        },
        (
            "drop head iframe noembed noframes noscript script style template title\n",
            "",
            0,
        ),
    ),
    (
        Run {
            words: &["clean", "--print-policy", "text-alone"],
            output_fails: Some(1),
            ..PLAIN
        },
        ("", "", 2),
    ),
    (
        Run {
            words: &["clean", "none.html", "b.html"],
            ..PLAIN
        },
        ("", "none.html: cannot be read\n", 2),
    ),
    (
        Run {
            words: &["clean", "latin.html"],
            ..PLAIN
        },
        ("", "latin.html: not UTF-8 at byte 21\n", 2),
    ),
    (
        Run {
            words: &["clean", "b.html"],
            output_fails: Some(1),
            ..PLAIN
        },
        ("", "", 2),
    ),
    (
        Run {
            words: &["clean", "--element", "script", "b.html"],
            ..PLAIN
        },
        ("", "fault: never kept: script\n", 2),
    ),
    (
        Run {
            words: &["clean", "--version"],
            ..PLAIN
        },
        ("figpliers-clean 0.1.0\n", "", 0),
    ),
];

#[test]
fn pages_are_cleaned(rt: HostRuntime) {
    assert_seen(&rt, rt.alloc(), CLEANING);
}

/// Whether the help of words begins so, and has this in it.
fn helps(alloc: Global, after: &[&str], front: &str, part: &str) -> Result<bool, AllocError> {
    let words = words_of(alloc, after)?;
    let mut input = MemReader::new(Vec::new(alloc), 3, None);
    let mut output = MemWriter::new(alloc, 4000, 4000, None, false)?;
    let mut errors = MemWriter::new(alloc, 10, 5, None, false)?;
    let verdict = obey(
        alloc,
        words.as_slice(),
        &Disk { alloc },
        &mut input,
        &mut output,
        &mut errors,
    );
    let Ok(text) = str::from_utf8(output.written()) else {
        return Ok(false);
    };
    Ok(
        text.starts_with(front)
            && text.contains(part)
            && errors.written().is_empty()
            && verdict.status() == 0,
    )
}

#[test]
fn help_is_printed(rt: HostRuntime) {
    let alloc = rt.alloc();
    assert!(rt;
        matches!(
            helps(alloc, &["--help"], "Parse errors", "  clean "),
            Ok(true)
        )
    );
    assert!(rt;
        matches!(
            helps(
                alloc,
                &["clean", "--help"],
                "Print what a policy",
                "--policy <FILE>"
            ),
            Ok(true)
        )
    );
    assert!(rt;
        matches!(
            helps(
                alloc,
                &["clean", "b.html", "-h"],
                "Print what a policy",
                "-o, --output <FILE>"
            ),
            Ok(true)
        )
    );
}

#[test]
fn a_file_to_write_to_is_named(rt: HostRuntime) {
    let alloc = rt.alloc();
    assert!(rt; output_is(alloc, &["clean", "-o", "x", "b.html"], Some("x")));
    assert!(rt; output_is(alloc, &["clean", "b.html"], None));
    assert!(rt; output_is(alloc, &["clean", "-o", "x", "--neither"], None));
}
