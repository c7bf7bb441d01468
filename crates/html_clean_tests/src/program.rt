//! The command `clean`: what it writes to standard output and to standard error, and whether all was cleaned, by its words, files and
//! input.

ghost use Rattle.std.specs.Prelude.{None};

use devices::{MemReader, MemWriter};
use html_clean_program::{Opener, obey, output_of, report};
use std::alloc::{AllocError, Global};

/// The files on the disk: two pages, tables of references, and policies.
const FILES: &[(&str, &[u8])] = &[
    ("a", b"<p onclick=x>one<script>two</script>"),
    ("b", b"<!--three--><form>four</form>"),
    ("t", b"eacute; E9\n"),
    ("none", b"eacute;\n"),
    (
        "policy",
        b"# links and code\nkeep a href\nkeep code class\ndrop script\nscheme https\nwords code class ^language-\nadd a rel nofollow\n",
    ),
    ("empty", b""),
    ("unknown", b"keep a\nkepp b\n"),
    ("short", b"\nadd a\n"),
    ("unsafe", b"keep script"),
    ("page", b"keep body"),
    ("bytes", b"keep a\nkeep \xFF"),
];

/// A disk with these files.
#[derive(Drop)]
struct Disk {
    alloc: Global,
}

impl Opener<MemReader> for Disk {
    ghost files = { λ _ _. None };

    fn open(&self, name: &str) -> Option<MemReader> {
        for (known, bytes) in FILES {
            if *known == name {
                return match Vec::from_slice(self.alloc, bytes) {
                    Ok(bytes) => Some(MemReader::new(bytes, 7, None)),
                    Err(_) => None,
                };
            }
        }
        None
    }
}

/// A run of the command: the words after it, standard input, and which call of a stream fails.
struct Run {
    words: &'static [&'static str],
    input: &'static [u8],
    input_fails: Option<u64>,
    output_fails: Option<u64>,
    errors_fail: Option<u64>,
}

/// No word, and nothing fails.
const PLAIN: Run = Run {
    words: &[],
    input: b"",
    input_fails: None,
    output_fails: None,
    errors_fail: None,
};

/// What is written to standard output and to standard error, and whether all was cleaned.
type Seen = (&'static str, &'static str, bool);

const NOTHING: &str = "-: unwrapped=0 dropped=0 attributes=0 comments=0\n";

const USAGE: &str =
    "fault: usage: figpliers clean [--policy FILE] [--document] [--element NAME[:ATTRIBUTE,..]] [--attribute NAME] [--beginning TEXT] [--add ELEMENT:NAME=VALUE] [--scheme NAME] [--table FILE] [-o FILE] [FILE].. | --print-policy NAME\n";

const ROWS: &[(Run, Seen)] = &[
    (
        Run {
            input: b"<p onclick=x>one<script>two</script>",
            ..PLAIN
        },
        (
            "<p>one</p>",
            "-: unwrapped=0 dropped=1 attributes=1 comments=0\n",
            true,
        ),
    ),
    (
        Run {
            input: b"<p onclick=x>One <b>and</b> <a href=\"javascript:x\">two</a><script>alert(1)</script> &amp; <a href=three>three</a></p><!-- four -->",
            ..PLAIN
        },
        (
            "<p>One <b>and</b> <a>two</a> &amp; <a href=\"three\">three</a></p>",
            "-: unwrapped=0 dropped=1 attributes=2 comments=1\n",
            true,
        ),
    ),
    (
        Run {
            words: &["a", "b"],
            input: b"not read",
            ..PLAIN
        },
        (
            "<p>one</p>four",
            "a: unwrapped=0 dropped=1 attributes=1 comments=0\nb: unwrapped=1 dropped=0 attributes=0 comments=1\n",
            true,
        ),
    ),
    (
        Run {
            words: &["--element", "form:id", "--element", "section"],
            input: b"<form id=x class=y><section>a</section></form>",
            ..PLAIN
        },
        (
            "<form id=\"x\"><section>a</section></form>",
            "-: unwrapped=0 dropped=0 attributes=1 comments=0\n",
            true,
        ),
    ),
    (
        Run {
            words: &["--attribute", "id"],
            input: b"<p id=x>a</p>",
            ..PLAIN
        },
        ("<p id=\"x\">a</p>", NOTHING, true),
    ),
    (
        Run {
            words: &["-o", "x", "--attribute", "id"],
            input: b"<p id=x>a</p>",
            ..PLAIN
        },
        ("<p id=\"x\">a</p>", NOTHING, true),
    ),
    (
        Run {
            words: &["--beginning", "data-", "--add", "a:rel=nofollow"],
            input: b"<a data-x=1 rel=y>a</a>",
            ..PLAIN
        },
        (
            "<a rel=\"nofollow\" data-x=\"1\">a</a>",
            "-: unwrapped=0 dropped=0 attributes=1 comments=0\n",
            true,
        ),
    ),
    (
        Run {
            words: &["--scheme", "gopher"],
            input: b"<a href=gopher:1>a</a>",
            ..PLAIN
        },
        ("<a href=\"gopher:1\">a</a>", NOTHING, true),
    ),
    (
        Run {
            input: b"<a href=gopher:1>a</a>",
            ..PLAIN
        },
        (
            "<a>a</a>",
            "-: unwrapped=0 dropped=0 attributes=1 comments=0\n",
            true,
        ),
    ),
    (
        Run {
            words: &["--table", "t"],
            input: b"&eacute;&lt;",
            ..PLAIN
        },
        ("\u{E9}&amp;lt;", NOTHING, true),
    ),
    (
        Run {
            words: &["--document"],
            input: b"<!DOCTYPE html><p>a",
            ..PLAIN
        },
        (
            "<p>a</p>",
            "-: unwrapped=2 dropped=1 attributes=0 comments=0\n",
            true,
        ),
    ),
];

/// Runs with a policy of a file.
const POLICIES: &[(Run, Seen)] = &[
    (
        Run {
            words: &["--policy", "policy"],
            input: b"<p><a href=https:b rel=me>c</a><a href=http:d>e</a><code class='f language-g'>h<script>i</script></code>",
            ..PLAIN
        },
        (
            "<a rel=\"nofollow\" href=\"https:b\">c</a><a rel=\"nofollow\">e</a><code class=\"language-g\">h</code>",
            "-: unwrapped=1 dropped=1 attributes=2 comments=0\n",
            true,
        ),
    ),
    (
        Run {
            words: &["--policy", "empty"],
            input: b"<p>a<script>b</script>",
            ..PLAIN
        },
        (
            "ab",
            "-: unwrapped=2 dropped=0 attributes=0 comments=0\n",
            true,
        ),
    ),
    (
        Run {
            words: &["--element", "b", "--policy", "empty", "--element", "i:id"],
            input: b"<b>a</b><i id=c>d</i><u>e</u>",
            ..PLAIN
        },
        (
            "<b>a</b><i id=\"c\">d</i>e",
            "-: unwrapped=1 dropped=0 attributes=0 comments=0\n",
            true,
        ),
    ),
    (
        Run {
            words: &[
                "--policy",
                "unknown",
                "--policy",
                "empty",
                "--scheme",
                "https",
                "--add",
                "p:lang=de",
            ],
            input: b"<p>a",
            ..PLAIN
        },
        (
            "a",
            "-: unwrapped=1 dropped=0 attributes=0 comments=0\n",
            true,
        ),
    ),
    (
        Run {
            words: &["--document", "--policy", "page"],
            input: b"<body>a",
            ..PLAIN
        },
        (
            "<body>a</body>",
            "-: unwrapped=2 dropped=0 attributes=0 comments=0\n",
            true,
        ),
    ),
];

/// Runs that print a ready policy.
const PRINTED: &[(Run, Seen)] = &[
    (
        Run {
            words: &["--print-policy", "text-alone"],
            input: b"not read",
            ..PLAIN
        },
        (
            "drop head iframe noembed noframes noscript script style template title\n",
            "",
            true,
        ),
    ),
    (
        Run {
            words: &["--print-policy", "other"],
            ..PLAIN
        },
        ("", USAGE, false),
    ),
    (
        Run {
            words: &["--print-policy"],
            ..PLAIN
        },
        ("", USAGE, false),
    ),
    (
        Run {
            words: &["--print-policy", "text-alone", "a"],
            ..PLAIN
        },
        ("", USAGE, false),
    ),
    (
        Run {
            words: &["--print-policy", "user-content"],
            output_fails: Some(1),
            ..PLAIN
        },
        ("", "", false),
    ),
];

const FAULTS: &[(Run, Seen)] = &[
    (
        Run {
            words: &["--policy"],
            ..PLAIN
        },
        ("", USAGE, false),
    ),
    (
        Run {
            words: &["--policy", "unknown", "a"],
            ..PLAIN
        },
        ("", "unknown:2: no rule begins with this word\n", false),
    ),
    (
        Run {
            words: &["--policy", "short", "a"],
            ..PLAIN
        },
        ("", "short:2: the rule takes fewer words, or more\n", false),
    ),
    (
        Run {
            words: &["--policy", "bytes", "a"],
            ..PLAIN
        },
        ("", "bytes: not UTF-8 at byte 12\n", false),
    ),
    (
        Run {
            words: &["--policy", "missing", "a"],
            ..PLAIN
        },
        ("", "missing: cannot be read\n", false),
    ),
    (
        Run {
            words: &["--policy", "unsafe", "a"],
            ..PLAIN
        },
        ("", "fault: never kept: script\n", false),
    ),
    (
        Run {
            words: &["--policy", "page", "a"],
            ..PLAIN
        },
        ("", "fault: never kept: body\n", false),
    ),
    (
        Run {
            words: &["--unknown"],
            ..PLAIN
        },
        ("", USAGE, false),
    ),
    (
        Run {
            words: &["--element"],
            ..PLAIN
        },
        ("", USAGE, false),
    ),
    (
        Run {
            words: &["--element", "script"],
            ..PLAIN
        },
        ("", "fault: never kept: script\n", false),
    ),
    (
        Run {
            words: &["--add", "a:onclick=x"],
            ..PLAIN
        },
        ("", "fault: never kept: onclick\n", false),
    ),
    (
        Run {
            words: &["--add", "a"],
            ..PLAIN
        },
        ("", "fault: never kept: \n", false),
    ),
    (
        Run {
            words: &["--scheme", "javascript"],
            ..PLAIN
        },
        ("", "fault: never kept: javascript\n", false),
    ),
    (
        Run {
            words: &["--table", "missing", "a"],
            ..PLAIN
        },
        ("", "fault: read\n", false),
    ),
    (
        Run {
            words: &["--table", "none", "a"],
            ..PLAIN
        },
        ("", "fault: table: line 1\n", false),
    ),
    (
        Run {
            words: &["a", "missing", "b"],
            ..PLAIN
        },
        (
            "<p>one</p>",
            "a: unwrapped=0 dropped=1 attributes=1 comments=0\nmissing: cannot be read\n",
            false,
        ),
    ),
    (
        Run {
            input: b"ab\xFF",
            ..PLAIN
        },
        ("", "-: not UTF-8 at byte 2\n", false),
    ),
    (
        Run {
            input: b"ab",
            input_fails: Some(1),
            ..PLAIN
        },
        ("", "-: cannot be read\n", false),
    ),
    (
        Run {
            words: &["a"],
            output_fails: Some(1),
            ..PLAIN
        },
        ("", "", false),
    ),
    (
        Run {
            words: &["a"],
            errors_fail: Some(1),
            ..PLAIN
        },
        ("<p>one</p>", "", true),
    ),
];

/// The words, each in a room of its own.
fn words_of(alloc: Global, given: &[&str]) -> Result<Vec<String>, AllocError> {
    let mut words = Vec::new(alloc);
    for &word in given {
        words.push(String::from_str(alloc, word)?)?;
    }
    Ok(words)
}

/// Whether a run of the command is seen so.
fn is_seen(alloc: Global, started: &Run, seen: &Seen) -> Result<bool, AllocError> {
    let words = words_of(alloc, started.words)?;
    let mut input = MemReader::new(
        Vec::from_slice(alloc, started.input)?,
        3,
        started.input_fails,
    );
    let mut output = MemWriter::new(alloc, 400, 50, started.output_fails, false)?;
    let mut errors = MemWriter::new(alloc, 400, 40, started.errors_fail, false)?;
    let outcome = obey(
        alloc,
        words.as_slice(),
        &Disk { alloc },
        &mut input,
        &mut output,
        &mut errors,
    );
    if let Err(fault) = &outcome {
        report(&mut errors, fault);
    }
    Ok(
        output.written() == seen.0.as_bytes()
            && errors.written() == seen.1.as_bytes()
            && outcome.is_ok() == seen.2,
    )
}

#[test]
fn pages_are_cleaned(rt: HostRuntime) {
    for (started, seen) in ROWS {
        assert!(rt;
            matches!(is_seen(rt.alloc(), started, seen), Ok(true)),
            "{}",
            seen.0
        );
    }
}

#[test]
fn policies_are_read(rt: HostRuntime) {
    for (started, seen) in POLICIES {
        assert!(rt;
            matches!(is_seen(rt.alloc(), started, seen), Ok(true)),
            "{}",
            seen.0
        );
    }
}

#[test]
fn ready_policies_are_printed(rt: HostRuntime) {
    for (started, seen) in PRINTED {
        assert!(rt;
            matches!(is_seen(rt.alloc(), started, seen), Ok(true)),
            "{}",
            seen.0
        );
    }
}

#[test]
fn faults_of_the_program(rt: HostRuntime) {
    for (started, seen) in FAULTS {
        assert!(rt;
            matches!(is_seen(rt.alloc(), started, seen), Ok(true)),
            "{}",
            seen.1
        );
    }
}

/// Whether words name this file to write to, or none.
fn output_is(alloc: Global, given: &[&str], wanted: Option<&str>) -> bool {
    let Ok(words) = words_of(alloc, given) else {
        return false;
    };
    match output_of(alloc, words.as_slice()) {
        Ok(found) => found == wanted,
        Err(_) => false,
    }
}

#[test]
fn a_file_to_write_to_is_named(rt: HostRuntime) {
    let alloc = rt.alloc();
    assert!(rt; output_is(alloc, &["a", "-o", "x"], Some("x")));
    assert!(rt; output_is(alloc, &["-o", "x", "--output", "y"], Some("y")));
    assert!(rt; output_is(alloc, &["a"], None));
    assert!(rt; output_is(alloc, &["-o"], None));
    assert!(rt; output_is(alloc, &["-o", "x", "--unknown"], None));
}
