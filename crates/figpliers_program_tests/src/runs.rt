//! Runs of the program, by its words, its files and its input.

ghost use Rattle.std.specs.Prelude.{None};

use devices::{MemReader, MemWriter};
use figpliers_program::{Files, Opener, Why, obey, output_of};
use std::alloc::{AllocError, Global};
use std::process::Abort;

/// The files on the disk.
const FILES: &[(&str, &[u8])] = &[
    (
        "a.html",
        b"<!DOCTYPE html><title>A</title><p>one <a href=x>two</a>",
    ),
    ("b.html", b"<p id=b>three</i>"),
    (
        "links.html",
        b"<!DOCTYPE html><a href='a?b'></a><a href=#f></a><img src=i.png srcset='j.png 2x, k,l.png'><form action=/s></form><object data=d></object><video src=v poster=p></video><a href='../c'></a>",
    ),
    ("latin.html", b"<!DOCTYPE html><p>caf\xE9"),
    (
        "site.policy",
        b"# Texts and links\nkeep p\nkeep b\nkeep a href\ndrop script style\nscheme https mailto\nrelative\nadd a rel nofollow noopener\n",
    ),
    ("korean.html", b"<!DOCTYPE html><p>\xC7\xD1\xB1\xB9"),
    (
        "declared.html",
        b"<!DOCTYPE html><meta charset=euc-kr><p>\xC7\xD1\xB1\xB9",
    ),
];

/// How much white space stands before those below: more than is looked at for a declaration (HTML Standard, section 13.2.3.2).
const SPACES: usize = 1100;

/// Files whose `meta` stands behind so much white space.
const LATE: &[(&str, &[u8])] = &[
    (
        "koi8.html",
        b"<!DOCTYPE html><meta charset=koi8-r><p>\xD0\xD2\xC9\xD7\xC5\xD4",
    ),
    (
        "cyrillic.html",
        b"<!DOCTYPE html><meta http-equiv=content-type content='text/html; charset=windows-1251'><i id=\xEC></i>\xE8",
    ),
];

/// The bytes of such a file.
fn late(alloc: Global, bytes: &[u8]) -> Result<Vec<u8>, AllocError> {
    let mut page = Vec::new(alloc);
    for _ in 0..SPACES {
        page.push(b' ')?;
    }
    page.extend_from_slice(bytes)?;
    Ok(page)
}

/// A reader of bytes, where there is memory for them.
fn reader(bytes: Result<Vec<u8>, AllocError>) -> Option<MemReader> {
    match bytes {
        Ok(bytes) => Some(MemReader::new(bytes, 7, None)),
        Err(_) => None,
    }
}

/// A disk with these files.
#[derive(Drop)]
pub(crate) struct Disk {
    pub(crate) alloc: Global,
}

impl Opener<MemReader> for Disk {
    ghost files = { λ _ _. None };

    fn open(&self, name: &str) -> Option<MemReader> {
        for (known, bytes) in FILES {
            if *known == name {
                return reader(Vec::from_slice(self.alloc, bytes));
            }
        }
        for (known, bytes) in LATE {
            if *known == name {
                return reader(late(self.alloc, bytes));
            }
        }
        None
    }
}

impl Files<MemReader> for Disk {
    fn why(&self, _name: &str) -> Why {
        Why::Missing
    }
}

/// A run of the program: the words after its name, standard input, and which call of a stream fails.
pub(crate) struct Run {
    pub(crate) words: &'static [&'static str],
    pub(crate) input: &'static [u8],
    pub(crate) input_fails: Option<u64>,
    pub(crate) output_fails: Option<u64>,
    pub(crate) errors_fail: Option<u64>,
}

/// No word, and nothing fails.
pub(crate) const PLAIN: Run = Run {
    words: &[],
    input: b"",
    input_fails: None,
    output_fails: None,
    errors_fail: None,
};

/// What is written to standard output and to standard error, and the status.
pub(crate) type Seen = (&'static str, &'static str, u8);

/// Commands that read pages.
const READING: &[(Run, Seen)] = &[
    (
        Run {
            words: &["errors", "a.html"],
            ..PLAIN
        },
        ("", "", 0),
    ),
    (
        Run {
            words: &["errors", "b.html", "a.html"],
            ..PLAIN
        },
        (
            "b.html:1:1: missing doctype\nb.html:1:14: an end tag without its element\n",
            "",
            1,
        ),
    ),
    (
        Run {
            words: &["errors"],
            input: b"<!DOCTYPE html>\n<p a a>",
            ..PLAIN
        },
        ("-:2:1: duplicate-attribute\n", "", 1),
    ),
    (
        Run {
            words: &["tree", "b.html"],
            ..PLAIN
        },
        (
            "| <html>\n|   <head>\n|   <body>\n|     <p>\n|       id=\"b\"\n|       \"three\"\n",
            "",
            0,
        ),
    ),
    (
        Run {
            words: &["tree", "--fragment", "tr", "-"],
            input: b"<td>x",
            ..PLAIN
        },
        ("| <td>\n|   \"x\"\n", "", 0),
    ),
    (
        Run {
            words: &["links", "a.html"],
            ..PLAIN
        },
        ("x\n", "", 0),
    ),
    (
        Run {
            words: &["text", "b.html"],
            ..PLAIN
        },
        ("three\n", "", 0),
    ),
    (
        Run {
            words: &["text"],
            input: b"<table><tr><td>a<td>b<tr><td>c<td>d</table><ul><li>x<li>y</ul><p>1</p><p>2</p>p<br>q",
            ..PLAIN
        },
        ("a\tb\nc\td\nx\ny\n\n1\n\n2\n\np\nq\n", "", 0),
    ),
    (
        Run {
            words: &["normal", "b.html"],
            ..PLAIN
        },
        (
            "<html><head></head><body><p id=\"b\">three</p></body></html>",
            "",
            0,
        ),
    ),
];

/// The command `check`.
const CHECKS: &[(Run, Seen)] = &[
    (
        Run {
            words: &["check", "a.html", "b.html"],
            ..PLAIN
        },
        ("a.html: faithful\nb.html: faithful\n", "", 0),
    ),
    (
        Run {
            words: &["check", "-", "a.html"],
            input: b"<!DOCTYPE html><div><pre>\n\nx",
            ..PLAIN
        },
        (
            "-: html/body/div/pre: a line feed comes first\na.html: faithful\n",
            "",
            1,
        ),
    ),
    (
        Run {
            words: &["check"],
            input: b"<!DOCTYPE xhtml><p>",
            ..PLAIN
        },
        (
            "-: document: the doctype has another name than html\n",
            "",
            1,
        ),
    ),
];

/// The commands `markdown` and `links`.
const LINKS: &[(Run, Seen)] = &[
    (
        Run {
            words: &["markdown", "a.html", "-"],
            input: b"<ul><li>*<b>a</b></ul>",
            ..PLAIN
        },
        ("one [two](x)\n- \\*__a__\n", "", 0),
    ),
    (
        Run {
            words: &["links", "--kind", "links.html"],
            ..PLAIN
        },
        (
            "href a?b\nsrc i.png\nsrcset j.png\nsrcset k,l.png\naction /s\ndata d\nsrc v\nposter p\nhref ../c\n",
            "",
            0,
        ),
    ),
    (
        Run {
            words: &[
                "links",
                "--base",
                "http://x.org/d/e",
                "--anchors",
                "links.html",
            ],
            ..PLAIN
        },
        (
            "http://x.org/d/a?b\nhttp://x.org/d/e#f\nhttp://x.org/d/i.png\nhttp://x.org/d/j.png\nhttp://x.org/d/k,l.png\nhttp://x.org/s\nhttp://x.org/d/d\nhttp://x.org/d/v\nhttp://x.org/d/p\nhttp://x.org/c\n",
            "",
            0,
        ),
    ),
    (
        Run {
            words: &["links", "--base", "http://x.org/d/e"],
            input: b"<base href='//y.org/'><base href=z><a href='a\n b'>c</a><a href='http://[/'>d</a>",
            ..PLAIN
        },
        ("http://y.org/a%20b\nhttp://[/\n", "", 0),
    ),
    (
        Run {
            words: &["links", "-H", "a.html"],
            ..PLAIN
        },
        ("a.html:x\n", "", 0),
    ),
    (
        Run {
            words: &["links", "-h", "a.html", "a.html"],
            ..PLAIN
        },
        ("x\nx\n", "", 0),
    ),
    (
        Run {
            words: &["links", "--json", "--", "a.html"],
            ..PLAIN
        },
        (
            "{\"file\":\"a.html\",\"kind\":\"href\",\"element\":\"a\",\"url\":\"x\"}\n",
            "",
            0,
        ),
    ),
    (
        Run {
            words: &["tree", "--fragment", "TR"],
            input: b"<td>x",
            ..PLAIN
        },
        ("| <td>\n|   \"x\"\n", "", 0),
    ),
];

/// The command `select`.
const SELECTING: &[(Run, Seen)] = &[
    (
        Run {
            words: &["select", "p > a", "a.html"],
            ..PLAIN
        },
        ("<a href=\"x\">two</a>\n", "", 0),
    ),
    (
        Run {
            words: &["select", "p", "a.html", "b.html"],
            ..PLAIN
        },
        (
            "a.html:<p>one <a href=\"x\">two</a></p>\nb.html:<p id=\"b\">three</p>\n",
            "",
            0,
        ),
    ),
    (
        Run {
            words: &["select", "--text", "p", "a.html"],
            ..PLAIN
        },
        ("one two\n", "", 0),
    ),
    (
        Run {
            words: &["select", "--attr", "href", "p, a", "a.html"],
            ..PLAIN
        },
        ("x\n", "", 0),
    ),
    (
        Run {
            words: &["select", "--count", "p, a", "a.html", "b.html"],
            ..PLAIN
        },
        ("a.html:2\nb.html:1\n", "", 0),
    ),
    (
        Run {
            words: &["select", "--json", "a", "a.html"],
            ..PLAIN
        },
        (
            "{\"file\":\"a.html\",\"name\":\"a\",\"html\":\"<a href=\\\"x\\\">two</a>\"}\n",
            "",
            0,
        ),
    ),
    (
        Run {
            words: &["select", "em", "a.html"],
            ..PLAIN
        },
        ("", "", 1),
    ),
    (
        Run {
            words: &["select", "em", "none.html"],
            ..PLAIN
        },
        ("", "none.html: cannot be opened: no such file\n", 2),
    ),
];

/// Pages in other encodings.
const ENCODINGS: &[(Run, Seen)] = &[
    (
        Run {
            words: &["text", "latin.html", "declared.html"],
            ..PLAIN
        },
        ("café\n한국\n", "", 0),
    ),
    (
        Run {
            words: &["text", "--encoding", "EUC-KR", "korean.html"],
            ..PLAIN
        },
        ("한국\n", "", 0),
    ),
    (
        Run {
            words: &["text", "--utf-8", "latin.html"],
            ..PLAIN
        },
        ("", "latin.html: not UTF-8 at byte 21\n", 2),
    ),
    (
        Run {
            words: &["text", "--lossy", "latin.html"],
            ..PLAIN
        },
        ("caf\u{FFFD}\n", "", 0),
    ),
    (
        Run {
            words: &["text"],
            input: b"<!DOCTYPE html><p>h\xC3\xA9",
            ..PLAIN
        },
        ("h\u{E9}\n", "", 0),
    ),
    (
        Run {
            words: &["text", "koi8.html", "cyrillic.html"],
            ..PLAIN
        },
        ("привет\nи\n", "", 0),
    ),
    (
        Run {
            words: &["select", "--attr", "id", "i", "cyrillic.html"],
            ..PLAIN
        },
        ("м\n", "", 0),
    ),
    (
        Run {
            words: &["normal", "koi8.html"],
            ..PLAIN
        },
        (
            "<!DOCTYPE html><html><head><meta charset=\"koi8-r\"></head><body><p>привет</p></body></html>",
            "",
            0,
        ),
    ),
    (
        Run {
            words: &["text", "--encoding", "windows-1251", "koi8.html"],
            ..PLAIN
        },
        ("РТЙЧЕФ\n", "", 0),
    ),
];

/// Faults, and what is no page.
const FAULTS: &[(Run, Seen)] = &[
    (
        Run {
            words: &["links", "none.html", "a.html"],
            ..PLAIN
        },
        (
            "a.html:x\n",
            "none.html: cannot be opened: no such file\n",
            2,
        ),
    ),
    (
        Run {
            words: &["links"],
            input: b"<a href=x>",
            input_fails: Some(2),
            ..PLAIN
        },
        ("", "-: cannot be read\n", 2),
    ),
    (
        Run {
            words: &["links", "a.html"],
            output_fails: Some(1),
            ..PLAIN
        },
        ("", "", 2),
    ),
    (
        Run {
            words: &["links", "a.html", "none.html"],
            output_fails: Some(1),
            ..PLAIN
        },
        ("", "", 2),
    ),
    (
        Run {
            words: &["links", "none.html"],
            errors_fail: Some(1),
            ..PLAIN
        },
        ("", "", 2),
    ),
    (
        Run {
            words: &["--version"],
            ..PLAIN
        },
        ("figpliers 0.1.0\n", "", 0),
    ),
    (
        Run {
            words: &["tree", "--version"],
            ..PLAIN
        },
        ("figpliers-tree 0.1.0\n", "", 0),
    ),
];

/// What a run begins to write to standard error, and its status.
const REFUSALS: &[(&[&str], &str)] = &[
    (&["select", "p >", "a.html"], "figpliers: "),
    (
        &["text", "--encoding", "none", "a.html"],
        "error: no encoding has the label",
    ),
    (
        &["text", "--utf-8", "--lossy", "a.html"],
        "error: only one of '--encoding', '--utf-8' and '--lossy'",
    ),
    (
        &["select", "--text", "--count", "p", "a.html"],
        "error: only one of '--text', '--attr', '--count' and '--json'",
    ),
    (&["select"], "error: "),
    (
        &["links", "-H", "-h", "a.html"],
        "error: only one of '--with-filename' and '--no-filename'",
    ),
    (
        &["links", "--kind", "--json", "a.html"],
        "error: only one of '--kind' and '--json'",
    ),
    (
        &["tree", "--fragment", "a b", "a.html"],
        "error: no element has the name",
    ),
    (&["neither"], "error: "),
    (&["clean", "--neither"], "fault: usage: figpliers clean ["),
    (&["clean", "--", "--help"], "error: no command was named"),
    (&[], ""),
];

/// The name of the program, and these words.
pub(crate) fn words_of(alloc: Global, after: &[&str]) -> Result<Vec<String>, AllocError> {
    let mut words = Vec::new(alloc);
    words.push(String::from_str(alloc, "figpliers")?)?;
    for &word in after {
        words.push(String::from_str(alloc, word)?)?;
    }
    Ok(words)
}

/// Whether a run of the program is seen so.
fn is_seen(alloc: Global, run: &Run, seen: &Seen) -> Result<bool, AllocError> {
    let words = words_of(alloc, run.words)?;
    let mut input = MemReader::new(Vec::from_slice(alloc, run.input)?, 3, run.input_fails);
    let mut output = MemWriter::new(alloc, 400, 50, run.output_fails, false)?;
    let mut errors = MemWriter::new(alloc, 400, 40, run.errors_fail, false)?;
    let verdict = obey(
        alloc,
        words.as_slice(),
        &Disk { alloc },
        &mut input,
        &mut output,
        &mut errors,
    );
    Ok(
        output.written() == seen.0.as_bytes()
            && errors.written() == seen.1.as_bytes()
            && verdict.status() == seen.2,
    )
}

/// Whether words are refused: nothing is written but to standard error, and the status is 2.
fn is_refused(alloc: Global, after: &[&str], front: &str) -> Result<bool, AllocError> {
    let words = words_of(alloc, after)?;
    let mut input = MemReader::new(Vec::new(alloc), 3, None);
    let mut output = MemWriter::new(alloc, 10, 5, None, false)?;
    let mut errors = MemWriter::new(alloc, 4000, 4000, None, false)?;
    let verdict = obey(
        alloc,
        words.as_slice(),
        &Disk { alloc },
        &mut input,
        &mut output,
        &mut errors,
    );
    Ok(
        output.written().is_empty()
            && errors.written().starts_with(front.as_bytes())
            && !errors.written().is_empty()
            && verdict.status() == 2,
    )
}

/// Whether all runs are seen so; or else the words of the first that is not.
fn first_other(alloc: Global, rows: &[(Run, Seen)]) -> Option<&'static [&'static str]> {
    for (run, seen) in rows {
        if !matches!(is_seen(alloc, run, seen), Ok(true)) {
            return Some(run.words);
        }
    }
    None
}

/// Sees that all runs are seen as their rows say.
pub(crate) fn assert_seen(rt: &impl Abort, alloc: Global, rows: &[(Run, Seen)]) {
    if let Some(words) = first_other(alloc, rows) {
        assert!(rt; false, "{words:?}");
    }
}

#[test]
fn pages_are_read(rt: HostRuntime) {
    assert_seen(&rt, rt.alloc(), READING);
}

#[test]
fn links_and_markdown_are_written(rt: HostRuntime) {
    assert_seen(&rt, rt.alloc(), LINKS);
}

#[test]
fn pages_are_checked(rt: HostRuntime) {
    assert_seen(&rt, rt.alloc(), CHECKS);
}

/// The file to write to that words name.
pub(crate) fn output_is(alloc: Global, after: &[&str], wanted: Option<&str>) -> bool {
    let Ok(words) = words_of(alloc, after) else {
        return false;
    };
    match (output_of(alloc, words.as_slice()), wanted) {
        (Ok(Some(name)), Some(wanted)) => name.as_str() == wanted,
        (Ok(None), None) => true,
        _ => false,
    }
}

#[test]
fn a_file_to_write_to_is_named(rt: HostRuntime) {
    let alloc = rt.alloc();
    assert!(rt; output_is(alloc, &["text", "-o", "out.txt", "a.html"], Some("out.txt")));
    assert!(rt; output_is(alloc, &["links", "--output", "x", "-H"], Some("x")));
    assert!(rt; output_is(alloc, &["check", "a.html"], None));
    assert!(rt; output_is(alloc, &["-o", "x"], None));
    assert!(rt; output_is(alloc, &["text", "-o", "x", "--utf-8", "--lossy"], None));
}

#[test]
fn elements_are_selected(rt: HostRuntime) {
    assert_seen(&rt, rt.alloc(), SELECTING);
}

#[test]
fn encodings_are_found_or_given(rt: HostRuntime) {
    assert_seen(&rt, rt.alloc(), ENCODINGS);
}

#[test]
fn faults_are_reported(rt: HostRuntime) {
    assert_seen(&rt, rt.alloc(), FAULTS);
}

#[test]
fn words_are_refused(rt: HostRuntime) {
    for (words, front) in REFUSALS {
        assert!(rt;
            matches!(is_refused(rt.alloc(), words, front), Ok(true)),
            "{front}"
        );
    }
}
