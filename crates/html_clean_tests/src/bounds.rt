//! Each bound at its edge: exactly so much is written, and of one more nothing, by name.

use devices::{MemReader, MemWriter, VecWriter};
use html_clean::{Bound, BoundedFault, Bounds, Cleaned, Policy, write_clean_within};
use html_clean_document::{
    WithinFault, clean_fragment_in_within, clean_fragment_within, clean_within,
};
use html_forest::ForestNode;
use html_normal::{Exact, NormalFault, References, read_document};
use markup::{KnownNamespace, LocalName, Namespace, QualName, TreeSink};
use std::alloc::{AllocError, Global};
use std::test::Fail;

/// No bound.
const NONE: Bounds = Bounds {
    depth: u64::MAX,
    elements: u64::MAX,
    bytes: u64::MAX,
};

/// What is left of it has three elements, of which two stand in one another, and 24 bytes.
const PAGE: &str = "<p onclick=a>\u{e9}<b>x</b><i></i><script>y</script>";

const LEFT: &str = "<p>\u{e9}<b>x</b><i></i></p>";

/// What a call answers, and what it writes.
type Outcome = (Result<Cleaned, WithinFault>, Vec<u8>);

/// Which call it is.
#[derive(Clone, Copy)]
enum Door {
    Document,
    Fragment,
    /// In a `td`.
    FragmentIn,
    /// Of a tree that was read before.
    Tree,
}

const DOORS: [Door; 4] = [Door::Document, Door::Fragment, Door::FragmentIn, Door::Tree];

fn reader_of(alloc: Global, page: &str) -> Result<MemReader, AllocError> {
    Ok(MemReader::new(Vec::from_slice(alloc, page.as_bytes())?, 4096, None))
}

/// What is answered, as that of a text.
fn of_tree(answer: Result<Cleaned, BoundedFault>) -> Result<Cleaned, WithinFault> {
    match answer {
        Ok(counts) => Ok(counts),
        Err(fault) => Err(WithinFault::from(fault)),
    }
}

/// A page, cleaned within bounds by one of the calls.
fn cleaned(alloc: Global, door: Door, page: &str, bounds: &Bounds) -> Result<Outcome, WithinFault> {
    let memory = WithinFault::Other(NormalFault::Memory);
    let (Ok(policy), Ok(five), Ok(mut reader), Ok(td)) = (
        Policy::text_and_links(alloc),
        References::five(alloc),
        reader_of(alloc, page),
        LocalName::from_str(alloc, "td"),
    ) else {
        return Err(memory);
    };
    let mut writer = VecWriter::new(alloc);
    let exact = Exact::default();
    let answer = match door {
        Door::Document => clean_within(
            alloc,
            &mut reader,
            &mut writer,
            five,
            exact,
            &policy,
            bounds,
        ),
        Door::Fragment => clean_fragment_within(
            alloc,
            &mut reader,
            &mut writer,
            five,
            exact,
            &policy,
            bounds,
        ),
        Door::FragmentIn => clean_fragment_in_within(
            alloc,
            &mut reader,
            &mut writer,
            five,
            exact,
            QualName::new(None, Namespace::from_known(KnownNamespace::Html), td),
            &policy,
            bounds,
        ),
        Door::Tree => {
            let mut forest = read_document(alloc, &mut reader, five, exact)?;
            let id = forest.get_document();
            let node = ForestNode {
                forest: &forest,
                id,
            };
            of_tree(write_clean_within(alloc, &mut writer, &node, &policy, bounds))
        }
    };
    Ok((answer, writer.into_bytes()))
}

/// Whether each call writes all that is left of the page.
fn passes(alloc: Global, bounds: &Bounds) -> bool {
    let counts = Cleaned {
        unwrapped: 0,
        dropped: 1,
        attributes: 1,
        comments: 0,
    };
    for door in DOORS {
        let Ok((answer, written)) = cleaned(alloc, door, PAGE, bounds) else {
            return false;
        };
        // Of a document `html`, `head` and `body` are taken away too.
        let is_right = match door {
            Door::Document | Door::Tree => answer.is_ok(),
            _ => answer == Ok(counts),
        };
        if !is_right || written.as_slice() != LEFT.as_bytes() {
            return false;
        }
    }
    true
}

/// Whether each call names this bound, and writes nothing.
fn is_refused(alloc: Global, bounds: &Bounds, bound: Bound) -> bool {
    for door in DOORS {
        let Ok((answer, written)) = cleaned(alloc, door, PAGE, bounds) else {
            return false;
        };
        if answer != Err(WithinFault::Beyond(bound)) || !written.is_empty() {
            return false;
        }
    }
    true
}

#[test]
fn as_much_as_each_bound_says_is_written(rt: HostRuntime) -> Result<(), Fail> {
    let alloc = rt.alloc();
    let bytes = 24;
    assert!(rt; passes(alloc, &NONE));
    assert!(rt; passes(alloc, &Bounds { depth: 2, ..NONE }));
    assert!(rt;
        passes(
            alloc,
            &Bounds {
                elements: 3,
                ..NONE
            }
        )
    );
    assert!(rt; passes(alloc, &Bounds { bytes, ..NONE }));
    let all = Bounds {
        depth: 2,
        elements: 3,
        bytes,
    };
    assert!(rt; passes(alloc, &all));
    Ok(())
}

#[test]
fn of_one_more_nothing_is_written(rt: HostRuntime) -> Result<(), Fail> {
    let alloc = rt.alloc();
    let bytes = 23;
    assert!(rt; is_refused(alloc, &Bounds { depth: 1, ..NONE }, Bound::Depth));
    assert!(rt;
        is_refused(
            alloc,
            &Bounds {
                elements: 2,
                ..NONE
            },
            Bound::Elements
        )
    );
    assert!(rt; is_refused(alloc, &Bounds { bytes, ..NONE }, Bound::Bytes));
    let elements = Bounds {
        elements: 2,
        bytes,
        ..NONE
    };
    assert!(rt; is_refused(alloc, &elements, Bound::Elements));
    let all = Bounds {
        depth: 1,
        elements: 2,
        bytes,
    };
    assert!(rt; is_refused(alloc, &all, Bound::Depth));
    Ok(())
}

#[test]
fn nothing_is_within_no_bytes(rt: HostRuntime) -> Result<(), Fail> {
    let alloc = rt.alloc();
    let none = Bounds {
        depth: 0,
        elements: 0,
        bytes: 0,
    };
    for door in DOORS {
        let (answer, written) = cleaned(alloc, door, "<script>x</script><!-- y -->", &none)?;
        assert!(rt; answer.is_ok() && written.is_empty());
        let (answer, written) = cleaned(alloc, door, "z", &none)?;
        assert!(rt; answer == Err(WithinFault::Beyond(Bound::Bytes)) && written.is_empty());
    }
    Ok(())
}

/// What is answered within these bounds by a reader and a writer that may fail, and how much is written.
fn outcome(
    alloc: Global,
    bytes: &[u8],
    read_fails: Option<u64>,
    write_fails: Option<u64>,
) -> Result<(Result<Cleaned, WithinFault>, usize), AllocError> {
    let (Ok(policy), Ok(five)) = (Policy::text_and_links(alloc), References::five(alloc)) else {
        return Err(AllocError);
    };
    let mut reader = MemReader::new(Vec::from_slice(alloc, bytes)?, 4, read_fails);
    let mut writer = MemWriter::new(alloc, 4, 100, write_fails, false)?;
    let bounds = Bounds { bytes: 8, ..NONE };
    let answer = clean_within(
        alloc,
        &mut reader,
        &mut writer,
        five,
        Exact::default(),
        &policy,
        &bounds,
    );
    Ok((answer, writer.written().len()))
}

#[test]
fn faults_are_told_within_bounds(rt: HostRuntime) -> Result<(), Fail> {
    let alloc = rt.alloc();
    let refused = Err(WithinFault::Other(NormalFault::NotUtf8 { at: 4 }));
    assert!(rt; outcome(alloc, b"<p>a\xFF", None, None)? == (refused, 0));
    let read = Err(WithinFault::Other(NormalFault::Read));
    assert!(rt; outcome(alloc, b"<p>a</p>", Some(1), None)? == (read, 0));
    let broke = outcome(alloc, b"<p>a</p>", None, Some(2))?;
    assert!(rt; broke.0 == Err(WithinFault::Other(NormalFault::Write)) && broke.1 < 8);
    let beyond = outcome(alloc, b"<p>ab</p>", None, Some(2))?;
    assert!(rt; beyond == (Err(WithinFault::Beyond(Bound::Bytes)), 0));
    Ok(())
}
