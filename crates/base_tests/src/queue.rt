//! Worked values of the queue of characters, each public call on the way.

use crate::see;
use html_queue::{BufferQueue, SetResult, SmallCharSet};
use markup::ParseFault;
use std::alloc::Global;

// NUL, `&` and `<`.
const SET: SmallCharSet = SmallCharSet {
    bits: 1 << 60 | 1 << 38 | 1,
};

fn put_after(alloc: Global, queue: &mut BufferQueue, text: &str) -> Result<(), ParseFault> {
    queue.push_back(String::from_str(alloc, text)?)
}

fn put_before(alloc: Global, queue: &mut BufferQueue, text: &str) -> Result<(), ParseFault> {
    queue.push_front(String::from_str(alloc, text)?)
}

// Whether a queue gives this character, seen before it is taken.
fn gives_one(queue: &mut BufferQueue, want: char) -> bool {
    !queue.is_empty() && queue.peek() == Some(want) && queue.next() == Some(want)
}

// Whether a queue gives these characters, and then no more.
fn gives(queue: &mut BufferQueue, wanted: &str) -> bool {
    for want in wanted.chars() {
        if !gives_one(queue, want) {
            return false;
        }
    }
    queue.is_empty() && queue.peek().is_none() && queue.next().is_none()
}

// Whether what is put at the back and at the front of a queue comes in order, from one that was empty.
fn comes_in_order(alloc: Global, queue: &mut BufferQueue) -> bool {
    gives(queue, "")
        && put_after(alloc, queue, "\u{e9}\u{20ac}").is_ok()
        && put_before(alloc, queue, "ab").is_ok()
        && put_after(alloc, queue, "\u{1f600}z").is_ok()
        && gives(queue, "ab\u{e9}\u{20ac}\u{1f600}z")
}

#[test]
fn takes_in_order(rt: HostRuntime) {
    assert!(rt; comes_in_order(rt.alloc(), &mut BufferQueue::new()));
}

/// What is asked of a queue.
enum Asked {
    /// That `ab` is taken, and this text put back.
    PutBack(&'static str),
    /// That nothing is taken, since nothing is there.
    Nothing,
    /// That this member of the set is taken.
    Member(char),
    /// That this run without members is taken.
    Run(&'static str),
    /// That eating `doctype` answers this.
    Eaten(Option<bool>),
}

/// A text, what is asked of a queue that holds it, and what stands there then.
type Row = (&'static str, Asked, &'static str);

const PUT_BACK: &[Row] = &[
    ("abc<d", Asked::PutBack("b"), "bc<d"),
    ("abc<d", Asked::PutBack("ab"), "abc<d"),
    ("abc<d", Asked::PutBack(""), "c<d"),
    ("abc<d", Asked::PutBack("x"), "xc<d"),
    ("abc<d", Asked::PutBack("\u{e9}b"), "\u{e9}bc<d"),
    ("abc<d", Asked::PutBack("a"), "ac<d"),
    ("abc<d", Asked::PutBack("12ab"), "12abc<d"),
];

const TAKEN: &[Row] = &[
    ("", Asked::Nothing, ""),
    ("<", Asked::Member('<'), ""),
    ("&&a", Asked::Member('&'), "&a"),
    ("\0a", Asked::Member('\0'), "a"),
    ("a", Asked::Run("a"), ""),
    ("ab<c", Asked::Run("ab"), "<c"),
    ("|f@<c", Asked::Run("|f@"), "<c"),
    ("\u{e9}\u{20ac}&", Asked::Run("\u{e9}\u{20ac}"), "&"),
];

const EATEN: &[Row] = &[
    ("doctype x", Asked::Eaten(Some(true)), " x"),
    ("DocType", Asked::Eaten(Some(true)), ""),
    ("doctyp", Asked::Eaten(None), "doctyp"),
    ("", Asked::Eaten(None), ""),
    ("dxctype", Asked::Eaten(Some(false)), "dxctype"),
    ("d\u{e9}", Asked::Eaten(Some(false)), "d\u{e9}"),
    ("x", Asked::Eaten(Some(false)), "x"),
];

const TABLES: &[&[Row]] = &[PUT_BACK, TAKEN, EATEN];

// What is taken first of a queue; it is asked for once more where memory was refused.
fn first_piece(queue: &mut BufferQueue) -> Result<Option<SetResult>, ParseFault> {
    match queue.pop_except_from(SET) {
        Ok(piece) => Ok(piece),
        Err(_) => queue.pop_except_from(SET),
    }
}

fn is_piece(piece: &Option<SetResult>, asked: &Asked) -> bool {
    match piece {
        None => matches!(asked, Asked::Nothing),
        Some(SetResult::FromSet(c)) => matches!(asked, Asked::Member(want) if want == c),
        Some(SetResult::NotFromSet(run)) => {
            matches!(asked, Asked::Run(want) if !run.is_empty() && run.as_str() == *want)
        }
    }
}

// Whether this is taken first of a queue.
fn takes(queue: &mut BufferQueue, asked: &Asked) -> bool {
    match first_piece(queue) {
        Ok(piece) => is_piece(&piece, asked),
        Err(_) => false,
    }
}

fn puts_back(alloc: Global, queue: &mut BufferQueue, front: &str) -> bool {
    queue.next() == Some('a')
        && queue.next() == Some('b')
        && put_before(alloc, queue, front).is_ok()
}

fn answers(alloc: Global, queue: &mut BufferQueue, asked: &Asked) -> bool {
    match asked {
        Asked::PutBack(front) => puts_back(alloc, queue, front),
        Asked::Eaten(want) => queue.eat("doctype", u8::eq_ignore_ascii_case) == *want,
        _ => takes(queue, asked),
    }
}

// Whether a row is right of a queue that was empty.
fn is_answered(alloc: Global, queue: &mut BufferQueue, row: &Row) -> bool {
    put_after(alloc, queue, row.0).is_ok() && answers(alloc, queue, &row.1) && gives(queue, row.2)
}

#[test]
fn puts_back_takes_and_eats(rt: HostRuntime) {
    for &rows in TABLES {
        for row in rows {
            see(
                &rt,
                is_answered(rt.alloc(), &mut BufferQueue::new(), row),
                row.0,
            );
        }
    }
}

// Whether the first queue gets what the second has, and then what it had itself.
fn is_exchanged(first: &mut BufferQueue, mut second: BufferQueue) -> bool {
    first.swap_with(&mut second);
    let begins = first.peek() == Some('t') && second.peek() == Some('o');
    first.replace_with(second);
    begins && gives(first, "one")
}

// The same of two queues that were empty.
fn are_exchanged(alloc: Global, first: &mut BufferQueue, mut second: BufferQueue) -> bool {
    put_after(alloc, first, "one").is_ok()
        && put_after(alloc, &mut second, "two").is_ok()
        && is_exchanged(first, second)
}

#[test]
fn exchanges_and_replaces(rt: HostRuntime) {
    let first = &mut BufferQueue::new();
    assert!(rt; are_exchanged(rt.alloc(), first, BufferQueue::new()));
}

// Whether a text is put at the back, if need be once more, since memory was refused.
fn is_put_after(alloc: Global, queue: &mut BufferQueue, text: &str) -> bool {
    put_after(alloc, queue, text).is_ok() || put_after(alloc, queue, text).is_ok()
}

fn is_put_before(alloc: Global, queue: &mut BufferQueue, text: &str) -> bool {
    put_before(alloc, queue, text).is_ok() || put_before(alloc, queue, text).is_ok()
}

/// Any one allocation may be refused: the call that asked for it changes nothing, so that it can be
/// made again.
fn stands_after_a_refusal(alloc: Global, queue: &mut BufferQueue) -> bool {
    is_put_after(alloc, queue, "ab")
        && is_put_after(alloc, queue, "\u{e9}<cd")
        && is_put_after(alloc, queue, "e")
        && takes(queue, &Asked::Run("ab\u{e9}"))
        && is_put_before(alloc, queue, "a longer text")
        && gives(queue, "a longer text<cde")
}

#[test]
fn stands_after_a_refused_growth(rt: HostRuntime) {
    assert!(rt; stands_after_a_refusal(rt.alloc(), &mut BufferQueue::new()));
}
