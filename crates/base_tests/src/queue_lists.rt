//! The queue beside a plain list of characters: each public call, on all texts of 0 to 4 characters of three kinds, from each place in
//! them.
ghost use Rattle.std.specs.Str.{IsAscii};

use html_queue::{BufferQueue, SetResult, SmallCharSet};
use markup::ParseFault;
use std::alloc::{AllocError, Global};

/// How many texts there are of 0 to 4 characters, by their length.
const COUNTS: [usize; 5] = [1, 3, 9, 27, 81];

/// The set of `<`.
const SET: SmallCharSet = SmallCharSet { bits: 1 << 60 };

/// A letter, a member of the set, and a letter of two bytes.
fn character(number: usize) -> char {
    match number % 3 {
        0 => 'a',
        1 => '<',
        _ => '\u{e9}',
    }
}

/// The characters of one of the texts of so many.
fn list_of(alloc: Global, length: usize, number: usize) -> Result<Vec<char>, AllocError> {
    let mut list = Vec::new(alloc);
    let mut left = number;
    for _ in 0..length {
        list.push(character(left))?;
        left /= 3;
    }
    Ok(list)
}

fn add_lists(
    alloc: Global,
    lists: &mut Vec<Vec<char>>,
    length: usize,
    count: usize,
) -> Result<(), AllocError> {
    for number in 0..count {
        lists.push(list_of(alloc, length, number)?)?;
    }
    Ok(())
}

/// All texts of 0 to 4 characters.
fn all_lists(alloc: Global) -> Result<Vec<Vec<char>>, AllocError> {
    let mut lists = Vec::new(alloc);
    for (length, &count) in COUNTS.iter().enumerate() {
        add_lists(alloc, &mut lists, length, count)?;
    }
    Ok(lists)
}

fn text_of(alloc: Global, list: &[char]) -> Result<String, AllocError> {
    let mut text = String::new(alloc);
    for &c in list {
        text.push(c)?;
    }
    Ok(text)
}

/// What is left of a list after so many characters.
fn behind(list: &[char], taken: usize) -> &[char] {
    match list.split_at_checked(taken) {
        Some((_, rest)) => rest,
        None => &[],
    }
}

/// A queue of a text, of which so many characters were taken.
fn queue_after(alloc: Global, list: &[char], taken: usize) -> Result<BufferQueue, ParseFault> {
    let mut queue = BufferQueue::new();
    queue.push_back(text_of(alloc, list)?)?;
    for _ in 0..taken {
        let _ = queue.next();
    }
    Ok(queue)
}

/// Whether a queue gives just these characters, each seen before it is taken.
fn gives(queue: &mut BufferQueue, list: &[char]) -> bool {
    for &c in list {
        if queue.is_empty() || queue.peek() != Some(c) || queue.next() != Some(c) {
            return false;
        }
    }
    queue.is_empty() && queue.peek().is_none() && queue.next().is_none()
}

/// Whether a queue gives the characters of both lists, one list after the other.
fn gives_both(
    alloc: Global,
    queue: &mut BufferQueue,
    first: &[char],
    second: &[char],
) -> Result<bool, ParseFault> {
    let mut both = Vec::from_slice(alloc, first)?;
    both.extend_from_slice(second)?;
    Ok(gives(queue, both.as_slice()))
}

/// A list, and how many of its characters were taken.
type Begun<'a> = (&'a [char], usize);

/// Whether all that waits is lent as one text, and given.
fn is_lent(alloc: Global, begun: Begun) -> Result<bool, ParseFault> {
    let rest = behind(begun.0, begun.1);
    let mut queue = queue_after(alloc, begun.0, begun.1)?;
    let text = text_of(alloc, rest)?;
    Ok(queue.as_str() == text.as_str() && gives(&mut queue, rest))
}

/// How many characters stand before the first that is in the set.
fn run_of(list: &[char]) -> usize {
    for (place, &c) in list.iter().enumerate() {
        if c == '<' {
            return place;
        }
    }
    list.len()
}

/// Whether a text is made of so many characters of the front of a list.
fn is_text(text: &str, list: &[char], count: usize) -> bool {
    text.chars().count() == count && text.chars().eq(list.iter().take(count).copied())
}

/// Whether a piece is the first of a list: a member of the set, or the run before one.
fn is_first(piece: &SetResult, list: &[char]) -> bool {
    match piece {
        SetResult::FromSet(c) => *c == '<' && list.first() == Some(&'<'),
        SetResult::NotFromSet(run) => {
            let count = run_of(list);
            count > 0 && is_text(run.as_str(), list, count)
        }
    }
}

/// Whether what is taken first is what stands first in the list, and the rest is left.
fn pops(alloc: Global, begun: Begun) -> Result<bool, ParseFault> {
    let rest = behind(begun.0, begun.1);
    let mut queue = queue_after(alloc, begun.0, begun.1)?;
    match queue.pop_except_from(SET)? {
        None => Ok(rest.is_empty() && gives(&mut queue, rest)),
        Some(piece) => {
            Ok(is_first(&piece, rest) && gives(&mut queue, behind(rest, run_of(rest).max(1))))
        }
    }
}

/// Whether a text that is put after what waits comes after it.
fn puts_after(alloc: Global, begun: Begun, other: &[char]) -> Result<bool, ParseFault> {
    let mut queue = queue_after(alloc, begun.0, begun.1)?;
    queue.push_back(text_of(alloc, other)?)?;
    gives_both(alloc, &mut queue, behind(begun.0, begun.1), other)
}

/// Whether a text that is put before what waits comes before it.
fn puts_before(alloc: Global, begun: Begun, other: &[char]) -> Result<bool, ParseFault> {
    let mut queue = queue_after(alloc, begun.0, begun.1)?;
    queue.push_front(text_of(alloc, other)?)?;
    gives_both(alloc, &mut queue, other, behind(begun.0, begun.1))
}

/// Whether two queues are exchanged, and then one is put in the place of the other.
fn exchanges(alloc: Global, begun: Begun, other: &[char]) -> Result<bool, ParseFault> {
    let mut first = queue_after(alloc, begun.0, begun.1)?;
    let mut second = queue_after(alloc, other, 0)?;
    first.swap_with(&mut second);
    let is_there = gives(&mut first, other);
    first.replace_with(second);
    Ok(is_there && gives(&mut first, behind(begun.0, begun.1)))
}

/// What eating a pattern answers, by a list.
fn eaten(list: &[char], pattern: &str) -> Option<bool> {
    let mut rest = list.iter();
    for wanted in pattern.chars() {
        if !rest.next()?.eq_ignore_ascii_case(&wanted) {
            return Some(false);
        }
    }
    Some(true)
}

/// Whether a pattern is eaten where the list begins with it, in any case, and else nothing.
fn eats(alloc: Global, begun: Begun, pattern: &str) -> Result<bool, ParseFault>
    requires { IsAscii pattern.now }
{
    let rest = behind(begun.0, begun.1);
    let mut queue = queue_after(alloc, begun.0, begun.1)?;
    let answer = eaten(rest, pattern);
    let left = if answer == Some(true) {
        pattern.len()
    } else {
        0
    };
    let is_answered = queue.eat(pattern, u8::eq_ignore_ascii_case) == answer;
    Ok(is_answered && gives(&mut queue, behind(rest, left)))
}

/// Whether a queue of which nothing else is put in answers as its list does.
fn is_alone_right(alloc: Global, begun: Begun) -> Result<bool, ParseFault> {
    Ok(
        is_lent(alloc, begun)?
            && pops(alloc, begun)?
            && eats(alloc, begun, "")?
            && eats(alloc, begun, "A")?
            && eats(alloc, begun, "a<")?
            && eats(alloc, begun, "<aA")?
            && eats(alloc, begun, "aaaa")?
            && eats(alloc, begun, "<<<<<")?,
    )
}

/// Whether a queue does so to which another text comes.
fn is_together_right(alloc: Global, begun: Begun, other: &[char]) -> Result<bool, ParseFault> {
    Ok(
        puts_after(alloc, begun, other)?
            && puts_before(alloc, begun, other)?
            && exchanges(alloc, begun, other)?,
    )
}

/// Whether all calls are right, on a text and each other text.
fn is_begun_right(alloc: Global, begun: Begun, others: &[Vec<char>]) -> Result<bool, ParseFault> {
    for other in others {
        if !is_together_right(alloc, begun, other.as_slice())? {
            return Ok(false);
        }
    }
    is_alone_right(alloc, begun)
}

/// The same from each place in the text.
fn is_right(alloc: Global, list: &[char], others: &[Vec<char>]) -> Result<bool, ParseFault> {
    for taken in 0..=4usize {
        if taken <= list.len() && !is_begun_right(alloc, (list, taken), others)? {
            return Ok(false);
        }
    }
    Ok(true)
}

#[test]
fn answers_as_a_list_does(rt: HostRuntime) -> Result<(), std::test::Fail> {
    let lists = all_lists(rt.alloc())?;
    assert!(rt; lists.len() == 121);
    for list in &lists {
        let found = is_right(rt.alloc(), list.as_slice(), lists.as_slice());
        assert!(rt; matches!(found, Ok(true)), "{list:?}");
    }
    Ok(())
}
