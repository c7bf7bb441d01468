//! Plain documents of every form, made by chance: each is read as it is written, without an error.

use crate::tests::{Devices, WHOLE, is_normal, plain};
use html_normal::Exact;
use std::alloc::{AllocError, Global};

/// Numbers that only look like chance: the same in each run.
#[derive(Drop)]
struct Dice {
    state: usize,
}

impl Dice {
    /// A number below `sides`, or 0 where there is no side.
    fn roll(&mut self, sides: usize) -> usize {
        self.state = self
            .state
            .wrapping_mul(6_364_136_223_846_793_005)
            .wrapping_add(1_442_695_040_888_963_407);
        (self.state >> 33) % sides.max(1)
    }

    /// One time in so many.
    fn once_in(&mut self, times: usize) -> bool {
        self.roll(times) == 0
    }
}

/// What may stand where: a name, and what may stand inside it.
#[derive(Clone, Copy)]
enum Room {
    Flow,
    Line,
    Link,
    List,
    Table,
    Rows,
    Cells,
}

type Forms = &'static [(&'static str, Room)];

const FLOW: Forms = &[
    ("p", Room::Line),
    ("h1", Room::Line),
    ("h2", Room::Line),
    ("h3", Room::Line),
    ("h4", Room::Line),
    ("h5", Room::Line),
    ("h6", Room::Line),
    ("div", Room::Flow),
    ("ul", Room::List),
    ("ol", Room::List),
    ("table", Room::Table),
    ("div", Room::Flow),
    ("ul", Room::List),
    ("table", Room::Table),
    ("b", Room::Line),
    ("i", Room::Line),
    ("em", Room::Line),
    ("code", Room::Line),
    ("a", Room::Link),
];

const LINE: Forms = &[
    ("b", Room::Line),
    ("i", Room::Line),
    ("em", Room::Line),
    ("code", Room::Line),
    ("a", Room::Link),
];

const LINK: Forms = &[
    ("b", Room::Link),
    ("i", Room::Link),
    ("em", Room::Link),
    ("code", Room::Link),
];

impl Room {
    fn forms(self) -> Forms {
        match self {
            Room::Flow => FLOW,
            Room::Line => LINE,
            Room::Link => LINK,
            Room::List => &[("li", Room::Flow)],
            Room::Table => &[("tbody", Room::Rows)],
            Room::Rows => &[("tr", Room::Cells)],
            Room::Cells => &[("td", Room::Flow), ("th", Room::Flow)],
        }
    }

    /// Whether any text may stand here, and `br`; else white space alone.
    fn takes_text(self) -> bool {
        matches!(self, Room::Flow | Room::Line | Room::Link)
    }

    /// Whether comments may stand here.
    fn takes_comments(self) -> bool {
        matches!(self, Room::Flow)
    }
}

/// Parts of texts, as they are written.
const TEXT: &[&str] = &[
    "a",
    "word ",
    "\n",
    "\t",
    "\u{c}",
    " ",
    "é",
    "€",
    "😀",
    "&amp;",
    "&lt;",
    "&gt;",
    "&nbsp;",
    "&amp;amp;",
    "&amp;lt;p&gt;",
    "&amp;#0;",
    "'",
    "--&gt;",
    "]]&gt;",
    "&lt;/title&gt;",
    "\u{1}",
    "\u{7f}",
    "\u{85}",
    "\u{feff}",
    "\u{fffd}",
    "\u{fffe}",
    "\u{10ffff}",
    "=/`",
];

/// Parts of comments, as they are written.
const COMMENT: &[&str] = &[
    "a",
    " ",
    "\n",
    "\t",
    "\u{c}",
    "&amp;",
    "&",
    "\"",
    "'",
    "!",
    "?x",
    "[if]",
    "é",
    "😀",
    "\u{a0}",
    "\u{1}",
    "\u{85}",
    "\u{feff}",
    "\u{fffd}",
    "\u{10ffff}",
    "=/`",
];

const WHITE: &[&str] = &["\n", "\t", "\u{c}", " ", "  ", "\n    "];

const NAMES: &[&str] = &["a", "class", "href", "data-x", "x1", "-", "7", "xmlns"];

/// A character of any kind that is written as itself.
fn character(dice: &mut Dice) -> char {
    let number = u32::try_from(dice.roll(0x11_0000)).unwrap_or(0);
    match char::from_u32(number) {
        None | Some('\0' | '\r' | '&' | '<' | '>' | '"' | '\u{a0}') => '.',
        Some(c) => c,
    }
}

/// Adds a text of some parts, as it is written.
fn add_text(dice: &mut Dice, page: &mut String, parts: &[&str]) -> Result<(), AllocError> {
    for _ in 0..=dice.roll(6) {
        match parts.get(dice.roll(parts.len())) {
            Some(part) => page.push_str(part)?,
            None => page.push('.')?,
        }
    }
    Ok(())
}

/// The same, and some characters of any kind, where any text may stand.
fn add_any_text(dice: &mut Dice, page: &mut String) -> Result<(), AllocError> {
    add_text(dice, page, TEXT)?;
    for _ in 0..dice.roll(4) {
        page.push(character(dice))?;
    }
    Ok(())
}

fn add_start(dice: &mut Dice, page: &mut String, name: &str) -> Result<(), AllocError> {
    page.push('<')?;
    page.push_str(name)?;
    for name in NAMES {
        if dice.once_in(16) {
            page.push(' ')?;
            page.push_str(name)?;
            page.push_str("=\"")?;
            if dice.once_in(2) {
                page.push_str("&quot;")?;
                add_any_text(dice, page)?;
            }
            page.push('"')?;
        }
    }
    page.push('>')
}

fn add_end(page: &mut String, name: &str) -> Result<(), AllocError> {
    page.push_str("</")?;
    page.push_str(name)?;
    page.push('>')
}

/// Where something is added to a body: what is open, what may stand there, and whether text was added last.
#[derive(Drop)]
struct Place {
    open: Vec<(&'static str, Room)>,
    room: Room,
    after_text: bool,
}

impl Place {
    fn open(&mut self, dice: &mut Dice, page: &mut String) -> Result<(), AllocError> {
        let forms = self.room.forms();
        if let Some(&(name, inside)) = forms.get(dice.roll(forms.len())) {
            add_start(dice, page, name)?;
            self.open.push((name, self.room))?;
            self.room = inside;
            self.after_text = false;
        }
        Ok(())
    }

    fn add_text(&mut self, dice: &mut Dice, page: &mut String) -> Result<(), AllocError> {
        self.after_text = true;
        if self.room.takes_text() {
            add_any_text(dice, page)
        } else {
            add_text(dice, page, WHITE)
        }
    }

    fn add_comment(&mut self, dice: &mut Dice, page: &mut String) -> Result<(), AllocError> {
        self.after_text = false;
        page.push_str("<!--")?;
        if dice.once_in(2) {
            add_text(dice, page, COMMENT)?;
        }
        page.push_str("-->")
    }

    fn add_break(&mut self, dice: &mut Dice, page: &mut String) -> Result<(), AllocError> {
        self.after_text = false;
        add_start(dice, page, "br")
    }

    fn close(&mut self, page: &mut String) -> Result<(), AllocError> {
        match self.open.pop() {
            Some((name, around)) => {
                self.room = around;
                self.after_text = false;
                add_end(page, name)
            }
            None => Ok(()),
        }
    }

    /// Adds something. Elements are opened so many times in ten, and no deeper than 38.
    fn step(&mut self, dice: &mut Dice, page: &mut String, opens: usize) -> Result<(), AllocError> {
        if dice.roll(10) < opens && self.open.len() < 38 {
            self.open(dice, page)
        } else if self.room.takes_comments() && dice.once_in(4) {
            self.add_comment(dice, page)
        } else if !self.after_text && dice.once_in(2) {
            self.add_text(dice, page)
        } else if self.room.takes_text() && dice.once_in(4) {
            self.add_break(dice, page)
        } else {
            self.close(page)
        }
    }

    fn take_steps(
        &mut self,
        dice: &mut Dice,
        page: &mut String,
        steps: usize,
    ) -> Result<(), AllocError> {
        let opens = dice.roll(8).max(2);
        for _ in 0..steps {
            self.step(dice, page, opens)?;
        }
        for _ in 0..self.open.len() {
            self.close(page)?;
        }
        Ok(())
    }
}

/// Adds what stands in a body, in so many steps, and no deeper than 40 elements.
fn add_body(
    alloc: Global,
    dice: &mut Dice,
    page: &mut String,
    steps: usize,
) -> Result<(), AllocError> {
    let mut place = Place {
        open: Vec::new(alloc),
        room: Room::Flow,
        after_text: false,
    };
    place.take_steps(dice, page, steps)
}

fn add_white(dice: &mut Dice, page: &mut String) -> Result<(), AllocError> {
    if dice.once_in(2) {
        add_text(dice, page, WHITE)
    } else {
        Ok(())
    }
}

fn add_title(dice: &mut Dice, page: &mut String) -> Result<(), AllocError> {
    add_start(dice, page, "title")?;
    if dice.once_in(2) {
        add_any_text(dice, page)?;
    }
    add_end(page, "title")?;
    add_white(dice, page)
}

fn add_head(dice: &mut Dice, page: &mut String) -> Result<(), AllocError> {
    add_start(dice, page, "head")?;
    add_white(dice, page)?;
    if dice.once_in(2) {
        add_title(dice, page)?;
    }
    add_end(page, "head")
}

fn add_page(
    alloc: Global,
    dice: &mut Dice,
    page: &mut String,
    steps: usize,
) -> Result<(), AllocError> {
    page.push_str("<!DOCTYPE html>")?;
    add_start(dice, page, "html")?;
    add_head(dice, page)?;
    add_white(dice, page)?;
    add_start(dice, page, "body")?;
    add_body(alloc, dice, page, steps)?;
    add_end(page, "body")?;
    add_end(page, "html")
}

/// A plain document, as it is written.
fn page(alloc: Global, dice: &mut Dice, steps: usize) -> Result<String, AllocError> {
    let mut page = String::new(alloc);
    add_page(alloc, dice, &mut page, steps)?;
    Ok(page)
}

/// The length of a plain document of so many steps, if it is read as it is written.
fn kept_length(alloc: Global, dice: &mut Dice, steps: usize) -> Result<Option<usize>, AllocError> {
    let page = page(alloc, dice, steps)?;
    let on = Devices {
        read: dice.roll(4096),
        room: page.len(),
        ..WHOLE
    };
    let exact = Exact {
        tokenizer: false,
        tree_builder: dice.once_in(2),
    };
    let bytes = page.as_bytes();
    if is_normal(alloc, bytes, &on, exact, plain(0), bytes)? {
        Ok(Some(page.len()))
    } else {
        Ok(None)
    }
}

#[test]
fn plain_documents(rt: HostRuntime) {
    let mut dice = Dice { state: 7 };
    let mut longest = 0;
    for n in 0..2000u64 {
        let steps = if n % 500 == 499 {
            100_000
        } else {
            dice.roll(200)
        };
        let kept = kept_length(rt.alloc(), &mut dice, steps);
        assert!(rt; matches!(kept, Ok(Some(_))), "{n}");
        if let Ok(Some(length)) = kept {
            longest = length.max(longest);
        }
    }
    assert!(rt; longest > 1_000_000, "{longest}");
}

/// A page of so many paragraphs; `written` says whether no tag is left out, as where it is written.
fn paragraphs(alloc: Global, count: u64, written: bool) -> Result<String, AllocError> {
    let mut page = String::from_str(alloc, "<!DOCTYPE html>")?;
    page.push_str(if written {
        "<html><head></head><body>"
    } else {
        ""
    })?;
    for _ in 0..count {
        page.push_str("<p>one <a href=\"/two\">two</a> &amp; <b>three</b>")?;
        page.push_str(if written { "</p>" } else { "" })?;
    }
    page.push_str(if written { "</body></html>" } else { "" })?;
    Ok(page)
}

/// Whether a page of so many paragraphs is written in full, and then as it is.
fn are_paragraphs_kept(alloc: Global, count: u64) -> Result<bool, AllocError> {
    let page = paragraphs(alloc, count, false)?;
    let written = paragraphs(alloc, count, true)?;
    let on = Devices {
        room: written.len(),
        ..WHOLE
    };
    let bytes = written.as_bytes();
    let exact = Exact::default();
    Ok(
        is_normal(alloc, page.as_bytes(), &on, exact, plain(0), bytes)?
            && is_normal(alloc, bytes, &on, exact, plain(0), bytes)?,
    )
}

#[test]
fn a_thousand_paragraphs(rt: HostRuntime) {
    assert!(rt; matches!(are_paragraphs_kept(rt.alloc(), 1_000), Ok(true)));
}
