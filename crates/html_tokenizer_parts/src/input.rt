//! The characters of the input as they come (HTML Standard, section 13.2.3.5).
ghost use Rattle.std.specs.Prelude.{◌≡◌, [], IfNone, nat_eq};
ghost use Rattle.html_tokenizer_parts.specs.Input.{newline_for, MarkPassed, NewlineMade, Nexts};

use crate::stream::Stream;
use html_queue::BufferQueue;

impl Stream {
    /// What stands for a first character: itself, or the one after it where it is a byte order mark that is dropped.
    fn after_mark(&mut self, c: char, input: &mut BufferQueue) -> Option<char>
        ensures passed { MarkPassed self.old self.new input.old input.new c result }
        ensures empty { IfNone result (input.new.characters ≡ []) }
    {
        if !self.discard_bom {
            return Some(c);
        }
        self.discard_bom = false;
        if c == '\u{FEFF}' {
            return input.next();
        }
        Some(c)
    }

    /// A carriage return as a line feed.
    fn newline(&mut self, c: char) -> char
        ensures newline { result ≡ newline_for c }
        ensures changed { self.new ≡ record self.old { ignore_lf = nat_eq c 13 } }
    {
        self.ignore_lf = c == '\r';
        if c == '\r' { '\n' } else { c }
    }

    /// What stands for a character where line ends are one line feed each.
    pub fn after_return(&mut self, c: char, input: &mut BufferQueue) -> Option<char>
        ensures made { NewlineMade self.old self.new input.old input.new c result }
        ensures empty { IfNone result (input.new.characters ≡ []) }
    {
        if !self.ignore_lf || c != '\n' {
            return Some(self.newline(c));
        }
        self.ignore_lf = false;
        let c = input.next()?;
        Some(self.newline(c))
    }

    /// Takes the next character of the input. `None` where no character is left.
    #[inline(always)]
    pub fn next_char(&mut self, input: &mut BufferQueue) -> Option<char>
        ensures { Nexts self.old self.new input.old input.new result }
    {
        let c = input.next()?;
        let c = self.after_mark(c, input)?;
        self.after_return(c, input)
    }
}
