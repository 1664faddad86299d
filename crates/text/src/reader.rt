ghost use Rattle.std.specs.Prelude.{◌≡◌};
ghost use Rattle.model.specs.LineNumbers.{line_number};
ghost use Rattle.text.specs.LineReadings.{ReadsLine};
ghost use Rattle.text.specs.LineReader.{AtStart, MovedOn};

use crate::line::{LineRead, line_at};

// The line reader: the lent text itself, the position at which the next line begins, and that line's number.
#[derive(Clone, Copy)]
pub(crate) struct Lines<'a> {
    pub text: &'a [u8],
    pub at: usize,
    pub number: usize,
}

impl<'a> Lines<'a> {
    // A reader before the first line, which has number 1.
    pub fn of(text: &'a [u8]) -> Lines<'a>
        ensures { AtStart text.entry result }
    {
        Lines {
            text,
            at: 0,
            number: 1,
        }
    }

    // The next line, the position after it and the number of the line that begins there. It is made part of both places that call it, so that
    // a malformed line leads from where it is found to where it is refused; a call would make a whole value for it at each byte.
    #[inline(always)]
    pub fn next_line(self) -> Option<LineRead>
        requires { self.number ≡ line_number self.text.now self.at }
        ensures { ReadsLine self.entry.text.now self.entry.at self.entry.number result }
    {
        line_at(self.text, self.at, self.number)
    }

    // The same reader before a later line, which begins at a position and has this number.
    pub fn moved_on(self, at: usize, number: usize) -> Lines<'a>
        requires { number ≡ line_number self.text.now at }
        ensures { MovedOn self.entry at number result }
    {
        Lines {
            text: self.text,
            at,
            number,
        }
    }
}
