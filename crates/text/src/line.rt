ghost use Rattle.std.specs.Prelude.{◌≡◌, ◌+◌, not, eqb, length, drop, take_while};
ghost use Rattle.model.specs.Text.{newline, tab, letter_e, parted_by, line_from};
ghost use Rattle.model.specs.LineNumbers.{line_number};
ghost use Rattle.text.specs.Pieces.{up_to};
ghost use Rattle.text.specs.LineReadings.{number_parsed, fields_parsed, line_parsed, ReadsLine};

use crate::field::{TAB, field_at};
use model::numbers::{Edge, Vertex};

// The byte that ends a line.
pub const NEWLINE: u8 = b'\n';

// The letters of the five kinds of line.
pub const LETTER_V: u8 = b'V';

pub const LETTER_E: u8 = b'E';

pub const LETTER_O: u8 = b'O';

pub const LETTER_S: u8 = b'S';

pub const LETTER_X: u8 = b'X';

// A line by its kind, with its numbers.
#[derive(Clone, Copy)]
pub enum Line {
    Vertices(u16),
    Edge {
        first: Vertex,
        second: Vertex,
        mark: u16,
    },
    Open(Vertex),
    Syndrome(Vertex),
    Lost(Edge),
}

// A line that was read, the position after its newline, and the number of the line that begins there.
#[derive(Clone, Copy)]
pub struct LineRead {
    pub line: Line,
    pub next: usize,
    pub number: usize,
}

// How many bytes stand before the first newline, or in all where there is none.
fn line_length(rest: &[u8]) -> usize
    ensures { result ≡ length (take_while (λ b. not (eqb b newline)) rest.now) }
{
    rest.iter().take_while(|byte| **byte != NEWLINE).count()
}

// The position of the newline that ends the line at a position, or the text's end.
fn line_end(text: &[u8], at: usize) -> usize
    ensures { result ≡ at + length (up_to newline (drop at text.now)) }
{
    if text.len() <= at {
        return at;
    }
    at + line_length(&text[at..])
}

// An edge's line: three fields from the third byte on.
#[tactic(auto, using(crate::proofs::LineReadingLaws::bad_first, crate::proofs::LineReadingLaws::one_field, crate::proofs::LineReadingLaws::bad_second, crate::proofs::LineReadingLaws::two_fields, crate::proofs::LineReadingLaws::bad_third, crate::proofs::LineReadingLaws::fourth_field, crate::proofs::LineReadingLaws::edge_fields))]
fn edge_line(line: &[u8]) -> Option<Line>
    ensures { result ≡ fields_parsed letter_e (parted_by tab (drop 2 line.now)) }
{
    let first = field_at(line, 2)?;
    if line.len() <= first.end {
        return None;
    }
    let second = field_at(line, first.end + 1)?;
    if line.len() <= second.end {
        return None;
    }
    let mark = field_at(line, second.end + 1)?;
    if mark.end < line.len() {
        return None;
    }
    Some(Line::Edge {
        first: Vertex(first.value),
        second: Vertex(second.value),
        mark: mark.value,
    })
}

// A line of one number: the four other letters.
fn number_line(letter: u8, value: u16) -> Option<Line>
    ensures { result ≡ number_parsed letter value }
{
    match letter {
        LETTER_V => Some(Line::Vertices(value)),
        LETTER_O => Some(Line::Open(Vertex(value))),
        LETTER_S => Some(Line::Syndrome(Vertex(value))),
        LETTER_X => Some(Line::Lost(Edge(value))),
        _ => None,
    }
}

// A line without its newline: a letter, a tab, and its fields.
#[tactic(auto, using(crate::proofs::LineReadingLaws::too_short, crate::proofs::LineReadingLaws::no_tab, crate::proofs::LineReadingLaws::tabbed, crate::proofs::LineReadingLaws::edge_letter, crate::proofs::LineReadingLaws::first_bad, crate::proofs::LineReadingLaws::second_field, crate::proofs::LineReadingLaws::only_field))]
fn line_of(line: &[u8]) -> Option<Line>
    ensures { result ≡ line_parsed (line_from line.now) }
{
    let [letter, TAB, ..] = line else {
        return None;
    };
    if *letter == LETTER_E {
        return edge_line(line);
    }
    let field = field_at(line, 2)?;
    if field.end < line.len() {
        return None;
    }
    number_line(*letter, field.value)
}

// The line of a text that begins at a position and has this number; a line without its newline is malformed.
// It is made part of the reader's `next_line`, for the reason given there.
#[inline(always)]
pub fn line_at(text: &[u8], at: usize, number: usize) -> Option<LineRead>
    requires { number ≡ line_number text.now at }
    ensures { ReadsLine text.now at number result }
{
    let end = line_end(text, at);
    if text.len() <= end {
        return None;
    }
    let line = line_of(&text[at..end])?;
    Some(LineRead {
        line,
        next: end + 1,
        number: number + 1,
    })
}
