// Lines put into a buffer at a position, byte after byte. Each function hands back the position after what it put.
ghost use Rattle.std.specs.Prelude.{◌+◌, ◌≤◌, ◌<◌, [], ◌∷◌, length, eqb};
ghost use Rattle.model.specs.Sums.{ones};
ghost use Rattle.model.specs.Text.{decimal};
ghost use Rattle.text.specs.Printing.{Puts, field_bytes, number_bytes, edge_bytes, place_bytes, listed_bytes};

use crate::field::{DIGIT_ZERO, TAB};
use crate::line::{LETTER_E, NEWLINE};
use model::numbers::Vertex;

// Puts a number's digits, the last of them after those of the tens.
pub fn put_number(out: &mut [u8], at: usize, n: usize) -> usize
    requires { at + length (decimal n) ≤ length out.old }
    ensures { Puts (decimal n) out.old at result out.new }
{
    if n < 10 {
        out[at] = DIGIT_ZERO + n as u8;
        return at + 1;
    }
    let last = put_number(out, at, n / 10);
    out[last] = DIGIT_ZERO + (n % 10) as u8;
    last + 1
}

pub fn put_byte(out: &mut [u8], at: usize, byte: u8) -> usize
    requires { at < length out.old }
    ensures { Puts (byte ∷ []) out.old at result out.new }
{
    out[at] = byte;
    at + 1
}

// Puts a tab and a number.
pub fn put_field(out: &mut [u8], at: usize, n: usize) -> usize
    requires { at + length (field_bytes n) ≤ length out.old }
    ensures { Puts (field_bytes n) out.old at result out.new }
{
    let digits = put_byte(out, at, TAB);
    put_number(out, digits, n)
}

// Puts a line of one number.
pub fn put_line(out: &mut [u8], at: usize, letter: u8, n: usize) -> usize
    requires { at + length (number_bytes letter n) ≤ length out.old }
    ensures { Puts (number_bytes letter n) out.old at result out.new }
{
    let field = put_byte(out, at, letter);
    let end = put_field(out, field, n);
    put_byte(out, end, NEWLINE) // ends a line of one number
}

// Puts an edge's line.
pub fn put_edge(out: &mut [u8], at: usize, first: Vertex, second: Vertex, mark: u8) -> usize
    requires { at + length (edge_bytes first.0 second.0 mark) ≤ length out.old }
    ensures { Puts (edge_bytes first.0 second.0 mark) out.old at result out.new }
{
    let first_at = put_byte(out, at, LETTER_E);
    let second_at = put_field(out, first_at, first.0 as usize);
    let mark_at = put_field(out, second_at, second.0 as usize);
    let end = put_field(out, mark_at, mark as usize);
    put_byte(out, end, NEWLINE)
}

// Puts a line for a place that holds 1, and nothing for one that holds 0.
fn put_place(out: &mut [u8], at: usize, letter: u8, place: usize, byte: u8) -> usize
    requires { at + length (place_bytes letter place (eqb byte 1)) ≤ length out.old }
    ensures { Puts (place_bytes letter place (eqb byte 1)) out.old at result out.new }
{
    if byte == 1 {
        return put_line(out, at, letter, place);
    }
    at
}

// Puts a line for each place that holds 1, rising.
pub fn put_listed(out: &mut [u8], at: usize, letter: u8, bytes: &[u8]) -> usize
    requires { at + length (listed_bytes letter (ones bytes.now) (length bytes.now)) ≤ length out.old }
    ensures { Puts (listed_bytes letter (ones bytes.now) (length bytes.now)) out.old at result out.new }
{
    let mut next = at;
    for (i, byte) in bytes.iter().enumerate() {
        next = put_place(out, next, letter, i, *byte);
    }
    next
}
