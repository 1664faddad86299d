ghost use Rattle.std.specs.Prelude.{◌≡◌, ◌+◌, ◌*◌, ◌≤◌, length};
ghost use Rattle.model.specs.Lent.{sheet_lent};
ghost use Rattle.model.specs.Board.{edge_limit};
ghost use Rattle.model.specs.TextOutcomes.{Writes};
ghost use Rattle.text.specs.Printing.{Puts, edges_bytes, sheet_bytes};

use crate::line::{LETTER_O, LETTER_S, LETTER_V, LETTER_X};
use crate::printing::{put_edge, put_line, put_listed};
use board::copy::copy_front;
use board::tests::check_sheet;
use model::ends::{first_end, second_end};
use model::lent::{Board, Sheet};
use model::limits::{EDGES, TEXT, VERTICES};
use model::numbers::Edge;
use model::refusal::Refusal;

// The longest text of any sheet: 7 bytes for `V`, 14 for an edge, 7 for a vertex that is open or in the syndrome (none is both), and 7 for
// a lost edge.
const LONGEST: usize = 7 + 14 * EDGES + 7 * VERTICES + 7 * EDGES;

// Puts an `E` line for each edge.
fn put_edges(out: &mut [u8], at: usize, board: Board<'_>) -> usize
    requires ends_len { (length board.ends.now ≡ 2 * length board.marks.now) × (length board.marks.now ≤ edge_limit) }
    requires marks_in_bounds { at + length (edges_bytes board.ends.now board.marks.now (length board.marks.now)) ≤ length out.old }
    ensures { Puts (edges_bytes board.entry.ends.now board.entry.marks.now (length board.entry.marks.now)) out.old at result out.new }
{
    let mut next = at;
    for (e, mark) in board.marks.iter().enumerate() {
        let edge = Edge(e as u16);
        let first = first_end(board.ends, edge);
        let second = second_end(board.ends, edge);
        next = put_edge(out, next, first, second, *mark);
    }
    next
}

// Puts all lines of a sheet, and hands back their length.
#[tactic(auto, using(crate::proofs::PutLaws::long, crate::proofs::PutLaws::length_sheet))]
fn put_sheet(sheet: Sheet<'_>, out: &mut [u8]) -> usize
    requires ends_len { (length sheet.board.ends.now ≡ 2 * length sheet.board.marks.now)
        × (length sheet.board.marks.now ≤ edge_limit) }
    requires loss_in_bounds { length (sheet_bytes (sheet_lent sheet)) ≤ length out.old }
    ensures { Puts (sheet_bytes (sheet_lent sheet.entry)) out.old 0 result out.new }
{
    let board = sheet.board;
    let edges_at = put_line(out, 0, LETTER_V, board.vertices);
    let opened_at = put_edges(out, edges_at, board);
    let syndrome_at = put_listed(out, opened_at, LETTER_O, board.opened);
    let loss_at = put_listed(out, syndrome_at, LETTER_S, sheet.syndrome);
    put_listed(out, loss_at, LETTER_X, sheet.loss)
}

// Writes the text of a sheet and answers with its length. It is put into an array first, so that a refusal writes nothing.
pub fn write(sheet: Sheet<'_>, text: &mut [u8]) -> Result<usize, Refusal>
    ensures { Writes (sheet_lent sheet.entry) text.old result text.new }
{
    check_sheet(sheet, true)?;
    let mut lines = [0u8; LONGEST];
    let length = put_sheet(sheet, &mut lines);
    if TEXT < length {
        return Err(Refusal::TextLength);
    }
    if text.len() < length {
        return Err(Refusal::TextBuffer);
    }
    copy_front(&lines, length, text);
    Ok(length)
}
