ghost use Rattle.std.specs.Prelude.{◌≡◌, ◌*◌, ◌≤◌, length};
ghost use Rattle.model.specs.Board.{edge_limit, vertex_limit};
ghost use Rattle.model.specs.Lent.{board_lent, sheet_lent};
ghost use Rattle.model.specs.Refusals.{refusal_of, edges_of, edge_rules, byte_rules, board_rules, plain_rules, sheet_rules, decode_refusal, verdict_refusal, distance_refusal, whole_rules};
ghost use Rattle.board.specs.Checks.{test_of};

use crate::bytes::first_above;
use crate::counts::check_counts;
use crate::ends::first_outside;
use crate::opened::{check_open, check_open_bytes};
use model::lent::{Board, Sheet};
use model::numbers::{Edge, Vertex};
use model::refusal::Refusal;

// The tests 4 and 6, once the counts have passed.
pub fn check_edges(board: Board<'_>) -> Result<(), Refusal>
    requires { (length board.ends.now ≤ 2 * edge_limit) × (length board.marks.now ≡ edges_of board.ends.now) }
    ensures { test_of result ≡ refusal_of (edge_rules (board_lent board.entry)) }
{
    if let Some(e) = first_outside(board.vertices, board.ends) {
        return Err(Refusal::EndRange(e));
    }
    if let Some(e) = first_above::<Edge>(board.marks, 3) {
        return Err(Refusal::MarkRange(e));
    }
    Ok(())
}

// The tests 7 and 8, once the lengths have passed. They ask nothing of the board.
pub fn check_bytes(syndrome: &[u8], loss: &[u8]) -> Result<(), Refusal>
    requires { (length syndrome.now ≤ vertex_limit) × (length loss.now ≤ edge_limit) }
    ensures { test_of result ≡ refusal_of (byte_rules syndrome.now loss.now) }
{
    if let Some(v) = first_above::<Vertex>(syndrome, 1) {
        return Err(Refusal::SyndromeByte(v));
    }
    if let Some(e) = first_above::<Edge>(loss, 1) {
        return Err(Refusal::LossByte(e));
    }
    Ok(())
}

// The tests 1 to 4 and 6 of a board; `others` says whether each buffer lent beside it has its length.
pub fn check_board(board: Board<'_>, others: bool) -> Result<(), Refusal>
    ensures { test_of result ≡ refusal_of (board_rules (board_lent board.entry) others) }
{
    let marked = board.marks.len() == board.ends.len() / 2;
    let fit = marked & (board.opened.len() == board.vertices) & others;
    check_counts(board.vertices, board.ends, fit)?;
    check_edges(board)
}

// The same, and then the test 16.
pub fn check_whole_board(board: Board<'_>, others: bool) -> Result<(), Refusal>
    ensures { test_of result ≡ refusal_of (whole_rules (board_lent board.entry) others) }
{
    check_board(board, others)?;
    check_open_bytes(board.opened)
}

// The tests 1 to 4 and 6 to 8 of a sheet; `others` says whether each buffer lent beside it has its length.
fn check_plain(sheet: Sheet<'_>, others: bool) -> Result<(), Refusal>
    ensures { test_of result ≡ refusal_of (plain_rules (sheet_lent sheet.entry) others) }
{
    let board = sheet.board;
    let lost = sheet.loss.len() == board.ends.len() / 2;
    let fit = (sheet.syndrome.len() == board.vertices) & lost & others;
    check_board(board, fit)?;
    check_bytes(sheet.syndrome, sheet.loss)
}

// The same, and then the tests 16 and 17.
pub fn check_sheet(sheet: Sheet<'_>, others: bool) -> Result<(), Refusal>
    ensures { test_of result ≡ refusal_of (sheet_rules (sheet_lent sheet.entry) others) }
{
    check_plain(sheet, others)?;
    check_open(sheet.board.opened, sheet.syndrome)
}

// What decoding is lent: a sheet, and two buffers to fill.
pub fn check_decode(sheet: Sheet<'_>, support: &[u8], correction: &[u8]) -> Result<(), Refusal>
    ensures { test_of result ≡ decode_refusal (sheet_lent sheet.entry) support.now correction.now }
{
    let edges = sheet.board.ends.len() / 2;
    let fit = (support.len() == edges) & (correction.len() == edges);
    check_sheet(sheet, fit)
}

// What the verdict is lent: a sheet, and a handed-in set.
pub fn check_verdict(sheet: Sheet<'_>, handed: &[u8]) -> Result<(), Refusal>
    ensures { test_of result ≡ verdict_refusal (sheet_lent sheet.entry) handed.now }
{
    let fit = handed.len() == sheet.board.ends.len() / 2;
    check_plain(sheet, fit)?;
    if let Some(e) = first_above::<Edge>(handed, 1) {
        return Err(Refusal::HandedByte(e));
    }
    check_open(sheet.board.opened, sheet.syndrome)
}

// What the distance is lent: a board, and a buffer to fill.
pub fn check_distance(board: Board<'_>, shown: &[u8]) -> Result<(), Refusal>
    ensures { test_of result ≡ distance_refusal (board_lent board.entry) shown.now }
{
    let fit = shown.len() == board.ends.len() / 2;
    check_whole_board(board, fit)
}
