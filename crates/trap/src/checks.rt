// The tests of what the search for a trap is lent.
ghost use Rattle.std.specs.Prelude.{◌≡◌};
ghost use Rattle.model.specs.Lent.{board_lent};
ghost use Rattle.model.specs.Refusals.{trap_refusal};
ghost use Rattle.board.specs.Checks.{test_of};

use board::bytes::first_above;
use board::opened::check_open_bytes;
use board::tests::check_board;
use model::lent::Board;
use model::limits::TRAP_EDGES;
use model::numbers::Edge;
use model::refusal::Refusal;

// A board with its losses, and a buffer for the set: 8 comes before 16, as on a sheet, and 23 last.
pub(crate) fn check_trap(board: Board<'_>, loss: &[u8], set: &[u8]) -> Result<(), Refusal>
    ensures { test_of result ≡ trap_refusal (board_lent board.entry) loss.now set.now }
{
    let edges = board.ends.len() / 2;
    let fit = (loss.len() == edges) & (set.len() == edges);
    check_board(board, fit)?;
    if let Some(e) = first_above::<Edge>(loss, 1) {
        return Err(Refusal::LossByte(e));
    }
    check_open_bytes(board.opened)?;
    if board.marks.len() > TRAP_EDGES {
        return Err(Refusal::TrapEdges);
    }
    Ok(())
}
