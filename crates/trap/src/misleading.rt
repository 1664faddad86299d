// Whether a set is a trap: the sheet that is handed out after its edges were flipped is decoded, and the verdict on the set is asked for.
ghost use Rattle.std.specs.Prelude.{◌≡◌, length};
ghost use Rattle.model.specs.Board.{ValidBytes};
ghost use Rattle.model.specs.Lent.{board_lent};
ghost use Rattle.model.specs.Sums.{ones};
ghost use Rattle.model.specs.Traps.{traps};
ghost use Rattle.model.specs.Words.{bit_of};
ghost use Rattle.trap.specs.Settable.{Settable};

use board::masks::spread;
use model::lent::{Board, Sheet};
use model::limits::{TRAP_EDGES, VERTICES};
use verdict::compare;
use verdict::difference::{clear_open, count_edges};
use verdict::judge::is_wound;

// Says whether a set is a trap, by its bytes, one for each edge.
fn misleads(board: Board<'_>, loss: &[u8], flipped: &[u8]) -> bool
    requires { Settable (board_lent board) loss.now
        × ValidBytes (length board.marks.now) flipped.now }
    ensures { result ≡ traps (board_lent board.entry) loss.now (ones flipped.now) }
{
    let edges = board.marks.len();
    let mut syndrome = [0u8; VERTICES];
    count_edges(board.vertices, board.ends, flipped, &mut syndrome);
    clear_open(board.opened, &mut syndrome);
    let mut support = [0u8; TRAP_EDGES];
    let mut correction = [0u8; TRAP_EDGES];
    let sheet = Sheet {
        board,
        syndrome: &syndrome[..board.vertices],
        loss,
    };
    let verdict = compare(
        sheet,
        flipped,
        &mut support[..edges],
        &mut correction[..edges],
    );
    is_wound(verdict)
}

// The same of the set of a mask.
pub(crate) fn is_trap(board: Board<'_>, loss: &[u8], set: usize) -> bool
    requires { Settable (board_lent board) loss.now }
    ensures { result ≡ traps (board_lent board.entry) loss.now (bit_of set) }
{
    let edges = board.marks.len();
    let mut flipped = [0u8; TRAP_EDGES];
    spread(set, &mut flipped[..edges]);
    misleads(board, loss, &flipped[..edges])
}
