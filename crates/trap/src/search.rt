// The sets of edges by size, from the least size that a trap can have.
ghost use Rattle.std.specs.Prelude.{◌≡◌, ◌^◌, ◌<◌, length};
ghost use Rattle.model.specs.Lent.{board_lent};
ghost use Rattle.model.specs.Sums.{first_up_to};
ghost use Rattle.board.specs.Checks.{number_found};
ghost use Rattle.trap.specs.Settable.{Settable};
ghost use Rattle.trap.specs.Searching.{trap_of_size, LeastSize, ShowsShortest, ShowsSmallest};

use crate::misleading::is_trap;
use board::counting::count;
use board::masks::{alone, spread};
use model::lent::Board;

// Says whether a set has this many edges and is a trap.
fn is_trap_of(board: Board<'_>, loss: &[u8], size: usize, set: usize) -> bool
    requires { Settable (board_lent board) loss.now × (set < 2 ^ length board.marks.now) }
    ensures { result ≡ trap_of_size (board_lent board.entry) loss.now size set }
{
    let members = set.count_ones() as usize;
    members == size && is_trap(board, loss, set)
}

// The first trap with this many edges.
fn first_trap(board: Board<'_>, loss: &[u8], size: usize) -> Option<usize>
    requires { Settable (board_lent board) loss.now }
    ensures { number_found result
        ≡ first_up_to (2 ^ length board.entry.marks.now) (trap_of_size (board_lent board.entry) loss.now size) }
{
    for set in 0..alone(board.marks.len()) {
        if is_trap_of(board, loss, size, set) {
            return Some(set);
        }
    }
    None
}

// With t lost edges, a set of fewer edges than this has t + 2s below the distance, and so is no trap.
fn least_size(distance: usize, lost: usize) -> usize
    ensures { LeastSize distance lost result }
{
    distance.saturating_sub(lost).div_ceil(2)
}

// From a shortest winding loop, which is a trap itself, to a trap of fewest edges: the buffer holds the first, then the second.
pub(crate) fn lighten(board: Board<'_>, loss: &[u8], distance: usize, set: &mut [u8]) -> usize
    requires { Settable (board_lent board) loss.now
        × ShowsShortest (board_lent board) distance set.old }
    ensures { ShowsSmallest (board_lent board.entry) loss.now result set.new }
{
    let lost = count(loss, 1);
    for size in least_size(distance, lost)..distance {
        if let Some(smallest) = first_trap(board, loss, size) {
            spread(smallest, set);
            return size;
        }
    }
    distance
}
