// For every set of edges, whether it contains a winding loop: a table with a byte for each mask.
ghost use Rattle.std.specs.Prelude.{◌≡◌, ◌&&◌, ◌-◌, ◌^◌, ◌≤◌, ◌<◌, length};
ghost use Rattle.model.specs.Lent.{board_lent};
ghost use Rattle.model.specs.Sums.{bit, ones, some_up_to};
ghost use Rattle.model.specs.Winding.{winds};
ghost use Rattle.model.specs.Words.{bit_of};
ghost use Rattle.model.specs.Refusals.{game_limit};
ghost use Rattle.model.specs.Game.{holds_loop};
ghost use Rattle.game.specs.Searching.{set_limit};
ghost use Rattle.game.specs.LoopTable.{Small, Filled};

use board::masks::{alone, has, spread};
use model::lent::Board;
use model::limits::{GAME_EDGES, GAME_SETS, VERTICES};
use verdict::judge::{is_wound, judge};

// Says whether a set is a winding loop: whether, beside no correction for no syndrome, the verdict on it is wound.
fn winding(board: Board<'_>, set: usize) -> bool
    requires { Small (board_lent board) }
    ensures { result ≡ winds (board_lent board.entry) (bit_of set) }
{
    let edges = board.marks.len();
    let mut handed = [0u8; GAME_EDGES];
    spread(set, &mut handed[..edges]);
    let unlit = [0u8; VERTICES];
    let empty = [0u8; GAME_EDGES];
    is_wound(judge(
        board,
        &unlit[..board.vertices],
        &handed[..edges],
        &empty[..edges],
    ))
}

// Says whether a set has edge e and contains a winding loop without it, by the byte of the smaller mask.
fn holds_without(loops: &[u8; GAME_SETS], set: usize, e: usize) -> bool
    requires { (e < game_limit) × (set < set_limit) }
    ensures { result ≡ (bit_of set e && ones loops.now (set - 2 ^ e)) }
{
    if has(set, e) {
        let less = set - alone(e);
        return loops[less] == 1;
    }
    false
}

// Says whether a set contains a winding loop without one of its edges.
fn holds_less(loops: &[u8; GAME_SETS], edges: usize, set: usize) -> bool
    requires { (edges ≤ game_limit) × (set < set_limit) }
    ensures { result ≡ some_up_to edges (λ e. bit_of set e && ones loops.now (set - 2 ^ e)) }
{
    (0..edges).any(|e| holds_without(loops, set, e))
}

// The byte of a set, where those of all smaller masks are right.
fn looped(board: Board<'_>, loops: &[u8; GAME_SETS], set: usize) -> u8
    requires small { Small (board_lent board) × (set < 2 ^ length board.marks.now) }
    requires filled { Filled (board_lent board) set loops.now }
    ensures { result ≡ bit (holds_loop (board_lent board.entry) (bit_of set)) }
{
    u8::from(holds_less(loops, board.marks.len(), set) || winding(board, set))
}

// The bytes of all sets, from the smallest mask up, so that each set follows those that it contains.
pub(crate) fn fill_loops(board: Board<'_>, loops: &mut [u8; GAME_SETS])
    requires { Small (board_lent board) × (length loops.old ≡ set_limit) }
    ensures { Filled (board_lent board.entry) (2 ^ length board.entry.marks.now) loops.new }
{
    for set in 0..alone(board.marks.len()) {
        loops[set] = looped(board, loops, set);
    }
}
