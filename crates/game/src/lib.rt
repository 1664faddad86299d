// The game of Winder and Blocker: who can force the win from a position, and the smallest edge that keeps it.
#![tactic(auto)]

mod checks;
mod loops;
mod masks;
mod play;

ghost use Rattle.std.specs.Prelude.{◌≡◌};
ghost use Rattle.model.specs.Game.{forced};
ghost use Rattle.model.specs.GameOutcomes.{Plays, PlaysSoundly};
ghost use Rattle.model.specs.Lent.{board_lent};
ghost use Rattle.game.specs.Playable.{Playable};

use crate::checks::check_game;
use crate::loops::fill_loops;
use crate::masks::{Masks, mask};
use crate::play::{block, wind};
use board::counting::count;
use model::answers::Forced;
use model::lent::Board;
use model::limits::GAME_SETS;
use model::refusal::Refusal;

// The loops of the board are found once, for every set of its edges. Then the player to move begins. In a position 0 is the byte of a free
// edge, 1 that of Winder's and 2 that of Blocker's.
fn search(board: Board<'_>, position: &[u8]) -> Forced
    requires { Playable (board_lent board) position.now }
    ensures { result ≡ forced (board_lent board.entry) position.now }
{
    let mut loops = [0u8; GAME_SETS];
    fill_loops(board, &mut loops);
    let edges = board.marks.len();
    let held = mask(position, 1);
    let free = mask(position, 0);
    let left = count(position, 0);
    let masks = Masks { held, free, left };
    let winders = count(position, 1);
    let blockers = count(position, 2);
    if winders == blockers {
        return wind(&loops, edges, masks);
    }
    block(&loops, edges, masks)
}

// Who can force the win from a position, and by which edge where that player is to move: the smallest that keeps it. A position that is
// finished names its winner and no edge. Nothing that is lent is written.
pub fn game(board: Board<'_>, position: &[u8]) -> Result<Forced, Refusal>
    ensures answer { Plays (board_lent board.entry) position.now result }
    ensures sound { PlaysSoundly (board_lent board.entry) position.now result }
{
    check_game(board, position)?;
    Ok(search(board, position))
}
