// Traps: errors on which the key misleads, with the fewest edges.
#![tactic(auto)]

mod checks;
mod misleading;
mod search;

ghost use Rattle.model.specs.Lent.{board_lent};
ghost use Rattle.model.specs.TrapOutcomes.{SetsTrap, TrapsSoundly};

use crate::checks::check_trap;
use crate::search::lighten;
use distance::distance;
use model::lent::Board;
use model::refusal::Refusal;

// The fewest edges of a trap, that is, of a set whose syndrome the table answers with a correction that winds together with it, and such a
// set in `set`, a byte for each edge. Where there is no trap, which is where no loop winds, nothing, and `set` is all 0. A refusal leaves
// `set` as it was.
pub fn trap(board: Board<'_>, loss: &[u8], set: &mut [u8]) -> Result<Option<usize>, Refusal>
    ensures outcome { SetsTrap (board_lent board.entry) loss.now set.old result set.new }
    ensures sound { TrapsSoundly (board_lent board.entry) loss.now set.old result set.new }
{
    check_trap(board, loss, set)?;
    // What passed the tests is not refused by the distance.
    let Some(fewest) = distance(board, set)? else {
        return Ok(None);
    };
    let edges = lighten(board, loss, fewest, set);
    Ok(Some(edges))
}
