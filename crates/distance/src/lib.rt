// The distance of a board: the fewest edges of a winding loop, by breadth-first walks over four copies of the board on which all open
// vertices are one.
#![tactic(auto)]

mod glue;
mod search;
mod state;
mod trace;
mod visits;
mod walk;

ghost use Rattle.model.specs.Lent.{board_lent};
ghost use Rattle.model.specs.Outcomes.{Measures};

use crate::glue::glue;
use crate::search::shortest;
use board::copy::copy_front;
use board::tests::check_distance;
use model::lent::Board;
use model::limits::{EDGES, ENDS};
use model::refusal::Refusal;

// The fewest edges of a winding loop, and such a loop in `shown`, a byte for each edge: 1 for those of the loop. Where there
// is no winding loop, nothing, and `shown` is all 0. A refusal leaves `shown` as it was.
pub fn distance(board: Board<'_>, shown: &mut [u8]) -> Result<Option<usize>, Refusal>
    ensures { Measures (board_lent board.entry) shown.old result shown.new }
{
    check_distance(board, shown)?;
    let mut glued = [0u16; ENDS];
    glue(board.ends, board.opened, &mut glued);
    let count = board.ends.len();
    let mut found = [0u8; EDGES];
    let fewest = shortest(board.vertices, &glued[..count], board.marks, &mut found);
    copy_front(&found, board.marks.len(), shown);
    Ok(fewest.map(usize::from))
}
