// The tests of what the game is lent.
ghost use Rattle.std.specs.Prelude.{◌≡◌, [], ◌∷◌, ◌≤◌, length};
ghost use Rattle.model.specs.Board.{edge_limit};
ghost use Rattle.model.specs.Lent.{board_lent};
ghost use Rattle.model.specs.Refusals.{refusal_of, position_rule, move_rule, game_refusal};
ghost use Rattle.board.specs.Checks.{test_of};

use board::bytes::first_above;
use board::counting::count;
use board::tests::check_whole_board;
use model::lent::Board;
use model::limits::GAME_EDGES;
use model::numbers::Edge;
use model::refusal::Refusal;

// The tests 21 and 22 of a position.
fn check_position(position: &[u8]) -> Result<(), Refusal>
    requires { length position.now ≤ edge_limit }
    ensures { test_of result ≡ refusal_of (position_rule position.now ∷ move_rule position.now ∷ []) }
{
    if let Some(e) = first_above::<Edge>(position, 2) {
        return Err(Refusal::PositionByte(e));
    }
    let winders = count(position, 1);
    let blockers = count(position, 2);
    let by_turns = (winders == blockers) | (winders == blockers + 1);
    if !by_turns {
        return Err(Refusal::MoveCount);
    }
    Ok(())
}

// What the game is lent: a board, and a position, which has a byte for each edge. The board's own tests come first.
pub(crate) fn check_game(board: Board<'_>, position: &[u8]) -> Result<(), Refusal>
    ensures { test_of result ≡ game_refusal (board_lent board.entry) position.now }
{
    let fit = position.len() == board.ends.len() / 2;
    check_whole_board(board, fit)?;
    if board.marks.len() > GAME_EDGES {
        return Err(Refusal::GameEdges);
    }
    check_position(position)
}
