// How a handed-in set compares with the correction.
ghost use Rattle.std.specs.Prelude.{◌≡◌};
ghost use Rattle.model.specs.Lent.{board_lent};
ghost use Rattle.model.specs.Sums.{ones};
ghost use Rattle.model.specs.Verdict.{judged};
ghost use Rattle.verdict.specs.Judging.{Judgeable, is_wound};

use crate::crossings::crossings;
use crate::difference::{clear_open, count_edges};
use board::bytes::first_above;
use board::copy::copy_front;
use model::answers::Verdict;
use model::lent::Board;
use model::limits::VERTICES;
use model::numbers::Vertex;

// Off with the smallest vertex, not open, at which the syndromes differ; otherwise same or wound, by the marks of the two sets together. The
// game asks it of every set of a small board, so that handing the board over would show.
#[inline(always)]
pub fn judge(board: Board<'_>, syndrome: &[u8], handed: &[u8], correction: &[u8]) -> Verdict
    requires { Judgeable (board_lent board) syndrome.now handed.now correction.now }
    ensures { result ≡ judged (board_lent board.entry) (ones syndrome.now) (ones correction.now) (ones handed.now) }
{
    let vertices = board.vertices;
    let mut parity = [0u8; VERTICES];
    copy_front(syndrome, vertices, &mut parity);
    count_edges(vertices, board.ends, handed, &mut parity);
    clear_open(board.opened, &mut parity);
    if let Some(v) = first_above::<Vertex>(&parity[..vertices], 0) {
        return Verdict::Off(v);
    }
    let x = crossings(board.marks, handed, correction);
    if x == 0 {
        return Verdict::Same;
    }
    Verdict::Wound(x)
}

// Says whether a verdict is wound.
pub fn is_wound(verdict: Verdict) -> bool
    ensures { result ≡ is_wound verdict }
{
    matches!(verdict, Verdict::Wound(_))
}
