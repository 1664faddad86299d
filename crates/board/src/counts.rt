ghost use Rattle.std.specs.Prelude.{◌≡◌};
ghost use Rattle.model.specs.Refusals.{refusal_of, count_rules};
ghost use Rattle.board.specs.Checks.{test_of};

use model::limits::{ENDS, VERTICES};
use model::refusal::Refusal;

// The tests 1 to 3; `fit` says whether every other lent buffer has its length.
pub fn check_counts(vertices: usize, ends: &[u16], fit: bool) -> Result<(), Refusal>
    ensures { test_of result ≡ refusal_of (count_rules vertices ends.now fit) }
{
    if vertices < 1 || vertices > VERTICES {
        return Err(Refusal::VertexCount);
    }
    let count = ends.len();
    if count % 2 != 0 || count > ENDS {
        return Err(Refusal::EndCount);
    }
    if !fit {
        return Err(Refusal::BufferLength);
    }
    Ok(())
}
