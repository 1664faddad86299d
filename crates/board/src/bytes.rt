ghost use Rattle.std.specs.Prelude.{◌≡◌, ◌≤◌, length};
ghost use Rattle.model.specs.Board.{edge_limit};
ghost use Rattle.model.specs.Refusals.{above};
ghost use Rattle.model.specs.Sums.{first_up_to};
ghost use Rattle.board.specs.Checks.{found};

use crate::largest::largest_byte;
use model::numbers::Numbered;

// The first vertex or edge whose byte is above the limit: the pass behind the tests 6 to 9, 16 and 21.
pub fn first_above<N: Numbered>(bytes: &[u8], limit: u8) -> Option<N>
    requires { length bytes.now ≤ edge_limit }
    ensures { found N.value result ≡ first_up_to (length bytes.now) (above limit bytes.now) }
{
    if largest_byte(bytes) <= limit {
        return None;
    }
    place_above(bytes, limit)
}

// The same, by a look at each byte until one is above the limit.
fn place_above<N: Numbered>(bytes: &[u8], limit: u8) -> Option<N>
    requires { length bytes.now ≤ edge_limit }
    ensures { found N.value result ≡ first_up_to (length bytes.now) (above limit bytes.now) }
{
    for i in 0..bytes.len() {
        if bytes[i] > limit {
            return Some(N::at(i as u16));
        }
    }
    None
}
