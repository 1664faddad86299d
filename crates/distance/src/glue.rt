// All open vertices as one: the ends of the board on which each of them is sent to the smallest.
ghost use Rattle.std.specs.Prelude.{◌≡◌, ◌≤◌, length};
ghost use Rattle.model.specs.Board.{vertex_limit};
ghost use Rattle.model.specs.Identified.{or_zero};
ghost use Rattle.model.specs.Sums.{first_up_to, ones};
ghost use Rattle.distance.specs.Gluing.{Gluable, Glues};

use model::limits::ENDS;
use model::numbers::Vertex;

// The smallest open vertex, and 0 where none is open.
fn gate(opened: &[u8]) -> Vertex
    requires { length opened.now ≤ vertex_limit }
    ensures { result.0 ≡ or_zero (first_up_to (length opened.now) (ones opened.now)) }
{
    let first = opened.iter().position(|open| *open == 1);
    Vertex(first.unwrap_or(0) as u16)
}

// Each end that is open is sent to the gate, any other stays: the front of `glued` takes them.
pub fn glue(ends: &[u16], opened: &[u8], glued: &mut [u16; ENDS])
    requires { Gluable ends.now opened.now glued.old }
    ensures { Glues ends.now opened.now glued.new }
{
    let to = gate(opened);
    for (i, v) in ends.iter().enumerate() {
        glued[i] = if opened[*v as usize] == 1 { to.0 } else { *v };
    }
}
