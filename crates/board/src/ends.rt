ghost use Rattle.std.specs.Prelude.{◌≡◌, ◌*◌, ◌≤◌, length};
ghost use Rattle.model.specs.Board.{edge_limit, plain};
ghost use Rattle.model.specs.Refusals.{edges_of, outside};
ghost use Rattle.model.specs.Sums.{first_up_to};
ghost use Rattle.board.specs.Checks.{edge_found};

use crate::largest::largest_end;
use model::ends::{first_end, second_end};
use model::numbers::Edge;

// Test 4: the first edge that has an end at or above the vertex count.
pub fn first_outside(vertices: usize, ends: &[u16]) -> Option<Edge>
    requires { length ends.now ≤ 2 * edge_limit }
    ensures { edge_found result ≡ first_up_to (edges_of ends.now) (outside (plain vertices 0 ends.now)) }
{
    let top = largest_end(ends);
    if (top as usize) < vertices {
        return None;
    }
    edge_outside(vertices, ends)
}

// The same, by a look at each edge until one has such an end.
fn edge_outside(vertices: usize, ends: &[u16]) -> Option<Edge>
    requires { length ends.now ≤ 2 * edge_limit }
    ensures { edge_found result ≡ first_up_to (edges_of ends.now) (outside (plain vertices 0 ends.now)) }
{
    for e in 0..ends.len() / 2 {
        let edge = Edge(e as u16);
        let first = first_end(ends, edge);
        let second = second_end(ends, edge);
        if first.0 as usize >= vertices || second.0 as usize >= vertices {
            return Some(edge);
        }
    }
    None
}
