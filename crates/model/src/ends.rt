// The two ends of an edge, in the list of ends that is lent.
ghost use Rattle.std.specs.Prelude.{◌≡◌, ◌+◌, ◌*◌, ◌<◌, length, get_or};

use crate::numbers::{Edge, Vertex};

pub fn first_end(ends: &[u16], edge: Edge) -> Vertex
    requires { 2 * edge.0 + 1 < length ends.now }
    ensures { result.0 ≡ get_or ends.now (2 * edge.0) 0 }
{
    let i = 2 * edge.0 as usize;
    Vertex(ends[i])
}

pub fn second_end(ends: &[u16], edge: Edge) -> Vertex
    requires { 2 * edge.0 + 1 < length ends.now }
    ensures { result.0 ≡ get_or ends.now (2 * edge.0 + 1) 0 }
{
    let i = 2 * edge.0 as usize + 1;
    Vertex(ends[i])
}
