ghost use Rattle.std.specs.Prelude.{◌≡◌, ◌+◌, length, set};
ghost use Rattle.model.specs.Board.{EndsWithin, vertex_limit};
ghost use Rattle.model.specs.Growth.{full};
ghost use Rattle.union_find.specs.Trees.{at};
ghost use Rattle.decoder.specs.Exposures.{Countable, Exposures};

use model::ends::{first_end, second_end};
use model::limits::VERTICES;
use model::numbers::{Edge, HalfEdges, Vertex};

// One end more at the vertex.
fn count_end(exposure: &mut [u16; VERTICES], vertex: Vertex)
    requires { Countable exposure.old vertex.0 }
    ensures { exposure.new ≡ set exposure.old vertex.0 (at exposure.old vertex.0 + 1) }
{
    let v = vertex.0 as usize;
    exposure[v] = exposure[v] + 1;
}

// For each vertex, how many ends of edges that aren't full lie at it. A vertex is on the boundary of its cluster where there is one. No end is
// counted yet.
pub(crate) fn count_ends(ends: &[u16], support: &[u8], exposure: &mut [u16; VERTICES])
    requires ends_within { EndsWithin vertex_limit (length support.now) ends.now }
    requires exposures { Exposures 0 ends.now (full support.now) exposure.old }
    ensures { Exposures (length support.now) ends.now (full support.now) exposure.new }
{
    for (e, byte) in support.iter().enumerate() {
        let half = HalfEdges(*byte);
        if !half.is_full() {
            let edge = Edge(e as u16);
            let a = first_end(ends, edge);
            let b = second_end(ends, edge);
            count_end(exposure, a);
            count_end(exposure, b);
        }
    }
}
