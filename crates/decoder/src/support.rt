ghost use Rattle.std.specs.Prelude.{◌≡◌, length};
ghost use Rattle.decoder.specs.Gains.{Liftable, Lifts, RaisableAt, RaisesAt, start_of};

use crate::end_lists::EndLists;
use model::limits::EDGES;
use model::numbers::{Edge, FULL, HalfEdges, Vertex};

// An edge that isn't full gains a half-edge. If it becomes full, it is listed behind the `count` listed ones. The answer is how many are listed
// then.
fn lift(support: &mut [u8], filled: &mut [u16; EDGES], edge: Edge, count: usize) -> usize
    requires { Liftable support.old edge.0 count }
    ensures { Lifts support.old filled.old edge.0 count result support.new filled.new }
{
    let e = edge.0 as usize;
    let byte = support[e];
    let half = HalfEdges(byte);
    if half.is_full() {
        return count;
    }
    support[e] = byte + 1;
    if byte == 0 {
        return count;
    }
    filled[count] = edge.0;
    count + 1
}

// Every edge that isn't full gains as many half-edges as it has ends at the vertex, up to 2.
pub(crate) fn raise_at(
    lists: &EndLists,
    vertex: Vertex,
    support: &mut [u8],
    filled: &mut [u16; EDGES],
    count: usize,
) -> usize
    requires { RaisableAt lists.now.latest lists.now.earlier vertex.0 support.old filled.old count }
    ensures { RaisesAt lists.now.latest lists.now.earlier vertex.0 support.old filled.old count
        result support.new filled.new }
{
    let mut total = count;
    let mut place = lists.latest[vertex.0 as usize];
    while place != 0 {
        let end = place - 1;
        let edge = Edge(end / 2);
        total = lift(support, filled, edge, total);
        place = lists.earlier[end as usize];
    }
    total
}

// Lost edges start at 2, others at 0.
pub(crate) fn lose(loss: &[u8], support: &mut [u8])
    requires { length loss.now ≡ length support.old }
    ensures { support.new ≡ start_of loss.now }
{
    for (e, lost) in loss.iter().enumerate() {
        if *lost == 1 {
            support[e] = FULL.0;
        } else {
            support[e] = 0;
        }
    }
}
