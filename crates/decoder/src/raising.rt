// A growth's half-edges: they go to the edges at the boundary of the clusters that grow.
ghost use Rattle.decoder.specs.Raising.{RingRaisable, RaisesRing, Raisable, Raises};

use crate::end_lists::EndLists;
use crate::figure::Figure;
use crate::rings::prune;
use crate::support::raise_at;
use model::limits::{EDGES, VERTICES};
use model::numbers::Vertex;
use std::ops::Range;

// Every edge gains as many half-edges as it has ends at vertices of the ring. Those that become full are listed behind the `count` listed ones.
// The count is passed on by value, as `raise` answers with it, and not kept in memory beside the list.
fn raise_ring(
    lists: &EndLists,
    ring: &[u16; VERTICES],
    name: Vertex,
    support: &mut [u8],
    filled: &mut [u16; EDGES],
    count: usize,
) -> usize
    requires { RingRaisable lists.now.latest lists.now.earlier ring.now name.0 support.old filled.old count }
    ensures { RaisesRing lists.now.latest lists.now.earlier ring.now name.0 support.old filled.old count
        result support.new filled.new }
{
    let mut total = count;
    let mut v = name.0;
    loop {
        total = raise_at(lists, Vertex(v), support, filled, total);
        v = ring[v as usize];
        if v == name.0 {
            return total;
        }
    }
}

// The clusters that grow give a half-edge to each end of an edge at their vertices, where the edge isn't full. Only vertices on the boundary have
// such an end, and they are in the rings. The edges that become full are listed, each once, and their number is returned.
pub(crate) fn raise(
    lists: &EndLists,
    figure: &[u16; VERTICES],
    growing: Range<usize>,
    exposure: &[u16; VERTICES],
    ring: &mut [u16; VERTICES],
    support: &mut [u8],
    filled: &mut [u16; EDGES],
) -> usize
    requires { Raisable lists.now.latest lists.now.earlier figure.now growing exposure.now ring.old support.old filled.old }
    ensures { Raises lists.now.latest lists.now.earlier figure.now growing exposure.now ring.old support.old filled.old
        result ring.new support.new filled.new }
{
    let mut count = 0;
    for a in growing {
        if figure[a] < Figure::EVEN {
            let name = Vertex(a as u16);
            prune(exposure, ring, name);
            count = raise_ring(lists, ring, name, support, filled, count);
        }
    }
    count
}
