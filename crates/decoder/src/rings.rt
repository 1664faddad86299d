// The rings of the clusters: by each vertex stands another of its cluster, and from the smallest vertex of a cluster one goes round through
// all that are on its boundary. Growth looks at no other vertex.
ghost use Rattle.std.specs.Prelude.{◌≡◌, ◌≤◌, length};
ghost use Rattle.model.specs.Board.{vertex_limit};
ghost use Rattle.union_find.specs.Packed.{parents_of};
ghost use Rattle.decoder.specs.Figures.{names_by};
ghost use Rattle.decoder.specs.Rings.{LoneRings, Prunable, Prunes, BothNamed, JoinsRings};

use crate::labels::name_of;
use model::limits::VERTICES;
use model::numbers::Vertex;

// Each vertex alone: its ring is itself.
pub(crate) fn lone_rings(vertices: usize, ring: &mut [u16; VERTICES])
    requires { (vertices ≤ vertex_limit) × (length ring.old ≡ vertex_limit) }
    ensures { LoneRings vertices ring.new }
{
    for v in 0..vertices {
        ring[v] = v as u16;
    }
}

// The ring of the cluster with that smallest vertex, without the vertices that have left the boundary. The smallest stays, as the ring's place.
pub(crate) fn prune(exposure: &[u16; VERTICES], ring: &mut [u16; VERTICES], name: Vertex)
    requires { Prunable exposure.now ring.old name.0 }
    ensures { Prunes exposure.now ring.old name.0 ring.new }
{
    let mut kept = name.0;
    let mut v = ring[name.0 as usize];
    while v != name.0 {
        let after = ring[v as usize];
        if exposure[v as usize] == 0 {
            ring[kept as usize] = after;
        } else {
            kept = v;
        }
        v = after;
    }
}

// The rings of the clusters of a and b as one: where each went on from its smallest vertex, the other does.
pub(crate) fn join_rings<'a>(
    tree: &'a [u16; VERTICES],
    figure: &'a [u16; VERTICES],
    ring: &mut [u16; VERTICES],
    a: Vertex,
    b: Vertex,
)
    requires { BothNamed (parents_of tree.now) (names_by figure.now) a.0 b.0 }
    ensures { JoinsRings (parents_of tree.now) (names_by figure.now) a.0 b.0 ring.old ring.new }
{
    let one = name_of(tree, figure, a);
    let other = name_of(tree, figure, b);
    let p = one.0 as usize;
    let q = other.0 as usize;
    let after = ring[p];
    ring[p] = ring[q];
    ring[q] = after;
}
