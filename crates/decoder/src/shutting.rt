ghost use Rattle.std.specs.Prelude.{length};
ghost use Rattle.union_find.specs.Packed.{parents_of};
ghost use Rattle.decoder.specs.Figures.{names_by};
ghost use Rattle.decoder.specs.Shutting.{Shuttable, Shuts, ListShuttable, ListShut};

use crate::labels::name_of;
use model::ends::{first_end, second_end};
use model::limits::VERTICES;
use model::numbers::{Edge, Vertex};

// One end fewer, of edges that aren't full, lies at the vertex. With the last of them it leaves the boundary of its own cluster.
fn shut(
    tree: &[u16; VERTICES],
    vertex: Vertex,
    exposure: &mut [u16; VERTICES],
    figure: &mut [u16; VERTICES],
)
    requires { Shuttable (parents_of tree.now) (names_by figure.old) vertex.0 exposure.old figure.old }
    ensures { Shuts (parents_of tree.now) (names_by figure.old) vertex.0 exposure.old figure.old
        exposure.new figure.new }
{
    let v = vertex.0 as usize;
    exposure[v] = exposure[v] - 1;
    if exposure[v] == 0 {
        let name = name_of(tree, figure, vertex);
        let a = name.0 as usize;
        figure[a] = figure[a] - 1;
    }
}

// The listed edges have become full: their ends count no more. No cluster is fused yet.
pub(crate) fn shut_listed(
    tree: &[u16; VERTICES],
    ends: &[u16],
    listed: &[u16],
    exposure: &mut [u16; VERTICES],
    figure: &mut [u16; VERTICES],
)
    requires { ListShuttable (parents_of tree.now) (names_by figure.old) ends.now listed.now (length listed.now) exposure.old figure.old }
    ensures { ListShut (parents_of tree.now) (names_by figure.old) ends.now listed.now (length listed.now)
        exposure.old figure.old exposure.new figure.new }
{
    for number in listed {
        let edge = Edge(*number);
        let a = first_end(ends, edge);
        let b = second_end(ends, edge);
        shut(tree, a, exposure, figure);
        shut(tree, b, exposure, figure);
    }
}
