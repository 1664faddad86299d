// The ends of the edges in the layers: those of the torus, shifted by its layer's first vertex.
ghost use Rattle.std.specs.Prelude.{◌≡◌, ◌*◌, ◌/◌, ◌%◌, ◌<◌, length};
ghost use Rattle.model.specs.Board.{vertex_limit};
ghost use Rattle.model.specs.Stack.{layer_edges, flat_edges, stack_edges, flat, upper_end, stack_end};
ghost use Rattle.torus.specs.Filling.{Filled};
ghost use Rattle.torus.specs.Sides.{SideWithin};
ghost use Rattle.stack.specs.Layers.{StackWithin};

use model::numbers::{Edge, Vertex};
use torus::cells::{below_of, right_of};

// The other end of an edge in a layer: the vertex to the right, or below, in the same layer.
fn other_end(side: usize, edge: Edge) -> Vertex
    requires { SideWithin side × (edge.0 < 2 * vertex_limit) }
    ensures { result.0 ≡ upper_end side (flat (edge.0 / layer_edges side) (edge.0 % layer_edges side)) }
{
    let e = edge.0 as usize;
    let layer = side * side;
    let first = (e / (2 * layer) * layer) as u16;
    let inner = e % (2 * layer);
    let v = Vertex((inner / 2) as u16);
    let other = if inner % 2 == 0 {
        right_of(side, v)
    } else {
        below_of(side, v)
    };
    Vertex(first + other.0)
}

// Both ends of each edge of each layer in turn.
pub(crate) fn fill_flat(side: usize, rounds: usize, ends: &mut [u16])
    requires { StackWithin side rounds × (length ends.old ≡ 2 * stack_edges side rounds) }
    ensures { (length ends.new ≡ 2 * stack_edges side rounds)
        × Filled (stack_end side rounds) (2 * flat_edges side rounds) ends.new }
{
    let vertices = rounds * (side * side);
    let edges = 2 * vertices;
    for e in 0..edges {
        let number = e as u16;
        let other = other_end(side, Edge(number));
        ends[2 * e] = number / 2;
        ends[2 * e + 1] = other.0;
    }
}
