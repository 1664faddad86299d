// The marks of the stack's edges: in each layer those of the torus, and 0 between layers.
ghost use Rattle.std.specs.Prelude.{◌≡◌, length};
ghost use Rattle.model.specs.Stack.{stack_edges, stack_mark, stack_marks};
ghost use Rattle.stack.specs.Layers.{StackWithin};

use model::numbers::{Edge, Vertex};
use torus::cells::{below_mark, right_mark};

// The mark of an edge.
fn mark_of(side: usize, rounds: usize, edge: Edge) -> u8
    requires { StackWithin side rounds }
    ensures { result ≡ stack_mark side rounds edge.0 }
{
    let e = edge.0 as usize;
    let layer = side * side;
    let flat = 2 * (rounds * layer);
    if e >= flat {
        return 0;
    }
    let inner = e % (2 * layer);
    let v = Vertex((inner / 2) as u16);
    if inner % 2 == 0 {
        right_mark(side, v)
    } else {
        below_mark(side, v)
    }
}

// The marks of all edges in turn.
pub(crate) fn fill_marks(side: usize, rounds: usize, marks: &mut [u8])
    requires { StackWithin side rounds × (length marks.old ≡ stack_edges side rounds) }
    ensures { marks.new ≡ stack_marks side rounds }
{
    for (e, mark) in marks.iter_mut().enumerate() {
        *mark = mark_of(side, rounds, Edge(e as u16));
    }
}
