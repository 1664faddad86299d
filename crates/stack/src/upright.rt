// The ends of the edges between layers.
ghost use Rattle.std.specs.Prelude.{◌≡◌, ◌*◌, length};
ghost use Rattle.model.specs.Stack.{flat_edges, stack_edges, stack_end, stack_ends};
ghost use Rattle.torus.specs.Filling.{Filled};
ghost use Rattle.stack.specs.Layers.{StackWithin};

// From each vertex of each layer but the last in turn to the same vertex in the next layer, once the edges in the layers have their ends.
pub(crate) fn fill_upright(side: usize, rounds: usize, ends: &mut [u16])
    requires { StackWithin side rounds × (length ends.old ≡ 2 * stack_edges side rounds)
        × Filled (stack_end side rounds) (2 * flat_edges side rounds) ends.old }
    ensures { ends.new ≡ stack_ends side rounds }
{
    let layer = side * side;
    let vertices = rounds * layer;
    let lower_vertices = vertices - layer;
    for u in 0..lower_vertices {
        let lower = u as u16;
        let upper = (u + layer) as u16;
        let i = 2 * (2 * vertices + u);
        ends[i] = lower;
        ends[i + 1] = upper;
    }
}
