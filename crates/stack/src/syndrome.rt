// The syndrome of the stack: where a reading differs from the one before it.
ghost use Rattle.std.specs.Prelude.{◌≡◌, ◌<◌, ◌/◌, ◌%◌, length};
ghost use Rattle.model.specs.Board.{ValidBytes};
ghost use Rattle.model.specs.Sums.{bit};
ghost use Rattle.model.specs.Stack.{layer_vertices, stack_vertices, layer_syndrome, stack_syndrome};
ghost use Rattle.torus.specs.Sides.{SideWithin};
ghost use Rattle.stack.specs.Layers.{StackWithin};

use model::numbers::Vertex;

// The syndrome byte of a stacked vertex. Before the first round nothing was read, so layer 0 keeps its own reading.
fn changed(side: usize, readings: &[u8], v: Vertex) -> u8
    requires { SideWithin side × ValidBytes (length readings.now) readings.now × (v.0 < length readings.now) }
    ensures { result ≡ bit (layer_syndrome side readings.now (v.0 / layer_vertices side) (v.0 % layer_vertices side)) }
{
    let layer = side * side;
    let u = v.0 as usize;
    if u < layer {
        return readings[u];
    }
    readings[u] ^ readings[u - layer]
}

// The syndrome bytes of all stacked vertices in turn.
pub(crate) fn fill_syndrome(side: usize, rounds: usize, readings: &[u8], syndrome: &mut [u8])
    requires { StackWithin side rounds × ValidBytes (stack_vertices side rounds) readings.now
        × (length syndrome.old ≡ stack_vertices side rounds) }
    ensures { syndrome.new ≡ stack_syndrome side rounds readings.now }
{
    let vertices = rounds * (side * side);
    for u in 0..vertices {
        syndrome[u] = changed(side, readings, Vertex(u as u16));
    }
}
