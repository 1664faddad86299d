// The torus of side L read in R rounds, as one board of R layers, and the syndrome that its readings make: the builder.
#![tactic(auto)]

mod checks;
mod flat;
mod marks;
mod syndrome;
mod upright;

ghost use Rattle.std.specs.Prelude.{◌≡◌, ◌*◌, length};
ghost use Rattle.model.specs.Stack.{stack_vertices, stack_edges, stack_ends, stack_marks, stack_syndrome};
ghost use Rattle.model.specs.StackOutcomes.{BuildsStack, StacksSoundly};
ghost use Rattle.stack.specs.Layers.{StackWithin};
ghost use Rattle.stack.specs.Lent.{ForStack};

use crate::checks::check_stack;
use crate::flat::fill_flat;
use crate::marks::fill_marks;
use crate::syndrome::fill_syndrome;
use crate::upright::fill_upright;
use model::refusal::Refusal;

// The stack of side L and R rounds: the vertex count, with all ends, marks and syndrome bytes filled in from a reading byte for each
// stacked vertex; or a refusal, with nothing written.
pub fn stack(
    side: usize,
    rounds: usize,
    readings: &[u8],
    ends: &mut [u16],
    marks: &mut [u8],
    syndrome: &mut [u8],
) -> Result<usize, Refusal>
    ensures outcome { BuildsStack side rounds readings.now ends.old marks.old syndrome.old
        result ends.new marks.new syndrome.new }
    ensures sound { StacksSoundly side rounds readings.now result ends.new marks.new syndrome.new }
{
    check_stack(side, rounds, readings, ends, marks, syndrome)?;
    Ok(fill(side, rounds, readings, ends, marks, syndrome))
}

// Fills the three buffers, once all tests have passed, and says how many vertices there are.
fn fill(
    side: usize,
    rounds: usize,
    readings: &[u8],
    ends: &mut [u16],
    marks: &mut [u8],
    syndrome: &mut [u8],
) -> usize
    requires { ForStack side rounds readings.now ends.old marks.old syndrome.old }
    ensures { (result ≡ stack_vertices side rounds) × (ends.new ≡ stack_ends side rounds)
        × (marks.new ≡ stack_marks side rounds)
        × (syndrome.new ≡ stack_syndrome side rounds readings.now) }
{
    let layer = side * side;
    let vertices = rounds * layer;
    fill_ends(side, rounds, ends);
    fill_marks(side, rounds, marks);
    fill_syndrome(side, rounds, readings, syndrome);
    vertices
}

// The ends of all edges: first of those in the layers, then of those between layers.
fn fill_ends(side: usize, rounds: usize, ends: &mut [u16])
    requires { StackWithin side rounds × (length ends.old ≡ 2 * stack_edges side rounds) }
    ensures { ends.new ≡ stack_ends side rounds }
{
    fill_flat(side, rounds, ends);
    fill_upright(side, rounds, ends);
}
