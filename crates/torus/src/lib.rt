// The torus of side L: its builder.
#![tactic(auto)]

pub mod cells;
pub mod sides;

ghost use Rattle.std.specs.Prelude.{◌≡◌, ◌*◌, length};
ghost use Rattle.model.specs.Torus.{torus_ends, torus_marks};
ghost use Rattle.model.specs.Outcomes.{Builds};
ghost use Rattle.torus.specs.Sides.{SideWithin};

use crate::cells::{below_mark, below_of, right_mark, right_of};
use crate::sides::is_built;
use model::numbers::Vertex;
use model::refusal::Refusal;

// The torus of side L: the vertex count, with 4L² ends and 2L² marks filled in; or a refusal, with nothing written.
pub fn torus(side: usize, ends: &mut [u16], marks: &mut [u8]) -> Result<usize, Refusal>
    ensures { Builds side ends.old marks.old result ends.new marks.new }
{
    if !is_built(side) {
        return Err(Refusal::TorusSide(side));
    }
    let vertices = side * side;
    if ends.len() != 4 * vertices || marks.len() != 2 * vertices {
        return Err(Refusal::BufferLength);
    }
    fill_ends(side, ends);
    fill_marks(side, marks);
    Ok(vertices)
}

// Both edges of each vertex in turn: to its right, then below.
pub fn fill_ends(side: usize, ends: &mut [u16])
    requires { SideWithin side × (length ends.old ≡ 4 * (side * side)) }
    ensures { ends.new ≡ torus_ends side }
{
    let vertices = side * side;
    for v in 0..vertices {
        let vertex = Vertex(v as u16);
        let right = right_of(side, vertex);
        let below = below_of(side, vertex);
        let i = 4 * v;
        ends[i] = vertex.0;
        ends[i + 1] = right.0;
        ends[i + 2] = vertex.0;
        ends[i + 3] = below.0;
    }
}

// The marks of these edges, in the same order.
pub fn fill_marks(side: usize, marks: &mut [u8])
    requires { SideWithin side × (length marks.old ≡ 2 * (side * side)) }
    ensures { marks.new ≡ torus_marks side }
{
    let vertices = side * side;
    for v in 0..vertices {
        let vertex = Vertex(v as u16);
        let i = 2 * v;
        marks[i] = right_mark(side, vertex);
        marks[i + 1] = below_mark(side, vertex);
    }
}
