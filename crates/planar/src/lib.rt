// The planar board of side L, whose columns 0 and L are open: its builder.
#![tactic(auto)]

mod cells;

ghost use Rattle.std.specs.Prelude.{◌≡◌, ◌*◌, length};
ghost use Rattle.model.specs.Planar.{planar_vertices, planar_edges, planar_ends, planar_marks, planar_opens};
ghost use Rattle.model.specs.Outcomes.{BuildsPlanar};
ghost use Rattle.planar.specs.Sides.{SideWithin};

use crate::cells::{first_end, mark_of, open_byte, step_of};
use model::limits::{LARGEST_PLANAR, LEAST_PLANAR};
use model::numbers::{Edge, Vertex};
use model::refusal::Refusal;

// The planar board of side L: the vertex count, with all ends, marks and open bytes filled in; or a refusal, with nothing written.
pub fn planar(
    side: usize,
    ends: &mut [u16],
    marks: &mut [u8],
    opened: &mut [u8],
) -> Result<usize, Refusal>
    ensures { BuildsPlanar side ends.old marks.old opened.old result ends.new marks.new opened.new }
{
    if !(LEAST_PLANAR..=LARGEST_PLANAR).contains(&side) {
        return Err(Refusal::PlanarSide(side));
    }
    let inner = side - 1;
    let edges = side * side + inner * inner;
    let vertices = side * (side + 1);
    if ends.len() != 2 * edges || marks.len() != edges || opened.len() != vertices {
        return Err(Refusal::BufferLength);
    }
    fill_ends(side, ends);
    fill_marks(side, marks);
    fill_open(side, opened);
    Ok(vertices)
}

// Both ends of each edge in turn.
fn fill_ends(side: usize, ends: &mut [u16])
    requires { SideWithin side × (length ends.old ≡ 2 * planar_edges side) }
    ensures { ends.new ≡ planar_ends side }
{
    let edges = ends.len() / 2;
    for e in 0..edges {
        let edge = Edge(e as u16);
        let first = first_end(side, edge);
        let second = first.0 + step_of(side, edge);
        ends[2 * e] = first.0;
        ends[2 * e + 1] = second;
    }
}

// The marks of these edges, in the same order.
fn fill_marks(side: usize, marks: &mut [u8])
    requires { SideWithin side × (length marks.old ≡ planar_edges side) }
    ensures { marks.new ≡ planar_marks side }
{
    for (e, mark) in marks.iter_mut().enumerate() {
        *mark = mark_of(side, Edge(e as u16));
    }
}

// The open byte of each vertex in turn.
fn fill_open(side: usize, opened: &mut [u8])
    requires { SideWithin side × (length opened.old ≡ planar_vertices side) }
    ensures { opened.new ≡ planar_opens side }
{
    for (v, byte) in opened.iter_mut().enumerate() {
        *byte = open_byte(side, Vertex(v as u16));
    }
}
