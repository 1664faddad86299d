// The ends and the mark of an edge of the planar board, and whether a vertex is open.
ghost use Rattle.std.specs.Prelude.{◌≡◌, cond, ◌+◌, ◌≤◌, ◌<◌};
ghost use Rattle.model.specs.Planar.{planar_edges, planar_at, along_row, planar_from, planar_mark, planar_open};
ghost use Rattle.planar.specs.Sides.{SideWithin};

use model::numbers::{Edge, Vertex};

// The vertex in this row and column.
fn vertex_at(side: usize, row: usize, column: usize) -> Vertex
    requires { SideWithin side × (row < side) × (column ≤ side) }
    ensures { result.0 ≡ planar_at side row column }
{
    let start = row * (side + 1);
    Vertex((start + column) as u16)
}

// The smaller end of an edge: of one along a row the left, of one down a column the upper.
pub(crate) fn first_end(side: usize, edge: Edge) -> Vertex
    requires { SideWithin side × (edge.0 < planar_edges side) }
    ensures { result.0 ≡ planar_from side edge.0 }
{
    let e = edge.0 as usize;
    let along = side * side;
    if e < along {
        return vertex_at(side, e / side, e % side);
    }
    let inner = side - 1;
    let k = e - along;
    vertex_at(side, k / inner, k % inner + 1)
}

// How far the other end lies from it: one column, or one row of side + 1 vertices.
pub(crate) fn step_of(side: usize, edge: Edge) -> u16
    requires { SideWithin side }
    ensures { result ≡ cond (along_row side edge.0) 1 (side + 1) }
{
    let along = side * side;
    if (edge.0 as usize) < along {
        return 1;
    }
    (side + 1) as u16
}

// The mark of an edge: 1 where it leads along a row from column 0 to column 1.
pub(crate) fn mark_of(side: usize, edge: Edge) -> u8
    requires { SideWithin side }
    ensures { result ≡ planar_mark side edge.0 }
{
    let e = edge.0 as usize;
    let along = side * side;
    u8::from(e < along && e % side == 0)
}

// The open byte of a vertex: 1 in the first and in the last column.
pub(crate) fn open_byte(side: usize, v: Vertex) -> u8
    requires { SideWithin side }
    ensures { result ≡ planar_open side v.0 }
{
    let column = v.0 as usize % (side + 1);
    u8::from(column == 0 || column == side)
}
