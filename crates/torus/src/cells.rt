// The neighbours of a vertex of the torus, and the marks of the edges that lead to them.
ghost use Rattle.std.specs.Prelude.{◌≡◌, cond, ◌*◌, ◌-◌, ◌<◌, eqb};
ghost use Rattle.model.specs.Torus.{row, column, right_of, below};
ghost use Rattle.torus.specs.Sides.{SideWithin};

use model::numbers::Vertex;

// The vertex to the right of v, in its row.
pub fn right_of(side: usize, v: Vertex) -> Vertex
    requires { SideWithin side × (v.0 < side * side) }
    ensures { result.0 ≡ right_of side v.0 }
{
    let number = v.0 as usize;
    let start = number / side * side;
    let column = (number % side + 1) % side;
    Vertex((start + column) as u16)
}

// The vertex below v, in its column.
pub fn below_of(side: usize, v: Vertex) -> Vertex
    requires { SideWithin side × (v.0 < side * side) }
    ensures { result.0 ≡ below side v.0 }
{
    let number = v.0 as usize;
    let row = (number / side + 1) % side;
    let column = number % side;
    Vertex((row * side + column) as u16)
}

// The mark of the edge to the right of v: 1 in the last column.
pub fn right_mark(side: usize, v: Vertex) -> u8
    requires { 0 < side }
    ensures { result ≡ cond (eqb (column side v.0) (side - 1)) 1 0 }
{
    u8::from(v.0 as usize % side == side - 1)
}

// The mark of the edge to the vertex below v: 2 in the last row.
pub fn below_mark(side: usize, v: Vertex) -> u8
    requires { 0 < side }
    ensures { result ≡ cond (eqb (row side v.0) (side - 1)) 2 0 }
{
    2 * u8::from(v.0 as usize / side == side - 1)
}
