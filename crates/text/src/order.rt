ghost use Rattle.std.specs.Prelude.{◌≡◌, ◌≤◌};
ghost use Rattle.model.specs.Board.{vertex_limit};
ghost use Rattle.model.specs.Text.{edge_may_follow, open_may_follow, syndrome_may_follow, loss_may_follow};
ghost use Rattle.text.specs.Order.{meant, edge_fits, lit_fits, may_stand};

use crate::line::Line;
use model::limits::{EDGES, VERTICES};
use model::numbers::{Edge, Vertex};

// The sheet that the lines so far make: of so many vertices and so far so many edges, with the last of them.
#[derive(Clone, Copy)]
pub struct Sofar {
    pub vertices: u16,
    pub edges: u16,
    pub last: Line,
}

// `E` lines follow the `V` line and one another.
fn edge_may_follow(last: Line) -> bool
    ensures { result ≡ edge_may_follow (meant last) }
{
    matches!(last, Line::Vertices(_) | Line::Edge { .. })
}

// `O` lines follow those, rising.
fn open_may_follow(last: Line, vertex: Vertex) -> bool
    ensures { result ≡ open_may_follow (meant last) vertex.0 }
{
    match last {
        Line::Vertices(_) | Line::Edge { .. } => true,
        Line::Open(v) => v.0 < vertex.0,
        Line::Syndrome(_) => false, // `S` lines come later
        Line::Lost(_) => false,
    }
}

// `S` lines follow those, rising.
fn syndrome_may_follow(last: Line, vertex: Vertex) -> bool
    ensures { result ≡ syndrome_may_follow (meant last) vertex.0 }
{
    match last {
        Line::Vertices(_) | Line::Edge { .. } | Line::Open(_) => true,
        Line::Syndrome(v) => v.0 < vertex.0,
        Line::Lost(_) => false, // `X` lines come last
    }
}

// `X` lines follow those, rising.
fn loss_may_follow(last: Line, edge: Edge) -> bool
    ensures { result ≡ loss_may_follow (meant last) edge.0 }
{
    match last {
        Line::Vertices(_) | Line::Edge { .. } | Line::Open(_) | Line::Syndrome(_) => true,
        Line::Lost(e) => e.0 < edge.0,
    }
}

// An edge's fields are in range, and it is not one too many. Its ends may be equal.
fn edge_fits(first: Vertex, second: Vertex, mark: u16, vertices: u16, edges: u16) -> bool
    ensures { result ≡ edge_fits vertices edges first.0 second.0 mark }
{
    (edges as usize) < EDGES && first.0 < vertices && second.0 < vertices && mark <= 3
}

// A syndrome vertex is in range, and not open.
fn lit_fits(vertex: Vertex, vertices: u16, opened: &[u8; VERTICES]) -> bool
    requires { vertices ≤ vertex_limit }
    ensures { result ≡ lit_fits vertices opened.now vertex.0 }
{
    vertex.0 < vertices && opened[vertex.0 as usize] != 1
}

// May a line stand after those of the sheet so far, with these open bytes?
pub fn may_stand(sofar: Sofar, line: Line, opened: &[u8; VERTICES]) -> bool
    requires { sofar.vertices ≤ vertex_limit }
    ensures { result ≡ may_stand sofar.vertices sofar.edges opened.now (meant sofar.last) (meant line) }
{
    match line {
        Line::Vertices(_) => false,
        Line::Edge {
            first,
            second,
            mark,
        } => {
            edge_may_follow(sofar.last)
                && edge_fits(first, second, mark, sofar.vertices, sofar.edges)
        }
        Line::Open(v) => open_may_follow(sofar.last, v) && v.0 < sofar.vertices,
        Line::Syndrome(v) => {
            syndrome_may_follow(sofar.last, v) && lit_fits(v, sofar.vertices, opened)
        }
        Line::Lost(e) => loss_may_follow(sofar.last, e) && e.0 < sofar.edges,
    }
}
