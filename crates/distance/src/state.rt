ghost use Rattle.std.specs.Prelude.{◌≡◌, ◌/◌, ◌<◌};
ghost use Rattle.model.specs.Board.{Valid, edges, vertex_limit};
ghost use Rattle.distance.specs.States.{across, padded};
ghost use Rattle.distance.specs.Search.{home};

use model::ends::{first_end, second_end};
use model::limits::VERTICES;
use model::numbers::{Edge, Vertex};

// The number of states: four for each vertex.
pub const STATES: usize = 4 * VERTICES;

// A vertex on one of four copies of the board, one for each mark value: 4 * v + x is vertex v on copy x.
#[derive(Clone, Copy)]
pub struct State(pub u16);

impl State {
    // A vertex on copy 0.
    pub fn home(v: Vertex) -> State
        requires { v.0 < vertex_limit }
        ensures { result.0 ≡ home v.0 }
    {
        State(4 * v.0)
    }

    // The vertex, on whichever copy.
    pub fn vertex(self) -> Vertex
        ensures { result.0 ≡ self.0 / 4 }
    {
        Vertex(self.0 / 4)
    }

    // The state across an edge: the edge's other end, on the copy that differs by the edge's mark.
    pub fn across(self, ends: &[u16], marks: &[u8], edge: Edge) -> State
        requires { Valid (padded ends.now marks.now) × (edge.0 < edges (padded ends.now marks.now)) }
        ensures { result.0 ≡ across (padded ends.now marks.now) self.0 edge.0 }
    {
        let first = first_end(ends, edge);
        let second = second_end(ends, edge);
        let e = edge.0 as usize;
        let copy = (self.0 % 4) ^ (marks[e] as u16);
        if first == self.vertex() {
            let far = 4 * second.0 + copy;
            return State(far);
        }
        let far = 4 * first.0 + copy;
        State(far)
    }
}
