ghost use Rattle.std.specs.Prelude.{◌≡◌, replicate};
ghost use Rattle.model.specs.Board.{without_open, Valid, edge_limit};
ghost use Rattle.distance.specs.States.{padded};
ghost use Rattle.distance.specs.Walking.{Ready};
ghost use Rattle.distance.specs.Found.{bound, Improved, Shortest};

use crate::state::STATES;
use crate::trace::trace;
use crate::visits::Visits;
use crate::walk::walk;
use board::incidence::{ENTRIES, IncidenceLists, OFFSETS};
use model::limits::{EDGES, VERTICES};
use model::numbers::Vertex;

// More edges than a loop can have: a walk that looks for fewer looks for every loop.
const ABOVE_ALL: u16 = EDGES as u16 + 1;

// Walks from one start, and shows the loop that it finds in `found` if that has fewer edges than the best so far. Gives the fewest
// edges so far.
fn improve(
    ends: &[u16],
    marks: &[u8],
    lists: &IncidenceLists,
    start: Vertex,
    best: Option<u16>,
    found: &mut [u8; EDGES],
) -> Option<u16>
    requires { Ready ends.now marks.now lists.now.offsets lists.now.entries start.0 (bound best) }
    ensures { Improved (padded ends.now marks.now) start.0 best found.old result found.new }
{
    let mut visits = Visits {
        depth: [0; STATES],
        via: [0; STATES],
        queue: [0; STATES],
        tail: 0,
    };
    let limit = best.unwrap_or(ABOVE_ALL);
    let Some(met) = walk(ends, marks, lists, start, limit, &mut visits) else {
        return best;
    };
    trace(ends, marks, &visits, met, found);
    Some(visits.depth[met.0 as usize] - 1)
}

// The fewest edges of a loop over all starts, on a board without open vertices, and such a loop in `found`, or none and zeros.
pub fn shortest(vertices: usize, ends: &[u16], marks: &[u8], found: &mut [u8; EDGES]) -> Option<u16>
    requires valid { Valid (without_open vertices ends.now marks.now) }
    requires found_value { found.old ≡ replicate edge_limit 0 }
    ensures { Shortest (without_open vertices ends.now marks.now) result found.new }
{
    let mut lists = IncidenceLists {
        offsets: [0; OFFSETS],
        entries: [0; ENTRIES],
    };
    lists.list(VERTICES, ends);
    let mut best = None;
    for start in 0..vertices {
        best = improve(ends, marks, &lists, Vertex(start as u16), best, found);
    }
    best
}
