ghost use Rattle.std.specs.Prelude.{◌≡◌};
ghost use Rattle.model.specs.Board.{edge_limit};
ghost use Rattle.model.specs.Sums.{bytes};
ghost use Rattle.distance.specs.States.{padded};
ghost use Rattle.distance.specs.Search.{at, passed_from};
ghost use Rattle.distance.specs.Tracing.{Traceable};

use crate::state::State;
use crate::visits::Visits;
use model::limits::EDGES;
use model::numbers::Edge;

// Goes back from a state to the start along the kept edges, and flips the byte of each: an edge that is passed twice is not
// shown. What was shown before is gone.
pub fn trace(ends: &[u16], marks: &[u8], visits: &Visits, from: State, found: &mut [u8; EDGES])
    requires { Traceable ends.now marks.now visits.now.depth visits.now.via from.0 }
    ensures { found.new ≡ bytes edge_limit
        (passed_from (padded ends.now marks.now) (at visits.now.depth) (at visits.now.via) from.0) }
{
    *found = [0; EDGES];
    let mut state = from;
    // Up a tree until its root: no index is counted.
    while visits.depth[state.0 as usize] > 1 {
        let kept = visits.via[state.0 as usize];
        let e = kept as usize;
        found[e] = 1 - found[e];
        state = state.across(ends, marks, Edge(kept));
    }
}
