ghost use Rattle.distance.specs.States.{padded};
ghost use Rattle.distance.specs.Search.{at};
ghost use Rattle.distance.specs.Walking.{Ready, Fresh, Walked};

use crate::state::State;
use crate::visits::Visits;
use board::incidence::IncidenceLists;
use model::numbers::{Edge, Vertex};

// A breadth-first walk over the four copies from `start` on copy 0. It ends when it meets the start on another copy, and
// gives that state, or when it can find no loop of fewer than `best` edges. Copy 0 of the start is met first, so a state that
// is entered at its vertex is on another copy.
pub fn walk(
    ends: &[u16],
    marks: &[u8],
    lists: &IncidenceLists,
    start: Vertex,
    best: u16,
    visits: &mut Visits,
) -> Option<State>
    requires ready { Ready ends.now marks.now lists.now.offsets lists.now.entries start.0 best }
    requires fresh { Fresh visits.old.depth visits.old.via visits.old.queue }
    ensures { Walked (padded ends.now marks.now) start.0 best (at visits.new.depth) (at visits.new.via) result }
{
    let home = State::home(start);
    visits.depth[home.0 as usize] = 1;
    visits.queue[0] = home.0;
    visits.tail = 1;
    let mut head: usize = 0;
    let mut met = None;
    // The queue grows while its head is read: an iterator would hold it borrowed.
    'walk: while head < visits.tail {
        let state = State(visits.queue[head]);
        let level = visits.depth[state.0 as usize];
        if level >= best {
            break 'walk;
        }
        let v = state.vertex().0 as usize;
        let first = lists.offsets[v] as usize;
        let end = lists.offsets[v + 1] as usize;
        for i in first..end {
            let edge = Edge(lists.entries[i]);
            let next = state.across(ends, marks, edge);
            if visits.enter(next, edge, level + 1) {
                if next.vertex() == start {
                    met = Some(next);
                    break 'walk;
                }
            }
        }
        head += 1;
    }
    met
}
