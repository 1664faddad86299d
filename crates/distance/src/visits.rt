ghost use Rattle.distance.specs.Walking.{Room, Entry};

use crate::state::{STATES, State};
use model::numbers::Edge;

// The states that a walk met. `depth` is 0 for a state that was not met, 1 for the start, and grows by 1 with each edge; `via` keeps the
// edge by which a state was met; the first `tail` numbers of `queue` are the states in the order in which they were met.
#[derive(Drop)]
pub struct Visits {
    pub depth: [u16; STATES],
    pub via: [u16; STATES],
    pub queue: [u16; STATES],
    pub tail: usize,
}

impl Visits {
    // Enters a state that was not met before at the end of the queue, with its depth and the edge that led to it. Says whether
    // it did.
    pub fn enter(&mut self, state: State, edge: Edge, level: u16) -> bool
        requires { Room self.old.depth self.old.via self.old.queue self.old.tail state.0 }
        ensures { Entry self.old.depth self.old.via self.old.queue self.old.tail state.0 edge.0 level
            result self.new.depth self.new.via self.new.queue self.new.tail }
    {
        let i = state.0 as usize;
        if self.depth[i] != 0 {
            return false;
        }
        let t = self.tail;
        self.depth[i] = level;
        self.via[i] = edge.0;
        self.queue[t] = state.0;
        self.tail = t + 1;
        true
    }
}
