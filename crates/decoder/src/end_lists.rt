ghost use Rattle.model.specs.Board.{EndsWithin, vertex_limit};
ghost use Rattle.model.specs.Refusals.{edges_of};
ghost use Rattle.decoder.specs.EndLists.{Unlisted, Listed};

use model::limits::{ENDS, VERTICES};

// For each vertex the list of its ends, from the last to the first. A place is one more than the number of the end there, and 0 where there is
// none.
#[derive(Clone, Copy)]
pub(crate) struct EndLists {
    // By each vertex its last end.
    pub(crate) latest: [u16; VERTICES],
    // By each end the one before it at the same vertex.
    pub(crate) earlier: [u16; ENDS],
}

impl EndLists {
    // Lists the ends, where none is listed yet.
    pub(crate) fn list(&mut self, ends: &[u16])
        requires ends_within { EndsWithin vertex_limit (edges_of ends.now) ends.now }
        requires unlisted { Unlisted self.old.latest self.old.earlier }
        ensures { Listed ends.now self.new.latest self.new.earlier }
    {
        for i in 0..ends.len() {
            let v = ends[i] as usize;
            self.earlier[i] = self.latest[v];
            self.latest[v] = (i + 1) as u16;
        }
    }
}
