ghost use Rattle.std.specs.Prelude.{length};
ghost use Rattle.decoder.specs.OddEnds.{Markable, MarksEnds};

use crate::tally::tally;
use model::limits::VERTICES;

// The odd ends of the correction: the syndrome vertices, and of each cluster that holds an odd number of them the smallest open vertex.
// That is the first to be met, and the count of its cluster then becomes 0. No open vertex is lit.
pub(crate) fn odd_ends(labels: &[u16; VERTICES], opened: &[u8], syndrome: &[u8]) -> [u8; VERTICES]
    requires { Markable labels.now opened.now syndrome.now }
    ensures { MarksEnds (length syndrome.now) labels.now opened.now syndrome.now result }
{
    let mut counts = tally(labels, syndrome);
    let mut ends = [0u8; VERTICES];
    for (v, lit) in syndrome.iter().enumerate() {
        let a = labels[v] as usize;
        if (opened[v] == 1) & (counts[a] % 2 == 1) {
            ends[v] = 1;
            counts[a] = 0;
        } else {
            ends[v] = *lit;
        }
    }
    ends
}
