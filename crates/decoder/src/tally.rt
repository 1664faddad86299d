ghost use Rattle.std.specs.Prelude.{length};
ghost use Rattle.decoder.specs.Tallies.{Tallied, Tallies};

use model::limits::VERTICES;

// For each label, how many of its vertices have a 1 among the members.
pub(crate) fn tally(labels: &[u16; VERTICES], members: &[u8]) -> [u16; VERTICES]
    requires { Tallied (length members.now) labels.now }
    ensures { Tallies (length members.now) labels.now members.now result }
{
    let mut counts = [0u16; VERTICES];
    for (v, member) in members.iter().enumerate() {
        if *member == 1 {
            let a = labels[v] as usize;
            counts[a] = counts[a] + 1;
        }
    }
    counts
}
