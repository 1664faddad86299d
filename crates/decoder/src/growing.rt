ghost use Rattle.decoder.specs.Choices.{Choosable};
ghost use Rattle.decoder.specs.Growing.{policy_of, FollowsAll};

use crate::choice::choose;
use model::limits::VERTICES;
use std::ops::Range;

// Which clusters grow at a time: the chosen one, or in a round all that are odd. It is a value, and not a type that the calls are generic in:
// the contracts tell the policy by it, and a trait with its laws for two cases of one `match` would be no plainer.
#[derive(Clone, Copy)]
pub(crate) enum Growth {
    Weighted,
    Rounds,
}

// The clusters that grow next, by the figures that the book keeps: the odd ones whose smallest vertices lie in the range. None do where none
// is odd.
pub(crate) fn next(
    growth: Growth,
    vertices: usize,
    figure: &[u16; VERTICES],
) -> Option<Range<usize>>
    requires { Choosable vertices figure.now }
    ensures { FollowsAll (policy_of growth) vertices figure.now result }
{
    let cluster = choose(vertices, figure)?;
    let growing = match growth {
        Growth::Weighted => {
            let from = cluster.0 as usize;
            from..from + 1
        }
        Growth::Rounds => 0..vertices,
    };
    Some(growing)
}
