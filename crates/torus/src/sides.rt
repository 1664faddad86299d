// The sides of the tori that are built: one test for all calls that are asked for one.
ghost use Rattle.std.specs.Prelude.{◌↔◌, IsTrue};
ghost use Rattle.torus.specs.Sides.{SideWithin};

use model::limits::{LARGEST_SIDE, LEAST_SIDE};

// Says whether a torus of this side is built.
pub fn is_built(side: usize) -> bool
    ensures { IsTrue result ↔ SideWithin side }
{
    (LEAST_SIDE..=LARGEST_SIDE).contains(&side)
}
