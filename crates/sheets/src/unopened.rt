// Every board here is without open vertices: it is lent a 0 for each of its vertices.
ghost use Rattle.std.specs.Prelude.{◌≤◌};

// One more than a board may have.
pub(crate) const MOST: usize = 1025;

// How many zeros are lent. A vertex count that is larger is refused before its open bytes are counted.
pub(crate) fn count(vertices: usize) -> usize
    ensures { result ≤ 1025 }
{
    vertices.min(MOST)
}
