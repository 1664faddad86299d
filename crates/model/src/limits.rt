// The limits of what is lent. They stand here alone.

// The largest vertex count of a board.
pub const VERTICES: usize = 1024;

// The largest edge count of a board.
pub const EDGES: usize = 4096;

// The ends of that many edges.
pub const ENDS: usize = 2 * EDGES;

// The largest number of bytes of a text that is read or written.
pub const TEXT: usize = 65536;

// The smallest and the largest side of a torus that is built.
pub const LEAST_SIDE: usize = 1;

pub const LARGEST_SIDE: usize = 32;

// The edges of the torus with the largest side: two for each vertex, of which it has as many as a board can have.
pub const TORUS_EDGES: usize = 2 * VERTICES;

// The smallest and the largest side of a planar board that is built.
pub const LEAST_PLANAR: usize = 2;

pub const LARGEST_PLANAR: usize = 31;

// The largest number of edges on which a game is played, and the number of sets of so many edges.
pub const GAME_EDGES: usize = 10;

pub const GAME_SETS: usize = 1024;

// The largest number of edges of a board on which a trap is set.
pub const TRAP_EDGES: usize = 16;
