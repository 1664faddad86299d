// The boards of document 01's marked sheets, and two with loop edges: two ends for each edge, and a mark.

// The ring of four vertices, whose last edge crosses line A.
pub(crate) const RING: [u16; 8] = [0, 1, 1, 2, 2, 3, 3, 0];

pub(crate) const RING_MARKS: [u8; 4] = [0, 0, 0, 1];

// The syndrome and the losses of m1, which is on it.
pub(crate) const LIT: [u8; 4] = [1, 0, 0, 1];

pub(crate) const KEPT: [u8; 4] = [0, 0, 0, 0];

// P, the path of four vertices.
pub(crate) const PATH: [u16; 6] = [0, 1, 1, 2, 2, 3];

pub(crate) const PATH_MARKS: [u8; 3] = [0, 0, 0];

// T, the torus of side 3.
pub(crate) const TORUS: [u16; 36] = [
    0, 1, 0, 3, 1, 2, 1, 4, 2, 0, 2, 5, 3, 4, 3, 6, 4, 5, 4, 7, 5, 3, 5, 8, 6, 7, 6, 0, 7, 8, 7, 1,
    8, 6, 8, 2,
];

pub(crate) const TORUS_MARKS: [u8; 18] = [0, 0, 0, 0, 1, 0, 0, 0, 0, 0, 1, 0, 0, 2, 0, 2, 1, 2];

// Two vertices and two edges between them, one of which crosses line A.
pub(crate) const TWO: [u16; 4] = [0, 1, 0, 1];

pub(crate) const TWO_MARKS: [u8; 2] = [0, 1];

// An edge between two loop edges, one at each of its ends, which cross line A and line B.
pub(crate) const LOOPED: [u16; 6] = [0, 0, 0, 1, 1, 1];

pub(crate) const LOOPED_MARKS: [u8; 3] = [1, 0, 2];

// The torus of side 1: two loop edges at its vertex.
pub(crate) const SIDE_ONE: [u16; 4] = [0, 0, 0, 0];

pub(crate) const SIDE_ONE_MARKS: [u8; 2] = [1, 2];
