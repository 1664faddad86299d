// The faces that make up two sets of edges together, without face 0: a mark changes at each edge that is crossed.
ghost use Rattle.std.specs.Prelude.{◌≡◌, ◌*◌, ◌<◌, ◌≤◌, eqb, length};
ghost use Rattle.model.specs.Board.{ValidBytes};
ghost use Rattle.model.specs.Sums.{◌⊕◌, bit, ones};
ghost use Rattle.model.specs.Winding.{together};
ghost use Rattle.model.specs.Faces.{face_of, face_bytes};
ghost use Rattle.torus.specs.Sides.{SideWithin};
ghost use Rattle.faces.specs.Marks.{MarkedBefore};

use model::numbers::{Edge, Face};

// The mark on the other side of edge e.
fn across(mark: u8, handed: &[u8], correction: &[u8], e: Edge) -> u8
    requires { (mark ≤ 1) × ValidBytes (length handed.now) handed.now × ValidBytes (length handed.now) correction.now
        × (e.0 < length handed.now) }
    ensures { result ≡ bit (eqb mark 1 ⊕ together (ones handed.now) (ones correction.now) e.0) }
{
    let at = e.0 as usize;
    mark ^ handed[at] ^ correction[at]
}

// The mark of a face after face 0, from one before it: in row 0 from its left neighbour, further down from the face above it.
fn mark_of(side: usize, handed: &[u8], correction: &[u8], faces: &[u8], face: Face) -> u8
    requires { MarkedBefore side handed.now correction.now faces.now face.0 }
    ensures { result ≡ bit (face_of side (together (ones handed.now) (ones correction.now)) face.0) }
{
    let i = face.0 as usize;
    if i < side {
        let left = 2 * face.0 + 1;
        return across(faces[i - 1], handed, correction, Edge(left));
    }
    let upper = 2 * face.0;
    across(faces[i - side], handed, correction, Edge(upper))
}

// The marks of all faces in turn.
pub(crate) fn mark_faces(side: usize, handed: &[u8], correction: &[u8], faces: &mut [u8])
    requires { SideWithin side × ValidBytes (2 * (side * side)) handed.now × ValidBytes (2 * (side * side)) correction.now
        × (length faces.old ≡ side * side) }
    ensures { faces.new ≡ face_bytes side (together (ones handed.now) (ones correction.now)) }
{
    faces[0] = 0;
    for i in 1..faces.len() {
        faces[i] = mark_of(side, handed, correction, faces, Face(i as u16));
    }
}
