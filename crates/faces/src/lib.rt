// The verdict on the torus of side L, with faces as evidence: under same, the faces that make up the handed-in set and the correction.
#![tactic(auto)]

mod checks;
mod judging;
mod marking;

ghost use Rattle.std.specs.Prelude.{◌≡◌, ◌*◌, length};
ghost use Rattle.model.specs.FacesOutcomes.{ShowsFaces, FacesSoundly};
ghost use Rattle.faces.specs.Lent.{ForFaces, Answered};

use crate::checks::check_faces;
use crate::judging::judge;
use crate::marking::mark_faces;
use model::answers::Verdict;
use model::limits::TORUS_EDGES;

// Off, same or wound, or a refusal, as the verdict on the torus answers; under same with a byte for each face filled in, and otherwise with
// nothing written.
pub fn faces(side: usize, syndrome: &[u8], loss: &[u8], handed: &[u8], faces: &mut [u8]) -> Verdict
    ensures outcome { ShowsFaces side syndrome.now loss.now handed.now faces.old result faces.new }
    ensures sound { FacesSoundly side syndrome.now loss.now handed.now faces.old result faces.new }
{
    // No `?`: the verdict's enum has the refusal in a case of its own.
    if let Err(refusal) = check_faces(side, syndrome, loss, handed, faces) {
        return Verdict::Refused(refusal);
    }
    let edges = 2 * (side * side);
    let mut correction = [0u8; TORUS_EDGES];
    judge_and_mark(
        side,
        syndrome,
        loss,
        handed,
        &mut correction[..edges],
        faces,
    )
}

// The verdict, once all tests have passed, with the correction in a buffer of its own; and the faces, where it is same.
fn judge_and_mark(
    side: usize,
    syndrome: &[u8],
    loss: &[u8],
    handed: &[u8],
    correction: &mut [u8],
    faces: &mut [u8],
) -> Verdict
    requires { ForFaces side syndrome.now loss.now handed.now faces.old
        × (length correction.old ≡ 2 * (side * side)) }
    ensures { Answered side syndrome.now loss.now handed.now faces.old result faces.new }
{
    let verdict = judge(side, syndrome, loss, handed, correction);
    if let Verdict::Same = verdict {
        mark_faces(side, handed, correction, faces);
    }
    verdict
}
