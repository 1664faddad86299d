// The verdict on a torus that is built for it.
ghost use Rattle.std.specs.Prelude.{◌≡◌, ◌*◌, length};
ghost use Rattle.faces.specs.Lent.{OnTorus, TorusLent, Judged};

use model::answers::Verdict;
use model::lent::{Board, Sheet};
use model::limits::{TORUS_EDGES, VERTICES};
use torus::{fill_ends, fill_marks};
use verdict::compare;

// The torus is built into arrays of its own, without open vertices; the correction stays in its buffer.
pub(crate) fn judge(
    side: usize,
    syndrome: &[u8],
    loss: &[u8],
    handed: &[u8],
    correction: &mut [u8],
) -> Verdict
    requires { OnTorus side syndrome.now loss.now handed.now × (length correction.old ≡ 2 * (side * side)) }
    ensures { Judged side syndrome.now loss.now handed.now correction.old result correction.new }
{
    let vertices = side * side;
    let edges = 2 * vertices;
    let mut ends = [0u16; 2 * TORUS_EDGES];
    let mut marks = [0u8; TORUS_EDGES];
    let opened = [0u8; VERTICES];
    let mut support = [0u8; TORUS_EDGES];
    build_and_compare(
        side,
        syndrome,
        loss,
        handed,
        &mut ends[..2 * edges],
        &mut marks[..edges],
        &opened[..vertices],
        &mut support[..edges],
        correction,
    )
}

// Builds the torus and compares, in buffers of the right lengths. What makes up the sheet is lent for one lifetime.
fn build_and_compare<'a>(
    side: usize,
    syndrome: &'a [u8],
    loss: &'a [u8],
    handed: &[u8],
    ends: &'a mut [u16],
    marks: &'a mut [u8],
    opened: &'a [u8],
    support: &mut [u8],
    correction: &mut [u8],
) -> Verdict
    requires { OnTorus side syndrome.now loss.now handed.now
        × TorusLent side ends.old marks.old opened.now support.old correction.old }
    ensures { Judged side syndrome.now loss.now handed.now correction.old result correction.new }
{
    fill_ends(side, ends);
    fill_marks(side, marks);
    let board = Board {
        vertices: side * side,
        ends,
        marks,
        opened,
    };
    let sheet = Sheet {
        board,
        syndrome,
        loss,
    };
    compare(sheet, handed, support, correction)
}
