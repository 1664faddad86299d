use crate::{output, unopened};
use model::answers::Verdict;
use model::lent::{Board, Sheet};
use std::io;
use verdict::verdict;

fn answer(rt: &impl Print, verdict: Verdict) -> io::Result<()> {
    match verdict {
        Verdict::Off(vertex) => {
            output::text(rt, b"off at ")?;
            output::count(rt, vertex.0 as usize)
        }
        Verdict::Same => output::text(rt, b"same"),
        Verdict::Wound(marks) => {
            output::text(rt, b"wound ")?;
            output::count(rt, marks as usize)
        }
        Verdict::Refused(refusal) => output::refused(rt, refusal),
    }
}

// The line of a sheet with a handed-in set, but for its name.
pub(crate) fn show<'a>(
    rt: &impl Print,
    vertices: usize,
    ends: &'a [u16],
    marks: &'a [u8],
    syndrome: &'a [u8],
    loss: &'a [u8],
    handed: &[u8],
) -> io::Result<()> {
    let zeros = [0u8; unopened::MOST];
    let n = unopened::count(vertices);
    let board = Board {
        vertices,
        ends,
        marks,
        opened: &zeros[..n],
    };
    let sheet = Sheet {
        board,
        syndrome,
        loss,
    };
    answer(rt, verdict(sheet, handed))?;
    output::text(rt, b"\n")
}
