ghost use Rattle.std.specs.Prelude.{◌≤◌};

use crate::decoding::summary::summary;
use crate::{output, unopened};
use decoder::decode;
use model::answers::Key;
use model::lent::{Board, Sheet};
use model::refusal::Refusal;
use std::io;

fn answer(rt: &impl Print, decoded: Result<Key, Refusal>) -> io::Result<()> {
    match decoded {
        Ok(key) => {
            output::count(rt, key.growths)?;
            output::text(rt, b" growths, ")?;
            output::count(rt, key.edges)?;
            output::text(rt, b" edges")
        }
        Err(refusal) => output::refused(rt, refusal),
    }
}

// What stands in a buffer: every byte, or what sums them up where they are many.
fn buffer(rt: &impl Print, bytes: &[u8]) -> io::Result<()> {
    if bytes.is_empty() {
        output::text(rt, b"-")
    } else if bytes.len() > 20 {
        summary(rt, bytes)
    } else {
        output::bytes(rt, bytes)
    }
}

// The line of a sheet, but for its name.
pub(crate) fn show<'a>(
    rt: &impl Print,
    vertices: usize,
    ends: &'a [u16],
    marks: &'a [u8],
    syndrome: &'a [u8],
    loss: &'a [u8],
    support: &mut [u8],
    correction: &mut [u8],
) -> io::Result<()> {
    let zeros = [0u8; unopened::MOST];
    let n = unopened::count(vertices);
    let board = Board {
        vertices,
        ends,
        marks,
        opened: &zeros[..n],
    };
    let sheet = Sheet {
        board,
        syndrome,
        loss,
    };
    answer(rt, decode(sheet, support, correction))?;
    output::text(rt, b", support ")?;
    buffer(rt, support)?;
    output::text(rt, b", correction ")?;
    buffer(rt, correction)?;
    output::text(rt, b"\n")
}

// How many edges the ends stand for, but at most 20.
fn few(ends: &[u16]) -> usize
    ensures { result ≤ 20 }
{
    (ends.len() / 2).min(20)
}

// The line of a sheet of at most 20 edges. Both buffers are lent full of nines, so that what decoding does not write shows.
pub(crate) fn small(
    rt: &impl Print,
    vertices: usize,
    ends: &[u16],
    marks: &[u8],
    syndrome: &[u8],
    loss: &[u8],
) -> io::Result<()> {
    let edges = few(ends);
    let mut support = [9; 20];
    let mut correction = [9; 20];
    show(
        rt,
        vertices,
        ends,
        marks,
        syndrome,
        loss,
        &mut support[..edges],
        &mut correction[..edges],
    )
}
