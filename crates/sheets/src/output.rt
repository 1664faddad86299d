// The parts of a printed line. Each only writes to standard output, of which no contract can speak.
use model::refusal::Refusal;
use std::io;

pub(crate) fn text(rt: &impl Print, bytes: &[u8]) -> io::Result<()> {
    rt.write_all(bytes)
}

// The start of a line: what is decoded or judged.
pub(crate) fn name(rt: &impl Print, bytes: &[u8]) -> io::Result<()> {
    text(rt, bytes)?;
    text(rt, b": ")
}

pub(crate) fn count(rt: &impl Print, n: usize) -> io::Result<()> {
    print!(rt; "{n}")
}

fn digit(rt: &impl Print, byte: u8) -> io::Result<()> {
    count(rt, byte as usize)
}

// Each byte as a number, one after the other.
pub(crate) fn bytes(rt: &impl Print, all: &[u8]) -> io::Result<()> {
    for byte in all {
        digit(rt, *byte)?;
    }
    Ok(())
}

// A refusal: its number and its place.
pub(crate) fn refused(rt: &impl Print, refusal: Refusal) -> io::Result<()> {
    text(rt, b"number ")?;
    digit(rt, refusal.number())?;
    text(rt, b", place ")?;
    count(rt, refusal.place())
}
