// The sheets m1 to m9.
use crate::boards::*;
use crate::decoding::decoded::small;
use crate::output::name;
use std::io;

fn ring(rt: &impl Print, loss: &[u8; 4]) -> io::Result<()> {
    small(rt, 4, &RING, &RING_MARKS, &[1, 0, 0, 1], loss)
}

fn path(rt: &impl Print, syndrome: &[u8; 4]) -> io::Result<()> {
    small(rt, 4, &PATH, &PATH_MARKS, syndrome, &[0; 3])
}

fn torus(rt: &impl Print, syndrome: &[u8; 9]) -> io::Result<()> {
    small(rt, 9, &TORUS, &TORUS_MARKS, syndrome, &[0; 18])
}

pub(crate) fn all(rt: &impl Print) -> io::Result<()> {
    name(rt, b"m1")?;
    ring(rt, &[0, 0, 0, 0])?;
    name(rt, b"m2")?;
    ring(rt, &[1, 1, 1, 0])?;
    name(rt, b"m3")?;
    ring(rt, &[1, 1, 1, 1])?;
    name(rt, b"m4")?;
    path(rt, &[1, 0, 0, 1])?;
    name(rt, b"m5")?;
    path(rt, &[1, 1, 1, 0])?;
    name(rt, b"m6")?;
    torus(rt, &[1, 1, 0, 0, 0, 0, 0, 0, 0])?;
    name(rt, b"m7")?;
    torus(rt, &[1, 0, 0, 0, 1, 0, 0, 0, 0])?;
    name(rt, b"m8")?;
    small(rt, 2, &TWO, &TWO_MARKS, &[1, 1], &[0, 0])?;
    name(rt, b"m9")?;
    small(rt, 1, &[], &[], &[0], &[])?;
    name(rt, b"m9, lit")?;
    small(rt, 1, &[], &[], &[1], &[])
}
