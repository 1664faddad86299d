// Sets for sheets with loop edges. A loop edge is closed by itself: with it a set has the same syndrome, and other marks where it has one.
use crate::boards::*;
use crate::output::name;
use crate::verdicts::judged::show;
use std::io;

fn looped(rt: &impl Print, handed: &[u8; 3]) -> io::Result<()> {
    show(rt, 2, &LOOPED, &LOOPED_MARKS, &[1, 1], &[0; 3], handed)
}

fn side_one(rt: &impl Print, lit: &[u8; 1], handed: &[u8; 2]) -> io::Result<()> {
    show(rt, 1, &SIDE_ONE, &SIDE_ONE_MARKS, lit, &[0; 2], handed)
}

pub(crate) fn all(rt: &impl Print) -> io::Result<()> {
    name(rt, b"loop edges, right")?;
    looped(rt, &[0, 1, 0])?;
    name(rt, b"loop edges, with a loop")?;
    looped(rt, &[1, 1, 0])?;
    name(rt, b"loop edges, off")?;
    looped(rt, &[1, 0, 1])?;
    name(rt, b"side 1, empty")?;
    side_one(rt, &[0], &[0, 0])?;
    name(rt, b"side 1, across line A")?;
    side_one(rt, &[0], &[1, 0])?;
    name(rt, b"side 1, across line B")?;
    side_one(rt, &[0], &[0, 1])?;
    name(rt, b"side 1, across both")?;
    side_one(rt, &[0], &[1, 1])?;
    name(rt, b"side 1, lit")?;
    side_one(rt, &[1], &[0, 0])
}
