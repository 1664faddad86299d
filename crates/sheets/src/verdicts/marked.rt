// Sets for the sheets m1 to m9: the correction itself, others of its kind, ones that wind with it and ones with another syndrome.
use crate::boards::*;
use crate::output::name;
use crate::verdicts::judged::show;
use std::io;

fn ring(rt: &impl Print, loss: &[u8; 4], handed: &[u8; 4]) -> io::Result<()> {
    show(rt, 4, &RING, &RING_MARKS, &[1, 0, 0, 1], loss, handed)
}

fn path(rt: &impl Print, syndrome: &[u8; 4], handed: &[u8; 3]) -> io::Result<()> {
    show(rt, 4, &PATH, &PATH_MARKS, syndrome, &[0; 3], handed)
}

// The torus with vertices 0 and 1 lit.
fn beside(rt: &impl Print, handed: &[u8; 18]) -> io::Result<()> {
    let lit = [1, 1, 0, 0, 0, 0, 0, 0, 0];
    show(rt, 9, &TORUS, &TORUS_MARKS, &lit, &[0; 18], handed)
}

// The torus with vertices 0 and 4 lit.
fn across(rt: &impl Print, handed: &[u8; 18]) -> io::Result<()> {
    let lit = [1, 0, 0, 0, 1, 0, 0, 0, 0];
    show(rt, 9, &TORUS, &TORUS_MARKS, &lit, &[0; 18], handed)
}

fn two(rt: &impl Print, handed: &[u8; 2]) -> io::Result<()> {
    show(rt, 2, &TWO, &TWO_MARKS, &[1, 1], &[0, 0], handed)
}

fn rings(rt: &impl Print) -> io::Result<()> {
    name(rt, b"m1, right")?;
    ring(rt, &[0; 4], &[0, 0, 0, 1])?;
    name(rt, b"m1, the long way")?;
    ring(rt, &[0; 4], &[1, 1, 1, 0])?;
    name(rt, b"m1, empty")?;
    ring(rt, &[0; 4], &[0, 0, 0, 0])?;
    name(rt, b"m1, from 0 to 2")?;
    ring(rt, &[0; 4], &[1, 1, 0, 0])?;
    name(rt, b"m1, from 1 to 3")?;
    ring(rt, &[0; 4], &[0, 1, 1, 0])?;
    name(rt, b"m2, right")?;
    ring(rt, &[1, 1, 1, 0], &[1, 1, 1, 0])?;
    name(rt, b"m2, the short way")?;
    ring(rt, &[1, 1, 1, 0], &[0, 0, 0, 1])?;
    name(rt, b"m2, off")?;
    ring(rt, &[1, 1, 1, 0], &[1, 1, 0, 1])?;
    name(rt, b"m3, right")?;
    ring(rt, &[1; 4], &[1, 1, 1, 0])?;
    name(rt, b"m3, the short way")?;
    ring(rt, &[1; 4], &[0, 0, 0, 1])?;
    name(rt, b"m3, all")?;
    ring(rt, &[1; 4], &[1, 1, 1, 1])
}

fn paths(rt: &impl Print) -> io::Result<()> {
    name(rt, b"m4, right")?;
    path(rt, &[1, 0, 0, 1], &[1, 1, 1])?;
    name(rt, b"m4, off at an end")?;
    path(rt, &[1, 0, 0, 1], &[0, 1, 1])?;
    name(rt, b"m4, off at a later vertex")?;
    path(rt, &[1, 0, 0, 1], &[1, 1, 0])?;
    name(rt, b"m5, empty")?;
    path(rt, &[1, 1, 1, 0], &[0, 0, 0])?;
    name(rt, b"m5, all")?;
    path(rt, &[1, 1, 1, 0], &[1, 1, 1])
}

fn tori(rt: &impl Print) -> io::Result<()> {
    name(rt, b"m6, right")?;
    beside(rt, &[1, 0, 0, 0, 0, 0, 0, 0, 0, 0, 0, 0, 0, 0, 0, 0, 0, 0])?;
    name(rt, b"m6, around a square")?;
    beside(rt, &[0, 1, 0, 1, 0, 0, 1, 0, 0, 0, 0, 0, 0, 0, 0, 0, 0, 0])?;
    name(rt, b"m6, across line A")?;
    beside(rt, &[0, 0, 1, 0, 1, 0, 0, 0, 0, 0, 0, 0, 0, 0, 0, 0, 0, 0])?;
    name(rt, b"m6, across line B")?;
    beside(rt, &[1, 1, 0, 0, 0, 0, 0, 1, 0, 0, 0, 0, 0, 1, 0, 0, 0, 0])?;
    name(rt, b"m6, across both")?;
    beside(rt, &[0, 1, 1, 0, 1, 0, 0, 1, 0, 0, 0, 0, 0, 1, 0, 0, 0, 0])?;
    name(rt, b"m6, off")?;
    beside(rt, &[0, 1, 0, 0, 0, 0, 0, 0, 0, 0, 0, 0, 0, 0, 0, 0, 0, 0])?;
    name(rt, b"m7, right")?;
    across(rt, &[1, 0, 0, 1, 0, 0, 0, 0, 0, 0, 0, 0, 0, 0, 0, 0, 0, 0])?;
    name(rt, b"m7, the other corner")?;
    across(rt, &[0, 1, 0, 0, 0, 0, 1, 0, 0, 0, 0, 0, 0, 0, 0, 0, 0, 0])?;
    name(rt, b"m7, across line A")?;
    across(rt, &[0, 0, 0, 0, 1, 1, 0, 0, 1, 0, 0, 0, 0, 0, 0, 0, 0, 0])?;
    name(rt, b"m7, off")?;
    across(rt, &[1, 0, 1, 0, 0, 1, 0, 0, 0, 0, 0, 0, 0, 0, 0, 0, 0, 0])
}

fn points(rt: &impl Print) -> io::Result<()> {
    name(rt, b"m8, right")?;
    two(rt, &[1, 0])?;
    name(rt, b"m8, the other edge")?;
    two(rt, &[0, 1])?;
    name(rt, b"m8, both")?;
    two(rt, &[1, 1])?;
    name(rt, b"m9")?;
    show(rt, 1, &[], &[], &[0], &[], &[])?;
    name(rt, b"m9, lit")?;
    show(rt, 1, &[], &[], &[1], &[], &[])
}

pub(crate) fn all(rt: &impl Print) -> io::Result<()> {
    rings(rt)?;
    paths(rt)?;
    tori(rt)?;
    points(rt)
}
