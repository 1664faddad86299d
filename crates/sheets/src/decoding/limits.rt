// Sheets at the limits.
use crate::decoding::decoded::show;
use crate::decoding::large::{around, every};
use crate::output::name;
use std::io;

// The path of 1,024 vertices.
fn path(rt: &impl Print, syndrome: &[u8; 1024], loss: &[u8; 1023]) -> io::Result<()> {
    let mut ends = [0; 2046];
    around(&mut ends);
    let mut support = [9; 1023];
    let mut correction = [9; 1023];
    show(
        rt,
        1024,
        &ends,
        &[0; 1023],
        syndrome,
        loss,
        &mut support,
        &mut correction,
    )
}

// 1,024 vertices and 4,096 edges.
fn largest(rt: &impl Print, syndrome: &[u8; 1024], loss: &[u8; 4096]) -> io::Result<()> {
    let mut ends = [0; 8192];
    around(&mut ends);
    let mut support = [9; 4096];
    let mut correction = [9; 4096];
    show(
        rt,
        1024,
        &ends,
        &[0; 4096],
        syndrome,
        loss,
        &mut support,
        &mut correction,
    )
}

fn paths(rt: &impl Print) -> io::Result<()> {
    let mut lit = [0; 1024];
    lit[0] = 1;
    lit[1023] = 1;
    name(rt, b"path of 1024, both ends lit")?;
    path(rt, &lit, &[0; 1023])?;
    name(rt, b"path of 1024, both ends lit, all lost")?;
    path(rt, &lit, &[1; 1023])?;
    lit[1023] = 0;
    name(rt, b"path of 1024, one end lit")?;
    path(rt, &lit, &[0; 1023])
}

fn largest_boards(rt: &impl Print) -> io::Result<()> {
    let mut lit = [0; 1024];
    every(64, &mut lit);
    let mut lost = [0; 4096];
    every(3, &mut lost);
    name(rt, b"4096 edges, every 64th vertex lit")?;
    largest(rt, &lit, &[0; 4096])?;
    name(
        rt,
        b"4096 edges, every 64th vertex lit, every third edge lost",
    )?;
    largest(rt, &lit, &lost)?;
    name(rt, b"4096 edges, every 64th vertex lit, all lost")?;
    largest(rt, &lit, &[1; 4096])?;
    name(rt, b"4096 edges, all lit")?;
    largest(rt, &[1; 1024], &[0; 4096])
}

pub(crate) fn all(rt: &impl Print) -> io::Result<()> {
    paths(rt)?;
    largest_boards(rt)
}
