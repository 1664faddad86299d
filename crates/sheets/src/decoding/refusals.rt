// Each number at its limit and one past it, and that the smallest number wins, then the smallest place.
use crate::boards::*;
use crate::decoding::decoded::{show, small};
use crate::decoding::large::around;
use crate::output::name;
use std::io;

// The sheet m1 with other ends, marks, syndrome or loss bytes, or with buffers of other lengths.

fn ends(rt: &impl Print, lent: &[u16]) -> io::Result<()> {
    small(rt, 4, lent, &RING_MARKS, &LIT, &KEPT)
}

fn marks(rt: &impl Print, lent: &[u8]) -> io::Result<()> {
    small(rt, 4, &RING, lent, &LIT, &KEPT)
}

fn syndrome(rt: &impl Print, lent: &[u8]) -> io::Result<()> {
    small(rt, 4, &RING, &RING_MARKS, lent, &KEPT)
}

fn loss(rt: &impl Print, lent: &[u8]) -> io::Result<()> {
    small(rt, 4, &RING, &RING_MARKS, &LIT, lent)
}

fn filled(rt: &impl Print, support: &mut [u8], correction: &mut [u8]) -> io::Result<()> {
    show(rt, 4, &RING, &RING_MARKS, &LIT, &KEPT, support, correction)
}

// Number 1.
fn vertex_counts(rt: &impl Print) -> io::Result<()> {
    name(rt, b"no vertex")?;
    small(rt, 0, &RING, &RING_MARKS, &[], &KEPT)?;
    let mut lit = [0; 1024];
    lit[0] = 1;
    lit[3] = 1;
    name(rt, b"1024 vertices")?;
    small(rt, 1024, &RING, &RING_MARKS, &lit, &KEPT)?;
    name(rt, b"1025 vertices")?;
    small(rt, 1025, &RING, &RING_MARKS, &[0; 1025], &KEPT)
}

// Number 2; 8,192 ends have passed at the limits.
fn end_counts(rt: &impl Print) -> io::Result<()> {
    name(rt, b"7 ends")?;
    ends(rt, &[0, 1, 1, 2, 2, 3, 3])?;
    name(rt, b"9 ends")?;
    ends(rt, &[0, 1, 1, 2, 2, 3, 3, 0, 0])?;
    let mut ends = [0; 8194];
    around(&mut ends);
    let zeros = [0; 4097];
    let mut support = [9; 4097];
    let mut correction = [9; 4097];
    name(rt, b"8194 ends")?;
    show(
        rt,
        1024,
        &ends,
        &zeros,
        &[0; 1024],
        &zeros,
        &mut support,
        &mut correction,
    )
}

// Number 3, for each buffer one byte short and one byte long.
fn lengths(rt: &impl Print) -> io::Result<()> {
    name(rt, b"3 marks")?;
    marks(rt, &[0; 3])?;
    name(rt, b"5 marks")?;
    marks(rt, &[0; 5])?;
    name(rt, b"3 syndrome bytes")?;
    syndrome(rt, &[1, 0, 0])?;
    name(rt, b"5 syndrome bytes")?;
    syndrome(rt, &[1, 0, 0, 1, 0])?;
    name(rt, b"3 loss bytes")?;
    loss(rt, &[0; 3])?;
    name(rt, b"5 loss bytes")?;
    loss(rt, &[0; 5])?;
    name(rt, b"3 support bytes")?;
    filled(rt, &mut [9; 3], &mut [9; 4])?;
    name(rt, b"5 support bytes")?;
    filled(rt, &mut [9; 5], &mut [9; 4])?;
    name(rt, b"3 correction bytes")?;
    filled(rt, &mut [9; 4], &mut [9; 3])?;
    name(rt, b"5 correction bytes")?;
    filled(rt, &mut [9; 4], &mut [9; 5])
}

// Numbers 4 and 6.
fn edges(rt: &impl Print) -> io::Result<()> {
    name(rt, b"first end 4 of 4 vertices")?;
    ends(rt, &[0, 1, 1, 2, 4, 3, 3, 0])?;
    name(rt, b"second end 4 of 4 vertices")?;
    ends(rt, &[0, 1, 1, 2, 2, 4, 3, 0])?;
    name(rt, b"an end 65535")?;
    ends(rt, &[0, 65535, 1, 2, 2, 3, 3, 0])?;
    name(rt, b"mark 3")?;
    marks(rt, &[0, 0, 0, 3])?;
    name(rt, b"mark 4")?;
    marks(rt, &[0, 0, 0, 4])?;
    name(rt, b"mark 255")?;
    marks(rt, &[255, 0, 0, 1])
}

// Numbers 7 and 8; m2 and m3 have bytes of 1.
fn bytes(rt: &impl Print) -> io::Result<()> {
    name(rt, b"syndrome byte 2")?;
    syndrome(rt, &[1, 0, 2, 1])?;
    name(rt, b"syndrome byte 255")?;
    syndrome(rt, &[1, 0, 0, 255])?;
    name(rt, b"loss byte 2")?;
    loss(rt, &[0, 2, 0, 0])?;
    name(rt, b"loss byte 255")?;
    loss(rt, &[255, 0, 0, 0])
}

// Every rule is broken; then the first is kept, then the second, and so on. Three of the edges are loop edges, which break none.
fn order(rt: &impl Print) -> io::Result<()> {
    let odd_ends = [0, 1, 2, 2, 3, 3, 4];
    let ends = [0, 1, 2, 2, 3, 3, 4, 4];
    let marks = [0, 4, 5, 0];
    let loss = [0, 2, 3, 0];
    name(rt, b"1 before 2")?;
    small(rt, 1025, &odd_ends, &marks, &[0, 2, 2], &loss)?;
    name(rt, b"2 before 3")?;
    small(rt, 4, &odd_ends, &marks, &[0, 2, 2], &loss)?;
    name(rt, b"3 before 4")?;
    small(rt, 4, &ends, &marks, &[0, 2, 2], &loss)?;
    name(rt, b"4 before 6")?;
    small(rt, 4, &ends, &marks, &[0, 2, 2, 0], &loss)?;
    name(rt, b"6 before 7")?;
    small(rt, 5, &ends, &marks, &[0, 2, 2, 0, 0], &loss)?;
    name(rt, b"7 before 8")?;
    small(rt, 5, &ends, &RING_MARKS, &[0, 2, 2, 0, 0], &loss)?;
    name(rt, b"8 before 10")?;
    small(rt, 5, &ends, &RING_MARKS, &[0, 1, 0, 0, 0], &loss)?;
    name(rt, b"10")?;
    small(rt, 5, &ends, &RING_MARKS, &[0, 1, 0, 0, 0], &[0, 1, 1, 0])
}

pub(crate) fn all(rt: &impl Print) -> io::Result<()> {
    vertex_counts(rt)?;
    end_counts(rt)?;
    lengths(rt)?;
    edges(rt)?;
    bytes(rt)?;
    order(rt)
}
