// Each number at its limit and one past it, that the smallest number wins, then the smallest place, and that a refusal comes before off.
use crate::boards::*;
use crate::output::name;
use crate::verdicts::judged::show;
use std::io;

const RIGHT: [u8; 4] = [0, 0, 0, 1];

// The sheet m1 and its correction, with other ends, marks, syndrome, loss or handed-in bytes.

fn ends(rt: &impl Print, lent: &[u16]) -> io::Result<()> {
    show(rt, 4, lent, &RING_MARKS, &LIT, &KEPT, &RIGHT)
}

fn marks(rt: &impl Print, lent: &[u8]) -> io::Result<()> {
    show(rt, 4, &RING, lent, &LIT, &KEPT, &RIGHT)
}

fn syndrome(rt: &impl Print, lent: &[u8]) -> io::Result<()> {
    show(rt, 4, &RING, &RING_MARKS, lent, &KEPT, &RIGHT)
}

fn loss(rt: &impl Print, lent: &[u8]) -> io::Result<()> {
    show(rt, 4, &RING, &RING_MARKS, &LIT, lent, &RIGHT)
}

fn handed(rt: &impl Print, lent: &[u8]) -> io::Result<()> {
    show(rt, 4, &RING, &RING_MARKS, &LIT, &KEPT, lent)
}

// Number 1.
fn vertex_counts(rt: &impl Print) -> io::Result<()> {
    name(rt, b"no vertex")?;
    show(rt, 0, &RING, &RING_MARKS, &[], &KEPT, &RIGHT)?;
    let mut lit = [0; 1024];
    lit[0] = 1;
    lit[3] = 1;
    name(rt, b"1024 vertices")?;
    show(rt, 1024, &RING, &RING_MARKS, &lit, &KEPT, &RIGHT)?;
    name(rt, b"1025 vertices")?;
    show(rt, 1025, &RING, &RING_MARKS, &[0; 1025], &KEPT, &RIGHT)
}

// Number 2; where all ends are 0 every edge is a loop edge, and no set has the syndrome.
fn end_counts(rt: &impl Print) -> io::Result<()> {
    name(rt, b"7 ends")?;
    ends(rt, &[0, 1, 1, 2, 2, 3, 3])?;
    let most = [0; 4096];
    name(rt, b"8192 ends")?;
    show(rt, 4, &[0; 8192], &most, &LIT, &most, &most)?;
    let more = [0; 4097];
    name(rt, b"8194 ends")?;
    show(rt, 4, &[0; 8194], &more, &LIT, &more, &more)
}

// Number 3, for each buffer one byte short and one byte long.
fn lengths(rt: &impl Print) -> io::Result<()> {
    name(rt, b"3 marks")?;
    marks(rt, &[0; 3])?;
    name(rt, b"5 marks")?;
    marks(rt, &[0; 5])?;
    name(rt, b"3 syndrome bytes")?;
    syndrome(rt, &[1, 0, 0])?;
    name(rt, b"5 syndrome bytes")?;
    syndrome(rt, &[1, 0, 0, 1, 0])?;
    name(rt, b"3 loss bytes")?;
    loss(rt, &[0; 3])?;
    name(rt, b"5 loss bytes")?;
    loss(rt, &[0; 5])?;
    name(rt, b"3 handed-in bytes")?;
    handed(rt, &[0, 0, 0])?;
    name(rt, b"5 handed-in bytes")?;
    handed(rt, &[0, 0, 0, 1, 0])
}

// Numbers 4 and 6.
fn edges(rt: &impl Print) -> io::Result<()> {
    name(rt, b"first end 4 of 4 vertices")?;
    ends(rt, &[0, 1, 1, 2, 4, 3, 3, 0])?;
    name(rt, b"second end 4 of 4 vertices")?;
    ends(rt, &[0, 1, 1, 2, 2, 4, 3, 0])?;
    name(rt, b"mark 3")?;
    show(rt, 4, &RING, &[0, 0, 0, 3], &LIT, &KEPT, &[1, 1, 1, 0])?;
    name(rt, b"mark 4")?;
    marks(rt, &[0, 0, 0, 4])
}

// Numbers 7, 8 and 9.
fn bytes(rt: &impl Print) -> io::Result<()> {
    name(rt, b"syndrome byte 2")?;
    syndrome(rt, &[1, 0, 2, 1])?;
    name(rt, b"loss byte 2")?;
    loss(rt, &[0, 2, 0, 0])?;
    name(rt, b"handed-in byte 2")?;
    handed(rt, &[0, 0, 2, 1])?;
    name(rt, b"handed-in byte 255")?;
    handed(rt, &[255, 0, 0, 2])
}

// Every rule is broken; then the first is kept, then the second, and so on. Three of the edges are loop edges, which break none. No set has
// the syndrome {1}.
fn order(rt: &impl Print) -> io::Result<()> {
    let odd_ends = [0, 1, 2, 2, 3, 3, 4];
    let ends = [0, 1, 2, 2, 3, 3, 4, 4];
    let marks = [0, 4, 5, 0];
    let two = [0, 2, 2, 0, 0];
    let one = [0, 1, 0, 0, 0];
    let loss = [0, 2, 3, 0];
    let lost = [0, 1, 1, 0];
    let hand = [0, 0, 2, 3];
    name(rt, b"1 before 2")?;
    show(rt, 1025, &odd_ends, &marks, &[0, 2, 2], &loss, &hand)?;
    name(rt, b"2 before 3")?;
    show(rt, 4, &odd_ends, &marks, &[0, 2, 2], &loss, &hand)?;
    name(rt, b"3 before 4")?;
    show(rt, 4, &ends, &marks, &[0, 2, 2], &loss, &hand)?;
    name(rt, b"4 before 6")?;
    show(rt, 4, &ends, &marks, &[0, 2, 2, 0], &loss, &hand)?;
    name(rt, b"6 before 7")?;
    show(rt, 5, &ends, &marks, &two, &loss, &hand)?;
    name(rt, b"7 before 8")?;
    show(rt, 5, &ends, &RING_MARKS, &two, &loss, &hand)?;
    name(rt, b"8 before 9")?;
    show(rt, 5, &ends, &RING_MARKS, &one, &loss, &hand)?;
    name(rt, b"9 before 10")?;
    show(rt, 5, &ends, &RING_MARKS, &one, &lost, &hand)?;
    name(rt, b"10 before off")?;
    show(rt, 5, &ends, &RING_MARKS, &one, &lost, &KEPT)?;
    name(rt, b"off")?;
    show(rt, 5, &ends, &RING_MARKS, &[1, 1, 0, 0, 0], &lost, &KEPT)
}

pub(crate) fn all(rt: &impl Print) -> io::Result<()> {
    vertex_counts(rt)?;
    end_counts(rt)?;
    lengths(rt)?;
    edges(rt)?;
    bytes(rt)?;
    order(rt)
}
