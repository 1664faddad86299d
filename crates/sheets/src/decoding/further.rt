// Small sheets that the marked ones do not cover.
use crate::boards::*;
use crate::decoding::decoded::small;
use crate::output::name;
use std::io;

// Nothing to correct: nothing grows, whatever is lost.
fn dark(rt: &impl Print) -> io::Result<()> {
    name(rt, b"ring, nothing lit")?;
    small(rt, 4, &RING, &RING_MARKS, &[0; 4], &[0; 4])?;
    name(rt, b"ring, nothing lit, all lost")?;
    small(rt, 4, &RING, &RING_MARKS, &[0; 4], &[1; 4])
}

// Edges 0-1 and 0-2. By vertices both boundaries are 1, so that vertex 0 grows and both edges end full; by edges vertex 2 would grow alone.
// In the second sheet {0, 1} has the boundary 2 and {2} the boundary 1, so that {2} grows.
fn boundaries(rt: &impl Print) -> io::Result<()> {
    name(rt, b"boundary by vertices")?;
    small(rt, 3, &[0, 1, 0, 2], &[0; 2], &[1, 0, 1], &[0; 2])?;
    let ends = [0, 1, 1, 2, 0, 3, 2, 4];
    name(rt, b"smaller boundary")?;
    small(rt, 5, &ends, &[0; 4], &[1, 0, 1, 0, 0], &[1, 0, 0, 0])
}

// Equal boundaries: the cluster with the smallest vertex grows, of {0, 4} and {3} the first, though 3 is the smaller syndrome vertex.
fn ties(rt: &impl Print) -> io::Result<()> {
    name(rt, b"tie, ring")?;
    small(rt, 4, &RING, &RING_MARKS, &[0, 1, 1, 0], &[0; 4])?;
    let ends = [4, 0, 4, 3, 3, 1, 4, 2];
    name(rt, b"tie, cluster of two")?;
    small(rt, 5, &ends, &[0; 4], &[0, 0, 0, 1, 1], &[1, 0, 0, 0])
}

// The lost edge 1-2 is a cluster with an even number of syndrome vertices. It fuses with the one that grows from 0.
fn even_clusters(rt: &impl Print) -> io::Result<()> {
    name(rt, b"even cluster")?;
    small(rt, 4, &PATH, &PATH_MARKS, &[1, 0, 0, 1], &[0, 1, 0])?;
    let ends = [0, 1, 1, 2, 2, 3, 3, 4, 4, 5, 5, 0];
    let lit = [1, 0, 0, 1, 0, 0];
    name(rt, b"even clusters in a ring")?;
    small(rt, 6, &ends, &[0, 0, 0, 0, 0, 2], &lit, &[0, 1, 0, 0, 1, 0])
}

// Three edges between two vertices.
fn parallel(rt: &impl Print) -> io::Result<()> {
    let ends = [0, 1, 1, 0, 0, 1];
    let marks = [3, 1, 2];
    name(rt, b"parallel edges")?;
    small(rt, 2, &ends, &marks, &[1, 1], &[0, 0, 0])?;
    name(rt, b"parallel edges, the last lost")?;
    small(rt, 2, &ends, &marks, &[1, 1], &[0, 0, 1])?;
    name(rt, b"parallel edges, all lost")?;
    small(rt, 2, &ends, &marks, &[1, 1], &[1, 1, 1])
}

// Loop edges: vertex 0 grows twice, and its own is full after the first time. By themselves they join nothing, so that a lit vertex which
// no other edge touches is an odd part.
fn loops(rt: &impl Print) -> io::Result<()> {
    name(rt, b"loop edges")?;
    small(rt, 2, &LOOPED, &LOOPED_MARKS, &[1, 1], &[0; 3])?;
    name(rt, b"loop edges, all lost")?;
    small(rt, 2, &LOOPED, &LOOPED_MARKS, &[1, 1], &[1; 3])?;
    name(rt, b"loop edges, nothing lit")?;
    small(rt, 2, &LOOPED, &LOOPED_MARKS, &[0, 0], &[0, 1, 0])?;
    let ends = [0, 0, 1, 1];
    name(rt, b"only loop edges")?;
    small(rt, 2, &ends, &[3, 0], &[0, 0], &[0, 1])?;
    name(rt, b"only loop edges, lit")?;
    small(rt, 2, &ends, &[3, 0], &[0, 1], &[0, 1])?;
    name(rt, b"torus of side 1")?;
    small(rt, 1, &SIDE_ONE, &SIDE_ONE_MARKS, &[0], &[0; 2])
}

// The parts {0, 1}, {2, 3, 4} and {5}.
fn parts(rt: &impl Print) -> io::Result<()> {
    let ends = [0, 1, 4, 3, 3, 2];
    name(rt, b"three parts")?;
    small(rt, 6, &ends, &[0; 3], &[1, 1, 1, 0, 1, 0], &[0; 3])?;
    name(rt, b"three parts, one odd")?;
    small(rt, 6, &ends, &[0; 3], &[1, 1, 0, 0, 1, 0], &[0; 3])?;
    name(rt, b"three parts, a lone vertex lit")?;
    small(rt, 6, &ends, &[0; 3], &[0, 0, 0, 0, 0, 1], &[0; 3])?;
    name(rt, b"three parts, all odd")?;
    small(rt, 6, &ends, &[0; 3], &[0, 1, 0, 0, 1, 1], &[1; 3])
}

pub(crate) fn all(rt: &impl Print) -> io::Result<()> {
    dark(rt)?;
    boundaries(rt)?;
    ties(rt)?;
    even_clusters(rt)?;
    parallel(rt)?;
    loops(rt)?;
    parts(rt)
}
