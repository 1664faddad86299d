// Where the syndrome of a handed-in set differs from the one put, kept as one byte for each vertex. Where none is put, this is the syndrome
// of the set.
ghost use Rattle.std.specs.Prelude.{◌<◌, ◌&&◌, eqb, length};
ghost use Rattle.model.specs.Board.{EndsWithin};
ghost use Rattle.model.specs.Sums.{ones};
ghost use Rattle.verdict.specs.VertexParities.{Bits, Flipped, meets_at, met_by, Clearable, Cleared};

use model::ends::{first_end, second_end};
use model::limits::VERTICES;
use model::numbers::{Edge, Vertex};

// The byte of v is flipped.
fn flip(vertices: usize, parity: &mut [u8; VERTICES], v: Vertex)
    requires { Bits vertices parity.old × (v.0 < vertices) }
    ensures { Flipped (λ u. eqb v.0 u) vertices parity.old parity.new }
{
    let at = v.0 as usize;
    parity[at] = 1 - parity[at];
}

// Edge e is counted: where it is handed in, both of its ends are flipped.
fn count_edge(vertices: usize, ends: &[u16], handed: &[u8], e: Edge, parity: &mut [u8; VERTICES])
    requires { EndsWithin vertices (length handed.now) ends.now × (e.0 < length handed.now)
        × Bits vertices parity.old }
    ensures { Flipped (λ v. ones handed.now e.0 && meets_at ends.now e.0 v) vertices
        parity.old parity.new }
{
    let at = e.0 as usize;
    if handed[at] == 1 {
        flip(vertices, parity, first_end(ends, e));
        flip(vertices, parity, second_end(ends, e));
    }
}

// Every edge is counted, from the syndrome put: what is left lit is where the handed-in set differs from it.
pub fn count_edges(vertices: usize, ends: &[u16], handed: &[u8], parity: &mut [u8; VERTICES])
    requires { EndsWithin vertices (length handed.now) ends.now × Bits vertices parity.old }
    ensures { Flipped (met_by ends.now (ones handed.now) (length handed.now)) vertices
        parity.old parity.new }
{
    for e in 0..handed.len() {
        count_edge(vertices, ends, handed, Edge(e as u16), parity);
    }
}

// An open vertex has no syndrome: its byte becomes 0.
pub fn clear_open(opened: &[u8], parity: &mut [u8; VERTICES])
    requires { Clearable (length opened.now) parity.old }
    ensures { Cleared (length opened.now) opened.now parity.old parity.new }
{
    for (v, open) in opened.iter().enumerate() {
        if *open == 1 {
            parity[v] = 0;
        }
    }
}
