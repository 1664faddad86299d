ghost use Rattle.text.specs.Order.{meant};
ghost use Rattle.text.specs.Scratch.{buffers_in, Storable, Stores};

use crate::line::Line;
use model::limits::{EDGES, ENDS, VERTICES};
use model::numbers::Edge;

// The arrays into which a text is read: one for each lent buffer.
#[derive(Drop)]
pub struct Arrays {
    pub ends: [u16; ENDS],
    pub marks: [u8; EDGES],
    pub opened: [u8; VERTICES],
    pub syndrome: [u8; VERTICES],
    pub loss: [u8; EDGES],
}

// Puts a line that may stand into the arrays of the sheet read so far, and hands back the edge count.
pub fn store(line: Line, edges: u16, arrays: &mut Arrays) -> u16
    requires { Storable edges (meant line) }
    ensures { Stores edges (meant line) (buffers_in arrays.old) result (buffers_in arrays.new) }
{
    match line {
        Line::Vertices(_) => edges,
        Line::Edge {
            first,
            second,
            mark,
        } => {
            let edge = Edge(edges); // edges are numbered as they come
            let e = edge.0 as usize;
            let i = 2 * e;
            arrays.ends[i] = first.0;
            arrays.ends[i + 1] = second.0;
            arrays.marks[e] = mark as u8;
            arrays.loss[e] = 0;
            edges + 1
        }
        Line::Open(v) => {
            arrays.opened[v.0 as usize] = 1;
            edges
        }
        Line::Syndrome(v) => {
            arrays.syndrome[v.0 as usize] = 1;
            edges
        }
        Line::Lost(e) => {
            arrays.loss[e.0 as usize] = 1;
            edges
        }
    }
}
