// Peeling: the spanning forest of the full edges, and its one subset that has given odd ends.
#![tactic(auto)]

mod flips;
mod forest;

ghost use Rattle.union_find.specs.Packed.{parents_of};
ghost use Rattle.peeling.specs.Peeling.{Cuttable, Cuts, Clears, Peelable, Peels};

use crate::forest::Listed;
use model::ends::{first_end, second_end};
use model::limits::VERTICES;
use model::numbers::{Edge, Vertex};

// An edge of the forest is cut. It is in the correction where an odd number of what is left hangs at its link and below: then its byte is
// 1, and its ends flip. The answer is whether it is.
fn cut(
    ends: &[u16],
    tree: &[u16; VERTICES],
    odd: &mut [bool; VERTICES],
    correction: &mut [u8],
    edge: Edge,
    link: Vertex,
) -> bool
    requires { Cuttable ends.now (parents_of tree.now) odd.old correction.old edge.0 link.0 }
    ensures { Cuts ends.now (parents_of tree.now) odd.old correction.old edge.0 link.0 result odd.new correction.new }
{
    if !odd[link.0 as usize] {
        return false;
    }
    correction[edge.0 as usize] = 1;
    let a = first_end(ends, edge);
    let b = second_end(ends, edge);
    flips::flip(tree, odd, a);
    flips::flip(tree, odd, b);
    true
}

// Every byte is 0: no edge is in the correction.
pub fn clear(correction: &mut [u8])
    ensures { Clears correction.old correction.new }
{
    correction.fill(0);
}

// The correction of the full edges for odd ends, those with a 1 in `lit`, of which every cluster holds an even number: a byte for each
// edge, and how many edges it has. The edges of the forest are cut in falling number: what hangs at the link of an edge is then one side
// of it in the forest of the edges up to it.
pub fn peel(
    vertices: usize,
    ends: &[u16],
    support: &[u8],
    lit: &[u8],
    correction: &mut [u8],
) -> usize
    requires { Peelable vertices ends.now support.now lit.now correction.old }
    ensures { Peels vertices ends.now support.now lit.now result correction.new }
{
    let mut tree = [0u16; VERTICES];
    let mut listed = Listed {
        taken: [0; VERTICES],
        links: [0; VERTICES],
        count: 0,
    };
    forest::span(vertices, ends, support, &mut tree, &mut listed);
    let mut odd = [false; VERTICES];
    flips::flip_ends(lit, &tree, &mut odd);
    clear(correction);
    let mut count = 0;
    for k in (0..listed.count).rev() {
        let edge = Edge(listed.taken[k]);
        let link = Vertex(listed.links[k]);
        if cut(ends, &tree, &mut odd, correction, edge, link) {
            count += 1;
        }
    }
    count
}
