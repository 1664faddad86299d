// The connected parts of the whole board, and the vertex of number 10: the smallest of all parts that hold an odd number of syndrome
// vertices and no open vertex.
#![tactic(auto)]

ghost use Rattle.std.specs.Prelude.{◌≡◌, length};
ghost use Rattle.union_find.specs.Packed.{parents_of};
ghost use Rattle.union_find.specs.Trees.{Rooted};
ghost use Rattle.model.specs.Board.{EndsWithin, unmarked};
ghost use Rattle.model.specs.Decoding.{smallest_odd};
ghost use Rattle.model.specs.Refusals.{edges_of};
ghost use Rattle.model.specs.Sums.{first_up_to, ones};
ghost use Rattle.board.specs.Checks.{vertex_found};
ghost use Rattle.parts.specs.Connection.{Connects};
ghost use Rattle.parts.specs.RootParities.{Parities, Marked, Cleared, marked};
ghost use Rattle.parts.specs.Searchable.{Searchable};

use board::largest::largest_byte;
use model::ends::{first_end, second_end};
use model::lent::Sheet;
use model::limits::VERTICES;
use model::numbers::{Edge, Vertex};
use union_find::{alone, join, root_of};

// The parts of the whole board as trees: every vertex alone, then the ends of every edge joined.
fn connect(vertices: usize, ends: &[u16]) -> [u16; VERTICES]
    requires { EndsWithin vertices (edges_of ends.now) ends.now }
    ensures { Connects vertices ends.now (parents_of result) }
{
    let mut tree = [0u16; VERTICES];
    alone(vertices, &mut tree);
    for e in 0..ends.len() / 2 {
        let edge = Edge(e as u16);
        let a = first_end(ends, edge);
        let b = second_end(ends, edge);
        join(&mut tree, a, b);
    }
    tree
}

// For each root a 1 where its tree holds an odd number of syndrome vertices, else a 0.
fn parities(tree: &[u16; VERTICES], syndrome: &[u8]) -> [u8; VERTICES]
    requires { Rooted (length syndrome.now) (parents_of tree.now) }
    ensures { Parities (length syndrome.now) (parents_of tree.now) syndrome.now result }
{
    let mut odd = [0u8; VERTICES];
    for (v, lit) in syndrome.iter().enumerate() {
        if *lit == 1 {
            let root = root_of(tree, Vertex(v as u16));
            let r = root.0 as usize;
            odd[r] = 1 - odd[r];
        }
    }
    odd
}

// A part with an open vertex is never odd: the entry of its root becomes 0.
fn clear_open(tree: &[u16; VERTICES], opened: &[u8], odd: &mut [u8; VERTICES])
    requires { Marked (length opened.now) (parents_of tree.now) odd.old }
    ensures { Cleared (length opened.now) (parents_of tree.now) opened.now odd.old odd.new }
{
    for (v, open) in opened.iter().enumerate() {
        if *open == 1 {
            let root = root_of(tree, Vertex(v as u16));
            odd[root.0 as usize] = 0;
        }
    }
}

// The smallest vertex whose root has a 1. Roots are in no order, so the vertices are gone through and not the roots.
fn first_marked(vertices: usize, tree: &[u16; VERTICES], odd: &[u8; VERTICES]) -> Option<Vertex>
    requires { Marked vertices (parents_of tree.now) odd.now }
    ensures { vertex_found result ≡ first_up_to vertices (marked (parents_of tree.now) odd.now) }
{
    for next in 0..vertices {
        let vertex = Vertex(next as u16);
        let root = root_of(tree, vertex);
        if odd[root.0 as usize] == 1 {
            return Some(vertex);
        }
    }
    None
}

// The smallest vertex of all odd parts of the whole board. Vertices are gone through only where some root has a 1.
pub fn first_odd(sheet: Sheet<'_>) -> Option<Vertex>
    requires { Searchable sheet.board.vertices sheet.board.ends.now sheet.board.opened.now sheet.syndrome.now }
    ensures { vertex_found result ≡ smallest_odd (unmarked sheet.entry.board.vertices (edges_of sheet.entry.board.ends.now)
        sheet.entry.board.ends.now sheet.entry.board.opened.now) (ones sheet.entry.syndrome.now) }
{
    let vertices = sheet.board.vertices;
    let tree = connect(vertices, sheet.board.ends);
    let mut odd = parities(&tree, sheet.syndrome);
    clear_open(&tree, sheet.board.opened, &mut odd);
    if largest_byte(&odd) == 0 {
        return None;
    }
    first_marked(vertices, &tree, &odd)
}
