ghost use Rattle.std.specs.Prelude.{length};
ghost use Rattle.model.specs.Sums.{ones};
ghost use Rattle.model.specs.Board.{unmarked};
ghost use Rattle.decoder.specs.LoneFigures.{Lonely};
ghost use Rattle.decoder.specs.Books.{Fresh, Gatherable, Gathers, Kept, Finds, BothKept, Fuses, Growable, Grows};

use crate::end_lists::EndLists;
use crate::figure::lone_figures;
use crate::labels::apart;
use crate::merging::merge;
use crate::raising::raise;
use crate::rings::join_rings;
use crate::shutting::shut_listed;
use model::ends::{first_end, second_end};
use model::lent::Sheet;
use model::numbers::{Edge, HalfEdges, Vertex};
use std::ops::Range;
use union_find::{Joined, alone, compress, join, root_of};

// The cluster book: a union-find over the first `vertices` vertices. A vertex's cluster is its tree, and with each cluster its boundary size
// is kept.
#[derive(Clone, Copy)]
pub(crate) struct Book {
    pub(crate) vertices: usize,
    // By each root, `union_find::ROOT` and the size of its tree. By any other vertex, its parent.
    pub(crate) tree: [u16; Book::VERTICES],
    // By the smallest vertex of each tree, which names it, its figure: the boundary size, with what the choice needs beside it. By a root that
    // is not the smallest vertex of its tree, `Figure::NAME` and that vertex. By any other no figure.
    pub(crate) figure: [u16; Book::VERTICES],
}

// A book, and the root of the vertex that was looked for.
#[derive(Clone, Copy)]
pub(crate) struct Found {
    pub(crate) book: Book,
    pub(crate) root: Vertex,
}

// A book, and which tree was hung under which.
#[derive(Clone, Copy)]
pub(crate) struct Fused {
    pub(crate) book: Book,
    pub(crate) joined: Joined,
}

// A book, and how many edges became full.
#[derive(Clone, Copy)]
pub(crate) struct Grown {
    pub(crate) book: Book,
    pub(crate) filled: usize,
}

impl Book {
    pub(crate) const VERTICES: usize = model::limits::VERTICES;

    pub(crate) const EDGES: usize = model::limits::EDGES;

    // A fresh book holds every vertex alone. It is on the boundary where an end of an edge that isn't full lies at it.
    pub(crate) fn fresh(sheet: Sheet<'_>, exposure: &[u16; Self::VERTICES]) -> Self
        requires { Lonely sheet.board.vertices sheet.board.opened.now sheet.syndrome.now exposure.now }
        ensures { Fresh sheet.entry.board.vertices sheet.entry.board.opened.now sheet.entry.syndrome.now exposure.now result }
    {
        let vertices = sheet.board.vertices;
        let mut tree = [0u16; Self::VERTICES];
        alone(vertices, &mut tree);
        let figure = lone_figures(sheet, exposure);
        Self {
            vertices,
            tree,
            figure,
        }
    }

    // The book of the clusters that the full edges make: every vertex alone, then the ends of each full edge fused.
    pub(crate) fn gathered(
        sheet: Sheet<'_>,
        support: &[u8],
        exposure: &[u16; Self::VERTICES],
        ring: &mut [u16; Self::VERTICES],
    ) -> Self
        requires { Gatherable sheet.board.vertices sheet.board.ends.now sheet.board.opened.now sheet.syndrome.now
            support.now exposure.now ring.old }
        ensures { Gathers (unmarked sheet.entry.board.vertices (length support.now) sheet.entry.board.ends.now sheet.entry.board.opened.now)
            (ones sheet.entry.syndrome.now) support.now exposure.now result ring.new }
    {
        let ends = sheet.board.ends;
        let mut book = Self::fresh(sheet, exposure);
        for (e, byte) in support.iter().enumerate() {
            let half = HalfEdges(*byte);
            if half.is_full() {
                let lost = Edge(e as u16);
                let x = first_end(ends, lost);
                let y = second_end(ends, lost);
                if apart(&book.tree, x, y) {
                    join_rings(&book.tree, &book.figure, ring, x, y);
                    book = book.fuse(x, y).book;
                }
            }
        }
        let tree = book.tree;
        let figure = book.figure;
        Self {
            vertices: book.vertices,
            tree,
            figure,
        }
    }

    // The root of the vertex's tree. The path that was gone is compressed.
    pub(crate) fn find(self, vertex: Vertex) -> Found
        requires { Kept self vertex.0 }
        ensures { Finds self vertex.0 result }
    {
        let mut tree = self.tree;
        let root = root_of(&tree, vertex);
        compress(&mut tree, vertex, root);
        let figure = self.figure;
        let book = Book {
            vertices: self.vertices,
            tree,
            figure,
        };
        Found { book, root }
    }

    // The clusters of a and b as one, the smaller tree hung under the root of the larger. Their figures add up.
    pub(crate) fn fuse(self, a: Vertex, b: Vertex) -> Fused
        requires { BothKept self a.0 b.0 }
        ensures { Fuses self a.0 b.0 result }
    {
        let first = self.find(a);
        let one = first.root;
        let between = first.book;
        let second = between.find(b);
        let other = second.root;
        let found = second.book;
        let mut tree = found.tree;
        let mut figure = found.figure;
        let joined = join(&mut tree, one, other);
        merge(joined, &mut figure);
        let book = Book {
            vertices: found.vertices,
            tree,
            figure,
        };
        Fused { book, joined }
    }

    // The clusters grow: each edge that isn't full gains as many half-edges as it has ends in them, up to 2. The ends of newly full edges are
    // taken off the counts and the figures, and then the clusters that these edges join fuse, and their rings with them. The answer is how many
    // edges became full.
    pub(crate) fn grow(
        self,
        ends: &[u16],
        lists: &EndLists,
        growing: Range<usize>,
        support: &mut [u8],
        exposure: &mut [u16; Self::VERTICES],
        ring: &mut [u16; Self::VERTICES],
        filled: &mut [u16; Self::EDGES],
    ) -> Grown
        requires { Growable self ends.now lists.now.latest lists.now.earlier growing support.old exposure.old ring.old filled.old }
        ensures { Grows self ends.now growing support.old result support.new exposure.new ring.new filled.new }
    {
        let vertices = self.vertices;
        let mut tree = self.tree;
        let mut figure = self.figure;
        let count = raise(lists, &figure, growing, exposure, ring, support, filled);
        let listed = &filled[..count];
        shut_listed(&tree, ends, listed, exposure, &mut figure);
        for number in listed {
            let edge = Edge(*number);
            let a = first_end(ends, edge);
            let b = second_end(ends, edge);
            if apart(&tree, a, b) {
                join_rings(&tree, &figure, ring, a, b);
                let book = Book {
                    vertices,
                    tree,
                    figure,
                };
                let fused = book.fuse(a, b).book;
                tree = fused.tree;
                figure = fused.figure;
            }
        }
        let book = Book {
            vertices,
            tree,
            figure,
        };
        Grown {
            book,
            filled: count,
        }
    }
}
