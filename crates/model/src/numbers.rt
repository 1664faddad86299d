// Five kinds of number. Each is a type of its own, so that none can stand where another is meant.
ghost use Rattle.std.specs.Prelude.{◌≡◌, ℕ, eqb};

// A vertex number, from 0.
#[derive(Clone, Copy, PartialEq, Eq)]
pub struct Vertex(pub u16);

// An edge number, from 0 in list order.
#[derive(Clone, Copy, PartialEq, Eq)]
pub struct Edge(pub u16);

// What a search by number gives: a vertex or an edge, told by its type.
pub trait Numbered {
    // Its number.
    ghost value: { Self → ℕ };

    // The one with this number.
    fn at(number: u16) -> Self
        ensures { value result ≡ number };
}

impl Numbered for Vertex {
    ghost value = { λ v. v.0 };

    fn at(number: u16) -> Vertex {
        Vertex(number)
    }
}

impl Numbered for Edge {
    ghost value = { λ e. e.0 };

    fn at(number: u16) -> Edge {
        Edge(number)
    }
}

// A face number of a torus, from 0.
#[derive(Clone, Copy, PartialEq, Eq)]
pub struct Face(pub u16);

// The number of a word of a packed sheet, from 0.
#[derive(Clone, Copy, PartialEq, Eq)]
pub struct Word(pub u16);

// A count of half-edges: the support of an edge.
#[derive(Clone, Copy, PartialEq, Eq)]
pub struct HalfEdges(pub u8);

// The support of a full edge.
pub const FULL: HalfEdges = HalfEdges(2);

impl HalfEdges {
    // Says whether an edge with this support is full.
    pub fn is_full(self) -> bool
        ensures { result ≡ eqb self.0 2 }
    {
        self == FULL
    }
}
