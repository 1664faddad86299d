// The spanning forest of the full edges, as a union-find makes it, and the list of its edges: an edge whose ends are already joined is
// passed over, any other hangs one tree under the root of another and is listed.
ghost use Rattle.union_find.specs.Packed.{parents_of};
ghost use Rattle.peeling.specs.Links.{Takeable, Takes, SpanRoom, Spans};

use model::ends::{first_end, second_end};
use model::limits::VERTICES;
use model::numbers::{Edge, HalfEdges};
use union_find::Joined;

// The list of the forest's edges: the first `count` of `taken` are their numbers, those of `links` the root that each hung.
#[derive(Drop)]
pub struct Listed {
    pub taken: [u16; VERTICES],
    pub links: [u16; VERTICES],
    pub count: usize,
}

impl Listed {
    // A full edge is taken, if its ends are in two trees: it is next in the list, with its link, the root that it hangs.
    fn take(&mut self, ends: &[u16], tree: &mut [u16; VERTICES], edge: Edge)
        requires { Takeable ends.now tree.old self.old.count edge.0 }
        ensures { Takes ends.now tree.old self.old.taken self.old.links self.old.count edge.0 self.new.count
            tree.new self.new.taken self.new.links }
    {
        let a = first_end(ends, edge);
        let b = second_end(ends, edge);
        match union_find::join(tree, a, b) {
            Joined::Hung { child, root: _ } => {
                self.taken[self.count] = edge.0;
                self.links[self.count] = child.0;
                self.count += 1;
            }
            Joined::Already(_) => {}
        }
    }
}

// The forest of all full edges, taken in rising number: its trees, and the list of its edges with the link of each.
pub fn span(
    vertices: usize,
    ends: &[u16],
    support: &[u8],
    tree: &mut [u16; VERTICES],
    listed: &mut Listed,
)
    requires { SpanRoom vertices ends.now support.now tree.old listed.old.taken listed.old.links }
    ensures { Spans vertices ends.now support.now listed.new.count (parents_of tree.new) listed.new.taken listed.new.links }
{
    union_find::alone(vertices, tree);
    listed.count = 0;
    for (e, byte) in support.iter().enumerate() {
        if HalfEdges(*byte).is_full() {
            listed.take(ends, tree, Edge(e as u16));
        }
    }
}
