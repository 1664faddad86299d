ghost use Rattle.std.specs.Prelude.{◌≡◌, not, ◌<◌};
ghost use Rattle.model.specs.Board.{vertex_limit};
ghost use Rattle.union_find.specs.Joining.{same_root};
ghost use Rattle.union_find.specs.Packed.{parents_of};
ghost use Rattle.decoder.specs.Figures.{name_at, names_by};
ghost use Rattle.decoder.specs.TreeLabels.{BothRooted, Nameable, NamedAt, NameIs, Labelled};

use crate::figure::Figure;
use model::limits::VERTICES;
use model::numbers::Vertex;
use union_find::root_of;

// The name of a root's tree, its smallest vertex: the root itself where a figure stands by it, else the vertex that is told there.
pub(crate) fn name_at(figure: &[u16; VERTICES], root: Vertex) -> Vertex
    requires { root.0 < vertex_limit }
    ensures { result.0 ≡ name_at figure.now root.0 }
{
    let told = figure[root.0 as usize];
    if told < Figure::NAME {
        return root;
    }
    Vertex(told - Figure::NAME)
}

// The name of the vertex's tree.
pub(crate) fn name_of<'a>(
    tree: &'a [u16; VERTICES],
    figure: &'a [u16; VERTICES],
    vertex: Vertex,
) -> Vertex
    requires { NamedAt (parents_of tree.now) (names_by figure.now) vertex.0 }
    ensures { NameIs (parents_of tree.now) (names_by figure.now) vertex.0 result.0 }
{
    let root = root_of(tree, vertex);
    name_at(figure, root)
}

// The label of each vertex, the name of its tree.
pub(crate) fn labels_of<'a>(
    vertices: usize,
    tree: &'a [u16; VERTICES],
    figure: &'a [u16; VERTICES],
) -> [u16; VERTICES]
    requires { Nameable vertices (parents_of tree.now) (names_by figure.now) }
    ensures { Labelled vertices (parents_of tree.now) (names_by figure.now) result }
{
    let mut labels = [0u16; VERTICES];
    for v in 0..vertices {
        let name = name_of(tree, figure, Vertex(v as u16));
        labels[v] = name.0;
    }
    labels
}

// Says whether the two vertices are in different trees.
pub(crate) fn apart(tree: &[u16; VERTICES], a: Vertex, b: Vertex) -> bool
    requires { BothRooted (parents_of tree.now) a.0 b.0 }
    ensures { result ≡ not (same_root (parents_of tree.now) a.0 b.0) }
{
    let x = root_of(tree, a);
    let y = root_of(tree, b);
    x != y
}
