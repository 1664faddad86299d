ghost use Rattle.std.specs.Prelude.{◌≡◌, ◌<◌};
ghost use Rattle.model.specs.Board.{vertex_limit};
ghost use Rattle.decoder.specs.Figures.{carried};
ghost use Rattle.decoder.specs.Merging.{RootsNamed, figures_of, Mergeable, figures_after};

use crate::figure::Figure;
use crate::labels::name_at;
use model::limits::VERTICES;
use model::numbers::Vertex;
use union_find::Joined;

// The cluster named `from` becomes part of the one named `to`: their figures add up, and `from` names no cluster any more.
fn carry(figure: &mut [u16; VERTICES], from: Vertex, to: Vertex)
    requires { (from.0 < vertex_limit) × (to.0 < vertex_limit) }
    ensures { figure.new ≡ carried figure.old from.0 to.0 }
{
    let j = from.0 as usize;
    let k = to.0 as usize;
    let one = Figure(figure[j]);
    let other = Figure(figure[k]);
    let both = one.plus(other);
    figure[k] = both.0;
    figure[j] = Figure::NONE;
}

// The tree of the root `child` is hung under `root`: the smaller of their names is that of both, and is told by `root`.
fn merge_roots(figure: &mut [u16; VERTICES], child: Vertex, root: Vertex)
    requires { RootsNamed figure.old child.0 root.0 }
    ensures { figure.new ≡ figures_of child.0 root.0 figure.old }
{
    let p = name_at(figure, child);
    let q = name_at(figure, root);
    if p.0 < q.0 {
        carry(figure, q, p);
        figure[root.0 as usize] = Figure::NAME + p.0;
    } else {
        carry(figure, p, q);
    }
}

// What is kept with the trees follows a join.
pub(crate) fn merge(joined: Joined, figure: &mut [u16; VERTICES])
    requires { Mergeable joined figure.old }
    ensures { figure.new ≡ figures_after joined figure.old }
{
    match joined {
        Joined::Hung { child, root } => merge_roots(figure, child, root),
        Joined::Already(_) => {}
    }
}
