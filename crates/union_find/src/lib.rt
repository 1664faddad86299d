// Union-find on one array, of parents and of sizes. The clusters of the book, the parts of the board and the forest share it.
#![tactic(auto)]

ghost use Rattle.std.specs.Prelude.{◌≡◌};
ghost use Rattle.union_find.specs.Trees.{InTrees, RootIs, root_of};
ghost use Rattle.union_find.specs.Packed.{parents_of, Fits, EachAlone, Compresses, Joinable, Hangable, Hangs, JoinsIn};

use model::limits::VERTICES;
use model::numbers::Vertex;

// What joining two vertices did. Neither of the two is a failure, nor is one without a value: so it is no `Result` and no `Option`.
#[derive(Clone, Copy)]
pub enum Joined {
    // The tree of the root `child` was hung under `root`, the root of a tree that is no smaller.
    Hung { child: Vertex, root: Vertex },
    // Both had this root already.
    Already(Vertex),
}

// By a root stands this and the size of its tree, by any other vertex its parent.
pub const ROOT: u16 = 1024;

// The first `vertices` vertices, each alone: its own root, in a tree of one.
pub fn alone(vertices: usize, tree: &mut [u16; VERTICES])
    requires { Fits vertices tree.old }
    ensures { EachAlone vertices tree.new }
{
    tree[..vertices].fill(ROOT + 1);
}

// The root of v's tree.
pub fn root_of(tree: &[u16; VERTICES], v: Vertex) -> Vertex
    requires { InTrees (parents_of tree.now) v.0 }
    ensures { result.0 ≡ root_of (parents_of tree.now) v.0 }
{
    let mut w = v.0;
    loop {
        let up = tree[w as usize];
        if up >= ROOT {
            return Vertex(w);
        }
        w = up;
    }
}

// Path compression: every vertex on the way up from v hangs under v's root. All others keep their parents, and the roots their sizes.
pub fn compress(tree: &mut [u16; VERTICES], v: Vertex, root: Vertex)
    requires { RootIs (parents_of tree.old) v.0 root.0 }
    ensures { Compresses tree.old v.0 root.0 tree.new }
{
    let mut w = v.0;
    while w != root.0 {
        let up = tree[w as usize];
        tree[w as usize] = root.0;
        w = up;
    }
}

// The tree of the root `child` hung under `root`, which has the size of both then.
fn hang(tree: &mut [u16; VERTICES], child: Vertex, root: Vertex) -> Joined
    requires { Hangable tree.old child.0 root.0 }
    ensures { Hangs tree.old child root result tree.new }
{
    let x = child.0 as usize;
    let y = root.0 as usize;
    let size = tree[x] - ROOT;
    tree[y] += size;
    tree[x] = root.0;
    Joined::Hung { child, root }
}

// The trees of a and b as one: the smaller is hung under the root of the larger.
pub fn join(tree: &mut [u16; VERTICES], a: Vertex, b: Vertex) -> Joined
    requires { Joinable tree.old a.0 b.0 }
    ensures { JoinsIn tree.old a.0 b.0 result tree.new }
{
    let x = root_of(tree, a);
    let y = root_of(tree, b);
    if x == y {
        return Joined::Already(x);
    }
    if tree[x.0 as usize] < tree[y.0 as usize] {
        return hang(tree, x, y);
    }
    hang(tree, y, x)
}
