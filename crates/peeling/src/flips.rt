// Parities below each vertex of a tree: how many flipped vertices, an odd or an even number, hang at it or below it.
ghost use Rattle.std.specs.Prelude.{length};
ghost use Rattle.model.specs.Sums.{ones};
ghost use Rattle.union_find.specs.Packed.{parents_of};
ghost use Rattle.peeling.specs.TreeFlips.{Flippable, Flipped, AllFlippable, AllFlipped};

use model::limits::VERTICES;
use model::numbers::Vertex;
use union_find::ROOT;

// Vertex v flips: every vertex on the way from v up to its root has another parity below it. The entry of a root stays.
pub fn flip(tree: &[u16; VERTICES], odd: &mut [bool; VERTICES], v: Vertex)
    requires { Flippable (parents_of tree.now) odd.old v.0 }
    ensures { Flipped (parents_of tree.now) v.0 odd.old odd.new }
{
    let mut w = v.0;
    loop {
        let up = tree[w as usize];
        if up >= ROOT {
            return;
        }
        odd[w as usize] = !odd[w as usize];
        w = up;
    }
}

// Every odd end flips.
pub fn flip_ends(lit: &[u8], tree: &[u16; VERTICES], odd: &mut [bool; VERTICES])
    requires { AllFlippable (length lit.now) (parents_of tree.now) odd.old }
    ensures { AllFlipped (parents_of tree.now) (length lit.now) (ones lit.now) odd.old odd.new }
{
    for (v, byte) in lit.iter().enumerate() {
        if *byte == 1 {
            flip(tree, odd, Vertex(v as u16));
        }
    }
}
