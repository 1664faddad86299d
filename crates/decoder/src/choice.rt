ghost use Rattle.std.specs.Prelude.{◌≡◌, ◌+◌};
ghost use Rattle.union_find.specs.Trees.{at};
ghost use Rattle.decoder.specs.Figures.{odd_figure};
ghost use Rattle.decoder.specs.Choices.{chosen_of, least_up_to, Choosable, block_length, Block, Smallest, Searchable, FirstEqual};

use crate::figure::Figure;
use model::limits::VERTICES;
use model::numbers::Vertex;

// How many figures are looked at together. The array is a number of whole blocks, so a block may reach past the vertices, where no figure is
// that of an odd cluster.
const BLOCK: usize = 64;

// The smallest figure of a block.
fn smallest_in(figure: &[u16; VERTICES], from: usize) -> u16
    requires { Block figure.now from }
    ensures { Smallest figure.now from (from + block_length) result }
{
    let mut least = figure[from];
    for i in 0..BLOCK {
        let f = figure[from + i];
        least = if f < least { f } else { least };
    }
    least
}

// The first number from `from` on by which the figure stands that is sought. There is one.
fn first_equal(figure: &[u16; VERTICES], from: usize, sought: u16) -> Vertex
    requires { Searchable figure.now from sought }
    ensures { FirstEqual figure.now from sought result.0 }
{
    // There is one, so that no bound is tested; `position` would give an Option that is never None.
    let mut a = from;
    while figure[a] != sought {
        a += 1;
    }
    Vertex(a as u16)
}

// The cluster that grows, by its smallest vertex, if any is odd: of the odd ones that with the smallest boundary, among equals that with the
// smallest label. It looks at the kept figures alone, block by block: only a smaller figure takes the place of one from an earlier block.
pub(crate) fn choose(vertices: usize, figure: &[u16; VERTICES]) -> Option<Vertex>
    requires { Choosable vertices figure.now }
    ensures { chosen_of result ≡ least_up_to vertices (odd_figure figure.now) (at figure.now) }
{
    let mut least = Figure::EVEN;
    let mut block = 0;
    for from in (0..vertices).step_by(BLOCK) {
        let smallest = smallest_in(figure, from);
        if smallest < least {
            least = smallest;
            block = from;
        }
    }
    if least == Figure::EVEN {
        return None;
    }
    let chosen = first_equal(figure, block, least);
    Some(chosen)
}
