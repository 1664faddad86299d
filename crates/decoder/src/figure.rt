ghost use Rattle.std.specs.Prelude.{◌≡◌, cond, ◌≤◌};
ghost use Rattle.model.specs.Sums.{bit};
ghost use Rattle.decoder.specs.Figures.{figure_of, plus_figure};
ghost use Rattle.decoder.specs.LoneFigures.{Lonely, LoneFigures};

use model::lent::Sheet;
use model::limits::VERTICES;

// What is kept with a cluster: its boundary size, to which `EVEN` is added where the cluster has an even number of syndrome vertices, and
// `OPEN` where it holds an open vertex. So the figures of the odd clusters are those below `EVEN`, and they are the boundary sizes.
#[derive(Clone, Copy)]
pub(crate) struct Figure(pub(crate) u16);

// The amount where it holds, else 0.
fn amount(holds: bool, size: u16) -> u16
    ensures { (result ≡ cond holds size 0) × (result ≤ size) }
{
    if holds {
        return size;
    }
    0
}

impl Figure {
    // More than any boundary size.
    pub(crate) const EVEN: u16 = 2048;

    pub(crate) const OPEN: u16 = 4096;

    // In the place of a figure, from here on: at the root of a tree that another vertex names, this and that vertex.
    pub(crate) const NAME: u16 = 32768;

    // In the place of a figure, at a vertex that names no cluster.
    pub(crate) const NONE: u16 = 65535;

    // The figure of a vertex alone.
    pub(crate) fn lone(exposed: bool, lit: bool, holds_open: bool) -> Figure
        ensures { result.0 ≡ figure_of (bit exposed) lit holds_open }
    {
        let size = amount(exposed, 1);
        let even = amount(!lit, Self::EVEN);
        let open = amount(holds_open, Self::OPEN);
        let sum = size + even;
        Figure(sum + open)
    }

    // The figure of two clusters as one: boundaries and syndrome vertices add up, and an open vertex of either is one of both.
    pub(crate) fn plus(self, other: Figure) -> Figure
        ensures { result.0 ≡ plus_figure self.0 other.0 }
    {
        let size = self.0 % Self::EVEN + other.0 % Self::EVEN;
        let alike = self.0 / Self::EVEN % 2 == other.0 / Self::EVEN % 2;
        let open = self.0 / Self::OPEN + other.0 / Self::OPEN != 0;
        let sum = size + amount(alike, Self::EVEN);
        Figure(sum + amount(open, Self::OPEN))
    }
}

// The figure of each vertex, each alone. By no other number there is one.
pub(crate) fn lone_figures(sheet: Sheet<'_>, exposure: &[u16; VERTICES]) -> [u16; VERTICES]
    requires { Lonely sheet.board.vertices sheet.board.opened.now sheet.syndrome.now exposure.now }
    ensures { LoneFigures sheet.entry.board.vertices sheet.entry.board.opened.now sheet.entry.syndrome.now exposure.now result }
{
    let mut figure = [Figure::NONE; VERTICES];
    for v in 0..sheet.board.vertices {
        let exposed = exposure[v] != 0;
        let lit = sheet.syndrome[v] == 1;
        let open = sheet.board.opened[v] == 1;
        let lone = Figure::lone(exposed, lit, open);
        figure[v] = lone.0;
    }
    figure
}
