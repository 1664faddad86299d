ghost use Rattle.decoder.specs.Growing.{policy_of};
ghost use Rattle.decoder.specs.Runs.{bare_lent};
ghost use Rattle.decoder.specs.Keys.{Keyable, Keys};

use crate::growing::Growth;
use crate::growth::run;
use crate::labels::labels_of;
use crate::odd_ends::odd_ends;
use crate::support::lose;
use board::largest::largest_byte;
use model::lent::Sheet;
use model::refusal::Refusal;
use parts::first_odd;
use peeling::{clear, peel};

// How many growths or rounds a key took, and how many correction edges it has.
#[derive(Clone, Copy)]
pub(crate) struct Solved {
    pub(crate) count: usize,
    pub(crate) edges: usize,
}

// The key of a sheet that has passed the tests, or number 10, which leaves both buffers as they were. It looks at no marks. Where nothing is
// lit nothing grows and no edge is corrected; where no vertex is open the odd ends of the correction are the syndrome.
pub(crate) fn key(
    growth: Growth,
    sheet: Sheet<'_>,
    support: &mut [u8],
    correction: &mut [u8],
) -> Result<Solved, Refusal>
    requires { Keyable sheet.board.vertices sheet.board.ends.now sheet.board.opened.now sheet.syndrome.now sheet.loss.now
        support.old correction.old }
    ensures { Keys (policy_of growth) (bare_lent sheet.entry) support.old correction.old result support.new correction.new }
{
    let vertices = sheet.board.vertices;
    let ends = sheet.board.ends;
    let opened = sheet.board.opened;
    let syndrome = sheet.syndrome;
    if largest_byte(syndrome) == 0 {
        lose(sheet.loss, support);
        clear(correction);
        return Ok(Solved { count: 0, edges: 0 });
    }
    if let Some(v) = first_odd(sheet) {
        return Err(Refusal::NoCorrection(v));
    }
    let ran = run(growth, sheet, support);
    let count = ran.count;
    if largest_byte(opened) == 0 {
        let edges = peel(vertices, ends, support, syndrome, correction);
        return Ok(Solved { count, edges });
    }
    let book = ran.book;
    let tree = book.tree;
    let figure = book.figure;
    let labels = labels_of(vertices, &tree, &figure);
    let lit = odd_ends(&labels, opened, syndrome);
    let edges = peel(vertices, ends, support, &lit[..vertices], correction);
    Ok(Solved { count, edges })
}
