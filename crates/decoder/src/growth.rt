ghost use Rattle.decoder.specs.Growing.{policy_of};
ghost use Rattle.decoder.specs.Runs.{bare_lent, Runnable, Runs};

use crate::book::Book;
use crate::end_lists::EndLists;
use crate::exposure::count_ends;
use crate::growing::{Growth, next};
use crate::rings::lone_rings;
use crate::support::lose;
use model::lent::Sheet;
use model::limits::{EDGES, ENDS, VERTICES};

// The book after a run, and how many growths or rounds there were.
#[derive(Clone, Copy)]
pub(crate) struct Ran {
    pub(crate) book: Book,
    pub(crate) count: usize,
}

// The supports and the book before any growth; then growths or rounds until no cluster is odd. Which clusters grow next is told by what the
// book keeps, and the lists of ends and the rings lead to the edges that they touch.
pub(crate) fn run(growth: Growth, sheet: Sheet<'_>, support: &mut [u8]) -> Ran
    requires { Runnable sheet.board.vertices sheet.board.ends.now sheet.board.opened.now sheet.syndrome.now sheet.loss.now
        support.old }
    ensures { Runs (policy_of growth) (bare_lent sheet.entry) result support.new }
{
    let vertices = sheet.board.vertices;
    let ends = sheet.board.ends;
    lose(sheet.loss, support);
    let mut exposure = [0u16; VERTICES];
    count_ends(ends, support, &mut exposure);
    let mut lists = EndLists {
        latest: [0u16; VERTICES],
        earlier: [0u16; ENDS],
    };
    lists.list(ends);
    let mut ring = [0u16; VERTICES];
    lone_rings(vertices, &mut ring);
    let mut book = Book::gathered(sheet, support, &exposure, &mut ring);
    let mut filled = [0u16; EDGES];
    let mut count = 0;
    while let Some(growing) = next(growth, vertices, &book.figure) {
        let grown = book.grow(
            ends,
            &lists,
            growing,
            support,
            &mut exposure,
            &mut ring,
            &mut filled,
        );
        book = grown.book;
        count += 1;
    }
    Ran { book, count }
}
