ghost use Rattle.model.specs.Lent.{sheet_lent};
ghost use Rattle.decoder.specs.Growing.{policy_of};
ghost use Rattle.decoder.specs.Keys.{Solves};

use crate::growing::Growth;
use crate::key::{Solved, key};
use board::tests::check_decode;
use model::lent::Sheet;
use model::refusal::Refusal;

// What both calls do: the tests, then the key, which is written where no test fails and no part is odd.
pub(crate) fn solve(
    growth: Growth,
    sheet: Sheet<'_>,
    support: &mut [u8],
    correction: &mut [u8],
) -> Result<Solved, Refusal>
    ensures { Solves (policy_of growth) (sheet_lent sheet.entry) support.old correction.old
        result support.new correction.new }
{
    check_decode(sheet, support, correction)?;
    key(growth, sheet, support, correction)
}
