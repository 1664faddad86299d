// Decoding: tests, the parts of the whole board, growth on the cluster book, and peeling. Weighted growth and rounds differ in which
// clusters grow, and in nothing else.
#![tactic(auto)]

mod book;
mod choice;
mod end_lists;
mod exposure;
mod figure;
mod growing;
mod growth;
mod key;
mod labels;
mod merging;
mod odd_ends;
mod raising;
mod rings;
mod shutting;
mod solve;
mod support;
mod tally;

ghost use Rattle.model.specs.Lent.{sheet_lent};
ghost use Rattle.model.specs.Outcomes.{Decodes, DecodesSoundly};
ghost use Rattle.model.specs.RoundsOutcomes.{DecodesInRounds, RoundsSoundly};

use crate::growing::Growth;
use crate::solve::solve;
use model::answers::{Key, RoundsKey};
use model::lent::Sheet;
use model::refusal::Refusal;

// The key: the growth count and the number of correction edges, with a support byte and a correction byte for each edge; or a refusal,
// which writes nothing.
pub fn decode(sheet: Sheet<'_>, support: &mut [u8], correction: &mut [u8]) -> Result<Key, Refusal>
    ensures key { Decodes (sheet_lent sheet.entry) support.old correction.old result support.new correction.new }
    ensures sound { DecodesSoundly (sheet_lent sheet.entry) support.old correction.old result correction.new }
{
    let solved = solve(Growth::Weighted, sheet, support, correction)?;
    Ok(Key {
        growths: solved.count,
        edges: solved.edges,
    })
}

// The key by rounds, in which all odd clusters grow together: the number of rounds in the place of growths, else as `decode`. What is
// promised of winding is promised of `decode` alone.
pub fn decode_rounds(
    sheet: Sheet<'_>,
    support: &mut [u8],
    correction: &mut [u8],
) -> Result<RoundsKey, Refusal>
    ensures key { DecodesInRounds (sheet_lent sheet.entry) support.old correction.old result support.new correction.new }
    ensures sound { RoundsSoundly (sheet_lent sheet.entry) support.old correction.old result support.new correction.new }
{
    let solved = solve(Growth::Rounds, sheet, support, correction)?;
    Ok(RoundsKey {
        rounds: solved.count,
        edges: solved.edges,
    })
}
