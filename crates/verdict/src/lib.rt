// The verdict on a handed-in set.
#![tactic(auto)]

mod crossings;
pub mod difference;
pub mod judge;

ghost use Rattle.model.specs.Lent.{sheet_lent};
ghost use Rattle.model.specs.Outcomes.{Judges, JudgesSoundly};
ghost use Rattle.verdict.specs.Judging.{Comparable, Compares};

use crate::judge::judge;
use board::tests::check_verdict;
use decoder::decode;
use model::answers::Verdict;
use model::lent::Sheet;
use model::limits::EDGES;

// The verdict once its own tests have passed: decoding's refusal, or the comparison with the correction that it wrote and leaves there.
pub fn compare(
    sheet: Sheet<'_>,
    handed: &[u8],
    support: &mut [u8],
    correction: &mut [u8],
) -> Verdict
    requires { Comparable (sheet_lent sheet) handed.now support.old correction.old }
    ensures { Compares (sheet_lent sheet.entry) handed.now support.old correction.old result support.new correction.new }
{
    // No `?`: the verdict's enum has the refusal in a case of its own.
    if let Err(refusal) = decode(sheet, support, correction) {
        return Verdict::Refused(refusal);
    }
    judge(sheet.board, sheet.syndrome, handed, correction)
}

// Off, same or wound, or the refusal that decoding gave or 9: a refusal comes before the others.
pub fn verdict(sheet: Sheet<'_>, handed: &[u8]) -> Verdict
    ensures answer { Judges (sheet_lent sheet.entry) handed.now result }
    ensures sound { JudgesSoundly (sheet_lent sheet.entry) handed.now result }
{
    if let Err(refusal) = check_verdict(sheet, handed) {
        return Verdict::Refused(refusal);
    }
    let edges = sheet.board.marks.len();
    let mut support = [0u8; EDGES];
    let mut correction = [0u8; EDGES];
    compare(
        sheet,
        handed,
        &mut support[..edges],
        &mut correction[..edges],
    )
}
