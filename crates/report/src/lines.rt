// The lines that are not of one number: a refusal's, and the distance's where there may be none.
ghost use Rattle.std.specs.Prelude.{◌+◌, ◌≤◌, length};
ghost use Rattle.std.proofs.Math.Option.{none};
ghost use Rattle.model.specs.Report.{refusal_line, distance_line, InFront};
ghost use Rattle.text.specs.Printing.{Puts};
ghost use Rattle.report.specs.ReportLines.{fewest_in};

use model::refusal::Refusal;
use text::printing::{put_byte, put_field, put_line};
use text::{NEWLINE, TAB};

const LETTER_D: u8 = b'D';

const LETTER_N: u8 = b'N';

const DASH: u8 = b'-';

// Puts a refusal's line at the start: number, place. It has at most 27 bytes: the letter, two tabs, 3 digits of a number, 20 of a place
// and the newline.
#[tactic(auto, using(crate::proofs::ReportLineLaws::number_digits, crate::proofs::ReportLineLaws::place_digits, text::proofs::PutLaws::long))]
pub(crate) fn put_refusal(out: &mut [u8], refusal: Refusal) -> usize
    requires { 27 ≤ length out.old }
    ensures { InFront (refusal_line refusal) out.old result out.new }
{
    let number = refusal.number() as usize;
    let place = refusal.place();
    let number_at = put_byte(out, 0, LETTER_N);
    let place_at = put_field(out, number_at, number);
    let end = put_field(out, place_at, place);
    put_byte(out, end, NEWLINE)
}

// Puts the line of a board without a winding loop.
fn put_dash(out: &mut [u8], at: usize) -> usize
    requires { at + 4 ≤ length out.old }
    ensures { Puts (distance_line none) out.old at result out.new }
{
    let tab_at = put_byte(out, at, LETTER_D);
    let dash_at = put_byte(out, tab_at, TAB);
    let end = put_byte(out, dash_at, DASH);
    put_byte(out, end, NEWLINE)
}

// Puts the line of a distance. The board is valid, so that what is not a distance is none.
#[tactic(auto, using(crate::proofs::ReportLineLaws::dash_bytes, crate::proofs::ReportLineLaws::distance_bytes))]
pub(crate) fn put_distance(
    out: &mut [u8],
    at: usize,
    distance: Result<Option<usize>, Refusal>,
) -> usize
    requires { at + length (distance_line (fewest_in distance)) ≤ length out.old }
    ensures { Puts (distance_line (fewest_in distance)) out.old at result out.new }
{
    let Ok(Some(fewest)) = distance else {
        return put_dash(out, at);
    };
    put_line(out, at, LETTER_D, fewest)
}
