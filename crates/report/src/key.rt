// The report of a sheet that was read: its key, or number 10.
ghost use Rattle.model.specs.Lent.{board_lent, sheet_lent};
ghost use Rattle.model.specs.Board.{ValidSheet};
ghost use Rattle.model.specs.Report.{sheet_report, InFront};
ghost use Rattle.report.specs.ReportLines.{Room, Keyed, Decodable, key_lines};

use crate::lines::{put_distance, put_refusal};
use decoder::decode;
use distance::distance;
use model::lent::{Board, Sheet};
use model::limits::EDGES;
use text::printing::{put_line, put_listed};

const LETTER_G: u8 = b'G';

const LETTER_C: u8 = b'C';

// Puts the lines of a key: growths, correction edges, distance. A shortest winding loop is left in `shown`.
fn put_key(
    board: Board<'_>,
    growths: usize,
    correction: &[u8],
    shown: &mut [u8],
    out: &mut [u8],
) -> usize
    requires { Keyed (board_lent board) growths correction.now shown.old out.old }
    ensures { InFront (key_lines (board_lent board.entry) growths correction.now) out.old result out.new }
{
    let correction_at = put_line(out, 0, LETTER_G, growths);
    let distance_at = put_listed(out, correction_at, LETTER_C, correction);
    put_distance(out, distance_at, distance(board, shown))
}

// Puts the report of a sheet that passes decoding's tests, with the buffers that decoding fills.
fn put_decoded(sheet: Sheet<'_>, support: &mut [u8], correction: &mut [u8], out: &mut [u8]) -> usize
    requires { Decodable (sheet_lent sheet) support.old correction.old out.old }
    ensures { InFront (sheet_report (sheet_lent sheet.entry)) out.old result out.new }
{
    match decode(sheet, support, correction) {
        Ok(key) => put_key(sheet.board, key.growths, correction, support, out),
        Err(refusal) => put_refusal(out, refusal),
    }
}

// Puts the report of a valid sheet.
#[tactic(auto, using(model::proofs::ListLaws::front_long))]
pub(crate) fn put_sheet(sheet: Sheet<'_>, out: &mut [u8]) -> usize
    requires { ValidSheet (sheet_lent sheet) × Room out.old }
    ensures { InFront (sheet_report (sheet_lent sheet.entry)) out.old result out.new }
{
    let edges = sheet.board.marks.len();
    let mut support = [0u8; EDGES];
    let mut correction = [0u8; EDGES];
    put_decoded(sheet, &mut support[..edges], &mut correction[..edges], out)
}
