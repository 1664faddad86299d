// The report of a text, as the decode program prints it: its key, or its refusal.
#![tactic(auto)]

mod key;
mod lines;

ghost use Rattle.model.specs.Report.{report_of, InFront};

use crate::key::put_sheet;
use crate::lines::put_refusal;
use model::answers::Counts;
use model::lent::{Board, Sheet};
use model::limits::{EDGES, ENDS, VERTICES};
use text::reading::read;

// No report is longer: 7 bytes for `G`, for each correction edge and for `D`.
pub const LONGEST: usize = 7 * (EDGES + 2);

// Puts the report of a text in front of the array, and answers with its length.
#[tactic(auto, using(crate::proofs::Readings::counts_read))]
pub fn report(text: &[u8], out: &mut [u8; LONGEST]) -> usize
    ensures { InFront (report_of text.now) out.old result out.new }
{
    let mut ends = [0u16; ENDS];
    let mut marks = [0u8; EDGES];
    let mut opened = [0u8; VERTICES];
    let mut syndrome = [0u8; VERTICES];
    let mut loss = [0u8; EDGES];
    match read(
        text,
        &mut ends,
        &mut marks,
        &mut opened,
        &mut syndrome,
        &mut loss,
    ) {
        Ok(Counts { vertices, edges }) => {
            let board = Board {
                vertices,
                ends: &ends[..2 * edges],
                marks: &marks[..edges],
                opened: &opened[..vertices],
            };
            let sheet = Sheet {
                board,
                syndrome: &syndrome[..vertices],
                loss: &loss[..edges],
            };
            put_sheet(sheet, out)
        }
        Err(refusal) => put_refusal(out, refusal),
    }
}
