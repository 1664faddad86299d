// Decoding of packed sheets whose words have passed their tests: the bytes are unpacked into arrays and decoded. A small board has small
// arrays, since all of an array is cleared.
ghost use Rattle.std.specs.Prelude.{◌≤◌};
ghost use Rattle.model.specs.Board.{vertex_limit, edge_limit};
ghost use Rattle.model.specs.Lent.{board_lent};
ghost use Rattle.model.specs.Outcomes.{Decodes};
ghost use Rattle.model.specs.Refusals.{edges_of};
ghost use Rattle.model.specs.Words.{unpacked_sheet};
ghost use Rattle.packed.specs.Screened.{Fitting, Unpackable};

use crate::unpacking::unpack_in_zeros;
use decoder::decode;
use model::answers::Key;
use model::lent::{PackedSheet, Sheet};
use model::limits::{EDGES, VERTICES};
use model::refusal::Refusal;

// The most vertices and edges of a small board.
const FEW_VERTICES: usize = 64;

const FEW_EDGES: usize = 256;

// Decoding in arrays as large as the board asks for.
pub(crate) fn decode_words(
    sheet: PackedSheet<'_>,
    support: &mut [u8],
    correction: &mut [u8],
) -> Result<Key, Refusal>
    requires { Fitting (board_lent sheet.board) sheet.lit.now sheet.lost.now }
    ensures { Decodes (unpacked_sheet (board_lent sheet.entry.board) sheet.entry.lit.now sheet.entry.lost.now)
        support.old correction.old result support.new correction.new }
{
    if sheet.board.vertices > FEW_VERTICES || sheet.board.ends.len() / 2 > FEW_EDGES {
        return decode_in::<VERTICES, EDGES>(sheet, support, correction);
    }
    decode_in::<FEW_VERTICES, FEW_EDGES>(sheet, support, correction)
}

// In arrays for a board of at most V vertices and E edges. No board asks for more than the limits.
fn decode_in<const V: usize, const E: usize>(
    sheet: PackedSheet<'_>,
    support: &mut [u8],
    correction: &mut [u8],
) -> Result<Key, Refusal>
    requires fitting { Fitting (board_lent sheet.board) sheet.lit.now sheet.lost.now }
    requires room { (sheet.board.vertices ≤ V) × (edges_of sheet.board.ends.now ≤ E) }
    requires limited { (V ≤ vertex_limit) × (E ≤ edge_limit) }
    ensures { Decodes (unpacked_sheet (board_lent sheet.entry.board) sheet.entry.lit.now sheet.entry.lost.now)
        support.old correction.old result support.new correction.new }
{
    let edges = sheet.board.ends.len() / 2;
    let mut syndrome = [0u8; V];
    let mut loss = [0u8; E];
    unpack_and_decode(
        &sheet,
        &mut syndrome[..sheet.board.vertices],
        &mut loss[..edges],
        support,
        correction,
    )
}

// Decodes the bytes of a packed sheet, which are unpacked into buffers of zeros. The sheet is lent by reference, so that the call needs no copy
// of it on the stack.
fn unpack_and_decode(
    sheet: &PackedSheet<'_>,
    syndrome: &mut [u8],
    loss: &mut [u8],
    support: &mut [u8],
    correction: &mut [u8],
) -> Result<Key, Refusal>
    requires { Unpackable (board_lent sheet.now.board) sheet.now.lit.now sheet.now.lost.now syndrome.old loss.old }
    ensures { Decodes (unpacked_sheet (board_lent sheet.now.board) sheet.now.lit.now sheet.now.lost.now)
        support.old correction.old result support.new correction.new }
{
    unpack_in_zeros(sheet.lit, syndrome);
    unpack_in_zeros(sheet.lost, loss);
    let unpacked = Sheet {
        board: sheet.board,
        syndrome,
        loss,
    };
    decode(unpacked, support, correction)
}
