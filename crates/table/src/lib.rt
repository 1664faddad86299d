// The static library: the calls of the table under plain C names, each answering one packed number. C lends slices one by one, of which a
// call makes its board or sheet. Of each call, `number` says which number, and `outcome` that what a caller takes from it is the call's
// answer, with the final contents of every buffer; of decoding, in rounds too, of the verdict, with faces too, of the game, of traps, of
// the stack and of all calls on packed sheets, `sound` says what may be relied on, of the same answer. The words of a packed syndrome are
// lent as `lit`, those of packed losses as `lost`.
#![tactic(auto)]

mod packing;
mod trapping;

ghost use Rattle.std.specs.Prelude.{◌≡◌};
ghost use Rattle.model.specs.Board.{board_of, sheet_of};
ghost use Rattle.model.specs.Outcomes.{decode_answer, Decodes, DecodesSoundly, verdict_answer, Judges, JudgesSoundly};
ghost use Rattle.model.specs.Outcomes.{distance_answer, Measures, torus_answer, Builds, planar_answer, BuildsPlanar};
ghost use Rattle.model.specs.GameOutcomes.{game_answer, Plays, PlaysSoundly};
ghost use Rattle.model.specs.FacesOutcomes.{faces_answer, ShowsFaces, FacesSoundly};
ghost use Rattle.model.specs.StackOutcomes.{stack_answer, BuildsStack, StacksSoundly};
ghost use Rattle.model.specs.RoundsOutcomes.{rounds_answer, DecodesInRounds, RoundsSoundly};
ghost use Rattle.model.specs.TextOutcomes.{buffers_of, counts, read_outcome, Reads, write_answer, Writes};
ghost use Rattle.model.specs.WordOutcomes.{decode_packed_answer, DecodesPacked, DecodesPackedSoundly, pack_answer, Packs, PacksSoundly};
ghost use Rattle.model.specs.WordOutcomes.{unpack_answer, Unpacks, UnpacksSoundly, lit_answer, Totals, TotalsSoundly, list_answer, Lists};
ghost use Rattle.model.specs.Packing.{packed_decoded, packed_rounds, packed_verdict, packed_distance, packed_built, packed_reading, packed_written};
ghost use Rattle.model.specs.Packing.{unpacked_decoded, unpacked_rounds, unpacked_verdict, unpacked_distance, unpacked_built, unpacked_reading, unpacked_written};
ghost use Rattle.model.specs.Packing.{packed_words, packed_lit, packed_game, unpacked_words, unpacked_lit, unpacked_game};

use crate::packing::{as_number, verdict_as_number};
use model::lent::{Board, PackedSheet, Sheet};

// The key of a sheet: growths and correction edges, with the support and correction bytes filled.
#[unsafe(no_mangle)]
pub extern "C" fn surface_decode(
    vertices: usize,
    ends: &[u16],
    marks: &[u8],
    opened: &[u8],
    syndrome: &[u8],
    loss: &[u8],
    support: &mut [u8],
    correction: &mut [u8],
) -> u64
    ensures number { result ≡ packed_decoded
        (decode_answer (sheet_of (board_of vertices ends.now marks.now opened.now) syndrome.now loss.now) support.old correction.old) }
    ensures outcome { Decodes (sheet_of (board_of vertices ends.now marks.now opened.now) syndrome.now loss.now) support.old correction.old
        (unpacked_decoded result) support.new correction.new }
    ensures sound { DecodesSoundly (sheet_of (board_of vertices ends.now marks.now opened.now) syndrome.now loss.now) support.old correction.old
        (unpacked_decoded result) correction.new }
{
    let board = Board {
        vertices,
        ends,
        marks,
        opened,
    };
    let sheet = Sheet {
        board,
        syndrome,
        loss,
    };
    as_number(decoder::decode(sheet, support, correction))
}

// The key of a sheet by rounds: rounds and correction edges, with the support and correction bytes filled.
#[unsafe(no_mangle)]
pub extern "C" fn surface_decode_rounds(
    vertices: usize,
    ends: &[u16],
    marks: &[u8],
    opened: &[u8],
    syndrome: &[u8],
    loss: &[u8],
    support: &mut [u8],
    correction: &mut [u8],
) -> u64
    ensures number { result ≡ packed_rounds
        (rounds_answer (sheet_of (board_of vertices ends.now marks.now opened.now) syndrome.now loss.now) support.old correction.old) }
    ensures outcome { DecodesInRounds (sheet_of (board_of vertices ends.now marks.now opened.now) syndrome.now loss.now) support.old correction.old
        (unpacked_rounds result) support.new correction.new }
    ensures sound { RoundsSoundly (sheet_of (board_of vertices ends.now marks.now opened.now) syndrome.now loss.now) support.old correction.old
        (unpacked_rounds result) support.new correction.new }
{
    let board = Board {
        vertices,
        ends,
        marks,
        opened,
    };
    let sheet = Sheet {
        board,
        syndrome,
        loss,
    };
    as_number(decoder::decode_rounds(sheet, support, correction))
}

// The key of a packed sheet, as of its bytes: growths and correction edges, with the support and correction bytes filled.
#[unsafe(no_mangle)]
pub extern "C" fn surface_decode_packed(
    vertices: usize,
    ends: &[u16],
    marks: &[u8],
    opened: &[u8],
    lit: &[u64],
    lost: &[u64],
    support: &mut [u8],
    correction: &mut [u8],
) -> u64
    ensures number { result ≡ packed_decoded
        (decode_packed_answer (board_of vertices ends.now marks.now opened.now) lit.now lost.now support.old correction.old) }
    ensures outcome { DecodesPacked (board_of vertices ends.now marks.now opened.now) lit.now lost.now support.old correction.old
        (unpacked_decoded result) support.new correction.new }
    ensures sound { DecodesPackedSoundly (board_of vertices ends.now marks.now opened.now) lit.now lost.now support.old correction.old
        (unpacked_decoded result) support.new correction.new }
{
    let board = Board {
        vertices,
        ends,
        marks,
        opened,
    };
    let sheet = PackedSheet { board, lit, lost };
    as_number(packed::decode_packed(sheet, support, correction))
}

// The verdict on a handed-in set: 1 off with the vertex, 2 same, 3 wound with the value.
#[unsafe(no_mangle)]
pub extern "C" fn surface_verdict(
    vertices: usize,
    ends: &[u16],
    marks: &[u8],
    opened: &[u8],
    syndrome: &[u8],
    loss: &[u8],
    handed: &[u8],
) -> u64
    ensures number { result ≡ packed_verdict (verdict_answer (sheet_of (board_of vertices ends.now marks.now opened.now) syndrome.now loss.now) handed.now) }
    ensures outcome { Judges (sheet_of (board_of vertices ends.now marks.now opened.now) syndrome.now loss.now) handed.now (unpacked_verdict result) }
    ensures sound { JudgesSoundly (sheet_of (board_of vertices ends.now marks.now opened.now) syndrome.now loss.now) handed.now (unpacked_verdict result) }
{
    let board = Board {
        vertices,
        ends,
        marks,
        opened,
    };
    let sheet = Sheet {
        board,
        syndrome,
        loss,
    };
    verdict_as_number(verdict::verdict(sheet, handed))
}

// The verdict on a handed-in set on the torus of a side, with a byte for each face filled where it is same: as the verdict's.
#[unsafe(no_mangle)]
pub extern "C" fn surface_faces(
    side: u32,
    syndrome: &[u8],
    loss: &[u8],
    handed: &[u8],
    faces: &mut [u8],
) -> u64
    ensures number { result ≡ packed_verdict
        (faces_answer side syndrome.now loss.now handed.now faces.old) }
    ensures outcome { ShowsFaces side syndrome.now loss.now handed.now faces.old
        (unpacked_verdict result) faces.new }
    ensures sound { FacesSoundly side syndrome.now loss.now handed.now faces.old
        (unpacked_verdict result) faces.new }
{
    verdict_as_number(faces::faces(side as usize, syndrome, loss, handed, faces))
}

// The distance of a board, with a shortest winding loop in `shown`: the fewest edges and 1, or 0 and 0 where there is none.
#[unsafe(no_mangle)]
pub extern "C" fn surface_distance(
    vertices: usize,
    ends: &[u16],
    marks: &[u8],
    opened: &[u8],
    shown: &mut [u8],
) -> u64
    ensures number { result ≡ packed_distance (distance_answer (board_of vertices ends.now marks.now opened.now) shown.old) }
    ensures outcome { Measures (board_of vertices ends.now marks.now opened.now) shown.old (unpacked_distance result) shown.new }
{
    let board = Board {
        vertices,
        ends,
        marks,
        opened,
    };
    as_number(distance::distance(board, shown))
}

// The torus of a side, with its ends and marks filled: the vertex count.
#[unsafe(no_mangle)]
pub extern "C" fn surface_torus(side: u32, ends: &mut [u16], marks: &mut [u8]) -> u64
    ensures number { result ≡ packed_built (torus_answer side ends.old marks.old) }
    ensures outcome { Builds side ends.old marks.old (unpacked_built result) ends.new marks.new }
{
    as_number(torus::torus(side as usize, ends, marks))
}

// The planar board of a side, with its ends, marks and open bytes filled: the vertex count.
#[unsafe(no_mangle)]
pub extern "C" fn surface_planar(
    side: u32,
    ends: &mut [u16],
    marks: &mut [u8],
    opened: &mut [u8],
) -> u64
    ensures number { result ≡ packed_built (planar_answer side ends.old marks.old opened.old) }
    ensures outcome { BuildsPlanar side ends.old marks.old opened.old
        (unpacked_built result) ends.new marks.new opened.new }
{
    as_number(planar::planar(side as usize, ends, marks, opened))
}

// The stack of a side and a number of rounds, with its ends, marks and syndrome filled from the readings: the vertex count.
#[unsafe(no_mangle)]
pub extern "C" fn surface_stack(
    side: u32,
    rounds: u32,
    readings: &[u8],
    ends: &mut [u16],
    marks: &mut [u8],
    syndrome: &mut [u8],
) -> u64
    ensures number { result ≡ packed_built
        (stack_answer side rounds readings.now ends.old marks.old syndrome.old) }
    ensures outcome { BuildsStack side rounds readings.now ends.old marks.old syndrome.old
        (unpacked_built result) ends.new marks.new syndrome.new }
    ensures sound { StacksSoundly side rounds readings.now
        (unpacked_built result) ends.new marks.new syndrome.new }
{
    as_number(stack::stack(
        side as usize,
        rounds as usize,
        readings,
        ends,
        marks,
        syndrome,
    ))
}

// The sheet that a text holds, with the entries of its counts filled: vertices and edges.
#[unsafe(no_mangle)]
pub extern "C" fn surface_read(
    text: &[u8],
    ends: &mut [u16],
    marks: &mut [u8],
    opened: &mut [u8],
    syndrome: &mut [u8],
    loss: &mut [u8],
) -> u64
    ensures number { result ≡ packed_reading
        (counts (read_outcome text.now
        (buffers_of ends.old marks.old opened.old syndrome.old loss.old))) }
    ensures outcome { Reads text.now (buffers_of ends.old marks.old opened.old syndrome.old loss.old)
        (unpacked_reading result) (buffers_of ends.new marks.new opened.new syndrome.new loss.new) }
{
    as_number(text::reading::read(text, ends, marks, opened, syndrome, loss))
}

// The text of a sheet, at the front of the lent buffer: its bytes.
#[unsafe(no_mangle)]
pub extern "C" fn surface_write(
    vertices: usize,
    ends: &[u16],
    marks: &[u8],
    opened: &[u8],
    syndrome: &[u8],
    loss: &[u8],
    text: &mut [u8],
) -> u64
    ensures number { result ≡ packed_written (write_answer (sheet_of (board_of vertices ends.now marks.now opened.now) syndrome.now loss.now) text.old) }
    ensures outcome { Writes (sheet_of (board_of vertices ends.now marks.now opened.now) syndrome.now loss.now) text.old (unpacked_written result) text.new }
{
    let board = Board {
        vertices,
        ends,
        marks,
        opened,
    };
    let sheet = Sheet {
        board,
        syndrome,
        loss,
    };
    as_number(text::writing::write(sheet, text))
}

// The words of a syndrome and of losses, filled from their bytes: how many there are of each.
#[unsafe(no_mangle)]
pub extern "C" fn surface_pack(
    vertices: usize,
    edges: usize,
    syndrome: &[u8],
    loss: &[u8],
    lit: &mut [u64],
    lost: &mut [u64],
) -> u64
    ensures number { result ≡ packed_words
        (pack_answer vertices edges syndrome.now loss.now lit.old lost.old) }
    ensures outcome { Packs vertices edges syndrome.now loss.now lit.old lost.old
        (unpacked_words result) lit.new lost.new }
    ensures sound { PacksSoundly vertices edges syndrome.now loss.now (unpacked_words result) lit.new lost.new }
{
    as_number(packed::pack(vertices, edges, syndrome, loss, lit, lost))
}

// The bytes of a syndrome and of losses, filled from their words: vertices and edges.
#[unsafe(no_mangle)]
pub extern "C" fn surface_unpack(
    vertices: usize,
    edges: usize,
    lit: &[u64],
    lost: &[u64],
    syndrome: &mut [u8],
    loss: &mut [u8],
) -> u64
    ensures number { result ≡ packed_reading
        (unpack_answer vertices edges lit.now lost.now syndrome.old loss.old) }
    ensures outcome { Unpacks vertices edges lit.now lost.now syndrome.old loss.old
        (unpacked_reading result) syndrome.new loss.new }
    ensures sound { UnpacksSoundly vertices edges lit.now lost.now (unpacked_reading result) syndrome.new loss.new }
{
    as_number(packed::unpack(vertices, edges, lit, lost, syndrome, loss))
}

// The lit vertices of a packed syndrome: their total.
#[unsafe(no_mangle)]
pub extern "C" fn surface_lit_total(vertices: usize, lit: &[u64]) -> u64
    ensures number { result ≡ packed_lit (lit_answer vertices lit.now) }
    ensures outcome { Totals vertices lit.now (unpacked_lit result) }
    ensures sound { TotalsSoundly vertices lit.now (unpacked_lit result) }
{
    as_number(packed::lit_total(vertices, lit))
}

// The same, with the lit vertices, rising, at the front of the lent list: their total.
#[unsafe(no_mangle)]
pub extern "C" fn surface_list_lit(vertices: usize, lit: &[u64], list: &mut [u16]) -> u64
    ensures number { result ≡ packed_lit (list_answer vertices lit.now list.old) }
    ensures outcome { Lists vertices lit.now list.old (unpacked_lit result) list.new }
    ensures sound { TotalsSoundly vertices lit.now (unpacked_lit result) }
{
    as_number(packed::list_lit(vertices, lit, list))
}

// Who can force the win of the game from a position: 1 Winder, 2 Blocker; and one more than the edge to take, or 0 where none is shown.
#[unsafe(no_mangle)]
pub extern "C" fn surface_game(
    vertices: usize,
    ends: &[u16],
    marks: &[u8],
    opened: &[u8],
    position: &[u8],
) -> u64
    ensures number { result ≡ packed_game (game_answer (board_of vertices ends.now marks.now opened.now) position.now) }
    ensures outcome { Plays (board_of vertices ends.now marks.now opened.now) position.now (unpacked_game result) }
    ensures sound { PlaysSoundly (board_of vertices ends.now marks.now opened.now) position.now (unpacked_game result) }
{
    let board = Board {
        vertices,
        ends,
        marks,
        opened,
    };
    as_number(game::game(board, position))
}
