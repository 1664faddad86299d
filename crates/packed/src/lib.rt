// Packed sheets: syndromes and losses in 64-bit words, as lab files have them. Item i, a vertex or an edge, is bit i modulo 64 of word i /
// 64. The words of a syndrome are lent as `lit`, those of the losses as `lost`.
#![tactic(auto)]

mod checks;
mod decoding;
mod listing;
mod packing;
mod unpacking;
mod words;

ghost use Rattle.model.specs.Lent.{board_lent};
ghost use Rattle.model.specs.WordOutcomes.{Packs, PacksSoundly, Unpacks, UnpacksSoundly, Totals, TotalsSoundly, Lists};
ghost use Rattle.model.specs.WordOutcomes.{DecodesPacked, DecodesPackedSoundly};

use crate::checks::{check_lit, check_pack, check_unpack, screen};
use crate::decoding::decode_words;
use crate::listing::{list_bits, set_bits};
use crate::packing::pack_items;
use crate::unpacking::unpack_items;
use model::answers::{Counts, Key, WordCounts};
use model::lent::PackedSheet;
use model::refusal::Refusal;

// The words of a syndrome and of the losses, from their bytes: how many there are of each; or a refusal, which writes nothing.
pub fn pack(
    vertices: usize,
    edges: usize,
    syndrome: &[u8],
    loss: &[u8],
    lit: &mut [u64],
    lost: &mut [u64],
) -> Result<WordCounts, Refusal>
    ensures outcome { Packs vertices edges syndrome.now loss.now lit.old lost.old
        result lit.new lost.new }
    ensures sound { PacksSoundly vertices edges syndrome.now loss.now result lit.new lost.new }
{
    check_pack(vertices, edges, syndrome, loss, lit, lost)?;
    pack_items(syndrome, lit);
    pack_items(loss, lost);
    Ok(WordCounts {
        syndrome: lit.len(),
        loss: lost.len(),
    })
}

// The bytes of a syndrome and of the losses, from their words: both counts; or a refusal, which writes nothing.
pub fn unpack(
    vertices: usize,
    edges: usize,
    lit: &[u64],
    lost: &[u64],
    syndrome: &mut [u8],
    loss: &mut [u8],
) -> Result<Counts, Refusal>
    ensures outcome { Unpacks vertices edges lit.now lost.now syndrome.old loss.old
        result syndrome.new loss.new }
    ensures sound { UnpacksSoundly vertices edges lit.now lost.now result syndrome.new loss.new }
{
    check_unpack(vertices, edges, lit, lost, syndrome, loss)?;
    unpack_items(lit, syndrome);
    unpack_items(lost, loss);
    Ok(Counts { vertices, edges })
}

// How many vertices of a packed syndrome are lit: the number of set bits in all its words.
pub fn lit_total(vertices: usize, lit: &[u64]) -> Result<usize, Refusal>
    ensures outcome { Totals vertices lit.now result }
    ensures sound { TotalsSoundly vertices lit.now result }
{
    check_lit(vertices, lit, true)?;
    Ok(set_bits(lit))
}

// The lit vertices of a packed syndrome, rising, at the front of a list with an entry for each vertex: their total. The rest of the list
// stays; a refusal writes nothing.
pub fn list_lit(vertices: usize, lit: &[u64], list: &mut [u16]) -> Result<usize, Refusal>
    ensures outcome { Lists vertices lit.now list.old result list.new }
    ensures sound { TotalsSoundly vertices lit.now result }
{
    let sized = list.len() == vertices;
    check_lit(vertices, lit, sized)?;
    Ok(list_bits(lit, list))
}

// The key of a packed sheet, as `decode` gives that of its bytes.
pub fn decode_packed(
    sheet: PackedSheet<'_>,
    support: &mut [u8],
    correction: &mut [u8],
) -> Result<Key, Refusal>
    ensures key { DecodesPacked (board_lent sheet.entry.board) sheet.entry.lit.now sheet.entry.lost.now
        support.old correction.old result support.new correction.new }
    ensures sound { DecodesPackedSoundly (board_lent sheet.entry.board) sheet.entry.lit.now sheet.entry.lost.now
        support.old correction.old result support.new correction.new }
{
    screen(sheet, support, correction)?;
    decode_words(sheet, support, correction)
}
