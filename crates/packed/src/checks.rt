// The tests of what the calls on packed sheets are lent.
ghost use Rattle.std.specs.Prelude.{◌≡◌, ◌≤◌, length};
ghost use Rattle.model.specs.Board.{vertex_limit, edge_limit};
ghost use Rattle.model.specs.Lent.{board_lent};
ghost use Rattle.model.specs.Refusals.{refusal_of};
ghost use Rattle.model.specs.WordRefusals.{item_rules, word_rules, pack_refusal, unpack_refusal, lit_refusal};
ghost use Rattle.model.specs.Words.{word_count};
ghost use Rattle.board.specs.Checks.{test_of};
ghost use Rattle.packed.specs.Screened.{Screened};

use crate::words::{past_last, word_count};
use board::counts::check_counts;
use board::tests::{check_bytes, check_edges};
use model::lent::PackedSheet;
use model::limits::{EDGES, VERTICES};
use model::refusal::Refusal;

// The tests 1 to 3 of packing and unpacking: both counts, and then the lengths, which are held to them.
fn check_items(
    vertices: usize,
    edges: usize,
    syndrome: &[u8],
    loss: &[u8],
    lit: &[u64],
    lost: &[u64],
) -> Result<(), Refusal>
    ensures { test_of result ≡ refusal_of
        (item_rules vertices edges syndrome.now loss.now lit.now lost.now) }
{
    if !(1..=VERTICES).contains(&vertices) {
        return Err(Refusal::VertexCount);
    }
    if edges > EDGES {
        return Err(Refusal::EndCount);
    }
    let bytes = (syndrome.len() == vertices) & (loss.len() == edges);
    let lit_words = lit.len() == word_count(vertices);
    let lost_words = lost.len() == word_count(edges);
    if !(bytes & (lit_words & lost_words)) {
        return Err(Refusal::BufferLength);
    }
    Ok(())
}

// The test 19 of both sheets, the syndrome's words before those of the losses.
fn check_words(vertices: usize, lit: &[u64], edges: usize, lost: &[u64]) -> Result<(), Refusal>
    requires vertices_le_vertex_limit { (vertices ≤ vertex_limit) × (edges ≤ edge_limit) }
    requires lit_len { (length lit.now ≡ word_count vertices) × (length lost.now ≡ word_count edges) }
    ensures { test_of result ≡ refusal_of (word_rules vertices lit.now edges lost.now) }
{
    let in_syndrome = past_last(vertices, lit);
    let in_loss = past_last(edges, lost);
    if let Some(w) = in_syndrome.or(in_loss) {
        return Err(Refusal::PastLast(w));
    }
    Ok(())
}

// What packing is lent.
pub(crate) fn check_pack(
    vertices: usize,
    edges: usize,
    syndrome: &[u8],
    loss: &[u8],
    lit: &[u64],
    lost: &[u64],
) -> Result<(), Refusal>
    ensures { test_of result ≡ pack_refusal vertices edges syndrome.now loss.now lit.now lost.now }
{
    check_items(vertices, edges, syndrome, loss, lit, lost)?;
    check_bytes(syndrome, loss)
}

// What unpacking is lent.
pub(crate) fn check_unpack(
    vertices: usize,
    edges: usize,
    lit: &[u64],
    lost: &[u64],
    syndrome: &[u8],
    loss: &[u8],
) -> Result<(), Refusal>
    ensures { test_of result ≡ unpack_refusal vertices edges lit.now lost.now syndrome.now loss.now }
{
    check_items(vertices, edges, syndrome, loss, lit, lost)?;
    check_words(vertices, lit, edges, lost)
}

// What the lit total and the list of lit vertices are lent; `others` says whether the list has its length.
pub(crate) fn check_lit(vertices: usize, words: &[u64], others: bool) -> Result<(), Refusal>
    ensures { test_of result ≡ lit_refusal vertices words.now others }
{
    if !(1..=VERTICES).contains(&vertices) {
        return Err(Refusal::VertexCount);
    }
    let sized = words.len() == word_count(vertices);
    if !(sized & others) {
        return Err(Refusal::BufferLength);
    }
    if let Some(w) = past_last(vertices, words) {
        return Err(Refusal::PastLast(w));
    }
    Ok(())
}

// What decoding of a packed sheet is lent, as far as decoding itself does not test it: the lengths, and the words. Ends and marks come
// before the words, and are looked at here only where a word is refused.
pub(crate) fn screen(
    sheet: PackedSheet<'_>,
    support: &[u8],
    correction: &[u8],
) -> Result<(), Refusal>
    ensures { Screened (board_lent sheet.entry.board) sheet.entry.lit.now sheet.entry.lost.now
        support.now correction.now result }
{
    let board = sheet.board;
    let vertices = board.vertices;
    let edges = board.ends.len() / 2;
    let sized = (board.marks.len() == edges) & (board.opened.len() == vertices);
    let lit_words = sheet.lit.len() == word_count(vertices);
    let lost_words = sheet.lost.len() == word_count(edges);
    let filled = (support.len() == edges) & (correction.len() == edges);
    let fit = sized & ((lit_words & lost_words) & filled);
    check_counts(vertices, board.ends, fit)?;
    if let Err(refusal) = check_words(vertices, sheet.lit, edges, sheet.lost) {
        check_edges(board)?;
        return Err(refusal);
    }
    Ok(())
}
