// The words of packed items: how many there are, how many items a word has, and whether a bit past the last item is set.
ghost use Rattle.std.specs.Prelude.{◌≡◌, ◌*◌, ◌<◌, ◌≤◌, length};
ghost use Rattle.model.specs.Board.{edge_limit};
ghost use Rattle.model.specs.Sums.{first_up_to};
ghost use Rattle.model.specs.Words.{word_count, past_last};
ghost use Rattle.packed.specs.Found.{word_found};
ghost use Rattle.packed.specs.WordItems.{WordItems};

use model::numbers::Word;

// The bits of a word.
pub const WORD: usize = 64;

// How many words so many items fill: the full ones, and one more where some are left.
pub(crate) fn word_count(items: usize) -> usize
    ensures { result ≡ word_count items }
{
    items.div_ceil(WORD)
}

// How many items word w has: 64, or as many as are left.
pub(crate) fn items_in(items: usize, w: usize) -> usize
    requires { 64 * w < items }
    ensures { WordItems items w result }
{
    (items - WORD * w).min(WORD)
}

// The first word with a bit past the last item. Only the last word can have one, where the items don't fill it.
pub(crate) fn past_last(items: usize, words: &[u64]) -> Option<Word>
    requires { (items ≤ edge_limit) × (length words.now ≡ word_count items) }
    ensures { word_found result ≡ first_up_to (length words.now) (past_last items words.now) }
{
    let last = items / WORD;
    let rest = items % WORD;
    if rest == 0 {
        return None;
    }
    if words[last] >> rest == 0 {
        return None;
    }
    Some(Word(last as u16))
}
