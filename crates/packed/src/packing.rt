// Bytes of items, packed into words: item i is bit i modulo 64 of word i / 64.
ghost use Rattle.std.specs.Prelude.{◌≡◌, ◌*◌, ◌<◌, length};
ghost use Rattle.model.specs.Board.{ValidBytes};
ghost use Rattle.model.specs.Sums.{ones};
ghost use Rattle.model.specs.Words.{word_count, number_with, items_of, words_of};

use crate::words::{WORD, items_in};

// Word w of the items: those from 64w on, at most 64, the last one first.
fn packed_word(bytes: &[u8], w: usize) -> u64
    requires { ValidBytes (length bytes.now) bytes.now × (64 * w < length bytes.now) }
    ensures { result ≡ number_with 64 (items_of (length bytes.now) (ones bytes.now) w) }
{
    let first = WORD * w;
    let mut word = 0;
    for k in (0..items_in(bytes.len(), w)).rev() {
        word = 2 * word + bytes[first + k] as u64;
    }
    word
}

// All words in turn.
pub(crate) fn pack_items(bytes: &[u8], words: &mut [u64])
    requires { ValidBytes (length bytes.now) bytes.now × (length words.old ≡ word_count (length bytes.now)) }
    ensures { words.new ≡ words_of (length bytes.now) (ones bytes.now) }
{
    for (w, word) in words.iter_mut().enumerate() {
        *word = packed_word(bytes, w);
    }
}
