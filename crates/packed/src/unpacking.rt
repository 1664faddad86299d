// A byte for each item of packed words.
ghost use Rattle.std.specs.Prelude.{◌≡◌, ◌*◌, ◌<◌, length, replicate};
ghost use Rattle.model.specs.Words.{word_count, bytes_in};
ghost use Rattle.packed.specs.Unpacking.{WordUnpacked};

use crate::words::{WORD, items_in};

// The bytes of the items of word w: 64, or as many as are left.
fn unpack_word(word: u64, w: usize, bytes: &mut [u8])
    requires { 64 * w < length bytes.old }
    ensures { WordUnpacked word w bytes.old bytes.new }
{
    let first = WORD * w;
    for k in 0..items_in(bytes.len(), w) {
        bytes[first + k] = ((word >> k) % 2) as u8;
    }
}

// The bytes of all items, whatever stood in them.
pub(crate) fn unpack_items(words: &[u64], bytes: &mut [u8])
    requires { length words.now ≡ word_count (length bytes.old) }
    ensures { bytes.new ≡ bytes_in (length bytes.old) words.now }
{
    bytes.fill(0);
    unpack_in_zeros(words, bytes);
}

// The same in bytes that are all 0: for a word without a set bit nothing is to be done.
pub(crate) fn unpack_in_zeros(words: &[u64], bytes: &mut [u8])
    requires words_len { length words.now ≡ word_count (length bytes.old) }
    requires bytes_value { bytes.old ≡ replicate (length bytes.old) 0 }
    ensures { bytes.new ≡ bytes_in (length bytes.old) words.now }
{
    for (w, word) in words.iter().enumerate() {
        if *word != 0 {
            unpack_word(*word, w, bytes);
        }
    }
}
