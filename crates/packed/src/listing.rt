// The lit vertices of a packed syndrome: how many there are, and which.
ghost use Rattle.std.specs.Prelude.{◌≡◌, ◌+◌, ◌*◌, ◌≤◌, length};
ghost use Rattle.model.specs.Board.{vertex_limit};
ghost use Rattle.model.specs.Words.{lit_total};
ghost use Rattle.packed.specs.Listing.{bits_from, items_in};
ghost use Rattle.packed.specs.Storing.{Stored};

use crate::words::WORD;

// The number of set bits in all words.
pub(crate) fn set_bits(words: &[u64]) -> usize
    requires { length words.now ≤ vertex_limit }
    ensures { result ≡ lit_total words.now }
{
    words.iter().map(|word| word.count_ones() as usize).sum()
}

// The vertices of one word, from set bit to set bit: the lowest is found and cleared until none is left. They go to the front of the list,
// and the answer says how many there are; `first` is the vertex of bit 0.
fn list_word(word: u64, first: usize, list: &mut [u16]) -> usize
    requires { (first ≤ vertex_limit) × (length (bits_from 64 first word) ≤ length list.old) }
    ensures { Stored (bits_from 64 first word) list.old 0 list.new result }
{
    let mut rest = word;
    let mut at = 0;
    while rest != 0 {
        let k = rest.trailing_zeros();
        let vertex = first + k as usize;
        list[at] = vertex as u16;
        rest -= 1u64 << k;
        at += 1;
    }
    at
}

// The vertices of all words, to the front of the list.
pub(crate) fn list_bits(words: &[u64], list: &mut [u16]) -> usize
    requires { (64 * length words.now ≤ vertex_limit) × (lit_total words.now ≤ length list.old) }
    ensures { Stored (items_in (length words.now) words.now) list.old 0 list.new result }
{
    let mut listed = 0;
    for (w, word) in words.iter().enumerate() {
        listed += list_word(*word, WORD * w, &mut list[listed..]);
    }
    listed
}
