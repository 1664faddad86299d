// How many bytes of a buffer hold a given value.
ghost use Rattle.std.specs.Prelude.{◌≡◌, length, get_or, eqb};
ghost use Rattle.model.specs.Sums.{count_up_to};

// The number of places that hold the value.
pub fn count(bytes: &[u8], value: u8) -> usize
    ensures { result ≡ count_up_to (length bytes.now) (λ i. eqb (get_or bytes.now i 0) value) }
{
    let mut total = 0;
    for &byte in bytes {
        if byte == value {
            total += 1;
        }
    }
    total
}
