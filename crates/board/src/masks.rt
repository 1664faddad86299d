// A set of at most 64 items as a mask, whose bit i says whether item i is in the set.
ghost use Rattle.std.specs.Prelude.{◌≡◌, ◌^◌, ◌≤◌, ◌<◌, length};
ghost use Rattle.model.specs.Sums.{bytes};
ghost use Rattle.model.specs.Words.{bit_of};

// Says whether item i is in a mask.
pub fn has(mask: usize, i: usize) -> bool
    requires { i < 64 }
    ensures { result ≡ bit_of mask i }
{
    (mask >> i) % 2 == 1
}

// The mask of item i alone.
pub fn alone(i: usize) -> usize
    requires { i < 64 }
    ensures { result ≡ 2 ^ i }
{
    1 << i
}

// The items of a mask as bytes: as many as the buffer has.
pub fn spread(mask: usize, filled: &mut [u8])
    requires { length filled.old ≤ 64 }
    ensures { filled.new ≡ bytes (length filled.old) (bit_of mask) }
{
    for (i, byte) in filled.iter_mut().enumerate() {
        *byte = has(mask, i) as u8;
    }
}
