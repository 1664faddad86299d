// Passes without a branch, which the compiler turns into vector code: the largest of what is lent. Where it keeps a rule, all of it does, and
// no place is looked for. They begin with 0, and not with the first item as an iterator's `max` does: that would leave, of a power of two,
// one item less for the vectors, and the last ones would go one by one.
ghost use Rattle.std.specs.Prelude.{◌≡◌, length};
ghost use Rattle.board.specs.Bounds.{Bounded, entry, lesser};

// The largest byte, or 0 of none.
pub fn largest_byte(bytes: &[u8]) -> u8
    ensures { Bounded (length bytes.now) (entry bytes.now) result }
{
    let mut top = 0;
    for &byte in bytes {
        top = top.max(byte);
    }
    top
}

// The largest end, or 0 of none.
pub fn largest_end(ends: &[u16]) -> u16
    ensures { Bounded (length ends.now) (entry ends.now) result }
{
    let mut top = 0;
    for &end in ends {
        top = top.max(end);
    }
    top
}

// The largest over all vertices of the lesser of two bytes: 0 where no vertex has both.
pub fn largest_lesser(bytes: &[u8], others: &[u8]) -> u8
    requires { length others.now ≡ length bytes.now }
    ensures { Bounded (length bytes.now) (lesser bytes.now others.now) result }
{
    let mut top = 0;
    for (i, &byte) in bytes.iter().enumerate() {
        top = top.max(byte.min(others[i]));
    }
    top
}
