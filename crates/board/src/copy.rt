ghost use Rattle.std.specs.Prelude.{◌≡◌, ◌≤◌, ◌++◌, length, take, drop};

// Copies the first entries of one buffer over those of another; the entries past them stay.
pub fn copy_front<T: Copy>(from: &[T], count: usize, to: &mut [T])
    requires { (count ≤ length from.now) × (count ≤ length to.old) }
    ensures { to.new ≡ take count from.now ++ drop count to.old }
{
    to[..count].copy_from_slice(&from[..count]);
}
