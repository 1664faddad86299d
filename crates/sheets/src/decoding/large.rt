// Large boards and sets.
ghost use Rattle.std.specs.Prelude.{◌≤◌};

// Edge e joins e and e + 1 + e / 1,024, around 1,024 vertices. So 1,023 edges are a path, and 4,096 join each vertex to its eight nearest.
pub(crate) fn around(ends: &mut [u16]) {
    let (pairs, _) = ends.as_chunks_mut::<2>();
    for (e, pair) in pairs.iter_mut().enumerate() {
        let first = e % 1024;
        let second = (e + 1 + e / 1024) % 1024;
        pair[0] = first as u16;
        pair[1] = second as u16;
    }
}

// The set of every step-th number.
pub(crate) fn every(step: usize, bytes: &mut [u8])
    requires { (1 ≤ step) × (step ≤ 1024) }
{
    for (i, byte) in bytes.iter_mut().enumerate() {
        if i % step == 0 {
            *byte = 1;
        }
    }
}
