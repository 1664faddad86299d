// The exclusive or of the marks of two sets together, bit by bit.
ghost use Rattle.std.specs.Prelude.{◌≡◌, ◌≤◌, ◌&&◌, length, eqb};
ghost use Rattle.model.specs.Board.{ValidBytes};
ghost use Rattle.model.specs.Sums.{◌⊕◌, bit, ones};
ghost use Rattle.model.specs.Winding.{together};
ghost use Rattle.verdict.specs.CrossingParities.{crossed_by};

// A parity after one more edge, with its bytes in the two sets and 1 where it crosses the line.
fn counted(parity: u8, handed: u8, correction: u8, crosses: u8) -> u8
    requires { (parity ≤ 1) × (handed ≤ 1) × (correction ≤ 1) }
    ensures { result ≡ bit (eqb parity 1 ⊕ ((eqb handed 1 ⊕ eqb correction 1) && eqb crosses 1)) }
{
    if crosses == 1 {
        (parity + handed + correction) % 2
    } else {
        parity
    }
}

// Bit 0 says that the two sets together cross line A an odd number of times, bit 1 line B.
pub(crate) fn crossings(marks: &[u8], handed: &[u8], correction: &[u8]) -> u8
    requires { ValidBytes (length marks.now) handed.now × ValidBytes (length marks.now) correction.now }
    ensures { result ≡ crossed_by marks.now (together (ones handed.now) (ones correction.now)) }
{
    let mut a: u8 = 0;
    let mut b: u8 = 0;
    for (e, mark) in marks.iter().enumerate() {
        a = counted(a, handed[e], correction[e], *mark % 2);
        b = counted(b, handed[e], correction[e], *mark / 2 % 2);
    }
    a + 2 * b
}
