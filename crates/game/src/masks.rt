// A position of the game as the search keeps it.
ghost use Rattle.std.specs.Prelude.{◌≡◌, ◌≤◌, eqb, length, get_or};
ghost use Rattle.model.specs.Words.{number_with};
ghost use Rattle.model.specs.Refusals.{game_limit};

// Bit e of `held` says that edge e is Winder's, bit e of `free` that it is free; `left` is the number of free edges.
#[derive(Clone, Copy)]
pub struct Masks {
    pub held: usize,
    pub free: usize,
    pub left: usize,
}

// The edges whose byte has this value, as a mask: the last one first.
pub(crate) fn mask(position: &[u8], value: u8) -> usize
    requires { length position.now ≤ game_limit }
    ensures { result ≡ number_with (length position.now) (λ e. eqb (get_or position.now e 0) value) }
{
    let mut number = 0;
    for k in (0..position.len()).rev() {
        number = 2 * number + usize::from(position[k] == value);
    }
    number
}
