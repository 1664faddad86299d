// An answer as one number (sheets are packed in crate `packed`): bits 0 to 7 the refusal's number or 0; where refused, bits 8 to 63 the
// place; else bits 8 to 39 a first and bits 40 to 63 a second value.
ghost use Rattle.std.specs.Prelude.{◌≡◌, ℕ};
ghost use Rattle.model.specs.Packing.{packed, packed_refusal, packed_answer, key_number, rounds_number, counts_number, words_number};
ghost use Rattle.model.specs.Packing.{count_number, fewest_number, packed_verdict, packed_forced};
ghost use Rattle.model.specs.Game.{byte_of};

use model::answers::{Counts, Forced, Key, Player, RoundsKey, Verdict, WordCounts};
use model::refusal::Refusal;

// What a call answers where it refuses nothing, as two values.
pub(crate) trait Values {
    // The number that has both.
    ghost number: { Self → ℕ };

    fn values(self) -> (usize, usize)
        ensures { packed result.0 result.1 ≡ number self };
}

fn pack(first: usize, second: usize) -> u64
    ensures { result ≡ packed first second }
{
    let low = (first % 4294967296) as u64;
    let high = (second % 16777216) as u64;
    256 * low + 1099511627776 * high
}

fn pack_refusal(refusal: Refusal) -> u64
    ensures { result ≡ packed_refusal refusal }
{
    let n = refusal.number() as u64;
    let at = (refusal.place() % 72057594037927936) as u64;
    n + 256 * at
}

// The answer of any call but the verdict.
pub(crate) fn as_number<T: Values>(answer: Result<T, Refusal>) -> u64
    ensures { result ≡ packed_answer T.number answer }
{
    match answer {
        Ok(value) => {
            let (first, second) = value.values();
            pack(first, second)
        }
        Err(refusal) => pack_refusal(refusal),
    }
}

// Growths, correction edges.
impl Values for Key {
    ghost number = { key_number };

    fn values(self) -> (usize, usize) {
        (self.growths, self.edges)
    }
}

// Rounds, correction edges.
impl Values for RoundsKey {
    ghost number = { rounds_number };

    fn values(self) -> (usize, usize) {
        (self.rounds, self.edges)
    }
}

// Vertices, edges.
impl Values for Counts {
    ghost number = { counts_number };

    fn values(self) -> (usize, usize) {
        (self.vertices, self.edges)
    }
}

// Words of the syndrome, words of the losses.
impl Values for WordCounts {
    ghost number = { words_number };

    fn values(self) -> (usize, usize) {
        (self.syndrome, self.loss)
    }
}

// A count of vertices, bytes or lit vertices, and 0.
impl Values for usize {
    ghost number = { count_number };

    fn values(self) -> (usize, usize) {
        (self, 0)
    }
}

// The fewest edges and 1, or 0 and 0 where there is no winding loop or no trap.
impl Values for Option<usize> {
    ghost number = { fewest_number };

    fn values(self) -> (usize, usize) {
        match self {
            Some(edges) => (edges, 1),
            None => (0, 0),
        }
    }
}

// The verdict's answer, which has its refusal in a case of its own: 1 off with the vertex, 2 same, 3 wound with the value.
pub(crate) fn verdict_as_number(verdict: Verdict) -> u64
    ensures { result ≡ packed_verdict verdict }
{
    match verdict {
        Verdict::Off(v) => pack(1, v.0 as usize),
        Verdict::Same => pack(2, 0),
        Verdict::Wound(x) => pack(3, x as usize),
        Verdict::Refused(refusal) => pack_refusal(refusal),
    }
}

// A player, as in a position: 1 Winder, 2 Blocker.
fn player_value(player: Player) -> usize
    ensures { result ≡ byte_of player }
{
    match player {
        Player::Winder => 1,
        Player::Blocker => 2,
    }
}

// Who can force the win: the player, and one more than the edge, or 0 where none is shown.
impl Values for Forced {
    ghost number = { packed_forced };

    fn values(self) -> (usize, usize) {
        match self {
            Forced::Taking(player, e) => (player_value(player), e.0 as usize + 1),
            Forced::Waiting(player) => (player_value(player), 0),
        }
    }
}
