use crate::numbers::{Edge, Vertex};
use crate::refusal::Refusal;

// What the calls answer where they refuse nothing. Each call answers a `Result` of it, whose error is the refusal; the verdict alone is an enum
// that holds the refusal in a case of its own.

// A key: the growth count and the number of correction edges.
#[derive(Clone, Copy)]
pub struct Key {
    pub growths: usize,
    pub edges: usize,
}

// A key in rounds: the number of rounds, which is no growth count, and that of correction edges.
#[derive(Clone, Copy)]
pub struct RoundsKey {
    pub rounds: usize,
    pub edges: usize,
}

// The verdict on a handed-in set, with faces too: off with a vertex, same, wound with a mark value, or a refusal, decoding's own among them.
// No `Result`: that the verdict's enum holds the refusal's is a form that the product's scope names (docs/DECISIONS.md, "Forms").
#[derive(Clone, Copy)]
pub enum Verdict {
    Off(Vertex),
    Same,
    Wound(u8),
    Refused(Refusal),
}

// Both counts of a sheet, as the reader of a text and unpacking answer them.
#[derive(Clone, Copy)]
pub struct Counts {
    pub vertices: usize,
    pub edges: usize,
}

// How many words the syndrome and the losses fill, as packing answers.
#[derive(Clone, Copy)]
pub struct WordCounts {
    pub syndrome: usize,
    pub loss: usize,
}

// The two who play.
#[derive(Clone, Copy, PartialEq, Eq)]
pub enum Player {
    Winder,
    Blocker,
}

// Who can force the win from a position: the player to move, by taking an edge, the smallest that keeps the win; or a player who is shown
// no edge, because the other is to move or the game is over.
#[derive(Clone, Copy)]
pub enum Forced {
    Taking(Player, Edge),
    Waiting(Player),
}
