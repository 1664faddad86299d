ghost use Rattle.std.specs.Prelude.{◌≡◌};
ghost use Rattle.model.specs.Refusals.{number_of, place_of};

use crate::numbers::{Edge, Vertex, Word};

// Why a call refuses, with the place at which the rule is broken. The order is that of the numbers, from 1; no refusal has number 5.
#[derive(Clone, Copy)]
pub enum Refusal {
    VertexCount,
    EndCount,
    BufferLength,
    EndRange(Edge),
    MarkRange(Edge),
    SyndromeByte(Vertex),
    LossByte(Edge),
    HandedByte(Edge),
    NoCorrection(Vertex),
    TorusSide(usize),
    TextLength,
    MalformedLine(usize),
    TextBuffer,
    RoundCount,
    OpenByte(Vertex),
    LitOpen(Vertex),
    PlanarSide(usize),
    PastLast(Word),
    GameEdges,
    PositionByte(Edge),
    MoveCount,
    TrapEdges,
}

impl Refusal {
    // Its number.
    pub fn number(self) -> u8
        ensures { result ≡ number_of self }
    {
        match self {
            Refusal::VertexCount => 1,
            Refusal::EndCount => 2,
            Refusal::BufferLength => 3,
            Refusal::EndRange(_) => 4,
            Refusal::MarkRange(_) => 6,
            Refusal::SyndromeByte(_) => 7,
            Refusal::LossByte(_) => 8,
            Refusal::HandedByte(_) => 9,
            Refusal::NoCorrection(_) => 10,
            Refusal::TorusSide(_) => 11,
            Refusal::TextLength => 12,
            Refusal::MalformedLine(_) => 13,
            Refusal::TextBuffer => 14,
            Refusal::RoundCount => 15,
            Refusal::OpenByte(_) => 16,
            Refusal::LitOpen(_) => 17,
            Refusal::PlanarSide(_) => 18,
            Refusal::PastLast(_) => 19,
            Refusal::GameEdges => 20,
            Refusal::PositionByte(_) => 21,
            Refusal::MoveCount => 22,
            Refusal::TrapEdges => 23,
        }
    }

    // Its place: an edge, a vertex, a side, a line, a word, or 0 where there is none.
    pub fn place(self) -> usize
        ensures { result ≡ place_of self }
    {
        match self {
            Refusal::VertexCount
            | Refusal::EndCount
            | Refusal::BufferLength
            | Refusal::TextLength
            | Refusal::TextBuffer
            | Refusal::RoundCount
            | Refusal::GameEdges
            | Refusal::MoveCount
            | Refusal::TrapEdges => 0,
            Refusal::EndRange(e)
            | Refusal::MarkRange(e)
            | Refusal::LossByte(e)
            | Refusal::HandedByte(e)
            | Refusal::PositionByte(e) => e.0 as usize,
            Refusal::SyndromeByte(v)
            | Refusal::NoCorrection(v)
            | Refusal::OpenByte(v)
            | Refusal::LitOpen(v) => v.0 as usize,
            Refusal::TorusSide(side) | Refusal::PlanarSide(side) => side,
            Refusal::MalformedLine(line) => line,
            Refusal::PastLast(word) => word.0 as usize,
        }
    }
}
