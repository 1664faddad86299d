// The tests of what the stack's builder is lent: 11, 15, 3 and 7, in this order.
ghost use Rattle.std.specs.Prelude.{◌≡◌};
ghost use Rattle.model.specs.Refusals.{refusal_of, layer_rules, reading_rules, stack_refusal};
ghost use Rattle.board.specs.Checks.{test_of};
ghost use Rattle.stack.specs.Layers.{StackWithin};

use board::bytes::first_above;
use model::limits::VERTICES;
use model::numbers::Vertex;
use model::refusal::Refusal;
use torus::sides::is_built;

// The tests 11 and 15. No product of a side and a number of rounds is made before they have passed, as it might not fit.
fn check_layers(side: usize, rounds: usize) -> Result<(), Refusal>
    ensures { test_of result ≡ refusal_of (layer_rules side rounds) }
{
    if !is_built(side) {
        return Err(Refusal::TorusSide(side));
    }
    let layer = side * side;
    if !(1..=VERTICES / layer).contains(&rounds) {
        return Err(Refusal::RoundCount);
    }
    Ok(())
}

// The tests 3 and 7, once side and rounds are in range.
fn check_readings(
    side: usize,
    rounds: usize,
    readings: &[u8],
    ends: &[u16],
    marks: &[u8],
    syndrome: &[u8],
) -> Result<(), Refusal>
    requires { StackWithin side rounds }
    ensures { test_of result ≡ refusal_of
        (reading_rules side rounds readings.now ends.now marks.now syndrome.now) }
{
    let layer = side * side;
    let vertices = rounds * layer;
    let edges = 2 * vertices + (vertices - layer);
    if readings.len() != vertices
        || syndrome.len() != vertices
        || ends.len() != 2 * edges
        || marks.len() != edges
    {
        return Err(Refusal::BufferLength);
    }
    if let Some(v) = first_above::<Vertex>(readings, 1) {
        return Err(Refusal::SyndromeByte(v));
    }
    Ok(())
}

// What the stack's builder is lent: a reading byte for each stacked vertex, and three buffers to fill.
pub(crate) fn check_stack(
    side: usize,
    rounds: usize,
    readings: &[u8],
    ends: &[u16],
    marks: &[u8],
    syndrome: &[u8],
) -> Result<(), Refusal>
    ensures { test_of result ≡ stack_refusal side rounds readings.now ends.now marks.now syndrome.now }
{
    check_layers(side, rounds)?;
    check_readings(side, rounds, readings, ends, marks, syndrome)
}
