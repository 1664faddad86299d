// The tests of what the verdict with faces is lent: 11, 3, 7, 8 and 9, in this order.
ghost use Rattle.std.specs.Prelude.{◌≡◌};
ghost use Rattle.model.specs.Refusals.{refusal_of, torus_byte_rules, faces_refusal};
ghost use Rattle.board.specs.Checks.{test_of};
ghost use Rattle.torus.specs.Sides.{SideWithin};

use board::bytes::first_above;
use board::tests::check_bytes;
use model::numbers::Edge;
use model::refusal::Refusal;
use torus::sides::is_built;

// The tests 3 and 7 to 9, once the side is in range.
fn check_torus_bytes(
    side: usize,
    syndrome: &[u8],
    loss: &[u8],
    handed: &[u8],
    faces: &[u8],
) -> Result<(), Refusal>
    requires { SideWithin side }
    ensures { test_of result ≡ refusal_of
        (torus_byte_rules side syndrome.now loss.now handed.now faces.now) }
{
    let vertices = side * side;
    let edges = 2 * vertices;
    if syndrome.len() != vertices
        || faces.len() != vertices
        || loss.len() != edges
        || handed.len() != edges
    {
        return Err(Refusal::BufferLength);
    }
    check_bytes(syndrome, loss)?;
    if let Some(e) = first_above::<Edge>(handed, 1) {
        return Err(Refusal::HandedByte(e));
    }
    Ok(())
}

// The side comes first: no length is held to a side that is out of range.
pub(crate) fn check_faces(
    side: usize,
    syndrome: &[u8],
    loss: &[u8],
    handed: &[u8],
    faces: &[u8],
) -> Result<(), Refusal>
    ensures { test_of result ≡ faces_refusal side syndrome.now loss.now handed.now faces.now }
{
    if !is_built(side) {
        return Err(Refusal::TorusSide(side));
    }
    check_torus_bytes(side, syndrome, loss, handed, faces)
}
