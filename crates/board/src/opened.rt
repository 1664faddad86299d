ghost use Rattle.std.specs.Prelude.{◌≡◌, [], ◌∷◌, ◌≤◌, length};
ghost use Rattle.model.specs.Board.{vertex_limit};
ghost use Rattle.model.specs.Refusals.{refusal_of, open_rule, lit_open, lit_open_rule};
ghost use Rattle.model.specs.Sums.{first_up_to};
ghost use Rattle.board.specs.Checks.{test_of, vertex_found};

use crate::bytes::first_above;
use crate::largest::largest_lesser;
use model::numbers::Vertex;
use model::refusal::Refusal;

// The first open vertex that is lit.
fn first_lit_open(opened: &[u8], syndrome: &[u8]) -> Option<Vertex>
    requires { (length opened.now ≤ vertex_limit) × (length syndrome.now ≡ length opened.now) }
    ensures { vertex_found result ≡ first_up_to (length opened.now) (lit_open opened.now syndrome.now) }
{
    if largest_lesser(opened, syndrome) == 0 {
        return None;
    }
    lit_open(opened, syndrome)
}

// The same, by a look at each vertex until one is open and lit.
fn lit_open(opened: &[u8], syndrome: &[u8]) -> Option<Vertex>
    requires { (length opened.now ≤ vertex_limit) × (length syndrome.now ≡ length opened.now) }
    ensures { vertex_found result ≡ first_up_to (length opened.now) (lit_open opened.now syndrome.now) }
{
    for (v, &open) in opened.iter().enumerate() {
        if (open == 1) & (syndrome[v] == 1) {
            return Some(Vertex(v as u16));
        }
    }
    None
}

// The test 16.
pub fn check_open_bytes(opened: &[u8]) -> Result<(), Refusal>
    requires { length opened.now ≤ vertex_limit }
    ensures { test_of result ≡ refusal_of (open_rule opened.now ∷ []) }
{
    if let Some(v) = first_above::<Vertex>(opened, 1) {
        return Err(Refusal::OpenByte(v));
    }
    Ok(())
}

// The tests 16 and 17, once the lengths have passed.
pub fn check_open(opened: &[u8], syndrome: &[u8]) -> Result<(), Refusal>
    requires { (length opened.now ≤ vertex_limit) × (length syndrome.now ≡ length opened.now) }
    ensures { test_of result ≡ refusal_of (open_rule opened.now ∷ lit_open_rule opened.now syndrome.now ∷ []) }
{
    check_open_bytes(opened)?;
    if let Some(v) = first_lit_open(opened, syndrome) {
        return Err(Refusal::LitOpen(v));
    }
    Ok(())
}
