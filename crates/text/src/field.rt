ghost use Rattle.std.specs.Prelude.{◌≡◌, drop};
ghost use Rattle.model.specs.Text.{tab};
ghost use Rattle.text.specs.Pieces.{up_to};
ghost use Rattle.text.specs.FieldReadings.{digit_read, field_read};

use model::limits::EDGES;

// The byte that parts two fields.
pub const TAB: u8 = b'\t';

pub const DIGIT_ZERO: u8 = b'0';

// No field of a text is above the largest edge count: a larger number breaks every range.
const LARGEST: u16 = EDGES as u16;

// A field's number and the position after it, where its tab or the line's end stands.
#[derive(Clone, Copy)]
pub struct Field {
    pub value: u16,
    pub end: usize,
}

// A byte as a digit.
#[tactic(auto, unfolding(crate::specs::FieldReadings::digit_read))]
fn digit_of(byte: u8) -> Option<u16>
    ensures { result ≡ digit_read byte }
{
    match byte {
        b'0'..=b'9' => Some(u16::from(byte - DIGIT_ZERO)),
        _ => None,
    }
}

// The field of a line that begins at a position: base ten without leading zeros.
#[tactic(auto, using(crate::proofs::FieldReadingLaws::a_digit, crate::proofs::FieldReadingLaws::begins, crate::proofs::FieldReadingLaws::begins_not, crate::proofs::FieldReadingLaws::goes_on, crate::proofs::FieldReadingLaws::goes_on_not, crate::proofs::FieldReadingLaws::after_zero, crate::proofs::FieldReadingLaws::ends_at_tab, crate::proofs::FieldReadingLaws::ends_at_end, crate::proofs::FieldReadingLaws::nothing_at_end))]
pub fn field_at(line: &[u8], at: usize) -> Option<Field>
    ensures { result ≡ field_read at (up_to tab (drop at line.now)) }
{
    let first = line.get(at)?;
    let mut value = digit_of(*first)?;
    for end in at + 1..line.len() {
        let byte = line[end];
        if byte == TAB {
            return Some(Field { value, end });
        }
        let digit = digit_of(byte)?;
        if value == 0 {
            return None;
        }
        value = 10 * value + digit;
        if LARGEST < value {
            return None;
        }
    }
    Some(Field {
        value,
        end: line.len(),
    })
}
