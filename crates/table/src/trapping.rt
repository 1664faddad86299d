// The search for a trap under its plain C name; what `number`, `outcome` and `sound` say is told at the head of `lib.rt`.
ghost use Rattle.std.specs.Prelude.{◌≡◌};
ghost use Rattle.model.specs.Board.{board_of};
ghost use Rattle.model.specs.TrapOutcomes.{trap_answer, SetsTrap, TrapsSoundly};
ghost use Rattle.model.specs.Packing.{packed_trap, unpacked_trap};

use crate::packing::as_number;
use model::lent::Board;

// A trap of fewest edges in `set`: its edges and 1, or 0 and 0 where there is none.
#[unsafe(no_mangle)]
pub extern "C" fn surface_trap(
    vertices: usize,
    ends: &[u16],
    marks: &[u8],
    opened: &[u8],
    loss: &[u8],
    set: &mut [u8],
) -> u64
    ensures number { result ≡ packed_trap (trap_answer (board_of vertices ends.now marks.now opened.now) loss.now set.old) }
    ensures outcome { SetsTrap (board_of vertices ends.now marks.now opened.now) loss.now set.old (unpacked_trap result) set.new }
    ensures sound { TrapsSoundly (board_of vertices ends.now marks.now opened.now) loss.now set.old (unpacked_trap result) set.new }
{
    let board = Board {
        vertices,
        ends,
        marks,
        opened,
    };
    as_number(trap::trap(board, loss, set))
}
