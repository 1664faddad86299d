ghost use Rattle.std.specs.Prelude.{◌≡◌};
ghost use Rattle.text.specs.Scratch.{buffers_in};
ghost use Rattle.text.specs.Stages.{begun_with, Within, Takes};

use crate::line::Line;
use crate::order::{Sofar, may_stand};
use crate::store::{Arrays, store};
use model::limits::VERTICES;

// The sheet after the first line, which is a `V` line in range; none where it isn't.
pub fn begin(line: Line) -> Option<Sofar>
    ensures { result ≡ begun_with line }
{
    let Line::Vertices(vertices) = line else {
        return None;
    };
    if vertices == 0 || VERTICES < vertices as usize {
        return None;
    }
    Some(Sofar {
        vertices,
        edges: 0,
        last: line,
    })
}

// The sheet after one line more, which is put into the arrays where it may stand there; none where it may not.
pub fn take_line(sofar: Sofar, line: Line, arrays: &mut Arrays) -> Option<Sofar>
    requires { Within sofar }
    ensures { Takes sofar line (buffers_in arrays.old) result (buffers_in arrays.new) }
{
    if !may_stand(sofar, line, &arrays.opened) {
        return None;
    }
    Some(Sofar {
        vertices: sofar.vertices,
        edges: store(line, sofar.edges, arrays),
        last: line, // what may follow is asked of it
    })
}
