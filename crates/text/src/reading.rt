ghost use Rattle.model.specs.TextOutcomes.{buffers_of, Reads};
ghost use Rattle.text.specs.Scratch.{buffers_in, Sized, Clear, ReadsInto};

use crate::reader::Lines;
use crate::stage::{begin, take_line};
use crate::store::Arrays;
use board::copy::copy_front;
use model::answers::Counts;
use model::limits::{EDGES, ENDS, TEXT, VERTICES};
use model::refusal::Refusal;

// Reads a text line by line into arrays, of which those of the open bytes and of the syndrome are all 0. The first line begins the sheet,
// and each later one is taken onto it; a line that doesn't read, or may not stand there, ends the reading.
fn read_lines(text: &[u8], arrays: &mut Arrays) -> Result<Counts, Refusal>
    requires sized { Sized (buffers_in arrays.old) }
    requires clear { Clear (buffers_in arrays.old) }
    ensures { ReadsInto text.now result (buffers_in arrays.new) }
{
    let mut lines = Lines::of(text);
    let Some(first) = lines.next_line() else {
        return Err(Refusal::MalformedLine(lines.number));
    };
    let Some(mut sofar) = begin(first.line) else {
        return Err(Refusal::MalformedLine(lines.number));
    };
    lines = lines.moved_on(first.next, first.number);
    while lines.at < text.len() {
        let Some(read) = lines.next_line() else {
            return Err(Refusal::MalformedLine(lines.number));
        };
        let Some(sheet) = take_line(sofar, read.line, arrays) else {
            return Err(Refusal::MalformedLine(lines.number));
        };
        sofar = sheet;
        lines = lines.moved_on(read.next, read.number);
    }
    Ok(Counts {
        vertices: sofar.vertices as usize,
        edges: sofar.edges as usize,
    })
}

// Reads a text into the lent buffers and answers with both counts. It is read into arrays first, and then as many entries are copied as
// were read, none where it is refused.
pub fn read(
    text: &[u8],
    ends: &mut [u16],
    marks: &mut [u8],
    opened: &mut [u8],
    syndrome: &mut [u8],
    loss: &mut [u8],
) -> Result<Counts, Refusal>
    ensures { Reads text.now (buffers_of ends.old marks.old opened.old syndrome.old loss.old)
        result (buffers_of ends.new marks.new opened.new syndrome.new loss.new) }
{
    // `&`, so that the five tests are one value, about which the proof has one fact; `&&` would be five branches.
    let fit = (ends.len() == ENDS)
        & (marks.len() == EDGES)
        & (opened.len() == VERTICES)
        & (syndrome.len() == VERTICES)
        & (loss.len() == EDGES);
    if !fit {
        return Err(Refusal::BufferLength);
    }
    if TEXT < text.len() {
        return Err(Refusal::TextLength);
    }
    let mut new = Arrays {
        ends: [0; ENDS],
        marks: [0; EDGES],
        opened: [0; VERTICES],
        syndrome: [0; VERTICES],
        loss: [0; EDGES],
    };
    let reading = read_lines(text, &mut new);
    let counts = reading?; // a refusal fills nothing
    let Counts { vertices, edges } = counts;
    copy_front(&new.ends, 2 * edges, ends);
    copy_front(&new.marks, edges, marks);
    copy_front(&new.opened, vertices, opened);
    copy_front(&new.syndrome, vertices, syndrome);
    copy_front(&new.loss, edges, loss);
    Ok(counts)
}
