// The decode program: a text on standard input, its report on standard output. A read that fails counts as the end of the text.
#![tactic(auto)]

ghost use Rattle.std.specs.Prelude.{◌≤◌, length};

use model::limits::TEXT;
use report::{LONGEST, report};
use std::io;
use std::io::{Read, Stdin};

// Reads until the buffer is full, the input ends or a read fails, and answers with how many bytes are at its start.
fn read_full(input: &mut Stdin, text: &mut [u8]) -> usize
    ensures { result ≤ length text.new }
{
    let mut done = 0;
    // No index is counted: each read says how many bytes it gave. `read_exact` doesn't say how many there were where the input ends early.
    while done < text.len() {
        match input.read(&mut text[done..]) {
            Ok(0) | Err(_) => break,
            Ok(n) => done += n,
        }
    }
    done
}

fn main(rt: HostRuntime) -> io::Result<()> {
    // One byte more than the longest text that is read: what does not fit is too long.
    let mut text = [0u8; TEXT + 1];
    let mut out = [0u8; LONGEST];
    let read = read_full(&mut rt.stdin(), &mut text);
    let length = report(&text[..read], &mut out);
    rt.write_all(&out[..length])
}
