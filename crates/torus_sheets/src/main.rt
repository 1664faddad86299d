// Tori as the builder writes them: the sides 1, 2 and 3 edge by edge, 32 by its sums, and every refusal with the buffers it left.
#![tactic(auto)]

ghost use Rattle.std.specs.Prelude.{◌≤◌};

use std::io;

fn main(rt: HostRuntime) -> io::Result<()> {
    trial(&rt, 0, 4, 2, false)?;
    trial(&rt, 0, 0, 0, false)?;
    trial(&rt, 33, 4096, 2048, false)?;
    trial(&rt, 33, 1, 1, false)?;
    trial(&rt, 1, 3, 2, false)?;
    trial(&rt, 1, 5, 2, false)?;
    trial(&rt, 1, 4, 1, false)?;
    trial(&rt, 1, 4, 3, false)?;
    trial(&rt, 2, 15, 8, false)?;
    trial(&rt, 2, 17, 8, false)?;
    trial(&rt, 2, 16, 7, false)?;
    trial(&rt, 2, 16, 9, false)?;
    trial(&rt, 1, 4, 2, true)?;
    trial(&rt, 2, 16, 8, true)?;
    trial(&rt, 3, 36, 18, true)?;
    trial(&rt, 32, 4096, 2048, false)
}

// A torus of that side in buffers of those lengths, full of sevens before.
fn trial(rt: &impl Print, side: usize, ends: usize, marks: usize, listed: bool) -> io::Result<()>
    requires { (ends ≤ 4096) × (marks ≤ 2048) }
{
    let mut first = [7u16; 4096];
    let mut second = [7u8; 2048];
    show(rt, side, &mut first[..ends], &mut second[..marks], listed)
}

// One line: the side, the answer (V and the vertex count, or N with number and place), and the sums of both buffers; then, where
// asked for, the edges.
fn show(
    rt: &impl Print,
    side: usize,
    ends: &mut [u16],
    marks: &mut [u8],
    listed: bool,
) -> io::Result<()> {
    print(rt, side as u64, b"\t")?;
    match torus::torus(side, ends, marks) {
        Ok(vertices) => {
            rt.write_all(b"V\t")?;
            print(rt, vertices as u64, b"\t")?;
        }
        Err(refusal) => {
            rt.write_all(b"N\t")?;
            print(rt, refusal.number() as u64, b"\t")?;
            print(rt, refusal.place() as u64, b"\t")?;
        }
    }
    print(rt, sum(ends), b"\t")?;
    print(rt, sum(marks), b"\n")?;
    if listed {
        list(rt, ends, marks)?;
    }
    Ok(())
}

fn print(rt: &impl Print, n: u64, after: &[u8]) -> io::Result<()> {
    print!(rt; "{n}")?;
    rt.write_all(after)
}

// The sum of ends or of marks.
fn sum<T: Copy + Into<u64>>(numbers: &[T]) -> u64 {
    let mut sum: u64 = 0;
    for x in numbers {
        sum = sum.wrapping_add((*x).into());
    }
    sum
}

// A line for each edge: its two ends and its mark.
fn list(rt: &impl Print, ends: &[u16], marks: &[u8]) -> io::Result<()> {
    let (pairs, _) = ends.as_chunks::<2>();
    for (pair, mark) in pairs.iter().zip(marks) {
        edge(rt, pair[0], pair[1], *mark)?;
    }
    Ok(())
}

fn edge(rt: &impl Print, first: u16, second: u16, mark: u8) -> io::Result<()> {
    print(rt, first as u64, b"\t")?;
    print(rt, second as u64, b"\t")?;
    print(rt, mark as u64, b"\n")
}
