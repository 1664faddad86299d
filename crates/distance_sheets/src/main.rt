// Distances: the marked sheets' boards, parallel edges, loop edges, boards without a winding loop, tori, rings up to the limits, and
// every refusal with the buffer it left.
#![tactic(auto)]

ghost use Rattle.std.specs.Prelude.{◌≤◌, length};

use model::lent::Board;
use std::io;

fn main(rt: HostRuntime) -> io::Result<()> {
    marked_boards(&rt)?;
    parallel_edges(&rt)?;
    loop_edges(&rt)?;
    several_loops(&rt)?;
    no_winding_loop(&rt)?;
    tori(&rt)?;
    rings(&rt)?;
    counts_refused(&rt)?;
    edges_refused(&rt)
}

// The ring, m8 and m9.
fn marked_boards(rt: &impl Print) -> io::Result<()> {
    board(rt, b"ring", 4, b"01122330", b"0001")?;
    board(rt, b"m8", 2, b"0101", b"01")?;
    board(rt, b"m9", 1, b"", b"")
}

// Two and three edges between the same ends, with every pair of marks other than 0.
fn parallel_edges(rt: &impl Print) -> io::Result<()> {
    board(rt, b"1 2", 2, b"0110", b"12")?;
    board(rt, b"1 3", 2, b"0110", b"13")?;
    board(rt, b"2 3", 2, b"0110", b"23")?;
    board(rt, b"3 3", 2, b"0101", b"33")?;
    board(rt, b"1 2 3", 2, b"010110", b"123")?;
    board(rt, b"2 2 3", 2, b"010110", b"223")
}

// A marked loop edge is a winding loop by itself, wherever it stands; one without a mark shortens nothing.
fn loop_edges(rt: &impl Print) -> io::Result<()> {
    board(rt, b"loop 0", 1, b"00", b"0")?;
    board(rt, b"loop 3", 1, b"00", b"3")?;
    board(rt, b"two loops", 1, b"0000", b"22")?;
    board(rt, b"later loop", 4, b"0112233022", b"00013")?;
    board(rt, b"unmarked loop", 4, b"0112233022", b"00010")?;
    board(rt, b"apart loop", 3, b"011022", b"012")
}

// The shortest loop is not at the first vertex, or is a part of its own, or shares edges with one that does not wind.
fn several_loops(rt: &impl Print) -> io::Result<()> {
    board(rt, b"later", 5, b"011223303443", b"000102")?;
    board(rt, b"apart", 7, b"01122330455664", b"1000233")?;
    board(rt, b"chord", 4, b"0112233002", b"00200")?;
    board(rt, b"theta", 3, b"01120202", b"3210")
}

// Trees, a triangle whose marks cancel, and a lone vertex beside an edge.
fn no_winding_loop(rt: &impl Print) -> io::Result<()> {
    board(rt, b"path", 4, b"011223", b"000")?;
    board(rt, b"marked path", 4, b"011223", b"123")?;
    board(rt, b"triangle", 3, b"011220", b"123")?;
    board(rt, b"edge", 3, b"02", b"3")
}

// Tori of side 1 to 8, and of the largest side.
fn tori(rt: &impl Print) -> io::Result<()> {
    sheet(rt, Filling::Torus, 1, 4, 2, 2)?;
    sheet(rt, Filling::Torus, 2, 16, 8, 8)?;
    sheet(rt, Filling::Torus, 3, 36, 18, 18)?;
    sheet(rt, Filling::Torus, 4, 64, 32, 32)?;
    sheet(rt, Filling::Torus, 5, 100, 50, 50)?;
    sheet(rt, Filling::Torus, 6, 144, 72, 72)?;
    sheet(rt, Filling::Torus, 7, 196, 98, 98)?;
    sheet(rt, Filling::Torus, 8, 256, 128, 128)?;
    sheet(rt, Filling::Torus, 32, 4096, 2048, 2048)
}

// Rings with one edge, or as many as there may be, between neighbours.
fn rings(rt: &impl Print) -> io::Result<()> {
    sheet(rt, Filling::Ring, 2, 8192, 4096, 4096)?;
    sheet(rt, Filling::Ring, 3, 6, 3, 3)?;
    sheet(rt, Filling::Ring, 1024, 2048, 1024, 1024)?;
    sheet(rt, Filling::Ring, 1024, 8192, 4096, 4096)
}

// Numbers 1, 2 and 3 on both sides of their limits. All ends and marks are 0: what passes these tests has no edges but loop edges, none
// of them marked.
fn counts_refused(rt: &impl Print) -> io::Result<()> {
    sheet(rt, Filling::Zeros, 0, 0, 0, 0)?;
    sheet(rt, Filling::Zeros, 1, 0, 0, 0)?;
    sheet(rt, Filling::Zeros, 1024, 0, 0, 0)?;
    sheet(rt, Filling::Zeros, 1025, 0, 0, 0)?;
    sheet(rt, Filling::Zeros, 1, 1, 0, 0)?;
    sheet(rt, Filling::Zeros, 1024, 8192, 4096, 4096)?;
    sheet(rt, Filling::Zeros, 1024, 8194, 4097, 4097)?;
    sheet(rt, Filling::Zeros, 1025, 8194, 4097, 4097)?;
    sheet(rt, Filling::Zeros, 2, 4, 1, 2)?;
    sheet(rt, Filling::Zeros, 2, 4, 3, 2)?;
    sheet(rt, Filling::Zeros, 2, 4, 2, 1)?;
    sheet(rt, Filling::Zeros, 2, 4, 2, 3)
}

// Numbers 4 and 6: the smallest number wins, then the first edge. Equal ends break no rule of their own.
fn edges_refused(rt: &impl Print) -> io::Result<()> {
    board(rt, b"first end", 3, b"013299", b"004")?;
    board(rt, b"second end", 3, b"012213", b"040")?;
    board(rt, b"equal", 3, b"012211", b"400")?;
    board(rt, b"equal outside", 3, b"013311", b"400")?;
    board(rt, b"mark", 3, b"011220", b"394")?;
    board(rt, b"last mark", 3, b"011220", b"304")
}

// A small board: a digit for each end and for each mark.
fn board(rt: &impl Print, name: &[u8], vertices: usize, ends: &[u8], marks: &[u8]) -> io::Result<()>
    requires { (length ends.now ≤ 16) × (length marks.now ≤ 8) }
{
    let mut first = [0u16; 16];
    let mut second = [0u8; 8];
    let mut third = [7u8; 8];
    let e = ends.len();
    let m = marks.len();
    show_read(
        rt,
        name,
        vertices,
        ends,
        marks,
        &mut first[..e],
        &mut second[..m],
        &mut third[..m],
    )
}

fn show_read(
    rt: &impl Print,
    name: &[u8],
    vertices: usize,
    end_digits: &[u8],
    mark_digits: &[u8],
    ends: &mut [u16],
    marks: &mut [u8],
    shown: &mut [u8],
) -> io::Result<()> {
    read_ends(end_digits, ends);
    read_marks(mark_digits, marks);
    show(rt, name, vertices, ends, marks, shown)
}

fn read_ends(digits: &[u8], ends: &mut [u16]) {
    for (end, digit) in ends.iter_mut().zip(digits) {
        *end = u16::from(*digit) % 16;
    }
}

fn read_marks(digits: &[u8], marks: &mut [u8]) {
    for (mark, digit) in marks.iter_mut().zip(digits) {
        *mark = *digit % 16;
    }
}

// What the ends and marks of a sheet are filled with.
#[derive(Clone, Copy)]
enum Filling {
    Zeros,
    Ring,
    Torus,
}

// A board in buffers of those lengths, and a buffer full of sevens for the loop. n is the vertex count, of a torus the side.
fn sheet(
    rt: &impl Print,
    filling: Filling,
    n: usize,
    ends: usize,
    marks: usize,
    shown: usize,
) -> io::Result<()>
    requires { (n ≤ 1025) × (ends ≤ 8194) × (marks ≤ 4097) × (shown ≤ 4097) }
{
    let mut first = [0u16; 8194];
    let mut second = [0u8; 4097];
    let mut third = [7u8; 4097];
    show_filled(
        rt,
        filling,
        n,
        &mut first[..ends],
        &mut second[..marks],
        &mut third[..shown],
    )
}

fn show_filled(
    rt: &impl Print,
    filling: Filling,
    n: usize,
    ends: &mut [u16],
    marks: &mut [u8],
    shown: &mut [u8],
) -> io::Result<()>
    requires { n ≤ 1025 }
{
    match filling {
        Filling::Zeros => show(rt, b"zeros", n, ends, marks, shown),
        Filling::Ring => {
            fill_ring(n, ends, marks);
            show(rt, b"ring", n, ends, marks, shown)
        }
        Filling::Torus => {
            let Ok(vertices) = torus::torus(n, ends, marks) else {
                return Ok(());
            };
            show(rt, b"torus", vertices, ends, marks, shown)
        }
    }
}

// The edges go round, each from a vertex to the next, and cross line A where they come to vertex 0.
fn fill_ring(vertices: usize, ends: &mut [u16], marks: &mut [u8])
    requires { vertices ≤ 1025 }
{
    let mut v = 0;
    let (pairs, _) = ends.as_chunks_mut::<2>();
    for (pair, mark) in pairs.iter_mut().zip(marks) {
        let next = after(v, vertices);
        pair[0] = v as u16;
        pair[1] = next as u16;
        *mark = u8::from(next == 0);
        v = next;
    }
}

// The next vertex of a ring.
fn after(v: usize, vertices: usize) -> usize
    requires { (v ≤ 1025) × (vertices ≤ 1025) }
    ensures { result ≤ 1025 }
{
    let next = v + 1;
    if next < vertices { next } else { 0 }
}

// One line: the name and the vertex count; D with the distance, or N with number and place; how many bytes of the buffer are 1,
// 0 and 7; and W where the marks of those that are 1 do not cancel.
fn show<'a>(
    rt: &impl Print,
    name: &[u8],
    vertices: usize,
    ends: &'a [u16],
    marks: &'a [u8],
    shown: &mut [u8],
) -> io::Result<()> {
    rt.write_all(name)?;
    print(rt, b"\t", vertices as u64)?;
    let zeros = [0u8; MOST];
    let n = unopened(vertices);
    let board = Board {
        vertices,
        ends,
        marks,
        opened: &zeros[..n],
    };
    match distance::distance(board, shown) {
        Ok(Some(edges)) => {
            print(rt, b"\tD\t", edges as u64)?;
        }
        Ok(None) => {
            rt.write_all(b"\tD\t-")?;
        }
        Err(refusal) => {
            print(rt, b"\tN\t", refusal.number() as u64)?;
            print(rt, b"\t", refusal.place() as u64)?;
        }
    }
    print(rt, b"\t", count(shown, 1))?;
    print(rt, b"\t", count(shown, 0))?;
    print(rt, b"\t", count(shown, 7))?;
    if crossings(shown, marks) != 0 {
        rt.write_all(b"\tW")?;
    }
    rt.write_all(b"\n")
}

// One more vertex than a board may have.
const MOST: usize = 1025;

// For how many vertices a 0 is lent, none of them being open. A vertex count that is larger is refused before its open bytes are counted.
fn unopened(vertices: usize) -> usize
    ensures { result ≤ 1025 }
{
    vertices.min(MOST)
}

fn print(rt: &impl Print, before: &[u8], n: u64) -> io::Result<()> {
    rt.write_all(before)?;
    print!(rt; "{n}")
}

// How many bytes are x.
fn count(bytes: &[u8], x: u8) -> u64 {
    bytes.iter().filter(|byte| **byte == x).count() as u64
}

// The exclusive or of the marks of the edges shown.
fn crossings(shown: &[u8], marks: &[u8]) -> u8 {
    let mut x = 0;
    for (byte, mark) in shown.iter().zip(marks) {
        if *byte == 1 {
            x ^= *mark;
        }
    }
    x
}
