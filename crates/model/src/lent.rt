// What is lent to the calls, as one value each: a board, and a sheet, which is a board with its syndrome and its losses, in bytes or in
// words.

// A board: the vertex count, two ends and a mark for each edge, and an open byte for each vertex.
#[derive(Clone, Copy)]
pub struct Board<'a> {
    pub vertices: usize,
    pub ends: &'a [u16],
    pub marks: &'a [u8],
    pub opened: &'a [u8],
}

// A sheet: a board, a syndrome byte for each vertex, and a loss byte for each edge.
#[derive(Clone, Copy)]
pub struct Sheet<'a> {
    pub board: Board<'a>,
    pub syndrome: &'a [u8],
    pub loss: &'a [u8],
}

// A packed sheet: a board, and the words of a syndrome and of losses, 64 items to a word.
#[derive(Clone, Copy)]
pub struct PackedSheet<'a> {
    pub board: Board<'a>,
    pub lit: &'a [u64],
    pub lost: &'a [u64],
}
