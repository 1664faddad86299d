// Decodes the marked sheets and others, among them sheets at every limit and one past it, and prints a line for each: its growths, its
// number of correction edges and what it left in both buffers, or its refusal.
mod decoded;
mod further;
mod large;
mod limits;
mod marked;
mod refusals;
mod summary;

use std::io;

pub(crate) fn all(rt: &impl Print) -> io::Result<()> {
    marked::all(rt)?;
    further::all(rt)?;
    limits::all(rt)?;
    refusals::all(rt)
}
