// Hands in sets for the marked sheets and for sheets with loop edges, right ones, ones that wind and ones that are off, and sets and sheets
// at every limit and one past it, and prints a line for each: the verdict, or its refusal.
mod judged;
mod loops;
mod marked;
mod refusals;

use std::io;

pub(crate) fn all(rt: &impl Print) -> io::Result<()> {
    marked::all(rt)?;
    loops::all(rt)?;
    refusals::all(rt)
}
