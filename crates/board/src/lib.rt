// What the calls share: the tests 1 to 4, 6 to 9, 16 and 17 on what is lent, in the order of their numbers; copying into a lent buffer; the
// incidence lists of a board; counts of bytes; sets of few items as masks.
#![tactic(auto)]

pub mod bytes;
pub mod copy;
pub mod counting;
pub mod counts;
pub mod ends;
pub mod incidence;
pub mod largest;
pub mod masks;
pub mod opened;
pub mod tests;
