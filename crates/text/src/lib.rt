// The text form of a board with its syndrome and losses: the reader, the writer, and the line reader below them.
#![tactic(auto)]

mod field;
mod line;
mod order;
pub mod printing;
mod reader;
pub mod reading;
mod stage;
mod store;
pub mod writing;

pub use field::TAB;
pub use line::NEWLINE;
