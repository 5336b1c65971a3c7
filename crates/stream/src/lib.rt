// What the programs share: words in, lines out. Standard input is read to its end, whatever its
// length, through a room that the caller lends; lines leave through a lent page, so that a million of
// them take few calls of the system. No contract can say what is read or written: they say all else.
#![tactic(auto)]

mod input;
mod lines;
mod output;

pub use input::{Input, Over, Reader, STDIN_FILENO};
pub use output::Page;
