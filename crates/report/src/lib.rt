// What happened, as it is written: as lines of words, or as a table for people. Both are made of the same events.
#![tactic(auto)]

pub mod lines;
pub mod table;
