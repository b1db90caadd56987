// The line reader's typed door: what is read of a whole requirement line, by value, for callers in Rattle.
#![tactic(auto)]

mod door;

pub use door::{Requirement, SpanList, read_line};
