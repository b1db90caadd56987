// The marker reader's typed door: what the cycle reads of a lent line, by value, for callers in Rattle.
#![tactic(auto)]

mod door;
mod gather;

pub use door::{read_marker, read_marker_from};
pub use gather::{Lists, empty_lists};
