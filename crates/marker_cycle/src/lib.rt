// The marker reader's three functions that call each other, and the reading of a whole marker by them.
#![tactic(auto)]

mod cycle;

pub use cycle::read_from;
